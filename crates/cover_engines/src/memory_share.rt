//! How much of a machine's memory the books of a run may take.

/// How many bytes the books of a run may take where nobody knows how much memory the machine has: a gigabyte.
pub const USUAL_BOOK_BYTES: u64 = 1_000_000_000;

/// The books of a run may take one of so many equal parts of the machine's memory, so that it stays usable, also if
/// several runs go on (docs/DECISIONS.md). Chosen, not measured.
const PARTS: u64 = 10;

/// How many bytes a kilobyte has in the text of `/proc/meminfo`.
const KILOBYTE: u64 = 1_024;

/// Returns how many bytes the books of a run may take on a machine whose `/proc/meminfo` has this text: a tenth of its
/// memory, or `USUAL_BOOK_BYTES` where the text doesn't say how much there is.
pub fn book_bytes_of(meminfo: &str) -> u64 {
    match memory_of(meminfo) {
        Some(bytes) if bytes >= PARTS => bytes / PARTS,
        _ => USUAL_BOOK_BYTES,
    }
}

/// How many bytes of memory a machine has whose `/proc/meminfo` has this text: the number of kilobytes between the
/// words `MemTotal:` and `kB`. None where there is no such number.
fn memory_of(meminfo: &str) -> Option<u64> {
    let mut words = meminfo.split_whitespace();
    let _label = words.find(|word| *word == "MemTotal:")?;
    let kilobytes = words.next()?.parse::<u64>().ok()?;
    if words.next()? != "kB" {
        return None;
    }
    kilobytes.checked_mul(KILOBYTE)
}

//! How large the books of a run may be: by the machine's memory, and by the request.
//!
//! Of the bugs of `cover_engines` that are kept outside the gate, `a_tenth_of_the_memory` finds
//! `books_take_all_of_the_memory`.

use super::{NOTHING, sized, solve_on};
use cover_engines::{Loopback, USUAL_BOOK_BYTES, book_bytes_of};
use run_settings::Request;
use std::test::Fail;

/// Texts of `/proc/meminfo`, and how many bytes the books of a run may take.
static TEXTS: [(&str, u64); 14] = [
    (
        "MemTotal:       24680384 kB\nMemFree:        15021004 kB\nMemAvailable:   17100440 kB\n",
        2_527_271_321,
    ),
    ("MemTotal: 1000 kB\n", 102_400),
    ("MemFree: 7 kB\nMemTotal: 10 kB\nSwapTotal: 0 kB\n", 1_024),
    ("MemTotal:\t1000   kB", 102_400),
    ("", USUAL_BOOK_BYTES),
    ("MemTotal:", USUAL_BOOK_BYTES),
    ("MemTotal: 1000", USUAL_BOOK_BYTES),
    ("MemTotal: 1000 MB\n", USUAL_BOOK_BYTES),
    ("MemTotal: many kB\n", USUAL_BOOK_BYTES),
    ("MemTotal: -1000 kB\n", USUAL_BOOK_BYTES),
    ("MemTotal: 0 kB\n", USUAL_BOOK_BYTES),
    ("MemTotal 1000 kB\n", USUAL_BOOK_BYTES),
    ("MemTotal: 18446744073709551615 kB\n", USUAL_BOOK_BYTES),
    ("MemTotal: 18446744073709551616 kB\n", USUAL_BOOK_BYTES),
];

#[test]
fn a_tenth_of_the_memory(rt: HostRuntime) -> Result<(), Fail> {
    for (text, bytes) in TEXTS {
        assert_eq!(rt; book_bytes_of(text), bytes, "{text}");
    }
    Ok(())
}

/// The pairs of thirteen items, those with the first item twice: no pairs cover thirteen items. A search visits some
/// 125,000 prefixes.
const PAIRS: &str = "a b c d e f g h i j k l m\n\
    a b\na c\na d\na e\na f\na g\na h\na i\na j\na k\na l\na m\n\
    a b\na c\na d\na e\na f\na g\na h\na i\na j\na k\na l\na m\n\
    b c\nb d\nb e\nb f\nb g\nb h\nb i\nb j\nb k\nb l\nb m\n\
    c d\nc e\nc f\nc g\nc h\nc i\nc j\nc k\nc l\nc m\n\
    d e\nd f\nd g\nd h\nd i\nd j\nd k\nd l\nd m\n\
    e f\ne g\ne h\ne i\ne j\ne k\ne l\ne m\n\
    f g\nf h\nf i\nf j\nf k\nf l\nf m\n\
    g h\ng i\ng j\ng k\ng l\ng m\n\
    h i\nh j\nh k\nh l\nh m\n\
    i j\ni k\ni l\ni m\n\
    j k\nj l\nj m\n\
    k l\nk m\n\
    l m\n";

/// What is written where the books are too large.
const TOO_LARGE: &str =
    "ended: the books are as large as they may be: try more --megabytes, or answer\n";

/// Whether a megabyte is asked for, how many bytes the machine has for books, and whether progress is written.
static BOUNDS: [(bool, u64, bool); 3] = [
    (true, USUAL_BOOK_BYTES, false),
    (true, USUAL_BOOK_BYTES, true),
    (false, 1_000_000, false),
];

/// Each job visits one prefix, so that there are many.
#[test]
fn large_books_end_a_run(rt: HostRuntime) -> Result<(), Fail> {
    for (is_asked, book_bytes, progress) in BOUNDS {
        let request = Request {
            settings: sized(1, 2, 1, 1),
            seconds: None,
            megabytes: if is_asked { Some(1) } else { None },
            progress,
            unlimited: false,
            threads: None,
            reason: false,
            certificate: None,
        };
        let network = Loopback {
            rt: &rt,
            random: &rt,
        };
        let solved = solve_on(&rt, rt.alloc(), network, PAIRS, &request, book_bytes);
        assert!(rt; solved.out.as_slice() == NOTHING.0.as_bytes());
        assert!(rt; solved.errors.as_slice().ends_with(TOO_LARGE.as_bytes()));
        assert_eq!(rt; solved.status, NOTHING.1);
    }
    Ok(())
}

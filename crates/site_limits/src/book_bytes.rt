//! How large the books of a run are.

ghost use Rattle.std.specs.Prelude.{◌≡◌};

use std::sync::atomic::{AtomicU64, Ordering};

/// How many bytes the books of all sites of a run take together, and how many they may. The sites' threads share it
/// without a lock, since no answer depends on it.
#[derive(Drop)]
pub struct BookBytes {
    taken: AtomicU64,
    most: u64,
}

impl BookBytes {
    /// Books without an entry, which may take so many bytes together.
    pub fn new(most: u64) -> BookBytes
        ensures { result.most ≡ most }
    {
        BookBytes {
            taken: AtomicU64::new(0),
            most,
        }
    }

    /// Counts an entry of so many bytes.
    pub fn add(&self, bytes: u64) {
        self.taken.fetch_add(bytes, Ordering::Relaxed);
    }

    /// How many bytes the books take.
    pub fn taken(&self) -> u64 {
        self.taken.load(Ordering::Relaxed)
    }

    /// How many bytes they may take.
    pub fn most(&self) -> u64
        ensures { result ≡ self.now.most }
    {
        self.most
    }

    /// Whether they take as many as they may, so that no entry more is to be made. Threads that look at once may each
    /// make one more.
    pub fn are_full(&self) -> bool {
        self.taken() >= self.most
    }
}

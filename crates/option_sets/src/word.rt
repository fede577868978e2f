//! A sparse bit set's unit: rows keep only the words that aren't zero, by rising places. Where few options name an item
//! its row is short, and two rows are gone through side by side, as in a merge.

/// A word of a set of options that isn't zero: which of its words it is, and the bits of that word.
#[derive(Clone, Copy)]
pub struct Word {
    /// Which word of the set it is: that of the options from 64 times this on.
    pub place: u16,
    /// Bit k stands for option 64 * place + k.
    pub bits: u64,
}

//! The two things that a caller may choose. Neither can make an answer wrong: a seed changes which cover is found and
//! when, and with too little memory the learner stops without an answer. Both defaults were chosen, not measured.

/// What a learner may use, and how it begins.
#[derive(Clone, Copy, Debug, PartialEq, Eq)]
pub struct Settings {
    /// The start of the drawn numbers by which options of equal activity are told apart.
    pub seed: u64,
    /// How many bytes the learned clauses may take, here and in the kernel together.
    pub memory: u64,
}

impl Settings {
    /// The first seed, and half a gigabyte.
    pub fn new() -> Settings {
        Settings {
            seed: 1,
            memory: 1 << 29,
        }
    }
}

//! How large a problem may be; readers and packets keep to it.

/// The most items that a problem has: the format's limit (docs/FORMAT.md), chosen and not measured. A cover has at most
/// as many options, so one fits into a datagram.
pub const MOST_ITEMS: usize = 1000;

/// The most options that a problem has: the format's limit, chosen and not measured. So an option's number has 15 bits,
/// and a learner's literal 16.
pub const MOST_OPTIONS: usize = 20000;

/// The most items that all options together have, each counted in each option (Knuth's nodes): the format's limit,
/// chosen and not measured.
pub const MOST_NODES: usize = 200000;

/// The most colours that the options of a problem have: the format's limit, chosen and not measured.
pub const MOST_COLOURS: usize = 10000;

/// The most bytes of a name of an item or a colour: the format's limit, chosen and not measured.
pub const MOST_BYTES: usize = 32;

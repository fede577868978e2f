//! The cases of an item.

use cover_reasons::Reason;

/// An option, and why no exact cover has it.
#[derive(Debug, Drop)]
pub struct Case {
    /// The option's number, counted from 0.
    pub option: u16,
    /// A reason of the problem once the option is chosen.
    pub reason: Reason,
}

/// Why no exact cover has an option of an item.
#[derive(Debug, Drop)]
pub struct Cases {
    /// The number of the item, which is primary.
    pub item: u16,
    /// A case for each option that names it, in file order.
    pub list: Vec<Case>,
}

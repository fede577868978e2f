//! What `Counts::push` gets of a choice: both levels at once, so that it can count the options that left or those that
//! stay, whichever are likely fewer. They are borrowed from the levels, and nothing is copied.

/// One more choice: which options were chosen before it, which is chosen now, and what is live before it and after it.
#[derive(Clone, Copy)]
pub struct ChoiceStep<'a> {
    /// The options that were chosen before.
    pub chosen: &'a [u16],
    /// The option that is chosen.
    pub option: u16,
    /// The options that are live before it.
    pub before: &'a [u64],
    /// Those that are live after it.
    pub live: &'a [u64],
}

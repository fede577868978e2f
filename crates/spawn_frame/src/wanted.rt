/// What a table looks for.
#[derive(Clone, Copy, Debug, PartialEq, Eq)]
pub enum Wanted {
    /// A unit that waits for a worker.
    Ready,
    /// A frame that is settled.
    Ripe,
    /// A unit that a worker of this site has.
    Here,
    /// An own child that was given to a thief.
    Out,
}

/// How a line refutes a case.
#[derive(Clone, Copy, Debug, PartialEq, Eq)]
pub(crate) enum Line {
    /// Each live option that names this item is chosen in turn, and the lines that follow refute what is left.
    Branch(u16),
    /// By a case that is kept, with this number.
    Within(usize),
    /// By a reason that was given, with this number.
    Reason(usize),
}

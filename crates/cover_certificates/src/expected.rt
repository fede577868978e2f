/// What was expected where a certificate is wrong.
#[derive(Clone, Copy, Debug, PartialEq, Eq)]
pub enum Expected {
    /// The line `none`.
    None,
    /// The line `cases` or `clauses`, with the numbers of items and of options of this problem.
    Counts,
    /// A line that refutes a case, such as an item's number.
    Refutation,
    /// The number of an item that is still to be covered.
    OpenItem,
    /// The number of a case that is kept.
    KeptCase,
    /// A kept case that has all options that are live here, those counted that name one of its items, and none of whose
    /// items is covered.
    WiderCase,
    /// A line that goes back only over a choice that plays no part in the refutation.
    IdleChoice,
    /// Weights or needs and room: of each item its number and an amount of 1 to 65,535.
    Amounts,
    /// The number of a reason.
    Reason,
    /// A reason that holds here.
    ReasonHere,
    /// A clause, or one that is to be forgotten: literals and hints, of options of this problem.
    Clause,
    /// A clause that follows along its hints.
    Following,
    /// The number of a clause that there is.
    KnownClause,
    /// The end of the text, since all is refuted.
    End,
}

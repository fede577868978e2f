/// Where a search goes on from the chosen options.
#[derive(Clone, Copy, Debug, PartialEq, Eq)]
pub enum Branch {
    /// Every primary item is covered.
    Complete,
    /// This is the uncovered primary item with fewest live options, the first of those.
    Item(u16),
}

//! Where a search goes on from the chosen options.

ghost use Rattle.std.specs.Prelude.{◌≡◌, ◌<◌, ◌++◌, [], length, OnOk, OnErr, true, false};
ghost use Rattle.cover_problem.specs.Prefix.{is_covered, is_prefix};
ghost use Rattle.cover_problem.specs.Branching.{live_options, branch_item};
ghost use Rattle.brancher.specs.Branch.{branch_told, IsOpenBranch};

use crate::branches::Branch;
use choices::Branching;
use dancing_links::Links;
use std::alloc::AllocError;

/// The branch item of the chosen options.
pub fn branch(links: &Links) -> Branch
    ensures item { branch_told result ≡ branch_item links.now.problem links.now.chosen }
    ensures uncovered { IsOpenBranch links.now.problem links.now.chosen result }
{
    match links.branch_item() {
        Some(item) => Branch::Item(item),
        None => Branch::Complete,
    }
}

/// Appends the live options of an uncovered item, in file order; if memory runs out, the list is as it was.
pub fn children(links: &Links, item: u16, list: &mut Vec<u16>) -> Result<(), AllocError>
    requires item { item < length links.now.problem.names }
    requires uncovered { is_covered links.now.problem links.now.chosen item ≡ false }
    ensures appended { OnOk result (list.new.items ≡ list.old.items
        ++ live_options links.now.problem links.now.chosen item) }
    ensures unchanged { OnErr result (list.new.items ≡ list.old.items) }
{
    list.reserve(links.count(item))?;
    for option in links.options_of(item) {
        list.push_reserved(option);
    }
    Ok(())
}

/// Puts a prefix in place of what is chosen. It takes no memory: all that was chosen is undone, and the prefix chosen.
pub fn choose_prefix(links: &mut Links, prefix: &[u16])
    requires { is_prefix links.old.problem prefix.now ≡ true }
    ensures problem { links.new.problem ≡ links.old.problem }
    ensures chosen { links.new.chosen ≡ prefix.now }
{
    put_prefix(links, prefix);
}

/// Puts a prefix in place of what is chosen in any state that a search branches over.
pub(crate) fn put_prefix<B: Branching>(state: &mut B, prefix: &[u16])
    requires { is_prefix (B.choices state.old).problem prefix.now ≡ true }
    ensures problem { (B.choices state.new).problem ≡ (B.choices state.old).problem }
    ensures chosen { (B.choices state.new).chosen ≡ prefix.now }
{
    undo_all(state);
    for option in prefix {
        state.choose(*option);
    }
}

/// Takes all choices back.
fn undo_all<B: Branching>(state: &mut B)
    ensures problem { (B.choices state.new).problem ≡ (B.choices state.old).problem }
    ensures chosen { (B.choices state.new).chosen ≡ [] }
{
    while !state.chosen().is_empty() {
        state.undo();
    }
}

//! What is left of a problem in one case.

ghost use Rattle.std.specs.Prelude.{◌≡◌, ◌<◌, ℕ, length, not, ◌&&◌, nat_lt, IfOk};
ghost use Rattle.cover_problem.specs.Prefix.{clash};
ghost use Rattle.cover_problem.specs.Problem.{names_item};
ghost use Rattle.option_sets.specs.Sets.{has};
ghost use Rattle.cover_certificates.specs.Cases.{has_item, IsCase};

use crate::items::Items;
use crate::tables::Tables;
use crate::words::has_option;
use std::alloc::{AllocError, Global};
use std::marker::Model;

/// The primary items that are to be covered, and the options that are live.
#[derive(Drop)]
pub(crate) struct Case {
    items: Items,
    live: Vec<u64>,
}

impl Model for Case {
    ghost use Rattle.cover_certificates.specs.Cases.{Case as CaseValue};

    ghost Value = { CaseValue };

    ghost view = { λ c. record { items = c.items; live = c.live.items } };
}

impl Case {
    /// Returns the case before any option is chosen; the only error is out of memory.
    pub(crate) fn whole(alloc: Global, tables: &Tables) -> Result<Case, AllocError>
        ensures case { IfOk result (IsCase tables.now) }
        ensures items { IfOk result (λ case. (i : ℕ) → has_item case.items i ≡ nat_lt i tables.now.primary) }
        ensures live { IfOk result (λ case. (x : ℕ) → has case.live x
            ≡ nat_lt x (length tables.now.options)) }
    {
        let items = Items::all(alloc, tables.primary())?;
        let mut live = vec![in alloc; 0u64; tables.sets().words()]?;
        tables.sets().fill(&mut live);
        Ok(Case { items, live })
    }

    /// Returns the items.
    pub(crate) fn items(&self) -> &Items
        ensures { result.now ≡ self.now.items }
    {
        &self.items
    }

    /// Returns the live options.
    pub(crate) fn live(&self) -> &[u64]
        ensures { result.now ≡ self.now.live }
    {
        &self.live
    }

    /// Returns whether an option is live.
    pub(crate) fn is_live(&self, option: u16) -> bool
        ensures { result ≡ has self.now.live option }
    {
        has_option(&self.live, option)
    }

    /// Returns the case in which an option is chosen, too; the only error is out of memory.
    pub(crate) fn child(
        &self,
        alloc: Global,
        tables: &Tables,
        option: u16,
    ) -> Result<Case, AllocError>
        requires option { option < length tables.now.options }
        requires case { IsCase tables.now self.now }
        ensures case { IfOk result (IsCase tables.now) }
        ensures items { IfOk result (λ case. (i : ℕ) → has_item case.items i
            ≡ (has_item self.now.items i && not (names_item tables.now option i))) }
        ensures live { IfOk result (λ case. (x : ℕ) → has case.live x
            ≡ (has self.now.live x && not (clash tables.now option x))) }
    {
        let mut items = self.items.copy()?;
        items.take_out(tables.sets().problem().option(option));
        let mut live = vec![in alloc; 0u64; self.live.len()]?;
        tables.sets().spare(option, &self.live, &mut live);
        Ok(Case { items, live })
    }

    /// Returns the case with the same live options and these items; the only error is out of memory.
    pub(crate) fn with_items(&self, items: &Items) -> Result<Case, AllocError>
        ensures { IfOk result (λ case. case ≡ record { items = items.now; live = self.now.live }) }
    {
        let items = items.copy()?;
        let live = self.live.clone()?;
        Ok(Case { items, live })
    }
}

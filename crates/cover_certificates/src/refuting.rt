//! The refutation of a case, as the lines of a certificate say.

ghost use Rattle.std.specs.Prelude.{◌≡◌, ◌<◌, ◌==◌, ℕ, length, true, IfOk};
ghost use Rattle.cover_problem.specs.Prefix.{clash};
ghost use Rattle.cover_problem.specs.Problem.{names_item};
ghost use Rattle.option_sets.specs.Sets.{has};
ghost use Rattle.cover_certificates.specs.Cases.{has_item, AreStuckIn, IsCase, IsStuckCase};

use crate::case::Case;
use crate::expected::Expected;
use crate::fault::Fault;
use crate::items::Items;
use crate::line::Line;
use crate::notes::reason_of;
use crate::reasons::items_by_reason;
use crate::script::Script;
use crate::sparing::are_spared;
use crate::tables::Tables;
use cover_reasons::Reason;
use std::alloc::Global;
use std::marker::Model;

/// What refutes cases: the lines of a certificate, and the cases that were refuted and kept. Contracts see the problem.
#[derive(Drop)]
pub(crate) struct Refuter<'a, 'b> {
    alloc: Global,
    tables: &'a Tables<'b>,
    /// The kept cases, each by its number; none where one was dropped.
    kept: Vec<Option<Case>>,
    /// The reasons that were given, each by its number.
    reasons: Vec<Reason>,
    script: Script<'a>,
}

impl<'a, 'b> Model for Refuter<'a, 'b> {
    ghost use Rattle.cover_problem.specs.Problem.{Problem as ProblemValue};
    ghost use Rattle.cover_certificates.specs.Cases.{AreStuckCases};

    ghost Value = { ProblemValue };

    ghost view = { λ r. r.tables.now };

    ghost invariant = { λ r. AreStuckCases r.tables.now r.kept.items };
}

impl<'a, 'b> Refuter<'a, 'b> {
    /// Nothing kept yet.
    pub(crate) fn new(alloc: Global, tables: &'a Tables<'b>, script: Script<'a>) -> Refuter<'a, 'b>
        ensures { result ≡ tables.now }
    {
        Refuter {
            alloc,
            tables,
            kept: Vec::new(alloc),
            reasons: Vec::new(alloc),
            script,
        }
    }

    /// Returns how many lines were read.
    pub(crate) fn lines(&self) -> u64 {
        self.script.lines()
    }

    /// Returns whether all lines were read.
    pub(crate) fn is_over(&self) -> bool {
        self.script.is_over()
    }

    /// Returns items of a case that can't be covered, as the next lines say. So many options are chosen in it.
    pub(crate) fn refute(&mut self, case: &Case, depth: usize) -> Result<Items, Fault>
        requires { IsCase self.old case.now }
        ensures same { self.new ≡ self.old }
        ensures stuck { IfOk result (AreStuckIn self.old case.now) }
    {
        let tables = self.tables;
        self.take_notes()?;
        let item = match self.script.refuting_line() {
            Some(Line::Branch(item)) => item,
            Some(Line::Within(number)) => {
                let used = self.within(case, number)?;
                return self.keep_if_said(case, used, depth);
            }
            Some(Line::Reason(number)) => {
                let used = self.by_reason(case, number)?;
                return self.keep_if_said(case, used, depth);
            }
            None => return Err(Fault::Wrong(Expected::Refutation)),
        };
        let mut used = self.open_item(case, item, depth)?;
        for option in tables.options_naming(item) {
            if case.is_live(*option) {
                let child = case.child(self.alloc, tables, *option)?;
                let below = self.refute(&child, depth + 1)?;
                if self.script.takes(b'^', depth) {
                    self.jump(case, &child, &below)?;
                    return self.keep_if_said(case, below, depth);
                }
                used.join(&below);
            }
        }
        self.keep_if_said(case, used, depth)
    }

    /// Returns the set of an item, if it is still to be covered.
    fn open_item(&self, case: &Case, item: u16, depth: usize) -> Result<Items, Fault>
        requires { IsCase self.now case.now }
        ensures open { IfOk result (λ items. has_item case.now.items item ≡ true) }
        ensures primary { IfOk result (λ items. item < self.now.primary) }
        ensures depth { IfOk result (λ items. depth < self.now.primary) }
        ensures long { IfOk result (λ items. length items ≡ self.now.primary) }
        ensures one { IfOk result (λ items. (i : ℕ) → has_item items i ≡ (item == i)) }
    {
        let primary = self.tables.primary();
        if item as usize >= primary || depth >= primary || !case.items().has(item) {
            return Err(Fault::Wrong(Expected::OpenItem));
        }
        Ok(Items::of(self.alloc, primary, item)?)
    }

    /// Returns the items of a kept case, if they can't be covered in this one either.
    fn within(&self, case: &Case, number: usize) -> Result<Items, Fault>
        requires { IsCase self.now case.now }
        ensures { IfOk result (AreStuckIn self.now case.now) }
    {
        match self.kept.get(number) {
            Some(Some(kept)) => items_within(self.tables, kept, case),
            _ => Err(Fault::Wrong(Expected::KeptCase)),
        }
    }

    /// Returns the items that a reason speaks of, if it shows that they can't be covered in this case.
    fn by_reason(&self, case: &Case, number: usize) -> Result<Items, Fault>
        ensures { IfOk result (AreStuckIn self.now case.now) }
    {
        let problem = self.tables.sets().problem();
        match self.reasons.get(number) {
            Some(reason) => items_by_reason(self.alloc, problem, case, reason),
            None => Err(Fault::Wrong(Expected::Reason)),
        }
    }

    /// Keeps some items of a case, which can't be covered, if the next line says so, and returns them.
    fn keep_if_said(&mut self, case: &Case, items: Items, depth: usize) -> Result<Items, Fault>
        requires case { IsCase self.old case.now }
        requires stuck { AreStuckIn self.old case.now items }
        ensures same { self.new ≡ self.old }
        ensures stuck { IfOk result (AreStuckIn self.old case.now) }
    {
        if self.script.takes(b'!', depth) {
            let kept = case.with_items(&items)?;
            self.kept.push(Some(kept))?;
        }
        Ok(items)
    }

    /// Tests that a choice plays no part in the refutation of what it leaves: items that can't be covered behind it
    /// can't be before it.
    fn jump(&self, case: &Case, child: &Case, items: &Items) -> Result<(), Fault>
        requires stuck { AreStuckIn self.now child.now items.now }
        requires within { (i : ℕ) → has_item child.now.items i ≡ true → has_item case.now.items i ≡ true }
        ensures { IfOk result (λ _. AreStuckIn self.now case.now items.now) }
    {
        if !are_spared(self.tables, items, case.live(), child.live()) {
            return Err(Fault::Wrong(Expected::IdleChoice));
        }
        Ok(())
    }

    /// Reads the lines in front of that of a case, which drop kept cases and give reasons.
    fn take_notes(&mut self) -> Result<(), Fault>
        ensures { self.new ≡ self.old }
    {
        // (each line has a byte at least)
        for _ in 0..self.script.left() {
            if self.script.begins(b'-') {
                self.drop_case()?;
            } else if self.script.begins(b'w') || self.script.begins(b'r') {
                self.take_reason()?;
            } else {
                break;
            }
        }
        Ok(())
    }

    /// Takes in the reason that the next line gives.
    fn take_reason(&mut self) -> Result<(), Fault>
        ensures { self.new ≡ self.old }
    {
        let problem = self.tables.sets().problem();
        let line = self.script.line();
        match reason_of(self.alloc, line, problem.primary(), problem.items())? {
            Some(reason) => self.reasons.push(reason)?,
            None => return Err(Fault::Wrong(Expected::Amounts)),
        }
        Ok(())
    }

    /// Drops a kept case, as the next line says.
    fn drop_case(&mut self) -> Result<(), Fault>
        ensures { self.new ≡ self.old }
    {
        let number = match self.script.number_behind_sign() {
            Some(number) => number,
            None => return Err(Fault::Wrong(Expected::KeptCase)),
        };
        if number >= self.kept.len() {
            return Err(Fault::Wrong(Expected::KeptCase));
        }
        self.kept[number] = None;
        Ok(())
    }
}

/// Returns the items of a kept case, if they can't be covered in another case either.
fn items_within(tables: &Tables, kept: &Case, case: &Case) -> Result<Items, Fault>
    requires { IsStuckCase tables.now kept.now }
    ensures { IfOk result (AreStuckIn tables.now case.now) }
{
    let items = kept.items();
    if !items.is_within(case.items()) || !are_spared(tables, items, case.live(), kept.live()) {
        return Err(Fault::Wrong(Expected::WiderCase));
    }
    Ok(items.copy()?)
}

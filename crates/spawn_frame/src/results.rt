//! Results of units, of which frames hear.

ghost use Rattle.std.specs.Prelude.{◌≡◌, IfNone, IfSome, slice_get, true};
ghost use Rattle.spawn_frame.specs.Frames.{frame, frame_result};
ghost use Rattle.spawn_frame.specs.Inlets.{frame_winner, heard_by};
ghost use Rattle.spawn_frame.specs.Picks.{is_split};
ghost use Rattle.spawn_frame.specs.Splits.{with_result};
ghost use Rattle.spawn_frame.specs.Tables.{has_status, may_end, parent_heard, GivesResult};
ghost use Rattle.spawn_frame.specs.declared.status.Status.{Status};
ghost use Rattle.spawn_frame.specs.Units.{table_gets, unit_of};

use crate::child_result::ChildResult;
use crate::heard::Heard;
use crate::inlet::Inlet;
use crate::status::Status;
use crate::table::Table;
use crate::unit::Unit;
use crate::units::tell_parent;

impl Table {
    /// Whether a frame is settled: a child of it has a cover, or all are empty. It costs a look for the unit.
    #[tactic(auto, using(crate::proofs::Winners::heard_is))]
    pub fn heard(&self, unit: Unit) -> Heard
        requires { has_status is_split (unit_of self.now unit) ≡ true }
        ensures { result ≡ heard_by (frame_result (frame unit self.now.own)) }
    {
        match self.work(unit) {
            Some(work) => work.heard(),
            None => unreachable!(),
        }
    }

    /// The child of a frame that has a cover, the one of least serial. Its cover is the frame's result; a frame that is
    /// settled and has none is empty. It costs a look for the unit.
    pub fn winner(&self, unit: Unit) -> Option<u32>
        requires { has_status is_split (unit_of self.now unit) ≡ true }
        ensures winner { result ≡ frame_winner unit self.now.own }
        ensures cover { IfSome result (GivesResult unit self.now.own) }
        ensures empty { IfNone result (IfSome (frame_result (frame unit self.now.own)) (λ came.
            came ≡ ChildResult.Empty)) }
    {
        match self.work(unit) {
            Some(work) => match &work.inlet {
                Some(inlet) => inlet.winner(),
                None => unreachable!(),
            },
            None => unreachable!(),
        }
    }

    /// Gives a unit its result: an own child is done, a guest is finished. If it is a child of a frame of this site,
    /// the frame hears of it, and the answer is whether that frame is settled now; else `Open`. It costs looks for the
    /// unit and its parent, and passes through their pages.
    pub fn set_result(&mut self, unit: Unit, child_result: ChildResult) -> Heard
        requires { has_status may_end (unit_of self.old unit) ≡ true }
        ensures after { self.new ≡ table_gets self.old unit (with_result unit child_result) }
        ensures heard { result ≡ parent_heard self.new unit }
    {
        match unit {
            Unit::Own(serial) => self.set_child_result(serial, child_result),
            Unit::Guest(..) => {
                self.set_status(unit, Status::Finished(child_result));
                // (a guest's parent is at its owner, so no frame here hears of it)
                Heard::Open
            }
        }
    }

    /// Gives an own child its result, of which its frame hears.
    fn set_child_result(&mut self, serial: u32, child_result: ChildResult) -> Heard
        requires { has_status may_end (slice_get self.old.own serial) ≡ true }
        ensures after { self.new
            ≡ table_gets self.old (Unit.Own serial) (Status.Done child_result) }
        ensures heard { result ≡ parent_heard self.new (Unit.Own serial) }
    {
        let parent = match self.own.get(serial) {
            Some(child) => child.parent,
            None => unreachable!(),
        };
        // (before the result moves into the child: the frame only looks at it, so no cover is copied)
        let heard = tell_parent(
            &mut self.own,
            &mut self.guests,
            parent,
            serial,
            &child_result,
        );
        self.own.set_status(serial, Status::Done(child_result));
        heard
    }
}

//! The root, and the result that enters for it.

ghost use Rattle.std.specs.Prelude.{◌≡◌, ◌≢◌, ◌≤◌, is_some, slice_get, true, OnErr, OnOk};
ghost use Rattle.std.specs.Bool.{OnFalse, OnTrue};
ghost use Rattle.node_core.specs.Acting.{refusal_told, Answered, MaySend};
ghost use Rattle.packet_wire.specs.declared.packet.Body.{Body};
ghost use Rattle.root_registry.specs.Core.{AnswersBody};
ghost use Rattle.root_registry.specs.Published.{entering_with, publishing};
ghost use Rattle.root_registry.specs.Refusal.{is_acceptable, root_hear_refusal};
ghost use Rattle.root_registry.specs.RegistryStep.{root_result};
ghost use Rattle.spawn_frame.specs.Tables.{has_status, is_out};
ghost use Rattle.spawn_frame.specs.declared.site.TheConstants.{LAST_NODE};
ghost use Rattle.steal_return.specs.Returns.{judged, Enters};

use crate::publication::{Publication, answer_of};
use crate::telling::send_over;
use cover_problem::{Problem, Verdict, check_cover};
use node_core::{ActFault, Outgoing, Reply, SiteState};
use packet_wire::{Body, Packet};
use spawn_frame::{Attempt, ChildResult, Site, Status, Unit};
use steal_return::Judged;

/// Whether the root is done.
pub(crate) fn is_done(state: &SiteState) -> bool
    ensures { result ≡ is_some (root_result state.now) }
{
    matches!(
        state.ledger().table().status(Unit::Own(0)),
        Some(Status::Done(_))
    )
}

/// Whether a result that a site returns for an own child at an attempt enters.
fn is_awaited(state: &SiteState, from: Site, serial: u32, attempt: Attempt) -> bool
    ensures enters { OnTrue result (judged (slice_get state.now.own serial) from attempt ≡ Enters) }
    ensures out { OnTrue result (has_status is_out (slice_get state.now.own serial) ≡ true) }
    ensures not_enters { OnFalse result
        (judged (slice_get state.now.own serial) from attempt ≢ Enters) }
{
    matches!(state.ledger().judge(from, serial, attempt), Judged::Enters)
}

/// Whether a result is no cover, or one that counts right.
fn is_acceptable(problem: &Problem, child_result: &ChildResult) -> bool
    ensures { result ≡ is_acceptable problem.now child_result.now }
{
    match child_result {
        ChildResult::Cover(options) => {
            matches!(check_cover(problem, options.as_slice()), Verdict::Exact)
        }
        ChildResult::Empty => true,
    }
}

/// A node asks for work: it is told that the search is over where the root is done, and else gets the root if that is
/// ready.
pub(crate) fn receive_steal(
    state: &mut SiteState,
    problem: &Problem,
    from: Site,
    out: &mut Outgoing,
) -> Result<Reply, ActFault>
    ensures step { Answered result out.old out.new
        (AnswersBody problem.now state.old from Body.Steal state.new) }
    ensures refusal { refusal_told result
        ≡ root_hear_refusal problem.now state.old from Body.Steal }
    ensures err { OnErr result (state.new ≡ state.old) }
    ensures list { OnErr result (MaySend out.old out.new) }
{
    if !is_done(state) {
        return state.receive_steal(from, out);
    }
    out.send(state.packet_to(from, Body::Over))?;
    Ok(Reply::Moved)
}

/// What a thief returns: the result of a child at an attempt.
#[derive(Drop)]
pub(crate) struct Returned {
    pub(crate) serial: u32,
    pub(crate) attempt: Attempt,
    pub(crate) result: ChildResult,
}

/// A thief returns a result: where it enters, a cover has to count right, every node is told that the search is over,
/// and the result is published.
pub(crate) fn receive_return(
    state: &mut SiteState,
    publication: &mut Publication,
    from: Site,
    returned: Returned,
    out: &mut Outgoing,
) -> Result<Reply, ActFault>
    requires { state.old.nodes ≤ LAST_NODE }
    ensures step { Answered result out.old out.new
        (AnswersBody publication.old.problem state.old from
        (Body.Return returned.serial returned.attempt returned.result) state.new) }
    ensures refusal { refusal_told result
        ≡ root_hear_refusal publication.old.problem state.old from
        (Body.Return returned.serial returned.attempt returned.result) }
    ensures err { OnErr result (state.new ≡ state.old) }
    ensures list { OnErr result (MaySend out.old out.new) }
    ensures published { OnOk result (publication.new
        ≡ publishing publication.old (entering_with state.old from
        (Body.Return returned.serial returned.attempt returned.result))) }
    ensures unpublished { OnErr result (publication.new ≡ publication.old) }
{
    let Returned {
        serial,
        attempt,
        result: child_result,
    } = returned;
    // (only a result that would enter is counted: a repeat costs no test of its cover)
    if !is_awaited(state, from, serial, attempt) {
        return state.receive_return(from, serial, attempt, child_result, out);
    }
    let problem = publication.problem();
    problem.recall_rules();
    if !is_acceptable(problem, &child_result) {
        return Err(ActFault::BadCover);
    }
    let answer = answer_of(state.allocator(), problem, &child_result)?;
    let result = child_result.copy()?;
    out.send(Packet {
        from: state.site(),
        to: from,
        body: Body::Accept {
            serial,
            attempt,
            result,
        },
    })?;
    send_over(state, out)?;
    // (all memory is taken by now, so the result enters and is published, or neither)
    state.enter(serial, child_result);
    publication.publish(answer);
    Ok(Reply::Moved)
}

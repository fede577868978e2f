//! Events that a site refuses have no step: each function is a law, and does nothing.

ghost use Rattle.std.specs.Prelude.{◌≡◌, ◌≢◌, ℕ, ◌<◌, ◌≤◌, true, false, List, [], ◌∷◌, ◌++◌, length, map, Some, None, slice_get};
ghost use Rattle.brancher.specs.Finding.{Finding, finding_by};
ghost use Rattle.cover_problem.specs.Branching.{children};
ghost use Rattle.cover_problem.specs.Prefix.{is_prefix};
ghost use Rattle.cover_problem.specs.Problem.{Problem};
ghost use Rattle.cover_problem.specs.Search.{Spent};
ghost use Rattle.cover_world.specs.Refusals.{IsAwaited, IsLastOut, IsOut, NodeRefuses, Refused, RegistryRefuses};
ghost use Rattle.node_core.specs.NodeStep.{NodeStep};
ghost use Rattle.node_core.specs.Results.{split_up};
ghost use Rattle.node_core.specs.SiteView.{View, unit_in};
ghost use Rattle.node_core.specs.declared.event.Event.{Event};
ghost use Rattle.node_core.specs.declared.event.Event.TheVariants.{Ask, Deliver, Finish, Greet, Post, Redo, Take};
ghost use Rattle.node_core.specs.declared.reply.Reply.{Reply};
ghost use Rattle.packet_wire.specs.declared.packet.Body.TheVariants.{Give, Hello, Members, Return};
ghost use Rattle.packet_wire.specs.declared.packet.Packet.{Packet};
ghost use Rattle.root_registry.specs.RegistryStep.{IsAcceptable, is_earlier_incarnation, raised};
ghost use Rattle.spawn_frame.specs.Aborts.{is_open};
ghost use Rattle.spawn_frame.specs.Frames.{frame, frame_result};
ghost use Rattle.spawn_frame.specs.Units.{Entry, guest_in, last_attempt};
ghost use Rattle.spawn_frame.specs.declared.cause.Cause.TheVariants as causes;
ghost use Rattle.spawn_frame.specs.declared.child_result.ChildResult.{ChildResult};
ghost use Rattle.spawn_frame.specs.declared.site.Site.{Site};
ghost use Rattle.spawn_frame.specs.declared.status.Status.TheVariants.{Out, Split};
ghost use Rattle.spawn_frame.specs.declared.unit.Job.{Job};
ghost use Rattle.spawn_frame.specs.declared.unit.Unit.{Unit as WorkUnit};
ghost use Rattle.steal_return.specs.Members.{now_known};
ghost use Rattle.steal_return.specs.Returns.{Enters, judged};
ghost use Rattle.steal_return.specs.Steals.{is_older};

/// A packet for another site, another incarnation of the same node too, changes nothing and isn't answered.
pub fn packet_for_another_site()
    ensures node { (problem : Problem) (view : View) (packet : Packet) → packet.to ≢ view.site →
        NodeRefuses problem view (Deliver packet) }
    ensures registry { (problem : Problem) (view : View) (packet : Packet) → packet.to ≢ view.site →
        RegistryRefuses problem view (Deliver packet) }
{}

/// A packet from a node that there isn't changes nothing and isn't answered.
pub fn packet_of_no_node()
    ensures node { (problem : Problem) (view : View) (packet : Packet) →
        view.nodes < packet.from.node → NodeRefuses problem view (Deliver packet) }
    ensures registry { (problem : Problem) (view : View) (packet : Packet) →
        view.nodes < packet.from.node → RegistryRefuses problem view (Deliver packet) }
{}

/// A node that is over takes part no more.
pub fn node_that_is_over()
    ensures { (problem : Problem) (view : View) (event : Event) → view.over ≡ true →
        NodeRefuses problem view event }
{}

/// A result is taken only for a job that the site waits for, with its prefix.
pub fn stale_job()
    ensures { (problem : Problem) (view : View) (job : Job) (finding : Finding) →
        (IsAwaited view job finding → ⊥) →
        NodeRefuses problem view (Post job finding) }
{}

/// A finding with no fuel, which could call a complete prefix spent, is taken from nobody.
pub fn finding_without_fuel()
    ensures { (problem : Problem) (view : View) (job : Job) (finding : Finding) → finding.fuel ≡ 0 →
        NodeRefuses problem view (Post job finding) }
{}

/// A unit isn't split into more children than the site may name.
pub fn names_spent()
    ensures { (problem : Problem) (view : View) (job : Job) (prefix : List ℕ) (fuel : ℕ) →
        view.limit < length (split_up problem view job.unit prefix).own →
        NodeRefuses problem view (Post job (finding_by prefix fuel Spent)) }
{}

/// Only a unit that is split is finished, and only once its frame is settled.
pub fn unsettled_frame()
    ensures unsettled { (problem : Problem) (view : View) (unit : WorkUnit) →
        frame_result (frame unit view.own) ≡ None →
        NodeRefuses problem view (Finish unit) }
    ensures unopened { (problem : Problem) (view : View) (unit : WorkUnit) →
        ((entry : Entry) → unit_in view unit ≡ Some entry → entry.status ≢ Split) →
        NodeRefuses problem view (Finish unit) }
{}

/// Nobody asks itself for work, nor a node that there isn't.
pub fn no_such_victim()
    ensures itself { (problem : Problem) (view : View) →
        NodeRefuses problem view (Ask view.site.node) }
    ensures beyond { (problem : Problem) (view : View) (victim : ℕ) → view.nodes < victim →
        NodeRefuses problem view (Ask victim) }
{}

/// Only a child that is out is redone, and not after its last attempt.
pub fn redo_of_no_use()
    ensures not_out { (problem : Problem) (view : View) (serial : ℕ) → (IsOut view serial → ⊥) →
        NodeRefuses problem view (Redo serial) }
    ensures last { (problem : Problem) (view : View) (serial : ℕ) (entry : Entry) →
        slice_get view.own serial ≡ Some entry → entry.attempt ≡ last_attempt →
        NodeRefuses problem view (Redo serial) }
{}

/// Nor does the registry redo a child that isn't out, or one after its last attempt; where it has
/// the root alone, it redoes no other.
pub fn root_redo_of_no_use()
    ensures not_out { (problem : Problem) (view : View) (serial : ℕ) → (IsOut view serial → ⊥) →
        RegistryRefuses problem view (Redo serial) }
    ensures last { (problem : Problem) (view : View) (serial : ℕ) (thief : Site) →
        IsLastOut view serial thief → RegistryRefuses problem view (Redo serial) }
    ensures other { (problem : Problem) (view : View) (serial : ℕ) (root : Entry) →
        view.own ≡ root ∷ [] → serial ≢ 0 → RegistryRefuses problem view (Redo serial) }
{}

/// Nothing is learnt of the others where a child would have to be redone and stands at its last
/// attempt.
pub fn lost_at_the_last_attempt()
    ensures members { (problem : Problem) (view : View) (packet : Packet) (incarnations : List ℕ)
        (serial : ℕ) (thief : Site) → packet.body ≡ Members incarnations →
        IsLastOut view serial thief →
        is_older (now_known view.site.node view.known incarnations) thief ≡ true →
        NodeRefuses problem view (Deliver packet) }
    ensures hello { (problem : Problem) (view : View) (packet : Packet) (known : List ℕ)
        (serial : ℕ) (thief : Site) → packet.body ≡ Hello → IsLastOut view serial thief →
        known ≡ raised view.known packet.from.node packet.from.incarnation →
        is_earlier_incarnation packet.from.node known thief ≡ true →
        RegistryRefuses problem view (Deliver packet) }
{}

/// A list that is no prefix makes no guest: unless the packet is ignored, it has no step.
pub fn no_prefix_given()
    ensures { (problem : Problem) (view : View) (from to : Site) (serial attempt : ℕ)
        (prefix : List ℕ) →
        is_older view.known from ≡ false → guest_in view.guests
        (record { site = from; serial = serial }) attempt ≡ None →
        is_prefix problem prefix ≡ false →
        NodeRefuses problem view (Deliver (record {
          from = from;
          to = to;
          body = Give serial
              attempt prefix;
        })) }
{}

/// A result at an attempt that the owner has superseded enters nothing, nor does one of a site that isn't the thief: it
/// is refused, and nothing changes.
pub fn superseded_return()
    ensures earlier { (problem : Problem) (old new : View) (packet : Packet) (serial attempt : ℕ)
        (returned : ChildResult)
        (entry : Entry) (reply : Reply) (out : List Packet) →
        packet.body ≡ Return serial attempt returned → slice_get old.own serial ≡ Some entry →
        attempt < entry.attempt →
        is_open entry.status ≡ true → NodeStep problem old (Deliver packet) reply out new →
        Refused old packet.from serial attempt causes.Superseded reply out new }
    ensures stranger { (problem : Problem) (old new : View) (packet : Packet) (serial attempt : ℕ)
        (returned : ChildResult)
        (entry : Entry) (thief : Site) (reply : Reply) (out : List Packet) →
        packet.body ≡ Return serial attempt returned → slice_get old.own serial ≡ Some entry →
        attempt ≤ entry.attempt →
        entry.status ≡ Out thief → thief ≢ packet.from →
        NodeStep problem old (Deliver packet) reply out new →
        Refused old packet.from serial attempt causes.Superseded reply out new }
{}

/// A cover that doesn't count right never enters at the registry.
pub fn wrong_cover()
    ensures { (problem : Problem) (view : View) (packet : Packet) (serial attempt : ℕ)
        (returned : ChildResult) →
        packet.body ≡ Return serial attempt returned →
        judged (slice_get view.own serial) packet.from attempt ≡ Enters →
        (IsAcceptable problem returned → ⊥) → RegistryRefuses problem view (Deliver packet) }
{}

/// The registry searches nothing and asks for nothing.
pub fn registry_does_no_work()
    ensures take { (problem : Problem) (view : View) → RegistryRefuses problem view Take }
    ensures post { (problem : Problem) (view : View) (job : Job) (finding : Finding) →
        RegistryRefuses problem view (Post job finding) }
    ensures finish { (problem : Problem) (view : View) (unit : WorkUnit) →
        RegistryRefuses problem view (Finish unit) }
    ensures ask { (problem : Problem) (view : View) (victim : ℕ) →
        RegistryRefuses problem view (Ask victim) }
    ensures greet { (problem : Problem) (view : View) → RegistryRefuses problem view Greet }
{}

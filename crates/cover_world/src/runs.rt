//! Seven runs of two nodes, event by event with their packets: each function is a law, and does nothing.

ghost use Rattle.std.specs.Prelude.{◌≡◌, ◌∷◌, [], None, Some, true};
ghost use Rattle.cover_problem.specs.Examples.{bare, small};
ghost use Rattle.cover_problem.specs.declared.answer.Answer.TheVariants as answers;
ghost use Rattle.cover_world.specs.LaterIncarnations as later_incarnations;
ghost use Rattle.cover_world.specs.Overtaken as overtaken;
ghost use Rattle.cover_world.specs.Overtaken.{two_ways};
ghost use Rattle.cover_world.specs.Plays.{IsRefused, Plays, entry_in, limits, over_in, root_guest, status_in};
ghost use Rattle.cover_world.specs.Repeated as repeated;
ghost use Rattle.cover_world.specs.Safety.{published};
ghost use Rattle.cover_world.specs.SaidAgain as said_again;
ghost use Rattle.cover_world.specs.Siblings as siblings;
ghost use Rattle.cover_world.specs.Siblings.{four_ways};
ghost use Rattle.cover_world.specs.Stolen as stolen;
ghost use Rattle.cover_world.specs.Worlds.{Acts, opening_world};
ghost use Rattle.node_core.specs.declared.event.Event.TheVariants.{Deliver};
ghost use Rattle.spawn_frame.specs.declared.child_result.ChildResult.TheVariants.{Cover, Empty};
ghost use Rattle.spawn_frame.specs.declared.status.Status.TheVariants.{Aborted, Done, Dropped, Finished, Ready, Settled};
ghost use Rattle.spawn_frame.specs.declared.unit.Unit.TheVariants.{Own};

// (a run is a list of events, and its proof computes what they do: so the bodies are empty)
/// One item and no option. A node searches the root and returns that there is none; the packet comes twice. The first
/// time none is published; the second time the registry sends an equal packet of acceptance and changes nothing.
pub fn repeated_result()
    ensures run { Plays bare (opening_world 2 limits) repeated.events repeated.packets (λ end.
        (published bare end ≡ Some answers.NoCover) × (status_in end 1 (root_guest 1)
        ≡ Some (Settled Empty))) }
{}

/// One item with two options. The root is given out twice, the thieves find different covers, and the second thief's
/// comes first. It is published, and both thieves settle on it.
pub fn overtaken_result()
    ensures run { Plays two_ways (opening_world 2 limits) overtaken.events overtaken.packets (λ end.
        (published two_ways end ≡ Some (answers.Cover (1 ∷ [])))
        × (status_in end 1 (root_guest 1) ≡ Some (Settled (Cover (1 ∷ []))))
        × (status_in end 2 (root_guest 2) ≡ Some (Settled (Cover (1 ∷ []))))
        × (status_in end 2 (Own 0) ≡ Some Aborted)) }
{}

/// Seven items with one exact cover. A frame finishes with it while another child is out; that child's late result is
/// refused, the child stays aborted, and the thief drops its guest.
pub fn late_result()
    ensures run { Plays small (opening_world 2 limits) stolen.late_events stolen.late_packets
        (λ end.
        (published small end ≡ Some (answers.Cover (0 ∷ 3 ∷ 4 ∷ [])))
        × (status_in end 1 (Own 0) ≡ Some Aborted)
        × (status_in end 2 stolen.stolen ≡ Some Dropped)) }
{}

/// The thief of a child restarts. Its owner learns of that and redoes the child; the result of the thief's earlier
/// incarnation is refused then, and the packets to that one find nobody.
pub fn thief_begins_anew()
    ensures run { Plays small (opening_world 2 limits) stolen.anew_events stolen.anew_packets
        (λ end.
        (entry_in end 1 (Own 0) ≡ Some (record {
          parent = Some
              (root_guest 1);
          prefix = 1 ∷ [];
          attempt = 2;
          status = Ready;
        }))
        × IsRefused small end (Acts 2 (Deliver stolen.child_give))
        × IsRefused small end (Acts 2 (Deliver stolen.anew_refuse))) }
{}

/// A greeting of an earlier incarnation comes late, and no known incarnation falls. A root that is out is redone; it,
/// its result and that the search is over are said again, and a node that asks for work then hears that it is over.
pub fn said_again()
    ensures run { Plays bare (opening_world 2 limits) said_again.events said_again.packets (λ end.
        (published bare end ≡ Some answers.NoCover) × (over_in end 1 ≡ Some true)) }
{}

/// A node restarts while the root is out to another one: the root stays out there. The thief is told of the node's
/// later incarnation and asks that one for work. Then the thief restarts, and the root is ready again at the next
/// attempt.
pub fn later_incarnations()
    ensures run { Plays bare (opening_world 2 limits) later_incarnations.events later_incarnations.packets (λ end.
        entry_in end 0 (Own 0) ≡ Some (record {
          parent = None;
          prefix = [];
          attempt = 2;
          status =
              Ready;
        })) }
{}

/// One item with four options. The second node is given two children of the root with one packet, which comes twice:
/// the second time it is ignored. The cover of the first child ends the search; the other child's guest is dropped.
pub fn given_together()
    ensures run { Plays four_ways (opening_world 2 limits) siblings.events siblings.packets (λ end.
        (published four_ways end ≡ Some (answers.Cover (0 ∷ [])))
        × (status_in end 2 (siblings.stolen 0) ≡ Some (Finished (Cover (0 ∷ []))))
        × (status_in end 2 (siblings.stolen 1) ≡ Some Dropped)
        × (status_in end 1 (Own 2) ≡ Some Aborted)) }
{}

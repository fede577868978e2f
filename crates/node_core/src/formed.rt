//! What is true of every view that a node reaches, and of every packet that it puts out.

ghost use Rattle.std.specs.Prelude.{ℕ, List};
ghost use Rattle.cover_problem.specs.Problem.{IsProblem, Problem};
ghost use Rattle.node_core.specs.Formed.{AllFormed, FormedStep, IsFormedNode, MayBegin};
ghost use Rattle.node_core.specs.SiteView.{View, opening_view};
ghost use Rattle.node_core.specs.declared.event.Event.{Event};
ghost use Rattle.node_core.specs.declared.reply.Reply.{Reply};
ghost use Rattle.packet_wire.specs.declared.packet.Packet.{Packet};
ghost use Rattle.spawn_frame.specs.declared.site.Site.{Site};
ghost use Rattle.steal_return.specs.Ledger.{opening_ledger};

/// What is true of a node when it begins stays true at each of its steps, and each packet that it
/// puts out has a spelling: so long as each packet that arrives has one, and each finding is right.
pub fn nodes_stay_formed()
    ensures begins { (problem : Problem) (site : Site) (nodes limit : ℕ) → IsProblem problem →
        MayBegin site nodes limit →
        IsFormedNode problem (opening_view (opening_ledger site nodes limit)) }
    ensures keeps { (problem : Problem) (old new : View) (event : Event) (reply : Reply)
        (out : List Packet) →
        FormedStep problem old event reply out new → IsFormedNode problem new }
    ensures sends { (problem : Problem) (old new : View) (event : Event) (reply : Reply)
        (out : List Packet) →
        FormedStep problem old event reply out new → AllFormed out }
{}

//! What is true of every view that the registry reaches, and of every packet that it puts out.

ghost use Rattle.std.specs.Prelude.{◌≤◌, ℕ, List};
ghost use Rattle.cover_problem.specs.Problem.{IsProblem, Problem};
ghost use Rattle.node_core.specs.Formed.{AllFormed};
ghost use Rattle.node_core.specs.SiteView.{View, opening_view};
ghost use Rattle.node_core.specs.declared.event.Event.{Event};
ghost use Rattle.node_core.specs.declared.reply.Reply.{Reply};
ghost use Rattle.packet_wire.specs.declared.packet.Packet.{Packet};
ghost use Rattle.root_registry.specs.Formed.{FormedRegistryStep, IsFormedRegistry};
ghost use Rattle.steal_return.specs.Ledger.{root_ledger};
ghost use Rattle.spawn_frame.specs.declared.site.TheConstants.{LAST_NODE};

/// What is true of the registry when it begins stays true at each of its steps, and each packet
/// that it puts out has a spelling: so long as each packet that arrives has one.
pub fn the_registry_stays_formed()
    ensures begins { (problem : Problem) (nodes : ℕ) → IsProblem problem →
        1 ≤ nodes → nodes ≤ LAST_NODE → IsFormedRegistry problem (opening_view
        (root_ledger nodes)) }
    ensures keeps { (problem : Problem) (old new : View) (event : Event) (reply : Reply)
        (out : List Packet) →
        FormedRegistryStep problem old event reply out new → IsFormedRegistry problem new }
    ensures sends { (problem : Problem) (old new : View) (event : Event) (reply : Reply)
        (out : List Packet) →
        FormedRegistryStep problem old event reply out new → AllFormed out }
{}

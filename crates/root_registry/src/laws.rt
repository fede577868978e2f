//! What holds of the definitions: each function is a law, and does nothing.

ghost use Rattle.std.specs.Prelude.{◌≡◌, List, None, Some};
ghost use Rattle.cover_problem.specs.Problem.{IsProblem, Problem};
ghost use Rattle.node_core.specs.Refusal.{IsFit};
ghost use Rattle.node_core.specs.SiteView.{View};
ghost use Rattle.node_core.specs.declared.event.Event.{Event};
ghost use Rattle.node_core.specs.declared.reply.Reply.{Reply};
ghost use Rattle.packet_wire.specs.declared.packet.Packet.{Packet};
ghost use Rattle.root_registry.specs.Formed.{IsFormedRegistry};
ghost use Rattle.root_registry.specs.Published.{entering};
ghost use Rattle.root_registry.specs.RegistryStep.{RegistryStep, root_result};
ghost use Rattle.root_registry.specs.Refusal.{IsRegistryView, RegistryActs, registry_refusal};
ghost use Rattle.spawn_frame.specs.declared.child_result.ChildResult.{ChildResult};

/// An event of the registry has a step exactly where nothing refuses it: none where there is a
/// fault, and some where there is none, of each packet that has a spelling.
pub fn the_registry_acts_unless_it_refuses()
    ensures unrefused { (problem : Problem) (view : View) (event : Event) →
        RegistryActs problem view event → registry_refusal problem view event ≡ None }
    ensures acts { (problem : Problem) (view : View) (event : Event) →
        IsProblem problem → IsRegistryView view → IsFit problem event →
        registry_refusal problem view event ≡ None → RegistryActs problem view event }
{}

/// The result that enters by an event is the root's from then on, and an event by which none enters
/// leaves the root's result as it was.
pub fn the_root_has_what_enters()
    ensures enters { (problem : Problem) (old new : View) (event : Event) (reply : Reply)
        (out : List Packet) (entered : ChildResult) → IsFormedRegistry problem old →
        RegistryStep problem old event reply out new → entering old event ≡ Some entered →
        root_result new ≡ Some entered }
    ensures leaves { (problem : Problem) (old new : View) (event : Event) (reply : Reply)
        (out : List Packet) → RegistryStep problem old event reply out new →
        entering old event ≡ None → root_result new ≡ root_result old }
{}

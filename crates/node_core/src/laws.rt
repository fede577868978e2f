//! What holds of the definitions: each function is a law, and does nothing.

ghost use Rattle.std.specs.Prelude.{◌≡◌, None};
ghost use Rattle.cover_problem.specs.Problem.{Problem};
ghost use Rattle.node_core.specs.Refusal.{node_refusal, IsFit, IsNodeView, NodeActs};
ghost use Rattle.node_core.specs.SiteView.{View};
ghost use Rattle.node_core.specs.declared.event.Event.{Event};

/// An event of a node has a step exactly where nothing refuses it: none where there is a fault, and
/// some where there is none, of each packet that has a spelling and each finding that is right.
pub fn nodes_act_unless_they_refuse()
    ensures unrefused { (problem : Problem) (view : View) (event : Event) →
        NodeActs problem view event → node_refusal problem view event ≡ None }
    ensures acts { (problem : Problem) (view : View) (event : Event) →
        IsNodeView view → IsFit problem event →
        node_refusal problem view event ≡ None → NodeActs problem view event }
{}

//! What holds of every run: each function is a law, and does nothing.

ghost use Rattle.std.specs.Prelude.{◌≡◌, ℕ, Bool, true, false, List, None, Some};
ghost use Rattle.cover_problem.specs.Problem.{IsProblem, Problem};
ghost use Rattle.cover_world.specs.Coverage.{AllCovered};
ghost use Rattle.cover_world.specs.Determined.{IsDetermined, IsDeterminedByChoice};
ghost use Rattle.cover_world.specs.Moves.{meaning, world_refusal, IsWorldView, WorldActs};
ghost use Rattle.cover_world.specs.Safety.{Safe};
ghost use Rattle.cover_world.specs.Simulation.{Simulated, Simulation};
ghost use Rattle.cover_world.specs.Thieves.{CallsOff, PutsOut, call_off};
ghost use Rattle.cover_world.specs.Worlds.{opening_world, Run, SiteStep, World, WorldMove, WorldStep};
ghost use Rattle.cover_world.specs.declared.world_event.WorldEvent.{WorldEvent};
ghost use Rattle.node_core.specs.NodeStep.{NodeStep};
ghost use Rattle.node_core.specs.SiteView.{View};
ghost use Rattle.node_core.specs.declared.event.Event.{Event};
ghost use Rattle.node_core.specs.declared.reply.Reply.{Reply};
ghost use Rattle.packet_wire.specs.declared.packet.Packet.{Packet};
ghost use Rattle.root_registry.specs.RegistryStep.{RegistryStep};
ghost use Rattle.spawn_frame.specs.Aborts.{IsBelow};
ghost use Rattle.spawn_frame.specs.Names.{same_unit};
ghost use Rattle.spawn_frame.specs.Units.{Entry};
ghost use Rattle.spawn_frame.specs.declared.site.Site.{Site};
ghost use Rattle.spawn_frame.specs.declared.unit.Unit.{Unit as WorkUnit};
ghost use Rattle.spawn_frame.specs.declared.unit.Unit.TheVariants.{Own};

use node_core::nodes_act_unless_they_refuse;
use root_registry::the_registry_acts_unless_it_refuses;

/// Whatever list of searches, deliveries, losses, repeats, reorderings, steals, aborts and restarts
/// a world of sites runs through, its registry never restarted: no child has two accepted results, no
/// result enters a parent that aborted the child or superseded its attempt, every published cover is an
/// exact cover, none is published only where there is none, and what is published stays.
pub fn safe_over_every_run()
    ensures safe { (problem : Problem) (nodes : ℕ) (limits : List ℕ) (now end : World)
        (e : Run problem (opening_world nodes limits) now) (f : Run problem now end) → Safe e f }
    ensures covered { (problem : Problem) (nodes : ℕ) (limits : List ℕ) (now : World) →
        Run problem (opening_world nodes limits) now → AllCovered problem now }
{}

/// What is below an own child that is itself below the units is below them, so an abort reaches all of it.
pub fn below_goes_on()
    ensures { (top : WorkUnit → Bool) (own : List Entry) (upper lower : ℕ) → IsBelow top own upper →
        IsBelow (same_unit (Own upper)) own lower → IsBelow top own lower }
{}

/// A step of a site is determined by its view and the event, but for the children that a Steal is
/// given; and of a Steal too, once it is known which children are given, or that none is.
pub fn step_is_determined()
    ensures node { IsDetermined NodeStep }
    ensures registry { IsDetermined RegistryStep }
    ensures node_choice { IsDeterminedByChoice NodeStep }
    ensures registry_choice { IsDeterminedByChoice RegistryStep }
{}

/// A step of a site changes neither which site it is nor how many nodes it knows of.
pub fn steps_keep_the_site()
    ensures site { (node : ℕ) (problem : Problem) (old new : View) (event : Event) (reply : Reply)
        (out : List Packet) → SiteStep node problem old event reply out new →
        new.site ≡ old.site }
    ensures nodes { (node : ℕ) (problem : Problem) (old new : View) (event : Event) (reply : Reply)
        (out : List Packet) → SiteStep node problem old event reply out new →
        new.nodes ≡ old.nodes }
{}

/// Where an own child that is out is aborted, its thief is told so in the same step, whatever the event is.
pub fn thieves_are_told()
    ensures { (problem : Problem) (old new : View) (event : Event) (reply : Reply)
        (out : List Packet) (serial : ℕ) (entry : Entry) (thief : Site) →
        CallsOff old new serial entry thief → NodeStep problem old event reply out new →
        PutsOut out (call_off old.site serial entry thief) }
{}

/// A world that a simulation comes to is reached by a run, so all that holds of every run holds of it.
pub fn a_simulation_is_a_run()
    ensures { (problem : Problem) (fuel turns : ℕ) (old : Simulation) (new : World) →
        Simulated problem fuel turns old new → Run problem old.world new }
{}

/// A simulation comes to one world: its problem, the world that it begins with, its generator and its settings
/// determine what it publishes.
pub fn a_simulation_comes_to_one_world()
    ensures { (problem : Problem) (fuel turns : ℕ) (old : Simulation) (new other : World) →
        Simulated problem fuel turns old new → Simulated problem fuel turns old other →
        new ≡ other }
{}

/// An event of a world has a step exactly where nothing refuses it: none where there is a fault, and
/// some where there is none. What is asked of the world is so of each `World`: `incarnation` and `sent` say it.
pub fn the_world_acts_unless_it_refuses()
    ensures unrefused { (problem : Problem) (old new : World) (event : WorldEvent)
        (move : WorldMove) →
        meaning problem old event ≡ Some move → WorldStep problem old move new →
        world_refusal problem old event ≡ None }
    ensures acts { (problem : Problem) (old : World) (event : WorldEvent) →
        IsProblem problem → IsWorldView old → world_refusal problem old event ≡ None →
        WorldActs problem old event }
{
    nodes_act_unless_they_refuse();
    the_registry_acts_unless_it_refuses();
}

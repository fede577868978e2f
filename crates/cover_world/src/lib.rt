//! The registry and the nodes as one world, and what holds of each of its runs.
#![tactic(auto)]

mod draws;
mod laws;
mod lookups;
mod refusals;
mod runs;
mod simulation;
mod sites;
mod world;
mod world_event;
mod world_fault;

pub use laws::{
    a_simulation_comes_to_one_world, a_simulation_is_a_run, below_goes_on, safe_over_every_run,
    step_is_determined, steps_keep_the_site, the_world_acts_unless_it_refuses, thieves_are_told,
};
pub use refusals::{
    finding_without_fuel, lost_at_the_last_attempt, names_spent, no_prefix_given, no_such_victim,
    node_that_is_over, packet_for_another_site, packet_of_no_node, redo_of_no_use,
    registry_does_no_work, root_redo_of_no_use, stale_job, superseded_return, unsettled_frame,
    wrong_cover,
};
pub use runs::{
    given_together, late_result, later_incarnations, overtaken_result, repeated_result, said_again,
    thief_begins_anew,
};
pub use simulation::simulate;
pub use world::World;
pub use world_event::WorldEvent;
pub use world_fault::{Starved, WorldFault};

//! The events of a site, and what a node does at each of them.
#![tactic(auto)]

mod act_fault;
mod arrivals;
mod core_trait;
mod event;
mod formed;
mod laws;
mod longer;
mod membership;
mod node;
mod outgoing;
mod reply;
mod requests;
mod results;
mod root_calls;
mod site_state;
mod taking;

pub use act_fault::ActFault;
pub use core_trait::Core;
pub use event::Event;
pub use formed::nodes_stay_formed;
pub use laws::nodes_act_unless_they_refuse;
pub use node::{NodeCore, is_misdirected};
pub use outgoing::{Outgoing, ReadyPacket};
pub use reply::Reply;
pub use site_state::SiteState;

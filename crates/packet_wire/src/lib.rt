//! Packets between sites, and their bytes.
#![tactic(auto)]

mod fault;
mod incarnations;
mod kind;
mod laws;
mod packet;
mod reading;
mod well_formed;
mod writing;

pub use fault::WireFault;
pub use incarnations::Incarnations;
pub use laws::{each_spelling_is_read, one_packet_of_each_spelling, spellings_are_short};
pub use packet::{Body, Packet};
pub use reading::read_packet;
pub use well_formed::is_well_formed;
pub use writing::{LONGEST_PACKET, MAGIC, SECOND_VERSION, VERSION, write_packet};

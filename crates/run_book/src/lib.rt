//! What threads share: the parcels that wait to be sent, and the locked book of a site.
#![tactic(auto)]

mod book;
mod book_room;
mod cell_parts;
mod entry;
mod fault;
mod laws;
mod names;
mod outbox;
mod parcel;
mod parcel_rule;
mod prepared;
mod recorded_core;
mod register;
mod repeated;
mod run_books;
mod seats;
mod site_cell;
mod step;
mod ticket_rule;

pub use book::{Book, distinct_sites, has_site};
pub use cell_parts::CellParts;
pub use entry::Entry;
pub use fault::{BookFault, Missing};
pub use laws::{
    a_book_tells_what_is_published, cores_step_as_their_sites, sites_begin,
    what_is_published_counts_right,
};
pub use names::{CellName, Run};
pub use outbox::{CAPACITY, Drain, Outbox, Pass};
pub use parcel::Parcel;
pub use register::{Receipt, ReceiptToken};
pub use run_books::{published, registry_book};
pub use seats::Seat;
pub use site_cell::{SiteCell, Unclosed};
pub use step::Step;

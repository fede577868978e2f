//! Public calls over small tables, most as scripts.

mod aborts;
mod copies;
mod ledgers;
mod pages;
mod refused;
mod tables;
mod units;

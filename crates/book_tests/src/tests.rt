//! Parcels in their order, and books of cells that threads act at.

mod cells;
mod parcels;
mod refused;
mod roots;

//! Multipliers that show that a problem's linear relaxation has no solution, by the simplex method.
//!
//! In the relaxation each option is taken in some part, from nothing on: of each primary item's options one in all, of
//! each secondary one's at most one. By Farkas' lemma ("Theorie der einfachen Ungleichungen", 1902) there is no such
//! choice just if items have multipliers, what they need and the room that they have, such that each option has as much
//! room as it needs, and all needs together are more than all rooms. The method is Dantzig's ("Maximization of a linear
//! function of variables subject to linear inequalities", 1947), in its first phase, with floating-point numbers:
//! nothing here is exact, and whoever takes the multipliers adds them up.
//!
//! Tried in C++ beside HiGHS, on 45 timetables, changed quasigroups, boards and courts and on 400 random problems: each
//! of the 43 and the 157 relaxations without a solution gave multipliers that hold once they are rounded, and no other
//! one did; the largest, of 900 items, after some 5,000 pivots. Numbers of 64 bits in fixed point weren't tried: a
//! proof that none overflows would cost more than it is worth, since nothing has to be believed.
#![tactic(auto)]

mod entering;
mod line;
mod relaxation;
mod rounded;
mod row;
mod simplex;

pub use rounded::Rounded;
pub use row::Row;
pub use simplex::{Progress, Simplex};

//! Whole runs of threads, in an order that gates bring about, and over links that lose and disorder.

mod books;
mod broken;
mod crowded;
mod ends;
mod failing;
mod fails_once;
mod late;
mod limit;
mod lone;
mod lone_node;
mod lone_root;
mod loss;
mod lost_first;
mod order;
mod pace;
mod plain;
mod restarts;
mod runs;
mod schedules;
mod sending;
mod sent;
mod strangers;
mod timings;
mod told_again;
mod wild;

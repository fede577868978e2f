//! Books of small runs, and what an audit finds.

mod audits;

//! What threads of all sites borrow, once for a run. The tables of the problem never change; the ending and the count
//! of bytes are atomics.

ghost use Rattle.std.specs.Prelude.{◌≡◌};

use brancher::Tables;
use run_book::Run;
use site_limits::{BookBytes, Ending, Follower, Gate};
use std::alloc::Global;
use std::marker::PhantomData;

/// What the threads of all sites of a run share.
#[derive(Drop)]
pub struct Context<'a, J: Run, H: Gate + Follower> {
    /// What is searched, with what the searches of it share.
    pub tables: &'a Tables<'a>,
    /// What holds workers back, and what hears how far all sites have come.
    pub hooks: &'a H,
    /// What ends the run: then each site ends, too.
    pub ending: &'a Ending,
    /// How large the books of all sites are.
    pub books: &'a BookBytes,
    /// Where memory comes from.
    pub alloc: Global,
    /// The run's name.
    pub run: PhantomData<J>,
    pub ghost same: { tables.now ≡ J.run.problem },
}

//! What outlives a worker's turn. A turn may end between any two steps, because memory is refused or a gate holds the
//! post back; the next one goes on with the same job or finding, so no search is lost. A finding carries its proof as
//! ghost data: that it is right.

ghost use Rattle.std.specs.Prelude.{◌≡◌, ◌≤◌, true};
ghost use Rattle.cover_problem.specs.Prefix.{is_prefix};
ghost use Rattle.cover_problem.specs.Search.{outcome};

use brancher::Finding;
use cover_problem::Numbers;
use run_book::Run;
use spawn_frame::Job;
use std::marker::PhantomData;

/// A job that is to be searched: its prefix, with so many visits.
#[derive(Drop)]
pub struct SearchJob<J: Run> {
    pub job: Job,
    pub prefix: Numbers,
    pub limit: u64,
    pub run: PhantomData<J>,
    pub ghost lawful: { is_prefix J.run.problem prefix ≡ true },
}

impl<J: Run> SearchJob<J> {
    /// A job whose prefix is to be searched with so many visits.
    pub fn new(job: Job, prefix: Numbers, limit: u64) -> SearchJob<J>
        requires { is_prefix J.run.problem prefix ≡ true }
    {
        SearchJob {
            job,
            prefix,
            limit,
            run: PhantomData,
        }
    }
}

/// A job that was searched, with what came of it in the run's problem.
#[derive(Drop)]
pub struct Searched<J: Run> {
    pub job: Job,
    pub finding: Finding,
    pub run: PhantomData<J>,
    pub ghost fuel: { 1 ≤ finding.fuel },
    pub ghost outcome: { finding.outcome ≡ outcome J.run.problem finding.prefix finding.fuel },
    pub ghost lawful: { is_prefix J.run.problem finding.prefix ≡ true },
}

/// What a worker has in hand between its turns.
#[derive(Drop)]
pub enum Hand<J: Run> {
    /// Nothing: it takes up work.
    Nothing,
    /// A job that is to be searched.
    Search(SearchJob<J>),
    /// What came of a search, which is to be posted.
    Post(Searched<J>),
}

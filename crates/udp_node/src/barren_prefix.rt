//! A nogood as a message: below this prefix there is no cover. The proof travels with it as ghost data, so who hears it
//! keeps it untested. The count is what the definition counts, so the hearer's own counts stay exact.

ghost use Rattle.std.specs.Prelude.{◌≡◌, None, true};
ghost use Rattle.cover_problem.specs.Prefix.{is_prefix};
ghost use Rattle.cover_problem.specs.Search.{first, visits};

use cover_problem::Numbers;
use run_book::Run;
use std::marker::PhantomData;

/// A prefix in the run's problem below which there is no cover, with how many visits a search of it takes.
#[derive(Drop)]
pub struct BarrenPrefix<J: Run> {
    pub prefix: Numbers,
    pub count: u64,
    pub run: PhantomData<J>,
    pub ghost lawful: { is_prefix J.run.problem prefix ≡ true },
    pub ghost barren: { first J.run.problem prefix ≡ None },
    pub ghost visits: { visits J.run.problem prefix ≡ count },
}

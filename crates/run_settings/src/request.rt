//! All that a command line asks for.

ghost use Rattle.std.specs.Prelude.{◌≤◌};
ghost use Rattle.std.specs.Option.{ForSome};

use crate::settings::Settings;

/// The settings of a run, and what is asked of it beside them.
#[derive(Clone, Copy)]
pub struct Request<'a> {
    /// The settings of the run.
    pub settings: Settings<'a>,
    /// After how many seconds a search by one thread, or a run over sockets, ends, from 1 to 1,000,000; none for no
    /// limit.
    pub seconds: Option<u32>,
    /// How many megabytes, of a million bytes, the books of a run over sockets may take together, from 1 to 1,000,000;
    /// none for a share of the machine's memory.
    pub megabytes: Option<u32>,
    /// Whether it writes how far its search has come.
    pub progress: bool,
    /// Whether a search by one thread has no limit of visits.
    pub unlimited: bool,
    /// How many threads search and learn for an answer by whatever is first, from 2 to 10; none for as many as there
    /// are processors.
    pub threads: Option<u32>,
    /// Whether what an answer rests on is written behind it.
    pub reason: bool,
    /// The file that is to get a certificate, if one is asked for, that there is no exact cover.
    pub certificate: Option<&'a str>,
    pub ghost some_seconds: { ForSome seconds (λ seconds. 1 ≤ seconds) },
    pub ghost most_seconds: { ForSome seconds (λ seconds. seconds ≤ 1000000) },
    pub ghost some_megabytes: { ForSome megabytes (λ megabytes. 1 ≤ megabytes) },
    pub ghost most_megabytes: { ForSome megabytes (λ megabytes. megabytes ≤ 1000000) },
    pub ghost some_threads: { ForSome threads (λ threads. 2 ≤ threads) },
    pub ghost most_threads: { ForSome threads (λ threads. threads ≤ 10) },
}

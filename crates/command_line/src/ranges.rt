//! The ranges of the options whose values are numbers, each in three forms side by side: the limit that a value is
//! tested against, what help says, and what is written of a value outside. `Settings` and `Request` promise the same
//! limits.

/// `--fuel`, any number from 1. One thread has the greatest by default.
pub const GREATEST_FUEL: &str = "18446744073709551615";

/// What help says of `--fuel` where one thread searches.
pub const FUEL_HELP: &str =
    "How many prefixes the whole search may count, from 1; those below a state that it skips count, too";

/// What help says of `--fuel` of a simulation.
pub const JOB_FUEL_HELP: &str =
    "How many prefixes one job may visit, from 1; a job that needs more is split, so it limits no search";

/// What help says of `--fuel` where threads search jobs.
pub const BASE_FUEL_HELP: &str =
    "The base by which a run sets how many prefixes a job may visit, from 1; it limits no search";

/// What is written of a `--fuel` outside.
pub const FUEL_REFUSED: &str = "--fuel takes 1 to 18446744073709551615";

/// `--nodes`, from 1.
pub const MOST_NODES: u64 = 16;

/// What help says of `--nodes`.
pub const NODES_HELP: &str = "How many nodes there are, 1 to 16";

/// What is written of a `--nodes` outside.
pub const NODES_REFUSED: &str = "--nodes takes 1 to 16";

/// `--workers` of each node, from 1.
pub const MOST_WORKERS: u64 = 8;

/// What help says of `--workers`.
pub const WORKERS_HELP: &str = "How many workers a node has, 1 to 8";

/// What is written of a `--workers` outside.
pub const WORKERS_REFUSED: &str = "--workers takes 1 to 8";

/// `--turns` of a simulation, or of each thread, from 0.
pub const MOST_TURNS: u64 = 10_000_000;

/// What help says of `--turns` of a simulation.
pub const TURNS_HELP: &str = "How many turns are taken, up to 10000000";

/// What help says of `--turns` of each thread.
pub const THREAD_TURNS_HELP: &str = "How many turns a thread takes, up to 10000000";

/// What is written of a `--turns` outside.
pub const TURNS_REFUSED: &str = "--turns takes 0 to 10000000";

/// `--entries` of each site's book, from 1.
pub const MOST_ENTRIES: u64 = 1_000_000_000;

/// What help says of `--entries`.
pub const ENTRIES_HELP: &str = "How many entries the book of a site may have, 1 to 1000000000";

/// What is written of a `--entries` outside.
pub const ENTRIES_REFUSED: &str = "--entries takes 1 to 1000000000";

/// `--megabytes` of all books together, from 1; a share of the machine's memory where none are given.
pub const MOST_MEGABYTES: u64 = 1_000_000;

/// What help says of `--megabytes`.
pub const MEGABYTES_HELP: &str =
    "How many megabytes the books of all sites may take together, 1 to 1000000; a tenth of the machine's memory if not given";

/// What is written of a `--megabytes` outside.
pub const MEGABYTES_REFUSED: &str = "--megabytes takes 1 to 1000000";

/// `--restarts`, from 0.
pub const MOST_RESTARTS: u64 = 100;

/// What help says of `--restarts` of a simulation.
pub const RESTARTS_HELP: &str = "How many restarts are drawn, up to 100";

/// What help says of `--restarts` of a real run.
pub const NODE_RESTARTS_HELP: &str = "How often node 1 is restarted, up to 100";

/// What is written of a `--restarts` outside.
pub const RESTARTS_REFUSED: &str = "--restarts takes 0 to 100";

/// `--seconds`, from 1; no limit where none are given.
pub const MOST_SECONDS: u64 = 1_000_000;

/// What help says of `--seconds` where one thread searches.
pub const SECONDS_HELP: &str =
    "After how many seconds the search ends without an answer, 1 to 1000000; no limit if not given";

/// What help says of `--seconds` of a real run.
pub const RUN_SECONDS_HELP: &str =
    "After how many seconds the run ends without an answer, 1 to 1000000; no limit if not given";

/// What is written of a `--seconds` outside.
pub const SECONDS_REFUSED: &str = "--seconds takes 1 to 1000000";

/// `--threads`, from 2: as many as there are processors where none are given.
pub const LEAST_THREADS: u64 = 2;

/// The most of them: two search and learn, and a node has at most eight workers.
pub const MOST_THREADS: u64 = 10;

/// What help says of `--threads`.
pub const THREADS_HELP: &str =
    "How many threads search and learn, 2 to 10; as many as there are processors if not given; while a reason is looked for there is one more";

/// What is written of a `--threads` outside.
pub const THREADS_REFUSED: &str = "--threads takes 2 to 10";

/// `--seed`: any number.
pub const SEED_HELP: &str = "The seed of what is drawn";

/// What is written of a `--seed` outside.
pub const SEED_REFUSED: &str = "--seed takes 0 to 18446744073709551615";

//! What a run is to do, and the numbers for it.

ghost use Rattle.std.specs.Prelude.{◌≡◌, ◌≤◌, is_some, true};
ghost use Rattle.run_settings.specs.declared.settings.Mode.{Mode};

/// The word that names standard input in the place of a file.
pub const STANDARD_INPUT: &str = "-";

/// What the program is to do.
#[derive(Clone, Copy, Debug, PartialEq, Eq)]
pub enum Mode {
    /// Search a problem on one thread.
    Alone,
    /// Test an answer to a problem.
    Check,
    /// Find any exact cover of a problem, by whatever is first.
    Answer,
    /// Look for a reason why a problem has no exact cover.
    Why,
    /// Find any exact cover of a problem by learning from dead ends.
    Learn,
    /// Let a world of sites search a problem, by chance.
    Simulate,
    /// Let sites with threads of their own search a problem.
    Solve,
}

/// The settings of a run. What only another subcommand uses has its default.
#[derive(Clone, Copy)]
pub struct Settings<'a> {
    /// What is to be done.
    pub mode: Mode,
    /// The problem's file, or `STANDARD_INPUT`.
    pub file: &'a str,
    /// The answer's file, or `STANDARD_INPUT`, for a check alone.
    pub answer: Option<&'a str>,
    /// How many prefixes a search may count, from 1; of a run over sockets the base by which it sets how many a job may
    /// visit.
    pub fuel: u64,
    /// How many nodes there are, from 1 to 16.
    pub nodes: u8,
    /// The seed of the generator that draws, any number.
    pub seed: u64,
    /// How many workers a node has, from 1 to 8.
    pub workers: u8,
    /// How many turns a simulation, or each thread, may take, up to 10,000,000.
    pub turns: u32,
    /// How many entries the book of a site may have, from 1 to 1,000,000,000.
    pub entries: u32,
    /// How many restarts a simulation may draw, or how often node 1 is restarted in a run over sockets; up to 100.
    pub restarts: u32,
    /// Whether the books of a run are audited.
    pub audit: bool,
    pub ghost answered: { mode ≡ Mode.Check → is_some answer ≡ true },
    pub ghost some_fuel: { 1 ≤ fuel },
    pub ghost some_nodes: { 1 ≤ nodes },
    pub ghost most_nodes: { nodes ≤ 16 },
    pub ghost some_workers: { 1 ≤ workers },
    pub ghost most_workers: { workers ≤ 8 },
    pub ghost most_turns: { turns ≤ 10000000 },
    pub ghost some_entries: { 1 ≤ entries },
    pub ghost most_entries: { entries ≤ 1000000000 },
    pub ghost most_restarts: { restarts ≤ 100 },
}

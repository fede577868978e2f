//! `simulate` over texts in memory: whatever is drawn, it answers as a search would.

use super::run_output::{RunOutput, tell_plain};
use super::texts::{LETTERS, NO_COVER};
use dlx_reader::{CountedReader, CountedWriter};
use run_settings::{Mode, Settings};
use std::alloc::Global;
use std::process::Abort;
use world_engine::simulate_engine;

/// Runs `simulate` on a problem and returns what is written.
fn simulate(alloc: Global, text: &str, settings: &Settings<'_>) -> RunOutput {
    let mut out = Vec::new(alloc);
    let mut errors = Vec::new(alloc);
    let mut source = CountedReader::new(text.as_bytes());
    let ended = simulate_engine(
        alloc,
        settings,
        &mut source,
        &mut CountedWriter::new(&mut out),
    );
    let mut sink = CountedWriter::new(&mut errors);
    let status = tell_plain(&ended, &mut sink);
    RunOutput {
        out,
        errors,
        status,
    }
}

/// A simulation of four nodes.
fn four_nodes(seed: u64, (fuel, turns, restarts): (u64, u32, u32)) -> Settings<'static> {
    Settings {
        mode: Mode::Simulate,
        file: "a.dlx",
        answer: None,
        fuel: fuel.max(1),
        nodes: 4,
        seed,
        workers: 2,
        turns: turns.min(10_000_000),
        entries: 1_000_000,
        restarts: restarts.min(100),
        audit: false,
    }
}

/// Fuel, turns and restarts: those that the command line lacks, no turn at all, and little fuel with restarts.
static NUMBERS: [(u64, u32, u32); 3] = [(1000, 10000, 0), (1000, 0, 0), (1, 10000, 5)];

/// Asserts that `simulate` writes this of a problem, whatever the seed.
fn writes<R: Abort>(rt: &R, alloc: Global, text: &str, (out, status): (&str, u8)) {
    for numbers in NUMBERS.iter() {
        for seed in 0..10 {
            let output = simulate(alloc, text, &four_nodes(seed, *numbers));
            assert!(rt; output.is(out, "", status), "seed {seed}");
        }
    }
}

#[test]
fn finds_the_cover(rt: HostRuntime) {
    let cover = "cover 3\nc e\na d f\nb g\n";
    writes(&rt, rt.alloc(), LETTERS, (cover, 0));
}

#[test]
fn finds_that_there_is_none(rt: HostRuntime) {
    writes(&rt, rt.alloc(), NO_COVER, ("none\n", 1));
}

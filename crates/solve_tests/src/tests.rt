//! `solve` over sockets: the texts of its answers, and that it comes to answers and its audits are clean, which no
//! contract says.
//!
//! Of the bugs of `cover_engines` that are kept outside the gate, `most_runs_answer` finds `always_no_answer` and
//! `no_run_above_seven_items`, and `a_restarted_node_has_a_book_of_each_start` finds `restarts_are_not_handed_on`. Of
//! the bugs of `udp_node` that are kept outside the gate, `a_run_in_which_states_repeat_ends` finds
//! `workers_keep_nothing`. Of the bugs of `site_limits` that are kept outside the gate,
//! `a_run_in_which_states_repeat_ends` finds `a_watched_search_is_stopped`.

mod audited;
mod followed;
mod held;
mod host;
mod memory_share;
mod order;
mod sole;
mod starved;

ghost use Rattle.std.specs.Prelude.{◌≡◌, ◌≤◌};

use cover_engines::{Host, Loopback, Network, USUAL_BOOK_BYTES, links, solve_engine};
use cover_problem::Problem;
use dlx_reader::{CountedReader, CountedWriter, read_problem};
use run_book::Run;
use run_key::RunKey;
use run_settings::{Mode, Request, Settings};
use search_engines::LineStyle;
use std::alloc::Global;
use std::marker::Brand;
use std::net::Net;
use std::process::Abort;
use std::random::RandomSource;
use std::sync::Wait;
use std::test::Fail;
use std::thread::Threads;
use std::time::Clock;
use udp_node::Open;

/// A problem, with what is to be written of it and the status.
type Row = (&'static str, &'static str, u8);

/// Seven items and six options, of which three are the one cover, and the same without the option `b g`; and nine items
/// with two more, of which one has a colour.
static ROWS: [Row; 3] = [
    (
        "a b c d e f g\nc e\na d g\nb c f\na d f\nb g\nd e g\n",
        "cover 3\nc e\na d f\nb g\n",
        0,
    ),
    (
        "a b c d e f g\nc e\na d g\nb c f\na d f\nd e g\n",
        "none\n",
        1,
    ),
    (
        "a b c d e f g h i | x y\nc e x:red\na d g\nb c f\na d f x:red y\nb g\nd e g\nh i x:blue\nh x:red\ni\n",
        "cover 5\nc e x:red\na d f x:red y\nb g\nh x:red\ni\n",
        0,
    ),
];

/// Dominoes on a board of twelve by twelve without two opposite corners, which they can't fill: 1,455,115,025,598,703
/// visits.
const BOARD: &str =
    "01 02 03 04 05 06 07 08 09 0a 0b 10 11 12 13 14 15 16 17 18 19 1a 1b 20 21 22 23 24 25 26 27 28 29 2a 2b 30 31 32 33 34 35 36 37 38 39 3a 3b 40 41 42 43 44 45 46 47 48 49 4a 4b 50 51 52 53 54 55 56 57 58 59 5a 5b 60 61 62 63 64 65 66 67 68 69 6a 6b 70 71 72 73 74 75 76 77 78 79 7a 7b 80 81 82 83 84 85 86 87 88 89 8a 8b 90 91 92 93 94 95 96 97 98 99 9a 9b a0 a1 a2 a3 a4 a5 a6 a7 a8 a9 aa ab b0 b1 b2 b3 b4 b5 b6 b7 b8 b9 ba\n01 02\n01 11\n02 03\n02 12\n03 04\n03 13\n04 05\n04 14\n05 06\n05 15\n06 07\n06 16\n07 08\n07 17\n08 09\n08 18\n09 0a\n09 19\n0a 0b\n0a 1a\n0b 1b\n10 11\n10 20\n11 12\n11 21\n12 13\n12 22\n13 14\n13 23\n14 15\n14 24\n15 16\n15 25\n16 17\n16 26\n17 18\n17 27\n18 19\n18 28\n19 1a\n19 29\n1a 1b\n1a 2a\n1b 2b\n20 21\n20 30\n21 22\n21 31\n22 23\n22 32\n23 24\n23 33\n24 25\n24 34\n25 26\n25 35\n26 27\n26 36\n27 28\n27 37\n28 29\n28 38\n29 2a\n29 39\n2a 2b\n2a 3a\n2b 3b\n30 31\n30 40\n31 32\n31 41\n32 33\n32 42\n33 34\n33 43\n34 35\n34 44\n35 36\n35 45\n36 37\n36 46\n37 38\n37 47\n38 39\n38 48\n39 3a\n39 49\n3a 3b\n3a 4a\n3b 4b\n40 41\n40 50\n41 42\n41 51\n42 43\n42 52\n43 44\n43 53\n44 45\n44 54\n45 46\n45 55\n46 47\n46 56\n47 48\n47 57\n48 49\n48 58\n49 4a\n49 59\n4a 4b\n4a 5a\n4b 5b\n50 51\n50 60\n51 52\n51 61\n52 53\n52 62\n53 54\n53 63\n54 55\n54 64\n55 56\n55 65\n56 57\n56 66\n57 58\n57 67\n58 59\n58 68\n59 5a\n59 69\n5a 5b\n5a 6a\n5b 6b\n60 61\n60 70\n61 62\n61 71\n62 63\n62 72\n63 64\n63 73\n64 65\n64 74\n65 66\n65 75\n66 67\n66 76\n67 68\n67 77\n68 69\n68 78\n69 6a\n69 79\n6a 6b\n6a 7a\n6b 7b\n70 71\n70 80\n71 72\n71 81\n72 73\n72 82\n73 74\n73 83\n74 75\n74 84\n75 76\n75 85\n76 77\n76 86\n77 78\n77 87\n78 79\n78 88\n79 7a\n79 89\n7a 7b\n7a 8a\n7b 8b\n80 81\n80 90\n81 82\n81 91\n82 83\n82 92\n83 84\n83 93\n84 85\n84 94\n85 86\n85 95\n86 87\n86 96\n87 88\n87 97\n88 89\n88 98\n89 8a\n89 99\n8a 8b\n8a 9a\n8b 9b\n90 91\n90 a0\n91 92\n91 a1\n92 93\n92 a2\n93 94\n93 a3\n94 95\n94 a4\n95 96\n95 a5\n96 97\n96 a6\n97 98\n97 a7\n98 99\n98 a8\n99 9a\n99 a9\n9a 9b\n9a aa\n9b ab\na0 a1\na0 b0\na1 a2\na1 b1\na2 a3\na2 b2\na3 a4\na3 b3\na4 a5\na4 b4\na5 a6\na5 b5\na6 a7\na6 b6\na7 a8\na7 b7\na8 a9\na8 b8\na9 aa\na9 b9\naa ab\naa ba\nb0 b1\nb1 b2\nb2 b3\nb3 b4\nb4 b5\nb5 b6\nb6 b7\nb7 b8\nb8 b9\nb9 ba\n";

/// What is written where no answer came: `solve` may do so.
static NOTHING: (&str, u8) = ("no answer\n", 4);

/// How many runs of each problem there are.
const RUNS: u64 = 10;

/// How many of them are to come to an answer at least.
const LEAST: u64 = 5;

/// The settings that the command line has by default, with this seed, so many turns and restarts, and with an audit or
/// without.
fn settings(seed: u64, turns: u32, restarts: u32, audit: bool) -> Settings<'static> {
    Settings {
        mode: Mode::Solve,
        file: "a.dlx",
        answer: None,
        fuel: 1000,
        nodes: 4,
        seed,
        workers: 2,
        turns: turns.min(10_000_000),
        entries: 1_000_000,
        restarts: restarts.min(100),
        audit,
    }
}

/// The settings of a run of so many nodes and workers, whose searches have so much fuel at first.
fn sized(nodes: u8, workers: u8, fuel: u64, seed: u64) -> Settings<'static>
    requires some_nodes { 1 ≤ nodes }
    requires most_nodes { nodes ≤ 16 }
    requires some_workers { 1 ≤ workers }
    requires most_workers { workers ≤ 8 }
    requires some_fuel { 1 ≤ fuel }
    ensures { result.nodes ≡ nodes }
{
    Settings {
        mode: Mode::Solve,
        file: "a.dlx",
        answer: None,
        fuel,
        nodes,
        seed,
        workers,
        turns: 10_000_000,
        entries: 1_000_000,
        restarts: 0,
        audit: false,
    }
}

/// What `solve` writes of a file's text to the output and to the errors, and the exit status.
#[derive(Drop)]
struct Solved {
    out: Vec<u8>,
    errors: Vec<u8>,
    status: u8,
}

/// Runs `solve` over this network, by the call that the program makes, on a host on which the books of a run may take a
/// gigabyte.
fn solve_over<N: Network, R: Threads + Wait + Clock + Sync>(
    rt: &R,
    alloc: Global,
    network: N,
    text: &str,
    request: &Request<'_>,
) -> Solved {
    solve_on(rt, alloc, network, text, request, USUAL_BOOK_BYTES)
}

/// The same on a host on which the books of a run may take so many bytes.
fn solve_on<N: Network, R: Threads + Wait + Clock + Sync>(
    rt: &R,
    alloc: Global,
    network: N,
    text: &str,
    request: &Request<'_>,
    book_bytes: u64,
) -> Solved {
    let (mut out, mut errors) = (Vec::new(alloc), Vec::new(alloc));
    let mut source = CountedReader::new(text.as_bytes());
    let host = Host {
        rt,
        alloc,
        network,
        lines: LineStyle::Listed,
        book_bytes,
    };
    let status = host.solve(
        request,
        &mut source,
        &mut CountedWriter::new(&mut out),
        &mut CountedWriter::new(&mut errors),
    );
    Solved {
        out,
        errors,
        status,
    }
}

/// What `solve` writes of a problem, and the status.
fn solve<R: Threads + Wait + Clock + Net + RandomSource + Sync>(
    rt: &R,
    alloc: Global,
    text: &str,
    settings: Settings<'_>,
) -> (Vec<u8>, u8) {
    let request = Request {
        settings,
        seconds: None,
        megabytes: None,
        progress: false,
        unlimited: false,
        threads: None,
        reason: false,
        certificate: None,
    };
    let Solved {
        out,
        errors: _,
        status,
    } = solve_over(rt, alloc, Loopback { rt, random: rt }, text, &request);
    (out, status)
}

/// What is written behind an answer, or behind that none came: with an audit, that the books are one run.
fn line_behind(audit: bool) -> &'static [u8] {
    if audit { b"audit clean\n" } else { b"" }
}

/// Whether this was written, and behind it what an audit has to find.
fn is_told(told: &[u8], out: &str, audit: bool) -> bool {
    match told.split_at_checked(out.len()) {
        Some((front, behind)) => front == out.as_bytes() && behind == line_behind(audit),
        None => false,
    }
}

/// How many runs of the row's problem, with so many restarts, came to its answer; a fault where one wrote anything
/// else, except that no answer came.
fn answers<R: Threads + Wait + Clock + Net + RandomSource + Sync>(
    rt: &R,
    alloc: Global,
    (text, out, status): Row,
    restarts: u32,
    audit: bool,
) -> Result<u64, Fail> {
    let mut answers = 0u64;
    for seed in 0..RUNS {
        let settings = settings(seed, 1_000_000, restarts, audit);
        let (told, came) = solve(rt, alloc, text, settings);
        if is_told(&told, out, audit) && came == status {
            answers = answers.saturating_add(1);
        } else if !is_told(&told, NOTHING.0, audit) || came != NOTHING.1 {
            return Err(Fail::new("another answer was told, or an audit was not clean"));
        }
    }
    Ok(answers)
}

/// Most runs of each problem answer.
fn most_answer<R: Abort + Threads + Wait + Clock + Net + RandomSource + Sync>(
    rt: &R,
    alloc: Global,
    restarts: u32,
    audit: bool,
) -> Result<(), Fail> {
    for row in ROWS.iter() {
        let answers = answers(rt, alloc, *row, restarts, audit)?;
        assert!(rt; answers >= LEAST, "{answers} runs came to an answer");
    }
    Ok(())
}

#[test]
fn most_runs_answer(rt: HostRuntime) -> Result<(), Fail> {
    most_answer(&rt, rt.alloc(), 0, false)
}

/// The settings of a run of two workers at one node, whose book has 20,000 entries.
const BOUNDED: Settings<'static> = Settings {
    mode: Mode::Solve,
    file: "a.dlx",
    answer: None,
    fuel: 1_000,
    nodes: 1,
    seed: 1,
    workers: 2,
    turns: 10_000_000,
    entries: 20_000,
    restarts: 0,
    audit: false,
};

/// Workers that visit each state again that they meet would search for centuries, so the run has a limit, of some
/// hundred times what it takes.
#[test]
fn a_run_in_which_states_repeat_ends(rt: HostRuntime) {
    let request = Request {
        settings: BOUNDED,
        seconds: Some(40),
        megabytes: None,
        progress: false,
        unlimited: false,
        threads: None,
        reason: false,
        certificate: None,
    };
    let network = Loopback {
        rt: &rt,
        random: &rt,
    };
    let solved = solve_over(&rt, rt.alloc(), network, BOARD, &request);
    assert!(rt; solved.out.as_slice() == b"none\n".as_slice() && solved.status == 1);
}

#[test]
fn the_books_of_runs_are_clean(rt: HostRuntime) -> Result<(), Fail> {
    most_answer(&rt, rt.alloc(), 0, true)
}

#[test]
fn the_books_of_restarted_runs_are_clean(rt: HostRuntime) -> Result<(), Fail> {
    most_answer(&rt, rt.alloc(), 3, true)
}

/// How many books a run of the problem leaves.
fn count_books<J: Run + Send + Sync, R: Threads + Wait + Clock + Net + RandomSource + Sync>(
    rt: &R,
    alloc: Global,
    settings: &Settings<'_>,
    problem: &Problem,
) -> Result<usize, Fail>
    requires problem { problem.now ≡ J.run.problem }
    requires nodes { settings.now.nodes ≡ J.run.nodes }
{
    let links = links(rt, alloc, settings.nodes, RunKey::draw(rt)?)?;
    let end = solve_engine::<J, _, _, R>(rt, alloc, settings, problem, links, &Open)?;
    Ok(end.books.len())
}

#[test]
fn a_restarted_node_has_a_book_of_each_start(rt: HostRuntime) -> Result<(), Fail> {
    let read = read_problem(rt.alloc(), ROWS[0].0.as_bytes())?;
    let settings = settings(1, 1_000_000, 3, false);
    let books = count_books::<Brand, _>(&rt, rt.alloc(), &settings, &read.problem)?;
    assert_eq!(rt; books, 5 + 3);
    Ok(())
}

/// Whether a run without turns writes that no answer came.
fn is_silent<R: Threads + Wait + Clock + Net + RandomSource + Sync>(
    rt: &R,
    alloc: Global,
    text: &str,
    audit: bool,
) -> bool {
    let (told, came) = solve(rt, alloc, text, settings(1, 0, 0, audit));
    is_told(&told, NOTHING.0, audit) && came == NOTHING.1
}

#[test]
fn no_turns_and_no_answer(rt: HostRuntime) -> Result<(), Fail> {
    for (text, _, _) in ROWS.iter() {
        let plain = is_silent(&rt, rt.alloc(), text, false);
        let audited = is_silent(&rt, rt.alloc(), text, true);
        assert!(rt; plain && audited);
    }
    Ok(())
}

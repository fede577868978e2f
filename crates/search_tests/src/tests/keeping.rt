//! Searches that keep barren states, with room for many of them, for few and for none; those that are stopped are asked
//! what they came to.
//!
//! Of the bugs of `brancher` that are kept outside the gate, `a_board_of_twelve_by_twelve_is_searched_whole` finds
//! `nothing_kept_is_found`, and `a_stopped_search_tells_what_it_came_to` finds `visits_are_not_told_of` and
//! `a_watch_waits_for_1024_visits`, and `what_is_shared_is_not_visited` finds `what_is_shared_is_lost`,
//! `what_is_shared_begins_no_looks` and `nothing_is_seen_to_be_barren`. Of the bugs of `barren_states` that are kept
//! outside the gate, `a_board_of_twelve_by_twelve_is_searched_whole` finds `table_never_grows`, and
//! `what_took_many_visits_is_kept` finds `small_states_stay_longer`.

ghost use Rattle.std.specs.Prelude.{◌≤◌, true};

use super::search::{SEARCHES, takes};
use super::texts::{LETTERS, problem_of};
use brancher::{Outcome, STATE_BYTES, Searcher, Tables, Unwatched, Watch};
use cover_problem::Problem;
use std::alloc::Global;
use std::process::Abort;

/// Dominoes on a board of six by six without two opposite corners, which they can't fill.
const BOARD_OF_6: &str =
    "01 02 03 04 05 10 11 12 13 14 15 20 21 22 23 24 25 30 31 32 33 34 35 40 41 42 43 44 45 50 51 52 53 54\n01 02\n01 11\n02 03\n02 12\n03 04\n03 13\n04 05\n04 14\n05 15\n10 11\n10 20\n11 12\n11 21\n12 13\n12 22\n13 14\n13 23\n14 15\n14 24\n15 25\n20 21\n20 30\n21 22\n21 31\n22 23\n22 32\n23 24\n23 33\n24 25\n24 34\n25 35\n30 31\n30 40\n31 32\n31 41\n32 33\n32 42\n33 34\n33 43\n34 35\n34 44\n35 45\n40 41\n40 50\n41 42\n41 51\n42 43\n42 52\n43 44\n43 53\n44 45\n44 54\n50 51\n51 52\n52 53\n53 54\n";

/// The same on a board of eight by eight.
pub const BOARD_OF_8: &str =
    "01 02 03 04 05 06 07 10 11 12 13 14 15 16 17 20 21 22 23 24 25 26 27 30 31 32 33 34 35 36 37 40 41 42 43 44 45 46 47 50 51 52 53 54 55 56 57 60 61 62 63 64 65 66 67 70 71 72 73 74 75 76\n01 02\n01 11\n02 03\n02 12\n03 04\n03 13\n04 05\n04 14\n05 06\n05 15\n06 07\n06 16\n07 17\n10 11\n10 20\n11 12\n11 21\n12 13\n12 22\n13 14\n13 23\n14 15\n14 24\n15 16\n15 25\n16 17\n16 26\n17 27\n20 21\n20 30\n21 22\n21 31\n22 23\n22 32\n23 24\n23 33\n24 25\n24 34\n25 26\n25 35\n26 27\n26 36\n27 37\n30 31\n30 40\n31 32\n31 41\n32 33\n32 42\n33 34\n33 43\n34 35\n34 44\n35 36\n35 45\n36 37\n36 46\n37 47\n40 41\n40 50\n41 42\n41 51\n42 43\n42 52\n43 44\n43 53\n44 45\n44 54\n45 46\n45 55\n46 47\n46 56\n47 57\n50 51\n50 60\n51 52\n51 61\n52 53\n52 62\n53 54\n53 63\n54 55\n54 64\n55 56\n55 65\n56 57\n56 66\n57 67\n60 61\n60 70\n61 62\n61 71\n62 63\n62 72\n63 64\n63 73\n64 65\n64 74\n65 66\n65 75\n66 67\n66 76\n70 71\n71 72\n72 73\n73 74\n74 75\n75 76\n";

/// The same on a board of twelve by twelve: only a search that goes past the states that it meets again comes to an
/// end.
pub const BOARD_OF_12: &str =
    "01 02 03 04 05 06 07 08 09 0a 0b 10 11 12 13 14 15 16 17 18 19 1a 1b 20 21 22 23 24 25 26 27 28 29 2a 2b 30 31 32 33 34 35 36 37 38 39 3a 3b 40 41 42 43 44 45 46 47 48 49 4a 4b 50 51 52 53 54 55 56 57 58 59 5a 5b 60 61 62 63 64 65 66 67 68 69 6a 6b 70 71 72 73 74 75 76 77 78 79 7a 7b 80 81 82 83 84 85 86 87 88 89 8a 8b 90 91 92 93 94 95 96 97 98 99 9a 9b a0 a1 a2 a3 a4 a5 a6 a7 a8 a9 aa ab b0 b1 b2 b3 b4 b5 b6 b7 b8 b9 ba\n01 02\n01 11\n02 03\n02 12\n03 04\n03 13\n04 05\n04 14\n05 06\n05 15\n06 07\n06 16\n07 08\n07 17\n08 09\n08 18\n09 0a\n09 19\n0a 0b\n0a 1a\n0b 1b\n10 11\n10 20\n11 12\n11 21\n12 13\n12 22\n13 14\n13 23\n14 15\n14 24\n15 16\n15 25\n16 17\n16 26\n17 18\n17 27\n18 19\n18 28\n19 1a\n19 29\n1a 1b\n1a 2a\n1b 2b\n20 21\n20 30\n21 22\n21 31\n22 23\n22 32\n23 24\n23 33\n24 25\n24 34\n25 26\n25 35\n26 27\n26 36\n27 28\n27 37\n28 29\n28 38\n29 2a\n29 39\n2a 2b\n2a 3a\n2b 3b\n30 31\n30 40\n31 32\n31 41\n32 33\n32 42\n33 34\n33 43\n34 35\n34 44\n35 36\n35 45\n36 37\n36 46\n37 38\n37 47\n38 39\n38 48\n39 3a\n39 49\n3a 3b\n3a 4a\n3b 4b\n40 41\n40 50\n41 42\n41 51\n42 43\n42 52\n43 44\n43 53\n44 45\n44 54\n45 46\n45 55\n46 47\n46 56\n47 48\n47 57\n48 49\n48 58\n49 4a\n49 59\n4a 4b\n4a 5a\n4b 5b\n50 51\n50 60\n51 52\n51 61\n52 53\n52 62\n53 54\n53 63\n54 55\n54 64\n55 56\n55 65\n56 57\n56 66\n57 58\n57 67\n58 59\n58 68\n59 5a\n59 69\n5a 5b\n5a 6a\n5b 6b\n60 61\n60 70\n61 62\n61 71\n62 63\n62 72\n63 64\n63 73\n64 65\n64 74\n65 66\n65 75\n66 67\n66 76\n67 68\n67 77\n68 69\n68 78\n69 6a\n69 79\n6a 6b\n6a 7a\n6b 7b\n70 71\n70 80\n71 72\n71 81\n72 73\n72 82\n73 74\n73 83\n74 75\n74 84\n75 76\n75 85\n76 77\n76 86\n77 78\n77 87\n78 79\n78 88\n79 7a\n79 89\n7a 7b\n7a 8a\n7b 8b\n80 81\n80 90\n81 82\n81 91\n82 83\n82 92\n83 84\n83 93\n84 85\n84 94\n85 86\n85 95\n86 87\n86 96\n87 88\n87 97\n88 89\n88 98\n89 8a\n89 99\n8a 8b\n8a 9a\n8b 9b\n90 91\n90 a0\n91 92\n91 a1\n92 93\n92 a2\n93 94\n93 a3\n94 95\n94 a4\n95 96\n95 a5\n96 97\n96 a6\n97 98\n97 a7\n98 99\n98 a8\n99 9a\n99 a9\n9a 9b\n9a aa\n9b ab\na0 a1\na0 b0\na1 a2\na1 b1\na2 a3\na2 b2\na3 a4\na3 b3\na4 a5\na4 b4\na5 a6\na5 b5\na6 a7\na6 b6\na7 a8\na7 b7\na8 a9\na8 b8\na9 aa\na9 b9\naa ab\naa ba\nb0 b1\nb1 b2\nb2 b3\nb3 b4\nb4 b5\nb5 b6\nb6 b7\nb7 b8\nb8 b9\nb9 ba\n";

/// Twelve queens on a torus, no two of which are in one row, column or diagonal: a search that meets no state twice,
/// long enough for a second trial of where looking pays.
const TORUS_QUEENS: &str =
    "r0 r1 r2 r3 r4 r5 r6 r7 r8 r9 rA rB c0 c1 c2 c3 c4 c5 c6 c7 c8 c9 cA cB | a0 a1 a2 a3 a4 a5 a6 a7 a8 a9 aA aB b0 b1 b2 b3 b4 b5 b6 b7 b8 b9 bA bB\nr0 c0 a0 b0\nr0 c1 a1 bB\nr0 c2 a2 bA\nr0 c3 a3 b9\nr0 c4 a4 b8\nr0 c5 a5 b7\nr0 c6 a6 b6\nr0 c7 a7 b5\nr0 c8 a8 b4\nr0 c9 a9 b3\nr0 cA aA b2\nr0 cB aB b1\nr1 c0 a1 b1\nr1 c1 a2 b0\nr1 c2 a3 bB\nr1 c3 a4 bA\nr1 c4 a5 b9\nr1 c5 a6 b8\nr1 c6 a7 b7\nr1 c7 a8 b6\nr1 c8 a9 b5\nr1 c9 aA b4\nr1 cA aB b3\nr1 cB a0 b2\nr2 c0 a2 b2\nr2 c1 a3 b1\nr2 c2 a4 b0\nr2 c3 a5 bB\nr2 c4 a6 bA\nr2 c5 a7 b9\nr2 c6 a8 b8\nr2 c7 a9 b7\nr2 c8 aA b6\nr2 c9 aB b5\nr2 cA a0 b4\nr2 cB a1 b3\nr3 c0 a3 b3\nr3 c1 a4 b2\nr3 c2 a5 b1\nr3 c3 a6 b0\nr3 c4 a7 bB\nr3 c5 a8 bA\nr3 c6 a9 b9\nr3 c7 aA b8\nr3 c8 aB b7\nr3 c9 a0 b6\nr3 cA a1 b5\nr3 cB a2 b4\nr4 c0 a4 b4\nr4 c1 a5 b3\nr4 c2 a6 b2\nr4 c3 a7 b1\nr4 c4 a8 b0\nr4 c5 a9 bB\nr4 c6 aA bA\nr4 c7 aB b9\nr4 c8 a0 b8\nr4 c9 a1 b7\nr4 cA a2 b6\nr4 cB a3 b5\nr5 c0 a5 b5\nr5 c1 a6 b4\nr5 c2 a7 b3\nr5 c3 a8 b2\nr5 c4 a9 b1\nr5 c5 aA b0\nr5 c6 aB bB\nr5 c7 a0 bA\nr5 c8 a1 b9\nr5 c9 a2 b8\nr5 cA a3 b7\nr5 cB a4 b6\nr6 c0 a6 b6\nr6 c1 a7 b5\nr6 c2 a8 b4\nr6 c3 a9 b3\nr6 c4 aA b2\nr6 c5 aB b1\nr6 c6 a0 b0\nr6 c7 a1 bB\nr6 c8 a2 bA\nr6 c9 a3 b9\nr6 cA a4 b8\nr6 cB a5 b7\nr7 c0 a7 b7\nr7 c1 a8 b6\nr7 c2 a9 b5\nr7 c3 aA b4\nr7 c4 aB b3\nr7 c5 a0 b2\nr7 c6 a1 b1\nr7 c7 a2 b0\nr7 c8 a3 bB\nr7 c9 a4 bA\nr7 cA a5 b9\nr7 cB a6 b8\nr8 c0 a8 b8\nr8 c1 a9 b7\nr8 c2 aA b6\nr8 c3 aB b5\nr8 c4 a0 b4\nr8 c5 a1 b3\nr8 c6 a2 b2\nr8 c7 a3 b1\nr8 c8 a4 b0\nr8 c9 a5 bB\nr8 cA a6 bA\nr8 cB a7 b9\nr9 c0 a9 b9\nr9 c1 aA b8\nr9 c2 aB b7\nr9 c3 a0 b6\nr9 c4 a1 b5\nr9 c5 a2 b4\nr9 c6 a3 b3\nr9 c7 a4 b2\nr9 c8 a5 b1\nr9 c9 a6 b0\nr9 cA a7 bB\nr9 cB a8 bA\nrA c0 aA bA\nrA c1 aB b9\nrA c2 a0 b8\nrA c3 a1 b7\nrA c4 a2 b6\nrA c5 a3 b5\nrA c6 a4 b4\nrA c7 a5 b3\nrA c8 a6 b2\nrA c9 a7 b1\nrA cA a8 b0\nrA cB a9 bB\nrB c0 aB bB\nrB c1 a0 bA\nrB c2 a1 b9\nrB c3 a2 b8\nrB c4 a3 b7\nrB c5 a4 b6\nrB c6 a5 b5\nrB c7 a6 b4\nrB c8 a7 b3\nrB c9 a8 b2\nrB cA a9 b1\nrB cB aA b0\n";

/// Problems without a cover, the visits of their empty prefixes, which `trials/plain_search.py` gave, and rooms for
/// states in bytes.
static BARREN: [(&str, u64, [u64; 4]); 3] = [
    (BOARD_OF_6, 945, [0, 100, 1_000, 30_000]),
    (TORUS_QUEENS, 21_798, [0, 4_000, 600_000, 64 << 20]),
    (BOARD_OF_8, 959_562, [50_000, 100_000, 1_000_000, 64 << 20]),
];

/// Whether the search over these tables that keeps states in so many bytes takes so many visits, and finds this first.
fn takes_over<R: Abort>(
    rt: &R,
    alloc: Global,
    tables: &Tables<'_>,
    room: u64,
    visits: u64,
    first: &[u16],
) -> bool {
    let mut searcher = Searcher::keeping(alloc, tables, room).expect(rt, "memory");
    takes(&mut searcher, visits, first)
}

/// Whether the search over sets of live options is so.
fn takes_over_sets<R: Abort>(
    rt: &R,
    alloc: Global,
    problem: &Problem,
    room: u64,
    visits: u64,
    first: &[u16],
) -> bool {
    let tables = Tables::of_sets(alloc, problem).expect(rt, "memory");
    takes_over(rt, alloc, &tables, room, visits, first)
}

/// Whether searches that keep states in so many bytes take so many visits, and find this first: by links, and over sets
/// of live options.
fn take_keeping<R: Abort>(
    rt: &R,
    alloc: Global,
    text: &str,
    room: u64,
    visits: u64,
    first: &[u16],
) -> bool {
    let problem = problem_of(rt, alloc, text);
    let links = Tables::of_links(&problem);
    takes_over_sets(rt, alloc, &problem, room, visits, first)
        && takes_over(rt, alloc, &links, room, visits, first)
}

#[test]
fn kept_states_change_no_search(rt: HostRuntime) {
    for (number, (text, visits, first)) in SEARCHES.iter().enumerate() {
        let is_so = take_keeping(&rt, rt.alloc(), text, STATE_BYTES, *visits, first);
        assert!(rt; is_so, "search {number}");
    }
}

#[test]
fn rooms_of_each_size_come_to_the_same(rt: HostRuntime) {
    for (text, visits, rooms) in &BARREN {
        for room in rooms {
            let is_so = take_keeping(&rt, rt.alloc(), text, *room, *visits, &[]);
            assert!(rt; is_so, "{visits} visits with {room} bytes");
        }
    }
}

/// A watch that stops a search once it has made so many visits.
#[derive(Drop)]
struct Stopping {
    visits: u64,
    made: u64,
}

impl Watch for Stopping {
    ghost may_stop = { true };

    fn look(&mut self, _chosen: &[u16], _left: u64) -> bool {
        self.wait() == 0
    }

    fn wait(&self) -> u64 {
        self.visits.saturating_sub(self.made)
    }

    fn made(&mut self, visits: u64, _left: u64) {
        self.made = self.made.saturating_add(visits);
    }
}

/// What a search with the greatest fuel came to that is stopped after so many visits: the outcome, how many visits were
/// made, and how many were gone by then; none where none was.
type Came = Option<(Outcome, u64, u64)>;

/// What the search of the empty prefix comes to that keeps states in so many bytes; none where memory ran out.
fn came_to(alloc: Global, tables: &Tables<'_>, room: u64, visits: u64) -> Option<Came> {
    let mut searcher = Searcher::keeping(alloc, tables, room).ok()?;
    let mut watch = Stopping { visits, made: 0 };
    let found = searcher
        .find_so_far(Vec::new(alloc), u64::MAX, &mut watch)
        .ok()?;
    Some(found.map(|(finding, gone)| (finding.outcome(), watch.made, gone)))
}

/// How many visits the search of the board of twelve by twelve takes, of which few are made.
const VISITS_OF_12: u64 = 1_455_115_025_598_703;

/// Whether the search of the board over these tables comes to an end within 200,000 visits that it makes, and counts
/// all. (With a table that never grows it would make some 370,000.)
fn is_searched_whole(alloc: Global, tables: &Tables<'_>) -> bool {
    match came_to(alloc, tables, STATE_BYTES, 200_000) {
        Some(Some((outcome, _made, gone))) => outcome == Outcome::Barren && gone == VISITS_OF_12,
        Some(None) | None => false,
    }
}

#[test]
fn a_board_of_twelve_by_twelve_is_searched_whole(rt: HostRuntime) {
    let alloc = rt.alloc();
    let problem = problem_of(&rt, alloc, BOARD_OF_12);
    let sets = Tables::of_sets(alloc, &problem).expect(&rt, "memory");
    assert!(rt; is_searched_whole(alloc, &sets), "over sets");
    assert!(rt;
        is_searched_whole(alloc, &Tables::of_links(&problem)),
        "by links"
    );
    assert!(rt; take_keeping(&rt, alloc, BOARD_OF_12, STATE_BYTES, VISITS_OF_12, &[]));
}

/// Few slots are enough for the board of eight by eight, if states of more visits stay longer than others.
#[test]
fn what_took_many_visits_is_kept(rt: HostRuntime) {
    let alloc = rt.alloc();
    let problem = problem_of(&rt, alloc, BOARD_OF_8);
    let sets = Tables::of_sets(alloc, &problem).expect(&rt, "memory");
    let came = came_to(alloc, &sets, 4_352, 8_000).expect(&rt, "memory");
    let is_whole = matches!(came, Some((Outcome::Barren, _made, gone)) if gone == 959_562);
    assert!(rt; is_whole, "{came:?}");
}

/// Problems without a cover, rooms for states, after how many visits the search is stopped, and what it came to.
static STOPPED: [(&str, u64, u64, Came); 8] = [
    (BOARD_OF_6, STATE_BYTES, 0, None),
    (BOARD_OF_6, STATE_BYTES, 1, Some((Outcome::Spent, 1, 1))),
    (BOARD_OF_6, STATE_BYTES, 20, Some((Outcome::Spent, 20, 20))),
    (BOARD_OF_6, 0, 944, Some((Outcome::Spent, 944, 944))),
    (BOARD_OF_6, 0, 945, Some((Outcome::Barren, 945, 945))),
    // (in these nothing repeats: the first trial is over then)
    (
        TORUS_QUEENS,
        STATE_BYTES,
        5_000,
        Some((Outcome::Spent, 5_000, 5_000)),
    ),
    (
        TORUS_QUEENS,
        STATE_BYTES,
        21_797,
        Some((Outcome::Spent, 21_797, 21_797)),
    ),
    (
        TORUS_QUEENS,
        STATE_BYTES,
        u64::MAX,
        Some((Outcome::Barren, 21_798, 21_798)),
    ),
];

#[test]
fn a_stopped_search_tells_what_it_came_to(rt: HostRuntime) {
    for (number, (text, room, visits, came)) in STOPPED.iter().enumerate() {
        let problem = problem_of(&rt, rt.alloc(), text);
        let tables = Tables::of_sets(rt.alloc(), &problem).expect(&rt, "memory");
        let told = came_to(rt.alloc(), &tables, *room, *visits).expect(&rt, "memory");
        assert_eq!(rt; told, *came, "search {number}");
    }
}

/// Problems, what a search that keeps nothing has as fuel, what it came to, and how many visits it said by then that it
/// had made.
static PLAIN: [(&str, u64, Outcome, u64); 4] = [
    (LETTERS, u64::MAX, Outcome::Cover, 5),
    (BOARD_OF_6, 944, Outcome::Spent, 944),
    (BOARD_OF_6, 945, Outcome::Barren, 945),
    (TORUS_QUEENS, u64::MAX, Outcome::Barren, 21_798),
];

/// What a search of the empty prefix came to that keeps nothing, and how many visits its watch heard of; none where
/// memory ran out.
fn plainly(alloc: Global, tables: &Tables<'_>, fuel: u64) -> Option<(Outcome, u64)>
    requires { 1 ≤ fuel }
{
    let mut searcher = Searcher::of_tables(alloc, tables).ok()?;
    // (it stops nothing)
    let mut watch = Stopping {
        visits: u64::MAX,
        made: 0,
    };
    let found = searcher
        .find_so_far(Vec::new(alloc), fuel, &mut watch)
        .ok()??;
    Some((found.0.outcome(), watch.made))
}

#[test]
fn a_plain_search_tells_what_it_made(rt: HostRuntime) {
    for (text, fuel, outcome, made) in &PLAIN {
        let problem = problem_of(&rt, rt.alloc(), text);
        let sets = Tables::of_sets(rt.alloc(), &problem).expect(&rt, "memory");
        let told = plainly(rt.alloc(), &sets, (*fuel).max(1));
        assert_eq!(rt; told, Some((*outcome, *made)), "{fuel} visits");
    }
}

/// How many visits a searcher says that a search of the empty prefix takes, stopped after so many visits or not; none
/// where it doesn't see that there is no cover.
fn seen<R: Abort>(rt: &R, alloc: Global, tables: &Tables<'_>, visits: Option<u64>) -> Option<u64> {
    let mut searcher = Searcher::keeping(alloc, tables, STATE_BYTES).expect(rt, "memory");
    match visits {
        Some(visits) => searcher.barren_visits(&[], &mut Stopping { visits, made: 0 }),
        None => searcher.barren_visits(&[], &mut Unwatched),
    }
}

/// What a searcher says of the empty prefix once another one shared it: how many visits a search of it takes, as both
/// say, and how many it made to see that; none where memory ran out, or one of them sees nothing.
fn shared(alloc: Global, tables: &Tables<'_>) -> Option<(u64, u64, u64)> {
    // (both here: what the first one says is what the other one may be told)
    let Ok(mut one) = Searcher::keeping(alloc, tables, STATE_BYTES) else {
        return None;
    };
    let Ok(mut other) = Searcher::keeping(alloc, tables, STATE_BYTES) else {
        return None;
    };
    let count = one.barren_visits(&[], &mut Unwatched)?;
    other.keep_shared(&[], count);
    let mut watch = Stopping {
        visits: 10,
        made: 0,
    };
    let again = other.barren_visits(&[], &mut watch)?;
    Some((count, again, watch.made))
}

#[test]
fn what_is_shared_is_not_visited(rt: HostRuntime) {
    for (text, visits, _) in &BARREN {
        let problem = problem_of(&rt, rt.alloc(), text);
        let sets = Tables::of_sets(rt.alloc(), &problem).expect(&rt, "memory");
        let told = shared(rt.alloc(), &sets);
        assert_eq!(rt; told, Some((*visits, *visits, 1)), "{visits} visits");
    }
}

/// A problem with a cover, and one without whose search is stopped after so many visits.
static UNSEEN: [(&str, Option<u64>); 2] = [(LETTERS, None), (BOARD_OF_6, Some(20))];

#[test]
fn what_is_not_seen_is_not_said(rt: HostRuntime) {
    for (text, visits) in &UNSEEN {
        let problem = problem_of(&rt, rt.alloc(), text);
        let sets = Tables::of_sets(rt.alloc(), &problem).expect(&rt, "memory");
        assert_eq!(rt; seen(&rt, rt.alloc(), &sets, *visits), None, "{text}");
    }
}

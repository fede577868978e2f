//! Certificates that are written while a search goes on.
//!
//! Of the bugs of `certificate_writer` that are kept outside the gate, `what_a_search_writes_is_right` finds
//! `cases_are_numbered_from_1` and `dropped_cases_are_met`, and `a_reason_is_a_certificate` finds
//! `needs_are_not_counted`. Of the bugs of `decider` that are kept outside the gate, `what_a_search_writes_is_right`
//! finds `another_item_is_heard`.

use super::written::{Narrow, SEVEN};
use super::{AGREED, COLOURS, IDLE, PAIRS, ROOM};
use brancher::{STATE_BYTES, Tables, Unwatched};
use certificate_writer::CaseWriter;
use cover_certificates::{Checked, check_certificate};
use cover_reasons::find_reason;
use decider::{Decider, Decision};
use dlx_reader::{CountedWriter, read_problem};
use search_engines::{ReasonListener, write_certified};
use std::alloc::Global;

/// Nine items, any two of which are an option: what is left behind two choices is met again behind others.
const NINE: &str =
    "a b c d e f g h i\na b\na c\na d\na e\na f\na g\na h\na i\nb c\nb d\nb e\nb f\nb g\nb h\nb i\nc d\nc e\nc f\nc g\nc h\nc i\nd e\n\
    d f\nd g\nd h\nd i\ne f\ne g\ne h\ne i\nf g\nf h\nf i\ng h\ng i\nh i\n";

/// What came of a search: its decision, whether all lines were written, and what the test of the text comes to.
type Searched = (Decision, bool, Checked);

/// Searches a problem, and writes to the text what a writer takes that has so much room, by lines whose reader holds so
/// many kept cases; none if memory is refused or the problem is.
fn search(
    alloc: Global,
    problem: &str,
    most: u32,
    room: usize,
    text: &mut Vec<u8>,
) -> Option<Searched> {
    let read = read_problem(alloc, problem.as_bytes()).ok()?;
    let tables = Tables::build(alloc, &read.problem).ok()?;
    let mut decider = Decider::new(alloc, &tables, STATE_BYTES).ok()?;
    let (decision, is_whole) = {
        let sink = CountedWriter::new(Narrow {
            text: &mut *text,
            room,
        });
        let mut writer = CaseWriter::holding(alloc, &read.problem, most, sink).ok()?;
        let decision = decider.decide_traced(&mut Unwatched, &mut writer);
        (decision, writer.end())
    };
    let checked = check_certificate(alloc, &read.problem, text).ok()?;
    Some((decision, is_whole, checked))
}

/// Returns how many lines begin with a sign.
fn lines_with(text: &[u8], sign: u8) -> usize {
    let mut count = 0usize;
    let mut is_start = true;
    for byte in text {
        if is_start && *byte == sign {
            count = count.saturating_add(1);
        }
        is_start = *byte == b'\n';
    }
    count
}

#[test]
fn what_a_search_writes_is_right(rt: HostRuntime) {
    for problem in [PAIRS, ROOM, COLOURS, IDLE, SEVEN, NINE].iter() {
        for most in [u32::MAX, 8, 3, 1, 0].iter() {
            let mut text = Vec::new(rt.alloc());
            let came = search(rt.alloc(), problem, *most, usize::MAX, &mut text);
            let is_right = matches!(came, Some((Decision::Barren(_), true, Checked::Right)));
            assert!(rt; is_right, "{problem} {most}");
        }
    }
}

#[test]
fn cases_are_met_again_and_dropped(rt: HostRuntime) {
    let mut whole = Vec::new(rt.alloc());
    search(rt.alloc(), NINE, u32::MAX, usize::MAX, &mut whole);
    assert!(rt; lines_with(&whole, b'!') > 0 && lines_with(&whole, b'=') > 0);
    assert!(rt; lines_with(&whole, b'-') == 0);
    let mut dropping = Vec::new(rt.alloc());
    search(rt.alloc(), NINE, 8, usize::MAX, &mut dropping);
    assert!(rt; lines_with(&dropping, b'=') > 0 && lines_with(&dropping, b'-') > 0);
    // (eight are held, and those of one way are kept behind the last line of a case: four at most)
    let most = lines_with(&dropping, b'-').saturating_add(12);
    assert!(rt; lines_with(&dropping, b'!') <= most);
}

#[test]
fn what_is_cut_off_or_has_a_cover_is_no_certificate(rt: HostRuntime) {
    let mut text = Vec::new(rt.alloc());
    let came = search(rt.alloc(), NINE, u32::MAX, 40, &mut text);
    assert!(rt;
        matches!(
            came,
            Some((Decision::Barren(_), false, Checked::Wrong(_, _)))
        )
    );
    let mut text = Vec::new(rt.alloc());
    let came = search(rt.alloc(), AGREED, u32::MAX, usize::MAX, &mut text);
    assert!(rt; matches!(came, Some((Decision::Found, true, Checked::Wrong(_, _)))));
}

/// Returns whether the reason of a problem, if one is found, is written as this text, which is right.
fn is_reasoned(alloc: Global, problem: &str, expected: &str) -> Option<bool> {
    let read = read_problem(alloc, problem.as_bytes()).ok()?;
    let reason = find_reason(alloc, &read.problem).ok()??;
    let mut text = Vec::new(alloc);
    {
        let sink = CountedWriter::new(&mut text);
        let mut writer = CaseWriter::new(alloc, &read.problem, sink).ok()?;
        writer.hears(&reason);
        if !writer.end() || !writer.is_begun() {
            return Some(false);
        }
    }
    let checked = check_certificate(alloc, &read.problem, &text).ok()?;
    Some(checked == Checked::Right && text.as_slice() == expected.as_bytes())
}

/// Problems, with the certificates that their reasons make.
static REASONED: [(&str, &str); 2] = [
    (PAIRS, "none\ncases 3 3\nweights 2 0 1 1 1 2 1\n*0\n"),
    (ROOM, "none\ncases 3 2\nroom 2 0 1 1 1 2 1\n*0\n"),
];

#[test]
fn a_reason_is_a_certificate(rt: HostRuntime) {
    for (problem, expected) in REASONED.iter() {
        assert!(rt;
            is_reasoned(rt.alloc(), problem, expected) == Some(true),
            "{problem}"
        );
    }
}

/// Returns the status of an answer that is written beside a certificate, its text, and whether the certificate is
/// right.
fn answered(rt: &HostRuntime, problem: &str, out: &mut Vec<u8>) -> Option<(u8, bool)> {
    let alloc = rt.alloc();
    let read = read_problem(alloc, problem.as_bytes()).ok()?;
    let mut text = Vec::new(alloc);
    let status = {
        let mut writer = CaseWriter::new(alloc, &read.problem, CountedWriter::new(&mut text)).ok()?;
        let mut sink = CountedWriter::new(out);
        let came = write_certified(
            rt,
            alloc,
            &read.problem,
            &mut Unwatched,
            &mut writer,
            &mut sink,
        );
        writer.end();
        came.ok()?.status
    };
    let checked = check_certificate(alloc, &read.problem, &text).ok()?;
    Some((status, checked == Checked::Right))
}

#[test]
fn an_answer_comes_with_its_certificate(rt: HostRuntime) {
    let mut out = Vec::new(rt.alloc());
    assert!(rt; answered(&rt, NINE, &mut out) == Some((1, true)));
    assert!(rt; out.as_slice() == b"none\n".as_slice());
    let mut out = Vec::new(rt.alloc());
    assert!(rt; answered(&rt, AGREED, &mut out) == Some((0, false)));
    assert!(rt; out.as_slice() == b"cover 2\nl r:x\nm r:x\n".as_slice());
}

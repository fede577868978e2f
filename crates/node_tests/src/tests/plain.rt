//! Runs over links that lose nothing.
//!
//! Of the bugs of `udp_node` that are kept outside the gate, `packets_leave_at_once` finds `the_sender_is_not_roused`.

ghost use Rattle.std.specs.Prelude.{◌≤◌};

use super::ends::wires;
use super::runs::{BARE, COVERED, Came, Told, run};
use super::timings::SOON;
use std::test::Fail;
use udp_node::{Open, Plan, Timing};

/// The plan of this number: one to four nodes with one to three workers each, which search little or much at a time.
fn plan_of(number: u8) -> Plan
    ensures some { 1 ≤ result.nodes }
    ensures most { result.nodes ≤ 16 }
{
    Plan {
        workers: 1 + number / 4 % 3,
        nodes: 1 + number % 4,
        fuel: if number < 12 { 1 } else { 1024 },
        seed: u64::from(number),
        turns: 1_000_000,
        timing: SOON,
        entries: 1_000_000,
        book_bytes: 1_000_000_000,
        restarts: 0,
        limit: None,
    }
}

#[test]
fn any_number_of_nodes_and_workers(rt: HostRuntime) -> Result<(), Fail> {
    for number in 0..24 {
        let plan = plan_of(number);
        for row in [&COVERED, &BARE] {
            let links = wires(rt.alloc(), plan.nodes)?;
            let came = run(&rt, rt.alloc(), row, plan, links, &Open);
            let (told, books) = (Told::Right, usize::from(plan.nodes) + 1);
            assert_eq!(rt; came, Some(Came { told, books }), "plan {number}");
        }
    }
    Ok(())
}

/// Each packet leaves as soon as it is put out: one that waits until somebody looks for it comes later than sites wait
/// for one another.
#[test]
fn packets_leave_at_once(rt: HostRuntime) -> Result<(), Fail> {
    let plan = Plan {
        timing: Timing {
            silence_ms: 10_000,
            ..SOON
        },
        ..plan_of(5)
    };
    let links = wires(rt.alloc(), plan.nodes)?;
    let came = run(&rt, rt.alloc(), &COVERED, plan, links, &Open);
    let (told, books) = (Told::Right, 3);
    assert_eq!(rt; came, Some(Came { told, books }));
    Ok(())
}

#[test]
fn no_turns_and_no_answer(rt: HostRuntime) -> Result<(), Fail> {
    let plan = Plan {
        turns: 0,
        ..plan_of(1)
    };
    let links = wires(rt.alloc(), plan.nodes)?;
    let came = run(&rt, rt.alloc(), &COVERED, plan, links, &Open);
    let (told, books) = (Told::Nothing, 3);
    assert_eq!(rt; came, Some(Came { told, books }));
    Ok(())
}

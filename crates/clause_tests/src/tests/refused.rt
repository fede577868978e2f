//! Clauses where memory is refused: nothing is learned, and the same step then comes to what the script says.
//!
//! No memory is refused here: `trials/try_memory.py` does it from outside, and sees by marks where a step begins and
//! ends.

use super::steps::{SCRIPTS, Step, problem_of};
use growth_marks::{begin, end};
use implied_clauses::{Hint, ImpliedClauses, Literal};
use std::alloc::Global;
use std::process::Abort;

/// The number of a clause that is to be learned.
const LEARN: usize = 98;

/// The number of a problem's first clauses.
const NEW: usize = 99;

/// The first clauses of a problem. Where memory is refused it asks for them again.
fn first_clauses<'a, R: Abort>(
    rt: &R,
    alloc: Global,
    problem: &'a cover_problem::Problem,
) -> ImpliedClauses<'a> {
    begin(alloc, NEW).expect(rt, "memory");
    let clauses = ImpliedClauses::new(alloc, problem);
    end(alloc, clauses.is_err()).expect(rt, "memory");
    match clauses {
        Ok(clauses) => clauses,
        Err(_) => ImpliedClauses::new(alloc, problem).expect(rt, "memory"),
    }
}

/// Whether the clause is learned, in a call that is marked. Where memory is refused nothing changes, and it is tried
/// again.
fn is_learned<R: Abort>(
    rt: &R,
    alloc: Global,
    clauses: &mut ImpliedClauses<'_>,
    (clause, hints): (&[Literal], &[Hint]),
) -> bool {
    let places = clauses.places();
    let refuted = clauses.is_refuted();
    begin(alloc, LEARN).expect(rt, "memory");
    let learned = clauses.learn(alloc, places, clause, hints);
    end(alloc, learned.is_err()).expect(rt, "memory");
    match learned {
        Ok(is_learned) => is_learned,
        Err(_) => {
            assert!(rt; clauses.places() == places && clauses.is_refuted() == refuted);
            clauses
                .learn(alloc, places, clause, hints)
                .expect(rt, "memory")
        }
    }
}

#[test]
fn refused_memory_at_a_clause(rt: HostRuntime) {
    for (text, steps) in SCRIPTS.iter() {
        let problem = problem_of(&rt, rt.alloc(), text);
        let mut clauses = first_clauses(&rt, rt.alloc(), &problem);
        for step in steps.iter() {
            if let Step::Learn(clause, hints, answer) = step {
                let is_learned = is_learned(&rt, rt.alloc(), &mut clauses, (clause, hints));
                assert!(rt; is_learned || !*answer);
            }
        }
    }
}

//! Steps of searchers, true ones and lying ones, each with what the kernel answers.

mod refused;
mod steps;

use crate::tests::steps::{SCRIPTS, Step, problem_of};
use implied_clauses::ImpliedClauses;
use std::alloc::Global;
use std::process::Abort;

/// Does a step, and asserts that the answer is the step's.
fn do_step<R: Abort>(rt: &R, alloc: Global, clauses: &mut ImpliedClauses<'_>, step: &Step) {
    let before = clauses.places();
    match step {
        Step::Learn(clause, hints, answer) => {
            let is_learned = clauses
                .learn(alloc, before, clause, hints)
                .expect(rt, "memory");
            assert!(rt; is_learned == *answer, "{clause:?} by {hints:?}");
            assert!(rt; clauses.places() == before + usize::from(is_learned));
        }
        Step::Forget(place) => {
            clauses.forget(*place);
            assert!(rt; clauses.clause(*place).is_none());
        }
        Step::Holds(place, clause) => {
            assert!(rt; clauses.clause(*place) == Some(*clause), "place {place}");
        }
        Step::Refuted(answer) => assert!(rt; clauses.is_refuted() == *answer),
    }
}

#[test]
fn steps_of_searchers(rt: HostRuntime) {
    for (text, steps) in SCRIPTS.iter() {
        let problem = problem_of(&rt, rt.alloc(), text);
        let mut clauses = ImpliedClauses::new(rt.alloc(), &problem).expect(&rt, "memory");
        for step in steps.iter() {
            do_step(&rt, rt.alloc(), &mut clauses, step);
        }
    }
}

//! A copy of a problem is that problem.

use super::texts::problem_of;
use cover_problem::Problem;

/// Whether it is the problem of the test below.
fn is_problem(problem: &Problem) -> bool {
    problem.items() == 3
        && problem.primary() == 2
        && problem.options() == 2
        && problem.name(2) == b"x".as_slice()
        && problem.option(0) == [1, 2].as_slice()
}

#[test]
fn a_problem(rt: HostRuntime) {
    let copy = problem_of(&rt, rt.alloc(), "a b | x\nb x\na\n").copy();
    assert!(rt; is_problem(&copy.expect(&rt, "memory")));
}

//! How many nodes a problem has.

ghost use Rattle.std.specs.Prelude.{◌≡◌, ◌<◌, length};
ghost use Rattle.std.specs.List.{sum_by};

use cover_problem::Problem;

/// How many nodes the problem has: how many items its options name, all together. There are at most `MOST_NODES`.
pub fn nodes_of(problem: &Problem) -> usize
    ensures { result ≡ sum_by length problem.now.options }
{
    problem.recall_rules();
    let mut nodes = 0;
    for option in 0..problem.options() as u16 {
        nodes += problem.option(option).len();
    }
    nodes
}

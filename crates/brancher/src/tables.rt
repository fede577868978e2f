//! What the searches of one problem share.

ghost use Rattle.std.specs.Prelude.{◌≡◌, IfOk, IfSome};

use crate::estimate::suits_links;
use cover_problem::Problem;
use option_sets::OptionSets;
use std::alloc::{AllocError, Global};
use std::marker::Model;

/// What the searches of one problem share, in several threads, too: the problem and, for searches over sets of live
/// options, the sets of its options. A contract sees it as the problem.
#[derive(Drop)]
pub struct Tables<'a> {
    problem: &'a Problem,
    /// None for searches by links.
    sets: Option<OptionSets<'a>>,
}

impl<'a> Model for Tables<'a> {
    ghost use Rattle.std.specs.Prelude.{◌≡◌, IfSome};
    ghost use Rattle.cover_problem.specs.Problem.{Problem as ProblemValue};

    ghost Value = { ProblemValue };

    ghost view = { λ t. t.problem.now };

    ghost invariant = { λ t. IfSome t.sets (λ sets. sets ≡ t.problem.now) };
}

impl<'a> Tables<'a> {
    /// The tables of a problem for the search that is thought to be the faster one; the only error is out of memory.
    pub fn build(alloc: Global, problem: &'a Problem) -> Result<Tables<'a>, AllocError>
        ensures { IfOk result (λ tables. tables ≡ problem.now) }
    {
        if suits_links(alloc, problem)? {
            return Ok(Tables::of_links(problem));
        }
        Tables::of_sets(alloc, problem)
    }

    /// The tables of a problem for searches by links. They take no memory.
    pub fn of_links(problem: &'a Problem) -> Tables<'a>
        ensures { result ≡ problem.now }
    {
        Tables {
            problem,
            sets: None,
        }
    }

    /// The tables of a problem for searches over sets of live options; the only error is out of memory.
    pub fn of_sets(alloc: Global, problem: &'a Problem) -> Result<Tables<'a>, AllocError>
        ensures { IfOk result (λ tables. tables ≡ problem.now) }
    {
        let sets = OptionSets::build(alloc, problem)?;
        Ok(Tables {
            problem,
            sets: Some(sets),
        })
    }

    /// The problem.
    pub fn problem(&self) -> &'a Problem
        ensures { result.now ≡ self.now }
    {
        self.problem
    }

    /// Whether searches over these tables go over sets of live options; else they go by links. Only tests and tools
    /// ask.
    pub fn has_sets(&self) -> bool {
        self.sets.is_some()
    }

    /// The sets of the problem's options, for searches over them.
    pub fn sets(&self) -> Option<&OptionSets<'a>>
        ensures { IfSome result (λ sets. sets.now ≡ self.now) }
    {
        self.sets.as_ref()
    }
}

//! What a checker knows of a problem before it reads a certificate.

ghost use Rattle.std.specs.Prelude.{◌≡◌, ◌<◌, length, map, IfOk};
ghost use Rattle.std.specs.List.{range_with_len};
ghost use Rattle.cover_problem.specs.Problem.{IsProblem, names_item};
ghost use Rattle.cover_certificates.specs.Tables.{options_naming};

use cover_problem::{Numbers, Problem};
use option_sets::OptionSets;
use std::alloc::{AllocError, Global};
use std::marker::Model;

/// The sets of a problem's options, and of each primary item the options that name it. Contracts see the problem.
#[derive(Drop)]
pub(crate) struct Tables<'a> {
    sets: OptionSets<'a>,
    naming: Vec<Numbers>,
}

impl<'a> Model for Tables<'a> {
    ghost use Rattle.cover_problem.specs.Problem.{Problem as ProblemValue};
    ghost use Rattle.cover_certificates.specs.Tables.{AreNamings};

    ghost Value = { ProblemValue };

    ghost view = { λ t. t.sets };

    ghost invariant = { λ t. AreNamings t.sets t.naming.items };
}

impl<'a> Tables<'a> {
    /// The tables of a problem; the only error is out of memory.
    pub(crate) fn build(alloc: Global, problem: &'a Problem) -> Result<Tables<'a>, AllocError>
        ensures { IfOk result (λ tables. tables ≡ problem.now) }
    {
        let sets = OptionSets::build(alloc, problem)?;
        let naming = all_options_naming(alloc, problem)?;
        Ok(Tables { sets, naming })
    }

    /// Returns the sets.
    #[inline(always)]
    pub(crate) fn sets(&self) -> &OptionSets<'a>
        ensures { result.now ≡ self.now }
    {
        &self.sets
    }

    /// Returns how many primary items there are.
    pub(crate) fn primary(&self) -> usize
        ensures count { result ≡ self.now.primary }
        ensures lawful { IsProblem self.now }
    {
        self.sets.problem().primary()
    }

    /// Returns the options that name a primary item, in the order of the file.
    pub(crate) fn options_naming(&self, item: u16) -> &[u16]
        requires { item < self.now.primary }
        ensures { result.now ≡ options_naming self.now item }
    {
        self.naming[item as usize].as_slice()
    }
}

/// Returns of each primary item the options that name it; the only error is out of memory.
fn all_options_naming(alloc: Global, problem: &Problem) -> Result<Vec<Numbers>, AllocError>
    ensures { IfOk result (λ naming. naming.items
        ≡ map (options_naming problem.now) (range_with_len 0 problem.now.primary)) }
{
    let mut lists = Vec::with_capacity(alloc, problem.primary())?;
    for item in 0..problem.primary() as u16 {
        lists.push(options_naming(alloc, problem, item)?)?;
    }
    Ok(lists)
}

/// Returns the options that name an item, in the order of the file; the only error is out of memory.
fn options_naming(alloc: Global, problem: &Problem, item: u16) -> Result<Numbers, AllocError>
    ensures { IfOk result (λ options. options ≡ options_naming problem.now item) }
{
    let mut options = Vec::new(alloc);
    for option in 0..problem.options() as u16 {
        if names_item(problem, option, item) {
            options.push(option)?;
        }
    }
    Ok(Numbers::from_vec(options))
}

/// Returns whether an option names an item.
fn names_item(problem: &Problem, option: u16, item: u16) -> bool
    requires { option < length problem.now.options }
    ensures { result ≡ names_item problem.now option item }
{
    problem.option(option).iter().any(|other| *other == item)
}

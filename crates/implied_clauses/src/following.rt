//! Whether a clause follows from others by unit propagation.
//!
//! This is the test of proof checkers for SAT: reverse unit propagation, along hints as in LRAT. The clause's literals
//! are assumed false; where a hint's clause is unit then, its literal is assumed true, until one is violated. So it
//! takes time in what the hints name, not in all clauses, and needs no watches. A hint whose clause isn't unit is
//! passed over, where a checker of LRAT would stop.

ghost use Rattle.std.specs.Prelude.{◌≡◌, ◌==◌, ◌&&◌, ◌||◌, not, length, Bool, List, Option};
ghost use Rattle.cover_problem.specs.Prefix.{clash};
ghost use Rattle.implied_clauses.specs.Following.{clash_clause, deny, follows, hinted, open_by, refutes, refutes_by};
ghost use Rattle.implied_clauses.specs.Rests.{rest_by};
ghost use Rattle.implied_clauses.specs.declared.literal.Literal.{Literal as LiteralValue};

use crate::assumptions::Assumptions;
use crate::clause::Clause;
use crate::literal::{Hint, Literal};
use crate::rest::{Rest, rest_of};
use cover_problem::{Problem, clash};

/// Returns what is left of the clause that a hint names.
fn rest_by(problem: &Problem, clauses: &[Option<Clause>], assumed: &Assumptions, hint: Hint) -> Rest
    ensures { result ≡ rest_by (open_by assumed.now (hinted problem.now clauses.now hint)) }
{
    match hint {
        Hint::Clause(place) => match clauses.get(place as usize) {
            Some(Some(clause)) => rest_of(assumed, clause.as_slice()),
            _ => Rest::Open,
        },
        Hint::Clash(first, second) => rest_of_clash(problem, assumed, first, second),
    }
}

/// Returns whether these are different options of the problem, and clash.
#[tactic(auto, using(crate::proofs::Clashing::first_has_no_clash, crate::proofs::Clashing::second_has_no_clash))]
fn do_clash(problem: &Problem, first: u16, second: u16) -> bool
    ensures { result ≡ (not (first == second) && clash problem.now first second) }
{
    if first == second {
        return false;
    }
    if usize::from(first) >= problem.options() {
        return false;
    }
    if usize::from(second) >= problem.options() {
        return false;
    }
    clash(problem, first, second)
}

/// Returns what is left of the clause that not both of these options are chosen, if they clash.
fn rest_of_clash(problem: &Problem, assumed: &Assumptions, first: u16, second: u16) -> Rest
    ensures { result ≡ rest_by (open_by assumed.now (clash_clause problem.now first second)) }
{
    if !do_clash(problem, first, second) {
        return Rest::Open;
    }
    rest_of(assumed, &[Literal::Left(first), Literal::Left(second)])
}

/// Assumes that each literal of the clause is false.
fn deny(assumed: &mut Assumptions, clause: &[Literal])
    ensures { assumed.new ≡ deny assumed.old clause.now }
{
    for literal in clause {
        assumed.assume(literal.negated());
    }
}

/// Assumes what is left of a clause, if it is one literal. Returns whether nothing is left.
#[inline(always)]
fn is_falsified(assumed: &mut Assumptions, rest: Rest) -> bool
    ensures long { length assumed.new ≡ length assumed.old }
    ensures step { (left : Option (List LiteralValue)) (later : List (Option Bool) → Bool) → rest ≡ rest_by left →
        refutes_by left later assumed.old ≡ (result || later assumed.new) }
{
    match rest {
        Rest::Falsified => true,
        Rest::Unit(literal) => {
            assumed.assume(literal);
            false
        }
        Rest::Open => false,
    }
}

/// Returns whether the clauses that the hints name, in their order, refute what is assumed.
fn refutes(
    problem: &Problem,
    clauses: &[Option<Clause>],
    assumed: &mut Assumptions,
    hints: &[Hint],
) -> bool
    ensures answer { result ≡ refutes problem.now clauses.now hints.now assumed.old }
    ensures long { length assumed.new ≡ length assumed.old }
{
    for hint in hints {
        let rest = rest_by(problem, clauses, assumed, *hint);
        if is_falsified(assumed, rest) {
            return true;
        }
    }
    false
}

/// Returns whether the clause follows: where its literals are assumed to be false, the clauses that the hints name, in
/// their order, leave one literal, which is assumed too, until one of them leaves none. It changes what is assumed and
/// nothing else.
pub fn follows(
    problem: &Problem,
    clauses: &[Option<Clause>],
    assumed: &mut Assumptions,
    clause: &[Literal],
    hints: &[Hint],
) -> bool
    requires { length assumed.old ≡ length problem.now.options }
    ensures answer { result ≡ follows problem.now clauses.now clause.now hints.now }
    ensures long { length assumed.new ≡ length assumed.old }
{
    assumed.begin();
    deny(assumed, clause);
    refutes(problem, clauses, assumed, hints)
}

//! What is left open of a clause under assumptions.

ghost use Rattle.std.specs.Prelude.{◌≡◌, List, ◌++◌, ◌∷◌, [], if◌then◌else◌};
ghost use Rattle.implied_clauses.specs.Following.{is_false, open_literals};
ghost use Rattle.implied_clauses.specs.Rests.{rest_of};
ghost use Rattle.implied_clauses.specs.declared.literal.Literal.{Literal as LiteralValue};

use crate::assumptions::Assumptions;
use crate::literal::Literal;

/// What is left of a clause: the literals that aren't assumed to be false.
#[derive(Clone, Copy)]
pub enum Rest {
    /// Nothing.
    Falsified,
    /// This literal.
    Unit(Literal),
    /// Several of them, or there is no such clause.
    Open,
}

/// Returns what is left of a clause with one more literal, where this was left before.
#[inline(always)]
fn rest_with(assumed: &Assumptions, rest: Rest, literal: Literal) -> Rest
    ensures { (before : List LiteralValue) → rest ≡ rest_of before →
        result ≡ rest_of (before ++ (if is_false assumed.now literal then [] else literal ∷ [])) }
{
    if assumed.is_false(literal) {
        return rest;
    }
    match rest {
        Rest::Falsified => Rest::Unit(literal),
        _ => Rest::Open,
    }
}

/// Returns what is left of a clause.
pub fn rest_of(assumed: &Assumptions, clause: &[Literal]) -> Rest
    ensures { result ≡ rest_of (open_literals assumed.now clause.now) }
{
    let mut rest = Rest::Falsified;
    for literal in clause {
        rest = rest_with(assumed, rest, *literal);
        match rest {
            Rest::Open => return Rest::Open,
            _ => {}
        }
    }
    rest
}

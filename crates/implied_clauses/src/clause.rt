//! A clause, as in SAT solvers: a disjunction of literals. Its type doesn't say that it holds: that is an invariant of
//! `ImpliedClauses`.

ghost use Rattle.std.specs.Prelude.{◌≡◌, ◌++◌, ◌∷◌, [], IfOk, OnOk};

use crate::literal::Literal;
use std::alloc::{AllocError, Global};
use std::marker::Model;

/// A list of literals, one of which is true.
#[derive(Drop)]
pub struct Clause {
    // (in a contract a bare list is seen with its pointer and its room, so no copy would equal it)
    literals: Vec<Literal>,
}

impl Model for Clause {
    ghost use Rattle.std.specs.Prelude.{List};
    ghost use Rattle.implied_clauses.specs.declared.literal.Literal.{Literal as LiteralValue};

    ghost Value = { List LiteralValue };

    ghost view = { λ c. c.literals.items };
}

impl Clause {
    /// Returns the clause with no literal, for which no memory is taken.
    pub fn empty(alloc: Global) -> Clause
        ensures { result ≡ [] }
    {
        Clause {
            literals: Vec::new(alloc),
        }
    }

    /// Returns a copy of a list as a clause; the only error is out of memory.
    pub fn copied(alloc: Global, literals: &[Literal]) -> Result<Clause, AllocError>
        ensures { IfOk result (λ clause. clause ≡ literals.now) }
    {
        let literals = Vec::from_slice(alloc, literals)?;
        Ok(Clause { literals })
    }

    /// Adds a literal at the end; the only error is out of memory.
    pub fn push(&mut self, literal: Literal) -> Result<(), AllocError>
        ensures { OnOk result (self.new ≡ self.old ++ literal ∷ []) }
    {
        self.literals.push(literal)?;
        Ok(())
    }

    /// Returns its literals.
    pub fn as_slice(&self) -> &[Literal]
        ensures { result.now ≡ self.now }
    {
        &self.literals
    }
}

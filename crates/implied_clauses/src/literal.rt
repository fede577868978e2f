//! Literals, and hints as in LRAT: the clauses that a checker reads, in their order. Clashes have no number, since no
//! list of them is made.

/// A statement about an option of a set of options.
#[derive(Clone, Copy, Debug, PartialEq, Eq)]
pub enum Literal {
    /// The option with this number is chosen.
    Chosen(u16),
    /// It is left.
    Left(u16),
}

/// A clause along which to propagate.
#[derive(Clone, Copy, Debug, PartialEq, Eq)]
pub enum Hint {
    /// The clause at this place.
    Clause(u32),
    /// That not both of these options are chosen, which are different and clash.
    Clash(u16, u16),
}

impl Literal {
    ghost use Rattle.std.specs.Prelude.{◌≡◌};
    ghost use Rattle.implied_clauses.specs.Clauses.{negated};

    /// Returns the opposite statement.
    pub fn negated(self) -> Literal
        ensures { result ≡ negated self }
    {
        match self {
            Literal::Chosen(option) => Literal::Left(option),
            Literal::Left(option) => Literal::Chosen(option),
        }
    }
}

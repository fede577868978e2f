//! What a search came to, with what was asked: so it can be judged by itself, whoever made it.
//!
//! A worker posts a finding as an event of its node. The node's book keeps a copy long after the searcher has gone on
//! to another prefix, hence the cover is copied out. Equality is a part of that of events, and passes over the cover of
//! a search that found none.

ghost use Rattle.std.specs.Prelude.{◌≡◌, ◌↔◌, ℕ, List, IfOk, IsTrue};
ghost use Rattle.std.proofs.Common.{rules};
ghost use Rattle.std.specs.Cmp.Rules.{comparing};
ghost use Rattle.cover_problem.specs.Search.{Covers};

use crate::outcome::Outcome;
use cover_problem::Numbers;
use std::alloc::AllocError;
use std::marker::Model;

/// What a search of a prefix with some fuel came to, copied out of its searcher.
#[derive(Debug, Drop)]
pub struct Finding {
    prefix: Numbers,
    fuel: u64,
    outcome: Outcome,
    cover: Numbers,
}

impl Model for Finding {
    ghost use Rattle.brancher.specs.Finding.{Finding as FindingValue, finding_by};
    ghost use Rattle.brancher.specs.Visit.{outcome_told};

    ghost Value = { FindingValue };

    ghost view = { λ f. finding_by f.prefix f.fuel (outcome_told f.outcome f.cover) };
}

impl PartialEq for Finding {
    ghost use Rattle.brancher.specs.Finding.{same_finding};

    ghost eq = { same_finding };

    ghost laws = { Prim.search (comparing, rules) };

    fn eq(&self, other: &Finding) -> bool
        ensures same { result ≡ same_finding self.now other.now }
        ensures exact { IsTrue result ↔ (self.now ≡ other.now) }
    {
        self.prefix == other.prefix && self.fuel == other.fuel && self.came_to(other)
    }
}

impl Eq for Finding {
    ghost laws = { Prim.search (comparing, rules) };
}

impl Clone for Finding {
    ghost is_clone = { λ a b. a ≡ b };

    fn clone(&self) -> Result<Self, AllocError> {
        Ok(Finding {
            prefix: self.prefix.clone()?,
            fuel: self.fuel,
            outcome: self.outcome,
            cover: self.cover.clone()?,
        })
    }
}

impl Finding {
    ghost use Rattle.brancher.specs.Finding.{finding_by, same_outcome};
    ghost use Rattle.brancher.specs.Visit.{outcome_told};

    /// What the search of a prefix with so much fuel came to, with the cover that was found, if any.
    pub(crate) fn from_parts(
        prefix: Vec<u16>,
        fuel: u64,
        outcome: Outcome,
        cover: Vec<u16>,
    ) -> Finding
        ensures { result ≡ finding_by prefix.items fuel (outcome_told outcome cover.items) }
    {
        Finding {
            prefix: Numbers::from_vec(prefix),
            fuel,
            outcome,
            cover: Numbers::from_vec(cover),
        }
    }

    /// The prefix that was searched.
    pub fn prefix(&self) -> &[u16]
        ensures { result.now ≡ self.now.prefix }
    {
        self.prefix.as_slice()
    }

    /// How many visits the search was allowed.
    pub fn fuel(&self) -> u64
        ensures { result ≡ self.now.fuel }
    {
        self.fuel
    }

    /// How the search ended.
    pub fn outcome(&self) -> Outcome
        ensures { (cover : List ℕ) × (outcome_told result cover ≡ self.now.outcome) }
    {
        self.outcome
    }

    /// The cover that was found; of a search that found none, nothing is said of it.
    pub fn cover(&self) -> &[u16]
        ensures { (options : List ℕ) → self.now.outcome ≡ Covers options → result.now ≡ options }
    {
        self.cover.as_slice()
    }

    /// The cover that was found, as the caller's; of a search that found none, nothing is said of it.
    pub fn into_cover(self) -> Numbers
        ensures { (options : List ℕ) → self.outcome ≡ Covers options → result ≡ options }
    {
        let Finding {
            prefix: _,
            fuel: _,
            outcome: _,
            cover,
        } = self;
        cover
    }

    /// Whether it came to what the other did; where none was found, no cover is looked at.
    fn came_to(&self, other: &Finding) -> bool
        ensures { result ≡ same_outcome self.now.outcome other.now.outcome }
    {
        match (self.outcome, other.outcome) {
            (Outcome::Cover, Outcome::Cover) => self.cover == other.cover,
            (own, others) => own == others,
        }
    }

    /// An equal finding; the only error is out of memory.
    pub fn copy(&self) -> Result<Finding, AllocError>
        ensures { IfOk result (λ copied. copied ≡ self.now) }
    {
        self.clone()
    }
}

//! The units of work of one site.

ghost use Rattle.std.specs.Prelude.{◌≡◌, ◌≤◌, length, IfOk, MatchOption, None};
ghost use Rattle.spawn_frame.specs.Tables.{empty_table, root_table, AllLawful, HasParents, IsAscending};
ghost use Rattle.spawn_frame.specs.Units.{unit_of};

use crate::children::Children;
use crate::guests::Guests;
use crate::site::Site;
use crate::unit::Unit;
use crate::units::place_of;
use crate::work::Work;
use std::alloc::{AllocError, Global};
use std::marker::Model;

/// The units of work of one site: its own children by serial, and its guests in the order of their names and attempts.
///
/// Only `with_root`, `spawn`, `admit`, `admit_each`, `prefix_into` and copies take memory. The own children stand in
/// pages of 256: a call looks at each page once and at the children of one or two pages, `outs` at those of each page
/// that has one that is out. A guest is found by halving. Only `ready`, `take` and `ripe` may make a pass through the
/// open guests, where they find no own child: no call walks over guests that have ended. No call goes through the
/// children of a frame, whose inlet has heard them.
#[derive(Drop)]
pub struct Table {
    pub(crate) site: Site,
    pub(crate) names_limit: u32,
    pub(crate) own: Children,
    pub(crate) guests: Guests,
    pub(crate) alloc: Global,
}

impl Model for Table {
    ghost use Rattle.spawn_frame.specs.Units.{Table as TableValue};

    ghost Value = { TableValue };

    ghost use Rattle.spawn_frame.specs.Works.{table_of, IsTable};

    ghost view = { λ t. table_of t.site t.names_limit t.own t.guests };

    ghost invariant = { λ t. IsTable (table_of t.site t.names_limit t.own t.guests) t.own
        t.guests };
}

impl Table {
    ghost use Rattle.spawn_frame.specs.Works.{IsWork};

    /// The table of a site without units, which may name so many children. It costs nothing.
    pub fn start(alloc: Global, site: Site, names_limit: u32) -> Table
        ensures { result ≡ empty_table site names_limit }
    {
        Table {
            site,
            names_limit,
            own: Children::new(alloc),
            guests: Guests::new(alloc),
            alloc,
        }
    }

    /// The registry's table at the beginning, with the root; the only error is out of memory.
    pub fn with_root(alloc: Global) -> Result<Table, AllocError>
        ensures { IfOk result (λ table. table ≡ root_table) }
    {
        let own = Children::with_root(alloc)?;
        let site = Site {
            node: 0,
            incarnation: 1,
        };
        Ok(Table {
            site,
            // (the root is the registry's only child: nothing is ever split there)
            names_limit: 1,
            own,
            guests: Guests::new(alloc),
            alloc,
        })
    }

    /// The site.
    pub fn site(&self) -> Site
        ensures { result ≡ self.now.site }
    {
        self.site
    }

    /// How many children the site may name.
    pub fn names_limit(&self) -> u32
        ensures { result ≡ self.now.limit }
    {
        self.names_limit
    }

    /// How many children the site has named: the serials are the numbers below. The other clauses say what is true of
    /// every table.
    pub fn issued(&self) -> u32
        ensures issued { result ≡ length self.now.own }
        ensures within { length self.now.own ≤ self.now.limit }
        ensures parents { HasParents self.now }
        ensures ascending { IsAscending self.now.guests }
        ensures lawful { AllLawful self.now }
    {
        self.own.len() as u32
    }

    /// What is kept of a unit; none where it isn't there.
    pub(crate) fn work(&self, unit: Unit) -> Option<&Work>
        ensures { MatchOption result (unit_of self.now unit ≡ None) (λ work.
            IsWork self.now unit work.now) }
    {
        match unit {
            Unit::Own(serial) => {
                let child = self.own.get(serial)?;
                Some(&child.work)
            }
            Unit::Guest(name, attempt) => {
                let place = place_of(self.guests.as_slice(), name, attempt)?;
                Some(&self.guests.as_slice()[place].work)
            }
        }
    }
}

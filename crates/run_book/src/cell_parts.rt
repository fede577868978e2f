//! The ghost names of a cell have to exist before a type can be named by them, and the core is built after that. So a
//! cell is made in two steps: its parts, then, in the type that they name, the cell.

ghost use Rattle.std.specs.Prelude.{◌≡◌, []};

use crate::names::CellName;
use crate::register::Register;
use crate::seats::Seats;
use crate::ticket_rule::{Carrier, Token};
use std::alloc::{AllocError, Global};
use std::marker::Model;
use std::sync::ledger::Blank;

/// What a cell is made of before a type stands for it. Contracts see it as its names, which the caller puts into the
/// type.
#[derive(Drop)]
pub struct CellParts {
    carrier: Carrier,
    keeper: Token,
    blank: Blank,
}

impl Model for CellParts {
    ghost use Rattle.std.specs.Prelude.{◌≡◌};
    ghost use Rattle.crossbeam_queue.specs.Passes.{view as known, IsPassOf};
    ghost use Rattle.run_book.specs.Tickets.{keeper_of_none};
    ghost use Rattle.run_book.specs.Seats.{CellParts as CellPartsValue};

    ghost Value = { CellPartsValue };

    ghost view = { λ o. record { table = o.keeper.table_id; name = o.blank.name } };

    ghost invariant = { λ o. IsPassOf o.carrier o.keeper × (known o.keeper ≡ keeper_of_none)
        × (o.blank.parts ≡ 18446744073709551615) };
}

impl CellParts {
    /// A new table of receipts, and a new ledger of seats. The only error is out of memory.
    pub fn new(alloc: Global) -> Result<CellParts, AllocError> {
        // (room for one is enough: nothing is ever put in, the queue is there for its passes)
        let (carrier, keeper) = Carrier::ruled(alloc, 1)?;
        Ok(CellParts {
            carrier,
            keeper,
            blank: Blank::new(u64::MAX),
        })
    }

    /// The register and the seats of the cell that the type now names.
    pub fn open<N: CellName>(self) -> (Register<N>, Seats<N>)
        requires here { self ≡ record { table = N.table; name = N.name } }
        requires parts { N.parts ≡ 18446744073709551615 }
        ensures register { result.0 ≡ record { log = []; back = [] } }
        ensures seats { result.1 ≡ record { given = 0; total = 0 } }
    {
        let CellParts {
            carrier,
            keeper,
            blank,
        } = self;
        (Register::new(carrier, keeper), Seats::new(blank))
    }
}

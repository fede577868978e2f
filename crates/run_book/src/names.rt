//! Types that name a run and a cell. Nothing of them is there when the program runs.

use std::marker::Brand;
use std::sync::ledger::Ledger;

/// Names a run: its problem and its number of nodes. It has no calls.
pub trait Run {
    ghost use Rattle.run_book.specs.Sites.{RunName};

    ghost run: { RunName };
}

impl Run for Brand {
    ghost use Rattle.run_book.specs.Sites.{no_run};

    ghost run = { no_run };
}

/// Names one cell: its ledger of seats, its table of receipts, its site, and the limit on its names. What carries the
/// type is of this cell.
pub trait CellName: Ledger {
    ghost use Rattle.std.specs.Prelude.{ℕ};
    ghost use Rattle.atomic_table.specs.Seated.{TableId};
    ghost use Rattle.spawn_frame.specs.declared.site.Site.{Site};

    ghost table: { TableId };

    ghost site: { Site };

    ghost limit: { ℕ };
}

impl CellName for Brand {
    ghost use Rattle.node_core.specs.Requests.{registry};
    ghost use Rattle.run_book.specs.Tickets.{no_table};

    ghost table = { no_table };

    ghost site = { registry };

    ghost limit = { 0 };
}

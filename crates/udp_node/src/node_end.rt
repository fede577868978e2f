//! How a site hands back what it was lent: `run_sites` closes the cell with these seats and tokens, and gets its book.

ghost use Rattle.std.specs.Prelude.{◌≡◌, ◌+◌, ◌≤◌, sum, sum_by, vec_len, IfErr, IfOk, IfSome};
ghost use Rattle.std.specs.Vec.{vec_capacity};
ghost use Rattle.site_limits.specs.declared.end_cause.EndCause.TheVariants.{Memory};

use crate::seat_receipts::SeatReceipts;
use run_book::{CellName, ReceiptToken, Seat};
use site_limits::SiteEnd;
use std::alloc::Global;

/// How the threads of a site ended.
#[derive(Drop)]
pub struct NodeEnd<N: CellName> {
    /// Why, and what they counted.
    pub end: SiteEnd,
    /// The seats of all of them, each with the tokens of as many receipts as it counts.
    pub seats: Vec<SeatReceipts<N>>,
}

impl<N: CellName> NodeEnd<N> {
    /// There was no memory to start a thread.
    pub(crate) fn starved(alloc: Global) -> NodeEnd<N>
        ensures cause { result.end.cause ≡ Memory }
        ensures seats { vec_len result.seats ≡ 0 }
        ensures turns { result.end.turns ≡ 0 }
    {
        NodeEnd {
            end: SiteEnd::STARVED,
            seats: Vec::new(alloc),
        }
    }

    /// Returns all seats, and the tokens of all receipts.
    ///
    /// # Errors
    ///
    /// The end comes back as it was if memory runs out, or no list has room for so many.
    pub fn into_lists(
        self,
        alloc: Global,
    ) -> Result<(Vec<Seat<N>>, Vec<ReceiptToken<N>>), NodeEnd<N>>
        ensures seats { IfOk result (λ lists. vec_len lists.0 ≡ vec_len self.seats) }
        ensures counted { IfOk result (λ lists. sum lists.0.items ≡ vec_len lists.1) }
        ensures back { IfErr result (λ back. back.seats.items ≡ self.seats.items) }
    {
        let Some(many) = receipts_of(&self.seats) else {
            return Err(self);
        };
        // (both lists before anything is taken apart, so that the end can come back whole)
        let (Ok(seats), Ok(tokens)) = (
            Vec::with_capacity(alloc, self.seats.len()),
            Vec::with_capacity(alloc, many),
        ) else {
            return Err(self);
        };
        Ok(parted(self.seats, seats, tokens))
    }
}

/// How many receipts there are; none where that is no length.
fn receipts_of<N: CellName>(seats: &[SeatReceipts<N>]) -> Option<usize>
    ensures { IfSome result (λ many. many ≡ sum_by (λ receipts. receipts.seat) seats.now) }
{
    let mut many = 0usize;
    for receipts in seats {
        many = many.checked_add(receipts.count())?;
    }
    Some(many)
}

/// Puts all seats and the tokens of their receipts into these lists, which have room for them.
fn parted<N: CellName>(
    all: Vec<SeatReceipts<N>>,
    mut seats: Vec<Seat<N>>,
    mut tokens: Vec<ReceiptToken<N>>,
) -> (Vec<Seat<N>>, Vec<ReceiptToken<N>>)
    requires empty { (vec_len seats ≡ 0) × (vec_len tokens ≡ 0) }
    requires seats { vec_len all ≤ vec_capacity seats }
    requires tokens { sum_by (λ receipts. receipts.seat) all.items ≤ vec_capacity tokens }
    ensures seats { vec_len result.0 ≡ vec_len all }
    ensures counted { sum result.0.items ≡ vec_len result.1 }
{
    for receipts in all {
        let (seat, own) = receipts.into_parts();
        seats.push_reserved(seat);
        tokens = with_all(tokens, own);
    }
    (seats, tokens)
}

/// The tokens with these after them, for which there is room.
fn with_all<N: CellName>(
    mut tokens: Vec<ReceiptToken<N>>,
    own: Vec<ReceiptToken<N>>,
) -> Vec<ReceiptToken<N>>
    requires { vec_len tokens + vec_len own ≤ vec_capacity tokens }
    ensures many { vec_len result ≡ vec_len tokens + vec_len own }
    ensures capacity { vec_capacity result ≡ vec_capacity tokens }
{
    for receipt_token in own {
        tokens.push_reserved(receipt_token);
    }
    tokens
}

//! Receipts: proofs that an entry is in the book, at that place. They are tickets of a ghost protocol (`ticket_rule`);
//! at run time a token has no bytes, so a thread may keep one for each entry of a run of days.
//!
//! Of each place there is one. So whoever hands in as many receipts as the seats count has handed in all, and the book
//! has no entry that nobody knows of.

ghost use Rattle.std.specs.Prelude.{◌≡◌, [], ◌∷◌, ◌++◌, length};
ghost use Rattle.crossbeam_queue.specs.Passes.{view, IsPassOf, IsSamePass};
ghost use Rattle.run_book.specs.Tickets.{entered, keeper_of_none, receipt_of, taken_back, AreApart, IsKeeper};

use crate::entry::Entry;
use crate::names::CellName;
use crate::step::Step;
use crate::ticket_rule::{Carrier, Enter, Entered, Looks, TakeBack, Token};
use node_core::{Event, Reply};
use packet_wire::Packet;
use std::marker::{Brand, Model, PhantomData};

/// What was entered by one call, and where.
///
/// The packets are those to be sent.
#[derive(Drop)]
pub struct Receipt<N: CellName> {
    /// The number of the entries before it.
    pub place: u64,
    /// The event that was handed in.
    pub event: Event,
    /// What it came to.
    pub reply: Reply,
    /// The packets that were put out, in their order.
    pub packets: Vec<Packet>,
    /// How many bytes the entry takes in the book: little where an equal entry is there already, whose memory it
    /// shares.
    pub bytes: u64,
    token: Token,
    room: PhantomData<N>,
}

impl<N: CellName> Model for Receipt<N> {
    ghost use Rattle.std.specs.Prelude.{◌≡◌, []};
    ghost use Rattle.crossbeam_queue.specs.Passes.{view as known};
    ghost use Rattle.run_book.specs.Entries.{Placed, placed};
    ghost use Rattle.run_book.specs.Tickets.{HasReceipt};

    ghost Value = { Placed };

    ghost view = { λ r. placed r.place r.event r.reply r.packets.items };

    ghost invariant = { λ r. (r.token.table_id ≡ N.table) × (r.token.me.1 ≡ [])
        × HasReceipt (known r.token) (placed r.place r.event r.reply r.packets.items) };
}

/// What is left of a receipt once its packets were sent. Contracts see it as the receipt; it takes no memory.
#[derive(Drop)]
pub struct ReceiptToken<N: CellName> {
    token: Token,
    room: PhantomData<N>,
}

impl<N: CellName> Model for ReceiptToken<N> {
    ghost use Rattle.std.specs.Prelude.{◌≡◌, []};
    ghost use Rattle.crossbeam_queue.specs.Passes.{view as known};
    ghost use Rattle.run_book.specs.Entries.{Placed};
    ghost use Rattle.run_book.specs.Tickets.{placed_in, HasReceipt};

    ghost Value = { Placed };

    ghost view = { λ s. placed_in (known s.token) };

    ghost invariant = { λ s. (s.token.table_id ≡ N.table) × (s.token.me.1 ≡ [])
        × HasReceipt (known s.token) (placed_in (known s.token)) };
}

impl<N: CellName> Receipt<N> {
    /// Its token, and what was entered.
    pub fn into_parts(self) -> (ReceiptToken<N>, Step)
        ensures receipt_token { result.0 ≡ self }
        ensures entry { result.1 ≡ self.entry }
    {
        let Receipt {
            place: _,
            event,
            reply,
            packets,
            bytes: _,
            token,
            room,
        } = self;
        let step = Step {
            event,
            reply,
            packets,
        };
        (ReceiptToken { token, room }, step)
    }
}

/// What makes the receipts of a log's entries, and takes them back.
#[derive(Drop)]
pub struct Register<N: CellName> {
    carrier: Carrier,
    keeper: Token,
    room: PhantomData<N>,
}

impl<N: CellName> Model for Register<N> {
    ghost use Rattle.std.specs.Prelude.{◌≡◌};
    ghost use Rattle.crossbeam_queue.specs.Passes.{view as known, IsPassOf};
    ghost use Rattle.run_book.specs.Tickets.{register_view, IsKeeper, Register as RegisterValue};

    ghost Value = { RegisterValue };

    ghost view = { λ r. register_view (known r.keeper) };

    ghost invariant = { λ r. (r.keeper.table_id ≡ N.table) × IsPassOf r.carrier r.keeper
        × IsKeeper (known r.keeper) };
}

impl<N: CellName> Register<N> {
    /// The register of an empty log.
    pub fn new(carrier: Carrier, keeper: Token) -> Register<N>
        requires here { keeper.table_id ≡ N.table }
        requires carrier { IsPassOf carrier keeper }
        requires empty { view keeper ≡ keeper_of_none }
        ensures { result ≡ record { log = []; back = [] } }
    {
        Register {
            carrier,
            keeper,
            room: PhantomData,
        }
    }

    /// Enters an entry at the end of the log, which takes so many bytes, and gives its receipt, which is told the same.
    pub fn enter(&mut self, place: u64, entry: &Entry, step: Step, bytes: u64) -> Receipt<N>
        requires next { place ≡ length self.old.log }
        requires same { step ≡ entry.now }
        ensures receipt { result ≡ record { place = place; entry = entry.now } }
        ensures log { self.new.log ≡ self.old.log ++ entry.now ∷ [] }
        ensures back { self.new.back ≡ self.old.back }
    {
        // (a split of a pass has no argument for the entry, so a type names it, which this call picks)
        let token = ticket::<Brand>(&self.carrier, &mut self.keeper, entry);
        let Step {
            event,
            reply,
            packets,
        } = step;
        Receipt {
            place,
            event,
            reply,
            packets,
            bytes,
            token,
            room: PhantomData,
        }
    }

    /// Takes receipts back.
    pub fn take_back(self, receipts: Vec<Receipt<N>>) -> Register<N>
        ensures log { result.log ≡ self.log }
        ensures back { result.back ≡ self.back ++ receipts.items }
    {
        let Register {
            carrier,
            mut keeper,
            room: _,
        } = self;
        for receipt in receipts {
            let (receipt_token, _) = receipt.into_parts();
            take_in(&carrier, &mut keeper, receipt_token);
        }
        Register {
            carrier,
            keeper,
            room: PhantomData,
        }
    }

    /// Takes receipts back by their tokens.
    pub fn take_tokens(self, tokens: Vec<ReceiptToken<N>>) -> Register<N>
        ensures log { result.log ≡ self.log }
        ensures back { result.back ≡ self.back ++ tokens.items }
    {
        let Register {
            carrier,
            mut keeper,
            room: _,
        } = self;
        for receipt_token in tokens {
            take_in(&carrier, &mut keeper, receipt_token);
        }
        Register {
            carrier,
            keeper,
            room: PhantomData,
        }
    }

    /// Looks: each receipt that is back stands at its place, and no two at one.
    pub fn look(&mut self)
        ensures same { self.new ≡ self.old }
        ensures apart { AreApart self.old.log self.old.back }
    {
        self.carrier.learn_as::<Looks>(&mut self.keeper);
    }
}

/// The keeper enters the entry, and the new holder has its receipt.
fn ticket<E: Entered>(carrier: &Carrier, keeper: &mut Token, entry: &Entry) -> Token
    requires entry { entry.now ≡ E.entry }
    requires carrier { IsPassOf carrier.now keeper.old }
    requires keeper { IsKeeper (view keeper.old) }
    ensures same { IsSamePass keeper.old keeper.new }
    ensures carrier { IsPassOf carrier.now result }
    ensures keeper { view keeper.new ≡ entered (view keeper.old) entry.now }
    ensures receipt { view result ≡ receipt_of (view keeper.old) entry.now }
{
    carrier.another::<Enter<E>>(keeper)
}

/// The keeper takes a receipt back.
fn take_in<N: CellName>(carrier: &Carrier, keeper: &mut Token, receipt_token: ReceiptToken<N>)
    requires here { keeper.old.table_id ≡ N.table }
    requires carrier { IsPassOf carrier.now keeper.old }
    requires keeper { IsKeeper (view keeper.old) }
    ensures same { IsSamePass keeper.old keeper.new }
    ensures keeper { view keeper.new ≡ taken_back (view keeper.old) receipt_token }
{
    let ReceiptToken { token, room: _ } = receipt_token;
    carrier.absorb::<TakeBack>(keeper, token);
}

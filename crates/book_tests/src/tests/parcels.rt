//! An outbox that is filled and emptied.

ghost use Rattle.std.specs.Prelude.{◌≡◌, IfOk};

use run_book::{CAPACITY, Drain, Outbox, Parcel, Pass};
use std::alloc::{AllocError, Global};
use std::sync::Wait;
use std::test::*;

/// The parcel of this number.
fn parcel_of(alloc: Global, number: u64) -> Result<Parcel, AllocError> {
    let bytes = Vec::from_slice(alloc, number.to_le_bytes().as_slice())?;
    Ok(Parcel { to: 7, bytes })
}

/// Whether it is the parcel of this number.
fn is_parcel(parcel: &Parcel, number: u64) -> bool {
    parcel.to == 7 && parcel.bytes.as_slice() == number.to_le_bytes().as_slice()
}

/// Puts in the parcels from this number on, until one comes back: its number, and the pass.
fn fill<R: Wait>(
    rt: &R,
    alloc: Global,
    outbox: &Outbox,
    pass: Pass,
    first: u64,
) -> Result<(Pass, Option<u64>), AllocError>
    requires { pass.outbox ≡ outbox.now }
    ensures { IfOk result (λ after. after.0.outbox ≡ outbox.now) }
{
    let mut pass = pass;
    for number in first..2 * CAPACITY as u64 {
        match outbox.push(rt, pass, parcel_of(alloc, number)?) {
            Ok(kept) => pass = kept,
            Err((kept, back)) => {
                let same = is_parcel(&back, number);
                return Ok((kept, same.then_some(number)));
            }
        }
    }
    Ok((pass, None))
}

/// Takes parcels out while they come in order from this number on: the number after the last, and the drain.
fn empty<R: Wait>(rt: &R, outbox: &Outbox, drain: Drain, first: u64) -> (Drain, u64)
    requires { drain.outbox ≡ outbox.now }
    ensures { result.0.outbox ≡ outbox.now }
{
    let mut drain = drain;
    for number in first..2 * CAPACITY as u64 {
        let (kept, parcel) = outbox.pop(rt, drain);
        drain = kept;
        if !parcel.is_some_and(|parcel| is_parcel(&parcel, number)) {
            return (drain, number);
        }
    }
    (drain, 0)
}

#[test]
fn parcels_leave_in_order(rt: HostRuntime) -> Result<(), Fail> {
    let alloc = rt.alloc();
    let (outbox, drain) = Outbox::new(alloc)?;
    let (pass, full) = fill(&rt, alloc, &outbox, outbox.pass(), 0)?;
    let (drain, first) = outbox.pop(&rt, drain);
    let came = first.is_some_and(|parcel| is_parcel(&parcel, 0));
    let (_pass, full_again) = fill(&rt, alloc, &outbox, pass, 1024)?;
    let (_drain, next) = empty(&rt, &outbox, drain, 1);
    assert_eq!(rt;
        (full, came, full_again, next),
        (Some(1024), true, Some(1025), 1025)
    );
    Ok(())
}

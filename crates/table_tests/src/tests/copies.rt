//! Copies are equal to what was copied, and to nothing else of these tests.

use super::units::{result_of, site};
use spawn_frame::Status;
use std::fmt::Debug;
use std::process::Abort;

/// A copy of the first value is equal to it, and not to the second.
fn tells_apart<R: Abort, T: Clone + Debug + Drop + PartialEq>(rt: &R, value: &T, other: &T) {
    let copy = value.clone().expect(rt, "memory");
    assert!(rt; copy == *value, "{copy:?} {value:?}");
    assert!(rt; copy != *other, "{copy:?} {other:?}");
}

#[test]
fn results(rt: HostRuntime) {
    let seven = result_of(&rt, rt.alloc(), Some(7));
    tells_apart(&rt, &seven, &result_of(&rt, rt.alloc(), Some(8)));
    tells_apart(&rt, &seven, &result_of(&rt, rt.alloc(), None));
}

#[test]
fn statuses(rt: HostRuntime) {
    let seven = result_of(&rt, rt.alloc(), Some(7));
    let done = Status::Done(result_of(&rt, rt.alloc(), Some(7)));
    tells_apart(&rt, &done, &Status::Finished(seven));
    tells_apart(&rt, &Status::Out(site(2, 1)), &Status::Out(site(2, 2)));
}

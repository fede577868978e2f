//! Reads and writes of lists by number. A number that a list doesn't have is read as a given value, and not written.
//!
//! That the searcher's numbers are right isn't proved: nothing rests on it, since the kernel tests each clause, and
//! each cover is counted.

/// Returns the element with this number, or the given value where there is none.
#[inline(always)]
pub fn at<T: Copy>(list: &[T], number: usize, otherwise: T) -> T {
    match list.get(number) {
        Some(element) => *element,
        None => otherwise,
    }
}

/// Writes the element with this number, if there is one.
#[inline(always)]
pub fn put<T: Copy + Drop>(list: &mut [T], number: usize, element: T) {
    if let Some(place) = list.get_mut(number) {
        *place = element;
    }
}

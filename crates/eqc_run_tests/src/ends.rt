//! The ends of tests, which alone have the branches and the words of a row that doesn't hold: a
//! test that has them itself is proved at each of its branches, with all that it holds there.

use std::alloc::AllocError;
use std::fmt::{Debug, Display};
use std::process::Abort;

/// Ends the test, and names the row and its turn, where the row doesn't hold.
pub(crate) fn holds_at(
    rt: &impl Abort,
    found: Result<bool, AllocError>,
    row: impl Display + Copy,
    turn: impl Debug + Copy,
) {
    match found {
        Ok(true) => {}
        Ok(false) => panic!(rt; "{row} {turn:?}"),
        Err(_) => panic!(rt; "no memory: {row} {turn:?}"),
    }
}

/// Ends the test, and names the row, where it doesn't hold.
pub(crate) fn holds(rt: &impl Abort, found: Result<bool, AllocError>, row: impl Display + Copy) {
    holds_at(rt, found, row, ());
}

/// Ends the test, and names the row, where something else is found there.
pub(crate) fn same<T: PartialEq + Debug + Copy>(
    rt: &impl Abort,
    found: T,
    wanted: T,
    row: impl Display + Copy,
) {
    assert_eq!(rt; found, wanted, "{row}");
}

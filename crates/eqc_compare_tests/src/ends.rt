//! The ends of tests, which alone have the branches and the words of a row that doesn't hold: a
//! test that has them itself is proved at each of its branches, with all that it holds there.

use std::alloc::AllocError;
use std::fmt::Display;
use std::process::Abort;

/// Ends the test, and names the row, where it doesn't hold.
pub(crate) fn holds(rt: &impl Abort, found: Result<bool, AllocError>, row: impl Display + Copy) {
    match found {
        Ok(true) => {}
        Ok(false) => panic!(rt; "{row}"),
        Err(_) => panic!(rt; "no memory: {row}"),
    }
}

//! The ends of tests, which alone have the branches and the words of a row that doesn't hold: a
//! test that has them itself is proved at each of its branches, with all that it holds there.

use eqc_testing::{Row, first_wrong};
use std::alloc::{AllocError, Global};
use std::fmt::Display;
use std::process::Abort;

/// Ends the test, and names the row, where it doesn't hold.
pub(crate) fn holds(rt: &impl Abort, found: Result<bool, AllocError>, row: impl Display + Copy) {
    match found {
        Ok(true) => {}
        Ok(false) => panic!(rt; "{row}"),
        Err(_) => panic!(rt; "no memory: {row}"),
    }
}

/// Ends the test at the first row whose text isn't as it is wanted, and names it.
pub(crate) fn check_rows<W, F: Fn(Global, &[u8], &W) -> Result<bool, AllocError>>(
    rt: &(impl Abort + AllocGlobal),
    rows: &[Row<W>],
    is_wanted: F,
)
    requires { F.IsAlwaysCallable is_wanted }
{
    match first_wrong(rt.alloc(), rows, is_wanted) {
        Ok(None) => {}
        Ok(Some(row)) => panic!(rt; "{row}"),
        Err(_) => panic!(rt; "no memory"),
    }
}

//! What ends a test, which alone has the branches and the words of a row that doesn't hold: a test
//! that has them itself is proved at each of its branches, with all that it holds there.

use std::fmt::{Debug, Display};
use std::process::Abort;

/// Ends the test, and names the row, where something else is found there.
pub(crate) fn same<T: PartialEq + Debug + Copy>(
    rt: &impl Abort,
    found: T,
    wanted: T,
    row: impl Display + Copy,
) {
    assert_eq!(rt; found, wanted, "{row}");
}

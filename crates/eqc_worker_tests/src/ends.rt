//! What ends a test, which alone has the branches and the words of a row that doesn't hold, and of
//! memory that is refused: a test that has them itself is proved at each of its branches, with all
//! that it holds there.
ghost use Rattle.std.specs.Prelude.{◌≡◌, ◌++◌, ◌∷◌, []};

use std::fmt::{Debug, Display};
use std::process::Abort;

/// Ends the test, and names the row, where something else is found there.
pub(crate) fn same<T: PartialEq + Debug + Copy>(
    rt: &impl Abort,
    found: T,
    wanted: T,
    row: impl Display + Copy,
) {
    assert_eq!(rt; found, wanted, "{row}");
}

/// Puts a reference behind the others, or ends the test where memory is refused.
pub(crate) fn keep<T>(rt: &impl Abort, references: &mut Vec<T>, reference: T)
    ensures { references.new.items ≡ references.old.items ++ reference ∷ [] }
{
    references.reserve(1).expect(rt, "there is memory");
    references.push(reference).unwrap();
}

/// Puts references behind the others, or ends the test where memory is refused.
pub(crate) fn keep_all<T>(rt: &impl Abort, references: &mut Vec<T>, more: Vec<T>)
    ensures { references.new.items ≡ references.old.items ++ more.items }
{
    let mut more = more;
    references.reserve(more.len()).expect(rt, "there is memory");
    references.append(&mut more).unwrap();
    more.destroy_empty();
}

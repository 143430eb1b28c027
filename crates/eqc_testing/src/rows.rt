//! Rows of cases.

use crate::texts::lines;
use std::alloc::{AllocError, Global};

/// A case: its name, a text in which `;` stands for LF, and what is wanted of it.
pub type Row<W> = (&'static str, &'static str, W);

/// The name of the first row whose text isn't as it is wanted, if there is one. Fails where memory
/// is refused.
pub fn first_wrong<W, F: Fn(Global, &[u8], &W) -> Result<bool, AllocError>>(
    alloc: Global,
    rows: &[Row<W>],
    is_wanted: F,
) -> Result<Option<&'static str>, AllocError>
    requires { F.IsAlwaysCallable is_wanted }
{
    for (name, text, wanted) in rows {
        let text = lines(alloc, text)?;
        if !is_wanted(alloc, &text, wanted)? {
            return Ok(Some(name));
        }
    }
    Ok(None)
}

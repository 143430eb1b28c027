//! Names and rows as they are shown in a line.

use std::fmt;
use std::fmt::{Display, Formatter};

/// How many bytes of a name or a row are shown.
const SHOWN: usize = 60;

/// How many names of a list are shown, and how many steps at each end of a path.
pub const LISTED: usize = 10;

/// Puts a byte, as `\xNN` where it doesn't print.
fn put_byte<W: fmt::Write>(f: &mut Formatter<W>, byte: u8) -> fmt::Result {
    if (32..127).contains(&byte) {
        write!(f, "{}", char::from(byte))
    } else {
        write!(f, "\\x{byte:02x}")
    }
}

/// Bytes of a name or a row, cut to a readable length, with `\xNN` for those that don't print.
#[derive(Clone, Copy)]
pub struct Shown<'a>(pub &'a [u8]);

impl<'a> Display for Shown<'a> {
    fn fmt<W: fmt::Write>(&self, f: &mut Formatter<W>) -> fmt::Result {
        for byte in self.0.iter().take(SHOWN) {
            put_byte(f, *byte)?;
        }
        if self.0.len() > SHOWN {
            f.write_str("..")?;
        }
        Ok(())
    }
}

/// Bytes of a name, all of them, with `\xNN` for those that don't print.
#[derive(Clone, Copy)]
pub struct Whole<'a>(pub &'a [u8]);

impl<'a> Display for Whole<'a> {
    fn fmt<W: fmt::Write>(&self, f: &mut Formatter<W>) -> fmt::Result {
        for byte in self.0 {
            put_byte(f, *byte)?;
        }
        Ok(())
    }
}

//! The first byte of a text that no text may have, as it is named of a refusal: with its physical
//! line and column.
ghost use Rattle.std.specs.Prelude.{◌≡◌, ◌<◌, ◌^◌, length, true, Some};
ghost use Rattle.std.specs.List.{list_any, position};
ghost use Rattle.eqc_blif.specs.Lines.{numbered};
ghost use Rattle.eqc_blif.specs.Reading.{is_bad_byte};
ghost use Rattle.eqc_blif.specs.Finding.{IsBadByte};

use crate::finding::Finding;
use crate::reader::is_bad_byte;
use crate::text::lines::Lines;

/// Where the first byte stands that is no part of a text, if there is one.
fn first_bad_byte(line: &[u8]) -> Option<usize>
    ensures { result ≡ position is_bad_byte line.now }
{
    line.iter().position(|byte| is_bad_byte(*byte))
}

/// The first byte that is no part of a text, where there is one, with the number of its physical
/// line and its column.
pub(crate) fn bad_byte(text: &[u8]) -> (u8, u32, usize)
    requires short { length text.now < 2 ^ 31 }
    requires some { list_any (λ line. list_any is_bad_byte line.1) (numbered 1 text.now) ≡ true }
    ensures { IsBadByte text.now result.0 result.1 result.2 }
{
    let mut lines = Lines::new(text);
    'lines: loop {
        let (number, line) = lines.next_physical().unwrap();
        if let Some(position) = first_bad_byte(line) {
            return (line[position], number, position + 1);
        }
    }
}

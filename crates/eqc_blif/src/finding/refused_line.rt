//! The way back to the line that a text is refused for: all before it is read again.
ghost use Rattle.std.specs.Prelude.{◌≡◌, ◌<◌, ◌^◌, length, OnOk, Some};
ghost use Rattle.eqc_blif.specs.Lines.{logical_lines};
ghost use Rattle.eqc_blif.specs.Reading.{start, first_fault, line_code};
ghost use Rattle.eqc_blif.specs.Finding.{line_at};

use crate::reader::Reader;
use crate::text::lines::Lines;
use eqc_netlist::Refusal;
use std::alloc::{AllocError, Global};

/// Brings a new reader to what stands before the line that a text is refused for, and that line
/// into `line`. Fails where memory is refused.
pub(crate) fn go_to_line(
    alloc: Global,
    text: &[u8],
    refusal: Refusal,
    reader: &mut Reader,
    line: &mut Vec<u8>,
) -> Result<(), AllocError>
    requires short { length text.now < 2 ^ 31 }
    requires fault { first_fault start (logical_lines text.now) ≡ Some (refusal.line, refusal.code) }
    requires new { reader.old ≡ start }
    ensures there { OnOk result (line_at refusal.line start (logical_lines text.now) ≡ Some (reader.new, line.new.items)) }
    ensures faulty { OnOk result (line_code reader.new line.new.items ≡ Some refusal.code) }
{
    let mut lines = Lines::new(text);
    'lines: loop {
        let (number, whole) = lines.next_logical(line)?.unwrap();
        if let Some(bytes) = whole {
            line.clear();
            line.extend_from_slice(bytes)?;
        }
        if number == refusal.line {
            return Ok(());
        }
        let _ = reader.take_line(alloc, line)?;
    }
}

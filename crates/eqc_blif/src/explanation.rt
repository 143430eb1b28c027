//! What is at fault in a refused text, found by reading it once more up to the line of the refusal.
ghost use Rattle.std.specs.Prelude.{◌≡◌, ◌≢◌, ◌<◌, ◌^◌, ℕ, length, IfOk, Some};
ghost use Rattle.std.specs.Option.{option_map};
ghost use Rattle.eqc_blif.specs.Lines.{logical_lines};
ghost use Rattle.eqc_blif.specs.Reading.{start, first_fault};
ghost use Rattle.eqc_blif.specs.Finding.{refused, IsExplained};

use crate::finding::Finding;
use crate::finding::bad_byte::bad_byte;
use crate::finding::line_findings::line_finding;
use crate::finding::refused_line::go_to_line;
use crate::reader::Reader;
use crate::reader::kind::kind_of;
use crate::reading::read_within;
use crate::text::words::split_first;
use eqc_netlist::text_rule::Rule;
use eqc_netlist::{Key, Refusal};
use std::alloc::{AllocError, Global};

/// Why a text that may have so many bytes is refused, if it is. Fails where memory is refused.
fn refusal(alloc: Global, text: &[u8], limit: u32) -> Result<Option<Refusal>, AllocError>
    requires { limit < 2 ^ 31 }
    ensures { IfOk result (λ found. option_map (λ r. (r.line, r.code)) found ≡ refused limit text.now) }
{
    match read_within(alloc, text, limit) {
        Ok(_) => Ok(None),
        Err(refusal) => {
            if refusal.is_memory() {
                return Err(AllocError);
            }
            Ok(Some(refusal))
        }
    }
}

/// What is at fault in the line that a text is refused for, which is put into `line`, as what
/// stands before it is into `reader`. Fails where memory is refused.
fn finding_by(
    alloc: Global,
    text: &[u8],
    refusal: Refusal,
    reader: &mut Reader,
    line: &mut Vec<u8>,
) -> Result<Option<Finding>, AllocError>
    requires short { length text.now < 2 ^ 31 }
    requires fault { first_fault start (logical_lines text.now) ≡ Some (refusal.line, refusal.code) }
    requires line { refusal.code ≢ 1 }
    requires start { reader.old ≡ start }
    ensures { (limit : ℕ) → refused limit text.now ≡ Some (refusal.line, refusal.code) → IfOk result (λ found. IsExplained limit text.now found) }
{
    go_to_line(alloc, text, refusal, reader, line)?;
    let (word, _) = split_first(line);
    reader.open_before(alloc, kind_of(word))?;
    line_finding(alloc, reader, line, refusal.code)
}

/// What is at fault in the line that a text is refused for. Fails where memory is refused.
fn finding_in_line(
    alloc: Global,
    text: &[u8],
    refusal: Refusal,
) -> Result<Option<Finding>, AllocError>
    requires short { length text.now < 2 ^ 31 }
    requires fault { first_fault start (logical_lines text.now) ≡ Some (refusal.line, refusal.code) }
    requires line { refusal.code ≢ 1 }
    ensures { (limit : ℕ) → refused limit text.now ≡ Some (refusal.line, refusal.code) → IfOk result (λ found. IsExplained limit text.now found) }
{
    let mut reader = Reader::new(alloc, Key::of(text));
    let mut line = Vec::new(alloc);
    finding_by(alloc, text, refusal, &mut reader, &mut line)
}

/// What is at fault in a text that may have so many bytes and is refused. Fails where memory is
/// refused.
fn finding(
    alloc: Global,
    text: &[u8],
    limit: u32,
    refusal: Refusal,
) -> Result<Option<Finding>, AllocError>
    requires limit { limit < 2 ^ 31 }
    requires refused { refused limit text.now ≡ Some (refusal.line, refusal.code) }
    ensures { IfOk result (λ found. IsExplained limit text.now found) }
{
    let code = refusal.code;
    if code == Rule::TextTooLong.code() {
        let bytes = text.len();
        let limit = limit as usize;
        return Ok(Some(Finding::TextTooLong { bytes, limit }));
    }
    if code == Rule::NoModel.code() {
        return Ok(Some(Finding::NoStatement));
    }
    if code == Rule::ControlByte.code() {
        let (byte, line, column) = bad_byte(text);
        return Ok(Some(Finding::ControlByte { byte, line, column }));
    }
    finding_in_line(alloc, text, refusal)
}

/// What is at fault in a text that may have `limit` bytes, fewer than 2^31, for a reader of its
/// refusal: it is read once more, and then the line of the refusal is looked at against what stands
/// before it. None where the text is read, and where it is refused for a latch, of which nothing is
/// named. Fails where memory is refused.
pub fn explain(alloc: Global, text: &[u8], limit: u32) -> Result<Option<Finding>, AllocError>
    requires { limit < 2 ^ 31 }
    ensures { IfOk result (λ found. IsExplained limit text.now found) }
{
    match refusal(alloc, text, limit)? {
        Some(refusal) => finding(alloc, text, limit, refusal),
        None => Ok(None),
    }
}

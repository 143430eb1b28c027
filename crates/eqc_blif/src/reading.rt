//! The reading of a text: from its bytes to its library, or to the refusal by its first fault.
ghost use Rattle.std.specs.Prelude.{◌≡◌, ◌<◌, ◌^◌, ◌⊎◌, length, IfOk, IfErr, Ok, Err, Some, None};
ghost use Rattle.eqc_blif.specs.Lines.{logical_lines};
ghost use Rattle.eqc_blif.specs.Reading.{start, after, models, first_fault, outcome};

use crate::library::Library;
use crate::reader::Reader;
use crate::text::lines::Lines;
use eqc_netlist::text_rule::Rule;
use eqc_netlist::{Key, Refusal};
use std::alloc::Global;

/// How many bytes a text may have where no other number is given.
pub const DEFAULT_BYTES: u32 = 16_777_216;

/// Takes the lines of a text, up to the first with a fault. Else it fails where memory is refused.
fn take_lines(alloc: Global, text: &[u8], reader: &mut Reader) -> Result<(), Refusal>
    requires short { length text.now < 2 ^ 31 }
    ensures taken { IfOk result (λ _. (first_fault reader.old (logical_lines text.now) ≡ None) × (reader.new ≡ after reader.old (logical_lines text.now))) }
    ensures fault { IfErr result (λ refusal. (refusal ≡ record { line = 0; code = 72 }) ⊎ (first_fault reader.old (logical_lines text.now) ≡ Some (refusal.line, refusal.code))) }
{
    let mut lines = Lines::new(text);
    let mut joined = Vec::new(alloc);
    'lines: while let Some((number, whole)) = lines.next_logical(&mut joined)? {
        let line = match whole {
            Some(line) => line,
            None => joined.as_slice(),
        };
        if let Some(rule) = reader.take_line(alloc, line)? {
            let code = rule.code();
            return Err(Refusal { line: number, code });
        }
    }
    Ok(())
}

/// Takes all lines of a text, and closes the model that they leave open. Fails at the first fault,
/// or where memory is refused.
fn take_text(alloc: Global, text: &[u8], reader: &mut Reader) -> Result<(), Refusal>
    requires short { length text.now < 2 ^ 31 }
    ensures taken { IfOk result (λ _. (first_fault reader.old (logical_lines text.now) ≡ None) × (reader.new.closed ≡ models (after reader.old (logical_lines text.now)))) }
    ensures fault { IfErr result (λ refusal. (refusal ≡ record { line = 0; code = 72 }) ⊎ (first_fault reader.old (logical_lines text.now) ≡ Some (refusal.line, refusal.code))) }
{
    take_lines(alloc, text, reader)?;
    reader.close()?;
    Ok(())
}

/// The models of a text, of which there may be none. Fails at the first fault, or where memory is
/// refused.
fn models_in(alloc: Global, text: &[u8]) -> Result<Library, Refusal>
    requires short { length text.now < 2 ^ 31 }
    ensures models { IfOk result (λ library. (first_fault start (logical_lines text.now) ≡ None) × (library ≡ models (after start (logical_lines text.now)))) }
    ensures fault { IfErr result (λ refusal. (refusal ≡ record { line = 0; code = 72 }) ⊎ (first_fault start (logical_lines text.now) ≡ Some (refusal.line, refusal.code))) }
{
    let mut reader = Reader::new(alloc, Key::of(text));
    match take_text(alloc, text, &mut reader) {
        Ok(()) => Ok(reader.into_closed()),
        Err(refusal) => Err(refusal),
    }
}

/// Reads a netlist (BLIF 1992, in the profile of `docs/blif.md`) of at most `limit` bytes, which
/// are fewer than 2^31.
///
/// The library has the models of the text in their order. Else the refusal is the first fault: code
/// 2 on line 0 for a text of more than `limit` bytes, before all else; codes 1 and 3 to 12 on the
/// first line that has one, with the lowest of its codes; code 13 on line 0 for a text without a
/// statement. Line 0 with code 72 says that memory was refused.
pub fn read_within(alloc: Global, text: &[u8], limit: u32) -> Result<Library, Refusal>
    requires { limit < 2 ^ 31 }
    ensures library { IfOk result (λ library. outcome limit text.now ≡ Ok library) }
    ensures fault { IfErr result (λ refusal. (refusal ≡ record { line = 0; code = 72 }) ⊎ (outcome limit text.now ≡ Err (refusal.line, refusal.code))) }
{
    if text.len() > limit as usize {
        return Err(Rule::TextTooLong.without_line());
    }
    let library = models_in(alloc, text)?;
    if library.models() == 0 {
        return Err(Rule::NoModel.without_line());
    }
    Ok(library)
}

/// Reads a netlist as `read_within` does where a text may have at most 16,777,216 bytes: code 2 on
/// line 0 for more of them.
pub fn read(alloc: Global, text: &[u8]) -> Result<Library, Refusal>
    ensures library { IfOk result (λ library. outcome 16777216 text.now ≡ Ok library) }
    ensures fault { IfErr result (λ refusal. (refusal ≡ record { line = 0; code = 72 }) ⊎ (outcome 16777216 text.now ≡ Err (refusal.line, refusal.code))) }
{
    read_within(alloc, text, DEFAULT_BYTES)
}

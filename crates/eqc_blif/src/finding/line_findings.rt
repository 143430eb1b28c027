//! What is named of a line that is refused.
ghost use Rattle.std.specs.Prelude.{◌≡◌, length, is_some, IfOk, Some, true, false};
ghost use Rattle.std.specs.List.{list_all};
ghost use Rattle.eqc_blif.specs.Words.{words, first_of, behind_first, arguments, without_blanks, is_pair};
ghost use Rattle.eqc_blif.specs.Kind.{kind_of_line};
ghost use Rattle.eqc_blif.specs.Reading.{current, last_cover, is_in_cover, has_row_shape, differs_from_first, is_name_again};
ghost use Rattle.eqc_blif.specs.Finding.{code_of, finding_code, IsMisshapen, EndsOtherwise, IsNoPair, IsLineExplained, HoldsOfLine};
ghost use Rattle.eqc_blif.specs.declared.reader.kind.Kind.TheVariants.{Subckt, Row};

use crate::finding::Finding;
use crate::model::cover::row_output;
use crate::reader::Reader;
use crate::reader::kind::{Kind, kind_of};
use crate::text::words::{append_without_blanks, first_no_pair, split_first};
use eqc_netlist::Name;
use eqc_netlist::text_rule::Rule;
use smallvec::SmallVec;
use std::alloc::{AllocError, Global};

/// The first word of a line. Fails where memory is refused.
fn first_word(alloc: Global, line: &[u8]) -> Result<Name, AllocError>
    ensures { IfOk result (λ word. word ≡ first_of (words line.now)) }
{
    let (word, _) = split_first(line);
    Name::new(alloc, word)
}

/// The word behind the first. Fails where memory is refused.
fn second_word(alloc: Global, line: &[u8]) -> Result<Name, AllocError>
    ensures { IfOk result (λ word. word ≡ first_of (arguments line.now)) }
{
    let (_, rest) = split_first(line);
    first_word(alloc, rest)
}

/// The first word behind the model of `.subckt` that is no pair. Fails where memory is refused.
fn no_pair(alloc: Global, line: &[u8]) -> Result<Name, AllocError>
    requires subckt { kind_of_line line.now ≡ Subckt }
    requires some { list_all is_pair (behind_first (arguments line.now)) ≡ false }
    ensures { IfOk result (λ word. IsNoPair line.now word) }
{
    let (_, rest) = split_first(line);
    let (_, pairs) = split_first(rest);
    Name::new(alloc, first_no_pair(pairs))
}

/// A row of another shape than the columns of its cover want, and their number. Fails where memory
/// is refused.
fn row_shape(alloc: Global, reader: &Reader, line: &[u8]) -> Result<(Name, usize), AllocError>
    requires covered { is_in_cover reader.now.open_model ≡ true }
    requires row { kind_of_line line.now ≡ Row }
    requires shape { has_row_shape (length (last_cover (current reader.now).covers).columns) (without_blanks line.now) ≡ false }
    ensures { IfOk result (λ found. IsMisshapen reader.now line.now found.0 found.1) }
{
    let row = Name::new(alloc, line)?;
    let columns = reader.last_cover().columns.len();
    Ok((row, columns))
}

/// The last character of a row, and another that the first row of its cover ends in. Fails where
/// memory is refused.
fn row_ends(alloc: Global, reader: &Reader, line: &[u8]) -> Result<(u8, u8), AllocError>
    requires covered { is_in_cover reader.now.open_model ≡ true }
    requires row { kind_of_line line.now ≡ Row }
    requires differ { differs_from_first (last_cover (current reader.now).covers).rows (without_blanks line.now) ≡ true }
    ensures { IfOk result (λ found. EndsOtherwise reader.now line.now found.0 found.1) }
{
    let mut row = SmallVec::new(alloc);
    append_without_blanks(&mut row, line)?;
    let rows = reader.last_cover().rows();
    let first = rows.get(0);
    Ok((row_output(row.as_slice()), row_output(first)))
}

/// The name that stands twice with the words of `.inputs` or `.outputs`. Fails where memory is
/// refused.
fn name_twice(alloc: Global, reader: &mut Reader, line: &[u8]) -> Result<Finding, AllocError>
    requires opened { is_some reader.old.open_model ≡ true }
    requires twice { is_name_again reader.old (kind_of_line line.now) (arguments line.now) ≡ true }
    ensures { IfOk result (λ found. (finding_code found ≡ 12) × HoldsOfLine reader.old line.now found) }
{
    let (word, rest) = split_first(line);
    if kind_of(word) == Kind::Inputs {
        let name = reader.input_twice(alloc, rest)?;
        return Ok(Finding::InputTwice(name));
    }
    let name = reader.output_twice(alloc, rest)?;
    Ok(Finding::OutputTwice(name))
}

/// What is named of the line of a refusal by a code, against what was read before it, or none for a
/// latch. Fails where memory is refused.
pub(crate) fn line_finding(
    alloc: Global,
    reader: &mut Reader,
    line: &[u8],
    code: u8,
) -> Result<Option<Finding>, AllocError>
    requires { code_of reader.old line.now ≡ Some code }
    ensures { IfOk result (λ found. IsLineExplained reader.old line.now code found) }
{
    if code == Rule::UnknownCommand.code() {
        return Ok(Some(Finding::UnknownCommand(first_word(alloc, line)?)));
    }
    if code == Rule::Latch.code() {
        return Ok(None);
    }
    if code == Rule::BehindEnd.code() {
        return Ok(Some(Finding::BehindEnd(first_word(alloc, line)?)));
    }
    if code == Rule::RowOutsideCover.code() {
        return Ok(Some(Finding::RowOutsideCover(Name::new(alloc, line)?)));
    }
    if code == Rule::RowShape.code() {
        let (row, columns) = row_shape(alloc, reader, line)?;
        return Ok(Some(Finding::RowShape { row, columns }));
    }
    if code == Rule::RowOutput.code() {
        let (output, first) = row_ends(alloc, reader, line)?;
        return Ok(Some(Finding::RowOutput { output, first }));
    }
    if code == Rule::NoPair.code() {
        return Ok(Some(Finding::NoPair(no_pair(alloc, line)?)));
    }
    if code == Rule::NoWord.code() {
        return Ok(Some(Finding::NoWord(first_word(alloc, line)?)));
    }
    if code == Rule::ModelTwice.code() {
        return Ok(Some(Finding::ModelTwice(second_word(alloc, line)?)));
    }
    Ok(Some(name_twice(alloc, reader, line)?))
}

//! Covers (`.names`): their columns, output and rows, the reading of a row, and the value of the
//! output.
ghost use Rattle.std.specs.Prelude.{◌≡◌, IfOk, length, MatchOption, [], nat_lt, IsTrue};
ghost use Rattle.std.specs.List.{list_all};
ghost use Rattle.std.specs.Option.{option_map};
ghost use Rattle.eqc_netlist.specs.Cover.{cover_value};
ghost use Rattle.eqc_netlist.specs.TextRule.{rule_code};
ghost use Rattle.eqc_blif.specs.Words.{words, without_blanks, cover_of};
ghost use Rattle.eqc_blif.specs.Reading.{is_column_value, is_output_value, row_output, has_row_shape, differs_from_first};
ghost use Rattle.eqc_blif.specs.Steps.{TakesRow, code_behind};

use crate::text::words::{append_without_blanks, names_in};
use eqc_netlist::text_rule::Rule;
use eqc_netlist::{Name, Rows, cover_value};
use smallvec::SmallVec;
use std::alloc::{AllocError, Global};
use std::marker::Model;

/// A cover (`.names`): the names of its columns, the name that it drives, and its rows without
/// blanks.
#[derive(Drop)]
pub struct Cover {
    pub columns: Vec<Name>,
    pub output: Name,
    /// The rows, one behind another. Each has a byte for each column, and one for the output. Most
    /// covers have few, so that up to sixteen bytes need no allocation.
    bytes: SmallVec<u8, 16>,
}

impl Model for Cover {
    ghost use Rattle.std.specs.Prelude.{◌+◌, length};
    ghost use Rattle.eqc_blif.specs.Netlist.{CoverOf};
    ghost use Rattle.eqc_netlist.specs.Rows.{rows_in, AreWhole};

    ghost Value = { CoverOf };

    ghost view = { λ a. record { columns = a.columns.items; output = a.output; rows = rows_in (length a.columns.items + 1) a.bytes.items } };

    ghost invariant = { λ a. AreWhole (length a.columns.items + 1) a.bytes.items };
}

fn is_column_value(byte: u8) -> bool
    ensures { result ≡ is_column_value byte }
{
    (byte == b'0') | (byte == b'1') | (byte == b'-')
}

fn is_output_value(byte: u8) -> bool
    ensures { result ≡ is_output_value byte }
{
    byte == b'0' || byte == b'1'
}

/// Whether all bytes are values of columns. The loop has no exit on the way, which makes it faster
/// than one that stops at a wrong byte.
fn are_column_values(bytes: &[u8]) -> bool
    ensures { result ≡ list_all is_column_value bytes.now }
{
    let mut valid = true;
    'bytes: for byte in bytes {
        valid &= is_column_value(*byte);
    }
    valid
}

/// Whether a row has `columns` values of columns and then a value of the output.
fn has_row_shape(columns: usize, row: &[u8]) -> bool
    ensures { result ≡ has_row_shape columns row.now }
{
    let Some((output, values)) = row.split_last() else {
        return false;
    };
    if values.len() != columns || !are_column_values(values) {
        return false;
    }
    is_output_value(*output)
}

/// The last byte of a row, or 0 where there is none.
pub(crate) fn row_output(row: &[u8]) -> u8
    ensures { result ≡ row_output row.now }
{
    match row.last() {
        Some(byte) => *byte,
        None => 0,
    }
}

/// Whether a row ends otherwise than the first of the rows before it.
fn differs_from_first(rows: &Rows<'_>, row: &[u8]) -> bool
    ensures { result ≡ differs_from_first rows.now row.now }
{
    match rows.first() {
        Some(first) => row_output(row) != row_output(first),
        None => false,
    }
}

/// The rule that a row behind these rows of `columns` columns breaks, where it breaks one: that of
/// its shape, or that of its output.
fn row_rule(columns: usize, rows: &Rows<'_>, row: &[u8]) -> Option<Rule>
    ensures { option_map rule_code result ≡ code_behind columns rows.now row.now }
{
    if !has_row_shape(columns, row) {
        return Some(Rule::RowShape);
    }
    if differs_from_first(rows, row) {
        return Some(Rule::RowOutput);
    }
    None
}

impl Cover {
    /// The rows, in the order of the text and without blanks.
    pub fn rows(&self) -> Rows<'_>
        ensures { result ≡ self.now.rows }
    {
        Rows::of(self.bytes.as_slice(), self.columns.len() + 1)
    }

    /// The value of the output under these values of the columns, in their order and one for each.
    pub fn value(&self, values: &[bool]) -> bool
        ensures { result ≡ cover_value self.now.rows values.now }
    {
        cover_value(&self.rows(), values)
    }

    /// The cover that `.names` opens with the words of `line`, or `None` where there is no word.
    pub(crate) fn opened(alloc: Global, line: &[u8]) -> Result<Option<Cover>, AllocError>
        ensures { IfOk result (λ cover. MatchOption cover (words line.now ≡ []) (λ c. IsTrue (nat_lt 0 (length (words line.now))) × (c ≡ cover_of (words line.now)))) }
    {
        let mut columns = names_in(alloc, line)?;
        let Some(output) = columns.pop() else {
            return Ok(None);
        };
        Ok(Some(Cover {
            columns,
            output,
            bytes: SmallVec::new(alloc),
        }))
    }

    /// Takes a row, with its blanks, and answers the rule that it breaks where it breaks one: that
    /// of its shape, or that of its output, which is to be that of the first row.
    pub(crate) fn take_row(&mut self, line: &[u8]) -> Result<Option<Rule>, AllocError>
        ensures { IfOk result (λ rule. TakesRow self.old (without_blanks line.now) (option_map rule_code rule) self.new) }
    {
        let end = self.bytes.len();
        append_without_blanks(&mut self.bytes, line)?;
        let (before, row) = self.bytes.as_slice().split_at(end);
        let columns = self.columns.len();
        let rule = row_rule(columns, &Rows::of(before, columns + 1), row);
        if let Some(rule) = rule {
            self.bytes.truncate(end);
            return Ok(Some(rule));
        }
        Ok(None)
    }
}

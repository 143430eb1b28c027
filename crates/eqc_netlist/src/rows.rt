//! The rows of a cover, and what they mean under values of its columns.
ghost use Rattle.std.specs.Prelude.{◌≡◌, ◌<◌, ◌==◌, [], length, slice_get, slice_index_or};
ghost use Rattle.std.specs.List.{list_any};
ghost use Rattle.std.specs.Option.{option_copied};
ghost use Rattle.eqc_netlist.specs.Cover.{allows, row_matches, is_on, is_on_set, cover_value};
ghost use Rattle.eqc_netlist.specs.Rows.{rows_in, AreWhole};

use crate::key::Key;
use std::marker::Model;

/// The rows of a cover without blanks. All of them have as many bytes, which stand one behind
/// another.
#[derive(Drop)]
pub struct Rows<'a> {
    bytes: &'a [u8],
    width: usize,
}

impl<'a> Model for Rows<'a> {
    ghost use Rattle.std.specs.Prelude.{List, ℕ};
    ghost use Rattle.eqc_netlist.specs.Rows.{rows_in, AreWhole};

    ghost Value = { List (List ℕ) };

    ghost view = { λ a. rows_in a.width a.bytes.now };

    ghost invariant = { λ a. AreWhole a.width a.bytes.now };
}

impl<'a> Rows<'a> {
    /// The rows of so many bytes each that these bytes are.
    pub fn of(bytes: &'a [u8], width: usize) -> Rows<'a>
        requires { AreWhole width bytes.now }
        ensures { result ≡ rows_in width bytes.now }
    {
        Rows { bytes, width }
    }

    /// Their key, for a table of theirs alone. Nothing but its time depends on it.
    pub fn key(&self) -> Key {
        Key::of(self.bytes)
    }

    /// Their number.
    pub fn len(&self) -> usize
        ensures { result ≡ length self.now }
    {
        self.bytes.len() / self.width
    }

    /// Whether there is no row.
    pub fn is_empty(&self) -> bool
        ensures { result ≡ (length self.now == 0) }
    {
        self.len() == 0
    }

    /// The row at position `k`, which is below their number.
    pub fn get(&self, k: usize) -> &[u8]
        requires { k < length self.now }
        ensures { result.now ≡ slice_index_or self.now k [] }
    {
        let (_, rest) = self.bytes.split_at(k * self.width);
        let (row, _) = rest.split_at(self.width);
        row
    }

    /// The first row, if there is one.
    pub fn first(&self) -> Option<&[u8]>
        ensures { option_copied result ≡ slice_get self.now 0 }
    {
        if self.is_empty() {
            return None;
        }
        Some(self.get(0))
    }
}

/// Whether the byte of a column allows a value: `0` allows false, `1` allows true, and any other
/// byte, as `-`, both.
pub fn allows(byte: u8, value: bool) -> bool
    ensures { result ≡ allows byte value }
{
    match byte {
        b'0' => !value,
        b'1' => value,
        _ => true,
    }
}

/// Whether a row matches these values of its columns, in their order. Of a row and values of
/// different lengths, what the other has no partner for plays no part.
pub fn row_matches(row: &[u8], values: &[bool]) -> bool
    ensures { result ≡ row_matches row.now values.now }
{
    for (i, value) in values.iter().enumerate() {
        if i >= row.len() {
            return true;
        }
        if !allows(row[i], *value) {
            return false;
        }
    }
    true
}

/// Whether a row ends in `1`, the value of the output where it matches.
pub fn is_on(row: &[u8]) -> bool
    ensures { result ≡ is_on row.now }
{
    match row.last() {
        Some(byte) => *byte == b'1',
        None => false,
    }
}

/// Whether the rows of a cover say where it is true, by their first; else they say where it is
/// false, or there are none.
pub fn is_on_set(rows: &Rows<'_>) -> bool
    ensures { result ≡ is_on_set rows.now }
{
    match rows.first() {
        Some(row) => is_on(row),
        None => false,
    }
}

/// Whether one of these rows matches the values of its columns.
fn some_matches(rows: &Rows<'_>, values: &[bool]) -> bool
    ensures { result ≡ list_any (λ row. row_matches row values.now) rows.now }
{
    for k in 0..rows.len() {
        if row_matches(rows.get(k), values) {
            return true;
        }
    }
    false
}

/// The value of a cover with these rows under the values of its columns, in their order; false
/// where there is no row.
pub fn cover_value(rows: &Rows<'_>, values: &[bool]) -> bool
    ensures { result ≡ cover_value rows.now values.now }
{
    let Some(row) = rows.first() else {
        return false;
    };
    let some = some_matches(rows, values);
    if is_on(row) { some } else { !some }
}

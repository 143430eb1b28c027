//! Truth tables of up to six columns, each a number: bit i is the value where column j has the
//! value of bit j of i.
ghost use Rattle.std.specs.Prelude.{◌≡◌, ℕ, ◌<◌, ◌≤◌, ◌==◌, ◌||◌, Bool, true, false, length, map, slice_index_or};
ghost use Rattle.std.specs.List.{list_any};
ghost use Rattle.std.specs.Option.{IfSome, IfNone};
ghost use Rattle.eqc_netlist.specs.Cover.{allows, row_matches, cover_value};
ghost use Rattle.eqc_cover.specs.Matching.{some_match};
ghost use Rattle.eqc_cover.specs.Table.{Tabulates, IsColumn, IsCofactor, SaysOfColumn};

use eqc_netlist::{Rows, is_on_set};

/// The most columns of a table.
pub const MOST_COLUMNS: usize = 6;

/// The table of each column.
const COLUMNS: [u64; MOST_COLUMNS] = [
    0xaaaa_aaaa_aaaa_aaaa,
    0xcccc_cccc_cccc_cccc,
    0xf0f0_f0f0_f0f0_f0f0,
    0xff00_ff00_ff00_ff00,
    0xffff_0000_ffff_0000,
    0xffff_ffff_0000_0000,
];

/// The table that is true where column `j` is.
fn column_table(j: usize) -> u64
    requires { j < 6 }
    ensures { IsColumn result j }
{
    COLUMNS[j]
}

/// What is left of a table where column `j`, from 0 to 5, has this value. The column plays no part
/// in it.
pub fn cofactor(table: u64, j: usize, value: bool) -> u64
    requires { j < 6 }
    ensures { IsCofactor table j value result }
{
    let places = 1u32 << j;
    let others = !column_table(j);
    if value {
        let half = table >> places & others;
        return half | half << places;
    }
    let half = table & others;
    half | half << places
}

/// Whether a table has the same value everywhere.
pub fn is_constant(table: u64) -> bool
    ensures { result ≡ ((table == 0) || (table == 18446744073709551615)) }
{
    table == 0 || table == u64::MAX
}

/// On how many columns a table depends.
fn support(table: u64) -> u32
    ensures { result ≤ 6 }
{
    let mut count = 0;
    for j in 0..MOST_COLUMNS {
        if cofactor(table, j, true) != cofactor(table, j, false) {
            count += 1;
        }
    }
    count
}

/// How much is left to do after a split at column `j`: nothing where one operation takes the column
/// out, and more than at any other column where the table doesn't depend on it.
fn work_left(table: u64, j: usize) -> u32
    requires { j < 6 }
{
    let high = cofactor(table, j, true);
    let low = cofactor(table, j, false);
    if high == low {
        return u32::MAX;
    }
    if is_constant(high) || is_constant(low) || high == !low {
        return 0;
    }
    support(high) + support(low)
}

/// The column at which a table is best split: of so many columns, at most six, the open one that
/// leaves the least to do; none where no column is open. `open_columns` says of each column whether
/// it is open.
pub fn best_column(table: u64, columns: usize, open_columns: &[bool]) -> Option<usize>
    requires { columns ≤ 6 }
    ensures some { IfSome result (λ j. (j < columns) × (slice_index_or open_columns.now j false ≡ true)) }
    ensures none { IfNone result ((j : ℕ) → j < columns → slice_index_or open_columns.now j false ≡ false) }
{
    let mut best = None;
    let mut least = u32::MAX;
    for j in 0..columns.min(open_columns.len()) {
        if open_columns[j] {
            let left = work_left(table, j);
            if best.is_none() || left < least {
                best = Some(j);
                least = left;
            }
        }
    }
    best
}

/// The table that is true where a row's byte allows the value of column `j`.
fn byte_table(byte: u8, j: usize) -> u64
    requires { j < 6 }
    ensures { SaysOfColumn result j (allows byte) }
{
    match byte {
        b'0' => !column_table(j),
        b'1' => column_table(j),
        _ => u64::MAX,
    }
}

/// The table that is true where a row matches so many columns.
fn row_table(row: &[u8], columns: usize) -> u64
    requires { columns ≤ 6 }
    ensures { Tabulates result columns (row_matches row.now) }
{
    let mut table = u64::MAX;
    for j in 0..columns.min(row.len()) {
        table &= byte_table(row[j], j);
    }
    table
}

/// The table that is true where one of the rows matches so many columns.
fn some_row_table(rows: &Rows<'_>, columns: usize) -> u64
    requires { columns ≤ 6 }
    ensures { Tabulates result columns (λ vs. list_any (λ r. row_matches r vs) rows.now) }
{
    let mut table = 0;
    for k in 0..rows.len() {
        table |= row_table(rows.get(k), columns);
    }
    table
}

/// The table that is true where one of the rows matches so many columns.
pub(crate) fn matching_table(rows: &[&[u8]], columns: usize) -> u64
    requires { columns ≤ 6 }
    ensures { Tabulates result columns (some_match (map (λ r. r.now) rows.now)) }
{
    let mut table = 0;
    for row in rows {
        table |= row_table(row, columns);
    }
    table
}

/// The table of a cover with these rows over so many columns, at most six: the value of the cover
/// under all their values (BLIF 1992, logic gates).
pub fn cover_table(rows: &Rows<'_>, columns: usize) -> u64
    requires { columns ≤ 6 }
    ensures { Tabulates result columns (cover_value rows.now) }
{
    let matched = some_row_table(rows, columns);
    if rows.is_empty() {
        return matched;
    }
    if is_on_set(rows) {
        return matched;
    }
    !matched
}

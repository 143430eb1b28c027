//! The rows of a cover: which of them match, their cofactors, and what an expansion of them costs.
ghost use Rattle.std.specs.Prelude.{◌≡◌, ℕ, Bool, List, [], ◌∷◌, ◌++◌, true, false, length, map, take, IfOk, OnOk, option_to_list};
ghost use Rattle.std.specs.List.{list_any};
ghost use Rattle.std.specs.Option.{option_copied};
ghost use Rattle.eqc_cover.specs.Matching.{some_match, cofactor, is_literal, has_free_row, constrains_first, RowsAlike, MatchAlike};

use eqc_netlist::{Rows, allows, row_matches};
use indexmap::IndexSet;
use std::alloc::{AllocError, Global};

/// Up to so many columns a cover is expanded column by column whatever its rows.
const NARROW: usize = 8;

/// Above so many columns a cover isn't expanded, however many its rows.
const WIDEST: usize = 20;

/// So many visits to rows an expansion may take, for each place of a cover's text.
const VISITS: usize = 96;

/// Where the bound that is quickly found is at most so many for each place, they aren't counted.
const BOUND: usize = 160;

/// A row without its first column, where that allows the value.
fn without_first<'a>(row: &'a [u8], value: bool) -> Option<&'a [u8]>
    ensures { option_to_list (option_copied result) ≡ cofactor value (row.now ∷ []) }
{
    match row.split_first() {
        None => Some(row),
        Some((byte, rest)) => {
            if allows(*byte, value) {
                Some(rest)
            } else {
                None
            }
        }
    }
}

fn is_literal(byte: u8) -> bool
    ensures { result ≡ is_literal byte }
{
    byte == b'0' || byte == b'1'
}

/// Whether one of these places of a row asks for a value.
fn has_literal(places: &[u8]) -> bool
    ensures { result ≡ list_any is_literal places.now }
{
    for byte in places {
        if is_literal(*byte) {
            return true;
        }
    }
    false
}

/// Whether one of the rows has no places left, so that it matches whatever the values.
pub(crate) fn has_free_row(rows: &[&[u8]]) -> bool
    ensures { result ≡ has_free_row (map (λ r. r.now) rows.now) }
{
    for row in rows {
        if row.is_empty() {
            return true;
        }
    }
    false
}

/// Puts a row without its first column behind those that are kept, where that allows the value.
fn keep<'a>(kept: &mut Vec<&'a [u8]>, row: &'a [u8], value: bool) -> Result<(), AllocError>
    ensures { OnOk result (map (λ r. r.now) kept.new.items ≡ map (λ r. r.now) kept.old.items ++ cofactor value (row.now ∷ [])) }
{
    if let Some(rest) = without_first(row, value) {
        kept.push(rest)?;
    }
    Ok(())
}

/// Whether a row asks for a value of its first column.
fn constrains(row: &[u8]) -> bool
    ensures { result ≡ list_any is_literal (take 1 row.now) }
{
    has_literal(&row[..row.len().min(1)])
}

/// The rows under each value of their first column, without it.
#[derive(Drop)]
pub(crate) struct BothCofactors<'a> {
    /// Those that allow it to be true.
    pub(crate) when_true: Vec<&'a [u8]>,
    /// Those that allow it to be false.
    pub(crate) when_false: Vec<&'a [u8]>,
    /// Whether one of the rows asks for a value of it. Else both lists are equal.
    pub(crate) differ: bool,
}

/// Both cofactors of the rows, in one pass over them. Fails where memory is refused.
pub(crate) fn cofactors<'a>(
    alloc: Global,
    rows: &[&'a [u8]],
) -> Result<BothCofactors<'a>, AllocError>
    ensures when_true { IfOk result (λ both. map (λ r. r.now) both.when_true.items ≡ cofactor true (map (λ r. r.now) rows.now)) }
    ensures when_false { IfOk result (λ both. map (λ r. r.now) both.when_false.items ≡ cofactor false (map (λ r. r.now) rows.now)) }
    ensures differ { IfOk result (λ both. both.differ ≡ constrains_first (map (λ r. r.now) rows.now)) }
{
    let mut when_true = Vec::with_capacity(alloc, rows.len())?;
    let mut when_false = Vec::with_capacity(alloc, rows.len())?;
    let mut differ = false;
    for row in rows {
        keep(&mut when_true, row, true)?;
        keep(&mut when_false, row, false)?;
        differ = differ || constrains(row);
    }
    Ok(BothCofactors {
        when_true,
        when_false,
        differ,
    })
}

/// A row's places for so many columns, up to the last of them that asks for a value: a row that
/// asks for none is empty.
fn up_to_last_literal(row: &[u8], columns: usize) -> &[u8]
    ensures { RowsAlike columns result.now row.now }
{
    let mut places = &row[..columns.min(row.len())];
    'places: while let Some((byte, front)) = places.split_last() {
        if is_literal(*byte) {
            return places;
        }
        places = front;
    }
    places
}

/// The rows of a cover over so many columns, each up to its last literal. Fails where memory is
/// refused.
fn slices<'a>(
    alloc: Global,
    rows: &'a Rows<'_>,
    columns: usize,
) -> Result<Vec<&'a [u8]>, AllocError>
    ensures { IfOk result (λ slices. MatchAlike columns (map (λ r. r.now) slices.items) rows.now) }
{
    let mut slices = Vec::with_capacity(alloc, rows.len())?;
    for k in 0..rows.len() {
        slices.push(up_to_last_literal(rows.get(k), columns))?;
    }
    Ok(slices)
}

/// The rows of a cover over so many columns, each up to its last literal, and those that stand
/// several times once. Fails where memory is refused.
fn distinct<'a>(
    alloc: Global,
    rows: &'a Rows<'_>,
    columns: usize,
) -> Result<Vec<&'a [u8]>, AllocError>
    ensures { IfOk result (λ kept. MatchAlike columns (map (λ r. r.now) kept.items) rows.now) }
{
    let mut seen = IndexSet::with_hasher(alloc, rows.key());
    let mut kept = Vec::new(alloc);
    'rows: for k in 0..rows.len() {
        let row = up_to_last_literal(rows.get(k), columns);
        if seen.insert(row)? {
            kept.push(row)?;
        }
    }
    Ok(kept)
}

/// What is left of a budget after an expansion of the rows over so many columns, which visits each
/// row of each cofactor once, or none where the budget doesn't suffice. It is counted down to two
/// columns: a table, by which the last ones go, takes less. Fails where memory is refused.
fn left_after(
    alloc: Global,
    rows: &[&[u8]],
    columns: usize,
    budget: usize,
) -> Result<Option<usize>, AllocError> {
    let Some(left) = budget.checked_sub(rows.len()) else {
        return Ok(None);
    };
    if columns <= 2 || rows.is_empty() || has_free_row(rows) {
        return Ok(Some(left));
    }
    let both = cofactors(alloc, rows)?;
    let Some(left) = left_after(alloc, &both.when_true, columns - 1, left)? else {
        return Ok(None);
    };
    if !both.differ {
        return Ok(Some(left));
    }
    left_after(alloc, &both.when_false, columns - 1, left)
}

/// A number of visits that no expansion of the rows over so many columns exceeds: a row stands in
/// each cofactor that its dashes allow, down to those where it has no places left, or where two
/// columns are left.
fn most_visits(rows: &[&[u8]], columns: usize) -> usize {
    let mut visits: usize = 0;
    for row in rows {
        let mut cofactors: usize = 1;
        for byte in &row[..columns.saturating_sub(1).min(row.len())] {
            visits = visits.saturating_add(cofactors);
            if !is_literal(*byte) {
                cofactors = cofactors.saturating_mul(2);
            }
        }
        visits = visits.saturating_add(cofactors);
    }
    visits
}

/// Whether an expansion is thought of: where the columns are few, or where the rows have as many
/// places as there are values of the columns.
fn is_narrow(columns: usize, rows: usize) -> bool {
    columns <= NARROW || (columns <= WIDEST && rows >= 1 << (columns - NARROW))
}

/// How a cover is built.
#[derive(Drop)]
pub(crate) struct Plan<'a> {
    /// Its rows, each up to its last literal. Some that stand several times may be left out.
    pub(crate) rows: Vec<&'a [u8]>,
    /// Whether it is expanded column by column, at a price in proportion to its text.
    pub(crate) expands: bool,
}

/// How a cover of these rows over so many columns is built. Fails where memory is refused.
pub(crate) fn plan_cover<'a>(
    alloc: Global,
    rows: &'a Rows<'_>,
    columns: usize,
) -> Result<Plan<'a>, AllocError>
    ensures { IfOk result (λ plan. MatchAlike columns (map (λ r. r.now) plan.rows.items) rows.now) }
{
    let all = slices(alloc, rows, columns)?;
    if !is_narrow(columns, all.len()) {
        return Ok(Plan {
            rows: all,
            expands: false,
        });
    }
    let places = all.len().saturating_mul(columns);
    if columns <= NARROW || most_visits(&all, columns) <= places.saturating_mul(BOUND) {
        return Ok(Plan {
            rows: all,
            expands: true,
        });
    }
    let once = distinct(alloc, rows, columns)?;
    let budget = places.saturating_mul(VISITS);
    let expands = left_after(alloc, &once, columns, budget)?.is_some();
    Ok(Plan {
        rows: once,
        expands,
    })
}

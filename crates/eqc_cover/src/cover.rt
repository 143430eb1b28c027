//! The diagram of a cover over the diagrams of its columns: by its truth table, by Shannon's
//! expansion, or row by row.
ghost use Rattle.std.specs.Prelude.{◌≡◌, ◌≢◌, ℕ, ◌<◌, ◌≤◌, ◌-◌, ◌==◌, IfSome, IfNone, Bool, true, false, List, [], ◌∷◌, length, map, not, if◌then◌else◌};
ghost use Rattle.eqc_tree.specs.Holding.{IsHeld, Gains, Keeps, says};
ghost use Rattle.eqc_netlist.specs.Cover.{allows, row_matches, cover_value};
ghost use Rattle.eqc_cover.specs.Matching.{some_match, cofactor, agrees, AreHeld, said};
ghost use Rattle.eqc_cover.specs.Making.{Makes};
ghost use Rattle.eqc_cover.specs.Splits.{IsExpansionOf};

use crate::covers::{Covers, Expansion};
use crate::expansion::by_table;
use crate::making::{chosen, inverted, joined};
use crate::rows::{cofactors, has_free_row, plan_cover};
use crate::splitting::by_splits;
use crate::table::{MOST_COLUMNS, cover_table, matching_table};
use eqc_netlist::{Rows, is_on_set};
use eqc_tree::{Diagrams, Op, References, Stop};
use std::alloc::Global;

/// The diagram that is true where whether one of the rows matches the columns is `on`. It goes by
/// Shannon's expansion over the columns, of which there are few, and by a table where a table has
/// room for those that are left.
fn by_columns<R, D: Diagrams<R>>(
    alloc: Global,
    rt: &R,
    d: &mut D,
    columns: &[&D::Ref],
    rows: &[&[u8]],
    on: bool,
) -> Result<D::Ref, Stop>
    requires { AreHeld D.entry (D.holding d.old) columns.now }
    ensures { Makes D.entry (D.holding d.old) (D.holding d.new) result (λ a. agrees on (some_match (map (λ r. r.now) rows.now) (said D.entry columns.now a))) }
{
    if rows.is_empty() {
        return d.constant(!on);
    }
    let Some((column, others)) = columns.split_first() else {
        return d.constant(on);
    };
    if has_free_row(rows) {
        return d.constant(on);
    }
    if columns.len() <= MOST_COLUMNS {
        let matched = matching_table(rows, columns.len());
        let table = if on { matched } else { !matched };
        return by_table(rt, d, columns, table, [true; MOST_COLUMNS]);
    }
    let both = cofactors(alloc, rows)?;
    if !both.differ {
        return by_columns(alloc, rt, d, others, &both.when_true, on);
    }
    let high = by_columns(alloc, rt, d, others, &both.when_true, on)?;
    let low = by_columns(alloc, rt, d, others, &both.when_false, on);
    chosen(rt, d, column, high, low)
}

/// The diagram that is true where the column has a value that a row's byte allows.
fn by_byte<R, D: Diagrams<R>>(rt: &R, d: &mut D, column: &D::Ref, byte: u8) -> Result<D::Ref, Stop>
    requires { IsHeld (D.holding d.old) (D.entry column.now) }
    ensures { Makes D.entry (D.holding d.old) (D.holding d.new) result (λ a. allows byte (says (D.entry column.now) a)) }
{
    match byte {
        b'0' => {
            let f = d.copy(column);
            inverted(rt, d, f)
        }
        b'1' => d.copy(column),
        _ => d.constant(true),
    }
}

/// The diagram that is true where the row matches the columns: the conjunction of its two halves,
/// so that the order of the columns doesn't matter.
fn by_row<R, D: Diagrams<R>>(
    rt: &R,
    d: &mut D,
    columns: &[&D::Ref],
    row: &[u8],
) -> Result<D::Ref, Stop>
    requires { AreHeld D.entry (D.holding d.old) columns.now }
    ensures { Makes D.entry (D.holding d.old) (D.holding d.new) result (λ a. row_matches row.now (said D.entry columns.now a)) }
{
    if row.is_empty() {
        return d.constant(true);
    }
    match columns {
        [] => return d.constant(true),
        [column] => return by_byte(rt, d, column, row[0]),
        _ => {}
    }
    let middle = columns.len() / 2;
    let (left, right) = columns.split_at(middle);
    if row.len() <= middle {
        return by_row(rt, d, left, row);
    }
    let (left_row, right_row) = row.split_at(middle);
    let front = by_row(rt, d, left, left_row)?;
    let back = by_row(rt, d, right, right_row);
    joined(rt, d, Op::And, front, back)
}

/// The diagram that is true where one of the rows matches the columns: the disjunction of their two
/// halves.
fn by_rows<R, D: Diagrams<R>>(
    rt: &R,
    d: &mut D,
    columns: &[&D::Ref],
    rows: &[&[u8]],
) -> Result<D::Ref, Stop>
    requires { AreHeld D.entry (D.holding d.old) columns.now }
    ensures { Makes D.entry (D.holding d.old) (D.holding d.new) result (λ a. some_match (map (λ r. r.now) rows.now) (said D.entry columns.now a)) }
{
    match rows {
        [] => return d.constant(false),
        [row] => return by_row(rt, d, columns, row),
        _ => {}
    }
    let (some, others) = rows.split_at(rows.len() / 2);
    let front = by_rows(rt, d, columns, some)?;
    let back = by_rows(rt, d, columns, others);
    joined(rt, d, Op::Or, front, back)
}

/// The diagram of a cover that has rows and more than six columns, by its rows.
fn by_all_rows<R, D: Diagrams<R>>(
    alloc: Global,
    rt: &R,
    d: &mut D,
    columns: &[&D::Ref],
    rows: &Rows<'_>,
) -> Result<D::Ref, Stop>
    requires held { AreHeld D.entry (D.holding d.old) columns.now }
    requires some { (length rows.now == 0) ≡ false }
    ensures { Makes D.entry (D.holding d.old) (D.holding d.new) result (λ a. cover_value rows.now (said D.entry columns.now a)) }
{
    let on = is_on_set(rows);
    let plan = plan_cover(alloc, rows, columns.len())?;
    if plan.expands {
        return by_columns(alloc, rt, d, columns, &plan.rows, on);
    }
    let matched = by_rows(rt, d, columns, &plan.rows);
    if on {
        return matched;
    }
    inverted(rt, d, matched)
}

/// The diagram of a cover that has more than six columns, where its splits are known or kept and
/// there is room for all of them at once.
fn by_kept<R, D: Diagrams<R>>(
    alloc: Global,
    rt: &R,
    d: &mut D,
    covers: &mut Covers,
    known: Option<&Expansion>,
    columns: &[&D::Ref],
    rows: &Rows<'_>,
) -> Option<D::Ref>
    requires held { AreHeld D.entry (D.holding d.old) columns.now }
    requires wide { 6 ≤ length columns.now }
    requires known { IfSome known (λ expansion. IsExpansionOf rows.now (length columns.now) expansion.now) }
    ensures made { IfSome result (λ r. Gains (D.holding d.old) (D.holding d.new) (D.entry r) (λ a. cover_value rows.now (said D.entry columns.now a))) }
    ensures none { IfNone result (Keeps (D.holding d.old) (D.holding d.new)) }
{
    let expansion = match known {
        Some(expansion) => expansion,
        None => covers.splits_of(alloc, rows, columns.len())?,
    };
    match by_splits(alloc, rt, d, columns, &expansion.splits, expansion.place) {
        Ok(made) => Some(made),
        Err(_) => None,
    }
}

/// The diagram of a cover (BLIF 1992, logic gates): the value of its rows where the columns have
/// these functions.
///
/// `columns` are references of `d`, one for each column, and `rows` are those of the cover. Where
/// the cover's value is `known` as splits, or `covers` has met it before, its rows needn't be gone
/// through again. The errors are those of the diagrams, and `Memory` where memory is refused. All
/// other references are given back, whatever the answer.
pub fn cover_diagram<R, D: Diagrams<R>>(
    alloc: Global,
    rt: &R,
    d: &mut D,
    covers: &mut Covers,
    known: Option<&Expansion>,
    columns: &[&D::Ref],
    rows: &Rows<'_>,
) -> Result<D::Ref, Stop>
    requires held { AreHeld D.entry (D.holding d.old) columns.now }
    requires known { IfSome known (λ expansion. IsExpansionOf rows.now (length columns.now) expansion.now) }
    ensures { Makes D.entry (D.holding d.old) (D.holding d.new) result (λ a. cover_value rows.now (said D.entry columns.now a)) }
{
    if columns.len() <= MOST_COLUMNS {
        let table = cover_table(rows, columns.len());
        return by_table(rt, d, columns, table, [true; MOST_COLUMNS]);
    }
    if rows.is_empty() {
        return d.constant(false);
    }
    if let Some(made) = by_kept(alloc, rt, d, covers, known, columns, rows) {
        return Ok(made);
    }
    by_all_rows(alloc, rt, d, columns, rows)
}

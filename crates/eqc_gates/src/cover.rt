//! The literal of a cover, by its truth table or by its rows.
ghost use Rattle.std.specs.Prelude.{◌≡◌, ℕ, Bool, not, length, map, IfOk};
ghost use Rattle.std.specs.List.{list_any};
ghost use Rattle.eqc_netlist.specs.Cover.{row_matches, cover_value};
ghost use Rattle.eqc_xag.specs.Graph.{literal_value, Extends};
ghost use Rattle.eqc_sweep.specs.Sweeping.{HasValue};
ghost use Rattle.eqc_gates.specs.Literals.{AreWithin, AreAskedFor};

use crate::expansion::table_literal;
use crate::gate::all_of;
use eqc_cover::table::{MOST_COLUMNS, cover_table};
use eqc_netlist::{Rows, is_on_set};
use eqc_sweep::Sweep;
use eqc_xag::{Literal, negated};
use std::alloc::{AllocError, Global};

/// The literals of the columns that have to be true where a row matches: a column or its
/// complement. Fails where memory is refused.
fn asked_for(alloc: Global, columns: &[Literal], row: &[u8]) -> Result<Vec<Literal>, AllocError>
    ensures { IfOk result (λ asked. AreAskedFor columns.now row.now asked.items) }
{
    let mut asked = Vec::new(alloc);
    for j in 0..columns.len().min(row.len()) {
        match row[j] {
            b'0' => asked.push(negated(columns[j]))?,
            b'1' => asked.push(columns[j])?,
            _ => {}
        }
    }
    Ok(asked)
}

/// The literal that is true where a row matches. Fails where memory is refused.
fn row_literal(
    alloc: Global,
    sweep: &mut Sweep,
    columns: &[Literal],
    row: &[u8],
) -> Result<u32, AllocError>
    requires { AreWithin sweep.old columns.now }
    ensures value { IfOk result (λ l. HasValue sweep.new l (λ a. row_matches row.now (map (literal_value sweep.old a) columns.now))) }
    ensures extends { Extends sweep.old sweep.new }
{
    let asked = asked_for(alloc, columns, row)?;
    all_of(sweep, asked)
}

/// The literal that is true where no row matches. Fails where memory is refused.
fn no_row_literal(
    alloc: Global,
    sweep: &mut Sweep,
    columns: &[Literal],
    rows: &Rows<'_>,
) -> Result<u32, AllocError>
    requires { AreWithin sweep.old columns.now }
    ensures value { IfOk result (λ l. HasValue sweep.new l (λ a. not (list_any (λ r. row_matches r (map (literal_value sweep.old a) columns.now)) rows.now))) }
    ensures extends { Extends sweep.old sweep.new }
{
    let mut none = Vec::new(alloc);
    for k in 0..rows.len() {
        let row = row_literal(alloc, sweep, columns, rows.get(k))?;
        none.push(negated(row))?;
    }
    all_of(sweep, none)
}

/// The literal of a cover with these rows (BLIF 1992, logic gates), whose columns have these
/// literals. What is made takes time and nodes in proportion to the cover's text. Fails where
/// memory is refused, or nodes are too many.
pub fn cover_literal(
    alloc: Global,
    sweep: &mut Sweep,
    columns: &[Literal],
    rows: &Rows<'_>,
) -> Result<u32, AllocError>
    requires { AreWithin sweep.old columns.now }
    ensures value { IfOk result (λ l. HasValue sweep.new l (λ a. cover_value rows.now (map (literal_value sweep.old a) columns.now))) }
    ensures extends { Extends sweep.old sweep.new }
{
    if columns.len() <= MOST_COLUMNS {
        let table = cover_table(rows, columns.len());
        return table_literal(sweep, columns, table, [true; MOST_COLUMNS]);
    }
    if rows.is_empty() {
        return Ok(sweep.constant(false));
    }
    let unmatched = no_row_literal(alloc, sweep, columns, rows)?;
    if is_on_set(rows) {
        return Ok(negated(unmatched));
    }
    Ok(unmatched)
}

//! The literal of a truth table: gates by its cofactors where there are any, else Shannon's
//! expansion.
ghost use Rattle.std.specs.Prelude.{ℕ, ◌≤◌, Bool, length, map, IfOk};
ghost use Rattle.eqc_xag.specs.Graph.{literal_value, Extends};
ghost use Rattle.eqc_cover.specs.Table.{table_value, DependsOnOpen};
ghost use Rattle.eqc_sweep.specs.Sweeping.{HasValue};
ghost use Rattle.eqc_gates.specs.Literals.{AreWithin};

use crate::gate::multiplexer;
use eqc_cover::table::{MOST_COLUMNS, best_column, cofactor, is_constant};
use eqc_sweep::Sweep;
use eqc_xag::Literal;
use std::alloc::AllocError;

/// The literal of a table that depends on no other columns than those that are open. `columns` are
/// their literals, at most six. A column is closed at each call, so that calls are at most six
/// deep. Fails where memory is refused.
pub(crate) fn table_literal(
    sweep: &mut Sweep,
    columns: &[Literal],
    table: u64,
    open_columns: [bool; MOST_COLUMNS],
) -> Result<u32, AllocError>
    requires few { length columns.now ≤ 6 }
    requires within { AreWithin sweep.old columns.now }
    requires depends { DependsOnOpen table (length columns.now) open_columns }
    ensures value { IfOk result (λ l. HasValue sweep.new l (λ a. table_value table (map (literal_value sweep.old a) columns.now))) }
    ensures extends { Extends sweep.old sweep.new }
{
    if is_constant(table) {
        return Ok(sweep.constant(table != 0));
    }
    let Some(j) = best_column(table, columns.len(), &open_columns) else {
        return Ok(sweep.constant(table % 2 == 1));
    };
    let mut rest = open_columns;
    rest[j] = false;
    let high = cofactor(table, j, true);
    let low = cofactor(table, j, false);
    let when_false = table_literal(sweep, columns, low, rest)?;
    if high == !low {
        return sweep.xor(columns[j], when_false);
    }
    let when_true = table_literal(sweep, columns, high, rest)?;
    multiplexer(sweep, columns[j], when_true, when_false)
}

//! The diagram of a truth table over the diagrams of its columns: the table is split at one column
//! after the other.
ghost use Rattle.std.specs.Prelude.{◌≡◌, ℕ, ◌≤◌, Bool, length};
ghost use Rattle.eqc_tree.specs.Holding.{IsHeld, says};
ghost use Rattle.eqc_cover.specs.Matching.{AreHeld, said};
ghost use Rattle.eqc_cover.specs.Making.{Makes, OwnsMade, Turns};
ghost use Rattle.eqc_cover.specs.Table.{table_value, DependsOnOpen};
ghost use Rattle.eqc_cover.specs.Splitting.{gate_value};

use crate::making::joined;
use crate::split::{Gate, split, where_true};
use crate::table::{MOST_COLUMNS, best_column, cofactor, is_constant};
use eqc_tree::{Diagrams, Op, References, Stop};

/// What a gate makes of a column and of a function that was made, whose reference is given back.
fn turned<R, D: Diagrams<R>>(
    rt: &R,
    d: &mut D,
    column: &D::Ref,
    gate: Gate,
    f: Result<D::Ref, Stop>,
) -> Result<D::Ref, Stop>
    requires column { IsHeld (D.holding d.old) (D.entry column.now) }
    requires owned { OwnsMade D.entry (D.holding d.old) f }
    ensures { Turns D.entry (D.holding d.old) (D.holding d.new) f result (λ a v. gate_value gate (says (D.entry column.now) a) v) }
{
    let f = f?;
    let made = match gate {
        Gate::Function => return Ok(f),
        Gate::Column => d.copy(column),
        Gate::Both => d.apply(rt, Op::And, column, &f),
        Gate::OnlyColumn => d.apply(rt, Op::AndNot, column, &f),
        Gate::OnlyFunction => d.apply(rt, Op::AndNot, &f, column),
    };
    d.give_back(f);
    made
}

/// The diagram of a truth table, as `cover_table` gives it, that depends on no other columns than
/// those that are open.
///
/// `columns` are references of `d`, at most six, and `open_columns` says of each whether it is
/// open. A column is closed at each call, so that calls are at most seven deep. The errors are
/// those of the diagrams, `NodeLimit`, `Memory` and `References`. All other references are given
/// back, whatever the answer.
pub fn by_table<R, D: Diagrams<R>>(
    rt: &R,
    d: &mut D,
    columns: &[&D::Ref],
    table: u64,
    open_columns: [bool; MOST_COLUMNS],
) -> Result<D::Ref, Stop>
    requires few { length columns.now ≤ 6 }
    requires held { AreHeld D.entry (D.holding d.old) columns.now }
    requires depends { DependsOnOpen table (length columns.now) open_columns }
    ensures { Makes D.entry (D.holding d.old) (D.holding d.new) result (λ a. table_value table (said D.entry columns.now a)) }
{
    if is_constant(table) {
        return d.constant(table != 0);
    }
    let Some(j) = best_column(table, columns.len(), &open_columns) else {
        return d.constant(table % 2 == 1);
    };
    let mut rest = open_columns;
    rest[j] = false;
    let column = columns[j];
    let high = cofactor(table, j, true);
    let low = cofactor(table, j, false);
    if low == 0 {
        let part = where_true(high);
        let f = by_table(rt, d, columns, part.table, rest);
        return turned(rt, d, column, part.gate, f);
    }
    let parts = split(high, low);
    let f = by_table(rt, d, columns, low, rest);
    let front = turned(rt, d, column, parts.front.gate, f)?;
    let g = by_table(rt, d, columns, parts.back.table, rest);
    let back = turned(rt, d, column, parts.back.gate, g);
    joined(rt, d, parts.op, front, back)
}

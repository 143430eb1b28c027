//! How a truth table is split at one of its columns, so that few operations join what is left of it
//! where the column is true and where it is false.
ghost use Rattle.std.specs.Prelude.{◌≡◌, ℕ, ◌≤◌, ◌&&◌, Bool, true, List, length, if◌then◌else◌};
ghost use Rattle.eqc_cover.specs.Table.{table_value, DependsOnOpen};
ghost use Rattle.eqc_cover.specs.Splitting.{part_value, parts_value, StaysOpen};

use eqc_tree::Op;

/// What is made of a column and of a function.
#[derive(Clone, Copy, Drop)]
pub(crate) enum Gate {
    /// The function alone.
    Function,
    /// The column alone.
    Column,
    /// Both.
    Both,
    /// The column and not the function.
    OnlyColumn,
    /// The function and not the column.
    OnlyFunction,
}

/// What is made of a column and of the function of a table.
#[derive(Clone, Copy, Drop)]
pub(crate) struct Part {
    pub(crate) gate: Gate,
    pub(crate) table: u64,
}

/// A table in two parts, which an operation joins.
#[derive(Clone, Copy, Drop)]
pub(crate) struct Parts {
    pub(crate) front: Part,
    pub(crate) op: Op,
    pub(crate) back: Part,
}

/// Whether the one table is true wherever the other is.
fn implies(table: u64, other: u64) -> bool
    ensures { result ≡ true → (vs : List Bool) → length vs ≤ 6 → table_value table vs ≡ true → table_value other vs ≡ true }
{
    table & !other == 0
}

/// The part that says what a table does where the column is true, and nothing elsewhere. Its own
/// table is false where all columns are, so that a complement is made of a column at most.
pub(crate) fn where_true(table: u64) -> Part
    ensures value { (x : Bool) → (vs : List Bool) → length vs ≤ 6 → part_value result x vs ≡ (x && table_value table vs) }
    ensures open { StaysOpen table table result.table }
{
    if table == u64::MAX {
        return Part {
            gate: Gate::Column,
            table: 0,
        };
    }
    if table % 2 == 0 {
        return Part {
            gate: Gate::Both,
            table,
        };
    }
    Part {
        gate: Gate::OnlyColumn,
        table: !table,
    }
}

/// A table that is `high` where the column is true, and `low` where it is false, in two parts of
/// which the first is made of `low`: joined by an exclusive or where the two are opposite, and by
/// an or or an and where one implies the other.
pub(crate) fn split(high: u64, low: u64) -> Parts
    ensures value { (x : Bool) → (vs : List Bool) → length vs ≤ 6 → parts_value result x vs ≡ (if x then table_value high vs else table_value low vs) }
    ensures front { result.front.table ≡ low }
    ensures back { StaysOpen high low result.back.table }
{
    let (gate, op, rest) = if high == !low {
        (Gate::Function, Op::Xor, u64::MAX)
    } else if implies(low, high) {
        (Gate::Function, Op::Or, high)
    } else if implies(high, low) {
        (Gate::Function, Op::AndNot, !high)
    } else {
        (Gate::OnlyFunction, Op::Or, high)
    };
    Parts {
        front: Part { gate, table: low },
        op,
        back: where_true(rest),
    }
}

//! The class of each signal of one netlist, by its driver and by the classes of the signals that
//! this depends on.
ghost use Rattle.std.specs.Prelude.{◌≡◌, ℕ, ◌<◌, false, true, [], IfOk, OnOk, length, map, slice_index, slice_index_or, slice_get};
ghost use Rattle.eqc_netlist.specs.Graph.{driver_at, dependencies};
ghost use Rattle.eqc_strash.specs.Structure.{constant, passes_on, repeats, cover_structure, driver_structure};
ghost use Rattle.eqc_strash.specs.Tables.{Grows, Stands, structures_in};
ghost use Rattle.eqc_strash.specs.Numbering.{AreRowClasses, AreNumbers, said_by};

use crate::class_table::ClassTable;
use crate::columns::Columns;
use crate::shape::Shape;
use eqc_netlist::{Driver, Flat, Rows, Signals, is_on_set};
use std::alloc::{AllocError, Global};

/// Whether a row says of one column what it is.
fn repeats(row: &[u8]) -> bool
    ensures { result ≡ repeats row.now }
{
    row == b"11".as_slice() || row == b"00".as_slice()
}

/// Whether a cover with these rows and so many columns only passes its one column on.
fn passes_on(rows: &Rows<'_>, columns: usize) -> bool
    ensures { result ≡ passes_on rows.now columns }
{
    columns == 1 && rows.len() == 1 && repeats(rows.get(0))
}

/// The class of a cover with these rows, which stand at place `r`, over signals whose classes have
/// these numbers. Fails where memory is refused.
fn cover_class(
    alloc: Global,
    table: &mut ClassTable<'_, '_>,
    numbers: &[u32],
    rows: &Rows<'_>,
    r: u32,
    columns: &Signals<'_>,
) -> Result<u32, AllocError>
    requires rows { Stands [] table.old.0 r rows.now }
    requires columns { (k : ℕ) → k < length columns.now → slice_index columns.now k < length numbers.now }
    requires known { (k : ℕ) → k < length columns.now → slice_index numbers.now (slice_index columns.now k) < length (structures_in table.old) }
    ensures rows { OnOk result (table.new.0 ≡ table.old.0) }
    ensures kept { OnOk result (Grows (constant false) (structures_in table.old) (structures_in table.new) 1) }
    ensures class { IfOk result (λ class. Stands (constant false) (structures_in table.new) class (cover_structure rows.now (map (said_by (structures_in table.old) numbers.now) columns.now))) }
{
    if rows.is_empty() || columns.len() == 0 {
        return table.class(Shape::Constant(is_on_set(rows)));
    }
    if passes_on(rows, columns.len()) {
        return Ok(numbers[columns.get(0) as usize]);
    }
    let columns = Columns::of(alloc, numbers, columns)?;
    table.class(Shape::Gate { rows: r, columns })
}

/// The class of a signal, where the signals that it depends on have theirs. Fails where memory is
/// refused.
fn signal_class(
    alloc: Global,
    table: &mut ClassTable<'_, '_>,
    flat: &Flat<'_>,
    variables: &[u16],
    row_places: &[u32],
    numbers: &[u32],
    s: u32,
) -> Result<u32, AllocError>
    requires within { s < length flat.now.drivers }
    requires variables { length variables.now ≡ length flat.now.inputs }
    requires rows { AreRowClasses flat.now table.old.0 row_places.now }
    requires numbers { length numbers.now ≡ length flat.now.drivers }
    requires known { (k : ℕ) → k < length (dependencies (driver_at flat.now s)) → slice_index numbers.now (slice_index (dependencies (driver_at flat.now s)) k) < length (structures_in table.old) }
    ensures rows { OnOk result (table.new.0 ≡ table.old.0) }
    ensures kept { OnOk result (Grows (constant false) (structures_in table.old) (structures_in table.new) 1) }
    ensures class { IfOk result (λ class. Stands (constant false) (structures_in table.new) class (driver_structure flat.now.rows variables.now (said_by (structures_in table.old) numbers.now) (driver_at flat.now s))) }
{
    // A netlist's laws are known only where a call states them.
    let _steps = flat.steps();
    match flat.driver(s) {
        Driver::Input(position) => table.class(Shape::Variable(variables[position as usize])),
        Driver::Tie(other) => Ok(numbers[other as usize]),
        Driver::Cover { columns, rows } => cover_class(
            alloc,
            table,
            numbers,
            flat.rows(rows),
            row_places[rows as usize],
            &columns,
        ),
    }
}

/// The class of each signal of a netlist, whose inputs have these variables and whose rows these
/// places among those of the table. Fails where memory is refused.
pub(crate) fn numbers_of(
    alloc: Global,
    table: &mut ClassTable<'_, '_>,
    flat: &Flat<'_>,
    variables: &[u16],
    row_places: &[u32],
) -> Result<Vec<u32>, AllocError>
    requires variables { length variables.now ≡ length flat.now.inputs }
    requires rows { AreRowClasses flat.now table.old.0 row_places.now }
    ensures rows { OnOk result (table.new.0 ≡ table.old.0) }
    ensures kept { OnOk result (Grows (constant false) (structures_in table.old) (structures_in table.new) (length flat.now.drivers)) }
    ensures numbers { IfOk result (λ numbers. AreNumbers flat.now variables.now (structures_in table.new) numbers.items) }
{
    let steps = flat.steps();
    let mut numbers = vec![in alloc; 0u32; steps.len()]?;
    for k in 0..steps.len() {
        let s = steps[k];
        let class = signal_class(alloc, table, flat, variables, row_places, &numbers, s)?;
        numbers[s as usize] = class;
    }
    Ok(numbers)
}

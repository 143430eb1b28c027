//! The classes of the signals of two netlists, which are numbered one after the other over one
//! table.
ghost use Rattle.std.specs.Prelude.{◌≡◌, IfOk, length};
ghost use Rattle.eqc_netlist.specs.Graph.{IsFlat, FollowsDrivers};
ghost use Rattle.eqc_strash.specs.Classes.{AreClasses, HaveOneValueEach};
ghost use Rattle.eqc_strash.specs.Numbering.{AreRowClasses};

use crate::class_table::ClassTable;
use crate::numbering::numbers_of;
use crate::row_set::RowSet;
use eqc_netlist::{Flat, Key};
use std::alloc::{AllocError, Global};
use std::marker::Model;

/// The class of each signal of two netlists, by its number, counted from 0.
#[derive(Drop)]
pub struct SignalClasses {
    first: Vec<u32>,
    second: Vec<u32>,
    count: usize,
}

impl Model for SignalClasses {
    ghost use Rattle.eqc_strash.specs.Classes.{ClassesOf};

    ghost Value = { ClassesOf };

    ghost view = { λ a. record { first = a.first.items; second = a.second.items; count = a.count } };
}

impl SignalClasses {
    /// The class of each signal of the first netlist.
    pub fn first(&self) -> &[u32]
        ensures { result.now ≡ self.now.first }
    {
        self.first.as_slice()
    }

    /// The class of each signal of the second netlist.
    pub fn second(&self) -> &[u32]
        ensures { result.now ≡ self.now.second }
    {
        self.second.as_slice()
    }

    /// The number of classes.
    pub fn count(&self) -> usize
        ensures { result ≡ self.now.count }
    {
        self.count
    }
}

/// What holds of every flat netlist, for a proof of its caller: it does nothing. A netlist's laws
/// are known only where a call states them.
fn recall_laws(flat: &Flat<'_>)
    ensures lawful { IsFlat flat.now }
    ensures follows { FollowsDrivers flat.now }
{
    let _steps = flat.steps();
}

/// The key of what two netlists are told by: that of both texts.
fn key_of(first: &Flat<'_>, second: &Flat<'_>) -> Key {
    first.key().with(second.key())
}

/// The classes of the signals of two netlists whose rows have these places among others. Fails
/// where memory is refused.
#[allow(clippy::too_many_arguments)]
fn classes_over(
    alloc: Global,
    rows: &RowSet<'_>,
    first: &Flat<'_>,
    variables: &[u16],
    first_rows: &[u32],
    second: &Flat<'_>,
    others: &[u16],
    second_rows: &[u32],
) -> Result<SignalClasses, AllocError>
    requires variables { length variables.now ≡ length first.now.inputs }
    requires others { length others.now ≡ length second.now.inputs }
    requires first_rows { AreRowClasses first.now rows.now first_rows.now }
    requires second_rows { AreRowClasses second.now rows.now second_rows.now }
    ensures { IfOk result (λ c. AreClasses first.now second.now variables.now others.now c) }
{
    let mut table = ClassTable::new(alloc, key_of(first, second), rows, first.steps().len())?;
    let first = numbers_of(alloc, &mut table, first, variables, first_rows)?;
    let second = numbers_of(alloc, &mut table, second, others, second_rows)?;
    let count = table.len();
    Ok(SignalClasses {
        first,
        second,
        count,
    })
}

/// The classes of the signals of two netlists: signals that are driven alike, down to the inputs,
/// are one class, also signals of both. `variables` has the variable of each input of the first
/// netlist, `others` of the second, in their orders; inputs with one variable are one class. Time
/// is expected to be in proportion to the netlists' drivers and their rows, memory to their signals
/// and rows and to the columns of covers that are of no earlier class. Fails where memory is
/// refused, and where these columns are more than 16,777,216, which happens in hierarchies alone:
/// then nothing is known of the signals, and each may be taken for a class of its own.
pub fn classes<'a>(
    alloc: Global,
    first: &'a Flat<'a>,
    variables: &[u16],
    second: &'a Flat<'a>,
    others: &[u16],
) -> Result<SignalClasses, AllocError>
    requires variables { length variables.now ≡ length first.now.inputs }
    requires others { length others.now ≡ length second.now.inputs }
    ensures classes { IfOk result (λ c. AreClasses first.now second.now variables.now others.now c) }
    ensures values { IfOk result (λ c. HaveOneValueEach first.now second.now variables.now others.now c) }
{
    recall_laws(first);
    recall_laws(second);
    let mut rows = RowSet::new(alloc, key_of(first, second));
    let first_rows = rows.places(alloc, first)?;
    let second_rows = rows.places(alloc, second)?;
    let found = classes_over(
        alloc,
        &rows,
        first,
        variables,
        &first_rows,
        second,
        others,
        &second_rows,
    )?;
    Ok(found)
}

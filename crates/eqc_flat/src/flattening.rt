//! Flattening: from a library and its main model to a flat netlist, or to the code of the
//! hierarchy's first fault.
ghost use Rattle.std.specs.Prelude.{◌≡◌, ◌⊎◌, ℕ, ◌<◌, ◌≤◌, false, length, map, slice_index_or, None, Some, IfOk, IfErr};
ghost use Rattle.eqc_netlist.specs.Names.{has_twice};
ghost use Rattle.eqc_hierarchy.specs.Hierarchy.{model};
ghost use Rattle.eqc_hierarchy.specs.Signals.{signals};
ghost use Rattle.eqc_hierarchy.specs.Codes.{code_of_drivers, flat_code};
ghost use Rattle.eqc_flat.specs.DriverTable.{IsDriven};
ghost use Rattle.eqc_flat.specs.Ordering.{IsOrder};
ghost use Rattle.eqc_flat.specs.Flattened.{signals_here, signal_at, all_named, IsFlatOf, IsFaultOfTwo};
ghost use Rattle.eqc_flat.specs.Instances.{IsExpansion};
ghost use Rattle.eqc_hierarchy.specs.Columns.{all_columns};
ghost use Rattle.eqc_hierarchy.specs.ModelFaults.{HasNoModelFault};
ghost use Rattle.eqc_flat.specs.Flattening.{IsNumberable, IsFlatFault, IsFaultAnyway, IsDriversFault};

use crate::drivers::driver_table::{drivers_of, signals_of};
use crate::drivers::row_table::RowTable;
use crate::hierarchy::Hierarchy;
use crate::signal_order::order_of;
use eqc_blif::{Library, Name};
use eqc_hierarchy::{Calls, Naming, Rule, first_model_fault};
use eqc_netlist::{Drivers, Fault, FaultOfTwo, Flat};
use smallvec::SmallVec;
use std::alloc::{AllocError, Global};

/// How many inputs a main model may have where nothing else is asked for.
pub const DEFAULT_INPUTS: u16 = 2_048;

/// The main model's outputs as flat signals, and each signal with its instance and name. Fails
/// where memory is refused.
fn listed<'a>(
    alloc: Global,
    hierarchy: &Hierarchy<'_, 'a>,
) -> Result<(Vec<u32>, Vec<(u32, &'a [u8])>), AllocError>
    ensures outputs { IfOk result (λ lists. map (signal_at hierarchy.now.0 hierarchy.now.1) lists.0.items ≡ signals_here hierarchy.now.0 hierarchy.now.1 0 (model hierarchy.now.0 hierarchy.now.1).outputs) }
    ensures within { IfOk result (λ lists. (j : ℕ) → j < length lists.0.items → slice_index_or lists.0.items j 0 < length (signals hierarchy.now.0 hierarchy.now.1)) }
    ensures named { IfOk result (λ lists. map (λ s. (s.0, s.1.now)) lists.1.items ≡ all_named hierarchy.now.0 hierarchy.now.1) }
{
    let outputs = hierarchy.library().outputs(hierarchy.top());
    let output_signals = signals_of(alloc, hierarchy, 0, outputs)?;
    let signals = hierarchy.all_signals(alloc)?;
    Ok((output_signals, signals))
}

/// The inputs and the outputs of the main model.
fn main_ports<'a>(hierarchy: &Hierarchy<'_, 'a>) -> (&'a [Name], &'a [Name])
    ensures inputs { result.0.now ≡ (model hierarchy.now.0 hierarchy.now.1).inputs }
    ensures outputs { result.1.now ≡ (model hierarchy.now.0 hierarchy.now.1).outputs }
    ensures inputs_once { has_twice result.0.now ≡ false }
    ensures outputs_once { has_twice result.1.now ≡ false }
{
    let library = hierarchy.library();
    let top = hierarchy.top();
    (library.inputs(top), library.outputs(top))
}

/// The flat netlist of a hierarchy with these rows, drivers and order. Fails where memory is
/// refused.
fn put_together<'a>(
    alloc: Global,
    hierarchy: Hierarchy<'_, 'a>,
    rows: RowTable<'a>,
    drivers: Drivers,
    steps: Vec<u32>,
) -> Result<Flat<'a>, AllocError>
    requires same { rows ≡ hierarchy.0 }
    requires few { length (model hierarchy.0 hierarchy.1).inputs ≤ 65535 }
    requires driven { IsDriven hierarchy.0 hierarchy.1 drivers }
    requires ordered { IsOrder drivers steps.items }
    ensures { IfOk result (λ flat. IsFlatOf hierarchy.entry.0 hierarchy.entry.1 flat) }
{
    let key = hierarchy.library().key();
    let (inputs, outputs) = main_ports(&hierarchy);
    let (output_signals, signals) = listed(alloc, &hierarchy)?;
    let places = hierarchy.into_places();
    let rows = rows.into_rows();
    Ok(Flat::new(
        key,
        inputs,
        outputs,
        output_signals,
        signals,
        places,
        drivers,
        rows,
        steps,
    ))
}

/// The drivers of a hierarchy's signals and an order of them, or code 26 for a signal that is
/// driven twice, 27 for one that nothing drives, 28 for one that depends on itself. 72 where memory
/// is refused.
fn ordered_drivers(
    alloc: Global,
    hierarchy: &Hierarchy<'_, '_>,
    rows: &RowTable<'_>,
    columns: Vec<SmallVec<u32, 4>>,
) -> Result<(Drivers, Vec<u32>), Fault>
    requires same { rows.now ≡ hierarchy.now.0 }
    requires numbered { IsNumberable hierarchy.now.0 hierarchy.now.1 }
    requires columns { map (λ c. c.items) columns.items ≡ all_columns hierarchy.now.0 }
    ensures ordered { IfOk result (λ found. IsDriven hierarchy.now.0 hierarchy.now.1 found.0 × IsOrder found.0 found.1.items) }
    ensures refused { IfErr result (λ fault. IsDriversFault hierarchy.now.0 hierarchy.now.1 fault.code) }
{
    let drivers = match drivers_of(alloc, hierarchy, rows, columns) {
        Ok(drivers) => drivers,
        Err(fault) => return Err(fault),
    };
    let Some(steps) = order_of(alloc, &drivers)? else {
        return Err(Fault::of(Rule::Circle));
    };
    Ok((drivers, steps))
}

/// The rows of all covers, and the drivers of a hierarchy's signals with an order of them, or a
/// code from 26 to 28. 72 where memory is refused.
fn driven_in_order<'a>(
    alloc: Global,
    library: &'a Library,
    hierarchy: &Hierarchy<'_, 'a>,
    columns: Vec<SmallVec<u32, 4>>,
) -> Result<(RowTable<'a>, (Drivers, Vec<u32>)), Fault>
    requires same { library.now ≡ hierarchy.now.0 }
    requires numbered { IsNumberable hierarchy.now.0 hierarchy.now.1 }
    requires columns { map (λ c. c.items) columns.items ≡ all_columns hierarchy.now.0 }
    ensures rows { IfOk result (λ found. found.0 ≡ hierarchy.now.0) }
    ensures ordered { IfOk result (λ found. IsDriven hierarchy.now.0 hierarchy.now.1 found.1.0 × IsOrder found.1.0 found.1.1.items) }
    ensures refused { IfErr result (λ fault. IsDriversFault hierarchy.now.0 hierarchy.now.1 fault.code) }
{
    let rows = RowTable::of(alloc, library)?;
    match ordered_drivers(alloc, hierarchy, &rows, columns) {
        Ok(ordered) => Ok((rows, ordered)),
        Err(fault) => Err(fault),
    }
}

/// The flat netlist of a hierarchy with these places of columns, or a code from 26 to 28. 72 where
/// memory is refused.
fn netlist<'a>(
    alloc: Global,
    library: &'a Library,
    hierarchy: Hierarchy<'_, 'a>,
    columns: Vec<SmallVec<u32, 4>>,
) -> Result<Flat<'a>, Fault>
    requires same { library.now ≡ hierarchy.0 }
    requires numbered { IsNumberable hierarchy.0 hierarchy.1 }
    requires columns { map (λ c. c.items) columns.items ≡ all_columns hierarchy.0 }
    ensures accepted { IfOk result (λ flat. code_of_drivers hierarchy.entry.0 hierarchy.entry.1 ≡ None) }
    ensures flat { IfOk result (λ flat. IsFlatOf hierarchy.entry.0 hierarchy.entry.1 flat) }
    ensures refused { IfErr result (λ fault. IsDriversFault hierarchy.entry.0 hierarchy.entry.1 fault.code) }
{
    let (rows, (drivers, steps)) = match driven_in_order(alloc, library, &hierarchy, columns) {
        Ok(found) => found,
        Err(fault) => return Err(fault),
    };
    let flat = put_together(alloc, hierarchy, rows, drivers, steps)?;
    Ok(flat)
}

/// The models that call one another in a library, where none that model `top` reaches is at fault,
/// or a code from 21 to 25. 72 where memory is refused.
fn calls_below(alloc: Global, library: &Library, top: usize) -> Result<Calls<'_>, Fault>
    requires { top < length library.now }
    ensures calls { IfOk result (λ calls. calls ≡ library.now) }
    ensures models { IfOk result (λ calls. HasNoModelFault library.now top) }
    ensures refused { IfErr result (λ fault. IsFaultAnyway library.now top fault.code) }
{
    let calls = Calls::of(alloc, library)?;
    match first_model_fault(alloc, &calls, top)? {
        Some(code) => Err(Fault { code }),
        None => Ok(calls),
    }
}

/// The hierarchy below model `top`, over the names of the library's models, or a code from 21 to
/// 25, or 29. 72 where memory is refused.
fn expanded<'n, 'a>(
    alloc: Global,
    library: &'a Library,
    naming: &'n Naming<'a>,
    top: usize,
) -> Result<Hierarchy<'n, 'a>, Fault>
    requires there { top < length library.now }
    requires named { naming.now ≡ library.now }
    ensures models { IfOk result (λ made. HasNoModelFault library.now top) }
    ensures made { IfOk result (λ made. IsExpansion library.now top made) }
    ensures refused { IfErr result (λ fault. IsFaultAnyway library.now top fault.code) }
{
    let calls = match calls_below(alloc, library, top) {
        Ok(calls) => calls,
        Err(fault) => return Err(fault),
    };
    match Hierarchy::of(alloc, calls, naming, top)? {
        Some(made) => Ok(made),
        None => Err(Fault::of(Rule::TooLarge)),
    }
}

/// The flat netlist of the hierarchy below model `top` of a library, over the names of its models
/// and with these places of the columns of each cover, or a code from 21 to 30, the last for more
/// inputs than the limit. 72 where memory is refused.
fn flat_below<'a>(
    alloc: Global,
    library: &'a Library,
    naming: &Naming<'a>,
    columns: Vec<SmallVec<u32, 4>>,
    top: usize,
    limit: u16,
) -> Result<Flat<'a>, Fault>
    requires there { top < length library.now }
    requires named { naming.now ≡ library.now }
    requires columns { map (λ c. c.items) columns.items ≡ all_columns library.now }
    ensures accepted { IfOk result (λ flat. flat_code library.now top limit ≡ None) }
    ensures flat { IfOk result (λ flat. IsFlatOf library.now top flat) }
    ensures refused { IfErr result (λ fault. IsFlatFault library.now top limit fault.code) }
{
    let hierarchy = match expanded(alloc, library, naming, top) {
        Ok(made) => made,
        Err(fault) => return Err(fault),
    };
    let most = limit as usize;
    if library.inputs(top).len() > most {
        return Err(Fault::of(Rule::ManyInputs));
    }
    netlist(alloc, library, hierarchy, columns)
}

/// The flat netlist of the hierarchy below model `top` of a library, which is below the number of
/// models: one list of signals, each with what drives it, in an order in which each stands after
/// those that it depends on. The main model may have as many inputs as `limit`.
///
/// Refused by the first of these numbers that applies to all models and instances that the main
/// model reaches: 21 for an instance of a model that isn't in the text, 22 for a model that reaches
/// itself, 23 for a formal that is neither input nor output of its model, 24 for a formal twice in
/// an instance, 25 for an input of an instance without a pair, 29 for more than 1,048,576 flat
/// signals and instances together, 30 for more than `limit` inputs of the main model, 26 for a
/// signal that is driven twice, 27 for one that nothing drives, 28 for one that depends on itself.
/// 72 where memory is refused.
pub fn flatten_within(
    alloc: Global,
    library: &Library,
    top: usize,
    limit: u16,
) -> Result<Flat<'_>, Fault>
    requires { top < length library.now }
    ensures accepted { IfOk result (λ flat. flat_code library.now top limit ≡ None) }
    ensures flat { IfOk result (λ flat. IsFlatOf library.now top flat) }
    ensures refused { IfErr result (λ fault. (fault.code ≡ 72) ⊎ (flat_code library.now top limit ≡ Some fault.code)) }
{
    let (naming, columns) = Naming::of(alloc, library)?;
    flat_below(alloc, library, &naming, columns, top, limit)
}

/// The flat netlist of the hierarchy below model `top` of a library, which is below the number of
/// models, as `flatten_within` makes it where the main model may have at most 2,048 inputs: 30 for
/// more of them.
pub fn flatten(alloc: Global, library: &Library, top: usize) -> Result<Flat<'_>, Fault>
    requires { top < length library.now }
    ensures accepted { IfOk result (λ flat. flat_code library.now top 2048 ≡ None) }
    ensures flat { IfOk result (λ flat. IsFlatOf library.now top flat) }
    ensures refused { IfErr result (λ fault. (fault.code ≡ 72) ⊎ (flat_code library.now top 2048 ≡ Some fault.code)) }
{
    flatten_within(alloc, library, top, DEFAULT_INPUTS)
}

/// Copies of the places of the columns of each cover. Fails where memory is refused.
fn copied(alloc: Global, columns: &[SmallVec<u32, 4>]) -> Result<Vec<SmallVec<u32, 4>>, AllocError>
    ensures { IfOk result (λ copies. map (λ c. c.items) copies.items ≡ map (λ c. c.items) columns.now) }
{
    let mut copies = Vec::with_capacity(alloc, columns.len())?;
    'columns: for places in columns {
        copies.push(SmallVec::from_slice(alloc, places.as_slice())?)?;
    }
    Ok(copies)
}

/// The flat netlists below two models of a library, each as `flatten_within` makes it with this
/// limit of inputs. It takes less time than two calls of it, since the names of the library's
/// models are put in order once.
///
/// `first` and `second` are below the number of models, and may be one. The error tells which of
/// the two is refused, the first one where both are, with the number that `flatten_within` has for
/// it, 21 to 30; 72 where memory is refused.
pub fn flatten_two(
    alloc: Global,
    library: &Library,
    first: usize,
    second: usize,
    limit: u16,
) -> Result<(Flat<'_>, Flat<'_>), FaultOfTwo>
    requires first { first < length library.now }
    requires second { second < length library.now }
    ensures first { IfOk result (λ flats. (flat_code library.now first limit ≡ None) × IsFlatOf library.now first flats.0) }
    ensures second { IfOk result (λ flats. (flat_code library.now second limit ≡ None) × IsFlatOf library.now second flats.1) }
    ensures refused { IfErr result (IsFaultOfTwo library.now first second limit) }
{
    let Ok((naming, columns)) = Naming::of(alloc, library) else {
        return Err(FaultOfTwo::First(Fault::of(Rule::Memory)));
    };
    let Ok(copies) = copied(alloc, &columns) else {
        return Err(FaultOfTwo::First(Fault::of(Rule::Memory)));
    };
    match flat_below(alloc, library, &naming, copies, first, limit) {
        Ok(f) => match flat_below(alloc, library, &naming, columns, second, limit) {
            Ok(g) => Ok((f, g)),
            Err(fault) => Err(FaultOfTwo::Second(fault)),
        },
        Err(fault) => Err(FaultOfTwo::First(fault)),
    }
}

//! How drivers are found: each input, cover and pair drives its signal, and each signal has to be
//! driven exactly once.
ghost use Rattle.std.specs.Prelude.{◌≡◌, ℕ, ◌+◌, ◌<◌, ◌≤◌, ◌++◌, ◌∷◌, [], List, length, map, true, false, Some, None, is_some, is_none, position, slice_index_or, IfOk, IfErr, MatchOption};
ghost use Rattle.std.specs.List.{flat_map, enumerate_from};
ghost use Rattle.eqc_blif.specs.Netlist.{ModelOf};
ghost use Rattle.eqc_netlist.specs.Names.{is_named};
ghost use Rattle.eqc_netlist.specs.Graph.{IsWithinSizes};
ghost use Rattle.eqc_hierarchy.specs.Columns.{all_columns};
ghost use Rattle.eqc_netlist.specs.StoredDrivers.{driver_from};
ghost use Rattle.eqc_hierarchy.specs.Hierarchy.{model, paths};
ghost use Rattle.eqc_hierarchy.specs.Signals.{Driving, names_of, signals, input_drivings, cover_driving, pair_driving, instance_drivings, drivings};
ghost use Rattle.eqc_hierarchy.specs.Codes.{has_unknown_formal};
ghost use Rattle.eqc_flat.specs.Flattened.{path_at, model_of, signals_here, signal_at, source_of};
ghost use Rattle.eqc_flat.specs.Instances.{first_below};
ghost use Rattle.eqc_flat.specs.RowTable.{all_rows};
ghost use Rattle.eqc_flat.specs.DriverTable.{IsTable, IsDriven, IsDriverFault, first_driven};

use crate::drivers::row_table::RowTable;
use crate::hierarchy::Hierarchy;
use eqc_blif::{Cover, Library, Name};
use eqc_hierarchy::{Rule, instances};
use eqc_netlist::{Drivers, Fault, StoredDriver};
use smallvec::SmallVec;
use std::alloc::{AllocError, Global};
use std::marker::Model;

/// How often a signal at fault is driven.
#[derive(Clone, Copy)]
pub(crate) enum Driven {
    Twice,
    Never,
}

/// The drivers of the flat signals while they are found: a slot for each signal, and the first that
/// was driven twice. Once one is, the answer is known, and nothing more is put in.
#[derive(Drop)]
pub(crate) struct DriverTable {
    slots: Vec<Option<StoredDriver>>,
    twice: Option<usize>,
}

impl Model for DriverTable {
    ghost use Rattle.std.specs.Prelude.{ℕ, List, Option};
    ghost use Rattle.eqc_netlist.specs.declared.drivers.stored_driver.StoredDriver.{StoredDriver};

    ghost Value = { List (Option StoredDriver) × Option ℕ };

    ghost view = { λ a. (a.slots.items, a.twice) };
}

/// The covers of model `m`, or none where there is no such model.
fn covers(library: &Library, m: usize) -> &[Cover]
    ensures { result.now ≡ (model library.now m).covers }
{
    if m < library.models() {
        library.covers(m)
    } else {
        &[]
    }
}

/// The signals of these names, which occur in the model of instance `i`. Fails where memory is
/// refused.
pub(crate) fn signals_of(
    alloc: Global,
    hierarchy: &Hierarchy<'_, '_>,
    i: usize,
    names: &[Name],
) -> Result<Vec<u32>, AllocError>
    requires instance { i < length (paths hierarchy.now.0 hierarchy.now.1) }
    requires named { (j : ℕ) → j < length names.now → is_named (names_of (model_of hierarchy.now.0 hierarchy.now.1 i)) (slice_index_or names.now j []) ≡ true }
    ensures signals { IfOk result (λ all. map (signal_at hierarchy.now.0 hierarchy.now.1) all.items ≡ signals_here hierarchy.now.0 hierarchy.now.1 i names.now) }
    ensures within { IfOk result (λ all. (j : ℕ) → j < length all.items → slice_index_or all.items j 0 < length (signals hierarchy.now.0 hierarchy.now.1)) }
{
    let mut all = Vec::with_capacity(alloc, names.len())?;
    for j in 0..names.len() {
        all.push(hierarchy.signal(i, names[j].as_bytes()) as u32)?;
    }
    Ok(all)
}

impl DriverTable {
    /// So many empty slots. Fails where memory is refused.
    fn new(alloc: Global, count: usize) -> Result<DriverTable, AllocError>
        ensures { IfOk result (λ table. (library : List ModelOf) (top : ℕ) → count ≡ length (signals library top) → IsTable library top table.0 table.1 []) }
    {
        let mut slots = Vec::with_capacity(alloc, count)?;
        for _k in 0..count {
            slots.push(None)?;
        }
        Ok(DriverTable { slots, twice: None })
    }

    /// Whether a signal is known to be driven twice.
    fn is_driven_twice(&self) -> bool
        ensures { result ≡ is_some self.now.1 }
    {
        self.twice.is_some()
    }

    /// Puts a driver into a signal's slot, or notes that the signal is driven twice.
    fn drive(&mut self, signal: usize, driver: StoredDriver)
        requires { signal < length self.old.0 }
        ensures size { length self.new.0 ≡ length self.old.0 }
        ensures step { (library : List ModelOf) (top : ℕ) (done : List Driving) (d : Driving) →
            IsTable library top self.old.0 self.old.1 done →
            d.0 ≡ signal_at library top signal →
            d.1 ≡ source_of (signal_at library top) (all_rows library) (driver_from (all_columns library) driver) →
            IsWithinSizes (length (model library top).inputs) (length (signals library top)) (length (all_rows library)) (driver_from (all_columns library) driver) →
            IsTable library top self.new.0 self.new.1 (done ++ d ∷ []) }
    {
        if self.slots[signal].is_some() {
            self.twice = self.twice.or(Some(signal));
        } else {
            self.slots[signal] = Some(driver);
        }
    }

    /// Lets each input of the main model drive the signal of its name.
    fn fill_inputs(&mut self, hierarchy: &Hierarchy<'_, '_>)
        requires size { length self.old.0 ≡ length (signals hierarchy.now.0 hierarchy.now.1) }
        requires few { length (model hierarchy.now.0 hierarchy.now.1).inputs ≤ 65535 }
        ensures size { length self.new.0 ≡ length self.old.0 }
        ensures step { (done : List Driving) → IsTable hierarchy.now.0 hierarchy.now.1 self.old.0 self.old.1 done →
            IsTable hierarchy.now.0 hierarchy.now.1 self.new.0 self.new.1 (done ++ input_drivings (enumerate_from 0 (model hierarchy.now.0 hierarchy.now.1).inputs)) }
    {
        let inputs = hierarchy.library().inputs(hierarchy.top());
        for k in 0..inputs.len() {
            let signal = hierarchy.signal(0, inputs[k].as_bytes());
            self.drive(signal, StoredDriver::Input(k as u32));
        }
    }

    /// Lets each cover in instance `i` drive its output.
    fn fill_covers(&mut self, hierarchy: &Hierarchy<'_, '_>, rows: &RowTable<'_>, i: usize)
        requires size { length self.old.0 ≡ length (signals hierarchy.now.0 hierarchy.now.1) }
        requires same { rows.now ≡ hierarchy.now.0 }
        requires instance { i < length (paths hierarchy.now.0 hierarchy.now.1) }
        ensures size { length self.new.0 ≡ length self.old.0 }
        ensures step { (done : List Driving) → IsTable hierarchy.now.0 hierarchy.now.1 self.old.0 self.old.1 done →
            IsTable hierarchy.now.0 hierarchy.now.1 self.new.0 self.new.1 (done ++ map (cover_driving (path_at hierarchy.now.0 hierarchy.now.1 i)) (model_of hierarchy.now.0 hierarchy.now.1 i).covers) }
    {
        let m = hierarchy.model(i);
        let covers = covers(hierarchy.library(), m);
        let first = hierarchy.first_signal(i) as u32;
        for k in 0..covers.len() {
            if self.is_driven_twice() {
                return;
            }
            let one = &covers[k];
            let cover = rows.number(m, k);
            let signal = hierarchy.output_signal(i, one.output.as_bytes(), cover);
            self.drive(signal, StoredDriver::Cover { first, cover });
        }
    }

    /// Lets the pairs of the instance at position `p` of instance `i` drive what they drive; its
    /// number is `child`.
    fn fill_pairs(
        &mut self,
        hierarchy: &Hierarchy<'_, '_>,
        i: usize,
        p: usize,
        child: usize,
        pairs: &[(Name, Name)],
    )
        requires size { length self.old.0 ≡ length (signals hierarchy.now.0 hierarchy.now.1) }
        requires instance { i < length (paths hierarchy.now.0 hierarchy.now.1) }
        requires child { child < length (paths hierarchy.now.0 hierarchy.now.1) }
        requires below { path_at hierarchy.now.0 hierarchy.now.1 child ≡ p ∷ path_at hierarchy.now.0 hierarchy.now.1 i }
        requires formals { (j : ℕ) → j < length pairs.now → is_named (names_of (model_of hierarchy.now.0 hierarchy.now.1 child)) (slice_index_or pairs.now j ([], [])).0 ≡ true }
        requires actuals { (j : ℕ) → j < length pairs.now → is_named (names_of (model_of hierarchy.now.0 hierarchy.now.1 i)) (slice_index_or pairs.now j ([], [])).1 ≡ true }
        ensures size { length self.new.0 ≡ length self.old.0 }
        ensures step { (done : List Driving) → IsTable hierarchy.now.0 hierarchy.now.1 self.old.0 self.old.1 done →
            IsTable hierarchy.now.0 hierarchy.now.1 self.new.0 self.new.1 (done ++ map (pair_driving (path_at hierarchy.now.0 hierarchy.now.1 i) p (model_of hierarchy.now.0 hierarchy.now.1 child)) pairs.now) }
    {
        for j in 0..pairs.len() {
            let (formal, actual) = &pairs[j];
            let (inner, is_input) = hierarchy.formal(child, formal.as_bytes());
            let outer = hierarchy.signal(i, actual.as_bytes());
            if is_input {
                self.drive(inner, StoredDriver::Tie(outer as u32));
            } else {
                self.drive(outer, StoredDriver::Tie(inner as u32));
            }
        }
    }

    /// Lets the pairs of all instances right below instance `i` drive what they drive; the first of
    /// these instances has the number `first`.
    fn fill_below(&mut self, hierarchy: &Hierarchy<'_, '_>, i: usize, first: usize)
        requires size { length self.old.0 ≡ length (signals hierarchy.now.0 hierarchy.now.1) }
        requires instance { i < length (paths hierarchy.now.0 hierarchy.now.1) }
        requires first { first ≡ first_below hierarchy.now.0 hierarchy.now.1 i }
        requires known { has_unknown_formal hierarchy.now.0 hierarchy.now.1 ≡ false }
        ensures size { length self.new.0 ≡ length self.old.0 }
        ensures step { (done : List Driving) → IsTable hierarchy.now.0 hierarchy.now.1 self.old.0 self.old.1 done →
            IsTable hierarchy.now.0 hierarchy.now.1 self.new.0 self.new.1 (done ++ flat_map (instance_drivings hierarchy.now.0 hierarchy.now.1 (path_at hierarchy.now.0 hierarchy.now.1 i)) (enumerate_from 0 (model_of hierarchy.now.0 hierarchy.now.1 i).instances)) }
    {
        let instances = instances(hierarchy.library(), hierarchy.model(i));
        for p in 0..instances.len() {
            let instance = &instances[p];
            self.fill_pairs(hierarchy, i, p, first + p, instance.pairs.as_slice());
        }
    }

    /// Lets everything in a hierarchy drive what it drives.
    fn fill(&mut self, hierarchy: &Hierarchy<'_, '_>, rows: &RowTable<'_>)
        requires size { length self.old.0 ≡ length (signals hierarchy.now.0 hierarchy.now.1) }
        requires same { rows.now ≡ hierarchy.now.0 }
        requires few { length (model hierarchy.now.0 hierarchy.now.1).inputs ≤ 65535 }
        requires known { has_unknown_formal hierarchy.now.0 hierarchy.now.1 ≡ false }
        ensures { IsTable hierarchy.now.0 hierarchy.now.1 self.old.0 self.old.1 [] → IsTable hierarchy.now.0 hierarchy.now.1 self.new.0 self.new.1 (drivings hierarchy.now.0 hierarchy.now.1) }
    {
        self.fill_inputs(hierarchy);
        let mut first = 1;
        for i in 0..hierarchy.instances() {
            if self.is_driven_twice() {
                return;
            }
            self.fill_covers(hierarchy, rows, i);
            self.fill_below(hierarchy, i, first);
            first += instances(hierarchy.library(), hierarchy.model(i)).len();
        }
    }
}

impl DriverTable {
    /// The drivers of a hierarchy's signals. Fails where memory is refused.
    pub(crate) fn of(
        alloc: Global,
        hierarchy: &Hierarchy<'_, '_>,
        rows: &RowTable<'_>,
    ) -> Result<DriverTable, AllocError>
        requires same { rows.now ≡ hierarchy.now.0 }
        requires few { length (model hierarchy.now.0 hierarchy.now.1).inputs ≤ 65535 }
        requires known { has_unknown_formal hierarchy.now.0 hierarchy.now.1 ≡ false }
        ensures few { length (signals hierarchy.now.0 hierarchy.now.1) ≤ 1048576 }
        ensures filled { IfOk result (λ table. IsTable hierarchy.now.0 hierarchy.now.1 table.0 table.1 (drivings hierarchy.now.0 hierarchy.now.1)) }
    {
        let mut table = DriverTable::new(alloc, hierarchy.signals())?;
        table.fill(hierarchy, rows);
        Ok(table)
    }

    /// The first signal whose slot is empty, if one is.
    fn first_empty(&self) -> Option<usize>
        ensures { result ≡ position is_none self.now.0 }
    {
        self.slots.iter().position(|slot| slot.is_none())
    }

    /// The first signal that is found to be driven so, if one is.
    pub(crate) fn first_driven(&self, driven: Driven) -> Option<usize>
        ensures { result ≡ first_driven driven self.now.0 self.now.1 }
    {
        match driven {
            Driven::Twice => self.twice,
            Driven::Never => self.first_empty(),
        }
    }
}

/// The drivers in the slots, or none where a slot is empty. Fails where memory is refused.
fn taken(
    alloc: Global,
    slots: Vec<Option<StoredDriver>>,
) -> Result<Option<Vec<StoredDriver>>, AllocError>
    ensures { IfOk result (λ found. MatchOption found
        ((s : ℕ) × (s < length slots.items) × (slice_index_or slots.items s None ≡ None))
        (λ all. slots.items ≡ map (λ driver. Some driver) all.items)) }
{
    let mut all = Vec::with_capacity(alloc, slots.len())?;
    'slots: for slot in slots {
        match slot {
            Some(driver) => all.push(driver)?,
            None => return Ok(None),
        }
    }
    Ok(Some(all))
}

/// The driver of each flat signal, over the columns of all covers by their numbers. Answers 26
/// where a signal is driven twice, 27 where one isn't driven, and 72 where memory is refused.
pub(crate) fn drivers_of(
    alloc: Global,
    hierarchy: &Hierarchy<'_, '_>,
    rows: &RowTable<'_>,
    columns: Vec<SmallVec<u32, 4>>,
) -> Result<Drivers, Fault>
    requires same { rows.now ≡ hierarchy.now.0 }
    requires few { length (model hierarchy.now.0 hierarchy.now.1).inputs ≤ 65535 }
    requires known { has_unknown_formal hierarchy.now.0 hierarchy.now.1 ≡ false }
    requires columns { map (λ c. c.items) columns.items ≡ all_columns hierarchy.now.0 }
    ensures driven { IfOk result (λ drivers. IsDriven hierarchy.now.0 hierarchy.now.1 drivers) }
    ensures refused { IfErr result (λ fault. IsDriverFault hierarchy.now.0 hierarchy.now.1 fault.code) }
{
    let table = DriverTable::of(alloc, hierarchy, rows)?;
    if table.twice.is_some() {
        return Err(Fault::of(Rule::DrivenTwice));
    }
    match taken(alloc, table.slots)? {
        Some(stored) => Ok(Drivers::new(stored, columns)),
        None => Err(Fault::of(Rule::Undriven)),
    }
}

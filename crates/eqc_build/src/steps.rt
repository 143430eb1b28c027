//! The steps of a pair, in one row: those of the first netlist, those of the second, and those of
//! the assumption, if there is one. Each makes a signal's value out of values of steps before it.
ghost use Rattle.std.specs.Prelude.{◌≡◌, ◌+◌, ◌<◌, ◌≤◌, [], length, option_to_list, slice_index, slice_index_or, IfSome};
ghost use Rattle.std.specs.Option.{option_copied};
ghost use Rattle.eqc_cover.specs.Splits.{IsExpansionOf};
ghost use Rattle.eqc_netlist.specs.Graph.{FlatOf};
ghost use Rattle.eqc_pair.specs.PairOf.{ArePlaces};
ghost use Rattle.eqc_build.specs.Steps.{AreSteps, IsChoice, IsSide, assumed_root, chosen_for, goals_of, roots_of, step_in, steps_in, uses_in, uses_of};
ghost use Rattle.eqc_build.specs.Schedule.{AreWithin};
ghost use Rattle.eqc_build.specs.StepDrivers.{IsDriverIn, IsMadeBy};
ghost use Rattle.eqc_build.specs.CoverTables.{AreTablesOf, ArePairTables, tables_in};

use crate::cover_tables::{CoverTable, PairTables, table_at};
use crate::goals::Goals;
use crate::moments::Moments;
use crate::wide_covers::WideCovers;
use eqc_cover::Expansion;
use eqc_netlist::{Driver, Flat, Rows, Signals};
use eqc_pair::{Pair, recall_laws};
use indexmap::IndexMap;
use std::alloc::Global;
use std::marker::Model;

/// The steps of a pair. A step may be chosen in place of another that never has another value: then
/// it alone is made.
pub struct Steps<'a> {
    pair: &'a Pair<'a>,
    /// The step of each signal of the first netlist, counted from 0.
    places: &'a [u32],
    /// The step of each signal of the second netlist, counted from 0 there.
    others: &'a [u32],
    /// The step of each signal of the assumption, counted from 0 there.
    further: &'a [u32],
    /// The step that is chosen in place of each, itself where none is listed.
    chosen: Vec<u32>,
    /// Tables of some of its covers.
    tables: PairTables,
    /// Covers of the first netlist and of the second that are kept as splits.
    first_wide: WideCovers<'a>,
    second_wide: WideCovers<'a>,
}

impl<'a> Model for Steps<'a> {
    ghost use Rattle.eqc_build.specs.CoverTables.{tables_in};
    ghost use Rattle.eqc_build.specs.Steps.{StepsOf, AreSteps};

    ghost Value = { StepsOf };

    ghost view = { λ a. record { pair = a.pair.now; places = a.places.now; others = a.others.now; further = a.further.now; chosen = a.chosen.items; tables = tables_in a.tables; wide = (a.first_wide, a.second_wide) } };

    ghost invariant = { λ a. AreSteps (record { pair = a.pair.now; places = a.places.now; others = a.others.now; further = a.further.now; chosen = a.chosen.items; tables = tables_in a.tables; wide = (a.first_wide, a.second_wide) }) };
}

/// It stands here for the sake of proofs: a call in each exit in place of all that is let go.
impl<'a> Drop for Steps<'a> {
    fn drop(self) {
        let Steps {
            pair: _,
            places: _,
            others: _,
            further: _,
            chosen: _,
            tables: _,
            first_wide: _,
            second_wide: _,
        } = self;
    }
}

/// Steps that a step uses, in order and with repeats. Contracts see their list.
#[derive(Drop)]
pub struct Uses<'a> {
    signals: Signals<'a>,
    /// The step of each signal of the netlist, counted from 0 there.
    places: &'a [u32],
    /// The first step of the netlist.
    start: u32,
    chosen: &'a [u32],
}

impl<'a> Model for Uses<'a> {
    ghost use Rattle.std.specs.Prelude.{ℕ, ◌+◌, ◌<◌, List, length, map, slice_index};
    ghost use Rattle.eqc_build.specs.Steps.{step_in};

    ghost Value = { List ℕ };

    ghost view = { λ a. map (step_in a.chosen.now a.places.now a.start) a.signals };

    ghost invariant = { λ a. (k : ℕ) → k < length a.signals → (slice_index a.signals k < length a.places.now) × (a.start + slice_index a.places.now (slice_index a.signals k) < 4294967296) };
}

/// What makes the value of a step, out of values of steps before it.
#[derive(Drop)]
pub enum StepDriver<'a> {
    /// The value of this variable.
    Variable(u16),
    /// That of this step.
    Copy(u32),
    /// A cover with these rows, whose columns are these steps, and its value as splits, if it is
    /// known.
    Cover {
        columns: Uses<'a>,
        rows: &'a Rows<'a>,
        known: Option<&'a Expansion>,
    },
    /// A cover whose table is known, of at most six columns, which are these steps.
    Table {
        columns: Uses<'a>,
        table: u64,
    },
}

/// A netlist of a pair, and the number of a step among its own.
#[derive(Drop)]
struct Side<'a> {
    flat: &'a Flat<'a>,
    /// Those of its covers that are kept as splits.
    wide: Option<&'a WideCovers<'a>>,
    /// Tables of some of its covers.
    tables: &'a IndexMap<u32, CoverTable>,
    /// The variable of each of its inputs.
    variables: &'a [u16],
    /// The step of each of its signals, counted from 0.
    places: &'a [u32],
    /// Its first step among those of the pair.
    start: u32,
    step: u32,
}

/// The step that is chosen in place of one.
fn chosen_for(chosen: &[u32], step: u32) -> u32
    ensures { result ≡ chosen_for chosen.now step }
{
    chosen.get(step as usize).copied().unwrap_or(step)
}

/// The step of a signal of a netlist whose steps begin at `start`.
#[tactic(auto, unfolding(crate::specs::Steps::step_in))]
fn step_in(chosen: &[u32], places: &[u32], start: u32, s: u32) -> u32
    requires within { s < length places.now }
    requires room { start + slice_index places.now s < 4294967296 }
    ensures { result ≡ step_in chosen.now places.now start s }
{
    chosen_for(chosen, start + places[s as usize])
}

impl<'a> Uses<'a> {
    /// Their number.
    pub fn len(&self) -> usize
        ensures { result ≡ length self.now }
    {
        self.signals.len()
    }

    /// The step at position `k`, which is below their number.
    pub fn get(&self, k: usize) -> u32
        requires { k < length self.now }
        ensures { result ≡ slice_index self.now k }
    {
        step_in(self.chosen, self.places, self.start, self.signals.get(k))
    }
}

/// What the step of a netlist uses that is number `step` of its own, where its steps begin at
/// `start`.
fn uses_in<'a>(
    flat: &'a Flat<'a>,
    chosen: &'a [u32],
    places: &'a [u32],
    start: u32,
    step: u32,
) -> Uses<'a>
    requires places { ArePlaces flat.now places.now }
    requires room { start ≤ 2097152 }
    requires step { step < length flat.now.drivers }
    ensures { result ≡ uses_in flat.now chosen.now places.now start step }
{
    let s = flat.steps()[step as usize];
    Uses {
        signals: flat.driver(s).dependencies(),
        places,
        start,
        chosen,
    }
}

/// The value as splits of a cover with these rows over so many columns, if it is kept.
fn known_in<'a>(
    wide: Option<&'a WideCovers<'a>>,
    rows: u32,
    columns: usize,
) -> Option<&'a Expansion>
    ensures { (f : FlatOf) → IfSome wide.entry (λ covers. covers.now ≡ f) → IfSome result (λ expansion. IsExpansionOf (slice_index_or f.rows rows []) columns expansion.now) }
{
    wide?.known(rows, columns)
}

/// What makes the value of such a step, where the netlist's inputs have these variables.
fn driver_in<'a>(
    flat: &'a Flat<'a>,
    wide: Option<&'a WideCovers<'a>>,
    tables: &IndexMap<u32, CoverTable>,
    variables: &[u16],
    chosen: &'a [u32],
    places: &'a [u32],
    start: u32,
    step: u32,
) -> StepDriver<'a>
    requires wide { IfSome wide (λ covers. covers.now ≡ flat.now) }
    requires tables { AreTablesOf flat.now tables.now.entries }
    requires variables { length variables.now ≡ length flat.now.inputs }
    requires places { ArePlaces flat.now places.now }
    requires room { start ≤ 2097152 }
    requires step { step < length flat.now.drivers }
    ensures { IsDriverIn flat.now variables.now chosen.now places.now start step result }
{
    let s = flat.steps()[step as usize];
    match flat.driver(s) {
        Driver::Input(position) => StepDriver::Variable(variables[position as usize]),
        Driver::Tie(other) => StepDriver::Copy(step_in(chosen, places, start, other)),
        Driver::Cover { columns, rows } => {
            let table = table_at(tables, rows, columns.len());
            let known = known_in(wide, rows, columns.len());
            let columns = Uses {
                signals: columns,
                places,
                start,
                chosen,
            };
            match table {
                Some(table) => StepDriver::Table { columns, table },
                None => StepDriver::Cover {
                    columns,
                    rows: flat.rows(rows),
                    known,
                },
            }
        }
    }
}

impl<'a> Steps<'a> {
    /// The steps of a pair, with these tables of its covers.
    fn with_tables(
        alloc: Global,
        pair: &'a Pair<'a>,
        chosen: Vec<u32>,
        tables: PairTables,
    ) -> Steps<'a>
        requires choice { IsChoice pair.now chosen.items }
        requires tables { ArePairTables pair.now (tables_in tables) }
        ensures pair { result.pair ≡ pair.now }
        ensures chosen { result.chosen ≡ chosen.items }
    {
        recall_laws(pair.first());
        recall_laws(pair.second());
        if let Some(assumption) = pair.assumption() {
            recall_laws(assumption);
        }
        Steps {
            pair,
            places: pair.first_places(),
            others: pair.second_places(),
            further: pair.assumed_places(),
            chosen,
            tables,
            first_wide: WideCovers::none(alloc, pair.first()),
            second_wide: WideCovers::none(alloc, pair.second()),
        }
    }

    /// The steps of a pair, with the step that is chosen in place of each, itself where none is
    /// listed. It takes time in proportion to its signals, and to the rows of covers that have few
    /// columns and many rows: these needn't be gone through again.
    pub fn of(alloc: Global, pair: &'a Pair<'a>, chosen: Vec<u32>) -> Steps<'a>
        requires { IsChoice pair.now chosen.items }
        ensures pair { result.pair ≡ pair.now }
        ensures chosen { result.chosen ≡ chosen.items }
    {
        Steps::with_tables(alloc, pair, chosen, PairTables::of(alloc, pair))
    }

    /// The steps of a pair, each of which is made. It takes no time in proportion to them.
    pub fn each(alloc: Global, pair: &'a Pair<'a>) -> Steps<'a>
        ensures pair { result.pair ≡ pair.now }
        ensures chosen { result.chosen ≡ [] }
    {
        Steps::with_tables(alloc, pair, Vec::new(alloc), PairTables::none(alloc))
    }

    /// Keeps as splits the covers of many columns and very many rows that drive several signals of
    /// a netlist whose steps are used, by their last moments: their rows needn't be gone through
    /// for each.
    pub(crate) fn keep_wide(&mut self, alloc: Global, last: &Moments)
        requires { length last.now ≡ steps_in self.old.pair }
        ensures { self.new ≡ self.old }
    {
        let count = self.places.len() as u32;
        self.first_wide.keep_used(alloc, last, 0);
        self.second_wide.keep_used(alloc, last, count);
    }

    /// The pair.
    pub fn pair(&self) -> &'a Pair<'a>
        ensures { result.now ≡ self.now.pair }
    {
        self.pair
    }

    /// Their number.
    pub fn len(&self) -> u32
        ensures count { result ≡ steps_in self.now.pair }
        ensures few { result ≤ 3145728 }
        ensures lawful { AreSteps self.now }
    {
        self.pair.recall_laws();
        (self.places.len() + self.others.len() + self.further.len()) as u32
    }

    /// The steps of an output's two signals.
    #[tactic(auto, unfolding(crate::specs::Steps::roots_of))]
    pub fn roots(&self, output: usize) -> [u32; 2]
        requires { output < length self.now.pair.first.outputs }
        ensures { result ≡ roots_of self.now output }
    {
        self.pair.recall_laws();
        let first = self.pair.first();
        let s = first.output_signals()[output];
        let t = self.pair.second_signals()[output];
        let count = first.steps().len() as u32;
        [
            step_in(&self.chosen, self.places, 0, s),
            step_in(&self.chosen, self.others, count, t),
        ]
    }

    /// The step of the assumption's output, if there is an assumption.
    pub fn assumed_root(&self) -> Option<u32>
        ensures { option_to_list result ≡ assumed_root self.now }
    {
        self.pair.recall_laws();
        match self.pair.assumption() {
            None => None,
            Some(assumption) => {
                let start = (self.places.len() + self.others.len()) as u32;
                let output = assumption.output_signals()[0];
                Some(step_in(&self.chosen, self.further, start, output))
            }
        }
    }

    /// The steps whose diagrams a comparison of an output needs: those of its two signals and, if
    /// there is an assumption, that of its output. `output` is below the number of outputs.
    pub fn goals(&self, output: usize) -> Goals
        requires { output < length self.now.pair.first.outputs }
        ensures goals { result ≡ goals_of self.now output }
        ensures within { AreWithin self.now result }
    {
        let _count = self.len();
        let [first, second] = self.roots(output);
        match self.assumed_root() {
            None => Goals::of([first, second, first], 2),
            Some(third) => Goals::of([first, second, third], 3),
        }
    }

    /// The netlist that a step is of, which is below their number.
    fn side(&self, step: u32) -> Side<'_>
        requires { step < steps_in self.now.pair }
        ensures { IsSide self.now result.flat.now (option_copied result.wide) result.tables.now.entries result.variables.now result.places.now result.start result.step step }
    {
        self.pair.recall_laws();
        let second_start = self.places.len() as u32;
        if step < second_start {
            return Side {
                flat: self.pair.first(),
                wide: Some(&self.first_wide),
                tables: &self.tables.first,
                variables: self.pair.variables(),
                places: self.places,
                start: 0,
                step,
            };
        }
        let assumed_start = second_start + self.others.len() as u32;
        if step < assumed_start {
            return Side {
                flat: self.pair.second(),
                wide: Some(&self.second_wide),
                tables: &self.tables.second,
                variables: self.pair.second_variables(),
                places: self.others,
                start: second_start,
                step: step - second_start,
            };
        }
        let Some(assumption) = self.pair.assumption() else {
            unreachable!()
        };
        Side {
            flat: assumption,
            wide: None,
            tables: &self.tables.assumed,
            variables: self.pair.assumed_variables(),
            places: self.further,
            start: assumed_start,
            step: step - assumed_start,
        }
    }

    /// The steps that a step uses: each comes before it. `step` is below their number.
    pub fn uses(&self, step: u32) -> Uses<'_>
        requires { step < steps_in self.now.pair }
        ensures { result ≡ uses_of self.now step }
    {
        let side = self.side(step);
        uses_in(side.flat, &self.chosen, side.places, side.start, side.step)
    }

    /// What makes the value of a step. `step` is below their number.
    pub fn driver(&self, step: u32) -> StepDriver<'_>
        requires { step < steps_in self.now.pair }
        ensures { IsMadeBy self.now step result }
    {
        let side = self.side(step);
        driver_in(
            side.flat,
            side.wide,
            side.tables,
            side.variables,
            &self.chosen,
            side.places,
            side.start,
            side.step,
        )
    }
}

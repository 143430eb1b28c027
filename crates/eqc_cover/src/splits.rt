//! A cover over its own columns as splits, each made once: tables of the last six columns, and
//! choices by a column between two splits before them.
ghost use Rattle.std.specs.Prelude.{◌≡◌, ℕ, ◌+◌, ◌<◌, ◌≤◌, ◌++◌, [], ◌∷◌, drop, length, map, true, Bool, List, IfOk, OnOk};
ghost use Rattle.std.specs.Option.{IfSome};
ghost use Rattle.eqc_cover.specs.Matching.{agrees, some_match};
ghost use Rattle.eqc_cover.specs.Table.{table_value, Tabulates};
ghost use Rattle.eqc_cover.specs.Splits.{Grows, IsMadeAt, IsChosenAt, last_columns};

use crate::rows::{cofactors, has_free_row};
use crate::table::{MOST_COLUMNS, matching_table};
use std::alloc::{AllocError, Global};
use std::collections::BTreeMap;

/// The most splits of a cover.
const MOST_SPLITS: usize = 65_536;

/// A function of the columns that a cover is made of.
#[derive(Clone, Copy, Drop)]
pub(crate) enum Split {
    /// What a table says of the last six columns.
    Table(u64),
    /// The one or the other of two splits before this one.
    Choice(Choice),
}

/// A choice between two splits, which are told by their places.
#[derive(Clone, Copy, Drop)]
pub(crate) struct Choice {
    /// The column by whose value is chosen.
    pub(crate) column: usize,
    /// The split where it is true.
    pub(crate) high: usize,
    /// The split where it is false.
    pub(crate) low: usize,
}

/// Splits that are being made. Where each stands is noted, in ordered tables, since a text may
/// choose the tables; what is noted is looked at before it is believed.
#[derive(Drop)]
pub(crate) struct Splits {
    pub(crate) list: Vec<Split>,
    tables: BTreeMap<u64, usize>,
    choices: BTreeMap<(usize, usize, usize), usize>,
}

/// Whether a split is this table.
fn is_table(split: Split, table: u64) -> bool
    ensures { result ≡ true → split ≡ Split.Table table }
{
    match split {
        Split::Table(other) => other == table,
        Split::Choice(_) => false,
    }
}

/// Whether a split is this choice.
fn is_choice(split: Split, choice: Choice) -> bool
    ensures { result ≡ true → split ≡ Split.Choice choice }
{
    match split {
        Split::Table(_) => false,
        Split::Choice(other) => {
            other.column == choice.column && other.high == choice.high && other.low == choice.low
        }
    }
}

impl Splits {
    /// None.
    pub(crate) fn none(alloc: Global) -> Splits
        ensures { result.list.items ≡ [] }
    {
        Splits {
            list: Vec::new(alloc),
            tables: BTreeMap::new(alloc),
            choices: BTreeMap::new(alloc),
        }
    }

    /// Puts a split behind the others, and answers its place. Fails where memory is refused, and
    /// where there are as many splits as a cover may have.
    fn add(&mut self, split: Split) -> Result<usize, AllocError>
        ensures place { IfOk result (λ k. k ≡ length self.old.list.items) }
        ensures list { OnOk result (self.new.list.items ≡ self.old.list.items ++ split ∷ []) }
    {
        let place = self.list.len();
        if place >= MOST_SPLITS {
            return Err(AllocError);
        }
        self.list.push(split)?;
        Ok(place)
    }

    /// The place of a table of the last six columns that was made.
    fn known_table(&self, table: u64) -> Option<usize>
        ensures { (n : ℕ) → IfSome result (λ k. IsMadeAt n self.now.list.items k (λ vs. table_value table (last_columns vs))) }
    {
        let place = *self.tables.get(&table)?;
        if place >= self.list.len() || !is_table(self.list[place], table) {
            return None;
        }
        Some(place)
    }

    /// The place of a table of the last six columns.
    fn table(&mut self, table: u64) -> Result<usize, AllocError>
        ensures grows { OnOk result (Grows self.old.list.items self.new.list.items) }
        ensures made { (n : ℕ) → IfOk result (λ k. IsMadeAt n self.new.list.items k (λ vs. table_value table (last_columns vs))) }
    {
        if let Some(place) = self.known_table(table) {
            return Ok(place);
        }
        let place = self.add(Split::Table(table))?;
        match self.tables.insert(table, place) {
            Ok(_) => Ok(place),
            Err(_) => Err(AllocError),
        }
    }

    /// The place of a choice that was made.
    fn known_choice(&self, choice: Choice) -> Option<usize>
        ensures { IfSome result (λ k. IsChosenAt self.now.list.items self.now.list.items k choice) }
    {
        let place = *self.choices.get(&(choice.column, choice.high, choice.low))?;
        if choice.high >= place || choice.low >= place {
            return None;
        }
        if place >= self.list.len() || !is_choice(self.list[place], choice) {
            return None;
        }
        Some(place)
    }

    /// The place of a choice.
    fn choice(&mut self, choice: Choice) -> Result<usize, AllocError>
        requires { choice.high < length self.old.list.items }
        ensures grows { OnOk result (Grows self.old.list.items self.new.list.items) }
        ensures made { IfOk result (λ k. IsChosenAt self.old.list.items self.new.list.items k choice) }
    {
        if choice.high == choice.low {
            return Ok(choice.high);
        }
        if let Some(place) = self.known_choice(choice) {
            return Ok(place);
        }
        let place = self.add(Split::Choice(choice))?;
        let key = (choice.column, choice.high, choice.low);
        match self.choices.insert(key, place) {
            Ok(_) => Ok(place),
            Err(_) => Err(AllocError),
        }
    }
}

/// The table that has a value everywhere.
fn everywhere(value: bool) -> u64
    ensures { (vs : List Bool) → length vs ≤ 6 → table_value result vs ≡ value }
{
    if value { u64::MAX } else { 0 }
}

/// The table that is true where whether one of the rows matches six columns is `on`.
fn last_table(rows: &[&[u8]], on: bool) -> u64
    ensures { Tabulates result 6 (λ vs. agrees on (some_match (map (λ r. r.now) rows.now) vs)) }
{
    let matched = matching_table(rows, MOST_COLUMNS);
    if on { matched } else { !matched }
}

/// The place of the split that is true where whether one of the rows matches the columns from this
/// one on is `on`. It goes by Shannon's expansion, down to tables of the last six columns. Fails
/// where memory is refused, and where there are too many splits.
pub(crate) fn expand(
    alloc: Global,
    splits: &mut Splits,
    rows: &[&[u8]],
    column: usize,
    columns: usize,
    on: bool,
) -> Result<usize, AllocError>
    requires { column + 6 ≤ columns }
    ensures grows { OnOk result (Grows splits.old.list.items splits.new.list.items) }
    ensures made { IfOk result (λ k. IsMadeAt columns splits.new.list.items k (λ vs. agrees on (some_match (map (λ r. r.now) rows.now) (drop column vs)))) }
{
    if rows.is_empty() {
        return splits.table(everywhere(!on));
    }
    if has_free_row(rows) {
        return splits.table(everywhere(on));
    }
    if columns - column == MOST_COLUMNS {
        return splits.table(last_table(rows, on));
    }
    let both = cofactors(alloc, rows)?;
    if !both.differ {
        return expand(alloc, splits, &both.when_true, column + 1, columns, on);
    }
    let high = expand(alloc, splits, &both.when_true, column + 1, columns, on)?;
    let low = expand(alloc, splits, &both.when_false, column + 1, columns, on)?;
    splits.choice(Choice { column, high, low })
}

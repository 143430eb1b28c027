//! Covers whose splits were made, so that instances of one model needn't make them again.
ghost use Rattle.std.specs.Prelude.{◌≡◌, ◌≤◌, ◌==◌, Bool, true, false, length, map, IfSome, IfOk};
ghost use Rattle.eqc_cover.specs.Splits.{CoverSplits, IsExpansionOf};

use crate::rows::plan_cover;
use crate::splits::{Split, Splits, expand};
use crate::table::MOST_COLUMNS;
use eqc_netlist::{Rows, is_on_set};
use std::alloc::{AllocError, Global};
use std::collections::BTreeMap;
use std::marker::Model;

/// A cover with fewer rows isn't kept.
const FEWEST_ROWS: usize = 16;

/// So many rows and splits are kept at most.
const MOST_KEPT: usize = 131_072;

/// The value of a cover as splits, of which the one at a place has it.
#[derive(Drop)]
pub struct Expansion {
    pub(crate) splits: Vec<Split>,
    pub(crate) place: usize,
}

/// A cover, and its value as splits.
#[derive(Drop)]
pub(crate) struct SplitCover {
    rows: Vec<Vec<u8>>,
    columns: usize,
    expansion: Expansion,
}

impl Model for SplitCover {
    ghost use Rattle.std.specs.Prelude.{ℕ, Bool, List, length, ◌≡◌, map};
    ghost use Rattle.eqc_cover.specs.Splits.{CoverSplits, IsExpansionOf};

    ghost Value = { CoverSplits };

    ghost view = { λ c. record { rows = map (λ r. r.items) c.rows.items; columns = c.columns; splits = c.expansion.splits.items; place = c.expansion.place } };

    ghost invariant = { λ c. IsExpansionOf (map (λ r. r.items) c.rows.items) c.columns c.expansion };
}

/// Whether a row of a cover that is kept is this one.
fn is_row(kept: &[u8], row: &[u8]) -> bool
    ensures { result ≡ true → kept.now ≡ row.now }
{
    kept == row
}

/// A copy of the rows of a cover.
fn copied(alloc: Global, rows: &Rows<'_>) -> Result<Vec<Vec<u8>>, AllocError>
    ensures { IfOk result (λ copy. map (λ r. r.items) copy.items ≡ rows.now) }
{
    let mut copy = Vec::with_capacity(alloc, rows.len())?;
    for k in 0..rows.len() {
        copy.push(Vec::from_slice(alloc, rows.get(k))?)?;
    }
    Ok(copy)
}

impl Expansion {
    /// The value of the cover of these rows over so many columns, of which there are at least six.
    /// None where it isn't expanded column by column, and where it has too many splits. Its rows
    /// are gone through a few times. Fails where memory is refused.
    pub fn of(
        alloc: Global,
        rows: &Rows<'_>,
        columns: usize,
    ) -> Result<Option<Expansion>, AllocError>
        requires columns { 6 ≤ columns }
        requires rows { (length rows.now == 0) ≡ false }
        ensures { IfOk result (λ made. IfSome made (IsExpansionOf rows.now columns)) }
    {
        let plan = plan_cover(alloc, rows, columns)?;
        if !plan.expands {
            return Ok(None);
        }
        let mut splits = Splits::none(alloc);
        let place = expand(alloc, &mut splits, &plan.rows, 0, columns, is_on_set(rows))?;
        Ok(Some(Expansion {
            splits: splits.list,
            place,
        }))
    }

    /// How many splits it has.
    pub fn size(&self) -> usize
        ensures { result ≡ length self.now.splits.items }
    {
        self.splits.len()
    }
}

impl SplitCover {
    /// The cover of these rows over so many columns, at least six. None where it isn't expanded,
    /// and where it has too many splits. Fails where memory is refused.
    fn of(alloc: Global, rows: &Rows<'_>, columns: usize) -> Result<Option<SplitCover>, AllocError>
        requires columns { 6 ≤ columns }
        requires rows { (length rows.now == 0) ≡ false }
        ensures { IfOk result (λ made. IfSome made (λ cover. (cover.rows ≡ rows.now) × (cover.columns ≡ columns))) }
    {
        let Some(expansion) = Expansion::of(alloc, rows, columns)? else {
            return Ok(None);
        };
        Ok(Some(SplitCover {
            rows: copied(alloc, rows)?,
            columns,
            expansion,
        }))
    }

    /// Its value as splits.
    fn expansion(&self) -> &Expansion
        ensures { IsExpansionOf self.now.rows self.now.columns result.now }
    {
        &self.expansion
    }

    /// How many rows and splits it has.
    fn size(&self) -> usize {
        self.rows.len().saturating_add(self.expansion.size())
    }

    /// Whether it is the cover of these rows over so many columns.
    fn is_of(&self, rows: &Rows<'_>, columns: usize) -> bool
        ensures { result ≡ true → (self.now.rows ≡ rows.now) × (self.now.columns ≡ columns) }
    {
        if self.columns != columns || self.rows.len() != rows.len() {
            return false;
        }
        for k in 0..rows.len() {
            if !is_row(&self.rows[k], rows.get(k)) {
                return false;
            }
        }
        true
    }
}

/// What is known of a cover that was met.
#[derive(Drop)]
enum Met {
    /// It was met once.
    Once,
    /// It isn't kept: it isn't expanded, or there was no room for its splits.
    Left,
    /// It is kept as splits.
    Split(SplitCover),
}

/// Covers that were met, each by a number, in an ordered table: a text may choose the numbers. One
/// that is met again is kept as splits from then on, if it is expanded and there is room.
#[derive(Drop)]
pub struct Covers {
    met: BTreeMap<u64, Met>,
    /// How many rows and splits there is room for.
    room: usize,
}

/// A number, and what a row says.
fn with_row(number: u64, row: &[u8]) -> u64 {
    let mut number = number;
    for byte in row {
        number = number.wrapping_mul(31).wrapping_add(*byte as u64);
    }
    number
}

/// A number for a cover, out of four of its rows. Covers that share it are told apart by all their
/// rows.
fn number_of(rows: &Rows<'_>, columns: usize) -> u64
    requires { (length rows.now == 0) ≡ false }
{
    let count = rows.len();
    let number = with_row((columns as u64).wrapping_add(count as u64), rows.get(0));
    let number = with_row(number, rows.get(count / 4));
    let number = with_row(number, rows.get(count / 2));
    with_row(number, rows.get(count - 1))
}

impl Covers {
    /// None.
    pub fn none(alloc: Global) -> Covers {
        Covers {
            met: BTreeMap::new(alloc),
            room: MOST_KEPT,
        }
    }

    /// What is kept of a cover of these rows over so many columns that was met before.
    fn split(&mut self, alloc: Global, rows: &Rows<'_>, columns: usize) -> Met
        requires columns { 6 ≤ columns }
        requires rows { (length rows.now == 0) ≡ false }
    {
        let Ok(Some(cover)) = SplitCover::of(alloc, rows, columns) else {
            return Met::Left;
        };
        let size = cover.size();
        if size > self.room {
            return Met::Left;
        }
        self.room -= size;
        Met::Split(cover)
    }

    /// Notes that a cover of these rows over so many columns, which has this number, is met. Fails
    /// where memory is refused.
    fn meet(
        &mut self,
        alloc: Global,
        rows: &Rows<'_>,
        columns: usize,
        number: u64,
    ) -> Result<(), AllocError>
        requires columns { 6 ≤ columns }
        requires rows { (length rows.now == 0) ≡ false }
    {
        let met = match self.met.get(&number) {
            None => Met::Once,
            Some(Met::Once) => self.split(alloc, rows, columns),
            Some(_) => return Ok(()),
        };
        match self.met.insert(number, met) {
            Ok(_) => Ok(()),
            Err(_) => Err(AllocError),
        }
    }

    /// The value of the cover of these rows over so many columns as splits, if it is kept. It is
    /// noted that it is met.
    pub(crate) fn splits_of(
        &mut self,
        alloc: Global,
        rows: &Rows<'_>,
        columns: usize,
    ) -> Option<&Expansion>
        requires { 6 ≤ columns }
        ensures { IfSome result (λ expansion. IsExpansionOf rows.now columns expansion.now) }
    {
        if rows.len() < FEWEST_ROWS {
            return None;
        }
        let number = number_of(rows, columns);
        self.meet(alloc, rows, columns, number).ok()?;
        match self.met.get(&number) {
            Some(Met::Split(cover)) if cover.is_of(rows, columns) => Some(cover.expansion()),
            _ => None,
        }
    }
}

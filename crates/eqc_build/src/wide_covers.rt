//! Covers that have more than six columns and very many rows as splits, so that their rows are gone
//! through once for all instances of a model.
ghost use Rattle.std.specs.Prelude.{◌≡◌, ◌+◌, ◌==◌, ◌<◌, ◌≤◌, false, [], length, slice_index_or, IfSome};
ghost use Rattle.eqc_cover.specs.Splits.{IsExpansionOf};
ghost use Rattle.eqc_build.specs.WideCovers.{IsMetOf};

use crate::moments::Moments;
use eqc_cover::Expansion;
use eqc_cover::table::MOST_COLUMNS;
use eqc_netlist::{Driver, Flat, Rows};
use eqc_pair::recall_laws;
use indexmap::IndexMap;
use std::alloc::{AllocError, Global};
use std::marker::Model;

/// A cover with so many rows or fewer isn't kept here: who builds diagrams compares them with those
/// that it met.
const FEW_ROWS: usize = 1_024;

/// So many splits of covers of a netlist are kept at most.
const MOST_SPLITS: usize = 131_072;

/// What is known of a cover.
#[derive(Drop)]
pub(crate) enum Met {
    /// It drives one signal.
    Once,
    /// It drives more, and isn't kept: it isn't expanded, or there was no room for its splits.
    Left,
    /// Its value over so many columns.
    Split(usize, Expansion),
}

/// Covers of a netlist with very many rows, each by the number that its rows have there. One that
/// drives several signals is kept as splits, if it is expanded and there is room. Contracts see the
/// netlist.
#[derive(Drop)]
pub(crate) struct WideCovers<'a> {
    flat: &'a Flat<'a>,
    met: IndexMap<u32, Met>,
    /// How many splits there is room for.
    room: usize,
}

impl<'a> Model for WideCovers<'a> {
    ghost use Rattle.eqc_netlist.specs.Graph.{FlatOf};
    ghost use Rattle.eqc_build.specs.WideCovers.{AreMetOf};

    ghost Value = { FlatOf };

    ghost view = { λ a. a.flat.now };

    ghost invariant = { λ a. AreMetOf a.flat.now a.met.entries };
}

/// What is kept of a cover that drives several signals.
fn split(alloc: Global, rows: &Rows<'_>, columns: usize, room: &mut usize) -> Met
    requires columns { 6 ≤ columns }
    requires rows { (length rows.now == 0) ≡ false }
    ensures { IsMetOf rows.now result }
{
    if *room == 0 {
        return Met::Left;
    }
    let Ok(Some(expansion)) = Expansion::of(alloc, rows, columns) else {
        return Met::Left;
    };
    let size = expansion.size();
    if size > *room {
        // No more is made that may have to be thrown away.
        *room = 0;
        return Met::Left;
    }
    *room -= size;
    Met::Split(columns, expansion)
}

impl<'a> WideCovers<'a> {
    /// None of them.
    pub(crate) fn none(alloc: Global, flat: &'a Flat<'a>) -> WideCovers<'a>
        ensures { result ≡ flat.now }
    {
        WideCovers {
            flat,
            met: IndexMap::new(alloc),
            room: MOST_SPLITS,
        }
    }

    /// Notes the cover that drives a signal, where it has many columns and very many rows. Fails
    /// where memory is refused.
    fn note(&mut self, alloc: Global, s: u32) -> Result<(), AllocError>
        requires { s < length self.old.drivers }
        ensures { self.new ≡ self.old }
    {
        let flat = self.flat;
        recall_laws(flat);
        let Driver::Cover { columns, rows } = flat.driver(s) else {
            return Ok(());
        };
        let columns = columns.len();
        let cover = flat.rows(rows);
        if columns <= MOST_COLUMNS || cover.len() <= FEW_ROWS {
            return Ok(());
        }
        let met = match self.met.get(&rows) {
            None => Met::Once,
            Some(Met::Once) => split(alloc, cover, columns, &mut self.room),
            Some(_) => return Ok(()),
        };
        match self.met.insert(rows, met) {
            Ok(_) => Ok(()),
            Err(_) => Err(AllocError),
        }
    }

    /// Notes the covers that drive the signals whose steps are used, by their last moments; those
    /// of the netlist begin at `start`. Fails where memory is refused.
    fn note_used(&mut self, alloc: Global, last: &Moments, start: u32) -> Result<(), AllocError>
        requires within { start + length self.old.drivers ≤ length last.now }
        requires few { start ≤ 2097152 }
        ensures { self.new ≡ self.old }
    {
        let flat = self.flat;
        recall_laws(flat);
        for k in 0..flat.steps().len() as u32 {
            if last.at(start + k) > 0 {
                self.note(alloc, flat.steps()[k as usize])?;
            }
        }
        Ok(())
    }

    /// Keeps those that drive several signals whose steps are used, by their last moments; those of
    /// the netlist begin at `start`. It takes time in proportion to the signals, and to what
    /// building each such cover once takes without diagrams. Where memory is refused some are
    /// missing.
    pub(crate) fn keep_used(&mut self, alloc: Global, last: &Moments, start: u32)
        requires within { start + length self.old.drivers ≤ length last.now }
        requires few { start ≤ 2097152 }
        ensures { self.new ≡ self.old }
    {
        let _ = self.note_used(alloc, last, start);
    }

    /// The value of the cover with these rows, by their number, over so many columns, if it is
    /// kept.
    pub(crate) fn known(&self, rows: u32, columns: usize) -> Option<&Expansion>
        ensures { IfSome result (λ expansion. IsExpansionOf (slice_index_or self.now.rows rows []) columns expansion.now) }
    {
        // Most netlists have no such cover, and then nothing is looked for.
        if self.met.is_empty() {
            return None;
        }
        match self.met.get(&rows) {
            Some(Met::Split(count, expansion)) if *count == columns => Some(expansion),
            _ => None,
        }
    }
}

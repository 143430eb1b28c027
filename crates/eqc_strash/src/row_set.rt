//! The rows of the covers of both netlists, each once, so that equal rows have one number.
ghost use Rattle.std.specs.Prelude.{◌≡◌, ℕ, ◌<◌, ◌≤◌, [], IfOk, IfErr, length};
ghost use Rattle.eqc_netlist.specs.Graph.{driver_at};
ghost use Rattle.eqc_netlist.specs.Drivers.{driver_of};
ghost use Rattle.eqc_strash.specs.Tables.{AreApart, Grows, Stands};
ghost use Rattle.eqc_strash.specs.Numbering.{rows_until, AreRowClasses};

use crate::rows_key::RowsKey;
use eqc_netlist::{Driver, Flat, Key, Rows};
use indexmap::IndexSet;
use std::alloc::{AllocError, Global};
use std::marker::Model;

/// Rows of covers, all of them different. Contracts see their list.
#[derive(Drop)]
pub(crate) struct RowSet<'a> {
    keys: IndexSet<RowsKey<'a>, Key>,
}

impl<'a> Model for RowSet<'a> {
    ghost use Rattle.std.specs.Prelude.{List, ℕ, []};
    ghost use Rattle.eqc_strash.specs.Tables.{AreApart};

    ghost Value = { List (List (List ℕ)) };

    ghost view = { λ a. a.keys.keys };

    ghost invariant = { λ a. AreApart [] a.keys.keys };
}

/// How many rows by their numbers there are up to those of a driver.
fn rows_until(driver: Driver<'_>) -> usize
    ensures count { result ≡ rows_until (driver_of driver.entry) }
    ensures small { result ≤ 4294967296 }
{
    match driver {
        Driver::Cover { rows, .. } => rows as usize + 1,
        _ => 0,
    }
}

/// How many rows by their numbers a netlist has up to the last that a driver names.
fn rows_named(flat: &Flat<'_>) -> usize
    ensures within { result ≤ length flat.now.rows }
    ensures small { result ≤ 4294967296 }
    ensures named { (s : ℕ) → s < length flat.now.drivers → rows_until (driver_at flat.now s) ≤ result }
{
    let signals = flat.steps().len();
    let mut count = 0;
    for s in 0..signals {
        count = rows_until(flat.driver(s as u32)).max(count);
    }
    count
}

impl<'a> RowSet<'a> {
    /// A set without rows, which are looked up by this key.
    pub(crate) fn new(alloc: Global, key: Key) -> RowSet<'a>
        ensures { result ≡ [] }
    {
        RowSet {
            keys: IndexSet::with_hasher(alloc, key),
        }
    }

    /// Puts rows in, unless they are there, and answers where they stand. Fails where memory is
    /// refused, and where there are more than memory has room for.
    fn place(&mut self, rows: &'a Rows<'a>) -> Result<u32, AllocError>
        ensures kept { Grows [] self.old self.new 1 }
        ensures place { IfOk result (λ place. Stands [] self.new place rows.now) }
    {
        let (place, _) = self.keys.insert_full(RowsKey::of(rows))?;
        if place > u32::MAX as usize {
            return Err(AllocError);
        }
        Ok(place as u32)
    }

    /// Puts all rows in that a driver of a netlist names, and answers where they stand, by their
    /// numbers. Fails where memory is refused.
    pub(crate) fn places(
        &mut self,
        alloc: Global,
        flat: &'a Flat<'a>,
    ) -> Result<Vec<u32>, AllocError>
        ensures kept { IfOk result (λ places. Grows [] self.old self.new (length places.items)) }
        ensures places { IfOk result (λ places. AreRowClasses flat.now self.new places.items) }
    {
        let count = rows_named(flat);
        let mut places = Vec::with_capacity(alloc, count)?;
        for r in 0..count {
            let place = self.place(flat.rows(r as u32))?;
            places.push(place)?;
        }
        Ok(places)
    }

    /// That all rows differ, for a proof of the caller: it does nothing.
    pub(crate) fn recall_apart(&self)
        ensures { AreApart [] self.now }
    {
        let _count = self.keys.len();
    }
}

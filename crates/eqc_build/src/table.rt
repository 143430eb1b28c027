//! The references of steps, put in when a diagram is built and given back when it is used no more.
ghost use Rattle.std.specs.Prelude.{◌≡◌, ℕ, ◌<◌, length, IfOk, IfErr, OnOk, OnErr, IsSome, Some, None, nat_eq, slice_index, slice_set, []};
ghost use Rattle.std.specs.Option.{option_copied};
ghost use Rattle.indexmap.specs.IndexMap.{get};
ghost use Rattle.eqc_tree.specs.Holding.{IsHeld, Loses};
ghost use Rattle.eqc_build.specs.Building.{Moves, OwnsTable, Empties, Fills, reference_of};
ghost use Rattle.eqc_build.specs.Listed.{listed, references_in, AreInside};

use eqc_tree::{References, Stop};
use indexmap::IndexMap;
use std::alloc::{AllocError, Global};
use std::marker::Model;

/// The references of the steps of a pair. Contracts see a list with a place for each step.
pub(crate) struct Table<X> {
    entries: Entries<X>,
}

/// How they are kept.
pub(crate) enum Entries<X> {
    /// A place for each step.
    Each(Vec<Option<X>>),
    /// Those of the steps that have one, of so many.
    Few(IndexMap<u32, X>, usize),
}

impl<X> Model for Table<X> {
    ghost use Rattle.std.specs.Prelude.{List, Option};
    ghost use Rattle.eqc_build.specs.Listed.{references_in, AreInside};

    ghost Value = { List (Option X) };

    ghost view = { λ t. references_in t.entries };

    ghost invariant = { λ t. AreInside t.entries };
}

/// No reference, with a place for each of `count` steps.
fn places<X>(alloc: Global, count: usize) -> Result<Vec<Option<X>>, AllocError>
    ensures size { IfOk result (λ table. length table.items ≡ count) }
    ensures none { IfOk result (λ table. (s : ℕ) → reference_of table.items s ≡ None) }
{
    let mut table: Vec<Option<X>> = Vec::with_capacity(alloc, count)?;
    for i in 0..count {
        let _ = i;
        table.push(None).unwrap();
    }
    Ok(table)
}

/// The reference of a step.
fn found<X>(entries: &Entries<X>, s: u32) -> Option<&X>
    requires { s < length (references_in entries.now) }
    ensures { option_copied result ≡ reference_of (references_in entries.now) s }
{
    match entries {
        Entries::Each(table) => table[s as usize].as_ref(),
        Entries::Few(table, _) => table.get(&s),
    }
}

/// The number of places.
fn count<X>(entries: &Entries<X>) -> usize
    ensures { result ≡ length (references_in entries.now) }
{
    match entries {
        Entries::Each(table) => table.len(),
        Entries::Few(_, count) => *count,
    }
}

/// Puts a reference in, and answers what was there for the step. Where memory is refused the
/// reference comes back.
fn replaced<X>(entries: &mut Entries<X>, s: u32, reference: X) -> Result<Option<X>, X>
    requires within { s < length (references_in entries.old) }
    requires inside { AreInside entries.old }
    ensures inside { AreInside entries.new }
    ensures before { IfOk result (λ before. before ≡ reference_of (references_in entries.old) s) }
    ensures ok { OnOk result (references_in entries.new ≡ slice_set (references_in entries.old) s (Some reference)) }
    ensures back { IfErr result (λ back. back ≡ reference) }
    ensures err { OnErr result (references_in entries.new ≡ references_in entries.old) }
{
    match entries {
        Entries::Each(table) => Ok(table[s as usize].replace(reference)),
        Entries::Few(table, _) => match table.insert(s, reference) {
            Ok(before) => Ok(before),
            Err(refused) => Err(refused.value.1),
        },
    }
}

/// Takes the reference of a step out.
fn taken<X>(entries: &mut Entries<X>, s: u32) -> Option<X>
    requires within { s < length (references_in entries.old) }
    requires inside { AreInside entries.old }
    ensures inside { AreInside entries.new }
    ensures before { result ≡ reference_of (references_in entries.old) s }
    ensures after { references_in entries.new ≡ slice_set (references_in entries.old) s None }
{
    match entries {
        Entries::Each(table) => table[s as usize].take(),
        Entries::Few(table, _) => table.swap_remove(&s),
    }
}

impl<X> Table<X> {
    /// No reference, with a place for each of `count` steps.
    pub(crate) fn of_each(alloc: Global, count: usize) -> Result<Table<X>, AllocError>
        ensures size { IfOk result (λ table. length table ≡ count) }
        ensures none { IfOk result (λ table. (s : ℕ) → reference_of table s ≡ None) }
    {
        Ok(Table {
            entries: Entries::Each(places(alloc, count)?),
        })
    }

    /// No reference, where few of `count` steps get one: its memory is in proportion to those.
    pub(crate) fn of_few(alloc: Global, count: usize) -> Table<X>
        ensures size { length result ≡ count }
        ensures none { (s : ℕ) → reference_of result s ≡ None }
    {
        Table {
            entries: Entries::Few(IndexMap::new(alloc), count),
        }
    }

    /// The number of steps.
    pub(crate) fn len(&self) -> usize
        ensures { result ≡ length self.now }
    {
        count(&self.entries)
    }

    /// The reference of a step, if it has one.
    pub(crate) fn get(&self, s: u32) -> Option<&X>
        requires { s < length self.now }
        ensures { option_copied result ≡ reference_of self.now s }
    {
        found(&self.entries, s)
    }

    /// Puts a reference in, and answers what was there for the step. Where memory is refused the
    /// reference comes back.
    fn replace(&mut self, s: u32, reference: X) -> Result<Option<X>, X>
        requires { s < length self.old }
        ensures before { IfOk result (λ before. before ≡ reference_of self.old s) }
        ensures ok { OnOk result (self.new ≡ slice_set self.old s (Some reference)) }
        ensures back { IfErr result (λ back. back ≡ reference) }
        ensures err { OnErr result (self.new ≡ self.old) }
    {
        replaced(&mut self.entries, s, reference)
    }

    /// Takes the reference of a step out.
    fn take(&mut self, s: u32) -> Option<X>
        requires { s < length self.old }
        ensures before { result ≡ reference_of self.old s }
        ensures after { self.new ≡ slice_set self.old s None }
    {
        taken(&mut self.entries, s)
    }
}

/// The reference of a step that has one.
pub(crate) fn reference_at<X>(table: &Table<X>, s: u32) -> &X
    requires within { s < length table.now }
    requires some { IsSome (reference_of table.now s) }
    ensures { reference_of table.now s ≡ Some result.now }
{
    table.get(s).unwrap()
}

/// Puts a reference into the table; one that was there for the step is given back. Where memory is
/// refused it is the new one that is given back. The error is `Memory` alone.
#[tactic(auto, using(crate::proofs::TableLaws::owned_held, crate::proofs::TableLaws::filled, crate::proofs::TableLaws::filled_none))]
pub(crate) fn put<D: References>(
    d: &mut D,
    table: &mut Table<D::Ref>,
    s: u32,
    reference: D::Ref,
) -> Result<(), Stop>
    requires within { s < length table.old }
    requires owned { OwnsTable D.entry (D.holding d.old) table.old }
    requires held { IsHeld (D.holding d.old) (D.entry reference) }
    ensures ok { OnOk result (Fills D.entry (D.holding d.old) table.old (D.holding d.new) table.new s reference) }
    ensures lost { OnErr result (Loses (D.holding d.old) (D.holding d.new) (D.entry reference)) }
    ensures table { OnErr result (table.new ≡ table.old) }
    ensures only { IfErr result (λ s. s ≡ Stop.Memory) }
{
    match table.replace(s, reference) {
        Ok(None) => Ok(()),
        Ok(Some(before)) => {
            d.give_back(before);
            Ok(())
        }
        Err(reference) => {
            d.give_back(reference);
            Err(Stop::Memory)
        }
    }
}

/// Gives back the reference of a step, if it has one.
pub(crate) fn take_back<D: References>(d: &mut D, table: &mut Table<D::Ref>, s: u32)
    requires within { s < length table.old }
    requires owned { OwnsTable D.entry (D.holding d.old) table.old }
    ensures { Empties D.entry (D.holding d.old) table.old (D.holding d.new) table.new s }
{
    let Some(reference) = table.take(s) else {
        return;
    };
    d.give_back(reference);
}

/// Gives all references of a list back.
fn give_back_each<D: References>(d: &mut D, mut table: Vec<Option<D::Ref>>)
    requires { OwnsTable D.entry (D.holding d.old) table.items }
    ensures { Moves D.entry (D.holding d.old) table.items (D.holding d.new) [] }
{
    while let Some(entry) = table.pop() {
        if let Some(reference) = entry {
            d.give_back(reference);
        }
    }
    table.destroy_empty();
}

/// Gives all references of a map back, of so many steps.
fn give_back_few<D: References>(d: &mut D, mut table: IndexMap<u32, D::Ref>, count: usize)
    requires inside { (s : ℕ) → IsSome (get nat_eq table s) → s < count }
    requires owned { OwnsTable D.entry (D.holding d.old) (listed count (get nat_eq table)) }
    ensures { Moves D.entry (D.holding d.old) (listed count (get nat_eq table)) (D.holding d.new) [] }
{
    while let Some((_, reference)) = table.pop() {
        d.give_back(reference);
    }
    table.destroy_empty();
}

/// Gives all references of a table back.
pub(crate) fn give_back_all<D: References>(d: &mut D, table: Table<D::Ref>)
    requires { OwnsTable D.entry (D.holding d.old) table }
    ensures { Moves D.entry (D.holding d.old) table (D.holding d.new) [] }
{
    let Table { entries } = table;
    match entries {
        Entries::Each(table) => give_back_each(d, table),
        Entries::Few(table, count) => give_back_few(d, table, count),
    }
}

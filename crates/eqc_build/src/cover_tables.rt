//! Truth tables of covers that have few columns and many rows, so that these are gone through once
//! for all instances of a model.
ghost use Rattle.std.specs.Prelude.{◌≡◌, ◌<◌, nat_eq, Some, length, IfSome};
ghost use Rattle.std.specs.Map.{lookup};
ghost use Rattle.eqc_pair.specs.PairOf.{PairOf};
ghost use Rattle.eqc_build.specs.CoverTables.{AreTablesOf, ArePairTables, tables_in};

use eqc_cover::table::{MOST_COLUMNS, cover_table};
use eqc_netlist::{Driver, Flat};
use eqc_pair::{Pair, recall_laws};
use indexmap::IndexMap;
use std::alloc::{AllocError, Global};

/// A cover with so many rows or fewer has no table here: six columns have as many assignments, so
/// that going through its rows takes no longer than what is made of its table.
const FEW_ROWS: usize = 64;

/// The truth table of a cover.
#[derive(Drop, Clone, Copy)]
pub(crate) struct CoverTable {
    /// The number of its columns.
    pub(crate) columns: usize,
    /// The table, as those of `eqc_cover` are.
    pub(crate) table: u64,
}

/// Tables of covers of the netlists of a pair, each by the number that its rows have in its
/// netlist.
#[derive(Drop)]
pub(crate) struct PairTables {
    pub(crate) first: IndexMap<u32, CoverTable>,
    pub(crate) second: IndexMap<u32, CoverTable>,
    pub(crate) assumed: IndexMap<u32, CoverTable>,
}

/// Notes the table of the cover that drives a signal, where it has few columns, many rows and no
/// table yet. Fails where memory is refused.
fn note(flat: &Flat<'_>, s: u32, tables: &mut IndexMap<u32, CoverTable>) -> Result<(), AllocError>
    requires signal { s < length flat.now.drivers }
    requires tables { AreTablesOf flat.now tables.old.entries }
    ensures { AreTablesOf flat.now tables.new.entries }
{
    recall_laws(flat);
    let Driver::Cover { columns, rows } = flat.driver(s) else {
        return Ok(());
    };
    let columns = columns.len();
    let cover = flat.rows(rows);
    if columns > MOST_COLUMNS || cover.len() <= FEW_ROWS || tables.get(&rows).is_some() {
        return Ok(());
    }
    let table = cover_table(cover, columns);
    match tables.insert(rows, CoverTable { columns, table }) {
        Ok(_) => Ok(()),
        Err(_) => Err(AllocError),
    }
}

/// Notes the tables of the covers that drive the signals of a netlist. Fails where memory is
/// refused.
fn note_all(flat: &Flat<'_>, tables: &mut IndexMap<u32, CoverTable>) -> Result<(), AllocError>
    requires { AreTablesOf flat.now tables.old.entries }
    ensures { AreTablesOf flat.now tables.new.entries }
{
    recall_laws(flat);
    for s in 0..flat.steps().len() {
        note(flat, s as u32, tables)?;
    }
    Ok(())
}

/// The tables of the covers of a netlist. Where memory is refused some are missing.
fn tables_of(alloc: Global, flat: &Flat<'_>) -> IndexMap<u32, CoverTable>
    ensures { AreTablesOf flat.now result.entries }
{
    let mut tables = IndexMap::new(alloc);
    let _ = note_all(flat, &mut tables);
    tables
}

/// The table that is there for the cover with these rows, by their number, over so many columns.
pub(crate) fn table_at(tables: &IndexMap<u32, CoverTable>, rows: u32, columns: usize) -> Option<u64>
    ensures { IfSome result (λ t. lookup (nat_eq rows) tables.now.entries ≡ Some (record { columns = columns; table = t })) }
{
    // Most netlists have no table, and then nothing is looked for.
    if tables.is_empty() {
        return None;
    }
    let found = tables.get(&rows)?;
    if found.columns != columns {
        return None;
    }
    Some(found.table)
}

impl PairTables {
    /// No tables.
    pub(crate) fn none(alloc: Global) -> PairTables
        ensures { (p : PairOf) → ArePairTables p (tables_in result) }
    {
        PairTables {
            first: IndexMap::new(alloc),
            second: IndexMap::new(alloc),
            assumed: IndexMap::new(alloc),
        }
    }

    /// The tables of the covers of a pair that have at most six columns and more than 64 rows. It
    /// takes time in proportion to the signals and to the rows of these covers. Where memory is
    /// refused some are missing.
    pub(crate) fn of(alloc: Global, pair: &Pair<'_>) -> PairTables
        ensures { ArePairTables pair.now (tables_in result) }
    {
        let assumed = match pair.assumption() {
            Some(assumption) => tables_of(alloc, assumption),
            None => IndexMap::new(alloc),
        };
        PairTables {
            first: tables_of(alloc, pair.first()),
            second: tables_of(alloc, pair.second()),
            assumed,
        }
    }
}

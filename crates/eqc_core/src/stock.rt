//! The machine with which a replay begins.
ghost use Rattle.std.specs.Prelude.{◌≡◌, ◌≤◌, ◌^◌, map, IfOk};
ghost use Rattle.eqc_core.specs.State.{stocked, repeated, literals, slots_from, stripe_entries, literal_homes};
ghost use Rattle.eqc_core.specs.Machine.{state_of, home_of};

use crate::machine::Machine;
use crate::sizes::Sizes;
use crate::table::Table;
use crate::worker::Worker;
use eqc_tree::pack_node;
use std::alloc::{AllocError, Global};

// How many stripes the unique table has.
const STRIPES: u32 = 16;

// How many announcement words each worker has.
const ANNOUNCEMENTS: u32 = 4;

// How many boxes each worker has.
const BOXES: u32 = 16;

// A word n times.
fn repeat(alloc: Global, word: u64, n: u32) -> Result<Vec<u64>, AllocError>
    ensures { IfOk result (λ v. v.items ≡ repeated word n) }
{
    let mut words = Vec::new(alloc);
    for _k in 0..n {
        words.push(word)?;
    }
    Ok(words)
}

// As many announcements of nothing.
fn silence(alloc: Global, n: u32) -> Result<Vec<u32>, AllocError>
    ensures { IfOk result (λ v. v.items ≡ repeated 0 n) }
{
    let mut names = Vec::new(alloc);
    for _k in 0..n {
        names.push(0)?;
    }
    Ok(names)
}

// The node words of the literals of the first n variables.
fn literal_words(alloc: Global, n: u32) -> Result<Vec<u64>, AllocError>
    requires { n ≤ 2 ^ 16 }
    ensures { IfOk result (λ v. v.items ≡ literals 0 n) }
{
    let mut words = Vec::new(alloc);
    for k in 0..n {
        words.push(pack_node(k as u16, 0, 1))?;
    }
    Ok(words)
}

// The first n slots.
fn first_slots(alloc: Global, n: u32) -> Result<Vec<u32>, AllocError>
    requires { n ≤ 2 ^ 16 }
    ensures { IfOk result (λ v. v.items ≡ slots_from 2 n) }
{
    let mut slots = Vec::new(alloc);
    for k in 0..n {
        slots.push(k + 2)?;
    }
    Ok(slots)
}

// The table of a stripe, with those of the literals of the first n variables that stand in it.
fn literal_table(alloc: Global, s: u32, n: u32) -> Result<Table, AllocError>
    requires { n ≤ 2 ^ 16 }
    ensures { IfOk result (λ t. t.entries.items ≡ stripe_entries s 0 n) }
{
    let mut table = Table::empty(alloc);
    for k in 0..n {
        // The children of a literal are 0 and 1.
        if (k + 1) % STRIPES == s {
            table.insert(pack_node(k as u16, 0, 1), k + 2)?;
        }
    }
    Ok(table)
}

// The tables of all stripes, at home.
fn literal_tables(alloc: Global, n: u32) -> Result<Vec<Option<Table>>, AllocError>
    requires { n ≤ 2 ^ 16 }
    ensures { IfOk result (λ v. map home_of v.items ≡ literal_homes n) }
{
    let mut homes = Vec::new(alloc);
    for s in 0..STRIPES {
        let table = literal_table(alloc, s, n)?;
        homes.push(Some(table))?;
    }
    Ok(homes)
}

// Each variable's literal has a slot, which worker 0 holds once. Worker 0 is alone.
pub(crate) fn stock(
    alloc: Global,
    workers: u32,
    nodes: u32,
    cells: u32,
) -> Result<Machine, AllocError>
    requires workers { workers ≤ 2 ^ 16 }
    requires nodes { nodes ≤ 2 ^ 16 }
    ensures { IfOk result (λ m. state_of m ≡ stocked workers nodes cells) }
{
    let mut counts = repeat(alloc, 0, 2)?;
    let counted = repeat(alloc, 2, nodes)?;
    counts.extend_from_slice(&counted)?;
    let mut words = repeat(alloc, 0, 2)?;
    let literals = literal_words(alloc, nodes)?;
    words.extend_from_slice(&literals)?;
    let held = first_slots(alloc, nodes)?;
    let mut all = Vec::new(alloc);
    let first = Worker::first(alloc, held, ANNOUNCEMENTS)?;
    all.push(first)?;
    Ok(Machine {
        sizes: Sizes {
            workers,
            announcements: ANNOUNCEMENTS,
            names: nodes + 2,
            cells,
            variables: nodes,
        },
        announced: silence(alloc, workers * ANNOUNCEMENTS)?,
        counts,
        nodes: words,
        cells: repeat(alloc, 0, cells)?,
        boxes: repeat(alloc, 0, BOXES * workers)?,
        locks: repeat(alloc, 0, STRIPES)?,
        homes: literal_tables(alloc, nodes)?,
        workers: all,
    })
}

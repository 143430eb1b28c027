//! A new forest.
ghost use Rattle.std.specs.Prelude.{◌≡◌, ◌+◌, ◌≤◌, ◌^◌, map, IfOk};
ghost use Rattle.eqc_core.specs.State.{IsWithinLimits, slots_from};
ghost use Rattle.eqc_core.specs.Words.{announced_words};
ghost use Rattle.eqc_guard.specs.Rule.{beginner, sizes_of};

use crate::origin::Origin;
use crate::reference::Ref;
use crate::rule::{Rule, Stripe};
use crate::stock;
use crate::view::View;
use crate::worker::Worker;
use atomic_table::Table;
use eqc_core::Sizes;
use eqc_tree::Stop;
use std::alloc::{AllocError, Global};
use std::sync::Arc;

// Worker 0 of a new forest.
fn plant(alloc: Global, origin: Origin) -> Result<Worker, AllocError>
    requires limits { IsWithinLimits origin.sizes }
    requires words { origin.sizes.announcements ≤ 4 }
    requires announced { announced_words origin.sizes ≤ 256 }
    requires workers { origin.sizes.workers ≤ 64 }
    requires few { origin.literals ≤ 16 }
    requires names { origin.literals + 2 ≤ origin.sizes.names }
    requires variables { origin.literals ≤ origin.sizes.variables }
    ensures { IfOk result (λ worker. worker.known ≡ beginner origin.sizes origin.literals) }
{
    let words = stock::first_words(alloc, &origin.sizes, origin.literals)?;
    let maps = stock::stripes(alloc, origin.literals)?;
    let Ok((table, seat)) = Table::<Stripe, View, Origin, Rule, Global>::new(
        alloc,
        words.as_slice(),
        maps,
        &origin,
    ) else {
        return Err(AllocError);
    };
    let table = Arc::new(alloc, table)?;
    let held = u64::from(origin.literals);
    Ok(Worker::seated(alloc, table, seat, origin.sizes, 0, held, 1))
}

// The sizes of a forest, in which each worker has four announcement words.
fn sizes_for(vars: u32, nodes: u32, cells: u32, workers: u32) -> Sizes
    requires { nodes ≤ 1048574 }
    ensures { result ≡ sizes_of vars nodes cells workers }
{
    Sizes {
        workers,
        announcements: 4,
        names: nodes + 2,
        cells,
        variables: vars,
    }
}

/// A forest of diagrams that threads share.
pub struct Forest;

impl Forest {
    ghost use Rattle.std.specs.Prelude.{IfErr};

    /// Worker 0 of a new forest over `vars` variables, which holds nothing and is alone.
    ///
    /// There may be 1 to 1,048,574 nodes, 1 to 1,048,576 cells of the operation cache and 1 to 64
    /// workers. All words and maps that the forest will have are made here. The error is
    /// `Stop::Memory` alone.
    pub fn new(
        alloc: Global,
        vars: u16,
        nodes: u32,
        cells: u32,
        workers: u32,
    ) -> Result<Worker, Stop>
        requires nodes { (1 ≤ nodes) × (nodes ≤ 1048574) }
        requires cells { (1 ≤ cells) × (cells ≤ 1048576) }
        requires workers { (1 ≤ workers) × (workers ≤ 64) }
        ensures new { IfOk result (λ worker. worker.known ≡ beginner (sizes_of vars nodes cells workers) 0) }
        ensures only { IfErr result (λ s. s ≡ Stop.Memory) }
    {
        let sizes = sizes_for(u32::from(vars), nodes, cells, workers);
        Ok(plant(alloc, Origin { sizes, literals: 0 })?)
    }

    /// Worker 0 of a new forest with as many variables as nodes, each slot having the literal of a
    /// variable: variable i has the slot 2 + i. The worker holds each once, and has their
    /// references in this order. It is alone and at rest, and all cells are empty.
    ///
    /// There may be 1 to 64 workers, 1 to 16 nodes and 1 to 16 cells. The one error is
    /// `Stop::Memory`.
    pub fn stocked(
        alloc: Global,
        workers: u32,
        nodes: u32,
        cells: u32,
    ) -> Result<(Worker, Vec<Ref>), Stop>
        requires workers { (1 ≤ workers) × (workers ≤ 64) }
        requires nodes { (1 ≤ nodes) × (nodes ≤ 16) }
        requires cells { (1 ≤ cells) × (cells ≤ 16) }
        ensures stocked { IfOk result (λ p. p.0.known ≡ beginner (sizes_of nodes nodes cells workers) nodes) }
        ensures references { IfOk result (λ p. map (λ r. r.number) p.1.items ≡ slots_from 2 nodes) }
        ensures only { IfErr result (λ s. s ≡ Stop.Memory) }
    {
        let sizes = sizes_for(nodes, nodes, cells, workers);
        let origin = Origin {
            sizes,
            literals: nodes,
        };
        let worker = plant(alloc, origin)?;
        let references = stock::literal_references(alloc, nodes)?;
        Ok((worker, references))
    }
}

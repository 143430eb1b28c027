//! Exclusive ors of inputs that no other output has: how many nodes they take, by one worker and by
//! two that share them.

use crate::ends::holds;
use crate::workers::{Held, Way, gives};
use eqc_check::NoGate;
use eqc_testing::input_names;
use std::alloc::{AllocError, Global};
use std::sync::Wait;
use std::thread::Threads;

/// The name of an output's input.
fn input(alloc: Global, output: u32, width: u32, place: u32) -> Result<String, AllocError> {
    let number = output.saturating_mul(width).saturating_add(place);
    format!(in alloc; "i{number}")
}

/// The head of a model, with so many outputs of so many inputs each.
fn head(
    alloc: Global,
    text: &mut String,
    name: &str,
    outputs: u32,
    width: u32,
) -> Result<(), AllocError> {
    let inputs = input_names(alloc, outputs.saturating_mul(width))?;
    text.push_str(&format!(in alloc; ".model {name};.inputs{inputs};.outputs")?)?;
    for k in 0..outputs {
        text.push_str(&format!(in alloc; " z{k}")?)?;
    }
    text.push_str(";")
}

/// What stands behind an input of an output's chain: the output behind its last one.
fn link(alloc: Global, output: u32, place: u32, is_last: bool) -> Result<String, AllocError> {
    if is_last {
        return format!(in alloc; "z{output}");
    }
    format!(in alloc; "t{output}_{place}")
}

/// An output as the exclusive or of its inputs, by a chain of covers of two columns.
fn chain(alloc: Global, text: &mut String, output: u32, width: u32) -> Result<(), AllocError> {
    let mut before = input(alloc, output, width, 0)?;
    for place in 1..width {
        let next = input(alloc, output, width, place)?;
        let behind = link(alloc, output, place, width - place == 1)?;
        text.push_str(&format!(in alloc; ".names {before} {next} {behind};10 1;01 1;")?)?;
        before = behind;
    }
    Ok(())
}

/// A model of so many chains.
fn chains(
    alloc: Global,
    text: &mut String,
    name: &str,
    outputs: u32,
    width: u32,
) -> Result<(), AllocError> {
    head(alloc, text, name, outputs, width)?;
    for k in 0..outputs {
        chain(alloc, text, k, width)?;
    }
    text.push_str(".end;")
}

/// A model of so many exclusive ors of three inputs, each by one cover.
fn covers(alloc: Global, text: &mut String, name: &str, outputs: u32) -> Result<(), AllocError> {
    head(alloc, text, name, outputs, 3)?;
    for k in 0..outputs {
        let a = input(alloc, k, 3, 0)?;
        let b = input(alloc, k, 3, 1)?;
        let c = input(alloc, k, 3, 2)?;
        text.push_str(&format!(in alloc; ".names {a} {b} {c} z{k};100 1;010 1;001 1;111 1;")?)?;
    }
    text.push_str(".end;")
}

/// Covers and chains of 32 outputs.
fn covers_and_chains(alloc: Global) -> Result<String, AllocError> {
    let mut text = String::new(alloc);
    covers(alloc, &mut text, "f", 32)?;
    chains(alloc, &mut text, "g", 32, 3)?;
    Ok(text)
}

/// Whether one worker compares them within so many nodes.
fn are_compared_within<R: Threads + Wait + Sync>(
    rt: &R,
    alloc: Global,
    nodes: u32,
) -> Result<bool, AllocError> {
    let text = covers_and_chains(alloc)?;
    let way = Way::Within(1, nodes);
    gives(rt, alloc, &text, way, &NoGate, "equivalent;")
}

/// All outputs together take more nodes than there is room for, so nodes of outputs that were
/// compared are taken back.
#[test]
fn nodes_are_taken_back(rt: HostRuntime) {
    let nodes = 150;
    holds(&rt, are_compared_within(&rt, rt.alloc(), nodes), nodes);
}

/// So many chains of eight inputs each, twice.
fn twice(alloc: Global, outputs: u32) -> Result<String, AllocError> {
    let mut text = String::new(alloc);
    chains(alloc, &mut text, "f", outputs, 8)?;
    chains(alloc, &mut text, "g", outputs, 8)?;
    Ok(text)
}

/// Whether so many chains, twice, are reported so.
fn are_reported<R: Threads + Wait + Sync>(
    rt: &R,
    alloc: Global,
    outputs: u32,
    way: Way,
    report: &str,
) -> Result<bool, AllocError> {
    let text = twice(alloc, outputs)?;
    gives(rt, alloc, &text, way, &NoGate, report)
}

/// The least number of nodes with which one worker compares 64 chains, as a search over runs found
/// it.
const LEAST: u32 = 39;

#[test]
fn one_worker_takes_as_many_nodes_as_an_output_does(rt: HostRuntime) {
    for (nodes, report) in [(LEAST, "equivalent;"), (LEAST - 1, "stopped 71;")] {
        let way = Way::Within(1, nodes);
        holds(&rt, are_reported(&rt, rt.alloc(), 64, way, report), report);
    }
}

/// A worker that has nothing to compare takes no nodes.
#[test]
fn a_worker_without_outputs_takes_no_nodes(rt: HostRuntime) {
    let way = Way::Within(2, LEAST + 8);
    let found = are_reported(&rt, rt.alloc(), 1, way, "equivalent;");
    holds(&rt, found, "an output of two workers");
}

/// Whether one of so many runs on a text by two workers, which compare the first two outputs at
/// once, is reported so.
fn is_met<R: Threads + Wait + Sync>(
    rt: &R,
    alloc: Global,
    text: &str,
    turns: u32,
    nodes: u32,
    report: &str,
) -> Result<bool, AllocError> {
    for _ in 0..turns {
        let gate = Held::new();
        if gives(rt, alloc, text, Way::Within(2, nodes), &gate, report)? {
            return Ok(true);
        }
    }
    Ok(false)
}

/// The same on 64 chains, twice.
fn is_met_by_chains<R: Threads + Wait + Sync>(
    rt: &R,
    alloc: Global,
    turns: u32,
    nodes: u32,
    report: &str,
) -> Result<bool, AllocError> {
    let text = twice(alloc, 64)?;
    is_met(rt, alloc, &text, turns, nodes, report)
}

/// How many runs there are, within how many nodes, and a report that one of them has.
static RUNS: &[(u32, u32, &str)] = &[
    (1_000, LEAST, "stopped 71;"),
    (10, 2 * LEAST + 64, "equivalent;"),
];

/// Two workers take their nodes out of one store, and need more than one worker does.
#[test]
fn two_workers_share_their_nodes(rt: HostRuntime) {
    for (turns, nodes, report) in RUNS {
        let found = is_met_by_chains(&rt, rt.alloc(), *turns, *nodes, report);
        holds(&rt, found, report);
    }
}

/// By whom chains are compared that need more than the 16 nodes of a store.
static WAYS: &[Way] = &[Way::Workers(1), Way::Workers(2), Way::Members];

/// Calls on pairs build the diagrams of outputs of equal structures too.
#[test]
fn calls_on_pairs_build_diagrams_of_equal_structures(rt: HostRuntime) {
    for (k, way) in WAYS.iter().enumerate() {
        let found = are_reported(&rt, rt.alloc(), 1, *way, "stopped 71;");
        holds(&rt, found, k);
    }
}

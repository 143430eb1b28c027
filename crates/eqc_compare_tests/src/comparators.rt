//! Comparators of two numbers, whose outputs share one chain: a link of it is used by the next one
//! alone, so one worker holds few of them at a time, also where the chain's end is needed once
//! more.

use crate::ends::holds;
use crate::workers::{Way, gives};
use eqc_check::NoGate;
use eqc_testing::input_names;
use std::alloc::{AllocError, Global};
use std::sync::Wait;
use std::thread::Threads;

/// How many bits a number has.
const BITS: u32 = 100;

/// Whether the first number is less, and whether it isn't, from the lowest bit on. A link is the
/// majority of three, by these rows. In the order of the inputs no link's diagram is part of the
/// next one's.
fn comparator(alloc: Global, name: &str, rows: &str) -> Result<String, AllocError> {
    let inputs = input_names(alloc, 2 * BITS)?;
    let mut text = format!(in alloc; ".model {name};.inputs{inputs};.outputs z0 z1;.names c0;")?;
    for k in 0..BITS {
        let (a, b, next) = (2 * k, 2 * k + 1, k + 1);
        text.push_str(&format!(in alloc; ".names i{a} i{b} c{k} c{next};{rows}")?)?;
    }
    text.push_str(&format!(in alloc; ".names c{BITS} z0;1 1;.names c{BITS} z1;0 1;.end;")?)?;
    Ok(text)
}

/// Two comparators, by the rows under which a link is true, and by those under which it is false.
fn comparators(alloc: Global) -> Result<String, AllocError> {
    let first = comparator(alloc, "f", "01- 1;0-1 1;-11 1;")?;
    let second = comparator(alloc, "g", "10- 0;1-0 0;-00 0;")?;
    format!(in alloc; "{first}{second}")
}

/// Whether so many workers find them equal within so many nodes.
fn are_equal_within(
    rt: &(impl AllocGlobal + Threads + Wait + Sync),
    workers: u32,
    nodes: u32,
) -> Result<bool, AllocError> {
    let text = comparators(rt.alloc())?;
    let way = Way::Within(workers, nodes);
    gives(rt, rt.alloc(), &text, way, &NoGate, "equivalent;")
}

/// All links together have more than 15,000 nodes.
#[test]
fn links_are_given_back_with_their_last_user(rt: HostRuntime) {
    for (workers, nodes) in [(1, 4_096), (2, 8_192)] {
        holds(&rt, are_equal_within(&rt, workers, nodes), nodes);
    }
}

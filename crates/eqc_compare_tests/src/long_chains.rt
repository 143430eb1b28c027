//! Chains of very many covers: a run sees by their structure that they are equal, and the calls on
//! pairs build all of them, neither with a recursion that would be as deep.

use crate::ends::holds;
use crate::workers::{Way, gives};
use eqc_check::{NoGate, Options, Texts, run};
use eqc_pair_testing::{Ask, is_ordered_answer};
use eqc_testing::{Feed, input_names, is_text};
use std::alloc::{AllocError, Global};
use std::sync::Wait;
use std::thread::Threads;

/// How many buffers stand in series.
const BUFFERS: u32 = 100_000;

/// Buffers in series from this signal to `z`, with `b1` behind the first one.
fn buffers(alloc: Global, from: &str) -> Result<String, AllocError> {
    let mut text = format!(in alloc; ".names {from} b1;1 1;")?;
    for k in 1..BUFFERS - 1 {
        let next = k + 1;
        text.push_str(&format!(in alloc; ".names b{k} b{next};1 1;")?)?;
    }
    let last = BUFFERS - 1;
    text.push_str(&format!(in alloc; ".names b{last} z;1 1;")?)?;
    Ok(text)
}

/// Buffers in series from this signal on, and one buffer.
fn many_and_one(alloc: Global, from: &str) -> Result<String, AllocError> {
    let many = buffers(alloc, from)?;
    format!(in alloc;
        ".model f;.inputs a;.outputs z;{many}.end;.model g;.inputs a;.outputs z;.names a z;1 1;.end;"
    )
}

/// How many inputs a parity has.
const WIDTH: u32 = 64;

/// A model of the parity of all inputs, by a chain of covers, which the row inverts.
fn parity(alloc: Global, name: &str, row: &str) -> Result<String, AllocError> {
    let inputs = input_names(alloc, WIDTH)?;
    let mut text = format!(in alloc; ".model {name};.inputs{inputs};.outputs z;.names i0 t0;1 1;")?;
    for k in 1..WIDTH {
        let before = k - 1;
        text.push_str(&format!(in alloc; ".names t{before} i{k} t{k};10 1;01 1;")?)?;
    }
    let last = WIDTH - 1;
    text.push_str(&format!(in alloc; ".names t{last} z;{row};.end;")?)?;
    Ok(text)
}

/// Parities that are inverted in two ways.
fn parities(alloc: Global) -> Result<String, AllocError> {
    let first = parity(alloc, "f", "0 1")?;
    let second = parity(alloc, "g", "1 0")?;
    format!(in alloc; "{first}{second}")
}

/// Whether a run on a text writes this report.
fn reports(rt: &(impl AllocGlobal + Threads + Wait + Sync), text: &str, report: &str) -> bool {
    let options = Options {
        workers: 2,
        nodes: 65_536,
        cells: 8_192,
        forks: 0,
        conflicts: 100_000,
        inputs: 2_048,
        bytes: 16_777_216,
        every: false,
    };
    let mut out = Vec::new(rt.alloc());
    let texts = Texts::One(Feed::whole(text));
    let done = run(rt, rt.alloc(), texts, None, None, &options, &mut out);
    done.is_ok() && is_text(&out, report)
}

/// Whether two netlists are equal by a run, by workers, by two members, and output by output, in
/// stores of so many nodes.
fn are_equal(
    rt: &(impl AllocGlobal + Threads + Wait + Sync),
    text: &str,
    nodes: u32,
) -> Result<bool, AllocError> {
    let alloc = rt.alloc();
    let by_workers = Way::Within(2, nodes);
    let one = Ask::Output(0, nodes);
    Ok(
        reports(rt, text, "equivalent;")
            && gives(rt, alloc, text, by_workers, &NoGate, "equivalent;")?
            && is_ordered_answer(rt, alloc, text, "", one, "none")?,
    )
}

#[test]
fn buffers_in_series_are_one_buffer(rt: HostRuntime) -> Result<(), AllocError> {
    let text = many_and_one(rt.alloc(), "a")?;
    holds(&rt, are_equal(&rt, &text, 16), "from the input on");
    Ok(())
}

#[test]
fn buffers_in_a_circle_are_refused(rt: HostRuntime) -> Result<(), AllocError> {
    let text = many_and_one(rt.alloc(), "b99999")?;
    let found = reports(&rt, &text, "refused first 0 28;");
    holds(&rt, Ok(found), "from the last but one on");
    Ok(())
}

#[test]
fn a_parity_may_be_inverted_in_two_ways(rt: HostRuntime) -> Result<(), AllocError> {
    let text = parities(rt.alloc())?;
    holds(&rt, are_equal(&rt, &text, 8_192), "64 inputs");
    Ok(())
}

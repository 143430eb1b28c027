//! Which products are shown equal inside a design.

use crate::ends::same;
use crate::factors::Factors;
use crate::gates::chosen;
use crate::multipliers::{Architecture, product};
use eqc_adders::Limits;
use eqc_numbers::{Words, are_equal_in_cases, are_shown_equal, find_lookalikes};
use eqc_sweep::{Effort, Sweep};
use eqc_xag::Graph;
use std::alloc::{AllocError, Global};

/// The first input that is no factor's.
const BEHIND: u32 = 1_000;

/// A product, one of three words as two inputs choose: the two others are inputs.
fn of_three(sweep: &mut Sweep, word: &mut Vec<u32>) -> Result<(), AllocError> {
    let first = sweep.input(BEHIND)?;
    let second = sweep.input(BEHIND + 1)?;
    let mut at = BEHIND + 2;
    for k in 0..word.len() {
        let one = sweep.input(at)?;
        let other = sweep.input(at.wrapping_add(1))?;
        at = at.wrapping_add(2);
        let either = chosen(sweep, second, word[k], one)?;
        word[k] = chosen(sweep, first, either, other)?;
    }
    Ok(())
}

/// A product of words of so many bits, behind the choice of two inputs.
fn designed(
    alloc: Global,
    sweep: &mut Sweep,
    width: u32,
    architecture: Architecture,
    fault: usize,
) -> Result<Vec<u32>, AllocError> {
    let mut word = product(alloc, sweep, Factors::Two(width), architecture, fault)?;
    of_three(sweep, &mut word)?;
    Ok(word)
}

/// Two words, with the limits of a whole run.
fn words<'a>(alloc: Global, firsts: &'a [u32], seconds: &'a [u32]) -> Words<'a> {
    Words {
        alloc,
        firsts,
        seconds,
        limits: Limits::of(100_000),
    }
}

/// How many literals of words inside are shown equal.
fn inside(alloc: Global, graph: &Graph, p: &[u32], q: &[u32]) -> Result<usize, AllocError> {
    let found = find_lookalikes(&words(alloc, p, q), graph)?;
    let mut count = 0usize;
    for word in &found {
        if are_shown_equal(&words(alloc, &word.firsts, &word.seconds), graph, 1)? {
            count = count.wrapping_add(word.firsts.len());
        }
    }
    Ok(count)
}

/// Whether words of a design are shown equal in cases, and whether some are inside.
fn compared(
    alloc: Global,
    width: u32,
    first: Architecture,
    second: Architecture,
    fault: usize,
) -> Result<(bool, bool), AllocError> {
    let mut sweep = Sweep::new(alloc, Effort::none())?;
    let p = designed(alloc, &mut sweep, width, first, 0)?;
    let q = designed(alloc, &mut sweep, width, second, fault)?;
    let is_equal = are_equal_in_cases(&words(alloc, &p, &q), sweep.graph())?;
    Ok((
        is_equal,
        inside(alloc, sweep.graph(), &p, &q)? > width as usize,
    ))
}

/// Designs, the width of their factors, the architectures of their products, an adder with another
/// carry, whether they are shown equal in cases, and whether more than half of their products is.
#[rattlefmt::skip]
static DESIGNS: &[(&str, u32, Architecture, Architecture, usize, (bool, bool))] = &[
    ("6 bits, chosen", 6, Architecture::Array, Architecture::Columns, 0, (true, true)),
    ("8 bits, chosen, recoded", 8, Architecture::Columns, Architecture::Booth, 0, (true, true)),
    ("6 bits, chosen, recoded, by rows", 6, Architecture::Array, Architecture::Booth, 0, (true, true)),
    ("6 bits, chosen, a wrong carry", 6, Architecture::Columns, Architecture::Array, 16, (false, false)),
];

#[test]
fn products_inside_are_shown_equal(rt: HostRuntime) -> Result<(), AllocError> {
    for (case, width, first, second, fault, shown) in DESIGNS {
        let found = compared(rt.alloc(), *width, *first, *second, *fault)?;
        same(&rt, found, *shown, *case);
    }
    Ok(())
}

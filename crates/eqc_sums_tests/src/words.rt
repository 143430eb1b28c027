//! Which products are shown equal.

use crate::ends::same;
use crate::factors::Factors;
use crate::gates::{and, xor};
use crate::multipliers::{Architecture, product};
use eqc_adders::{Limits, Sums, has_adders};
use eqc_numbers::{Shape, copy_shaped, words_of};
use eqc_sweep::{Effort, Sweep, copied};
use eqc_xag::negated;
use std::alloc::{AllocError, Global};

/// Two products in one graph.
fn products(
    alloc: Global,
    sweep: &mut Sweep,
    factors: Factors,
    first: Architecture,
    second: Architecture,
    fault: usize,
) -> Result<(Vec<u32>, Vec<u32>), AllocError> {
    let p = product(alloc, sweep, factors, first, 0)?;
    let q = product(alloc, sweep, factors, second, fault)?;
    Ok((p, q))
}

/// Whether two words are shown equal, and whether they are one anyway.
fn shown(sums: &mut Sums, p: &[u32], q: &[u32]) -> Result<(bool, bool), AllocError> {
    // What fails takes all steps that it may: these do for products of so few bits.
    let limits = Limits {
        steps: 20_000,
        ..Limits::of(100_000)
    };
    sums.find_adders(limits)?;
    Ok((sums.show(p, q, limits)?, p == q))
}

/// The same in a graph. It stands apart for its proof's sake: what is known of adders is let go in
/// one exit.
fn shown_in(alloc: Global, sweep: Sweep, p: &[u32], q: &[u32]) -> Result<(bool, bool), AllocError> {
    let mut sums = Sums::new(alloc, sweep);
    shown(&mut sums, p, q)
}

/// Whether two products are shown equal, and whether they are one anyway.
fn compared(
    alloc: Global,
    factors: Factors,
    first: Architecture,
    second: Architecture,
    fault: usize,
) -> Result<(bool, bool), AllocError> {
    let mut sweep = Sweep::new(alloc, Effort::of(3_000, 100_000_000))?;
    let (p, q) = products(alloc, &mut sweep, factors, first, second, fault)?;
    shown_in(alloc, sweep, p.as_slice(), q.as_slice())
}

/// Products: their factors, their architectures, an adder with another carry, whether they are
/// shown equal, and whether sweeping made them one.
#[rattlefmt::skip]
static PRODUCTS: &[(&str, Factors, Architecture, Architecture, usize, (bool, bool))] = &[
    ("4 bits, by columns", Factors::Two(4), Architecture::Array, Architecture::Columns, 0, (true, true)),
    ("6 bits, by columns", Factors::Two(6), Architecture::Array, Architecture::Columns, 0, (true, false)),
    ("8 bits, by columns", Factors::Two(8), Architecture::Array, Architecture::Columns, 0, (true, false)),
    ("8 bits, mapped", Factors::Two(8), Architecture::Array, Architecture::Mapped, 0, (true, false)),
    ("4 bits, recoded", Factors::Two(4), Architecture::Array, Architecture::Booth, 0, (true, true)),
    ("12 bits, a recoded square", Factors::Same(12), Architecture::Columns, Architecture::Booth, 0, (true, false)),
    ("4 bits, a wrong carry", Factors::Two(4), Architecture::Columns, Architecture::Array, 11, (false, false)),
    ("6 bits, a wrong carry", Factors::Two(6), Architecture::Columns, Architecture::Array, 16, (false, false)),
    ("8 bits, a wrong carry", Factors::Two(8), Architecture::Columns, Architecture::Array, 21, (false, false)),
];

#[test]
fn products_are_shown_equal(rt: HostRuntime) -> Result<(), AllocError> {
    for (case, factors, first, second, fault, shown) in PRODUCTS {
        let found = compared(rt.alloc(), *factors, *first, *second, *fault)?;
        same(&rt, found, *shown, *case);
    }
    Ok(())
}

#[test]
fn words_are_found(rt: HostRuntime) -> Result<(), AllocError> {
    let words = words_of(rt.alloc(), &["p[1]", "p[0]", "q", "p[2]"])?;
    same(&rt, words.len(), 1, "words");
    Ok(())
}

#[test]
fn adders_are_seen(rt: HostRuntime) -> Result<(), AllocError> {
    let mut sweep = Sweep::new(rt.alloc(), Effort::of(30, 100_000_000))?;
    let _ = product(
        rt.alloc(),
        &mut sweep,
        Factors::Two(6),
        Architecture::Array,
        0,
    )?;
    same(&rt, has_adders(rt.alloc(), &sweep)?, true, "6 bits");
    Ok(())
}

/// What two spans of columns make of a carry, and pass on, together: the upper one, and the lower
/// one.
fn joined(
    sweep: &mut Sweep,
    upper: (u32, u32),
    lower: (u32, u32),
) -> Result<(u32, u32), AllocError> {
    let passed = and(sweep, upper.1, lower.0)?;
    let none = and(sweep, negated(upper.0), negated(passed))?;
    Ok((negated(none), and(sweep, upper.1, lower.1)?))
}

/// What a column makes and passes on.
fn column(sweep: &mut Sweep, k: u32) -> Result<(u32, u32), AllocError> {
    let x = sweep.input(k)?;
    let y = sweep.input(k.wrapping_add(4))?;
    Ok((and(sweep, x, y)?, xor(sweep, x, y)?))
}

/// The carry of four columns by a tree of prefixes, or along a chain.
fn carry(sweep: &mut Sweep, is_tree: bool) -> Result<u32, AllocError> {
    let first = column(sweep, 0)?;
    let second = column(sweep, 1)?;
    let third = column(sweep, 2)?;
    let fourth = column(sweep, 3)?;
    let lower = joined(sweep, second, first)?;
    if is_tree {
        let upper = joined(sweep, fourth, third)?;
        return Ok(joined(sweep, upper, lower)?.0);
    }
    let lower = joined(sweep, third, lower)?;
    Ok(joined(sweep, fourth, lower)?.0)
}

/// The literal that a carry by a tree has in a copy with chains, and that of the same carry along a
/// chain there.
fn chained(
    alloc: Global,
    plain: &mut Sweep,
    sweep: &mut Sweep,
) -> Result<(Option<u32>, u32), AllocError> {
    let tree = carry(plain, true)?;
    let table = copy_shaped(alloc, plain.graph(), &[tree], sweep, Shape::Chains)?;
    Ok((copied(&table, tree), carry(sweep, false)?))
}

#[test]
fn trees_of_prefixes_become_chains(rt: HostRuntime) -> Result<(), AllocError> {
    let mut plain = Sweep::new(rt.alloc(), Effort::none())?;
    let mut sweep = Sweep::new(rt.alloc(), Effort::none())?;
    let (copy, chain) = chained(rt.alloc(), &mut plain, &mut sweep)?;
    same(&rt, copy, Some(chain), "four columns");
    Ok(())
}

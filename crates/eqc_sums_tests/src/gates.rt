//! Gates and adders in a graph, as they are made and as a mapping leaves them. Literals that are not the
//! graph's are taken for false.

use eqc_sweep::Sweep;
use eqc_xag::{negated, node_of};
use std::alloc::{AllocError, Global};

pub(crate) fn and(sweep: &mut Sweep, x: u32, y: u32) -> Result<u32, AllocError> {
    if node_of(x) >= sweep.graph().len() || node_of(y) >= sweep.graph().len() {
        return Ok(0);
    }
    sweep.and(x, y)
}

pub(crate) fn xor(sweep: &mut Sweep, x: u32, y: u32) -> Result<u32, AllocError> {
    if node_of(x) >= sweep.graph().len() || node_of(y) >= sweep.graph().len() {
        return Ok(0);
    }
    sweep.xor(x, y)
}

pub(crate) fn or(sweep: &mut Sweep, x: u32, y: u32) -> Result<u32, AllocError> {
    let neither = and(sweep, negated(x), negated(y))?;
    Ok(negated(neither))
}

/// A sum and a carry.
pub(crate) fn full(sweep: &mut Sweep, x: u32, y: u32, z: u32) -> Result<(u32, u32), AllocError> {
    let one = xor(sweep, x, y)?;
    let sum = xor(sweep, one, z)?;
    let both = and(sweep, x, y)?;
    let carried = and(sweep, one, z)?;
    let carry = or(sweep, both, carried)?;
    Ok((sum, carry))
}

/// One of two by another one.
pub(crate) fn chosen(sweep: &mut Sweep, by: u32, high: u32, low: u32) -> Result<u32, AllocError> {
    let first = and(sweep, by, high)?;
    let second = and(sweep, negated(by), low)?;
    or(sweep, first, second)
}

/// The carry of three, the first of which is one of two by another one.
fn carry_by(sweep: &mut Sweep, by: u32, one: u32, y: u32, z: u32) -> Result<u32, AllocError> {
    let (_, high) = full(sweep, negated(one), y, z)?;
    let (_, low) = full(sweep, one, y, z)?;
    chosen(sweep, by, high, low)
}

/// The carry of three whose sum isn't there, as a mapping leaves it: one of two by the first one.
pub(crate) fn carry_of(sweep: &mut Sweep, three: [u32; 3]) -> Result<u32, AllocError> {
    let [x, y, z] = three;
    let either = or(sweep, y, z)?;
    let both = and(sweep, y, z)?;
    chosen(sweep, x, either, both)
}

/// The sum and the carry of two with what three come to, as a mapping leaves them: the sum of these
/// three isn't there.
pub(crate) fn add_to_three(
    sweep: &mut Sweep,
    three: [u32; 3],
    u: u32,
    v: u32,
) -> Result<(u32, u32), AllocError> {
    let [x, y, z] = three;
    let first = xor(sweep, y, u)?;
    let second = xor(sweep, z, v)?;
    let third = xor(sweep, x, second)?;
    let sum = xor(sweep, first, third)?;
    let one = xor(sweep, y, z)?;
    Ok((sum, carry_by(sweep, x, one, u, v)?))
}

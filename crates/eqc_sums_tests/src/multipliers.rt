//! Multipliers in a graph.

use crate::columns::{at, columns, height, put, put_ones, take_away, taken};
use crate::factors::{Factors, Terms, terms_of};
use crate::gates::{add_to_three, and, carry_of, full, or, xor};
use crate::rows::{by_threes, whole};
use eqc_sweep::Sweep;
use eqc_xag::negated;
use std::alloc::{AllocError, Global};

/// How a product is summed up, and with which partial products.
#[derive(Clone, Copy, PartialEq, Eq, Debug)]
pub(crate) enum Architecture {
    /// Row by row, each by a chain of adders.
    Array,
    /// Column by column, three at a time, and a chain of adders at last.
    Columns,
    /// The same, five at a time where there are as many, by two adders as a mapping leaves them.
    Mapped,
    /// Three rows of all columns at a time, some with the next ones by two adders as a mapping leaves
    /// them.
    Rows,
    /// Column by column with the digits of one factor recoded, two bits at a time: of words without
    /// signs, whose product isn't taken away.
    Booth,
}

/// The conjunctions of all bits of two words, by columns, and what the product is taken away from.
fn partial(alloc: Global, sweep: &mut Sweep, terms: &Terms) -> Result<Vec<Vec<u32>>, AllocError> {
    let mut all = columns(alloc, terms.columns())?;
    let mut ones = columns(alloc, terms.columns())?;
    for column in 0..terms.from.len() {
        put(&mut all, column, at(terms.from.as_slice(), column))?;
    }
    for i in 0..terms.b.len() {
        for j in 0..terms.a.len() {
            let both = and(sweep, at(terms.a.as_slice(), j), at(terms.b.as_slice(), i))?;
            let column = i.saturating_add(j);
            if terms.is_less(j, i) {
                take_away(&mut all, &mut ones, column, both)?;
            } else {
                put(&mut all, column, both)?;
            }
        }
    }
    put_ones(&mut all, ones.as_slice())?;
    Ok(all)
}

/// The bits of a factor's digit of two bits: whether it is odd, whether twice the other factor
/// counts, and whether it is negative.
fn digit(
    sweep: &mut Sweep,
    low: u32,
    middle: u32,
    high: u32,
) -> Result<(u32, u32, u32), AllocError> {
    let one = xor(sweep, low, middle)?;
    let none = and(sweep, negated(middle), negated(low))?;
    let down = and(sweep, high, none)?;
    let all = and(sweep, middle, low)?;
    let up = and(sweep, negated(high), all)?;
    let two = or(sweep, down, up)?;
    Ok((one, two, high))
}

/// Puts a row of recoded digits, and what makes it a complement of two, into columns; ones that the
/// row goes on with into others.
fn put_recoded(
    sweep: &mut Sweep,
    a: &[u32],
    b: &[u32],
    place: usize,
    all: &mut Vec<Vec<u32>>,
    ones: &mut Vec<Vec<u32>>,
) -> Result<(), AllocError> {
    let low = if place == 0 { 0 } else { at(b, place - 1) };
    let (one, two, high) = digit(sweep, low, at(b, place), at(b, place.saturating_add(1)))?;
    for j in 0..a.len().saturating_add(1) {
        let single = and(sweep, one, at(a, j))?;
        let double = if j == 0 {
            0
        } else {
            and(sweep, two, at(a, j - 1))?
        };
        let either = or(sweep, single, double)?;
        let signed = xor(sweep, either, high)?;
        put(all, place.saturating_add(j), signed)?;
    }
    if high != 0 {
        // The row goes on with its sign: less 2^k, and the sign's complement there.
        let end = place.saturating_add(a.len()).saturating_add(1);
        take_away(all, ones, end, high)?;
        put(all, place, high)?;
    }
    Ok(())
}

/// The rows of recoded digits, by columns.
fn recoded(
    alloc: Global,
    sweep: &mut Sweep,
    a: &[u32],
    b: &[u32],
) -> Result<Vec<Vec<u32>>, AllocError> {
    let width = a.len().saturating_add(b.len());
    let mut all = columns(alloc, width)?;
    let mut ones = columns(alloc, width)?;
    for row in 0..b.len() / 2 + 1 {
        put_recoded(sweep, a, b, row.saturating_mul(2), &mut all, &mut ones)?;
    }
    put_ones(&mut all, ones.as_slice())?;
    Ok(all)
}

/// Puts the sum of five literals of a column, and the carries of two adders, of the first three and
/// of what they come to with the others, in their place.
fn add_five(sweep: &mut Sweep, all: &mut Vec<Vec<u32>>, column: usize) -> Result<(), AllocError> {
    let mut three = [0; 3];
    for k in 0..3 {
        three[k] = taken(all, column);
    }
    let u = taken(all, column);
    let v = taken(all, column);
    let first = carry_of(sweep, three)?;
    let (sum, second) = add_to_three(sweep, three, u, v)?;
    put(all, column, sum)?;
    put(all, column.saturating_add(1), first)?;
    put(all, column.saturating_add(1), second)
}

/// Sums up columns, three at a time, or five where they are mapped.
fn by_columns(
    alloc: Global,
    sweep: &mut Sweep,
    mut all: Vec<Vec<u32>>,
    is_mapped: bool,
) -> Result<Vec<u32>, AllocError> {
    let mut word = Vec::new(alloc);
    for column in 0..all.len() {
        for _turn in 0..height(&all, column) {
            if is_mapped && height(&all, column) > 4 {
                add_five(sweep, &mut all, column)?;
            } else if height(&all, column) > 1 {
                let x = taken(&mut all, column);
                let y = taken(&mut all, column);
                let z = taken(&mut all, column);
                let (sum, carry) = full(sweep, x, y, z)?;
                put(&mut all, column, sum)?;
                put(&mut all, column.saturating_add(1), carry)?;
            }
        }
        word.push(taken(&mut all, column))?;
    }
    Ok(word)
}

/// Sums up row by row. If `fault` is a place of an adder, that one has another carry.
fn by_rows(
    alloc: Global,
    sweep: &mut Sweep,
    mut all: Vec<Vec<u32>>,
    fault: usize,
) -> Result<Vec<u32>, AllocError> {
    let mut word = Vec::new(alloc);
    for _column in 0..all.len() {
        word.push(0)?;
    }
    let mut place: usize = 0;
    for _row in 0..all.len() {
        let mut carry = 0;
        for column in 0..all.len() {
            let next = taken(&mut all, column);
            let old = at(word.as_slice(), column);
            let (sum, more) = full(sweep, old, next, carry)?;
            place = place.wrapping_add(1);
            carry = if place == fault { sum } else { more };
            if column < word.len() {
                word[column] = sum;
            }
        }
    }
    Ok(word)
}

/// The product of two words, the square of one, or a word that a product is taken away from.
pub(crate) fn product(
    alloc: Global,
    sweep: &mut Sweep,
    factors: Factors,
    architecture: Architecture,
    fault: usize,
) -> Result<Vec<u32>, AllocError> {
    let terms = terms_of(alloc, sweep, factors)?;
    match architecture {
        Architecture::Array => {
            let all = partial(alloc, sweep, &terms)?;
            by_rows(alloc, sweep, all, fault)
        }
        Architecture::Columns | Architecture::Mapped => {
            let all = partial(alloc, sweep, &terms)?;
            by_columns(alloc, sweep, all, architecture == Architecture::Mapped)
        }
        Architecture::Rows => {
            let all = whole(alloc, sweep, &terms)?;
            by_threes(alloc, sweep, all)
        }
        Architecture::Booth => {
            let all = recoded(alloc, sweep, terms.a.as_slice(), terms.b.as_slice())?;
            by_columns(alloc, sweep, all, false)
        }
    }
}

//! Literals by the columns in which they count, and words of literals.

use eqc_xag::negated;
use std::alloc::{AllocError, Global};

/// Empty columns.
pub(crate) fn columns(alloc: Global, count: usize) -> Result<Vec<Vec<u32>>, AllocError> {
    let mut all = Vec::new(alloc);
    for _k in 0..count {
        all.push(Vec::new(alloc))?;
    }
    Ok(all)
}

/// Puts a literal behind those of a column, also one that is always false.
pub(crate) fn place(all: &mut Vec<Vec<u32>>, at: usize, literal: u32) -> Result<(), AllocError> {
    if let Some(column) = all.get_mut(at) {
        column.push(literal)?;
    }
    Ok(())
}

/// Puts a literal behind those of a column, but for one that is always false.
pub(crate) fn put(all: &mut Vec<Vec<u32>>, at: usize, literal: u32) -> Result<(), AllocError> {
    if literal == 0 {
        return Ok(());
    }
    place(all, at, literal)
}

/// Takes a literal away in a column: its complement counts there, and ones from there on.
pub(crate) fn take_away(
    all: &mut Vec<Vec<u32>>,
    ones: &mut Vec<Vec<u32>>,
    at: usize,
    literal: u32,
) -> Result<(), AllocError> {
    for column in at..ones.len() {
        put(ones, column, 1)?;
    }
    put(all, at, negated(literal))
}

/// A bit of a word, which is false where it has none.
pub(crate) fn at(word: &[u32], k: usize) -> u32 {
    match word.get(k) {
        None => 0,
        Some(literal) => *literal,
    }
}

/// Takes the next literal of a column, which is false where there is none.
pub(crate) fn taken(all: &mut Vec<Vec<u32>>, column: usize) -> u32 {
    match all.get_mut(column) {
        None => 0,
        Some(some) => {
            if some.len() == 0 {
                return 0;
            }
            some.remove(0)
        }
    }
}

/// How many literals a column has.
pub(crate) fn height(all: &Vec<Vec<u32>>, column: usize) -> usize {
    match all.get(column) {
        None => 0,
        Some(some) => some.len(),
    }
}

/// Puts the sum of columns of ones into others.
pub(crate) fn put_ones(all: &mut Vec<Vec<u32>>, ones: &[Vec<u32>]) -> Result<(), AllocError> {
    let mut carry: usize = 0;
    for column in 0..ones.len() {
        let here = match ones.get(column) {
            None => 0,
            Some(some) => some.len(),
        };
        let sum = here.saturating_add(carry);
        if sum % 2 == 1 {
            put(all, column, 1)?;
        }
        carry = sum / 2;
    }
    Ok(())
}

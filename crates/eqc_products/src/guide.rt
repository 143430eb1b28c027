//! The order of rows that are added up by threes, told by the values of a netlist's nodes: it may
//! have them in any one.

use crate::netlist::TRUE;
use crate::partial::Partial;
use crate::rows::Kind;
use eqc_polynomials::Values;
use std::alloc::{AllocError, Global};

/// More rows than so many stay as they are.
const MOST_ROWS: usize = 64;

/// Three rows none of whose first so many sums is there aren't added up.
const FIRST_SUMS: u32 = 4;

/// Of three rows so many of a thousand sums are there at least, if they are taken at once.
const ENOUGH: u32 = 800;

/// So many sums are looked for to make an order better.
const LOOKS: usize = 4_000_000;

/// A value as that of the literal which is false under the first assignment.
pub(crate) fn plain(value: u128) -> u128 {
    if value & 1 == 1 { !value } else { value }
}

/// The values of rows by columns, and what there is to find.
#[derive(Drop)]
pub(crate) struct Guide<'a> {
    alloc: Global,
    bits: usize,
    /// By rows: none where a row has nothing.
    rows: Vec<Vec<Option<u128>>>,
    /// So many rows are of inputs by themselves, and come first.
    fixed: usize,
    /// By columns, whether a number has a one there.
    ones: Vec<bool>,
    /// The values of the nodes below a word, each as that of the literal which is false under the
    /// first assignment, in order.
    seen: &'a [u128],
    /// How many sums may still be looked for.
    looks: usize,
}

impl<'a> Guide<'a> {
    /// That of what is added up, where the netlist's literals have these values. Fails where memory
    /// is refused.
    pub(crate) fn of(
        alloc: Global,
        partial: &Partial,
        values: &Values,
        seen: &'a [u128],
    ) -> Result<Guide<'a>, AllocError> {
        let mut guide = Guide {
            alloc,
            bits: partial.bits,
            rows: Vec::with_capacity(alloc, partial.rows.len())?,
            fixed: 0,
            ones: Vec::with_capacity(alloc, partial.bits)?,
            seen,
            looks: LOOKS,
        };
        for row in &partial.rows {
            let mut numbers = Vec::with_capacity(alloc, partial.bits)?;
            for column in 0..partial.bits {
                let literal = partial.entry(row, column);
                numbers.push(literal.map(|it| values.at(it)))?;
            }
            guide.rows.push(numbers)?;
            guide.fixed = guide
                .fixed
                .saturating_add(usize::from(row.kind == Kind::Input));
        }
        for column in 0..partial.bits {
            guide.ones.push(partial.digit(column) == TRUE)?;
        }
        Ok(guide)
    }

    fn at(&self, row: usize, column: usize) -> Option<u128> {
        match self.rows.get(row) {
            None => None,
            Some(numbers) => numbers.get(column).copied().flatten(),
        }
    }

    fn is_seen(&self, sum: u128) -> bool {
        self.seen.binary_search(&plain(sum)).is_ok()
    }

    /// How many sums of the first threes are known where rows come in this order.
    fn count(&mut self, order: &[usize]) -> u32 {
        let mut found = 0u32;
        for column in 0..self.bits {
            let is_one = self.ones.get(column).copied() == Some(true);
            let mut sum = if is_one { u128::MAX } else { 0 };
            let mut place = u32::from(is_one);
            for row in order {
                let Some(value) = self.at(*row, column) else {
                    continue;
                };
                sum = sum ^ value;
                place = place.saturating_add(1);
                if place == 3 {
                    let is_found = plain(sum) != 0 && self.is_seen(sum);
                    found = found.saturating_add(u32::from(is_found));
                    sum = 0;
                    place = 0;
                }
            }
        }
        let looks = order.len().saturating_mul(self.bits) / 3;
        self.looks = self.looks.saturating_sub(looks);
        found
    }

    /// How many of a thousand sums of three rows are known, of those that aren't constant: none
    /// where the first ones aren't.
    fn share(&self, three: [usize; 3]) -> u32 {
        let mut found = 0u32;
        let mut all = 0u32;
        for column in 0..self.bits {
            let mut sum = 0u128;
            for row in three {
                sum = sum ^ self.at(row, column).unwrap_or(0);
            }
            if plain(sum) == 0 {
                continue;
            }
            found = found.saturating_add(u32::from(self.is_seen(sum)));
            all = all.saturating_add(1);
            if all == FIRST_SUMS && found == 0 {
                break;
            }
        }
        found.saturating_mul(1_000) / all.max(1)
    }

    /// The places of those three of these rows of whose sums most are known, or enough.
    fn best_three(&self, left: &[usize]) -> [usize; 3] {
        let mut best = [0, 1, 2];
        let mut most = 0u32;
        for third in 2..left.len() {
            for second in 1..third {
                for first in 0..second {
                    let share = self.share([left[first], left[second], left[third]]);
                    if share > most {
                        most = share;
                        best = [first, second, third];
                    }
                    if most >= ENOUGH {
                        return best;
                    }
                }
            }
        }
        best
    }

    /// The rows as they come. Fails where memory is refused.
    fn as_they_come(&self) -> Result<Vec<usize>, AllocError> {
        let mut order = Vec::with_capacity(self.alloc, self.rows.len())?;
        for row in 0..self.rows.len() {
            order.push(row)?;
        }
        Ok(order)
    }

    /// The rows by threes of whose sums most are known. Fails where memory is refused.
    fn by_threes(&self) -> Result<Vec<usize>, AllocError> {
        let mut order = Vec::with_capacity(self.alloc, self.rows.len())?;
        let mut left = Vec::with_capacity(self.alloc, self.rows.len())?;
        for row in 0..self.rows.len() {
            if row < self.fixed {
                order.push(row)?;
            } else {
                left.push(row)?;
            }
        }
        for _ in 0..left.len() / 3 {
            let [first, second, third] = self.best_three(&left);
            if first >= second || second >= third || third >= left.len() {
                break;
            }
            let last = left.remove(third);
            let middle = left.remove(second);
            order.push(left.remove(first))?;
            order.push(middle)?;
            order.push(last)?;
        }
        order.extend_from_slice(&left)?;
        Ok(order)
    }

    /// Swaps rows, or threes of them, as long as more sums are known so.
    fn swap(&mut self, order: &mut Vec<usize>, width: usize) {
        let mut most = self.count(order);
        let count = order.len().saturating_sub(self.fixed) / width.max(1);
        for one in 0..count {
            for other in 0..one {
                if self.looks == 0 {
                    return;
                }
                let (i, j) = (
                    self.fixed.saturating_add(one.saturating_mul(width)),
                    self.fixed.saturating_add(other.saturating_mul(width)),
                );
                swap_parts(order, i, j, width);
                let found = self.count(order);
                if found > most {
                    most = found;
                } else {
                    swap_parts(order, i, j, width);
                }
            }
        }
    }

    /// The order of the rows of which most sums of threes are known. Fails where memory is refused.
    pub(crate) fn order(&mut self) -> Result<Vec<usize>, AllocError> {
        let mut order = self.as_they_come()?;
        if self.rows.len() > MOST_ROWS {
            return Ok(order);
        }
        let other = self.by_threes()?;
        if self.count(&other) > self.count(&order) {
            order = other;
        }
        self.swap(&mut order, 3);
        self.swap(&mut order, 1);
        self.swap(&mut order, 1);
        Ok(order)
    }
}

/// Swaps two parts of an order of so many entries each, if they are there.
fn swap_parts(order: &mut Vec<usize>, i: usize, j: usize, width: usize) {
    for k in 0..width {
        let (one, other) = (i.saturating_add(k), j.saturating_add(k));
        if one < order.len() && other < order.len() {
            let kept = order[one];
            order[one] = order[other];
            order[other] = kept;
        }
    }
}

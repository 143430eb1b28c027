//! The words of which a product is made, and a word that it is taken away from.

use crate::columns::at;
use crate::gates::chosen;
use eqc_sweep::Sweep;
use std::alloc::{AllocError, Global};

/// What is multiplied: two words of so many bits, each of inputs or of two words of these by another
/// input, or one by itself; two words whose last bits are signs; two whose product is taken away from
/// a word of twice as many bits; or one that is multiplied by a number of as many bits.
#[derive(Clone, Copy)]
pub(crate) enum Factors {
    Two(u32),
    Chosen(u32),
    Same(u32),
    Signed(u32),
    TakenAway(u32),
    Times(u32, u32),
}

/// The literals of the words that are multiplied, and of the one that the product is taken away
/// from: none where it isn't taken away.
#[derive(Drop)]
pub(crate) struct Terms {
    pub(crate) a: Vec<u32>,
    pub(crate) b: Vec<u32>,
    pub(crate) from: Vec<u32>,
    pub(crate) have_signs: bool,
}

impl Terms {
    /// How many columns the product has.
    pub(crate) fn columns(&self) -> usize {
        self.a.len().saturating_add(self.b.len())
    }

    /// Whether the product is taken away.
    pub(crate) fn are_taken_away(&self) -> bool {
        self.from.len() > 0
    }

    /// Whether the row of a bit of the second word is that of its sign.
    pub(crate) fn is_sign(&self, i: usize) -> bool {
        self.have_signs && i.saturating_add(1) == self.b.len()
    }

    /// Whether what a bit of each word comes to counts as less than nothing.
    pub(crate) fn is_less(&self, j: usize, i: usize) -> bool {
        let is_sign = self.have_signs && j.saturating_add(1) == self.a.len();
        (is_sign != self.is_sign(i)) != self.are_taken_away()
    }

    /// A bit of the first word, of which those beyond the last one are its sign.
    pub(crate) fn bit(&self, j: usize) -> u32 {
        let last = self.a.len().saturating_sub(1);
        if self.have_signs && j > last {
            return at(self.a.as_slice(), last);
        }
        at(self.a.as_slice(), j)
    }
}

/// A word of inputs.
fn inputs(
    alloc: Global,
    sweep: &mut Sweep,
    width: u32,
    first: u32,
) -> Result<Vec<u32>, AllocError> {
    let mut word = Vec::new(alloc);
    for k in 0..width {
        let literal = sweep.input(first.wrapping_add(k))?;
        word.push(literal)?;
    }
    Ok(word)
}

/// The word of so many bits that a number has.
fn number_word(alloc: Global, width: u32, number: u32) -> Result<Vec<u32>, AllocError> {
    let mut word = Vec::new(alloc);
    for k in 0..width {
        word.push(number >> (k % 32) & 1)?;
    }
    Ok(word)
}

/// The input that chooses words.
const CHOICE: u32 = 900;

/// A word of so many bits, each of which is one of two inputs by another input.
fn chosen_word(
    alloc: Global,
    sweep: &mut Sweep,
    width: u32,
    first: u32,
) -> Result<Vec<u32>, AllocError> {
    let by = sweep.input(CHOICE)?;
    let mut word = inputs(alloc, sweep, width, first)?;
    let others = inputs(alloc, sweep, width, first.wrapping_add(width))?;
    for k in 0..word.len() {
        word[k] = chosen(sweep, by, word[k], at(others.as_slice(), k))?;
    }
    Ok(word)
}

/// The words that are multiplied.
fn words(
    alloc: Global,
    sweep: &mut Sweep,
    factors: Factors,
) -> Result<(Vec<u32>, Vec<u32>), AllocError> {
    Ok(match factors {
        Factors::Two(width) | Factors::Signed(width) | Factors::TakenAway(width) => {
            let a = inputs(alloc, sweep, width, 0)?;
            (a, inputs(alloc, sweep, width, width)?)
        }
        Factors::Chosen(width) => {
            let a = chosen_word(alloc, sweep, width, 0)?;
            (a, chosen_word(alloc, sweep, width, width.wrapping_mul(2))?)
        }
        Factors::Same(width) => {
            let a = inputs(alloc, sweep, width, 0)?;
            (a, inputs(alloc, sweep, width, 0)?)
        }
        Factors::Times(width, number) => {
            let a = inputs(alloc, sweep, width, 0)?;
            (a, number_word(alloc, width, number)?)
        }
    })
}

/// The words of a product, and the one that it is taken away from.
pub(crate) fn terms_of(
    alloc: Global,
    sweep: &mut Sweep,
    factors: Factors,
) -> Result<Terms, AllocError> {
    let (a, b) = words(alloc, sweep, factors)?;
    let from = match factors {
        Factors::TakenAway(width) => {
            let double = width.wrapping_mul(2);
            inputs(alloc, sweep, double, double)?
        }
        _ => Vec::new(alloc),
    };
    Ok(Terms {
        a,
        b,
        from,
        have_signs: matches!(factors, Factors::Signed(_)),
    })
}

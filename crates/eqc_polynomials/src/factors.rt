//! Products of two words, and squares, in a polynomial of degree two.

use crate::quadratic::{Quadratic, modulus_of};
use std::alloc::{AllocError, Global};

/// There are so many products at most.
const MOST_PRODUCTS: usize = 16;

/// A word of fewer bits isn't told from a product of two others by its square.
const LEAST_BITS: usize = 3;

/// A word of inputs by their places, the lowest first, whose last one counts as less than nothing
/// where it is signed.
#[derive(Drop)]
pub struct Factor {
    pub places: Vec<usize>,
    pub is_signed: bool,
}

/// The product of two words, of which the lowest bits count 2^lowest together, or less than nothing
/// by that.
#[derive(Drop)]
pub struct Product {
    pub first: Factor,
    pub second: Factor,
    pub lowest: u32,
    pub is_negative: bool,
}

/// What a polynomial adds up beside its constant: products, and inputs that count by themselves, by
/// their places.
#[derive(Drop)]
pub struct Summands {
    pub products: Vec<Product>,
    pub singles: Vec<u128>,
}

/// How often a conjunction of two inputs counts that isn't in a product yet, and an input by itself.
#[derive(Drop)]
struct Rest {
    bits: usize,
    count: usize,
    times: Vec<u128>,
    singles: Vec<u128>,
}

/// A column, and whether what counts there is taken away: none of what isn't a power of two.
pub fn column_of(times: u128, bits: usize) -> Option<(u32, bool)> {
    let less = 0u128.wrapping_sub(times) & modulus_of(bits);
    if times.is_power_of_two() {
        Some((times.trailing_zeros(), false))
    } else if less.is_power_of_two() {
        Some((less.trailing_zeros(), true))
    } else {
        None
    }
}

/// Whether what counts so often is taken away.
pub fn is_taken_away(times: u128, bits: usize) -> bool {
    matches!(column_of(times, bits), Some((_, true)))
}

impl Rest {
    fn new(alloc: Global, quadratic: &Quadratic) -> Result<Rest, AllocError> {
        let count = quadratic.variables.len();
        let mut rest = Rest {
            bits: quadratic.bits,
            count,
            times: vec![in alloc; 0u128; count.saturating_mul(count)]?,
            singles: quadratic.singles.clone()?,
        };
        for pair in &quadratic.pairs {
            rest.set(pair.one, pair.other, pair.times);
            rest.set(pair.other, pair.one, pair.times);
        }
        Ok(rest)
    }

    fn at(&self, one: usize, other: usize) -> u128 {
        let place = one.saturating_mul(self.count).saturating_add(other);
        self.times.get(place).copied().unwrap_or(0)
    }

    fn set(&mut self, one: usize, other: usize, times: u128) {
        let place = one.saturating_mul(self.count).saturating_add(other);
        if let Some(entry) = self.times.get_mut(place) {
            *entry = times;
        }
    }

    /// With how many others an input counts.
    fn degree(&self, one: usize) -> usize {
        let mut degree = 0usize;
        for other in 0..self.count {
            degree = degree.saturating_add(usize::from(self.at(one, other) != 0));
        }
        degree
    }

    /// The first of the inputs that count with most others, of those that count with one if that is
    /// given: none where no input does.
    fn widest(&self, with: Option<usize>) -> Option<usize> {
        let mut most = 0usize;
        let mut found = None;
        for one in 0..self.count {
            let degree = self.degree(one);
            let counts = with.is_none_or(|other| self.at(one, other) != 0);
            if degree > most && counts {
                most = degree;
                found = Some(one);
            }
        }
        found
    }

    /// The word of inputs that count with this one in one column after the other, from the lowest
    /// on, the first input of each column.
    fn word_with(&self, alloc: Global, one: usize) -> Result<Vec<usize>, AllocError> {
        let mut all = Vec::new(alloc);
        for other in 0..self.count {
            if let Some((column, _)) = column_of(self.at(one, other), self.bits) {
                all.push((column, other))?;
            }
        }
        all.sort_unstable();
        let mut places = Vec::with_capacity(alloc, all.len())?;
        let mut next = match all.first() {
            None => 0,
            Some(entry) => entry.0,
        };
        for entry in &all {
            let (column, place) = *entry;
            if column == next {
                places.push(place)?;
                next = next.saturating_add(1);
            }
        }
        Ok(places)
    }

    /// Whether of two inputs beside a third one the last one is taken away and the first one isn't,
    /// or the other way round. In the last column nothing tells the two apart.
    fn is_other_sign(&self, last: usize, first: usize, by: usize) -> bool {
        match column_of(self.at(last, by), self.bits) {
            Some((column, is_less)) => {
                (column as usize).saturating_add(1) < self.bits
                    && is_less != is_taken_away(self.at(first, by), self.bits)
            }
            None => false,
        }
    }

    /// Whether the last bit of a word counts as less than nothing beside the first one of another,
    /// where the first one of the word counts, or the other way round.
    fn is_signed(&self, word: &[usize], other: &[usize]) -> bool {
        match (word.first(), word.last(), other.first()) {
            (Some(first), Some(last), Some(by)) => self.is_other_sign(*last, *first, *by),
            _ => false,
        }
    }

    /// How often the bits at two places of a product's factors count in it.
    fn wanted(&self, product: &Product, i: usize, j: usize) -> u128 {
        let column = (product.lowest as usize)
            .saturating_add(i)
            .saturating_add(j);
        if column >= self.bits || column >= 128 {
            return 0;
        }
        let times = 1u128 << column;
        if product.is_pair_taken_away(i, j) {
            0u128.wrapping_sub(times) & modulus_of(self.bits)
        } else {
            times
        }
    }

    /// Takes a product away, if all of it is there.
    fn take(&mut self, product: &Product) -> bool {
        let (first, second) = (&product.first.places, &product.second.places);
        for i in 0..first.len() {
            for j in 0..second.len() {
                if self.at(first[i], second[j]) != self.wanted(product, i, j) {
                    return false;
                }
            }
        }
        for one in first {
            for other in second {
                self.set(*one, *other, 0);
                self.set(*other, *one, 0);
            }
        }
        true
    }

    /// The next product, which is taken away. Fails where memory is refused.
    fn next(&mut self, alloc: Global) -> Result<Option<Product>, AllocError> {
        let Some(one) = self.widest(None) else {
            return Ok(None);
        };
        let Some(other) = self.widest(Some(one)) else {
            return Ok(None);
        };
        let first = self.word_with(alloc, other)?;
        let second = self.word_with(alloc, one)?;
        let lowest = match (first.first(), second.first()) {
            (Some(low), Some(high)) => column_of(self.at(*low, *high), self.bits),
            _ => None,
        };
        let Some((lowest, is_negative)) = lowest else {
            return Ok(None);
        };
        let is_signed = self.is_signed(&first, &second);
        let is_other_signed = self.is_signed(&second, &first);
        let product = Product {
            first: Factor {
                places: first,
                is_signed,
            },
            second: Factor {
                places: second,
                is_signed: is_other_signed,
            },
            lowest,
            is_negative,
        };
        Ok(if self.take(&product) {
            Some(product)
        } else {
            None
        })
    }

    /// The two inputs whose conjunction counts in the lowest column of those with this one or with
    /// each other: the two lowest bits of a word, where it is a bit of that word's square.
    fn lowest_two(&self, one: usize) -> Option<(usize, usize, u32)> {
        let mut found = None;
        let mut least = u32::MAX;
        for x in 0..self.count {
            for y in 0..x {
                let is_near = [x, y].iter().all(|it| *it == one || self.at(*it, one) != 0);
                if let Some((column, _)) = column_of(self.at(x, y), self.bits) {
                    if is_near && column < least {
                        least = column;
                        found = Some((x, y, column));
                    }
                }
            }
        }
        found
    }

    /// The word of which this input is the lowest bit, where it is in the square of that word.
    fn word_from(&self, alloc: Global, zero: usize) -> Result<Factor, AllocError> {
        let mut places = Vec::new(alloc);
        places.push(zero)?;
        places.extend_from_slice(&self.word_with(alloc, zero)?)?;
        let is_signed = match (places.get(1), places.last()) {
            (Some(one), Some(last)) => self.is_other_sign(*last, *one, zero),
            _ => false,
        };
        Ok(Factor { places, is_signed })
    }

    /// Takes a square away, if all conjunctions of its bits are there: each counts twice, and each
    /// bit once by itself.
    fn take_square(&mut self, square: &Product) -> bool {
        let places = &square.first.places;
        if places.len() < LEAST_BITS {
            return false;
        }
        for i in 0..places.len() {
            for j in 0..i {
                let wanted = self.wanted(square, i, j).wrapping_mul(2) & modulus_of(self.bits);
                if self.at(places[i], places[j]) != wanted {
                    return false;
                }
            }
        }
        for i in 0..places.len() {
            for j in 0..i {
                self.set(places[i], places[j], 0);
                self.set(places[j], places[i], 0);
            }
            let wanted = self.wanted(square, i, i);
            if let Some(times) = self.singles.get_mut(places[i]) {
                *times = times.wrapping_sub(wanted) & modulus_of(self.bits);
            }
        }
        true
    }

    /// The next square, which is taken away. Fails where memory is refused.
    fn next_square(&mut self, alloc: Global) -> Result<Option<Product>, AllocError> {
        let Some(one) = self.widest(None) else {
            return Ok(None);
        };
        let Some((x, y, column)) = self.lowest_two(one) else {
            return Ok(None);
        };
        // The lowest two bits count twice 2^1.
        let Some(lowest) = column.checked_sub(2) else {
            return Ok(None);
        };
        for zero in [x, y] {
            let square = Product {
                first: self.word_from(alloc, zero)?,
                second: self.word_from(alloc, zero)?,
                lowest,
                is_negative: is_taken_away(self.at(x, y), self.bits),
            };
            if self.take_square(&square) {
                return Ok(Some(square));
            }
        }
        Ok(None)
    }
}

impl Factor {
    fn is_last(&self, k: usize) -> bool {
        self.is_signed && k.saturating_add(1) == self.places.len()
    }
}

impl Product {
    /// Whether it is a word times itself: two others have no input in common.
    pub fn is_square(&self) -> bool {
        self.first.places.first().copied() == self.second.places.first().copied()
    }

    /// Whether some of its bits count as less than nothing.
    pub fn takes_away(&self) -> bool {
        self.is_negative || self.first.is_signed || self.second.is_signed
    }

    /// Whether the conjunction of two bits counts as less than nothing.
    pub fn is_pair_taken_away(&self, i: usize, j: usize) -> bool {
        let is_signed = self.first.is_last(i) != self.second.is_last(j);
        is_signed != self.is_negative
    }
}

/// The products of words that a polynomial adds up, and what is left beside these: none where it
/// has other parts. Fails where memory is refused.
pub(crate) fn summands_of(
    alloc: Global,
    quadratic: &Quadratic,
) -> Result<Option<Summands>, AllocError> {
    let mut rest = Rest::new(alloc, quadratic)?;
    let mut products = Vec::new(alloc);
    for _ in 0..MOST_PRODUCTS {
        let square = rest.next_square(alloc)?;
        let next = match square {
            Some(square) => Some(square),
            None => rest.next(alloc)?,
        };
        let Some(product) = next else {
            break;
        };
        products.push(product)?;
    }
    Ok(if products.is_empty() || rest.widest(None).is_some() {
        None
    } else {
        Some(Summands {
            products,
            singles: rest.singles,
        })
    })
}

//! The literals of a column, and which of them are likely to be added up. Nothing is believed of
//! it.

use eqc_xag::Literal;
use std::alloc::{AllocError, Global};

/// A literal that a column has, by a number of its own: one that comes later has a larger one.
#[derive(Clone, Copy)]
pub(crate) struct Item {
    pub(crate) number: u32,
    pub(crate) literal: Literal,
}

/// Two or three literals of a column, by their numbers in ascending order, and how much speaks for
/// adding them up.
#[derive(Clone, Copy)]
pub(crate) struct Likely {
    pub(crate) x: Literal,
    pub(crate) y: Literal,
    pub(crate) z: Option<Literal>,
    pub(crate) score: u32,
}

impl Likely {
    /// Their order: those for which more speaks, and of as many the earliest.
    fn comes_before(&self, other: &Likely) -> bool {
        self.score > other.score || self.score == other.score && self.key() < other.key()
    }

    fn key(&self) -> u128 {
        let z = self.z.unwrap_or(0);
        (self.x as u128) << 64 | (self.y as u128) << 32 | z as u128
    }
}

/// So many likely ones of a column are kept at most.
const MOST_LIKELY: usize = 1_024;

/// The literals that count as much.
#[derive(Drop)]
pub(crate) struct Column {
    /// No three of them have their sum and their carry among the nodes. They are in the order of
    /// their numbers.
    settled: Vec<Item>,
    /// These are still to be looked at.
    waiting: Vec<u32>,
    /// Those of what is settled that have a sum or a carry among the nodes.
    likely: Vec<Likely>,
    /// The number of the next literal that settles.
    next: u32,
    /// Literals with smaller numbers were looked at together in all ways.
    pub(crate) looked: u32,
}

impl Column {
    pub(crate) fn new(alloc: Global) -> Column {
        Column {
            settled: Vec::new(alloc),
            waiting: Vec::new(alloc),
            likely: Vec::new(alloc),
            next: 0,
            looked: 0,
        }
    }

    /// The literals that are settled.
    pub(crate) fn settled(&self) -> &[Item] {
        self.settled.as_slice()
    }

    /// How many wait.
    pub(crate) fn waiting(&self) -> usize {
        self.waiting.len()
    }

    /// The number of the next literal that settles.
    pub(crate) fn next(&self) -> u32 {
        self.next
    }

    /// Takes in a literal.
    pub(crate) fn put(&mut self, literal: Literal) -> Result<(), AllocError> {
        self.waiting.push(literal)?;
        Ok(())
    }

    /// The next literal that waits.
    pub(crate) fn draw(&mut self) -> Option<Literal> {
        self.waiting.pop()
    }

    /// Settles a literal, with what is likely of it and others.
    pub(crate) fn settle(&mut self, literal: Literal, likely: &[Likely]) -> Result<(), AllocError> {
        self.settled.push(Item {
            number: self.next,
            literal,
        })?;
        self.next = self.next.saturating_add(1);
        for one in likely {
            if self.likely.len() < MOST_LIKELY {
                self.likely.push(*one)?;
            }
        }
        Ok(())
    }

    /// At which place a literal is settled.
    fn place(&self, number: u32) -> Option<usize> {
        for (place, item) in self.settled.iter().enumerate() {
            if item.number == number {
                return Some(place);
            }
        }
        None
    }

    /// Takes a settled literal out, and all that was likely of it. Answers the false one where
    /// there is none of this number.
    pub(crate) fn take(&mut self, number: u32) -> Literal {
        let Some(place) = self.place(number) else {
            return 0;
        };
        if place >= self.settled.len() {
            return 0;
        }
        let literal = self.settled.remove(place).literal;
        self.forget(number);
        literal
    }

    /// Takes out what was likely of a literal.
    fn forget(&mut self, number: u32) {
        let mut kept = 0;
        for k in 0..self.likely.len() {
            let Some(one) = self.likely.get(k).copied() else {
                break;
            };
            if one.x != number && one.y != number && one.z != Some(number) {
                if let Some(place) = self.likely.get_mut(kept) {
                    *place = one;
                }
                kept = k.min(kept) + 1;
            }
        }
        self.likely.truncate(kept);
    }

    /// What is likeliest to be added up, if something speaks for any.
    pub(crate) fn likeliest(&self) -> Option<Likely> {
        let mut best = None;
        for one in self.likely.iter() {
            let is_better = match best {
                None => true,
                Some(other) => one.comes_before(&other),
            };
            if is_better {
                best = Some(*one);
            }
        }
        best
    }
}

//! Rows of literals, one of which may count in each column, and their order.

use crate::netlist::FALSE;
use eqc_xag::{Literal, negated};
use std::alloc::{AllocError, Global};

/// In which order rows are added up.
#[derive(Clone, Copy, PartialEq, Eq)]
pub(crate) enum Order {
    /// As they come.
    Ascending,
    /// The first product or word, and then the others from the last one on: so a chain of sums
    /// comes out where each is merged into the next one (as yosys does it).
    Merged,
    /// As a sum of single rows comes out so: without what is always false in these, and those that
    /// are taken away behind the others, merged.
    Single,
}

/// The place of the first one of so many, and of the others from the last one on.
fn merged(k: usize, count: usize) -> usize {
    if k == 0 { 0 } else { count.saturating_sub(k) }
}

/// What a row is of. Those that come first are added up first.
#[derive(Clone, Copy, PartialEq, Eq)]
pub(crate) enum Kind {
    /// Of an input by itself, which was there before all rows.
    Input,
    /// Of a product or a word.
    Usual,
    /// Of one that is taken away, complemented as a whole.
    Complement,
}

/// Literals, each of which counts in its column: none where a row has nothing.
#[derive(Drop)]
pub(crate) struct Row {
    pub(crate) kind: Kind,
    /// Which product or word it is of, and which row of that.
    pub(crate) part: usize,
    pub(crate) place: usize,
    pub(crate) literals: Vec<Option<Literal>>,
}

impl Row {
    /// So many columns without a literal. Fails where memory is refused.
    pub(crate) fn new(alloc: Global, bits: usize) -> Result<Row, AllocError> {
        Ok(Row {
            kind: Kind::Usual,
            part: 0,
            place: 0,
            literals: vec![in alloc; None; bits]?,
        })
    }

    /// The same row once more. Fails where memory is refused.
    pub(crate) fn copied(&self) -> Result<Row, AllocError> {
        Ok(Row {
            kind: self.kind,
            part: self.part,
            place: self.place,
            literals: self.literals.clone()?,
        })
    }

    /// The literal in a column, if there is one.
    pub(crate) fn entry(&self, column: usize) -> Option<u32> {
        match self.literals.get(column) {
            None => None,
            Some(entry) => *entry,
        }
    }

    /// The literal in a column, which is false where there is none.
    pub(crate) fn at(&self, column: usize) -> u32 {
        self.entry(column).unwrap_or(FALSE)
    }

    /// Puts a literal into a column, if there is one so high.
    pub(crate) fn put(&mut self, column: usize, literal: Literal) {
        if let Some(entry) = self.literals.get_mut(column) {
            *entry = Some(literal);
        }
    }

    /// The complement of a row as a whole, which counts as less than nothing by the row, less one.
    pub(crate) fn complement(&mut self) {
        self.kind = Kind::Complement;
        for column in 0..self.literals.len() {
            self.put(column, negated(self.at(column)));
        }
    }

    /// Where it comes among others in an order.
    pub(crate) fn key(&self, order: Order, parts: usize) -> (u8, usize, usize) {
        match (order, self.kind) {
            (_, Kind::Input) => (0, 0, 0),
            (Order::Ascending, _) => (1, 0, 0),
            (Order::Merged, _) => (1, merged(self.part, parts), 0),
            (Order::Single, Kind::Usual) => (1, 0, 0),
            (Order::Single, Kind::Complement) => {
                (2, self.part, merged(self.place, self.literals.len()))
            }
        }
    }
}

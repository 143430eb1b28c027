//! What is added up, column by column, and the arrays, trees and chains of adders by which it is.

use crate::ends::{End, prefixed};
use crate::netlist::{FALSE, Netlist};
use crate::partial::Partial;
use crate::rows::Row;
use eqc_xag::Literal;
use std::alloc::{AllocError, Global};

/// The literals of each column, the next one first.
#[derive(Drop)]
pub(crate) struct Columns {
    alloc: Global,
    columns: Vec<Vec<u32>>,
}

impl Columns {
    fn new(alloc: Global, bits: usize) -> Result<Columns, AllocError> {
        let mut columns = Vec::with_capacity(alloc, bits)?;
        for _ in 0..bits {
            columns.push(Vec::new(alloc))?;
        }
        Ok(Columns { alloc, columns })
    }

    /// What there is in rows, by columns.
    pub(crate) fn of(alloc: Global, bits: usize, rows: &[Row]) -> Result<Columns, AllocError> {
        let mut all = Columns::new(alloc, bits)?;
        for row in rows {
            for column in 0..bits {
                all.put(column, row.at(column))?;
            }
        }
        Ok(all)
    }

    /// What is added up, by columns, the number last.
    pub(crate) fn of_partial(alloc: Global, partial: &Partial) -> Result<Columns, AllocError> {
        let mut all = Columns::of(alloc, partial.bits, &partial.rows)?;
        for column in 0..partial.bits {
            all.put(column, partial.digit(column))?;
        }
        Ok(all)
    }

    /// What is added up, by columns, the number first, where a literal that is always false takes its
    /// place too.
    pub(crate) fn one_by_one(alloc: Global, partial: &Partial) -> Result<Columns, AllocError> {
        let mut columns = Vec::with_capacity(alloc, partial.bits)?;
        for column in 0..partial.bits {
            columns.push(partial.column(column)?)?;
        }
        Ok(Columns { alloc, columns })
    }

    pub(crate) fn len(&self) -> usize {
        self.columns.len()
    }

    fn height(&self, column: usize) -> usize {
        match self.columns.get(column) {
            None => 0,
            Some(literals) => literals.len(),
        }
    }

    pub(crate) fn highest(&self) -> usize {
        let mut most = 0usize;
        for literals in &self.columns {
            most = most.max(literals.len());
        }
        most
    }

    /// How much one literal of each of the highest columns counts in all.
    pub(crate) fn weight_of_highest(&self) -> usize {
        let highest = self.highest();
        let mut weight = 0usize;
        for column in 0..self.len() {
            if self.height(column) == highest {
                weight = weight.saturating_add(1usize << column.min(32));
            }
        }
        weight
    }

    /// Takes a literal of each of the highest columns, as often as it counts one.
    pub(crate) fn take_highest(&mut self, ones: &mut Vec<u32>) -> Result<(), AllocError> {
        let highest = self.highest();
        for column in 0..self.len() {
            if self.height(column) == highest {
                let literal = self.take(column);
                for _ in 0..1usize << column.min(32) {
                    ones.push(literal)?;
                }
            }
        }
        Ok(())
    }

    fn at(&self, column: usize, k: usize) -> u32 {
        match self.columns.get(column) {
            None => FALSE,
            Some(literals) => literals.get(k).copied().unwrap_or(FALSE),
        }
    }

    /// Puts a literal behind those of a column, but for one that is always false.
    pub(crate) fn put(&mut self, column: usize, literal: Literal) -> Result<(), AllocError> {
        if literal != FALSE {
            if let Some(literals) = self.columns.get_mut(column) {
                literals.push(literal)?;
            }
        }
        Ok(())
    }

    /// Takes the next literal of a column.
    pub(crate) fn take(&mut self, column: usize) -> u32 {
        match self.columns.get_mut(column) {
            None => FALSE,
            Some(literals) => {
                if literals.is_empty() {
                    FALSE
                } else {
                    literals.remove(0)
                }
            }
        }
    }

    /// Adds up the next two or three literals of a column.
    fn add(
        &mut self,
        netlist: &mut Netlist,
        column: usize,
        count: usize,
    ) -> Result<(), AllocError> {
        let x = self.take(column);
        let y = self.take(column);
        let z = if count > 2 { self.take(column) } else { FALSE };
        let (sum, carry) = netlist.add(x, y, z)?;
        self.put(column, sum)?;
        self.put(column.saturating_add(1), carry)
    }

    /// The word of columns of up to three, by a chain of adders.
    fn chain(&mut self, netlist: &mut Netlist) -> Result<Vec<Literal>, AllocError> {
        let mut word = Vec::with_capacity(self.alloc, self.len())?;
        for column in 0..self.len() {
            let height = self.height(column);
            if height > 1 {
                self.add(netlist, column, height)?;
            }
            word.push(self.take(column))?;
        }
        Ok(word)
    }

    /// The word of columns of up to two, with carries as an end has them.
    pub(crate) fn ended(
        &mut self,
        netlist: &mut Netlist,
        end: End,
    ) -> Result<Vec<u32>, AllocError> {
        if end == End::Chain || (1..self.len()).any(|column| self.height(column) > 2) {
            return self.chain(netlist);
        }
        let carry = self.at(0, 2);
        let mut both = Vec::with_capacity(self.alloc, self.len())?;
        for column in 0..self.len() {
            both.push((self.at(column, 0), self.at(column, 1)))?;
        }
        prefixed(self.alloc, netlist, &both, carry, end)
    }

    /// Puts the literals of a row of others behind these.
    fn put_row(&mut self, from: &Columns, row: usize) -> Result<(), AllocError> {
        for column in 0..self.len() {
            self.put(column, from.at(column, row))?;
        }
        Ok(())
    }

    pub(crate) fn by_rows(&self, netlist: &mut Netlist) -> Result<Columns, AllocError> {
        let mut left = Columns::new(self.alloc, self.len())?;
        for row in 0..self.highest() {
            left.put_row(self, row)?;
            for column in 0..left.len() {
                let height = left.height(column);
                if height > 1 {
                    left.add(netlist, column, height)?;
                }
            }
        }
        Ok(left)
    }

    pub(crate) fn saved(&self, netlist: &mut Netlist) -> Result<Columns, AllocError> {
        let mut left = Columns::new(self.alloc, self.len())?;
        for row in 0..self.highest() {
            left.put_row(self, row)?;
            for column in 0..left.len() {
                for _ in 0..left.height(column) {
                    if left.height(column) > 2 {
                        left.add(netlist, column, 3)?;
                    }
                }
            }
        }
        Ok(left)
    }

    /// The next layer of threes.
    fn layer(&mut self, netlist: &mut Netlist) -> Result<Columns, AllocError> {
        let mut next = Columns::new(self.alloc, self.len())?;
        for column in 0..self.len() {
            for _ in 0..self.height(column) / 3 {
                let x = self.take(column);
                let y = self.take(column);
                let z = self.take(column);
                let (sum, carry) = netlist.add(x, y, z)?;
                next.put(column, sum)?;
                next.put(column.saturating_add(1), carry)?;
            }
            for _ in 0..self.height(column) {
                let left = self.take(column);
                next.put(column, left)?;
            }
        }
        Ok(next)
    }

    pub(crate) fn in_layers(mut self, netlist: &mut Netlist) -> Result<Columns, AllocError> {
        for _ in 0..self.highest() {
            if self.highest() > 2 {
                self = self.layer(netlist)?;
            }
        }
        Ok(self)
    }

    /// Brings all columns down to a height.
    pub(crate) fn lower(&mut self, netlist: &mut Netlist, height: usize) -> Result<(), AllocError> {
        for column in 0..self.len() {
            for _ in 0..self.height(column) {
                let now = self.height(column);
                if now > height {
                    let count = if now == height.saturating_add(1) {
                        2
                    } else {
                        3
                    };
                    self.add(netlist, column, count)?;
                }
            }
        }
        Ok(())
    }

    pub(crate) fn late(mut self, netlist: &mut Netlist) -> Result<Columns, AllocError> {
        let mut heights = Vec::new(self.alloc);
        let mut height = 2usize;
        for _ in 0..self.highest() {
            heights.push(height)?;
            height = height.saturating_mul(3) / 2;
            if height >= self.highest() {
                break;
            }
        }
        for k in 0..heights.len() {
            let at = heights.len() - 1 - k;
            self.lower(netlist, heights[at])?;
        }
        Ok(self)
    }
}

//! Rows of all columns, added up by threes, or one after the other.

use crate::columns::Columns;
use crate::netlist::{FALSE, Netlist};
use crate::rows::Row;
use std::alloc::{AllocError, Global};

/// Rows of all columns, and literals each of which counts one: they stand in place of carries into
/// the first column.
#[derive(Drop)]
pub(crate) struct Rows {
    alloc: Global,
    bits: usize,
    rows: Vec<Row>,
    ones: Vec<u32>,
}

impl Rows {
    /// Those of columns, where the literals of a column come one behind the other. What lies in the
    /// highest ones alone counts as ones, if there are carries in whose place these come.
    pub(crate) fn of(alloc: Global, mut columns: Columns) -> Result<Rows, AllocError> {
        let bits = columns.len();
        let mut rows = Vec::new(alloc);
        let mut ones = Vec::new(alloc);
        for _ in 0..columns.highest() {
            let carries = rows.len().saturating_sub(1);
            if columns.weight_of_highest() <= carries.saturating_sub(ones.len()) {
                columns.take_highest(&mut ones)?;
                continue;
            }
            let mut row = Row::new(alloc, bits)?;
            for column in 0..bits {
                row.put(column, columns.take(column));
            }
            rows.push(row)?;
        }
        Ok(Rows {
            alloc,
            bits,
            rows,
            ones,
        })
    }

    /// A literal that counts one.
    fn one(&mut self) -> u32 {
        self.ones.pop().unwrap_or(FALSE)
    }

    /// The two rows that come of three.
    fn two_of(
        &mut self,
        netlist: &mut Netlist,
        one: &Row,
        two: &Row,
        three: &Row,
    ) -> Result<(Row, Row), AllocError> {
        let mut sums = Row::new(self.alloc, self.bits)?;
        let mut carries = Row::new(self.alloc, self.bits)?;
        carries.put(0, self.one());
        for column in 0..self.bits {
            let (sum, carry) = netlist.add(one.at(column), two.at(column), three.at(column))?;
            sums.put(column, sum);
            carries.put(column.saturating_add(1), carry);
        }
        Ok((sums, carries))
    }

    /// The rows that come of threes of these, where those that are left go on.
    fn layer(&mut self, netlist: &mut Netlist) -> Result<Vec<Row>, AllocError> {
        let mut next = Vec::new(self.alloc);
        let rows = std::mem::replace(&mut self.rows, Vec::new(self.alloc));
        for part in rows.chunks(3) {
            if let [one, two, three] = part {
                let (sums, carries) = self.two_of(netlist, one, two, three)?;
                next.push(sums)?;
                next.push(carries)?;
            } else {
                for row in part {
                    next.push(row.copied()?)?;
                }
            }
        }
        Ok(next)
    }

    /// The two rows that are left of these by threes, by columns, and what counts one.
    pub(crate) fn by_threes(mut self, netlist: &mut Netlist) -> Result<Columns, AllocError> {
        for _ in 0..self.rows.len() {
            if self.rows.len() > 2 {
                self.rows = self.layer(netlist)?;
            }
        }
        self.left()
    }

    /// The two rows that are left where each of these is added to a row of sums and to one of
    /// carries, which are nothing at first, by columns, and what counts one.
    pub(crate) fn kept(mut self, netlist: &mut Netlist) -> Result<Columns, AllocError> {
        let rows = std::mem::replace(&mut self.rows, Vec::new(self.alloc));
        let mut sums = Row::new(self.alloc, self.bits)?;
        let mut carries = Row::new(self.alloc, self.bits)?;
        for row in &rows {
            let (next, carried) = self.two_of(netlist, &sums, &carries, row)?;
            sums = next;
            carries = carried;
        }
        self.rows.push(sums)?;
        self.rows.push(carries)?;
        self.left()
    }

    /// These rows by columns, and what counts one.
    fn left(mut self) -> Result<Columns, AllocError> {
        let mut left = Columns::of(self.alloc, self.bits, &self.rows)?;
        left.put(0, self.one())?;
        Ok(left)
    }
}

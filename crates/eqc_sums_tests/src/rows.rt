//! Products in rows that have a literal in each column, added up three rows at a time until two are left,
//! as yosys does it. Some sums in between aren't there, as a mapping leaves them.

use crate::columns::{at, columns, height, place, put, put_ones, taken};
use crate::factors::Terms;
use crate::gates::{add_to_three, and, carry_of, full, xor};
use eqc_sweep::Sweep;
use eqc_xag::negated_if;
use std::alloc::{AllocError, Global};

/// What a row has in a column: a literal, or the sum of three, which isn't there by itself.
#[derive(Clone, Copy)]
enum Entry {
    Literal(u32),
    Sum(u32, u32, u32),
}

/// What a row has in a column, which is false where it has nothing.
fn entry_of(row: &[Entry], column: usize) -> Entry {
    match row.get(column) {
        None => Entry::Literal(0),
        Some(entry) => *entry,
    }
}

/// The literal of what a row has in a column.
fn literal(sweep: &mut Sweep, entry: Entry) -> Result<u32, AllocError> {
    match entry {
        Entry::Literal(literal) => Ok(literal),
        Entry::Sum(x, y, z) => {
            let one = xor(sweep, x, y)?;
            xor(sweep, one, z)
        }
    }
}

/// The sum and the carry of three, where the sum isn't there if it is lost.
fn add(sweep: &mut Sweep, three: [Entry; 3], is_lost: bool) -> Result<(Entry, u32), AllocError> {
    let [one, two, three] = three;
    let y = literal(sweep, two)?;
    let z = literal(sweep, three)?;
    let x = match one {
        Entry::Literal(x) => x,
        Entry::Sum(a, b, c) => {
            let (sum, carry) = add_to_three(sweep, [a, b, c], y, z)?;
            return Ok((Entry::Literal(sum), carry));
        }
    };
    if is_lost {
        return Ok((Entry::Sum(x, y, z), carry_of(sweep, [x, y, z])?));
    }
    let (sum, carry) = full(sweep, x, y, z)?;
    Ok((Entry::Literal(sum), carry))
}

/// Puts the row of a bit of the second word behind what all columns have: that of a sign has the
/// first word's complement. A row that is taken away is complemented as a whole.
fn put_row(
    sweep: &mut Sweep,
    terms: &Terms,
    i: usize,
    all: &mut Vec<Vec<u32>>,
) -> Result<(), AllocError> {
    for column in 0..all.len() {
        let bit = match column.checked_sub(i) {
            None => 0,
            Some(j) => negated_if(terms.bit(j), terms.is_sign(i)),
        };
        let both = and(sweep, at(terms.b.as_slice(), i), bit)?;
        place(all, column, negated_if(both, terms.are_taken_away()))?;
    }
    Ok(())
}

/// The rows of a product by columns: first one for each row that is taken away, then a sign once
/// more, for its row's complement, then the word that the product is taken away from.
pub(crate) fn whole(
    alloc: Global,
    sweep: &mut Sweep,
    terms: &Terms,
) -> Result<Vec<Vec<u32>>, AllocError> {
    let mut all = columns(alloc, terms.columns())?;
    let mut ones = columns(alloc, terms.columns())?;
    for i in 0..terms.b.len() {
        if terms.are_taken_away() {
            put(&mut ones, 0, 1)?;
        }
        if terms.is_sign(i) {
            put(&mut all, i, at(terms.b.as_slice(), i))?;
        }
    }
    put_ones(&mut all, ones.as_slice())?;
    for column in 0..terms.from.len() {
        put(&mut all, column, at(terms.from.as_slice(), column))?;
    }
    for i in 0..terms.b.len() {
        put_row(sweep, terms, i, &mut all)?;
    }
    Ok(all)
}

/// How many literals the highest columns have.
fn highest(all: &Vec<Vec<u32>>) -> usize {
    let mut most: usize = 0;
    for column in 0..all.len() {
        most = most.max(height(all, column));
    }
    most
}

/// Takes a literal of each of the highest columns, as often as it counts one: none where that is
/// more often than so many.
fn taken_as_ones(
    alloc: Global,
    all: &mut Vec<Vec<u32>>,
    most: usize,
) -> Result<Vec<u32>, AllocError> {
    let highest = highest(all);
    let mut ones = Vec::new(alloc);
    let mut weight: usize = 0;
    for column in 0..all.len() {
        if height(all, column) == highest {
            weight = weight.saturating_add(1usize << column.min(32));
        }
    }
    if weight > most {
        return Ok(ones);
    }
    for column in 0..all.len() {
        if height(all, column) == highest {
            let literal = taken(all, column);
            for _k in 0..1usize << column.min(32) {
                ones.push(literal)?;
            }
        }
    }
    Ok(ones)
}

/// Rows, and literals that each count one: they stand in place of carries into the first column.
#[derive(Drop)]
struct Rows {
    alloc: Global,
    columns: usize,
    rows: Vec<Vec<Entry>>,
    ones: Vec<u32>,
}

impl Rows {
    /// The rows of columns. What the highest columns alone have counts as ones, if there are carries
    /// in whose place these come.
    fn of(alloc: Global, mut all: Vec<Vec<u32>>) -> Result<Rows, AllocError> {
        let mut rows: Vec<Vec<Entry>> = Vec::new(alloc);
        let mut ones = Vec::new(alloc);
        for _turn in 0..highest(&all) {
            let carries = rows.len().saturating_sub(1);
            let left = carries.saturating_sub(ones.len());
            let more = taken_as_ones(alloc, &mut all, left)?;
            if more.len() > 0 {
                ones.extend_from_slice(more.as_slice())?;
                continue;
            }
            let mut row = Vec::new(alloc);
            for column in 0..all.len() {
                let next = taken(&mut all, column);
                row.push(Entry::Literal(next))?;
            }
            rows.push(row)?;
        }
        Ok(Rows {
            alloc,
            columns: all.len(),
            rows,
            ones,
        })
    }

    /// A literal that counts one.
    fn one(&mut self) -> u32 {
        self.ones.pop().unwrap_or(0)
    }

    /// What a row has in a column.
    fn entry(&self, row: usize, column: usize) -> Entry {
        match self.rows.get(row) {
            None => Entry::Literal(0),
            Some(row) => entry_of(row.as_slice(), column),
        }
    }

    /// Puts the two rows that come of three from this one on behind others.
    fn put_two(
        &mut self,
        sweep: &mut Sweep,
        first: usize,
        is_lost: bool,
        next: &mut Vec<Vec<Entry>>,
    ) -> Result<(), AllocError> {
        let mut sums = Vec::new(self.alloc);
        let mut carries = Vec::new(self.alloc);
        let one = self.one();
        carries.push(Entry::Literal(one))?;
        for column in 0..self.columns {
            let three = [
                self.entry(first, column),
                self.entry(first.saturating_add(1), column),
                self.entry(first.saturating_add(2), column),
            ];
            let (sum, carry) = add(sweep, three, is_lost)?;
            sums.push(sum)?;
            carries.push(Entry::Literal(carry))?;
        }
        next.push(sums)?;
        next.push(carries)?;
        Ok(())
    }

    /// Adds up threes of the rows, where those that are left go on. The sums of the first three
    /// aren't there where they are lost.
    fn add_threes(&mut self, sweep: &mut Sweep, are_lost: bool) -> Result<(), AllocError> {
        let mut next = Vec::new(self.alloc);
        for three in 0..self.rows.len() / 3 {
            let first = three.saturating_mul(3);
            self.put_two(sweep, first, are_lost && three == 0, &mut next)?;
        }
        let left = self.rows.len() % 3;
        for row in self.rows.len().saturating_sub(left)..self.rows.len() {
            if let Some(row) = self.rows.get(row) {
                let same = row.clone()?;
                next.push(same)?;
            }
        }
        self.rows = next;
        Ok(())
    }

    /// The word that two rows come to by a chain of adders.
    fn chain(&mut self, sweep: &mut Sweep) -> Result<Vec<u32>, AllocError> {
        let mut word = Vec::new(self.alloc);
        let mut carry = self.one();
        for column in 0..self.columns {
            let three = [
                self.entry(0, column),
                self.entry(1, column),
                Entry::Literal(carry),
            ];
            let (sum, more) = add(sweep, three, false)?;
            let bit = literal(sweep, sum)?;
            word.push(bit)?;
            carry = more;
        }
        Ok(word)
    }
}

/// Sums up whole rows by threes. In every other turn sums are lost.
pub(crate) fn by_threes(
    alloc: Global,
    sweep: &mut Sweep,
    all: Vec<Vec<u32>>,
) -> Result<Vec<u32>, AllocError> {
    let mut rows = Rows::of(alloc, all)?;
    for turn in 0..rows.rows.len() {
        if rows.rows.len() > 2 {
            rows.add_threes(sweep, turn % 2 == 0)?;
        }
    }
    rows.chain(sweep)
}

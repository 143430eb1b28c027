//! The bits that a sum of products adds up, in rows: one for each bit or digit of a factor.

use crate::netlist::{FALSE, Netlist, TRUE};
use crate::rows::{Kind, Order, Row};
use eqc_polynomials::{Factor, Product, column_of, is_taken_away};
use eqc_xag::{Literal, negated, negated_if};
use std::alloc::{AllocError, Global};

/// How the factor of a product is taken that makes its rows.
#[derive(Clone, Copy, PartialEq, Eq)]
pub(crate) enum Digits {
    /// Bit by bit.
    Plain,
    /// Bit by bit, in rows that have a literal in each column, as yosys makes them: they go on with
    /// their signs.
    Whole,
    /// By two bits at a time, as a digit from -2 to 2 (Booth's recoding of radix 4).
    Recoded,
}

/// The literals of a factor, the lowest first.
#[derive(Drop)]
struct Word {
    literals: Vec<Literal>,
    is_signed: bool,
}

impl Word {
    fn of(alloc: Global, inputs: &[Literal], factor: &Factor) -> Result<Word, AllocError> {
        let mut literals = Vec::with_capacity(alloc, factor.places.len())?;
        for place in &factor.places {
            literals.push(inputs.get(*place).copied().unwrap_or(FALSE))?;
        }
        Ok(Word {
            literals,
            is_signed: factor.is_signed,
        })
    }

    fn len(&self) -> usize {
        self.literals.len()
    }

    /// A bit, of which those beyond the last one are the sign.
    fn bit(&self, k: usize) -> Literal {
        let beyond = if self.is_signed {
            self.literals.last().copied().unwrap_or(FALSE)
        } else {
            FALSE
        };
        self.literals.get(k).copied().unwrap_or(beyond)
    }

    /// Whether a bit counts as less than nothing.
    fn is_sign(&self, k: usize) -> bool {
        self.is_signed && k.saturating_add(1) == self.len()
    }
}

/// The literals of a product's factors, of which the first one makes the rows.
#[derive(Drop)]
struct Factors {
    lowest: usize,
    first: Word,
    second: Word,
    is_negative: bool,
}

impl Factors {
    /// Those of a product of inputs, of which these are the literals by their places. Fails where
    /// memory is refused.
    fn of(
        alloc: Global,
        inputs: &[Literal],
        product: &Product,
        is_swapped: bool,
    ) -> Result<Factors, AllocError> {
        let (first, second) = if is_swapped {
            (&product.second, &product.first)
        } else {
            (&product.first, &product.second)
        };
        Ok(Factors {
            lowest: product.lowest as usize,
            first: Word::of(alloc, inputs, first)?,
            second: Word::of(alloc, inputs, second)?,
            is_negative: product.is_negative,
        })
    }

    /// Whether the row of a bit of the first word counts as less than nothing.
    fn is_row_negative(&self, i: usize) -> bool {
        self.first.is_sign(i) != self.is_negative
    }

    /// The digit of two bits of the first word from one on, less than nothing where the product is
    /// and the digit isn't. Fails where memory is refused.
    fn digit(&self, netlist: &mut Netlist, at: usize) -> Result<Digit, AllocError> {
        let low = if at == 0 {
            FALSE
        } else {
            self.first.bit(at - 1)
        };
        let high = self.first.bit(at.saturating_add(1));
        let digit = Digit::of(netlist, low, self.first.bit(at), high)?;
        let negative = negated_if(digit.negative, self.is_negative);
        Ok(Digit { negative, ..digit })
    }
}

/// A digit of two bits: whether it is odd, whether it is two or less than nothing by two, and
/// whether it is less than nothing.
#[derive(Clone, Copy)]
struct Digit {
    one: u32,
    two: Literal,
    negative: Literal,
}

impl Digit {
    /// The digit of three bits of a factor. Fails where memory is refused.
    fn of(
        netlist: &mut Netlist,
        low: Literal,
        middle: Literal,
        high: Literal,
    ) -> Result<Digit, AllocError> {
        let one = netlist.xor(low, middle)?;
        let both = netlist.and(low, middle)?;
        let neither = netlist.and(negated(low), negated(middle))?;
        let down = netlist.and(high, neither)?;
        let up = netlist.and(negated(high), both)?;
        let two = netlist.or(down, up)?;
        Ok(Digit {
            one,
            two,
            negative: high,
        })
    }
}

/// The rows that are added up, and a number.
#[derive(Drop)]
pub(crate) struct Partial {
    alloc: Global,
    pub(crate) bits: usize,
    pub(crate) rows: Vec<Row>,
    /// Which product or word the rows are of that come now, from 0 on.
    part: usize,
    order: Order,
    number: u128,
}

impl Partial {
    pub(crate) fn new(alloc: Global, bits: usize) -> Partial {
        Partial {
            alloc,
            bits,
            rows: Vec::new(alloc),
            part: 0,
            order: Order::Ascending,
            number: 0,
        }
    }

    /// A row without literals, of the product or word whose rows come now. Fails where memory is
    /// refused, as all that follows does.
    fn row(&self) -> Result<Row, AllocError> {
        let part = self.part;
        let row = Row::new(self.alloc, self.bits)?;
        Ok(Row { part, ..row })
    }

    /// Puts the rows into an order.
    pub(crate) fn order(&mut self, order: Order) -> Result<(), AllocError> {
        self.order = order;
        let count = self.rows.len();
        let mut keys = Vec::with_capacity(self.alloc, count)?;
        for k in 0..count {
            keys.push((self.rows[k].key(order, self.part), k))?;
        }
        keys.sort_unstable();
        let mut places = Vec::with_capacity(self.alloc, count)?;
        for (_, k) in &keys {
            places.push(*k)?;
        }
        self.take_order(&places)
    }

    /// Puts the rows in the order of these places. Fails where memory is refused.
    pub(crate) fn take_order(&mut self, places: &[usize]) -> Result<(), AllocError> {
        let mut rows = Vec::with_capacity(self.alloc, places.len())?;
        for k in places {
            if let Some(row) = self.rows.get(*k) {
                rows.push(row.copied()?)?;
            }
        }
        self.rows = rows;
        Ok(())
    }

    /// What a row has in a column that takes its place there.
    pub(crate) fn entry(&self, row: &Row, column: usize) -> Option<u32> {
        row.entry(column)
            .filter(|it| *it != FALSE || self.order != Order::Single)
    }

    /// A literal as it counts in a column: one that is taken away is its complement, less one.
    fn counted(&mut self, column: usize, literal: Literal, is_less: bool) -> u32 {
        if is_less && column < 128 {
            self.number = self.number.wrapping_sub(1u128 << column);
        }
        negated_if(literal, is_less)
    }

    /// Puts the rows of a product, one for each bit of the first word.
    fn put_plain(&mut self, netlist: &mut Netlist, factors: &Factors) -> Result<(), AllocError> {
        let Factors { first, second, .. } = factors;
        for i in 0..first.len() {
            let from = factors.lowest.saturating_add(i);
            let mut row = self.row()?;
            for j in 0..second.len() {
                let column = from.saturating_add(j);
                if column < self.bits {
                    let both = netlist.and(first.bit(i), second.bit(j))?;
                    let is_less = factors.is_row_negative(i) != second.is_sign(j);
                    row.put(column, self.counted(column, both, is_less));
                }
            }
            self.rows.push(row)?;
        }
        Ok(())
    }

    /// Puts the complement of a row and counts one more, which takes the row away.
    fn take_away(&mut self, mut row: Row) -> Result<(), AllocError> {
        row.complement();
        self.put_number(1);
        self.rows.push(row)?;
        Ok(())
    }

    /// Puts the sign of a factor, by which its row was complemented, where it counts one more.
    fn put_sign(
        &mut self,
        column: usize,
        literal: Literal,
        is_negative: bool,
    ) -> Result<(), AllocError> {
        let mut row = self.row()?;
        row.put(column, literal);
        if is_negative {
            return self.take_away(row);
        }
        row.kind = Kind::Input;
        self.rows.push(row)?;
        Ok(())
    }

    /// Puts the same rows, each with a literal in all columns: that of a sign has the other word's
    /// complement, and its sign once more.
    fn put_whole(&mut self, netlist: &mut Netlist, factors: &Factors) -> Result<(), AllocError> {
        let Factors {
            first,
            second,
            is_negative,
            ..
        } = factors;
        for i in 0..first.len() {
            let from = factors.lowest.saturating_add(i);
            let is_sign = first.is_sign(i);
            let mut row = Row {
                place: i,
                ..self.row()?
            };
            for column in 0..self.bits {
                let bit = match column.checked_sub(from) {
                    None => FALSE,
                    Some(j) => negated_if(second.bit(j), is_sign),
                };
                row.put(column, netlist.and(first.bit(i), bit)?);
            }
            if *is_negative {
                self.take_away(row)?;
            } else {
                self.rows.push(row)?;
            }
            if is_sign {
                self.put_sign(from, first.bit(i), *is_negative)?;
            }
        }
        Ok(())
    }

    /// Puts the row of a digit from its lowest column on, and a row of what makes it negative.
    fn put_digit(
        &mut self,
        netlist: &mut Netlist,
        lowest: usize,
        digit: Digit,
        word: &Word,
    ) -> Result<(), AllocError> {
        let mut row = self.row()?;
        for k in 0..word.len().saturating_add(1) {
            let single = netlist.and(digit.one, word.bit(k))?;
            let below = if k == 0 { FALSE } else { word.bit(k - 1) };
            let double = netlist.and(digit.two, below)?;
            let either = netlist.or(single, double)?;
            let literal = netlist.xor(either, digit.negative)?;
            let is_sign = word.is_signed && k == word.len();
            let column = lowest.saturating_add(k);
            row.put(column, self.counted(column, literal, is_sign));
        }
        if !word.is_signed && digit.negative != FALSE {
            let end = lowest.saturating_add(word.len()).saturating_add(1);
            row.put(end, self.counted(end, digit.negative, true));
        }
        self.rows.push(row)?;
        let mut more = self.row()?;
        more.put(lowest, digit.negative);
        self.rows.push(more)?;
        Ok(())
    }

    /// Puts the rows of a product by the digits of the first word.
    fn put_recoded(&mut self, netlist: &mut Netlist, factors: &Factors) -> Result<(), AllocError> {
        let first = &factors.first;
        let bits = first.len().saturating_add(usize::from(!first.is_signed));
        for place in 0..bits.div_ceil(2) {
            let at = place.saturating_mul(2);
            let digit = factors.digit(netlist, at)?;
            let lowest = factors.lowest.saturating_add(at);
            self.put_digit(netlist, lowest, digit, &factors.second)?;
        }
        Ok(())
    }

    /// Puts the rows of a product of inputs, of which these are the literals by their places.
    pub(crate) fn put_product(
        &mut self,
        netlist: &mut Netlist,
        inputs: &[Literal],
        product: &Product,
        digits: Digits,
        is_swapped: bool,
    ) -> Result<(), AllocError> {
        let factors = Factors::of(self.alloc, inputs, product, is_swapped)?;
        match digits {
            Digits::Plain => self.put_plain(netlist, &factors)?,
            Digits::Whole => self.put_whole(netlist, &factors)?,
            Digits::Recoded => self.put_recoded(netlist, &factors)?,
        }
        self.part = self.part.saturating_add(1);
        Ok(())
    }

    /// Puts a literal into the first of the rows from this one on in whose column there is none.
    fn put_single(
        &mut self,
        from: usize,
        column: usize,
        literal: Literal,
    ) -> Result<(), AllocError> {
        for k in from..self.rows.len() {
            if self.rows[k].at(column) == FALSE {
                self.rows[k].put(column, literal);
                return Ok(());
            }
        }
        let mut row = self.row()?;
        row.put(column, literal);
        self.rows.push(row)?;
        Ok(())
    }

    /// Puts the inputs that count by themselves so often, in rows of their own.
    pub(crate) fn put_singles(
        &mut self,
        inputs: &[Literal],
        singles: &[u128],
        digits: Digits,
    ) -> Result<(), AllocError> {
        match digits {
            Digits::Plain | Digits::Recoded => self.put_counted_singles(inputs, singles),
            Digits::Whole => self.put_whole_singles(inputs, singles),
        }
    }

    /// Puts them where the complement counts of what is taken away.
    fn put_counted_singles(
        &mut self,
        inputs: &[Literal],
        singles: &[u128],
    ) -> Result<(), AllocError> {
        let from = self.rows.len();
        for place in 0..singles.len().min(inputs.len()) {
            let times = singles[place];
            if let Some((column, is_less)) = column_of(times, self.bits) {
                let column = column as usize;
                let literal = self.counted(column, inputs[place], is_less);
                self.put_single(from, column, literal)?;
                continue;
            }
            for column in 0..self.bits.min(128) {
                if times >> column & 1 == 1 {
                    self.put_single(from, column, inputs[place])?;
                }
            }
        }
        self.part = self.part.saturating_add(1);
        Ok(())
    }

    /// Puts them where those that are taken away are in whole rows.
    fn put_whole_singles(
        &mut self,
        inputs: &[Literal],
        singles: &[u128],
    ) -> Result<(), AllocError> {
        let mut counted = singles.to_vec(self.alloc)?;
        let mut others = Partial::new(self.alloc, self.bits);
        let is_some_taken_away = singles.iter().any(|times| is_taken_away(*times, self.bits));
        for place in 0..counted.len().min(inputs.len()) {
            if let Some((column, is_less)) = column_of(counted[place], self.bits) {
                // In the last column nothing tells what is taken away from what isn't.
                let is_last = (column as usize).saturating_add(1) == self.bits;
                if is_less || is_last && is_some_taken_away {
                    others.put_single(0, column as usize, inputs[place])?;
                    counted[place] = 0;
                }
            }
        }
        for row in &others.rows {
            let part = self.part;
            self.take_away(Row {
                part,
                ..row.copied()?
            })?;
        }
        self.put_counted_singles(inputs, &counted)
    }

    /// Counts a number in.
    pub(crate) fn put_number(&mut self, number: u128) {
        self.number = self.number.wrapping_add(number);
    }

    /// The literal that the number has in a column.
    pub(crate) fn digit(&self, column: usize) -> Literal {
        if column < 128 && self.number >> column & 1 == 1 {
            TRUE
        } else {
            FALSE
        }
    }

    /// The literals of a column, one behind the other: first that of the number, and then what rows
    /// have there.
    pub(crate) fn column(&self, column: usize) -> Result<Vec<u32>, AllocError> {
        let mut literals = Vec::new(self.alloc);
        if self.digit(column) == TRUE {
            literals.push(TRUE)?;
        }
        for row in &self.rows {
            if let Some(literal) = self.entry(row, column) {
                literals.push(literal)?;
            }
        }
        Ok(literals)
    }
}

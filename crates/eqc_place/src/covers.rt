//! The covers of steps as they are simulated: rows of literals, all in one list. Nothing is
//! believed of them.
ghost use Rattle.std.specs.Prelude.{◌<◌};
ghost use Rattle.eqc_build.specs.Steps.{steps_in};

use crate::partner::NONE;
use crate::words::word_at;
use eqc_build::{StepDriver, Steps, Uses};
use eqc_netlist::{Rows, is_on_set};
use eqc_xag::Literal;
use std::alloc::{AllocError, Global};

/// Where more literals than so many would be listed, for each instance of a model anew, further
/// covers are taken to have no rows.
const LITERALS: usize = 16_777_216;

/// The cover of a step: which rows are its own, and whether they tell where it is 0; or else its
/// variable.
#[derive(Clone, Copy)]
struct Cover {
    begin: usize,
    end: usize,
    is_off: bool,
    variable: u32,
}

/// What marked steps compute of others. A literal is twice a step's number, and one more where the
/// step has to be 0.
#[derive(Drop)]
pub(crate) struct Covers {
    covers: Vec<Cover>,
    /// Where the literals of each row end; they begin where those of the row before end.
    ends: Vec<usize>,
    literals: Vec<Literal>,
}

impl Covers {
    /// Those of the marked steps of a pair. Fails where memory is refused.
    pub(crate) fn of(
        alloc: Global,
        steps: &Steps<'_>,
        marks: &[bool],
    ) -> Result<Covers, AllocError> {
        let count = steps.len();
        let mut covers = Covers {
            covers: Vec::with_capacity(alloc, count as usize)?,
            ends: Vec::new(alloc),
            literals: Vec::new(alloc),
        };
        for step in 0..count {
            if marks.get(step as usize).copied().unwrap_or(false) {
                covers.add(steps, step)?;
            } else {
                covers.end_cover(covers.rows(), false, NONE)?;
            }
        }
        Ok(covers)
    }

    /// How many rows there are so far.
    fn rows(&self) -> usize {
        self.ends.len()
    }

    /// Ends a cover whose rows began there. Fails where memory is refused.
    fn end_cover(&mut self, begin: usize, is_off: bool, variable: u32) -> Result<(), AllocError> {
        let end = self.rows();
        self.covers.push(Cover {
            begin,
            end,
            is_off,
            variable,
        })?;
        Ok(())
    }

    /// Adds a row of a cover. Fails where memory is refused.
    fn add_row(&mut self, row: &[u8], columns: &Uses<'_>) -> Result<(), AllocError> {
        for c in 0..columns.len().min(row.len()) {
            let literal = columns.get(c) << 1;
            match row[c] {
                b'0' => self.literals.push(literal | 1)?,
                b'1' => self.literals.push(literal)?,
                _ => {}
            }
        }
        self.ends.push(self.literals.len())?;
        Ok(())
    }

    /// Adds the rows of a cover. Fails where memory is refused.
    fn add_rows(&mut self, rows: &Rows<'_>, columns: &Uses<'_>) -> Result<(), AllocError> {
        for k in 0..rows.len() {
            if self.literals.len() < LITERALS {
                self.add_row(rows.get(k), columns)?;
            }
        }
        Ok(())
    }

    /// Adds what a step computes. Fails where memory is refused.
    fn add(&mut self, steps: &Steps<'_>, step: u32) -> Result<(), AllocError>
        requires { step < steps_in steps.now.pair }
    {
        let begin = self.rows();
        match steps.driver(step) {
            StepDriver::Variable(variable) => self.end_cover(begin, false, u32::from(variable)),
            StepDriver::Copy(other) => {
                self.literals.push(other << 1)?;
                self.ends.push(self.literals.len())?;
                self.end_cover(begin, false, NONE)
            }
            StepDriver::Cover { columns, rows, .. } => {
                self.add_rows(rows, &columns)?;
                let is_off = !(rows.is_empty() || is_on_set(rows));
                self.end_cover(begin, is_off, NONE)
            }
            // The steps are entered without tables.
            StepDriver::Table { .. } => self.end_cover(begin, false, NONE),
        }
    }

    /// Where the literals of a row begin.
    fn begin_of(&self, row: usize) -> usize {
        if row == 0 {
            return 0;
        }
        self.ends.get(row - 1).copied().unwrap_or(0)
    }

    /// About how many literals the cover of a step has, and one more for each row and for itself.
    pub(crate) fn size(&self, step: u32) -> u64 {
        let Some(cover) = self.covers.get(step as usize).copied() else {
            return 1;
        };
        let rows = cover.end.saturating_sub(cover.begin);
        let literals = self
            .begin_of(cover.end)
            .saturating_sub(self.begin_of(cover.begin));
        (literals as u64)
            .saturating_add(rows as u64)
            .saturating_add(1)
    }

    /// The size of all covers.
    pub(crate) fn whole(&self) -> u64 {
        (self.literals.len() as u64)
            .saturating_add(self.ends.len() as u64)
            .saturating_add(self.covers.len() as u64)
    }

    /// The words under which a row matches, where one step may be turned.
    fn row_word(&self, words: &[u64], row: usize, turned: u32) -> u64 {
        let mut matched = u64::MAX;
        for k in self.begin_of(row)..self.begin_of(row.saturating_add(1)) {
            let literal = self.literals.get(k).copied().unwrap_or(0);
            let step = literal >> 1;
            let word = word_at(words, step);
            let is_opposite = (literal & 1 != 0) != (step == turned);
            matched &= if is_opposite { !word } else { word };
        }
        matched
    }

    /// The word that a step has by those of others, of which one may be turned, and by those of the
    /// variables.
    pub(crate) fn word(&self, inputs: &[u64], words: &[u64], step: u32, turned: u32) -> u64 {
        let Some(cover) = self.covers.get(step as usize).copied() else {
            return 0;
        };
        if cover.variable != NONE {
            return word_at(inputs, cover.variable);
        }
        let mut found = 0;
        for row in cover.begin..cover.end {
            found |= self.row_word(words, row, turned);
        }
        if cover.is_off { !found } else { found }
    }
}

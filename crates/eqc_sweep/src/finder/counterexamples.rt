//! Counterexamples, until they are simulated.

use crate::finder::patterns::Patterns;
use eqc_xag::Graph;
use std::alloc::{AllocError, Global};

/// How many counterexamples a row has room for.
pub(crate) const ROOM: u32 = 64;

/// A row that is being filled with counterexamples, one in each place of its words.
#[derive(Drop)]
pub(crate) struct Counterexamples {
    row: Vec<u64>,
    count: u32,
}

impl Counterexamples {
    pub(crate) fn new(alloc: Global) -> Counterexamples {
        Counterexamples {
            row: Vec::new(alloc),
            count: 0,
        }
    }

    /// How many there are.
    pub(crate) fn count(&self) -> u32 {
        self.count
    }

    /// Takes what is there, and leaves nothing.
    pub(crate) fn take(&mut self, alloc: Global) -> Vec<u64> {
        self.count = 0;
        std::mem::replace(&mut self.row, Vec::new(alloc))
    }

    /// Forgets nodes from this number on.
    pub(crate) fn truncate(&mut self, nodes: u32) {
        self.row.truncate(nodes as usize);
    }

    /// Begins a row, where there is none.
    pub(crate) fn begin(
        &mut self,
        alloc: Global,
        graph: &Graph,
        patterns: &mut Patterns,
    ) -> Result<(), AllocError> {
        if self.count == 0 {
            self.row = patterns.fresh_row(alloc, graph)?;
        }
        Ok(())
    }

    /// Adds values of inputs in the next place.
    pub(crate) fn add(&mut self, model: &[(u32, bool)]) {
        let place = 1u64 << (self.count % 64);
        for (node, value) in model {
            let at = *node as usize;
            if at < self.row.len() {
                let others = self.row[at] & (u64::MAX ^ place);
                self.row[at] = if *value { others | place } else { others };
            }
        }
        self.count = self.count.saturating_add(1);
    }

    /// Adds values of inputs in the first place, and near assignments in the others.
    pub(crate) fn add_with_neighbours(&mut self, model: &[(u32, bool)], patterns: &mut Patterns) {
        for (node, value) in model {
            let at = *node as usize;
            if at < self.row.len() {
                let flips = patterns.neighbours();
                self.row[at] = if *value { u64::MAX ^ flips } else { flips };
            }
        }
        self.count = ROOM;
    }

    /// Adds values of inputs, in each place with the other value for one of them: in row k of these
    /// for the 64 behind the first 64 * k.
    pub(crate) fn add_flipped(&mut self, model: &[(u32, bool)], row: usize) {
        for (input, (node, value)) in model.iter().enumerate() {
            let at = *node as usize;
            if at < self.row.len() {
                let flip = if input / 64 == row {
                    1u64 << (input % 64)
                } else {
                    0
                };
                self.row[at] = if *value { u64::MAX ^ flip } else { flip };
            }
        }
        self.count = ROOM;
    }
}

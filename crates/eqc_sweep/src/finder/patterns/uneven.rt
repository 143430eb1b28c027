//! Rows in which inputs are mostly as the ones before them, or mostly true: numbers in which
//! carries go far.

use crate::finder::patterns::Patterns;
use eqc_xag::{Graph, Node};
use std::alloc::{AllocError, Global};

/// So many kinds of rows there are: in each second one inputs are as the ones before them, and in
/// the others true, but for one of 4, of 8, of 16 or of 32.
const KINDS: usize = 4;

impl Patterns {
    /// A word in which one place is set of four, or of twice as many for each more kind.
    fn few(&mut self, kind: usize) -> u64 {
        let mut word = self.random.next() & self.random.next();
        for _k in 0..kind % KINDS {
            word &= self.random.next();
        }
        word
    }

    /// A row of uneven values: a word for each input, and 0 for each gate.
    pub(crate) fn uneven_row(
        &mut self,
        alloc: Global,
        graph: &Graph,
        row: usize,
    ) -> Result<Vec<u64>, AllocError> {
        let mut words = Vec::with_capacity(alloc, graph.len() as usize)?;
        let mut last = self.random.next();
        for k in 0..graph.len() {
            let word = match graph.node(k) {
                Node::Input(_) => {
                    let others = self.few(row / 2);
                    last = if row % 2 == 0 {
                        last ^ others
                    } else {
                        u64::MAX ^ others
                    };
                    last
                }
                Node::Constant | Node::And(_, _) | Node::Xor(_, _) => 0,
            };
            words.push(word)?;
        }
        Ok(words)
    }
}

//! Simulation: words of random patterns and of counterexamples, and each node's signature. Nothing
//! is believed of it.

pub(crate) mod carry;
pub(crate) mod fixed;
pub(crate) mod uneven;

use crate::finder::patterns::fixed::{FIXED, FIXED_FOR_MANY, draws, input_word};
use crate::finder::random::Random;
use crate::finder::words::{
    TOGETHER, Words, share_of, shares_of, word_at, word_by, words_at, words_by, words_of,
};
use eqc_xag::{Graph, Literal, Node};
use std::alloc::{AllocError, Global};

/// How many rows of counterexamples there may be.
const MOST: usize = 32;

/// How many there may be in a graph of fewer nodes than so many.
const MOST_IN_SMALL: usize = 128;

const SMALL: u32 = 65_536;

/// The words of all nodes, and the signatures.
#[derive(Drop)]
pub(crate) struct Patterns {
    alloc: Global,
    /// The words of nodes in the first rows, those in the next ones, and so on: those of a node lie
    /// together, since a new node needs those of its operands in all rows.
    blocks: Vec<Vec<Words>>,
    rows: usize,
    /// How many rows there are before those of counterexamples.
    fixed: usize,
    /// The words of inputs, in their order, in the first rows: of those of another graph.
    kept: Vec<Vec<u64>>,
    /// By node.
    phases: Vec<bool>,
    signatures: Vec<u64>,
    random: Random,
    /// How many inputs there are.
    inputs: u32,
    /// The row of counterexamples that is replaced next, once there are all.
    oldest: usize,
}

/// The word that an input of this number has in a row, if it was kept.
fn kept_at(kept: &[Vec<u64>], input: u32, row: usize) -> Option<u64> {
    kept.get(row)?.get(input as usize).copied()
}

/// So many blocks without nodes.
fn empty_blocks(alloc: Global, rows: usize) -> Result<Vec<Vec<Words>>, AllocError> {
    let mut blocks = Vec::new(alloc);
    for _ in 0..rows.div_ceil(TOGETHER) {
        blocks.push(Vec::new(alloc))?;
    }
    Ok(blocks)
}

/// Puts the words of nodes in a row in a lane of their block.
fn put_words(block: &mut Vec<Words>, lane: usize, row: &[u64]) {
    for (k, word) in row.iter().enumerate() {
        if k < block.len() && lane < TOGETHER {
            let mut words = block[k];
            words[lane] = *word;
            block[k] = words;
        }
    }
}

impl Patterns {
    /// The rows that are there before counterexamples, without nodes, for few inputs or for many.
    pub(crate) fn new(alloc: Global, has_many_inputs: bool) -> Result<Patterns, AllocError> {
        let fixed = if has_many_inputs {
            FIXED_FOR_MANY
        } else {
            FIXED
        };
        Ok(Patterns {
            alloc,
            blocks: empty_blocks(alloc, fixed)?,
            rows: fixed,
            fixed,
            kept: Vec::new(alloc),
            phases: Vec::new(alloc),
            signatures: Vec::new(alloc),
            random: Random::new(),
            inputs: 0,
            oldest: fixed,
        })
    }

    /// The same rows without nodes, for a graph whose inputs are those of these nodes, in the same
    /// order.
    pub(crate) fn again(
        &self,
        alloc: Global,
        inputs: &[(u32, u32)],
    ) -> Result<Patterns, AllocError> {
        let mut kept = Vec::with_capacity(alloc, self.rows)?;
        for row in 0..self.rows {
            let mut words = Vec::with_capacity(alloc, inputs.len())?;
            for (k, _) in inputs {
                words.push(self.word(row, *k as usize))?;
            }
            kept.push(words)?;
        }
        Ok(Patterns {
            alloc,
            blocks: empty_blocks(alloc, self.rows)?,
            rows: self.rows,
            fixed: self.fixed,
            kept,
            phases: Vec::new(alloc),
            signatures: Vec::new(alloc),
            random: Random::new(),
            inputs: 0,
            oldest: self.oldest,
        })
    }

    /// The signatures, by nodes.
    pub(crate) fn signatures(&self) -> &[u64] {
        self.signatures.as_slice()
    }

    /// The signature of a node: the same for its complement.
    pub(crate) fn signature(&self, k: u32) -> u64 {
        word_at(self.signatures.as_slice(), k)
    }

    /// The first simulated value of a node.
    pub(crate) fn phase(&self, k: u32) -> bool {
        self.flip(k as usize) != 0
    }

    /// What makes the first value of a node false: nothing, or the complement.
    fn flip(&self, k: usize) -> u64 {
        match self.phases.get(k) {
            Some(true) => u64::MAX,
            Some(false) | None => 0,
        }
    }

    /// The word of a node in a row.
    fn word(&self, row: usize, k: usize) -> u64 {
        match self.blocks.get(row / TOGETHER) {
            None => 0,
            Some(block) => words_at(block.as_slice(), k)[row % TOGETHER],
        }
    }

    /// The pattern under which two literals differ: the row, and the place in its words.
    pub(crate) fn difference(&self, x: Literal, y: Literal) -> Option<(usize, u32)> {
        for (at, block) in self.blocks.iter().enumerate() {
            let of_x = words_of(block.as_slice(), x);
            let of_y = words_of(block.as_slice(), y);
            for lane in 0..TOGETHER {
                let word = of_x[lane] ^ of_y[lane];
                let row = at.wrapping_mul(TOGETHER).wrapping_add(lane);
                if word != 0 && row < self.rows {
                    return Some((row, word.trailing_zeros()));
                }
            }
        }
        None
    }

    /// The value of a node in a pattern.
    pub(crate) fn value(&self, row: usize, place: u32, k: u32) -> bool {
        (self.word(row, k as usize) >> (place % 64)) % 2 == 1
    }

    /// The words of a node in the rows of a block, if it is an input. A gate draws as many random
    /// numbers as an input, though it needs none: so later inputs keep the words with which all was
    /// measured, since other words find other things.
    fn drawn(&mut self, node: Node, block: usize) -> Words {
        let mut words = [0; TOGETHER];
        for lane in 0..TOGETHER {
            let row = block.wrapping_mul(TOGETHER).wrapping_add(lane);
            if row >= self.rows {
                break;
            }
            let kept = kept_at(self.kept.as_slice(), self.inputs, row);
            words[lane] = match (kept, node) {
                (Some(word), _) => word,
                (None, Node::Input(_)) => {
                    input_word(&mut self.random, self.inputs, row, self.fixed)
                }
                (None, _) => {
                    for _ in 0..draws(row, self.fixed) {
                        self.random.next();
                    }
                    0
                }
            };
        }
        words
    }

    /// Simulates a new node.
    pub(crate) fn push(&mut self, node: Node) -> Result<(), AllocError> {
        let mut signature: u64 = 0;
        let mut is_flipped = false;
        for at in 0..self.blocks.len() {
            let drawn = self.drawn(node, at);
            if at >= self.blocks.len() {
                break;
            }
            let block = &mut self.blocks[at];
            let words = words_by(block.as_slice(), node, drawn);
            block.push(words)?;
            if at == 0 {
                is_flipped = words[0] % 2 == 1;
            }
            signature = signature.wrapping_add(shares_of(at, self.rows, words, is_flipped));
        }
        self.phases.push(is_flipped)?;
        self.signatures.push(signature)?;
        if let Node::Input(_) = node {
            self.inputs = self.inputs.wrapping_add(1);
        }
        Ok(())
    }

    /// Takes the last node back.
    pub(crate) fn pop(&mut self) {
        for at in 0..self.blocks.len() {
            self.blocks[at].pop();
        }
        self.phases.pop();
        self.signatures.pop();
    }

    /// A word for each input, and 0 for each gate.
    pub(crate) fn fresh_row(
        &mut self,
        alloc: Global,
        graph: &Graph,
    ) -> Result<Vec<u64>, AllocError> {
        let mut row = Vec::new(alloc);
        self.lengthen(graph, &mut row)?;
        Ok(row)
    }

    /// Words for the nodes that came since a row was begun.
    fn lengthen(&mut self, graph: &Graph, row: &mut Vec<u64>) -> Result<(), AllocError> {
        for k in row.len()..graph.len() as usize {
            let word = match graph.node(k as u32) {
                Node::Input(_) => self.random.next(),
                Node::Constant => 0,
                Node::And(_, _) => 0,
                Node::Xor(_, _) => 0,
            };
            row.push(word)?;
        }
        Ok(())
    }

    /// A word in which each place is set with one of eight, but for the first, which isn't.
    pub(crate) fn neighbours(&mut self) -> u64 {
        let flips = self.random.next() & self.random.next() & self.random.next();
        flips & (u64::MAX - 1)
    }

    /// Simulates a row whose inputs have words, and puts it behind the others, or in place of the
    /// oldest of counterexamples.
    pub(crate) fn add_row(&mut self, graph: &Graph, mut row: Vec<u64>) -> Result<(), AllocError> {
        self.lengthen(graph, &mut row)?;
        for k in 0..graph.len() {
            let word = word_by(row.as_slice(), graph.node(k), word_at(row.as_slice(), k));
            if (k as usize) < row.len() {
                row[k as usize] = word;
            }
        }
        let most = if graph.len() < SMALL {
            MOST_IN_SMALL
        } else {
            MOST
        };
        if self.rows < self.fixed.saturating_add(most) {
            let at = self.rows;
            self.make_room(at)?;
            self.rows = at.wrapping_add(1);
            self.put(at, row.as_slice());
            return Ok(());
        }
        let at = self.oldest;
        let next = at.wrapping_add(1);
        self.oldest = if next < self.rows { next } else { self.fixed };
        self.discount(at);
        self.put(at, row.as_slice());
        Ok(())
    }

    /// Makes the block of a row, if it isn't there.
    fn make_room(&mut self, at: usize) -> Result<(), AllocError> {
        if at / TOGETHER < self.blocks.len() {
            return Ok(());
        }
        let mut block = Vec::with_capacity(self.alloc, self.signatures.len())?;
        block.resize(self.signatures.len(), [0; TOGETHER])?;
        self.blocks.push(block)?;
        Ok(())
    }

    /// Forgets the rows that a graph of as many nodes has no room for, and answers whether there
    /// were some: nodes have other signatures then.
    pub(crate) fn shorten(&mut self) -> bool {
        let most = self.fixed.saturating_add(MOST);
        if self.signatures.len() < SMALL as usize || self.rows <= most {
            return false;
        }
        for at in most..self.rows {
            self.discount(at);
        }
        self.rows = most;
        self.blocks.truncate(most.div_ceil(TOGETHER));
        self.oldest = self.fixed;
        true
    }

    /// Puts a row in its place, and adds it to the signatures.
    fn put(&mut self, at: usize, row: &[u64]) {
        if let Some(block) = self.blocks.get_mut(at / TOGETHER) {
            put_words(block, at % TOGETHER, row);
        }
        for k in 0..self.signatures.len() {
            let share = share_of(at, self.word(at, k) ^ self.flip(k));
            self.signatures[k] = self.signatures[k].wrapping_add(share);
        }
    }

    /// Takes a row out of the signatures.
    fn discount(&mut self, at: usize) {
        for k in 0..self.signatures.len() {
            let share = share_of(at, self.word(at, k) ^ self.flip(k));
            self.signatures[k] = self.signatures[k].wrapping_sub(share);
        }
    }
}

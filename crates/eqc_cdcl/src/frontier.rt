//! The gates at the edge of a window, of which the highest is next: of two of one height the later
//! one.
use crate::reads::{NONE, lengthen, number, read, write};
use std::alloc::{AllocError, Global};

/// So many gates of one height are put in order by insertion: mostly there are one or two.
const FEW: usize = 16;

/// Gates by their heights. A gate that comes is mostly lower than the last one that was taken out,
/// so that those of one height are put in order once.
#[derive(Drop)]
pub(crate) struct Frontier {
    /// By height: the gate that came last. By gate: the one of its height that came before it.
    heads: Vec<u32>,
    before: Vec<u32>,
    /// By 64 heights: which have gates. No word behind `top` has a bit.
    words: Vec<u64>,
    top: u32,
    /// The gates of the height that is next, in their order, so that the last one is next.
    row: Vec<u32>,
    height: u32,
    /// How many gates there are.
    size: u32,
}

impl Frontier {
    pub(crate) fn new(alloc: Global) -> Frontier {
        Frontier {
            heads: Vec::new(alloc),
            before: Vec::new(alloc),
            words: Vec::new(alloc),
            top: 0,
            row: Vec::new(alloc),
            height: 0,
            size: 0,
        }
    }

    /// Makes room for so many nodes, the highest of this height.
    pub(crate) fn grow(&mut self, nodes: u32, highest: u32) -> Result<(), AllocError> {
        lengthen(&mut self.before, nodes, NONE)?;
        lengthen(&mut self.heads, highest.saturating_add(1), NONE)?;
        lengthen(&mut self.words, highest / 64 + 1, 0)
    }

    pub(crate) fn is_empty(&self) -> bool {
        self.size == 0
    }

    /// Puts a gate in.
    pub(crate) fn push(&mut self, gate: u32, height: u32) {
        if height >= self.height {
            self.put_back();
        }
        self.size = self.size.wrapping_add(1);
        self.link(gate, height);
    }

    /// Puts a gate to those of its height.
    fn link(&mut self, gate: u32, height: u32) {
        let word = height / 64;
        write(&mut self.before, gate, read(&self.heads, height, NONE));
        write(&mut self.heads, height, gate);
        let bits = read(&self.words, word, 0) | 1 << (height % 64);
        write(&mut self.words, word, bits);
        self.top = self.top.max(word);
    }

    /// Puts the gates that are in order to the others, since one comes that may be next.
    fn put_back(&mut self) {
        for _ in 0..self.row.len() {
            if let Some(gate) = self.row.pop() {
                self.link(gate, self.height);
            }
        }
    }

    /// Takes the greatest height that has gates out of the row of those, and gives its last gate.
    fn highest(&mut self) -> Option<(u32, u32)> {
        for _ in 0..self.words.len() {
            if read(&self.words, self.top, 0) != 0 {
                break;
            }
            self.top = self.top.saturating_sub(1);
        }
        let bits = read(&self.words, self.top, 0);
        if bits == 0 {
            return None;
        }
        let bit = 63u32.saturating_sub(bits.leading_zeros());
        let rest = bits & ((1u64 << (bit % 64)) ^ u64::MAX);
        write(&mut self.words, self.top, rest);
        let height = self.top.wrapping_mul(64).wrapping_add(bit);
        let gate = read(&self.heads, height, NONE);
        write(&mut self.heads, height, NONE);
        Some((height, gate))
    }

    /// Puts the gates of the greatest height in order.
    fn gather(&mut self) -> Result<(), AllocError> {
        let Some((height, last)) = self.highest() else {
            return Ok(());
        };
        self.height = height;
        let mut gate = last;
        for _ in 0..self.before.len() {
            if gate == NONE {
                break;
            }
            self.row.push(gate)?;
            gate = read(&self.before, gate, NONE);
        }
        self.order();
        Ok(())
    }

    /// Puts the row in order.
    fn order(&mut self) {
        if self.row.len() > FEW {
            self.row.sort_unstable();
            return;
        }
        for at in 1..number(self.row.len()) {
            let gate = read(&self.row, at, NONE);
            let mut place = at;
            for _ in 0..at {
                let other = read(&self.row, place.wrapping_sub(1), 0);
                if other <= gate {
                    break;
                }
                write(&mut self.row, place, other);
                place = place.wrapping_sub(1);
            }
            write(&mut self.row, place, gate);
        }
    }

    /// The highest gate, which is taken out.
    pub(crate) fn pop(&mut self) -> Result<Option<u32>, AllocError> {
        if self.row.is_empty() {
            self.gather()?;
        }
        let gate = self.row.pop();
        if gate.is_some() {
            self.size = self.size.saturating_sub(1);
        }
        Ok(gate)
    }

    /// Takes all out.
    pub(crate) fn clear(&mut self) {
        self.row.clear();
        for _ in 0..self.heads.len() {
            if self.highest().is_none() {
                break;
            }
        }
        self.top = 0;
        self.height = 0;
        self.size = 0;
    }
}

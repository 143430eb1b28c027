//! Nodes that may be decided, of which the highest is next: those that have a place in the window
//! as bits of a row, the others in a heap.
use crate::reads::{NONE, lengthen, read, write};
use crate::window::Window;
use std::alloc::{AllocError, Global};

/// A node with its height, or another number, as one number: of two nodes that of the higher one is
/// greater, and of two of one height that of the later one.
pub(crate) fn ranked(height: u32, node: u32) -> u64 {
    u64::from(height) << 32 | u64::from(node)
}

pub(crate) fn node_in(ranked: u64) -> u32 {
    (ranked & 0xFFFF_FFFF) as u32
}

/// A word without one of its bits.
fn without(word: u64, bit: u32) -> u64 {
    word & ((1u64 << (bit % 64)) ^ u64::MAX)
}

/// Nodes by their heights.
#[derive(Drop)]
pub(crate) struct Heights {
    /// A heap, in a row with room for each node.
    heap: Vec<u64>,
    size: u32,
    /// By place: whether the node is here. By 64 places: whether one of them is. No word of these
    /// before `first` has a bit.
    bits: Vec<u64>,
    groups: Vec<u64>,
    first: u32,
    /// How many are here by their places.
    placed: u32,
}

impl Heights {
    pub(crate) fn new(alloc: Global) -> Heights {
        Heights {
            heap: Vec::new(alloc),
            size: 0,
            bits: Vec::new(alloc),
            groups: Vec::new(alloc),
            first: 0,
            placed: 0,
        }
    }

    /// Makes room for so many nodes.
    pub(crate) fn grow(&mut self, nodes: u32) -> Result<(), AllocError> {
        let words = nodes / 64 + 1;
        lengthen(&mut self.heap, nodes, 0)?;
        lengthen(&mut self.bits, words, 0)?;
        lengthen(&mut self.groups, words / 64 + 1, 0)
    }

    fn ranked_at(&self, at: u32) -> u64 {
        read(&self.heap, at, 0)
    }

    /// Puts a node at a place of the heap or above, where it belongs.
    fn lift(&mut self, from: u32, ranked: u64) {
        let mut at = from;
        for _ in 0..u32::BITS {
            if at == 0 {
                break;
            }
            let above = (at - 1) / 2;
            let other = self.ranked_at(above);
            if ranked <= other {
                break;
            }
            write(&mut self.heap, at, other);
            at = above;
        }
        write(&mut self.heap, at, ranked);
    }

    /// Puts a node at the top of the heap or below, where it belongs.
    fn sink(&mut self, ranked: u64) {
        let mut at: u32 = 0;
        for _ in 0..u32::BITS {
            let mut below = at.wrapping_mul(2).wrapping_add(1);
            if below >= self.size {
                break;
            }
            let right = below.wrapping_add(1);
            if right < self.size && self.ranked_at(right) > self.ranked_at(below) {
                below = right;
            }
            let other = self.ranked_at(below);
            if other <= ranked {
                break;
            }
            write(&mut self.heap, at, other);
            at = below;
        }
        write(&mut self.heap, at, ranked);
    }

    /// Sets the bit of a place.
    #[inline(always)]
    fn set(&mut self, place: u32) {
        let word = place / 64;
        let group = word / 64;
        let bits = read(&self.bits, word, 0) | 1 << (place % 64);
        write(&mut self.bits, word, bits);
        let words = read(&self.groups, group, 0) | 1 << (word % 64);
        write(&mut self.groups, group, words);
        self.first = self.first.min(group);
        self.placed = self.placed.wrapping_add(1);
    }

    /// The place of the first bit.
    #[inline(always)]
    fn first_place(&mut self) -> Option<u32> {
        if self.placed == 0 {
            return None;
        }
        for _ in 0..self.groups.len() {
            if read(&self.groups, self.first, 0) != 0 {
                break;
            }
            self.first = self.first.wrapping_add(1);
        }
        let words = read(&self.groups, self.first, 0);
        let word = self
            .first
            .wrapping_mul(64)
            .wrapping_add(words.trailing_zeros());
        let bits = read(&self.bits, word, 0);
        Some(word.wrapping_mul(64).wrapping_add(bits.trailing_zeros()))
    }

    /// Takes the bit of a place away.
    #[inline(always)]
    fn unset(&mut self, place: u32) {
        let word = place / 64;
        let group = word / 64;
        let rest = without(read(&self.bits, word, 0), place);
        write(&mut self.bits, word, rest);
        if rest == 0 {
            let others = without(read(&self.groups, group, 0), word);
            write(&mut self.groups, group, others);
        }
        self.placed = self.placed.saturating_sub(1);
    }

    /// Puts a node in that isn't here.
    #[inline(always)]
    pub(crate) fn insert(&mut self, node: u32, window: &Window) {
        let place = window.place(node);
        if place != NONE {
            self.set(place);
            return;
        }
        let at = self.size;
        self.size = at.wrapping_add(1);
        self.lift(at, window.ranked(node));
    }

    /// The first node of the heap, which is taken out.
    fn pop_from_heap(&mut self) -> Option<u32> {
        if self.size == 0 {
            return None;
        }
        let node = node_in(self.ranked_at(0));
        self.size = self.size.saturating_sub(1);
        let last = self.ranked_at(self.size);
        if self.size > 0 {
            self.sink(last);
        }
        Some(node)
    }

    /// The highest node, which is taken out.
    #[inline(always)]
    pub(crate) fn pop(&mut self, window: &Window) -> Option<u32> {
        let Some(place) = self.first_place() else {
            return self.pop_from_heap();
        };
        let node = window.node_at(place);
        if self.size > 0 && self.ranked_at(0) > window.ranked(node) {
            return self.pop_from_heap();
        }
        self.unset(place);
        Some(node)
    }

    /// One of the nodes, the one that is taken out soonest.
    pub(crate) fn take_any(&mut self, window: &Window) -> Option<u32> {
        if let Some(place) = self.first_place() {
            self.unset(place);
            return Some(window.node_at(place));
        }
        if self.size == 0 {
            return None;
        }
        self.size = self.size.saturating_sub(1);
        Some(node_in(self.ranked_at(self.size)))
    }

    /// Notes the nodes without their places, before these change. Until they are settled none may
    /// be taken out.
    pub(crate) fn loosen(&mut self, window: &Window) {
        for _ in 0..self.placed {
            let Some(place) = self.first_place() else {
                break;
            };
            self.unset(place);
            write(&mut self.heap, self.size, u64::from(window.node_at(place)));
            self.size = self.size.wrapping_add(1);
        }
    }

    /// Puts the nodes where they belong by the places that they have now.
    pub(crate) fn settle(&mut self, window: &Window) {
        let size = self.size;
        self.size = 0;
        for at in 0..size {
            self.insert(node_in(self.ranked_at(at)), window);
        }
    }
}

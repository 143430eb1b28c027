//! How nodes of adders stand to one another: in which column, and whether turned. Nothing is
//! believed of it.

use std::alloc::{AllocError, Global};

/// How a node stands to another one that hangs together with it by adders.
#[derive(Clone, Copy)]
pub(crate) struct Frame {
    /// The other node.
    pub(crate) base: u32,
    /// In how many columns above that one's it counts, modulo 2^32.
    pub(crate) column: u32,
    /// Whether it counts as the complement of a literal where the other one counts as a literal.
    pub(crate) is_turned: bool,
    /// How many nodes stand to it, where it is a base.
    size: u32,
}

/// The nodes of a graph, of which those hang together that adders join.
#[derive(Drop)]
pub(crate) struct Frames {
    all: Vec<Frame>,
}

/// From no node so many steps lead to its base, since the larger part never hangs from the smaller
/// one.
const STEPS: u32 = 40;

impl Frames {
    /// So many nodes, each by itself.
    pub(crate) fn new(alloc: Global, nodes: u32) -> Result<Frames, AllocError> {
        let mut all = Vec::with_capacity(alloc, nodes as usize)?;
        for base in 0..nodes {
            all.push(Frame {
                base,
                column: 0,
                is_turned: false,
                size: 1,
            })?;
        }
        Ok(Frames { all })
    }

    /// How a node stands to the base of those that hang together with it.
    pub(crate) fn of(&self, node: u32) -> Frame {
        let mut frame = Frame {
            base: node,
            column: 0,
            is_turned: false,
            size: 1,
        };
        'steps: for _ in 0..STEPS {
            let Some(up) = self.all.get(frame.base as usize).copied() else {
                break;
            };
            if up.base == frame.base {
                frame.size = up.size;
                break;
            }
            frame.base = up.base;
            frame.column = frame.column.wrapping_add(up.column);
            frame.is_turned = frame.is_turned != up.is_turned;
        }
        frame
    }

    /// Takes in that a node counts in so many columns above another one, turned or not. What hangs
    /// together already stays as it is.
    pub(crate) fn join(&mut self, node: u32, column: u32, is_turned: bool, other: u32) {
        let one = self.of(node);
        let two = self.of(other);
        if one.base == two.base {
            return;
        }
        // The base of the node counts so many columns above that of the other one.
        let above = two.column.wrapping_add(column).wrapping_sub(one.column);
        let turned = (one.is_turned != two.is_turned) != is_turned;
        let size = one.size.saturating_add(two.size);
        if one.size <= two.size {
            self.hang(one.base, two.base, above, turned, size);
        } else {
            self.hang(two.base, one.base, 0u32.wrapping_sub(above), turned, size);
        }
    }

    /// Hangs one base from another, which has so many nodes then.
    fn hang(&mut self, one: u32, other: u32, column: u32, is_turned: bool, size: u32) {
        if let Some(low) = self.all.get_mut(one as usize) {
            low.base = other;
            low.column = column;
            low.is_turned = is_turned;
        }
        if let Some(high) = self.all.get_mut(other as usize) {
            high.size = size;
        }
    }
}

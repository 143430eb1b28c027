//! Which nodes of a graph may enter another one: those whose operands have entered. Nothing is
//! believed of it.
ghost use Rattle.std.specs.Prelude.{◌<◌, IfSome};

use eqc_xag::{Graph, Literal, Node, node_of};
use std::alloc::{AllocError, Global};
use std::collections::BinaryHeap;

/// In place of an edge where there is none.
const NONE: u32 = u32::MAX;

/// The nodes that may enter, the lowest first, and the gates that wait for operands. The first
/// operand of gate k is its edge 2k, the second one 2k + 1.
#[derive(Drop)]
pub(crate) struct Ready {
    /// By node: the first edge from it.
    heads: Vec<u32>,
    /// By edge: the next one from the same node.
    nexts: Vec<u32>,
    /// By node: how many of its operands haven't entered.
    missing: Vec<u8>,
    /// The complements of nodes, of which the lowest has the largest.
    heap: BinaryHeap<u32>,
    /// How many nodes have entered, or were taken.
    taken: u32,
}

fn read(row: &[u32], at: u32) -> u32 {
    row.get(at as usize).copied().unwrap_or(NONE)
}

fn write(row: &mut Vec<u32>, at: u32, value: u32) {
    let at = at as usize;
    if at < row.len() {
        row[at] = value;
    }
}

fn has_entered(table: &[Option<Literal>], k: u32) -> bool {
    table.get(k as usize).copied().flatten().is_some()
}

impl Ready {
    /// The nodes that are to enter: the marked ones and inputs, but for those that have a literal
    /// in the table. Fails where memory is refused.
    pub(crate) fn of(
        alloc: Global,
        graph: &Graph,
        marks: &[bool],
        table: &[Option<Literal>],
    ) -> Result<Ready, AllocError> {
        let nodes = graph.len() as usize;
        let mut ready = Ready {
            heads: vec![in alloc; NONE; nodes]?,
            nexts: vec![in alloc; NONE; nodes.saturating_mul(2)]?,
            missing: vec![in alloc; 0; nodes]?,
            heap: BinaryHeap::new(alloc),
            taken: 0,
        };
        for k in 0..graph.len() {
            let is_marked = marks.get(k as usize).copied().unwrap_or(false);
            match graph.node(k) {
                _ if has_entered(table, k) => ready.taken = ready.taken.saturating_add(1),
                Node::Constant | Node::Input(_) => ready.allow(k)?,
                Node::And(x, y) | Node::Xor(x, y) => {
                    if is_marked {
                        ready.await_operands(k, [node_of(x), node_of(y)], table)?;
                    }
                }
            }
        }
        Ok(ready)
    }

    /// Lets a node enter.
    fn allow(&mut self, k: u32) -> Result<(), AllocError> {
        self.heap.push(NONE - k)?;
        Ok(())
    }

    /// Lets a gate enter as soon as its operands have.
    fn await_operands(
        &mut self,
        gate: u32,
        operands: [u32; 2],
        table: &[Option<Literal>],
    ) -> Result<(), AllocError> {
        let mut missing = 0u8;
        for (side, node) in operands.iter().enumerate() {
            if has_entered(table, *node) {
                continue;
            }
            let edge = gate.wrapping_mul(2).wrapping_add(side as u32);
            let next = read(&self.heads, *node);
            write(&mut self.nexts, edge, next);
            write(&mut self.heads, *node, edge);
            missing = missing.saturating_add(1);
        }
        let at = gate as usize;
        if at < self.missing.len() {
            self.missing[at] = missing;
        }
        if missing == 0 {
            self.allow(gate)
        } else {
            Ok(())
        }
    }

    /// The lowest of so many nodes that may enter, which is taken.
    pub(crate) fn next(&mut self, nodes: u32) -> Option<u32>
        ensures { IfSome result (λ k. k < nodes) }
    {
        let k = NONE - self.heap.pop()?;
        self.taken = self.taken.saturating_add(1);
        if k < nodes { Some(k) } else { None }
    }

    /// How many had entered before the one that was taken last.
    pub(crate) fn before(&self) -> u32 {
        self.taken.saturating_sub(1)
    }

    /// Notes that a node has entered: the gates for which it was the last operand may enter.
    pub(crate) fn release(&mut self, k: u32) -> Result<(), AllocError> {
        let mut edge = read(&self.heads, k);
        'edges: for _ in 0..self.nexts.len() {
            if edge == NONE {
                break;
            }
            let gate = edge / 2;
            let at = gate as usize;
            if at < self.missing.len() {
                let missing = self.missing[at].saturating_sub(1);
                self.missing[at] = missing;
                if missing == 0 {
                    self.allow(gate)?;
                }
            }
            edge = read(&self.nexts, edge);
        }
        Ok(())
    }
}

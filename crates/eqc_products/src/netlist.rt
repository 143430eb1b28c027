//! Graphs with adders, of gates that aren't constant.
ghost use Rattle.std.specs.Prelude.{◌≡◌, ◌/◌, ◌<◌, true, length};

use eqc_xag::{Graph, Literal, Node, negated, node_of};
use std::alloc::{AllocError, Global};

/// The literals that are always false and always true.
pub(crate) const FALSE: u32 = 0;

pub(crate) const TRUE: u32 = 1;

/// A graph, the sums of its adders, all literals of these, and the spans of its tree of prefixes
/// that don't go down to the first column.
#[derive(Drop)]
pub(crate) struct Netlist {
    graph: Graph,
    sums: Vec<u32>,
    ends: Vec<u32>,
    spans: Vec<u32>,
}

impl Netlist {
    /// The constant alone. Fails where memory is refused.
    pub(crate) fn new(alloc: Global) -> Result<Netlist, AllocError> {
        Ok(Netlist {
            graph: Graph::new(alloc)?,
            sums: Vec::new(alloc),
            ends: Vec::new(alloc),
            spans: Vec::new(alloc),
        })
    }

    pub(crate) fn graph(&self) -> &Graph {
        &self.graph
    }

    pub(crate) fn into_graph(self) -> Graph {
        self.graph
    }

    /// The sums of all adders that were made.
    pub(crate) fn sums(&self) -> &[Literal] {
        &self.sums
    }

    /// What all adders that were made add up, their sums and their carries.
    pub(crate) fn ends(&self) -> &[Literal] {
        &self.ends
    }

    /// Whether spans make carries and pass them on, where these aren't carries themselves.
    pub(crate) fn spans(&self) -> &[Literal] {
        &self.spans
    }

    /// Notes a literal of a span, but for one that is always false. Fails where memory is refused.
    pub(crate) fn note_span(&mut self, literal: Literal) -> Result<(), AllocError> {
        if literal != FALSE {
            self.spans.push(literal)?;
        }
        Ok(())
    }

    /// Whether a literal's node is there.
    fn has(&self, literal: Literal) -> bool
        ensures { result ≡ true → literal / 2 < length self.now.graph }
    {
        node_of(literal) < self.graph.len()
    }

    /// The literal of an input. Fails where memory is refused.
    pub(crate) fn input(&mut self, variable: u32) -> Result<Literal, AllocError> {
        self.graph.push(Node::Input(variable))
    }

    /// The conjunction of two literals. Fails where memory is refused, as all that follows does.
    pub(crate) fn and(&mut self, x: Literal, y: Literal) -> Result<Literal, AllocError> {
        if x == FALSE || y == FALSE || x == negated(y) || !self.has(x) || !self.has(y) {
            return Ok(FALSE);
        }
        if x == TRUE || x == y {
            return Ok(y);
        }
        if y == TRUE {
            return Ok(x);
        }
        self.graph.push(Node::And(x, y))
    }

    /// Whether just one of two literals is true.
    pub(crate) fn xor(&mut self, x: Literal, y: Literal) -> Result<Literal, AllocError> {
        if x == FALSE || !self.has(x) {
            return Ok(y);
        }
        if y == FALSE || !self.has(y) {
            return Ok(x);
        }
        if x == TRUE {
            return Ok(negated(y));
        }
        if y == TRUE {
            return Ok(negated(x));
        }
        if x == y {
            return Ok(FALSE);
        }
        if x == negated(y) {
            return Ok(TRUE);
        }
        self.graph.push(Node::Xor(x, y))
    }

    /// Whether one of two literals is true.
    pub(crate) fn or(&mut self, x: Literal, y: Literal) -> Result<Literal, AllocError> {
        let neither = self.and(negated(x), negated(y))?;
        Ok(negated(neither))
    }

    /// The sum and the carry of three literals.
    pub(crate) fn add(
        &mut self,
        x: Literal,
        y: Literal,
        z: Literal,
    ) -> Result<(Literal, Literal), AllocError> {
        let one = self.xor(x, y)?;
        let sum = self.xor(one, z)?;
        let both = self.and(x, y)?;
        let carried = self.and(one, z)?;
        let carry = self.or(both, carried)?;
        if carry != FALSE {
            self.sums.push(sum)?;
            self.ends.extend_from_slice(&[x, y, z, sum, carry])?;
        }
        Ok((sum, carry))
    }
}

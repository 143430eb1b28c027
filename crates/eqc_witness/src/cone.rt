//! The graph below a literal, over positions.
ghost use Rattle.std.specs.Prelude.{◌≡◌, ◌≤◌, length, IfOk, IfSome};
ghost use Rattle.eqc_witness.specs.Cones.{AreAssumptions, IsCone, IsCopy};

use crate::below::Below;
use crate::copying::{copies, copy_of, inputs_alone};
use eqc_xag::{Graph, Literal, negated_if};
use std::alloc::{AllocError, Global};

/// A graph that begins with the inputs of some positions, and a literal of it.
#[derive(Drop)]
pub(crate) struct Cone {
    pub(crate) graph: Graph,
    pub(crate) root: Literal,
    /// How many positions there are.
    pub(crate) positions: usize,
    ghost lawful: { IsCone graph root positions },
}

impl Cone {
    /// What lies below a literal of a graph, over the positions of these variables: always some. It
    /// takes time in proportion to that, and to its inputs times the positions. Fails where memory
    /// is refused, or where there are 2^30 nodes.
    pub(crate) fn of(
        alloc: Global,
        graph: &Graph,
        literal: Literal,
        variables: &[u16],
    ) -> Result<Option<Cone>, AllocError>
        ensures positions { IfOk result (λ found. IfSome found (λ cone. cone.positions ≡ length variables.now)) }
        ensures copy { IfOk result (λ found. IfSome found (λ cone. IsCopy graph.now cone.graph variables.now literal cone.root)) }
    {
        let below = Below::of(alloc, graph, literal)?;
        let mut copy = inputs_alone(alloc, variables.len())?;
        let table = copies(alloc, &mut copy, graph, &below, variables)?;
        let Some(root) = copy_of(&below, &table, literal) else {
            return Ok(None);
        };
        Ok(Some(Cone {
            graph: copy,
            root,
            positions: variables.len(),
        }))
    }

    /// Assumptions by which the root is true, and the first positions have these values. Fails
    /// where memory is refused.
    pub(crate) fn assumptions(
        &self,
        alloc: Global,
        first: &[bool],
    ) -> Result<Vec<Literal>, AllocError>
        requires { length first.now ≤ self.now.positions }
        ensures { IfOk result (λ literals. AreAssumptions self.now.graph self.now.root first.now literals.items) }
    {
        // For the proof alone: a graph has at most 2^30 nodes, so literals of the positions fit.
        let _ = self.graph.len();
        let mut literals = Vec::with_capacity(alloc, first.len() + 1)?;
        literals.push(self.root)?;
        for (position, value) in first.iter().enumerate() {
            literals.push(negated_if(2 * position as u32 + 2, !*value))?;
        }
        Ok(literals)
    }
}

//! Which steps are known in the other netlist: their node of the graph is one of the other netlist
//! too, or stands below one. Nothing is believed of it.

use crate::partner::literal_at;
use eqc_sweep::below;
use eqc_xag::{Graph, Literal, node_of};
use std::alloc::{AllocError, Global};

/// For each node of a graph, whether it stands below a literal of the first netlist, and of the
/// second.
#[derive(Drop)]
pub(crate) struct Known {
    in_first: Vec<bool>,
    in_second: Vec<bool>,
}

/// The literals of the steps from one to another. Fails where memory is refused.
fn literals_from(
    alloc: Global,
    literals: &[Option<Literal>],
    from: u32,
    to: u32,
) -> Result<Vec<u32>, AllocError> {
    let mut found = Vec::new(alloc);
    for step in from..to {
        if let Some(literal) = literal_at(literals, step) {
            found.push(literal)?;
        }
    }
    Ok(found)
}

impl Known {
    /// Of steps with these literals in a graph, where those of the second netlist begin and end so.
    /// Fails where memory is refused.
    pub(crate) fn of(
        alloc: Global,
        graph: &Graph,
        literals: &[Option<Literal>],
        second: u32,
        end: u32,
    ) -> Result<Known, AllocError> {
        let firsts = literals_from(alloc, literals, 0, second)?;
        let seconds = literals_from(alloc, literals, second, end)?;
        Ok(Known {
            in_first: below(alloc, graph, &firsts)?,
            in_second: below(alloc, graph, &seconds)?,
        })
    }

    /// Whether a step of the second netlist, or else of the first, is known in the other one. What
    /// never entered is taken to be.
    pub(crate) fn has(&self, literals: &[Option<Literal>], step: u32, is_second: bool) -> bool {
        let Some(literal) = literal_at(literals, step) else {
            return true;
        };
        let nodes = if is_second {
            &self.in_first
        } else {
            &self.in_second
        };
        nodes
            .get(node_of(literal) as usize)
            .copied()
            .unwrap_or(false)
    }
}

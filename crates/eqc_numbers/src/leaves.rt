//! Exclusive ors in which something cancels out, as what a square adds up twice: they are made of
//! what is left before they are made as they are, so that these are found equal to those, below
//! which there is less.
ghost use Rattle.eqc_xag.specs.Graph.{Extends};

use eqc_adders::{ROOM, Support, differing, of_one};
use eqc_sweep::Sweep;
use eqc_xag::{Graph, Literal, Node, node_of};
use std::alloc::{AllocError, Global};

/// The nodes of which each node of a graph is the exclusive or, itself where these are many or it
/// is none.
#[derive(Drop)]
pub(crate) struct Leaves {
    nodes: Vec<Support>,
}

impl Leaves {
    pub(crate) fn new(alloc: Global) -> Leaves {
        Leaves {
            nodes: Vec::new(alloc),
        }
    }

    fn of(&self, literal: Literal) -> Support {
        match self.nodes.get(node_of(literal) as usize) {
            None => Support::many(),
            Some(leaves) => *leaves,
        }
    }

    /// Takes new nodes in.
    fn catch_up(&mut self, graph: &Graph) -> Result<(), AllocError> {
        for k in self.nodes.len()..graph.len() as usize {
            let mut leaves = of_one(k as u32);
            if let Node::Xor(x, y) = graph.node(k as u32) {
                let all = differing(self.of(x), self.of(y));
                if all.count() <= ROOM {
                    leaves = all;
                }
            }
            self.nodes.push(leaves)?;
        }
        Ok(())
    }

    /// What is left of two literals in their exclusive or, where something cancels out.
    fn left(&self, x: Literal, y: Literal) -> Option<Support> {
        let left = differing(self.of(x), self.of(y));
        let both = self.of(x).count().saturating_add(self.of(y).count());
        if left.count() > ROOM || left.count() == both {
            None
        } else {
            Some(left)
        }
    }
}

#[tactic(auto, using(eqc_sums::proofs::GateLemmas::extends_both))]
/// Makes the exclusive or of what is left of two literals, where something cancels out.
pub(crate) fn make_left(
    leaves: &mut Leaves,
    sweep: &mut Sweep,
    x: Literal,
    y: Literal,
) -> Result<(), AllocError>
    ensures { Extends sweep.old sweep.new }
{
    leaves.catch_up(sweep.graph())?;
    let Some(left) = leaves.left(x, y) else {
        return Ok(());
    };
    let mut all = 0;
    'leaves: for place in 0..ROOM {
        let Some(node) = left.at(place) else {
            continue;
        };
        let literal = node.wrapping_mul(2);
        if node_of(all) < sweep.graph().len() && node_of(literal) < sweep.graph().len() {
            all = sweep.xor(all, literal)?;
        }
    }
    Ok(())
}

//! Words inside two netlists that look alike, as literals of the graph that has both. Nothing is
//! promised of them.

use crate::chains::Shape;
use crate::shown::{CHEAP, Words, copies, copy_both};
use eqc_adders::{Lookalikes, Sums};
use eqc_sweep::{Effort, Sweep};
use eqc_xag::{Graph, Literal, is_negated, negated_if, node_of};
use std::alloc::{AllocError, Global};

/// By nodes of a copy of a graph, the literal of the graph's lowest node that is one there.
fn origins(alloc: Global, table: &[Option<Literal>], nodes: u32) -> Result<Vec<u32>, AllocError> {
    let mut origins = vec![in alloc; 0; nodes as usize]?;
    for back in 0..table.len() {
        let k = table.len() - 1 - back;
        if let Some(copy) = table[k] {
            let at = node_of(copy) as usize;
            if at < origins.len() && k < 1 << 30 {
                origins[at] = negated_if(2 * k as u32, is_negated(copy));
            }
        }
    }
    Ok(origins)
}

/// The literals of a graph whose copies these are, false for those that have none.
fn originals(
    alloc: Global,
    origins: &[u32],
    literals: &[Literal],
) -> Result<Vec<Literal>, AllocError> {
    let mut all = Vec::with_capacity(alloc, literals.len())?;
    for literal in literals {
        let origin = origins
            .get(node_of(*literal) as usize)
            .copied()
            .unwrap_or(0);
        all.push(negated_if(origin, is_negated(*literal)))?;
    }
    Ok(all)
}

/// Words that look alike in a graph that has copies of nodes, as literals of the graph of these. It
/// stands apart for its proof's sake: where a graph is let go in each exit that takes many times
/// longer.
fn lookalikes_in(
    netlists: &Words<'_>,
    table: &[Option<Literal>],
    sums: &mut Sums,
) -> Result<Vec<Lookalikes>, AllocError> {
    let alloc = netlists.alloc;
    let origins = origins(alloc, table, sums.sweep().graph().len())?;
    sums.find_adders(netlists.limits)?;
    sums.find_carries()?;
    let one = copies(alloc, table, netlists.firsts)?;
    let other = copies(alloc, table, netlists.seconds)?;
    let mut words = Vec::new(alloc);
    for word in &sums.inner_words(&one, &other)? {
        words.push(Lookalikes {
            firsts: originals(alloc, &origins, &word.firsts)?,
            seconds: originals(alloc, &origins, &word.seconds)?,
        })?;
    }
    Ok(words)
}

/// Words inside two netlists that look alike, as literals of the graph that has both: of what these
/// literals of each are made of. It is looked for them in a copy in which nodes that are easily
/// found equal are one, by the adders that are found there within their limits. Nothing is promised
/// of them. Fails where memory is refused.
pub fn find_lookalikes(netlists: &Words<'_>, graph: &Graph) -> Result<Vec<Lookalikes>, AllocError> {
    let effort = Effort::of(CHEAP, netlists.limits.work);
    let mut sweep = Sweep::new(netlists.alloc, effort)?;
    let table = copy_both(netlists, graph, &mut sweep, Shape::Chains)?;
    let mut sums = Sums::new(netlists.alloc, sweep);
    lookalikes_in(netlists, &table, &mut sums)
}

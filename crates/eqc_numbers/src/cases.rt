//! Words that are equal since they are in each case: for each value of the few inputs that choose
//! what a design does.
ghost use Rattle.std.specs.Prelude.{◌≡◌, IfOk, IsTrue};
ghost use Rattle.eqc_sums.specs.Adding.{AreEqualWords};

use crate::anew::are_equal_anew;
use crate::cofactor::{Control, cofactor, control_of};
use crate::compared::{Found, TURNS};
use crate::shown::{Words, are_shown_equal};
use eqc_xag::Graph;
use std::alloc::{AllocError, Global};

/// So many inputs may choose, one below the other.
const DEPTH: u32 = 12;

/// In all cases together so many nodes enter copies at most.
const NODES: u32 = 400_000;

/// The input that chooses most of what the words are made of, where there is one. Fails where
/// memory is refused.
fn control(words: &Words<'_>, graph: &Graph) -> Result<Option<Control>, AllocError> {
    let mut both = Vec::new(words.alloc);
    both.extend_from_slice(words.firsts)?;
    both.extend_from_slice(words.seconds)?;
    control_of(words.alloc, graph, &both)
}

/// Whether two words are shown equal in a case in which no input chooses any more. Fails where
/// memory is refused.
fn are_equal_at_last(words: &Words<'_>, graph: &Graph, found: Found) -> Result<bool, AllocError>
    ensures { IfOk result (λ is. IsTrue is → AreEqualWords graph.now words.now.firsts.now words.now.seconds.now) }
{
    if are_equal_anew(words, graph)? {
        return Ok(true);
    }
    Ok(found == Found::Sums && are_shown_equal(words, graph, TURNS)?)
}

#[tactic(auto, using(crate::proofs::CasesLaws::both_cases))]
/// Whether two words are shown equal in each of the cases that values of up to `depth` inputs make,
/// the larger one first: where one isn't shown that is mostly it. `left` says how many nodes may
/// still enter copies. Fails where memory is refused.
fn are_equal_by(
    words: &Words<'_>,
    graph: &Graph,
    depth: u32,
    left: &mut u32,
) -> Result<bool, AllocError>
    ensures { IfOk result (λ is. IsTrue is → AreEqualWords graph.now words.now.firsts.now words.now.seconds.now) }
{
    if *left < graph.len() {
        return Ok(false);
    }
    *left -= graph.len();
    let found = words.found(graph)?;
    if found == Found::Equal {
        return Ok(true);
    }
    let control = if depth == 0 {
        None
    } else {
        control(words, graph)?
    };
    let Some(Control { variable, value }) = control else {
        return are_equal_at_last(words, graph, found);
    };
    let larger = cofactor(words.alloc, graph, variable, value)?;
    if !are_equal_by(words, &larger, depth - 1, left)? {
        return Ok(false);
    }
    let smaller = cofactor(words.alloc, graph, variable, !value)?;
    are_equal_by(words, &smaller, depth - 1, left)
}

/// Whether two words of a graph are shown equal in each of the cases that values of a few inputs
/// make: those that choose what a design does. A case is shown by searches, or else by what the
/// words add up to within their limits. Where no input chooses so much none is tried. Fails where
/// memory is refused.
pub fn are_equal_in_cases(words: &Words<'_>, graph: &Graph) -> Result<bool, AllocError>
    ensures { IfOk result (λ is. IsTrue is → AreEqualWords graph.now words.now.firsts.now words.now.seconds.now) }
{
    if control(words, graph)?.is_none() {
        return Ok(false);
    }
    let mut left = NODES;
    are_equal_by(words, graph, DEPTH, &mut left)
}

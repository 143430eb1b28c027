//! Literals that are seen true by simulation.
use crate::simulation::Simulation;
use eqc_xag::{Graph, Literal, Node};
use std::alloc::{AllocError, Global};

/// How many times 64 assignments are tried, in a graph of no more than so many words in all: fewer
/// times in a larger one, but at least so often.
const ROUNDS: u64 = 32;

const WORDS: u64 = 8_000_000;

const FEWEST: u64 = 8;

/// How many times 64 assignments are tried in a graph of so many nodes.
fn rounds_for(nodes: u32) -> u64 {
    (WORDS / u64::from(nodes).max(1)).min(ROUNDS).max(FEWEST)
}

/// How many words `first_shown` makes for a graph of so many nodes.
pub fn words_shown(nodes: u32) -> u64 {
    rounds_for(nodes).saturating_mul(u64::from(nodes))
}

/// A pseudo-random word: in each second round with few ones and with few zeros in turn.
fn input_word(simulation: &mut Simulation, round: u64) -> u64 {
    let word = simulation.random();
    match round % 4 {
        1 => word & simulation.random() & simulation.random(),
        3 => word | simulation.random() | simulation.random(),
        _ => word,
    }
}

/// The place of the first of some literals of a graph that is seen true under pseudo-random values
/// of its variables, the same in each run. Nothing is promised of it: others may be true before it,
/// and it need not be seen. Takes time in proportion to the words that `words_shown` tells. Fails
/// where memory is refused.
pub fn first_shown(
    alloc: Global,
    graph: &Graph,
    literals: &[Literal],
) -> Result<Option<usize>, AllocError> {
    let mut simulation = Simulation::new(alloc, graph)?;
    let mut first = literals.len();
    for round in 0..rounds_for(graph.len()) {
        for k in 0..graph.len() {
            if let Node::Input(_) = graph.node(k) {
                let word = input_word(&mut simulation, round);
                simulation.set(k as usize, word);
            }
        }
        simulation.evaluate(graph);
        first = first_true(&simulation, literals, first);
    }
    Ok((first < literals.len()).then_some(first))
}

/// The place of the first literal that is true in one of the words, of those before a place, or
/// that place.
fn first_true(simulation: &Simulation, literals: &[Literal], before: usize) -> usize {
    for place in 0..before.min(literals.len()) {
        if simulation.word_of(literals[place]) != 0 {
            return place;
        }
    }
    before
}

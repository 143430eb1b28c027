//! Simulation: a word for each node of a graph, with its value under 64 assignments. Nothing is
//! promised of it.
use eqc_sweep::Random;
use eqc_xag::{Graph, Literal, Node, is_negated, node_of};
use std::alloc::{AllocError, Global};

/// How many assignments there are at once.
pub(crate) const LANES: u32 = 64;

/// The words of a graph's nodes.
#[derive(Drop)]
pub(crate) struct Simulation {
    words: Vec<u64>,
    /// Of the pseudo-random words, the same in each run.
    random: Random,
    /// How many words were made of others.
    pub(crate) work: u64,
}

impl Simulation {
    /// Each input has the value false.
    pub(crate) fn new(alloc: Global, graph: &Graph) -> Result<Simulation, AllocError> {
        let words = vec![in alloc; 0; graph.len() as usize]?;
        Ok(Simulation {
            words,
            random: Random::new(),
            work: 0,
        })
    }

    /// The word of a node, or 0 where it has none.
    #[inline(always)]
    pub(crate) fn at(&self, node: usize) -> u64 {
        if node < self.words.len() {
            self.words[node]
        } else {
            0
        }
    }

    /// Gives a node that has a word another one.
    #[inline(always)]
    pub(crate) fn set(&mut self, node: usize, word: u64) {
        if node < self.words.len() {
            self.words[node] = word;
        }
    }

    /// The word of a literal.
    #[inline(always)]
    pub(crate) fn word_of(&self, literal: Literal) -> u64 {
        let word = self.at(node_of(literal) as usize);
        if is_negated(literal) {
            word ^ u64::MAX
        } else {
            word
        }
    }

    /// A pseudo-random word.
    pub(crate) fn random(&mut self) -> u64 {
        self.random.next()
    }

    /// Makes the words of the gates, by those of the inputs.
    pub(crate) fn evaluate(&mut self, graph: &Graph) {
        self.work = self.work.wrapping_add(u64::from(graph.len()));
        for k in 0..graph.len() {
            let word = match graph.node(k) {
                Node::Constant => 0,
                Node::Input(_) => continue,
                Node::And(x, y) => self.word_of(x) & self.word_of(y),
                Node::Xor(x, y) => self.word_of(x) ^ self.word_of(y),
            };
            self.set(k as usize, word);
        }
    }
}

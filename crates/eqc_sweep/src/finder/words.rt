//! Words of 64 simulated values, one of each node in a row of patterns.

use eqc_xag::{Literal, Node, is_negated, node_of};

/// So many words of a node lie together: they fill a line of a processor's cache.
pub(crate) const TOGETHER: usize = 8;

/// The words of a node in as many rows.
pub(crate) type Words = [u64; TOGETHER];

/// The word of a node in a row, or 0 where it has none.
pub(crate) fn word_at(row: &[u64], k: u32) -> u64 {
    match row.get(k as usize) {
        None => 0,
        Some(word) => *word,
    }
}

/// The word of a literal.
pub(crate) fn word_of(row: &[u64], l: Literal) -> u64 {
    let word = word_at(row, node_of(l));
    if is_negated(l) { word ^ u64::MAX } else { word }
}

/// The word of a node, from those of earlier ones. An input's is `input`.
pub(crate) fn word_by(row: &[u64], node: Node, input: u64) -> u64 {
    match node {
        Node::Constant => 0,
        Node::Input(_) => input,
        Node::And(x, y) => word_of(row, x) & word_of(row, y),
        Node::Xor(x, y) => word_of(row, x) ^ word_of(row, y),
    }
}

/// The words of a node in a block of rows, or 0 where it has none.
pub(crate) fn words_at(block: &[Words], k: usize) -> Words {
    match block.get(k) {
        None => [0; TOGETHER],
        Some(words) => *words,
    }
}

/// The words of a literal.
#[inline(always)]
pub(crate) fn words_of(block: &[Words], l: Literal) -> Words {
    let mut words = words_at(block, node_of(l) as usize);
    let flip = if is_negated(l) { u64::MAX } else { 0 };
    for lane in 0..TOGETHER {
        words[lane] ^= flip;
    }
    words
}

/// The words of a node, from those of earlier ones. An input's are `inputs`.
#[inline(always)]
pub(crate) fn words_by(block: &[Words], node: Node, inputs: Words) -> Words {
    match node {
        Node::Constant => [0; TOGETHER],
        Node::Input(_) => inputs,
        Node::And(x, y) => {
            let mut words = words_of(block, x);
            let others = words_of(block, y);
            for lane in 0..TOGETHER {
                words[lane] &= others[lane];
            }
            words
        }
        Node::Xor(x, y) => {
            let mut words = words_of(block, x);
            let others = words_of(block, y);
            for lane in 0..TOGETHER {
                words[lane] ^= others[lane];
            }
            words
        }
    }
}

/// What words in a block of this number add to a signature, where there are so many rows, and a
/// flipped word is taken for its complement.
#[inline(always)]
pub(crate) fn shares_of(block: usize, rows: usize, words: Words, is_flipped: bool) -> u64 {
    let flip = if is_flipped { u64::MAX } else { 0 };
    let mut sum: u64 = 0;
    for lane in 0..TOGETHER {
        let row = block.wrapping_mul(TOGETHER).wrapping_add(lane);
        if row < rows {
            sum = sum.wrapping_add(share_of(row, words[lane] ^ flip));
        }
    }
    sum
}

/// What a word in a row of this number adds to a signature.
pub(crate) fn share_of(row: usize, word: u64) -> u64 {
    let salted = word.wrapping_add((row as u64).wrapping_mul(0xD6E8_FEB8_6659_FD93));
    let mixed = (salted ^ salted >> 32).wrapping_mul(0x9E37_79B9_7F4A_7C15);
    (mixed ^ mixed >> 29).wrapping_mul(0xBF58_476D_1CE4_E5B9)
}

//! Words inside two netlists: signals that look alike, in the columns of the adders whose sums they
//! are. Nothing is believed of it.
//!
//! Where one netlist has the product of two words, and goes on with it, and the other one has it by
//! another architecture, nodes of both look alike bit by bit. Adders tell in which column each of
//! them counts: the sum of an adder counts as its literals do, and its carry in the next column.

use crate::adders::{Adders, Block, is_degenerate};
use crate::frames::{Frame, Frames};
use eqc_sums::MOST_LITERALS;
use eqc_sweep::{Sweep, below};
use eqc_xag::{Graph, Literal, Node, is_negated, negated_if, node_of};
use std::alloc::{AllocError, Global};

/// Two words that look alike, the lowest literal first, where false stands in both in columns of
/// which nothing is to be shown.
#[derive(Drop)]
pub struct Lookalikes {
    pub firsts: Vec<Literal>,
    pub seconds: Vec<Literal>,
}

/// A node of the first netlist and one of the second that look alike, where one of them is the sum
/// of an adder.
#[derive(Clone, Copy, PartialEq, Eq, PartialOrd, Ord)]
struct Bit {
    /// The base of those with which it hangs together, and the column in which it counts, from the
    /// middle of all.
    base: u32,
    column: u32,
    /// Above how many others it is, or `SHARED`.
    level: u32,
    first: u32,
    second: u32,
    /// Whether what it is made of is of both netlists too, or looks like what is: then a sweep
    /// finds the two equal sooner.
    is_near: bool,
}

/// In place of a level, where a node is one of both netlists: false stands for both literals then.
const SHARED: u32 = u32::MAX;

impl Bit {
    fn is_shared(&self) -> bool {
        self.level == SHARED
    }
}

/// The column of a base: others are below it or above.
const MIDDLE: u32 = 1 << 31;

/// Words of fewer bits aren't looked at.
const LEAST_BITS: usize = 2;

/// Whether a node is no literal of an adder.
fn is_apart(block: &Block, node: u32) -> bool {
    [block.x, block.y, block.z]
        .iter()
        .all(|literal| node_of(*literal) != node)
}

/// Marks of the nodes that are exclusive ors within adders of three literals: those of two of
/// these.
fn parts_of(alloc: Global, adders: &Adders) -> Result<Vec<bool>, AllocError> {
    let mut parts = vec![in alloc; false; adders.count() as usize]?;
    for node in 0..adders.count() {
        let Some(known) = adders.known(node) else {
            continue;
        };
        for block in &known.sums {
            if block.z == 0 {
                continue;
            }
            for (x, y) in &known.pairs {
                for inner in [node_of(*x), node_of(*y)] {
                    let at = inner as usize;
                    if at < parts.len() && adders.is_sum(inner) && is_apart(block, inner) {
                        parts[at] = true;
                    }
                }
            }
        }
    }
    Ok(parts)
}

/// The adders of a node that tell how it counts: those of three literals, if there are some, and
/// none of a part of these. Its own halves may be adders too, but of complements.
fn whole_of(adders: &Adders, parts: &[bool], node: u32, block: &Block) -> bool {
    let is_part = parts.get(node as usize).copied().unwrap_or(false);
    let has_full = match adders.known(node) {
        None => false,
        Some(known) => known.sums.iter().any(|other| other.z != 0),
    };
    block.z != 0 || (!is_part && !has_full)
}

/// How nodes of adders stand to one another.
fn frames_of(alloc: Global, adders: &Adders) -> Result<Frames, AllocError> {
    let mut frames = Frames::new(alloc, adders.count())?;
    let parts = parts_of(alloc, adders)?;
    for node in 0..adders.count() {
        let Some(known) = adders.known(node) else {
            continue;
        };
        for block in &known.sums {
            let carry = node_of(block.carry);
            if (carry != 0 && is_degenerate(block)) || !whole_of(adders, &parts, node, block) {
                continue;
            }
            let sum = is_negated(block.sum);
            for literal in [block.x, block.y, block.z] {
                let operand = node_of(literal);
                if adders.is_sum(operand) || adders.is_carry(operand) {
                    frames.join(operand, 0, is_negated(literal) != sum, node);
                }
            }
            // Where no two of them are ever true they have no carry.
            if carry != 0 {
                frames.join(carry, 1, is_negated(block.carry) != sum, node);
            }
        }
    }
    Ok(frames)
}

/// Whether a node is the sum of an adder. What is a carry alone is left to the sweep behind: which
/// of its two literals counts isn't known so surely.
fn is_added(adders: &Adders, node: u32) -> bool {
    match adders.known(node) {
        None => false,
        Some(known) => known.sums.len() > 0,
    }
}

/// Two nodes that look alike as bits of words, the literal of the first of which looks like the
/// second one, if one of them is a sum.
fn bit_of(adders: &Adders, frames: &Frames, first: u32, second: u32) -> Option<Bit> {
    let is_first = is_added(adders, node_of(first));
    if !is_first && !is_added(adders, second) {
        return None;
    }
    let node = if is_first { node_of(first) } else { second };
    let Frame {
        base,
        column,
        is_turned,
        ..
    } = frames.of(node);
    // The literal of the sum, or of both where the second one is it: whichever counts as the base
    // does.
    let turned = if is_first {
        is_turned != is_negated(first)
    } else {
        is_turned
    };
    Some(Bit {
        base,
        column: column.wrapping_add(MIDDLE),
        level: adders.level(node),
        first: negated_if(first, turned),
        second: negated_if(second.wrapping_mul(2), turned),
        is_near: false,
    })
}

/// Whether a node is an exclusive or of two nodes each of which is one of these, or looks like one.
/// Nothing is promised of it.
pub fn is_made_alike(sweep: &Sweep, marks: &[bool], node: u32) -> bool {
    if node >= sweep.graph().len() {
        return false;
    }
    match sweep.graph().node(node) {
        Node::Xor(x, y) => [node_of(x), node_of(y)].iter().all(|operand| {
            is_marked(marks, *operand) || sweep.like_node(*operand, &[*operand]).is_some()
        }),
        Node::Constant | Node::Input(_) | Node::And(_, _) => false,
    }
}

/// A sum that is of both netlists.
fn shared_bit(frames: &Frames, node: u32) -> Bit {
    let Frame { base, column, .. } = frames.of(node);
    Bit {
        base,
        column: column.wrapping_add(MIDDLE),
        level: SHARED,
        first: 0,
        second: 0,
        is_near: false,
    }
}

fn is_marked(marks: &[bool], node: u32) -> bool {
    marks.get(node as usize).copied().unwrap_or(false)
}

/// The bits of words that look alike, of what these literals of the two netlists are made of.
fn bits_of(
    alloc: Global,
    sweep: &Sweep,
    adders: &Adders,
    frames: &Frames,
    firsts: &[Literal],
    seconds: &[Literal],
) -> Result<Vec<Bit>, AllocError> {
    let of_first = below(alloc, sweep.graph(), firsts)?;
    let of_second = below(alloc, sweep.graph(), seconds)?;
    let mut bits = Vec::new(alloc);
    for node in 0..sweep.graph().len() {
        if node >= 1 << 30 || !is_marked(&of_second, node) {
            continue;
        }
        if is_marked(&of_first, node) {
            if is_added(adders, node) {
                bits.push(shared_bit(frames, node))?;
            }
            continue;
        }
        let Some(first) = sweep.like_node(node, &[node]) else {
            continue;
        };
        if !is_marked(&of_first, node_of(first)) {
            continue;
        }
        if let Some(bit) = bit_of(adders, frames, first, node) {
            let is_near = is_made_alike(sweep, &of_first, node);
            bits.push(Bit { is_near, ..bit })?;
        }
    }
    Ok(bits)
}

/// The lowest column of the adders that hang together with each base.
fn lowest_columns(alloc: Global, adders: &Adders, frames: &Frames) -> Result<Vec<u32>, AllocError> {
    let mut lowest = vec![in alloc; u32::MAX; adders.count() as usize]?;
    for node in 0..adders.count() {
        if is_added(adders, node) {
            let frame = frames.of(node);
            let column = frame.column.wrapping_add(MIDDLE);
            let at = frame.base as usize;
            if at < lowest.len() {
                lowest[at] = lowest[at].min(column);
            }
        }
    }
    Ok(lowest)
}

/// Puts false into both words, so often.
fn pad(word: &mut Lookalikes, count: u32) -> Result<(), AllocError> {
    for _ in 0..count {
        word.firsts.push(0)?;
        word.seconds.push(0)?;
    }
    Ok(())
}

/// The word of bits of one base, the lowest column first, in each of which the first one counts,
/// from this column on. It ends before a column in which there is none, and where it has as many
/// literals as a word may have.
fn word_of(alloc: Global, bits: &[Bit], lowest: u32) -> Result<Lookalikes, AllocError> {
    let mut word = Lookalikes {
        firsts: Vec::new(alloc),
        seconds: Vec::new(alloc),
    };
    let mut next = lowest;
    'bits: for bit in bits {
        if bit.column < next || (word.firsts.is_empty() && bit.is_shared()) {
            continue;
        }
        let skipped = bit.column - next;
        if skipped > 0 && !word.firsts.is_empty() {
            break;
        }
        if word.firsts.len().saturating_add(skipped as usize) >= MOST_LITERALS {
            break;
        }
        pad(&mut word, skipped)?;
        word.firsts.push(bit.first)?;
        word.seconds.push(bit.second)?;
        next = bit.column.saturating_add(1);
    }
    Ok(word)
}

/// Words of the two netlists that look alike, of what these literals of each are made of.
pub(crate) fn inner_words(
    alloc: Global,
    sweep: &Sweep,
    adders: &Adders,
    firsts: &[Literal],
    seconds: &[Literal],
) -> Result<Vec<Lookalikes>, AllocError> {
    let frames = frames_of(alloc, adders)?;
    let lowest = lowest_columns(alloc, adders, &frames)?;
    let mut bits = bits_of(alloc, sweep, adders, &frames, firsts, seconds)?;
    bits.sort_unstable();
    let mut words = Vec::new(alloc);
    let mut from = 0usize;
    'bits: for to in 1..bits.len().saturating_add(1) {
        if to < bits.len() && bits[to].base == bits[from].base {
            continue;
        }
        let low = lowest
            .get(bits[from].base as usize)
            .copied()
            .unwrap_or(MIDDLE);
        let own = &bits[from..to];
        let near = own.iter().filter(|bit| bit.is_near).count();
        let real = own.iter().filter(|bit| !bit.is_shared()).count();
        let word = word_of(alloc, own, low)?;
        if word.firsts.len() >= LEAST_BITS && near < real.div_ceil(2) {
            words.push(word)?;
        }
        from = to;
    }
    Ok(words)
}

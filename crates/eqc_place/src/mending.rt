//! Signals of the other netlist that have the values by which a difference would be mended.

use crate::place::Mending;
use crate::turning::{Turned, Turning};
use crate::words::word_at;

/// In fewer assignments an agreement tells nothing.
const FEWEST: u32 = 16;

/// Where a signal departs from what is wanted of one with a word: the opposite where that mends,
/// and the same where the opposite would break.
fn departs(word: u64, other: u64, turned: &Turned) -> u64 {
    (turned.mended & !(word ^ other)) | (turned.broken & (word ^ other))
}

/// Whether a step has the wanted values in all rounds, or the opposite ones.
fn agrees(rounds: &[Turning], turned: &[Turned], step: u32, other: u32, is_opposite: bool) -> bool {
    let flip = if is_opposite { u64::MAX } else { 0 };
    for (round, turned) in rounds.iter().zip(turned) {
        let wanted = word_at(&round.words, step);
        if departs(wanted, word_at(&round.words, other) ^ flip, turned) != 0 {
            return false;
        }
    }
    true
}

/// In how many assignments it matters which value a step has.
fn told_in(turned: &[Turned]) -> u32 {
    let mut all = 0u32;
    for turned in turned {
        all = all.saturating_add((turned.mended | turned.broken).count_ones());
    }
    all
}

/// The first of these steps that has the values by which one would be mended, or their opposites,
/// if one has.
pub(crate) fn mending_among(
    rounds: &[Turning],
    turned: &[Turned],
    marks: &[bool],
    step: u32,
    others: (u32, u32),
) -> Option<Mending> {
    let assignments = told_in(turned);
    if assignments < FEWEST {
        return None;
    }
    for other in others.0..others.1 {
        if !marks.get(other as usize).copied().unwrap_or(false) {
            continue;
        }
        for is_opposite in [false, true] {
            if agrees(rounds, turned, step, other, is_opposite) {
                return Some(Mending {
                    step: other,
                    is_opposite,
                    assignments,
                });
            }
        }
    }
    None
}

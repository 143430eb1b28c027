//! Which words have the most outputs that are left undecided. Nothing is believed of it: how many
//! each has is counted by itself.

use crate::undecided::counting::{IsLeft, Test};
use crate::undecided::word::number_in;
use eqc_pair::Pair;
use std::alloc::{AllocError, Global};

/// Outputs whose names begin and end alike.
#[derive(Clone, Copy)]
struct Run {
    key: u64,
    /// The first of them, by its position.
    first: usize,
    left: usize,
    all: usize,
}

/// A number that is mixed with these bytes.
fn mixed(start: u64, bytes: &[u8]) -> u64 {
    let mut state = start;
    for byte in bytes {
        state = (state ^ u64::from(*byte)).wrapping_mul(0x0100_0000_01b3);
    }
    state
}

/// What a name begins and ends with, as a number, if it has an index. Two words may have one
/// number: then less is told of them.
fn key_of(name: &[u8]) -> Option<u64> {
    match number_in(name) {
        None => None,
        Some((start, end)) => {
            let front = mixed(0xcbf2_9ce4_8422_2325, &name[..start]);
            Some(mixed(front, &name[end..]))
        }
    }
}

/// The outputs that are compared and have an index, those of a word behind each other. Fails where
/// memory is refused.
fn keyed(alloc: Global, pair: &Pair<'_>) -> Result<Vec<(u64, usize)>, AllocError> {
    let outputs = pair.first().outputs();
    let mut all = Vec::new(alloc);
    for output in 0..outputs.len() {
        if pair.is_chosen(output)
            && let Some(key) = key_of(outputs[output].as_bytes())
        {
            all.push((key, output))?;
        }
    }
    all.sort_unstable();
    Ok(all)
}

/// Puts a run behind others if it is a word of which some are left. The more are left, the less is
/// the first of its numbers.
fn end(ranks: &mut Vec<(usize, usize)>, run: Run) -> Result<(), AllocError> {
    if run.left > 0 && run.all > 1 {
        ranks.push((usize::MAX - run.left, run.first))?;
    }
    Ok(())
}

/// An output of each word of which some are left, those first of which most are. Fails where memory
/// is refused.
pub(crate) fn largest(
    alloc: Global,
    pair: &Pair<'_>,
    left: IsLeft<'_>,
) -> Result<Vec<(usize, usize)>, AllocError> {
    let all = keyed(alloc, pair)?;
    let mut ranks = Vec::new(alloc);
    let mut run = Run {
        key: 0,
        first: 0,
        left: 0,
        all: 0,
    };
    for (key, output) in all.as_slice() {
        if *key != run.key {
            end(&mut ranks, run)?;
            run = Run {
                key: *key,
                first: *output,
                left: 0,
                all: 0,
            };
        }
        run.all = run.all.saturating_add(1);
        if *output < pair.first().outputs().len() && left.holds(pair, *output) {
            run.left = run.left.saturating_add(1);
        }
    }
    end(&mut ranks, run)?;
    ranks.sort_unstable();
    Ok(ranks)
}

//! The values of steps under many assignments at once, as the bits of words. Nothing is believed of
//! them.

use crate::covers::Covers;
use crate::partner::NONE;
use crate::told::variable_value;
use eqc_build::Steps;
use eqc_sweep::Random;
use std::alloc::{AllocError, Global};

/// How many words each step has.
pub(crate) const ROUNDS: usize = 8;

/// The inputs' bits in which a round departs from the assignment of the difference: one in eight,
/// one in 32, and half of them.
fn flips(random: &mut Random, round: usize) -> u64 {
    match round {
        0 => random.next() & random.next() & random.next() & !1,
        1 | 2 | 3 => {
            let few = random.next() & random.next() & random.next();
            few & random.next() & random.next()
        }
        4 | 5 => random.next() & random.next() & random.next(),
        _ => random.next(),
    }
}

/// The word of a step, 0 where it has none.
pub(crate) fn word_at(words: &[u64], step: u32) -> u64 {
    words.get(step as usize).copied().unwrap_or(0)
}

/// The words of the variables in a round. Fails where memory is refused.
fn input_words(
    alloc: Global,
    steps: &Steps<'_>,
    values: &[bool],
    random: &mut Random,
    round: usize,
) -> Result<Vec<u64>, AllocError> {
    let variables = steps.pair().order().len();
    let mut inputs = Vec::with_capacity(alloc, variables)?;
    for variable in 0..variables {
        let told = variable_value(steps.pair(), values, variable as u16);
        let word = if told { u64::MAX } else { 0 };
        inputs.push(word ^ flips(random, round))?;
    }
    Ok(inputs)
}

/// The words of the steps that have covers here, by those of the variables, 0 for the others. Fails
/// where memory is refused.
pub(crate) fn round_words(
    alloc: Global,
    covers: &Covers,
    steps: u32,
    inputs: &[u64],
) -> Result<Vec<u64>, AllocError> {
    let mut words = Vec::with_capacity(alloc, steps as usize)?;
    for step in 0..steps {
        let word = covers.word(inputs, &words, step, NONE);
        words.push(word)?;
    }
    Ok(words)
}

/// The words of the steps that have covers here, round by round: the first bit of the first is
/// under the assignment of a difference, the others are under assignments near it, and by chance.
/// Fails where memory is refused.
pub(crate) fn words_under(
    alloc: Global,
    steps: &Steps<'_>,
    covers: &Covers,
    values: &[bool],
) -> Result<Vec<Vec<u64>>, AllocError> {
    let mut random = Random::new();
    let mut rounds = Vec::with_capacity(alloc, ROUNDS)?;
    for round in 0..ROUNDS {
        let inputs = input_words(alloc, steps, values, &mut random, round)?;
        rounds.push(round_words(alloc, covers, steps.len(), &inputs)?)?;
    }
    Ok(rounds)
}

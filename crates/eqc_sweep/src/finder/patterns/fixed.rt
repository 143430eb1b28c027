//! The words of inputs in the rows that are there before those of counterexamples.

use crate::finder::random::Random;

/// How many rows of random patterns there are.
const RANDOM: usize = 8;

/// The random row in the last two places of which all inputs are true, and all are false. So a
/// conjunction of all inputs doesn't look constant either.
const ALIKE: usize = RANDOM - 1;

/// How many rows there are in which all inputs but one are true, each of 256 inputs in its turn,
/// and how many in which all but one are false. They tell conjunctions of many inputs apart, and
/// disjunctions, which look constant under random patterns.
const ALL_BUT_ONE: usize = 4;

/// Where the rows of intervals begin, and how many there are. All inputs have one value there, but
/// for those of an interval, which are random: they tell apart what goes along a chain, as whether
/// no input behind one is true.
const FIRST_INTERVAL: usize = RANDOM + 2 * ALL_BUT_ONE;

const INTERVALS: usize = 4;

/// How many rows there are before those of counterexamples, where inputs are few.
pub(crate) const FIXED: usize = FIRST_INTERVAL + INTERVALS;

/// How far the inputs are from one another that are true in a pattern of a row behind these, and
/// how many such rows there are, one for each 64 of it. They tell apart what goes along a chain of
/// more than 256 inputs, as the number of the last one that is true: a bit of it changes where the
/// one before is as far away as the bit is worth.
const APART: [usize; 3] = [64, 128, 1_024];

const SPACED: usize = (APART[0] + APART[1] + APART[2]) / 64;

/// How many rows there are before those of counterexamples, where inputs are many.
pub(crate) const FIXED_FOR_MANY: usize = FIXED + SPACED;

/// The word of an input of this number in a row in which each input but one has the same value.
fn turn_of(input: u32, row: usize) -> u64 {
    let row = row.saturating_sub(RANDOM);
    let place = input as usize % (64 * ALL_BUT_ONE);
    let mut other: u64 = 0;
    if place / 64 == row % ALL_BUT_ONE {
        other = 1 << (input % 64);
    }
    if row < ALL_BUT_ONE {
        other ^ u64::MAX
    } else {
        other
    }
}

/// In each place, whether an input of this number is in the interval of that place: one of numbers
/// below 16 to 2,048, by the place. Of larger numbers what is left counts.
fn interval_of(input: u32, number: u64) -> u64 {
    let mut random = Random::numbered(number);
    let mut word: u64 = 0;
    for place in 0..u64::BITS {
        let bounds = random.next();
        let most = (16u64 << (place % 8)).wrapping_sub(1);
        let one = bounds >> 8 & most;
        let other = bounds >> 36 & most;
        let at = u64::from(input) & most;
        if at >= one.min(other) && at <= one.max(other) {
            word |= 1 << (place % 64);
        }
    }
    word
}

/// The word of an input of this number in a row of intervals: false outside of them in the first of
/// two rows, and true in the second.
fn interval_word(random: &mut Random, input: u32, row: usize) -> u64 {
    let row = row.saturating_sub(FIRST_INTERVAL);
    let inside = interval_of(input, row as u64 / 2);
    let word = inside & random.next();
    if row % 2 == 0 {
        word
    } else {
        word | inside ^ u64::MAX
    }
}

/// The word of an input of this number in a row in which inputs are true that are far apart.
fn spaced_word(input: u32, row: usize) -> u64 {
    let mut before = FIXED;
    for apart in APART {
        let place = input as usize % apart;
        if before.wrapping_add(place / 64) == row {
            return 1 << (input % 64);
        }
        before = before.wrapping_add(apart / 64);
        if row < before {
            return 0;
        }
    }
    0
}

/// A random word, of whose places so many halves are taken: with two of them a quarter are true.
fn sparse(random: &mut Random, halves: u32) -> u64 {
    let mut word = u64::MAX;
    for _ in 0..halves {
        word &= random.next();
    }
    word
}

/// The word of an input in a random row: in some of these few are true, or few are false.
fn random_word(random: &mut Random, row: usize) -> u64 {
    match row {
        3 => sparse(random, 2),
        4 => sparse(random, 4),
        5 => sparse(random, 2) ^ u64::MAX,
        6 => sparse(random, 4) ^ u64::MAX,
        ALIKE => random.next() >> 2 | 1 << 62,
        _ => random.next(),
    }
}

/// The word of an input of this number in a row, where there are so many before those of
/// counterexamples. In these it is random.
pub(crate) fn input_word(random: &mut Random, input: u32, row: usize, fixed: usize) -> u64 {
    if row < RANDOM || row >= fixed {
        return random_word(random, row);
    }
    if row < FIRST_INTERVAL {
        turn_of(input, row)
    } else if row < FIXED {
        interval_word(random, input, row)
    } else {
        spaced_word(input, row)
    }
}

/// How many random words are drawn for the word of an input in a row, where there are so many
/// before those of counterexamples.
pub(crate) fn draws(row: usize, fixed: usize) -> u32 {
    match row {
        3 | 5 => 2,
        4 | 6 => 4,
        _ if row >= RANDOM && row < FIRST_INTERVAL => 0,
        _ if row >= FIXED && row < fixed => 0,
        _ => 1,
    }
}

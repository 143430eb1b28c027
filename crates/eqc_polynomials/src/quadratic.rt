//! A word as a polynomial of degree two in its inputs.

use crate::simulation::{ASSIGNMENTS, Values, random_patterns, variables_of};
use eqc_sweep::Random;
use eqc_xag::{Graph, Literal};
use std::alloc::{AllocError, Global};

/// Words that depend on more inputs aren't looked at: a product of 64 bits depends on 128.
const MOST_INPUTS: usize = 192;

/// Values of so many nodes are simulated at most.
const LOOKS: usize = 40_000_000;

/// So often all assignments at once are compared.
const ROUNDS: u32 = 2;

/// So many groups of inputs are turned in vain at most.
const MOST_GROUPS: u32 = 16;

/// A polynomial of degree two in three sets of inputs has the difference of third order 0. Which of
/// these eight assignments an input is true under, by three random bits: in each set for four, and
/// for none or all where it is in no set.
static CORNERS: [u8; 8] = [
    0b1010_1010,
    0b1010_1010,
    0b1100_1100,
    0b1100_1100,
    0b1111_0000,
    0b1111_0000,
    0,
    0b1111_1111,
];

/// Two places among the inputs, or one twice.
#[derive(Clone, Copy)]
struct Places {
    one: usize,
    other: usize,
}

/// How often the conjunction of two inputs counts.
#[derive(Clone, Copy)]
pub struct Pair {
    pub one: usize,
    pub other: usize,
    pub times: u128,
}

/// A polynomial, modulo 2^bits: a constant, how often each input counts, and the conjunction of two.
#[derive(Drop)]
pub struct Quadratic {
    pub bits: usize,
    /// The inputs' variables, in ascending order.
    pub variables: Vec<u32>,
    /// By inputs, whether its complement counts in place of it.
    pub negated: Vec<bool>,
    pub constant: u128,
    pub singles: Vec<u128>,
    pub pairs: Vec<Pair>,
}

/// The inputs whose conjunctions with another one count a power of two, or less than nothing by one.
#[derive(Drop)]
struct Partners {
    added: Vec<usize>,
    taken: Vec<usize>,
    /// The one that counts most, as the bit does that tells a factor's sign.
    last: Option<usize>,
}

/// The numbers below 2^bits, for which all digits are ones.
pub(crate) fn modulus_of(bits: usize) -> u128 {
    if bits >= 128 {
        u128::MAX
    } else {
        (1u128 << bits) - 1
    }
}

/// Puts a one into the pattern of a place.
fn set(patterns: &mut Vec<u128>, place: usize, assignment: usize) {
    if let Some(pattern) = patterns.get_mut(place) {
        *pattern = *pattern | 1u128 << (assignment % ASSIGNMENTS);
    }
}

/// The numbers that a word stands for where the inputs at two places are true and the others are
/// false.
fn numbers_at(
    alloc: Global,
    graph: &Graph,
    word: &[Literal],
    variables: &[u32],
    places: &[Places],
) -> Result<Vec<u128>, AllocError> {
    let mut numbers = Vec::with_capacity(alloc, places.len())?;
    for part in places.chunks(ASSIGNMENTS) {
        let mut patterns = vec![in alloc; 0u128; variables.len()]?;
        for assignment in 0..part.len() {
            set(&mut patterns, part[assignment].one, assignment);
            set(&mut patterns, part[assignment].other, assignment);
        }
        let values = Values::of(alloc, graph, variables, &patterns)?;
        for assignment in 0..part.len() {
            numbers.push(values.number(word, assignment))?;
        }
    }
    Ok(numbers)
}

/// No input, each input, and each two of so many.
fn all_places(alloc: Global, count: usize) -> Result<Vec<Places>, AllocError> {
    let mut places = Vec::new(alloc);
    places.push(Places {
        one: count,
        other: count,
    })?;
    for one in 0..count {
        places.push(Places { one, other: one })?;
    }
    for one in 0..count {
        for other in 0..one {
            places.push(Places { one, other })?;
        }
    }
    Ok(places)
}

/// The polynomial that has these numbers where up to two inputs are true.
fn through(
    alloc: Global,
    bits: usize,
    variables: Vec<u32>,
    places: &[Places],
    numbers: &[u128],
) -> Result<Quadratic, AllocError> {
    let modulus = modulus_of(bits);
    let constant = numbers.first().copied().unwrap_or(0);
    let mut singles = vec![in alloc; 0u128; variables.len()]?;
    let mut pairs = Vec::new(alloc);
    for k in 1..places.len().min(numbers.len()) {
        let Places { one, other } = places[k];
        let more = numbers[k].wrapping_sub(constant);
        if one >= singles.len() || other >= singles.len() {
            continue;
        }
        if one == other {
            singles[one] = more & modulus;
        } else {
            let times = more.wrapping_sub(singles[one]).wrapping_sub(singles[other]) & modulus;
            if times != 0 {
                pairs.push(Pair { one, other, times })?;
            }
        }
    }
    let negated = vec![in alloc; false; variables.len()]?;
    Ok(Quadratic {
        bits,
        variables,
        negated,
        constant,
        singles,
        pairs,
    })
}

/// For each input, whether it is true at the corners of 16 differences of third order.
fn corners(alloc: Global, random: &mut Random, count: usize) -> Result<Vec<u128>, AllocError> {
    let mut patterns = Vec::with_capacity(alloc, count)?;
    for _ in 0..count {
        let mut left = random.next();
        let mut pattern = 0u128;
        for _ in 0..ASSIGNMENTS / 8 {
            let corner = CORNERS[(left % 8) as usize];
            pattern = pattern << 8 | u128::from(corner);
            left /= 8;
        }
        patterns.push(pattern)?;
    }
    Ok(patterns)
}

/// Whether a word may be a polynomial of degree two: differences of third order are 0 then.
fn may_be_quadratic(
    alloc: Global,
    graph: &Graph,
    word: &[Literal],
    variables: &[u32],
) -> Result<bool, AllocError> {
    let patterns = corners(alloc, &mut Random::numbered(3), variables.len())?;
    let values = Values::of(alloc, graph, variables, &patterns)?;
    for difference in 0..ASSIGNMENTS / 8 {
        let mut sum = 0u128;
        for corner in 0..8usize {
            let number = values.number(word, difference * 8 + corner);
            sum = if corner.count_ones() % 2 == 0 {
                sum.wrapping_add(number)
            } else {
                sum.wrapping_sub(number)
            };
        }
        if sum & modulus_of(word.len()) != 0 {
            return Ok(false);
        }
    }
    Ok(true)
}

impl Quadratic {
    /// The polynomial that a word is, the lowest literal first: none where it is of another kind.
    /// That it is one is only looked at. Fails where memory is refused.
    pub(crate) fn of(
        alloc: Global,
        graph: &Graph,
        word: &[Literal],
    ) -> Result<Option<Quadratic>, AllocError> {
        let variables = variables_of(alloc, graph, word)?;
        let count = variables.len();
        let looks = (count.saturating_mul(count) / (2 * ASSIGNMENTS) + 1).saturating_mul(
            graph.len() as usize,
        );
        if count > MOST_INPUTS || looks > LOOKS || word.len() > 128 {
            return Ok(None);
        }
        if !may_be_quadratic(alloc, graph, word, &variables)? {
            return Ok(None);
        }
        let places = all_places(alloc, count)?;
        let numbers = numbers_at(alloc, graph, word, &variables, &places)?;
        let found = through(alloc, word.len(), variables, &places, &numbers)?;
        Ok(if found.is_same(alloc, graph, word)? {
            Some(found)
        } else {
            None
        })
    }

    /// The number that it is where the inputs have these values, by their places, under an
    /// assignment.
    fn number(&self, patterns: &[u128], assignment: usize) -> u128 {
        let bit = |place: usize| {
            patterns.get(place).copied().unwrap_or(0) >> (assignment % ASSIGNMENTS) & 1
        };
        let mut number = self.constant;
        for place in 0..self.singles.len() {
            number = number.wrapping_add(self.singles[place].wrapping_mul(bit(place)));
        }
        for pair in &self.pairs {
            let both = bit(pair.one) & bit(pair.other);
            number = number.wrapping_add(pair.times.wrapping_mul(both));
        }
        number & modulus_of(self.bits)
    }

    /// Whether a word stands for the same number under pseudo-random assignments. Fails where
    /// memory is refused.
    pub(crate) fn is_same(
        &self,
        alloc: Global,
        graph: &Graph,
        word: &[Literal],
    ) -> Result<bool, AllocError> {
        let mut random = Random::numbered(1);
        for _ in 0..ROUNDS {
            let patterns = random_patterns(alloc, &mut random, self.variables.len())?;
            let values = Values::of(alloc, graph, &self.variables, &patterns)?;
            for assignment in 0..ASSIGNMENTS {
                if values.number(word, assignment) != self.number(&patterns, assignment) {
                    return Ok(false);
                }
            }
        }
        Ok(true)
    }

    /// How many ones there are in what inputs count by themselves, or in what they take away.
    fn weight(&self) -> u32 {
        let mut weight = 0u32;
        for times in &self.singles {
            let less = 0u128.wrapping_sub(*times) & modulus_of(self.bits);
            weight = weight.saturating_add(times.count_ones().min(less.count_ones()));
        }
        weight
    }

    /// So often more an input counts by itself, if there is one.
    fn count_single(&mut self, place: usize, times: u128) {
        let modulus = modulus_of(self.bits);
        if let Some(single) = self.singles.get_mut(place) {
            *single = single.wrapping_add(times) & modulus;
        }
    }

    /// Takes an input's complement in place of it, or the input again.
    fn turn(&mut self, place: usize) {
        let modulus = modulus_of(self.bits);
        let single = self.singles.get(place).copied().unwrap_or(0);
        self.constant = self.constant.wrapping_add(single) & modulus;
        self.count_single(place, 0u128.wrapping_sub(single.wrapping_mul(2)));
        for k in 0..self.pairs.len() {
            let Some(Pair { one, other, times }) = self.pairs.get(k).copied() else {
                continue;
            };
            if one != place && other != place {
                continue;
            }
            self.count_single(if one == place { other } else { one }, times);
            if let Some(pair) = self.pairs.get_mut(k) {
                pair.times = 0u128.wrapping_sub(times) & modulus;
            }
        }
        if let Some(is_negated) = self.negated.get_mut(place) {
            *is_negated = !*is_negated;
        }
    }

    /// The inputs whose conjunctions with this one count. Fails where memory is refused.
    fn partners(&self, alloc: Global, place: usize) -> Result<Partners, AllocError> {
        let mut partners = Partners {
            added: Vec::new(alloc),
            taken: Vec::new(alloc),
            last: None,
        };
        let mut highest = 0u32;
        for Pair { one, other, times } in &self.pairs {
            let partner = if *one == place { *other } else { *one };
            let less = 0u128.wrapping_sub(*times) & modulus_of(self.bits);
            let column = times.trailing_zeros();
            if *one != place && *other != place {
                continue;
            }
            if times.is_power_of_two() {
                partners.added.push(partner)?;
            } else if less.is_power_of_two() {
                partners.taken.push(partner)?;
            } else {
                continue;
            }
            if partners.last.is_none() || column > highest {
                highest = column;
                partners.last = Some(partner);
            }
        }
        Ok(partners)
    }

    fn turn_all(&mut self, places: &[usize]) {
        for place in places {
            self.turn(*place);
        }
    }

    /// Whether less counts by itself where these inputs are turned, as they are or but for the last
    /// one: then they are.
    fn turn_group(&mut self, group: &[usize], last: Option<usize>) -> bool {
        let before = self.weight();
        self.turn_all(group);
        if self.weight() < before {
            return true;
        }
        if let Some(last) = last {
            self.turn(last);
            if self.weight() < before {
                return true;
            }
            self.turn(last);
        }
        self.turn_all(group);
        false
    }

    /// Turns inputs of a factor at once, of which a netlist has the complements of some: where one
    /// alone is turned more counts by itself. Fails where memory is refused.
    fn turn_groups(&mut self, alloc: Global) -> Result<(), AllocError> {
        let mut failed = 0u32;
        for place in 0..self.variables.len() {
            let Partners { added, taken, last } = self.partners(alloc, place)?;
            let is_plain = taken.iter().all(|it| Some(*it) == last);
            if is_plain || failed >= MOST_GROUPS {
                continue;
            }
            if !self.turn_group(&taken, last) && !self.turn_group(&added, last) {
                failed = failed.saturating_add(1);
            }
        }
        Ok(())
    }

    /// Takes complements of inputs where less counts by itself then: of bits of a factor, say, of
    /// which a netlist has the complement. Fails where memory is refused.
    pub(crate) fn turned(mut self, alloc: Global) -> Result<Quadratic, AllocError> {
        self.turn_groups(alloc)?;
        for place in 0..self.variables.len() {
            let before = self.weight();
            self.turn(place);
            if self.weight() >= before {
                self.turn(place);
            }
        }
        Ok(self)
    }
}

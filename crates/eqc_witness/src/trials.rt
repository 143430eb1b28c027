//! Assignments that are tried before the search is asked: near those that are known, and by chance,
//! 64 at once. What is found is a guess, which counts where the cone's root is evaluated under it.
ghost use Rattle.std.specs.Prelude.{◌≡◌, length, IfOk, IfSome};

use crate::cone::Cone;
use crate::simulation::{LANES, Simulation};
use std::alloc::{AllocError, Global};

/// How many of the earlier assignments are tried, the last ones: in one lane each, beside what is
/// tried first.
pub const EARLIER: usize = LANES as usize - 1;

/// How many times 64 assignments near a known one are tried.
const NEAR_ROUNDS: u32 = 200;

/// How many times 64 assignments are tried by chance.
const CHANCE_ROUNDS: u32 = 8;

/// How many times positions in a row get one value, in each of the assignments that are like a
/// known one otherwise.
const RUNS: u32 = 2;

/// So many positions such a row has at most.
const LONGEST_RUN: u64 = 32;

/// The positions that have the other value next: each alone, then two, the nearest first.
#[derive(Drop)]
struct Flips {
    position: usize,
    apart: usize,
}

impl Flips {
    /// The next two, which may be one.
    fn next(&mut self, positions: usize) -> Option<(usize, usize)> {
        if self.apart >= positions {
            return None;
        }
        let found = (self.position, self.position.wrapping_add(self.apart));
        self.position = self.position.wrapping_add(1);
        if self.position.wrapping_add(self.apart) >= positions {
            self.position = 0;
            self.apart = self.apart.wrapping_add(1);
        }
        Some(found)
    }
}

/// Whether values come before others, in lexicographic order, false before true.
pub(crate) fn is_less(values: &[bool], others: &[bool]) -> bool {
    for place in 0..values.len().min(others.len()) {
        if values[place] != others[place] {
            return others[place];
        }
    }
    false
}

/// The words of a cone's nodes.
#[derive(Drop)]
pub(crate) struct Trials {
    simulation: Simulation,
}

impl Trials {
    /// Fails where memory is refused.
    pub(crate) fn new(alloc: Global, cone: &Cone) -> Result<Trials, AllocError> {
        Ok(Trials {
            simulation: Simulation::new(alloc, &cone.graph)?,
        })
    }

    /// How many words were made of others.
    pub(crate) fn work(&self) -> u64 {
        self.simulation.work
    }

    /// Lets all assignments begin with these values.
    fn begin(&mut self, values: &[bool]) {
        for position in 0..values.len() {
            let word = if values[position] { u64::MAX } else { 0 };
            // The input of position p is node p + 1.
            self.simulation.set(position.wrapping_add(1), word);
        }
    }

    /// Lets all assignments begin with the first values and go on as others, and with false where
    /// there are none.
    pub(crate) fn settle(&mut self, cone: &Cone, first: &[bool], others: &[bool]) {
        for position in 0..cone.positions {
            self.simulation.set(position.wrapping_add(1), 0);
        }
        self.begin(others);
        self.begin(first);
        self.simulation.evaluate(&cone.graph);
    }

    /// The value of a node under the first of the assignments.
    pub(crate) fn value(&self, node: u32) -> bool {
        self.simulation.at(node as usize) % 2 == 1
    }

    /// Gives one of the assignments a value at a position.
    fn put(&mut self, lane: u32, position: usize, value: bool) {
        let node = position.wrapping_add(1);
        let bit: u64 = 1 << (lane % LANES);
        let word = self.simulation.at(node) | bit;
        self.simulation
            .set(node, if value { word } else { word ^ bit });
    }

    /// Gives one of the assignments the other value at a position.
    fn flip(&mut self, lane: u32, position: usize) {
        let node = position.wrapping_add(1);
        let bit: u64 = 1 << (lane % LANES);
        self.simulation.set(node, self.simulation.at(node) ^ bit);
    }

    /// Those assignments under which the root is true and which are least.
    fn least_among(&mut self, cone: &Cone) -> u64 {
        self.simulation.evaluate(&cone.graph);
        let mut among = self.simulation.word_of(cone.root);
        for position in 0..cone.positions {
            let lower = among & (self.simulation.at(position.wrapping_add(1)) ^ u64::MAX);
            if lower != 0 {
                among = lower;
            }
        }
        among
    }

    /// The least of the assignments under which the root is true, if there is one.
    fn least(&mut self, alloc: Global, cone: &Cone) -> Result<Option<Vec<bool>>, AllocError>
        ensures { IfOk result (λ found. IfSome found (λ values. length values.items ≡ cone.now.positions)) }
    {
        let among = self.least_among(cone);
        if among == 0 {
            return Ok(None);
        }
        let lane = among.trailing_zeros();
        let mut values = vec![in alloc; false; cone.positions]?;
        for position in 0..values.len() {
            let word = self.simulation.at(position.wrapping_add(1));
            values[position] = (word >> (lane % LANES)) % 2 == 1;
        }
        Ok(Some(values))
    }

    /// The least of these values and of the last 63 of earlier ones under which the root is true,
    /// or else these.
    pub(crate) fn best_of(
        &mut self,
        alloc: Global,
        cone: &Cone,
        values: Vec<bool>,
        earlier: &[Vec<bool>],
    ) -> Result<Vec<bool>, AllocError>
        requires { length values.items ≡ cone.now.positions }
        ensures { IfOk result (λ values. length values.items ≡ cone.now.positions) }
    {
        self.begin(&values);
        let mut lane: u32 = 1;
        for place in earlier.len().saturating_sub(EARLIER)..earlier.len() {
            let others = &earlier[place];
            for position in 0..others.len() {
                self.put(lane, position, others[position]);
            }
            lane = lane.wrapping_add(1);
        }
        match self.least(alloc, cone)? {
            Some(best) => Ok(best),
            None => Ok(values),
        }
    }

    /// Lets the assignments be like one, but for the next flips.
    fn flip_each(&mut self, base: &[bool], flips: &mut Flips) {
        self.begin(base);
        for lane in 0..LANES {
            let Some((one, other)) = flips.next(base.len()) else {
                return;
            };
            self.flip(lane, one);
            if other != one {
                self.flip(lane, other);
            }
        }
    }

    /// The least values that were found near these, at one position or two, and under which the
    /// root is true: values that are known, where there are none less.
    pub(crate) fn near(
        &mut self,
        alloc: Global,
        cone: &Cone,
        base: &[bool],
        known: Vec<bool>,
    ) -> Result<Vec<bool>, AllocError>
        requires { length known.items ≡ cone.now.positions }
        ensures { IfOk result (λ values. length values.items ≡ cone.now.positions) }
    {
        let mut best = known;
        let mut flips = Flips {
            position: 0,
            apart: 0,
        };
        'rounds: for _ in 0..NEAR_ROUNDS {
            if flips.apart >= base.len() {
                break;
            }
            self.flip_each(base, &mut flips);
            if let Some(found) = self.least(alloc, cone)? {
                if is_less(&found, &best) {
                    best = found;
                }
            }
        }
        Ok(best)
    }

    /// Lets the assignments be like one, but for runs that begin at a position and are false: of
    /// one position, two, four and so on.
    fn lower_each(&mut self, values: &[bool], from: usize) {
        self.begin(values);
        for position in from..values.len() {
            if values[position] {
                let bits = usize::BITS - (position - from).leading_zeros();
                // Those assignments leave it true whose runs end before it.
                let word = (1u64 << (bits % LANES)).wrapping_sub(1);
                self.simulation.set(position.wrapping_add(1), word);
            }
        }
    }

    /// The least of the assignments in which one position, two, four and so on from a position on
    /// are false, and which are like these values otherwise, under which the root is true; these
    /// values, where there is none. So what may be false is found for many positions at once.
    pub(crate) fn lowered(
        &mut self,
        alloc: Global,
        cone: &Cone,
        values: &[bool],
        from: usize,
    ) -> Result<Vec<bool>, AllocError>
        requires { length values.now ≡ cone.now.positions }
        ensures { IfOk result (λ values. length values.items ≡ cone.now.positions) }
    {
        self.lower_each(values, from);
        match self.least(alloc, cone)? {
            Some(found) => Ok(found),
            None => values.to_vec(alloc),
        }
    }

    /// Lets each assignment have values by chance from a position on.
    fn by_chance(&mut self, from: usize, positions: usize) {
        for position in from..positions {
            let word = self.simulation.random();
            self.simulation.set(position.wrapping_add(1), word);
        }
    }

    /// Lets one of the assignments have one value at some positions in a row, from a position on.
    fn run(&mut self, lane: u32, from: usize, positions: usize) {
        let chance = self.simulation.random();
        let room = positions.saturating_sub(from).max(1) as u64;
        let begin = from.saturating_add(((chance >> 32) % room) as usize);
        let length = (chance % (LONGEST_RUN + 1)) as usize;
        let value = (chance >> 20) % 2 == 1;
        for position in begin..begin.saturating_add(length).min(positions) {
            self.put(lane, position, value);
        }
    }

    /// Lets the assignments be like one, but for some rows in each.
    fn in_runs(&mut self, guess: &[bool], from: usize) {
        self.begin(guess);
        for lane in 0..LANES {
            for _ in 0..RUNS {
                self.run(lane, from, guess.len());
            }
        }
    }

    /// Values that begin with the first ones and under which the root is true, if some are found by
    /// chance, and near a guess.
    pub(crate) fn beginning_with(
        &mut self,
        alloc: Global,
        cone: &Cone,
        first: &[bool],
        guess: &[bool],
    ) -> Result<Option<Vec<bool>>, AllocError>
        ensures { IfOk result (λ found. IfSome found (λ values. length values.items ≡ cone.now.positions)) }
    {
        for round in 0..CHANCE_ROUNDS {
            if round % 2 == 0 {
                self.by_chance(first.len(), cone.positions);
            } else {
                self.in_runs(guess, first.len());
            }
            self.begin(first);
            let found = self.least(alloc, cone)?;
            if found.is_some() {
                return Ok(found);
            }
        }
        Ok(None)
    }
}

//! The signals at which one output may begin to differ, in the order in which they are told.
ghost use Rattle.std.specs.Prelude.{◌≡◌, length, IfOk};

use crate::locating::Locator;
use crate::mending::mending_among;
use crate::place::{Mending, Place};
use crate::ranking::{MOST, MOST_LOOKED_AT, Suspect, rank, torn_in};
use crate::sensitised::sensitised;
use crate::turning::{Scene, Turned, Turning};
use crate::words::{ROUNDS, words_under};
use eqc_build::StepDriver;
use std::alloc::{AllocError, Global};

/// All covers are gone through so many times at most to turn the steps of a kind, and as many for
/// all that are looked at in all rounds.
const PASSES: u64 = 16;

/// In a small pair so many literals may be gone through for this all the same, and in a large one
/// no more.
const LEAST_WORK: u64 = 500_000;

const MOST_WORK: u64 = 16_000_000;

/// An output by its two steps, with the words under which it is looked at.
#[derive(Drop)]
pub(crate) struct Trial<'x, 'a> {
    alloc: Global,
    locator: &'x Locator<'a>,
    roots: [u32; 2],
    rounds: Vec<Turning>,
}

/// Steps from one to another that are known in the other netlist, or aren't.
#[derive(Clone, Copy)]
struct Kind {
    begin: u32,
    end: u32,
    is_known: bool,
}

/// What is looked at for an output of these steps.
pub(crate) fn scene<'x>(locator: &'x Locator<'_>, roots: [u32; 2]) -> Scene<'x> {
    Scene {
        steps: &locator.steps,
        covers: &locator.covers,
        users: &locator.users,
        outputs: &locator.outputs,
        roots,
    }
}

impl<'x, 'a> Trial<'x, 'a> {
    /// Of an output of these steps, under an assignment under which it differs. Fails where memory
    /// is refused.
    pub(crate) fn of(
        alloc: Global,
        locator: &'x Locator<'a>,
        roots: [u32; 2],
        inputs: &[bool],
    ) -> Result<Trial<'x, 'a>, AllocError> {
        let mut rounds = Vec::with_capacity(alloc, ROUNDS)?;
        for words in words_under(alloc, &locator.steps, &locator.covers, inputs)? {
            let round = Turning::of(alloc, scene(locator, roots), words)?;
            rounds.push(round)?;
        }
        Ok(Trial {
            alloc,
            locator,
            roots,
            rounds,
        })
    }

    /// In how many assignments the output differs.
    pub(crate) fn differing(&self) -> u32 {
        let mut all = 0u32;
        for round in &self.rounds {
            all = all.saturating_add(round.differing.count_ones());
        }
        all
    }

    /// How many literals of covers were gone through, about.
    fn work(&self) -> u64 {
        let mut all = 0u64;
        for round in &self.rounds {
            all = all.saturating_add(round.work);
        }
        all
    }

    /// How many literals may have been gone through when the next kind is done.
    fn limit(&self) -> u64 {
        let locator = self.locator;
        let passes = locator.covers.whole().saturating_mul(PASSES);
        let work = passes.max(LEAST_WORK).min(MOST_WORK);
        self.work().saturating_add(work)
    }

    /// What comes of turning a step, in the first rounds, at most so many. Fails where memory is
    /// refused.
    fn turned(&mut self, step: u32, most: usize) -> Result<Vec<Turned>, AllocError> {
        let scene = scene(self.locator, self.roots);
        let mut all = Vec::with_capacity(self.alloc, self.rounds.len())?;
        for k in 0..most {
            if k >= self.rounds.len() {
                return Ok(all);
            }
            let turned = self.rounds[k].try_step(scene, step)?;
            all.push(turned)?;
        }
        Ok(all)
    }

    /// A step as one at which a difference may begin, with what comes of turning it in some rounds.
    fn suspect(&self, turned: &[Turned], step: u32) -> Suspect {
        let mut mended = 0u32;
        let mut whole = 0u32;
        for turned in turned {
            mended = mended.saturating_add(turned.mended.count_ones());
            whole = whole.saturating_add(turned.whole.count_ones());
        }
        let locator = self.locator;
        Suspect {
            step,
            mended,
            whole,
            torn: torn_in(&locator.steps, &self.rounds, turned, step),
            is_known: locator.is_known(step),
            begins: locator.begins(step),
            depth: locator.depths.get(step as usize).copied().unwrap_or(0),
        }
    }

    /// Whether a step is a cover.
    fn is_cover(&self, step: u32) -> bool {
        let locator = self.locator;
        let steps = &locator.steps;
        step < steps.len() && matches!(steps.driver(step), StepDriver::Cover { .. })
    }

    /// Puts a step among the signals at which the output may begin to differ, by the first round.
    /// Fails where memory is refused.
    fn try_step(&mut self, step: u32, ranked: &mut Vec<Suspect>) -> Result<(), AllocError> {
        let turned = self.turned(step, 1)?;
        let mends = match turned.first() {
            Some(first) => first.mended & 1 != 0,
            None => false,
        };
        if mends {
            let suspect = self.suspect(&turned, step);
            rank(ranked, suspect, MOST_LOOKED_AT)?;
        }
        Ok(())
    }

    /// The same for the marked covers of a kind, from the outputs down, where little follows a
    /// turn, as long as what may be gone over for them is left. Fails where memory is refused.
    fn look_at(
        &mut self,
        found: &[bool],
        kind: Kind,
        ranked: &mut Vec<Suspect>,
    ) -> Result<(), AllocError> {
        let limit = self.limit();
        for back in 0..kind.end.saturating_sub(kind.begin) {
            let step = kind.end.wrapping_sub(1).wrapping_sub(back);
            let is_found = found.get(step as usize).copied().unwrap_or(false);
            if is_found && self.is_cover(step) && self.locator.is_known(step) == kind.is_known {
                self.try_step(step, ranked)?;
            }
            if self.work() > limit {
                return Ok(());
            }
        }
        Ok(())
    }

    /// The steps on sensitised ways in the first round. Fails where memory is refused.
    fn found(&self) -> Result<Vec<bool>, AllocError> {
        let locator = self.locator;
        match self.rounds.first() {
            None => Ok(Vec::new(self.alloc)),
            Some(round) => sensitised(
                self.alloc,
                &locator.steps,
                &locator.covers,
                &round.words,
                self.roots,
            ),
        }
    }

    /// Those of a netlist's signals at which the output may begin to differ by the first round.
    /// Fails where memory is refused.
    fn ranked_first(
        &mut self,
        found: &[bool],
        begin: u32,
        end: u32,
    ) -> Result<Vec<Suspect>, AllocError> {
        let mut ranked = Vec::new(self.alloc);
        for is_known in [false, true] {
            let kind = Kind {
                begin,
                end,
                is_known,
            };
            self.look_at(found, kind, &mut ranked)?;
        }
        Ok(ranked)
    }

    /// The same by all rounds. Fails where memory is refused.
    fn ranked_in(
        &mut self,
        found: &[bool],
        begin: u32,
        end: u32,
    ) -> Result<Vec<Suspect>, AllocError> {
        let first = self.ranked_first(found, begin, end)?;
        let mut ranked = Vec::new(self.alloc);
        let limit = self.limit();
        for suspect in &first {
            if self.work() > limit {
                return Ok(ranked);
            }
            let turned = self.turned(suspect.step, ROUNDS)?;
            let suspect = self.suspect(&turned, suspect.step);
            rank(&mut ranked, suspect, MOST)?;
        }
        Ok(ranked)
    }

    /// The signals at which the output may begin to differ, first those of the second netlist.
    /// Fails where memory is refused.
    pub(crate) fn ranked(&mut self) -> Result<Vec<Suspect>, AllocError> {
        let found = self.found()?;
        let (second, end) = self.locator.second_steps();
        let mut ranked = self.ranked_in(&found, second, end)?;
        let others = self.ranked_in(&found, 0, second)?;
        ranked.extend_from_slice(&others)?;
        Ok(ranked)
    }

    /// A signal of the other netlist by which a step would be mended, if one is found. Fails where
    /// memory is refused.
    fn mending(&mut self, step: u32) -> Result<Option<Mending>, AllocError> {
        let turned = self.turned(step, ROUNDS)?;
        let locator = self.locator;
        let (second, end) = locator.second_steps();
        let others = if step < second {
            (second, end)
        } else {
            (0, second)
        };
        Ok(mending_among(&self.rounds, &turned, &locator.marks, step, others))
    }

    /// What would mend each of these places. Fails where memory is refused.
    pub(crate) fn mendings(&mut self, places: &[Place]) -> Result<Vec<Option<Mending>>, AllocError>
        ensures { IfOk result (λ each. length each.items ≡ length places.now) }
    {
        let mut each = Vec::with_capacity(self.alloc, places.len())?;
        for k in 0..places.len() {
            let mending = self.mending(places[k].step)?;
            each.push(mending)?;
        }
        Ok(each)
    }
}

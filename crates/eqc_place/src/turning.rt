//! What comes of the outputs where one step has the opposite value.

use crate::covers::Covers;
use crate::partner::NONE;
use crate::users::{Pending, Users};
use crate::words::word_at;
use eqc_build::Steps;
use std::alloc::{AllocError, Global};

/// The assignments of a round that tell of a step: those under which the output differs and
/// wouldn't with the opposite value, and those under which nothing differs and something would.
#[derive(Clone, Copy)]
pub(crate) struct Turned {
    pub(crate) mended: u64,
    pub(crate) broken: u64,
    /// Of the first, those under which no other output would differ either.
    pub(crate) whole: u64,
}

/// What is looked at: the steps of a pair, the covers of those that are marked and those that use
/// each one, and the output's two steps.
#[derive(Clone, Copy)]
pub(crate) struct Scene<'x> {
    pub(crate) steps: &'x Steps<'x>,
    pub(crate) covers: &'x Covers,
    pub(crate) users: &'x Users,
    /// The steps of the chosen outputs.
    pub(crate) outputs: &'x [[u32; 2]],
    pub(crate) roots: [u32; 2],
}

/// The words of a round, and a copy of them in which steps are turned and turned back.
#[derive(Drop)]
pub(crate) struct Turning {
    pub(crate) words: Vec<u64>,
    turned: Vec<u64>,
    /// The steps whose words are others than before.
    changed: Vec<u32>,
    /// Those that use one of them.
    pending: Pending,
    /// Assignments that are allowed and under which the output differs, and those under which some
    /// output does.
    pub(crate) differing: u64,
    some: u64,
    allowed: u64,
    /// How many literals of covers were gone through, about.
    pub(crate) work: u64,
}

/// Assignments under which an output of these steps differs.
fn apart(words: &[u64], roots: [u32; 2]) -> u64 {
    word_at(words, roots[0]) ^ word_at(words, roots[1])
}

/// Assignments that the assumption allows.
fn allowed(steps: &Steps<'_>, words: &[u64]) -> u64 {
    match steps.assumed_root() {
        Some(root) => word_at(words, root),
        None => u64::MAX,
    }
}

/// Assignments under which some of these outputs differs.
fn some_apart(words: &[u64], outputs: &[[u32; 2]]) -> u64 {
    let mut some = 0;
    for roots in outputs {
        some |= apart(words, *roots);
    }
    some
}

impl Turning {
    /// Over the words of a round. Fails where memory is refused.
    pub(crate) fn of(
        alloc: Global,
        scene: Scene<'_>,
        words: Vec<u64>,
    ) -> Result<Turning, AllocError> {
        let mut turned = Vec::with_capacity(alloc, words.len())?;
        turned.extend_from_slice(&words)?;
        let pending = Pending::of(alloc, scene.steps.len())?;
        let allowed = allowed(scene.steps, &words);
        let differing = apart(&words, scene.roots) & allowed;
        let some = some_apart(&words, scene.outputs) & allowed;
        Ok(Turning {
            words,
            turned,
            changed: Vec::new(alloc),
            pending,
            differing,
            some,
            allowed,
            work: 0,
        })
    }

    /// Notes another word of a step, and that those that use it may change. Fails where memory is
    /// refused.
    fn change(&mut self, users: &Users, step: u32, word: u64) -> Result<(), AllocError> {
        let at = step as usize;
        if at < self.turned.len() && self.turned[at] != word {
            self.turned[at] = word;
            self.changed.push(step)?;
            users.mark(step, &mut self.pending);
        }
        Ok(())
    }

    /// Turns a step, and gives the steps above it the words that they have then. Fails where memory
    /// is refused.
    fn turn(&mut self, scene: Scene<'_>, step: u32) -> Result<(), AllocError> {
        let word = !word_at(&self.words, step);
        self.change(scene.users, step, word)?;
        self.work = self.work.saturating_add(scene.outputs.len() as u64);
        // The users of a step come behind it, so that each step is taken once at most.
        for _ in 0..scene.steps.len() {
            let Some(above) = self.pending.take() else {
                break;
            };
            self.work = self.work.saturating_add(scene.covers.size(above));
            let word = scene.covers.word(&[], &self.turned, above, NONE);
            self.change(scene.users, above, word)?;
        }
        Ok(())
    }

    /// Gives all steps their words of before.
    fn turn_back(&mut self) {
        for step in &self.changed {
            let at = *step as usize;
            if at < self.turned.len() {
                self.turned[at] = word_at(&self.words, *step);
            }
        }
        self.changed.clear();
    }

    /// What comes of a step with the opposite value. Fails where memory is refused.
    pub(crate) fn try_step(&mut self, scene: Scene<'_>, step: u32) -> Result<Turned, AllocError> {
        self.turn(scene, step)?;
        let after = apart(&self.turned, scene.roots);
        let others = some_apart(&self.turned, scene.outputs);
        self.turn_back();
        Ok(Turned {
            mended: self.differing & !after,
            broken: self.allowed & !self.some & (after | others),
            whole: self.differing & !others,
        })
    }

    /// Which of these outputs differ, each in the bit of its number, and wouldn't with the opposite
    /// value of a step. Fails where memory is refused.
    pub(crate) fn mended_each(
        &mut self,
        scene: Scene<'_>,
        step: u32,
        each: &[[u32; 2]],
    ) -> Result<u64, AllocError> {
        self.turn(scene, step)?;
        let mut mended = 0u64;
        for (k, roots) in each.iter().enumerate() {
            let differs = apart(&self.words, *roots) & !apart(&self.turned, *roots);
            mended |= differs & (1 << (k % 64));
        }
        self.turn_back();
        Ok(mended)
    }
}

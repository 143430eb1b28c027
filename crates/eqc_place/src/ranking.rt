//! Which signals are told of first.
ghost use Rattle.std.specs.Prelude.{◌<◌};

use crate::turning::{Turned, Turning};
use crate::words::word_at;
use eqc_build::Steps;
use std::alloc::AllocError;

/// How many places of a difference are told at most in each netlist.
pub(crate) const MOST: usize = 5;

/// How many of each are looked at in all rounds.
pub(crate) const MOST_LOOKED_AT: usize = 60;

/// So many assignments that want another value of a cover are compared with those that want the
/// same.
const COMPARED: u32 = 100;

/// A signal at which a difference may begin.
#[derive(Clone, Copy)]
pub(crate) struct Suspect {
    pub(crate) step: u32,
    /// In so many assignments its opposite value mends the output, and in so many of them all
    /// others too.
    pub(crate) mended: u32,
    pub(crate) whole: u32,
    /// In so many of them another assignment that gives its columns the same values wants the value
    /// that it has: no other cover of these columns mends both.
    pub(crate) torn: u32,
    /// Whether it is known in the other netlist, and whether all that it uses is.
    pub(crate) is_known: bool,
    pub(crate) begins: bool,
    /// How many steps there are below it, at most, one upon another.
    pub(crate) depth: u32,
}

impl Suspect {
    /// What is compared first.
    fn score(&self) -> u32 {
        self.mended.saturating_add(self.whole)
    }

    /// Whether it is told before another one.
    fn is_before(&self, other: &Suspect) -> bool {
        if self.score() != other.score() {
            return self.score() > other.score();
        }
        if self.torn != other.torn {
            return self.torn < other.torn;
        }
        if self.is_known != other.is_known {
            return other.is_known;
        }
        if self.begins != other.begins {
            return self.begins;
        }
        self.depth < other.depth
    }
}

/// Puts a signal among at most so many others in their order. Fails where memory is refused.
pub(crate) fn rank(
    ranked: &mut Vec<Suspect>,
    suspect: Suspect,
    most: usize,
) -> Result<(), AllocError> {
    let mut held = suspect;
    for k in 0..ranked.len() {
        if held.is_before(&ranked[k]) {
            let other = ranked[k];
            ranked[k] = held;
            held = other;
        }
    }
    if ranked.len() < most {
        ranked.push(held)?;
    }
    Ok(())
}

/// Whether some assignment that wants the value that a step has gives its columns the values that
/// the bit of a round gives them.
fn is_torn(
    steps: &Steps<'_>,
    rounds: &[Turning],
    turned: &[Turned],
    step: u32,
    at: (usize, u32),
) -> bool
    requires { at.1 < 64 }
{
    if step >= steps.len() || at.0 >= rounds.len() {
        return false;
    }
    let uses = steps.uses(step);
    for (other, turned) in rounds.iter().zip(turned) {
        let mut same = turned.broken;
        for c in 0..uses.len() {
            let column = uses.get(c);
            let is_one = (word_at(&rounds[at.0].words, column) >> at.1) & 1 != 0;
            let word = word_at(&other.words, column);
            same &= if is_one { word } else { !word };
        }
        if same != 0 {
            return true;
        }
    }
    false
}

/// In how many of the first assignments that want another value of a step one wants the same for
/// the same values of its columns.
pub(crate) fn torn_in(steps: &Steps<'_>, rounds: &[Turning], turned: &[Turned], step: u32) -> u32 {
    let mut compared = 0u32;
    let mut torn = 0u32;
    for k in 0..turned.len() {
        for bit in 0..64u32 {
            if (turned[k].mended >> bit) & 1 == 0 || compared >= COMPARED {
                continue;
            }
            compared = compared.saturating_add(1);
            if is_torn(steps, rounds, turned, step, (k, bit)) {
                torn = torn.saturating_add(1);
            }
        }
    }
    torn
}

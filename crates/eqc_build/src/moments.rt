//! The last moments at which steps are used, noted for all steps or only for those that an output
//! needs.
ghost use Rattle.std.specs.Prelude.{◌≡◌, ◌<◌, length, slice_index};
ghost use Rattle.eqc_build.specs.Listed.{listed, moment_in, moments_in};

use indexmap::IndexMap;
use std::marker::Model;

/// The last moment at which each step of a pair is used, 0 where no output needs it. Contracts see
/// a list with a place for each step. Members that share the outputs of a pair share it.
#[derive(Drop)]
pub(crate) struct Moments {
    noted: Noted,
}

/// How they are kept.
#[derive(Drop)]
pub(crate) enum Noted {
    /// A place for each step.
    Each(Vec<u64>),
    /// Those that are used, of so many steps.
    Few(IndexMap<u32, u64>, usize),
}

impl Model for Moments {
    ghost use Rattle.std.specs.Prelude.{ℕ, List};
    ghost use Rattle.eqc_build.specs.Listed.{moments_in};

    ghost Value = { List ℕ };

    ghost view = { λ m. moments_in m.noted };
}

/// The moment that a map has for a step, 0 where it has none.
pub(crate) fn moment_in(last: &IndexMap<u32, u64>, s: u32) -> u64
    ensures { result ≡ moment_in last.now s }
{
    last.get(&s).copied().unwrap_or(0)
}

/// The moment that is noted for a step.
fn noted_at(noted: &Noted, s: u32) -> u64
    requires { s < length (moments_in noted.now) }
    ensures { result ≡ slice_index (moments_in noted.now) s }
{
    match noted {
        Noted::Each(last) => last[s as usize],
        Noted::Few(last, _) => moment_in(last, s),
    }
}

impl Moments {
    /// A moment for each step.
    pub(crate) fn of_each(last: Vec<u64>) -> Moments
        ensures { result ≡ last.items }
    {
        Moments {
            noted: Noted::Each(last),
        }
    }

    /// Moments of some of so many steps.
    pub(crate) fn of_few(last: IndexMap<u32, u64>, count: usize) -> Moments
        ensures { result ≡ listed count (moment_in last) }
    {
        Moments {
            noted: Noted::Few(last, count),
        }
    }

    /// The last moment at which a step is used.
    pub(crate) fn at(&self, s: u32) -> u64
        requires { s < length self.now }
        ensures { result ≡ slice_index self.now s }
    {
        noted_at(&self.noted, s)
    }
}

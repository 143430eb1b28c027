//! Lists of flat signals, kept so that the instances of a model share the columns of its covers.
ghost use Rattle.std.specs.Prelude.{◌≡◌, ℕ, ◌+◌, ◌<◌, length, map, slice_index_or};

use std::marker::Model;

/// A list of signals of a flat netlist, in order and with repeats. It is kept as a first signal and
/// the distance of each from it, so that the columns of a cover take no room of their own in each
/// instance of its model.
#[derive(Drop)]
pub struct Signals<'a> {
    first: u32,
    distances: &'a [u32],
}

impl<'a> Model for Signals<'a> {
    ghost use Rattle.std.specs.Prelude.{ℕ, ◌+◌, ◌<◌, List, length, map, slice_index_or};

    ghost Value = { List ℕ };

    ghost view = { λ a. map (λ d. a.first + d) a.distances.now };

    ghost invariant = { λ a. (k : ℕ) → k < length (map (λ d. a.first + d) a.distances.now) → slice_index_or (map (λ d. a.first + d) a.distances.now) k 0 < 4294967296 };
}

impl<'a> Signals<'a> {
    /// The signals at these distances from a first one.
    pub(crate) fn behind(first: u32, distances: &'a [u32]) -> Signals<'a>
        requires { (k : ℕ) → k < length (map (λ d. first + d) distances.now) → slice_index_or (map (λ d. first + d) distances.now) k 0 < 4294967296 }
        ensures { result ≡ map (λ d. first + d) distances.now }
    {
        Signals { first, distances }
    }

    /// These signals.
    pub fn of(signals: &'a [u32]) -> Signals<'a>
        ensures { result ≡ signals.now }
    {
        Signals::behind(0, signals)
    }

    /// Their number.
    pub fn len(&self) -> usize
        ensures { result ≡ length self.now }
    {
        self.distances.len()
    }

    /// The signal at position `k`, which is below their number.
    pub fn get(&self, k: usize) -> u32
        requires { k < length self.now }
        ensures { result ≡ slice_index_or self.now k 0 }
    {
        self.first + self.distances[k]
    }
}

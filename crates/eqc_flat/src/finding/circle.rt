//! Circles of signals, each of which depends on the next one, as they are told of a refused
//! hierarchy.
ghost use Rattle.std.specs.Prelude.{◌≡◌};

use crate::finding::hierarchical_name::HierarchicalName;
use std::marker::Model;

/// Signals of which each depends on the next one, and the last on the first.
#[derive(Drop)]
pub struct Circle<'a> {
    signals: Vec<HierarchicalName<'a>>,
    count: usize,
}

impl<'a> Model for Circle<'a> {
    ghost use Rattle.std.specs.Prelude.{ℕ, List};
    ghost use Rattle.eqc_flat.specs.declared.finding.hierarchical_name.Step.{Step};

    ghost Value = { List (List Step × List ℕ) × ℕ };

    ghost view = { λ a. (a.signals.items, a.count) };
}

impl<'a> Circle<'a> {
    /// A circle of so many signals, the first of which are these.
    pub(crate) fn new(signals: Vec<HierarchicalName<'a>>, count: usize) -> Circle<'a>
        ensures { result ≡ (signals.entry.items, count) }
    {
        Circle { signals, count }
    }

    /// The first of its signals, at most twenty, each of which depends on the next one.
    pub fn signals(&self) -> &[HierarchicalName<'a>]
        ensures { result.now ≡ self.now.0 }
    {
        self.signals.as_slice()
    }

    /// The number of its signals.
    pub fn count(&self) -> usize
        ensures { result ≡ self.now.1 }
    {
        self.count
    }
}

//! Names of flat signals as a reader of the text finds them: the instances down to the signal's
//! own, and its name there.
ghost use Rattle.std.specs.Prelude.{◌≡◌};

use std::marker::Model;

/// An instance on the way down a hierarchy: its position among the instances of the model around
/// it, counted from 0, and the number of its own model in the library.
#[derive(Clone, Copy, Debug, PartialEq, Eq)]
pub struct Step {
    pub position: usize,
    pub model: usize,
}

/// How a flat signal is found in the text: the instance that it stands in, and its name in the
/// model of that instance.
#[derive(Drop)]
pub struct HierarchicalName<'a> {
    steps: Vec<Step>,
    name: &'a [u8],
}

impl<'a> Model for HierarchicalName<'a> {
    ghost use Rattle.std.specs.Prelude.{ℕ, List};
    ghost use Rattle.eqc_flat.specs.declared.finding.hierarchical_name.Step.{Step};

    ghost Value = { List Step × List ℕ };

    ghost view = { λ a. (a.steps.items, a.name.now) };
}

impl<'a> HierarchicalName<'a> {
    /// The name in an instance that is told by the steps from it up to the main model.
    pub(crate) fn new(steps: Vec<Step>, name: &'a [u8]) -> HierarchicalName<'a>
        ensures { result ≡ (steps.items, name.now) }
    {
        HierarchicalName { steps, name }
    }

    /// The instances from the signal's own up to the one in the main model, the innermost first.
    /// There are none for a signal of the main model.
    pub fn steps(&self) -> &[Step]
        ensures { result.now ≡ self.now.0 }
    {
        self.steps.as_slice()
    }

    /// The signal's name in the innermost model.
    pub fn name(&self) -> &'a [u8]
        ensures { result.now ≡ self.now.1 }
    {
        self.name
    }
}

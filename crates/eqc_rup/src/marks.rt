//! The memory of the check.
use crate::falsified::Falsified;
use std::alloc::Global;
use std::marker::Model;

/// A mark for each literal, in which the check notes what it takes to be false. Between its calls
/// nothing is marked.
#[derive(Drop)]
pub struct Marks {
    pub(crate) falsified: Falsified,
}

impl Model for Marks {
    ghost use Rattle.std.specs.Prelude.{◌≡◌, [], ⊤};

    ghost Value = { ⊤ };

    ghost view = { λ m. tt };

    ghost invariant = { λ m. m.falsified ≡ [] };
}

impl Marks {
    /// No marks. They grow with the graph for which they are used.
    pub fn new(alloc: Global) -> Marks {
        Marks {
            falsified: Falsified::new(alloc),
        }
    }
}

//! Why an operation gave up, and the number that a report shows for it.

use std::alloc::{AllocError, AllocFailed};
use thiserror::Error;

/// Why an operation gave up. What its object holds is then as before.
#[derive(Clone, Copy, Debug, PartialEq, Eq, Error)]
pub enum Stop {
    /// All slots for nodes are taken.
    #[error("the store of diagrams is full")]
    NodeLimit,
    /// The allocator refused.
    #[error("the memory is exhausted")]
    Memory,
    /// A count of references has reached its limit.
    #[error("a diagram has as many references as can be counted")]
    References,
    /// A thread could not be started.
    #[error("a thread could not be started")]
    Threads,
}

impl Stop {
    ghost use Rattle.std.specs.Prelude.{◌≡◌};
    ghost use Rattle.eqc_tree.specs.Stopping.{code_of};

    /// The number that a report shows: 71, 72, 73 or 74 in the order of the variants.
    pub fn code(self) -> u8
        ensures { result ≡ code_of self }
    {
        match self {
            Stop::NodeLimit => 71,
            Stop::Memory => 72,
            Stop::References => 73,
            Stop::Threads => 74,
        }
    }
}

impl From<AllocError> for Stop {
    ghost use Rattle.std.specs.Prelude.{◌≡◌};
    ghost use Rattle.eqc_tree.specs.declared.stopping.Stop.TheVariants.{Memory};

    ghost from_gives = { λ _ stop. stop ≡ Memory };

    fn from(_refused: AllocError) -> Stop {
        Stop::Memory
    }
}

impl<T: Drop> From<AllocFailed<T>> for Stop {
    ghost use Rattle.std.specs.Prelude.{◌≡◌};
    ghost use Rattle.eqc_tree.specs.declared.stopping.Stop.TheVariants.{Memory};

    ghost from_gives = { λ _ stop. stop ≡ Memory };

    fn from(_refused: AllocFailed<T>) -> Stop {
        Stop::Memory
    }
}

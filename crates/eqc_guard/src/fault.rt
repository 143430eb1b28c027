//! Why no worker was split off.

use thiserror::Error;

/// Why no worker was split off. The worker that was asked is then as before.
#[derive(Clone, Copy, Debug, PartialEq, Eq, Error)]
pub enum SplitFault {
    /// The allocator refused.
    #[error("the memory is exhausted")]
    Memory,
    /// All numbers of workers were given, or another than worker 0 was asked.
    #[error("there is no number for another worker")]
    NoneLeft,
}

impl SplitFault {
    ghost use Rattle.std.specs.Prelude.{◌≡◌};
    ghost use Rattle.eqc_guard.specs.Splitting.{code_of};

    /// The number that a report shows: 72 or 75 in the order of the variants.
    pub fn code(self) -> u8
        ensures { result ≡ code_of self }
    {
        match self {
            SplitFault::Memory => 72,
            SplitFault::NoneLeft => 75,
        }
    }
}

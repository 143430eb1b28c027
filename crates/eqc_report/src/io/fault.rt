//! Why a run ends without its report: memory was refused, or a read or a write failed.
ghost use Rattle.std.specs.Prelude.{◌≡◌};
ghost use Rattle.eqc_report.specs.Ends.{fault_code};

use std::alloc::AllocError;
use std::io;
use thiserror::Error;

/// Why a run ended without its report.
#[derive(Clone, Copy, Debug, PartialEq, Eq, Error)]
pub enum RunFault {
    #[error("memory was refused")]
    Memory,
    #[error("a file could not be opened, or a read failed")]
    Read,
    #[error("a write failed")]
    Write,
}

impl RunFault {
    /// The number that is shown: 72, 91 or 92 in the order of the variants.
    pub fn code(self) -> u8
        ensures { result ≡ fault_code self }
    {
        match self {
            RunFault::Memory => 72,
            RunFault::Read => 91,
            RunFault::Write => 92,
        }
    }
}

ghost use Rattle.eqc_report.specs.declared.io.fault.RunFault.TheVariants.{Memory};

impl From<AllocError> for RunFault {
    ghost from_gives = { λ _ fault. fault ≡ Memory };

    fn from(_error: AllocError) -> RunFault {
        RunFault::Memory
    }
}

/// Why a text was not read whole, or not written whole.
#[derive(Clone, Copy)]
pub enum StreamFault {
    /// Memory was refused.
    Refused,
    /// A read, a write or a flush failed, for this reason.
    Failed(io::Error),
}

ghost use Rattle.eqc_report.specs.declared.io.fault.StreamFault.TheVariants.{Refused, Failed};

impl From<AllocError> for StreamFault {
    ghost from_gives = { λ _ fault. fault ≡ Refused };

    fn from(_error: AllocError) -> StreamFault {
        StreamFault::Refused
    }
}

impl From<io::Error> for StreamFault {
    ghost from_gives = { λ error fault. fault ≡ Failed error };

    fn from(error: io::Error) -> StreamFault {
        StreamFault::Failed(error)
    }
}

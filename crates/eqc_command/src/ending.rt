//! How the program ends: its status, and what it tells on standard error.
ghost use Rattle.std.specs.Prelude.{◌≡◌};
ghost use Rattle.eqc_command.specs.Ends.{fault_text, status_code, IsTold};

use clap::Error;
use eqc_report::{RunFault, Status, write_text};
use std::alloc::Global;
use std::io::Write;

/// An end of the program.
#[derive(Drop)]
pub enum End {
    /// The report of a run was written.
    Reported(Status),
    /// The help was written.
    Helped,
    /// A file could not be opened, or a read or a write failed.
    Failed(RunFault),
    /// The words name no request that the program knows, or memory was refused while they were
    /// read.
    BadWords(Error),
}

impl End {
    /// The exit status: 0 to 3 and 6 for the kinds of report, 0 for help, 4 for a fault, 5 for a
    /// bad command line.
    pub fn status(&self) -> u8
        ensures { result ≡ status_code self.now }
    {
        match self {
            End::Reported(Status::Equivalent) => 0,
            End::Reported(Status::Differs) => 1,
            End::Reported(Status::Refused) => 2,
            End::Reported(Status::Stopped) => 3,
            End::Reported(Status::Vacuous) => 6,
            End::Helped => 0,
            End::Failed(_) => 4,
            End::BadWords(_) => 5,
        }
    }
}

/// The line of a fault.
fn fault_line(fault: RunFault) -> &'static str
    ensures { result.now ≡ fault_text fault }
{
    match fault {
        RunFault::Memory => "fault 72\n",
        RunFault::Read => "fault 91\n",
        RunFault::Write => "fault 92\n",
    }
}

/// Tells a fault, or what is wrong with the words. A write that fails here changes nothing else.
pub fn tell<E: Write>(alloc: Global, end: &End, err: &mut E)
    ensures { IsTold end.now (E.contents err.old) (E.contents err.new) }
{
    match end {
        End::Reported(_) | End::Helped => {}
        End::Failed(fault) => {
            let _ = write_text(err, fault_line(*fault).as_bytes());
        }
        End::BadWords(error) => {
            if let Ok(text) = format!(in alloc; "{error}") {
                let _ = write_text(err, text.as_bytes());
            }
        }
    }
}

//! Reports, which are the answers of runs, and their kinds, which a program's status shows.
ghost use Rattle.std.specs.Prelude.{◌≡◌};
ghost use Rattle.eqc_report.specs.ReportView.{report_of, status_of};

pub(crate) mod text;

use eqc_netlist::Name;
use eqc_pair::Refused;
use eqc_tree::Stop;

/// An output that differs, the values of the first netlist's inputs in order that show it, and its
/// value under them in the first netlist: that in the second is the other one.
#[derive(Drop)]
pub struct Difference {
    pub name: Name,
    pub values: Vec<bool>,
    pub first: bool,
}

/// Outputs that differ, with the names of the first netlist's inputs in order, for which each has
/// its values.
#[derive(Drop)]
pub struct Differences {
    pub inputs: Vec<Name>,
    pub each: Vec<Difference>,
}

/// The answer of a run.
#[derive(Drop)]
pub enum Report {
    Equivalent,
    /// The first output that differs or, where each is wanted, all of them in the first netlist's
    /// order, each with the least allowed values under which it does.
    Differs(Differences),
    /// No assignment of the inputs is allowed, so nothing was compared.
    Vacuous,
    Refused(Refused),
    Stopped(Stop),
}

/// The kind of a report, which a program's status shows.
#[derive(Clone, Copy, Debug, PartialEq, Eq)]
pub enum Status {
    Equivalent,
    Differs,
    Vacuous,
    Refused,
    Stopped,
}

impl Report {
    /// The kind of this report.
    pub fn status(&self) -> Status
        ensures { result ≡ status_of (report_of self.now) }
    {
        match self {
            Report::Equivalent => Status::Equivalent,
            Report::Differs(_) => Status::Differs,
            Report::Vacuous => Status::Vacuous,
            Report::Refused(_) => Status::Refused,
            Report::Stopped(_) => Status::Stopped,
        }
    }
}

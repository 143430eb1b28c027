//! What is told of a run: its report, with warnings.
ghost use Rattle.std.specs.Prelude.{◌≡◌, IfOk, IfErr};

use crate::warning::Warnings;
use eqc_report::Report;
use eqc_tree::Stop;

/// A report, and the warnings on the models that were compared for it.
#[derive(Drop)]
pub struct Told {
    pub report: Report,
    pub warnings: Warnings,
}

impl Told {
    /// A report that compares nothing, without warnings.
    pub fn alone(report: Report) -> Told
        ensures { result.report ≡ report }
    {
        Told {
            report,
            warnings: Warnings::none(),
        }
    }

    /// What is told, or the stop that came in its place.
    pub fn of(answer: Result<Told, Stop>) -> Told
        ensures told { IfOk answer (λ told. result ≡ told) }
        ensures stop { IfErr answer (λ stop. result.report ≡ Report.Stopped stop) }
    {
        match answer {
            Ok(told) => told,
            Err(stop) => Told::alone(Report::Stopped(stop)),
        }
    }
}

//! How what a comparison found becomes a report.
ghost use Rattle.std.specs.Prelude.{◌≡◌, ◌<◌, length, map, All, IfOk, IfErr, slice_index_or, not, []};
ghost use Rattle.std.specs.List.{zip};
ghost use Rattle.eqc_compare.specs.Verdict.{first_value};
ghost use Rattle.eqc_report.specs.ReportView.{difference_of, differences_of, report_of};
ghost use Rattle.eqc_report.specs.PairReport.{pair_report, shown_of, IsFoundOf};
ghost use Rattle.eqc_compare.specs.Comparing.{netlist_of, IsOutcome};

use crate::evaluating::output_value;
use crate::report::{Difference, Differences, Report};
use eqc_compare::{Difference as Found, Outcome};
use eqc_netlist::{Flat, Name};
use eqc_pair::Pair;
use eqc_tree::Stop;
use std::alloc::{AllocError, Global};

/// Copies of these names.
pub(crate) fn copied(alloc: Global, names: &[Name]) -> Result<Vec<Name>, AllocError>
    ensures { IfOk result (λ copies. copies.items ≡ names.now) }
{
    let mut copies = Vec::with_capacity(alloc, names.len())?;
    for name in names {
        copies.push(Name::new(alloc, name.as_bytes())?)?;
    }
    Ok(copies)
}

/// An output that differs under these values of the first netlist's inputs.
pub(crate) fn shown(
    alloc: Global,
    first: &Flat<'_>,
    output: usize,
    values: Vec<bool>,
) -> Result<Difference, AllocError>
    requires within { output < length first.now.outputs }
    requires size { length values.items ≡ length first.now.inputs }
    ensures name { IfOk result (λ d. d.name ≡ slice_index_or first.now.outputs output []) }
    ensures values { IfOk result (λ d. d.values ≡ values) }
    ensures report { IfOk result (λ d. difference_of first.now.inputs d ≡ record {
      output = slice_index_or first.now.outputs output [];
      inputs = zip first.now.inputs values.items;
      first = first_value (netlist_of first.now) (slice_index_or first.now.outputs output []) values.items;
      second = not (first_value (netlist_of first.now) (slice_index_or first.now.outputs output []) values.items);
    }) }
{
    let value = output_value(alloc, first, output, &values)?;
    let name = Name::new(alloc, first.outputs()[output].as_bytes())?;
    Ok(Difference {
        name,
        values,
        first: value,
    })
}

/// The outputs of a pair that were found to differ, with their names.
fn all_shown(alloc: Global, pair: &Pair<'_>, found: Vec<Found>) -> Result<Differences, AllocError>
    requires each { All (IsFoundOf pair.now) found.items }
    ensures { IfOk result (λ all. differences_of all ≡ map (shown_of pair.now) found.items) }
{
    let inputs = copied(alloc, pair.first().inputs())?;
    let mut each = Vec::with_capacity(alloc, found.len())?;
    for Found { output, values } in found {
        each.push(shown(alloc, pair.first(), output, values)?)?;
    }
    Ok(Differences { inputs, each })
}

/// The report on what the comparison of a pair found: each output that differs with the names and
/// the values of the first netlist's inputs that show it, or that none does or no assignment is
/// allowed. The error is `Memory`, where memory is refused.
pub fn found_report(
    alloc: Global,
    pair: &Pair<'_>,
    every: bool,
    outcome: Outcome,
) -> Result<Report, Stop>
    requires { IsOutcome pair.now every outcome }
    ensures report { IfOk result (λ report. report_of report ≡ pair_report every pair.now) }
    ensures only { IfErr result (λ s. s ≡ Stop.Memory) }
{
    match outcome {
        Outcome::Vacuous => Ok(Report::Vacuous),
        Outcome::Compared(found) => {
            if found.is_empty() {
                return Ok(Report::Equivalent);
            }
            match all_shown(alloc, pair, found) {
                Ok(differences) => Ok(Report::Differs(differences)),
                Err(_) => Err(Stop::Memory),
            }
        }
    }
}

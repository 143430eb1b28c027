//! Which report a case gets: the refusal by the first check that fails, or the comparison of two
//! models. It is one course, in which each stage calls the next one and lends it what it made,
//! since a proof of all of them at once takes many times longer:
//!
//! | | Stage | Its checks | In |
//! |---|---|---|---|
//! | 1 | read the first text, and choose its model | `read` | `decide` |
//! | 2 | choose the second model in the same text, or read that of another | `choose`, `read` | `choose_second`, `read_second` |
//! | 3 | flatten the hierarchies | `flatten_two`, `flatten_within` | `flatten_both`, `flatten_first` and `flatten_second` |
//! | 4 | match the flat netlists: the pair, the names of outputs, the order text | `pair_choosing` | `match_flats` |
//! | 5 | take the assumption: its text and model, its hierarchy, what is asked of it | `read`, `flatten_within`, `Pair::assuming` | `read_assumption`, `flatten_assumption`, `match_assumption` |
//! | 6 | decide | `known_by_structure`, `decide_pair` | `compare` |
//! | 7 | tell: the report with its warnings, or the refusal | `warnings_in_one`, `warnings_in_two` | `with_warnings`, `told_refusal` |
ghost use Rattle.std.specs.Prelude.{◌≡◌, ◌≢◌, ◌⊎◌, ◌<◌, length, None, Some, IfOk, IfErr, Ok, Err, MatchResult};
ghost use Rattle.std.specs.Option.{option_copied};
ghost use Rattle.eqc_blif.specs.Reading.{outcome};
ghost use Rattle.eqc_hierarchy.specs.Codes.{flat_code};
ghost use Rattle.eqc_flat.specs.Flattened.{IsFlatOf};
ghost use Rattle.eqc_case.specs.Refusing.{IsRefused, flat_answer, flat_assumed};
ghost use Rattle.eqc_compare.specs.Comparing.{netlist_of};
ghost use Rattle.eqc_report.specs.PairReport.{pair_report};
ghost use Rattle.eqc_report.specs.ReportView.{report_of};
ghost use Rattle.eqc_report.specs.Options.{options_code};
ghost use Rattle.eqc_case.specs.Answer.{MainOf, main_of, first_found, assumption_found, assumption_answer, models_answer, texts_answer, MayStop};
ghost use Rattle.eqc_case.specs.Sources.{given_of, IsSecond};
ghost use Rattle.eqc_case.specs.Telling.{IsToldRefusal, IsToldWith, Tells};
ghost use Rattle.eqc_case.specs.Left.{IsPairOfGiven, IsPairOfFound, IsPairOfFlats, IsUnder, IsToldOf, IsToldOfPair};

use eqc_blif::{Library, Refusal};
use eqc_case::{
    Case, Main, Told, Warnings, bytes_of, choose, read_main, warnings_in_one, warnings_in_two,
};
use eqc_compare::Progress;
use eqc_engine::{Comparison, decide_pair, known_by_structure};
use eqc_flat::{Fault, FaultOfTwo, Flat, flatten_two, flatten_within};
use eqc_pair::{Pair, Refused, Side, pair_choosing, recall_laws};
use eqc_report::{Report, Undecided};
use eqc_tree::Stop;
use std::alloc::{AllocError, Global};
use std::sync::Wait;
use std::thread::Threads;

/// A case that is decided on.
#[derive(Drop)]
struct Decision<'x, R, P> {
    rt: &'x R,
    alloc: Global,
    case: &'x Case<'x>,
    watch: &'x P,
}

/// The report on what was read, with the warnings where it is a comparison, or the stop in its
/// place. Where a comparison is given up, the outputs of its pair that are left are taken; before
/// any comparison a stop is for want of memory, and nothing is. The watch is told how far the
/// comparison is.
pub(crate) fn decide<R: Threads + Wait + Sync, P: Progress<R> + Sync>(
    rt: &R,
    alloc: Global,
    case: &Case<'_>,
    left: &mut Undecided,
    watch: &P,
) -> Result<Told, Stop>
    requires options { options_code case.now.options ≡ None }
    ensures tells { Tells (given_of case.now) result }
    ensures left { IsToldOf (IsPairOfGiven (given_of case.now)) result left.old left.new }
{
    let decision = Decision {
        rt,
        alloc,
        case,
        watch,
    };
    let first = match decision.read(&case.first, case.names.first) {
        Ok(first) => first,
        Err(refusal) => return told_refusal(Side::First, refusal),
    };
    match &case.second {
        None => decision.choose_second(&first, left),
        Some(second) => decision.read_second(&first, second, left),
    }
}

impl<'x, R: Threads + Wait + Sync, P: Progress<R> + Sync> Decision<'x, R, P> {
    /// The report behind the choice of the second model in a single text.
    fn choose_second(&self, first: &Main, left: &mut Undecided) -> Result<Told, Stop>
        requires options { options_code self.now.case.now.options ≡ None }
        requires m { first.now.model < length first.now.library }
        requires first { first_found self.now.case.now.options.bytes (given_of self.now.case.now).texts ≡ Ok (first.now.library, first.now.model) }
        requires read { outcome self.now.case.now.options.bytes self.now.case.now.first.items ≡ Ok first.now.library }
        requires one { self.now.case.now.second ≡ None }
        ensures tells { Tells (given_of self.now.case.now) result }
        ensures left { IsToldOf (IsPairOfGiven (given_of self.now.case.now)) result left.old left.new }
    {
        let case = self.case;
        let Main { library, model } = first;
        match choose(self.alloc, library, case.names.second, 1) {
            Ok(other) => with_warnings(
                self.flatten_both(library, *model, other, left),
                warnings_in_one(self.alloc, library, *model, other),
            ),
            Err(refusal) => told_refusal(Side::Second, refusal),
        }
    }

    /// The report behind the reading of the second text and the choice of its model.
    fn read_second(&self, first: &Main, second: &[u8], left: &mut Undecided) -> Result<Told, Stop>
        requires options { options_code self.now.case.now.options ≡ None }
        requires m { first.now.model < length first.now.library }
        requires first { first_found self.now.case.now.options.bytes (given_of self.now.case.now).texts ≡ Ok (first.now.library, first.now.model) }
        requires two { IsSecond self.now.case.now second.now }
        ensures tells { Tells (given_of self.now.case.now) result }
        ensures left { IsToldOf (IsPairOfGiven (given_of self.now.case.now)) result left.old left.new }
    {
        let case = self.case;
        match self.read(second, case.names.second) {
            Ok(second) => {
                let (f, g) = (
                    (&first.library, first.model),
                    (&second.library, second.model),
                );
                with_warnings(
                    self.flatten_first(f, g, left),
                    warnings_in_two(self.alloc, f, g),
                )
            }
            Err(refusal) => told_refusal(Side::Second, refusal),
        }
    }

    /// The report behind the flattening of two models of one text.
    fn flatten_both(
        &self,
        library: &Library,
        m: usize,
        n: usize,
        left: &mut Undecided,
    ) -> Result<Report, Stop>
        requires options { options_code self.now.case.now.options ≡ None }
        requires m { m < length library.now }
        requires n { n < length library.now }
        ensures report { IfOk result (λ report. report_of report ≡ models_answer (library.now, m) (library.now, n) (given_of self.now.case.now)) }
        ensures stop { IfErr result (MayStop (models_answer (library.now, m) (library.now, n) (given_of self.now.case.now))) }
        ensures left { IsToldOf (IsPairOfFound (given_of self.now.case.now) (Ok (library.now, m)) (Ok (library.now, n))) result left.old left.new }
    {
        match flatten_two(self.alloc, library, m, n, self.limit()) {
            Ok((f, g)) => {
                recall_laws(&f);
                recall_laws(&g);
                self.match_flats(&f, &g, left)
            }
            Err(FaultOfTwo::First(Fault { code })) => {
                refused(Side::First, Refusal { line: 0, code })
            }
            Err(FaultOfTwo::Second(Fault { code })) => {
                refused(Side::Second, Refusal { line: 0, code })
            }
        }
    }

    /// The report behind the flattening of the first model of two texts.
    fn flatten_first(
        &self,
        first: (&Library, usize),
        second: (&Library, usize),
        left: &mut Undecided,
    ) -> Result<Report, Stop>
        requires options { options_code self.now.case.now.options ≡ None }
        requires m { first.1 < length first.0.now }
        requires n { second.1 < length second.0.now }
        ensures report { IfOk result (λ report. report_of report ≡ models_answer (first.entry.0.now, first.entry.1) (second.entry.0.now, second.entry.1) (given_of self.now.case.now)) }
        ensures stop { IfErr result (MayStop (models_answer (first.entry.0.now, first.entry.1) (second.entry.0.now, second.entry.1) (given_of self.now.case.now))) }
        ensures left { IsToldOf (IsPairOfFound (given_of self.now.case.now) (Ok (first.entry.0.now, first.entry.1)) (Ok (second.entry.0.now, second.entry.1))) result left.old left.new }
    {
        match flatten_within(self.alloc, first.0, first.1, self.limit()) {
            Ok(f) => self.flatten_second(&f, second, left),
            Err(Fault { code }) => refused(Side::First, Refusal { line: 0, code }),
        }
    }

    /// The report behind the flattening of the second model, whatever model the first flat netlist
    /// is of. It stands apart for its proof's sake: with two flat netlists in one function, each
    /// with an exit where there is none, that takes many times longer.
    fn flatten_second(
        &self,
        first: &Flat<'_>,
        second: (&Library, usize),
        left: &mut Undecided,
    ) -> Result<Report, Stop>
        requires options { options_code self.now.case.now.options ≡ None }
        requires n { second.1 < length second.0.now }
        ensures report { (m : MainOf) → flat_code m.0 m.1 self.now.case.now.options.inputs ≡ None → IsFlatOf m.0 m.1 first.now → IfOk result (λ report. report_of report ≡ models_answer m (second.entry.0.now, second.entry.1) (given_of self.now.case.now)) }
        ensures stop { (m : MainOf) → flat_code m.0 m.1 self.now.case.now.options.inputs ≡ None → IsFlatOf m.0 m.1 first.now → IfErr result (MayStop (models_answer m (second.entry.0.now, second.entry.1) (given_of self.now.case.now))) }
        ensures left { (m : MainOf) → IsFlatOf m.0 m.1 first.now → IsToldOf (IsPairOfFound (given_of self.now.case.now) (Ok m) (Ok (second.entry.0.now, second.entry.1))) result left.old left.new }
    {
        recall_laws(first);
        match flatten_within(self.alloc, second.0, second.1, self.limit()) {
            Ok(g) => {
                recall_laws(&g);
                self.match_flats(first, &g, left)
            }
            Err(Fault { code }) => refused(Side::Second, Refusal { line: 0, code }),
        }
    }

    /// The report behind the checks of the pair, of the names of outputs and of the order text.
    fn match_flats(
        &self,
        first: &Flat<'_>,
        second: &Flat<'_>,
        left: &mut Undecided,
    ) -> Result<Report, Stop>
        requires options { options_code self.now.case.now.options ≡ None }
        ensures report { IfOk result (λ report. report_of report ≡ flat_answer first.now second.now (given_of self.now.case.now)) }
        ensures stop { IfErr result (MayStop (flat_answer first.now second.now (given_of self.now.case.now))) }
        ensures left { IsToldOf (IsPairOfFlats (given_of self.now.case.now) first.now second.now) result left.old left.new }
    {
        let case = self.case;
        let order = bytes_of(&case.order);
        match pair_choosing(self.alloc, first, second, case.outputs.names, order) {
            Ok(pair) => match &case.assume {
                None => self.compare(&pair, left),
                Some(text) => self.read_assumption(pair, text, left),
            },
            Err(Refused { side, line, code }) => refused(side, Refusal { line, code }),
        }
    }

    /// The report behind the reading of the assumption and the choice of its first model.
    fn read_assumption(
        &self,
        pair: Pair<'_>,
        text: &[u8],
        left: &mut Undecided,
    ) -> Result<Report, Stop>
        requires options { options_code self.now.case.now.options ≡ None }
        requires outputs { pair.chosen ≡ self.now.case.now.outputs }
        ensures report { IfOk result (λ report. report_of report ≡ assumption_answer (given_of self.now.case.now) (netlist_of pair.entry.first) (netlist_of pair.entry.second) (assumption_found self.now.case.now.options.bytes text.now)) }
        ensures stop { IfErr result (MayStop (assumption_answer (given_of self.now.case.now) (netlist_of pair.entry.first) (netlist_of pair.entry.second) (assumption_found self.now.case.now.options.bytes text.now))) }
        ensures left { IsToldOf (IsUnder (assumption_found self.now.case.now.options.bytes text.now) pair.entry) result left.old left.new }
    {
        match self.read(text, None) {
            Ok(main) => self.flatten_assumption(pair, &main, left),
            Err(refusal) => refused(Side::Assume, refusal),
        }
    }

    /// The report behind the flattening of the assumption's model.
    fn flatten_assumption(
        &self,
        pair: Pair<'_>,
        assumption: &Main,
        left: &mut Undecided,
    ) -> Result<Report, Stop>
        requires options { options_code self.now.case.now.options ≡ None }
        requires outputs { pair.chosen ≡ self.now.case.now.outputs }
        requires there { assumption.now.model < length assumption.now.library }
        ensures report { IfOk result (λ report. report_of report ≡ assumption_answer (given_of self.now.case.now) (netlist_of pair.entry.first) (netlist_of pair.entry.second) (Ok (assumption.now.library, assumption.now.model))) }
        ensures stop { IfErr result (MayStop (assumption_answer (given_of self.now.case.now) (netlist_of pair.entry.first) (netlist_of pair.entry.second) (Ok (assumption.now.library, assumption.now.model)))) }
        ensures left { IsToldOf (IsUnder (Ok (assumption.now.library, assumption.now.model)) pair.entry) result left.old left.new }
    {
        let Main { library, model } = assumption;
        match flatten_within(self.alloc, library, *model, self.limit()) {
            Ok(assumed) => {
                recall_laws(&assumed);
                self.match_assumption(pair, &assumed, left)
            }
            Err(Fault { code }) => refused(Side::Assume, Refusal { line: 0, code }),
        }
    }

    /// The report behind what is asked of an assumption, whatever model it is of.
    fn match_assumption(
        &self,
        pair: Pair<'_>,
        assumed: &Flat<'_>,
        left: &mut Undecided,
    ) -> Result<Report, Stop>
        requires options { options_code self.now.case.now.options ≡ None }
        requires outputs { pair.chosen ≡ self.now.case.now.outputs }
        ensures report { IfOk result (λ report. report_of report ≡ flat_assumed (given_of self.now.case.now) pair.entry.first pair.entry.second assumed.now) }
        ensures stop { IfErr result (MayStop (flat_assumed (given_of self.now.case.now) pair.entry.first pair.entry.second assumed.now)) }
        ensures left { IsToldOf (λ p. p ≡ record pair.entry { assumes = Some assumed.now }) result left.old left.new }
    {
        match pair.assuming(self.alloc, assumed) {
            Ok(pair) => self.compare(&pair, left),
            Err(refusal) => {
                let Refused { side, line, code } = refusal;
                refused(side, Refusal { line, code })
            }
        }
    }

    /// The models of a text of as many bytes as the options allow, and the number of the one of a
    /// name or, without one, of the first.
    fn read(&self, text: &[u8], name: Option<&[u8]>) -> Result<Main, Refusal>
        requires { options_code self.now.case.now.options ≡ None }
        ensures read { IfOk result (λ main. outcome self.now.case.now.options.bytes text.now ≡ Ok main.library) }
        ensures there { IfOk result (λ main. main.model < length main.library) }
        ensures chosen { IfOk result (λ main. main_of (outcome self.now.case.now.options.bytes text.now) (option_copied name.entry) 0 ≡ Ok (main.library, main.model)) }
        ensures refused { IfErr result (λ refusal. (refusal ≡ record { line = 0; code = 72 }) ⊎ (main_of (outcome self.now.case.now.options.bytes text.now) (option_copied name.entry) 0 ≡ Err (refusal.line, refusal.code))) }
    {
        let limit = self.case.options.byte_limit();
        read_main(self.alloc, text, limit, name, 0)
    }

    /// How many inputs a main model may have.
    fn limit(&self) -> u16
        requires { options_code self.now.case.now.options ≡ None }
        ensures { result ≡ self.now.case.now.options.inputs }
    {
        self.case.options.input_limit()
    }

    /// The report on a pair, behind all checks. Where the comparison is given up, the outputs of
    /// the pair that are left are taken.
    fn compare(&self, pair: &Pair<'_>, left: &mut Undecided) -> Result<Report, Stop>
        requires { options_code self.now.case.now.options ≡ None }
        ensures report { IfOk result (λ report. report_of report ≡ pair_report self.now.case.now.options.every pair.now) }
        ensures left { IsToldOfPair pair.now result left.old left.new }
    {
        let asked = self.comparison(pair);
        let mut alike = known_by_structure(&asked);
        decide_pair(&asked, &mut alike, left)
    }

    /// The comparison behind all checks.
    fn comparison<'y>(&'y self, pair: &'y Pair<'_>) -> Comparison<'y, R, P>
        ensures pair { result.pair.now ≡ pair.now }
        ensures options { result.options.now ≡ self.now.case.now.options }
    {
        Comparison {
            rt: self.rt,
            alloc: self.alloc,
            pair,
            options: &self.case.options,
            watch: self.watch,
        }
    }
}

/// A refusal of a side as a report, or the stop for want of memory.
fn refused(side: Side, refusal: Refusal) -> Result<Report, Stop>
    ensures { IsRefused side refusal result }
{
    if refusal.is_memory() {
        return Err(Stop::Memory);
    }
    let Refusal { line, code } = refusal;
    Ok(Report::Refused(Refused { side, line, code }))
}

/// A refusal of a side, without warnings.
fn told_refusal(side: Side, refusal: Refusal) -> Result<Told, Stop>
    ensures { IsToldRefusal side refusal result }
{
    Ok(Told::alone(refused(side, refusal)?))
}

/// A report with its warnings, or want of memory for these.
fn with_warnings(
    report: Result<Report, Stop>,
    warnings: Result<Warnings, AllocError>,
) -> Result<Told, Stop>
    ensures { IsToldWith report warnings result }
{
    let report = report?;
    match warnings {
        Ok(warnings) => Ok(Told { report, warnings }),
        Err(_) => Err(Stop::Memory),
    }
}

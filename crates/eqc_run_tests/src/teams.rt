//! Runs in which several threads sweep, or search for outputs that differ: they are started, and
//! the report is that of one.

use crate::ends::holds_at;
use eqc_check::{Gate, NoDiagnostics, Options, Progress, Stage, Texts, run_explained};
use eqc_run_testing::{CONFLICTS, given, options, status_of};
use eqc_testing::{Feed, input_names, is_text};
use eqc_thread_testing::{Census, Lookout};
use std::alloc::{AllocError, Global};
use std::sync::Wait;
use std::thread::Threads;

/// Sums of products of two inputs, modulo 2, each of inputs of its own: by a cover for each
/// product, from the first one on in one model and from the last one on in the other. In the order
/// of the inputs a diagram has 2 to the power of the width nodes and more, so that it doesn't fit.
#[derive(Clone, Copy, Debug)]
struct Case {
    /// The stage in which threads are started.
    stage: Stage,
    outputs: u32,
    /// Of how many products each output is made.
    width: u32,
    /// Whether the last cover of each output is another one in the other model.
    differs: bool,
    conflicts: u32,
}

/// With very many conflicts all questions about a small netlist are asked at once, four by each of
/// sixteen threads; with fewer they might spend more than there is.
#[rattlefmt::skip]
static CASES: &[Case] = &[
    Case { stage: Stage::Sweeping, outputs: 64, width: 16, differs: false, conflicts: 10_000_000 },
    Case { stage: Stage::Searching, outputs: 32, width: 11, differs: true, conflicts: CONFLICTS },
];

/// So often it is tried to see the threads at once.
const TRIES: u32 = 20;

/// An output of a model.
#[derive(Clone, Copy)]
struct Output {
    number: u32,
    width: u32,
    /// Whether it is made from its last product on.
    is_back: bool,
    /// The rows of its last cover.
    last: &'static str,
}

/// A product is added to what comes before it.
const ADDED: &str = "10- 1;1-0 1;011 1;";

/// It is enough that one of both is 1.
const EITHER: &str = "1-- 1;-11 1;";

impl Output {
    /// The number of its first input.
    fn first(&self) -> u32 {
        self.number.saturating_mul(self.width).saturating_mul(2)
    }

    /// The numbers of the inputs of a product, in the order in which they are made.
    fn product(&self, place: u32) -> (u32, u32) {
        let place = if self.is_back {
            self.width.saturating_sub(place).saturating_sub(1)
        } else {
            place
        };
        let first = self.first().saturating_add(place);
        (first, first.saturating_add(self.width))
    }

    /// Whether the product is the last one that is made.
    fn is_last(&self, place: u32) -> bool {
        place.saturating_add(1) == self.width
    }

    /// Whether an input is 1 in the least difference: those of the first product and of the last
    /// one are, so that the sum of the others is 1.
    fn is_one(&self, input: u32) -> bool {
        let (first, second) = self.product(0);
        let (third, fourth) = self.product(self.width.saturating_sub(1));
        [first, second, third, fourth].contains(&input)
    }
}

/// What stands behind a product: the output behind the last one.
fn link(alloc: Global, output: Output, place: u32) -> Result<String, AllocError> {
    let number = output.number;
    if output.is_last(place) {
        return format!(in alloc; "z{number}");
    }
    format!(in alloc; "t{number}_{place}")
}

/// The covers of an output.
fn chain(alloc: Global, text: &mut String, output: Output) -> Result<(), AllocError> {
    let mut before = link(alloc, output, 0)?;
    let (a, b) = output.product(0);
    text.push_str(&format!(in alloc; ".names i{a} i{b} {before};11 1;")?)?;
    for place in 1..output.width {
        let (a, b) = output.product(place);
        let behind = link(alloc, output, place)?;
        let rows = if output.is_last(place) {
            output.last
        } else {
            ADDED
        };
        text.push_str(&format!(in alloc; ".names {before} i{a} i{b} {behind};{rows}")?)?;
        before = behind;
    }
    Ok(())
}

/// The output of this number in a model whose first output is this one.
fn output_at(first: Output, number: u32) -> Output {
    Output { number, ..first }
}

/// A model of so many outputs, whose first one is this.
fn model(
    alloc: Global,
    text: &mut String,
    name: &str,
    outputs: u32,
    first: Output,
) -> Result<(), AllocError> {
    let inputs = input_names(alloc, output_at(first, outputs).first())?;
    text.push_str(&format!(in alloc; ".model {name};.inputs{inputs};.outputs")?)?;
    for number in 0..outputs {
        text.push_str(&format!(in alloc; " z{number}")?)?;
    }
    text.push_str(";")?;
    for number in 0..outputs {
        chain(alloc, text, output_at(first, number))?;
    }
    text.push_str(".end;")
}

impl Case {
    /// The first output of the first model.
    fn forth(&self) -> Output {
        Output {
            number: 0,
            width: self.width,
            is_back: false,
            last: ADDED,
        }
    }

    /// The first output of the second one.
    fn back(&self) -> Output {
        Output {
            number: 0,
            width: self.width,
            is_back: true,
            last: if self.differs { EITHER } else { ADDED },
        }
    }
}

/// Both models.
fn models(alloc: Global, case: Case) -> Result<String, AllocError> {
    let mut text = String::new(alloc);
    model(alloc, &mut text, "f", case.outputs, case.forth())?;
    model(alloc, &mut text, "g", case.outputs, case.back())?;
    Ok(text)
}

/// The least difference of an output, of so many inputs.
fn difference(
    alloc: Global,
    report: &mut String,
    output: Output,
    inputs: u32,
) -> Result<(), AllocError> {
    let number = output.number;
    report.push_str(&format!(in alloc; "differs at z{number};")?)?;
    for k in 0..inputs {
        let value = u32::from(output.is_one(k));
        report.push_str(&format!(in alloc; "i{k}={value};")?)?;
    }
    report.push_str("first=0;second=1;")
}

/// The report on both models, with each difference.
fn report(alloc: Global, case: Case) -> Result<String, AllocError> {
    if !case.differs {
        return String::from_str(alloc, "equivalent;");
    }
    let mut report = String::new(alloc);
    let inputs = output_at(case.forth(), case.outputs).first();
    for number in 0..case.outputs {
        difference(alloc, &mut report, output_at(case.forth(), number), inputs)?;
    }
    Ok(report)
}

/// Opens a lookout in one stage of a run.
#[derive(Drop, Clone, Copy)]
struct InStage<'a> {
    stage: Stage,
    lookout: &'a Lookout,
}

impl<'a, R> Gate<R> for InStage<'a> {
    fn enter(&self, _rt: &R, _worker: u32, _output: u32) {}
}

impl<'a, R> Progress<R> for InStage<'a> {
    fn stage(&self, _rt: &R, stage: Stage) {
        if stage == self.stage {
            self.lookout.open();
        } else {
            self.lookout.close();
        }
    }

    fn step(&self, _rt: &R, _done: usize, _all: usize) {}

    fn nodes(&self, _rt: &R, _nodes: u32) {}
}

/// Whether a run on a text writes this report, and has its status, where this watches it.
fn writes(
    rt: &(impl AllocGlobal + Threads + Wait + Sync),
    text: &str,
    options: Options,
    watch: &InStage<'_>,
    report: &str,
) -> bool {
    let given = given(Texts::One(Feed::whole(text)), None, None, options);
    let mut out = Vec::new(rt.alloc());
    let nobody: Option<&mut NoDiagnostics> = None;
    let done = run_explained(rt, rt.alloc(), given, &mut out, nobody, watch);
    let status = done.ok().map(|finished| finished.status);
    status == status_of(report) && is_text(&out, report)
}

/// How many workers there are, and how many of their threads are to be seen at once: of sixteen the
/// first may have ended as the last begin.
#[derive(Clone, Copy)]
struct Team {
    workers: u32,
    seen: u32,
}

#[rattlefmt::skip]
static TEAMS: &[Team] = &[
    Team { workers: 1, seen: 1 },
    Team { workers: 2, seen: 2 },
    Team { workers: 4, seen: 4 },
    Team { workers: 16, seen: 8 },
];

/// Whether runs by a team write their report, each of some, and in the last of them the team is
/// seen in the stage.
fn write_alike(
    rt: &(impl AllocGlobal + Threads + Wait + Sync),
    case: Case,
    team: Team,
    lookout: &Lookout,
) -> Result<bool, AllocError> {
    let text = models(rt.alloc(), case)?;
    let report = report(rt.alloc(), case)?;
    let stage = case.stage;
    let options = Options {
        conflicts: case.conflicts,
        every: case.differs,
        ..options((team.workers, 1_024, 8_192, 0))
    };
    for _ in 0..TRIES {
        if !writes(rt, &text, options, &InStage { stage, lookout }, &report) {
            return Ok(false);
        }
        if lookout.has_seen(team.seen) {
            return Ok(true);
        }
    }
    Ok(false)
}

/// Whether they do, where a lookout beside them sees the threads.
fn are_seen<R: AllocGlobal + Census + Threads + Wait + Sync>(
    rt: &R,
    case: Case,
    team: Team,
) -> Result<bool, AllocError> {
    let lookout = Lookout::new();
    lookout.beside(rt, || write_alike(rt, case, team, &lookout))
}

#[test]
fn several_threads_sweep_and_search_and_write_what_one_does(rt: HostRuntime) {
    for case in CASES {
        for team in TEAMS {
            let found = are_seen(&rt, *case, *team);
            holds_at(&rt, found, team.workers, *case);
        }
    }
}

//! Comparisons by several workers. The reports are those of one worker, whatever the schedule.

ghost use Rattle.std.specs.Prelude.{◌≤◌, vec_len, IfOk};
ghost use Rattle.std.specs.List.{All};

use crate::ends::holds;
use eqc_blif::{Library, read};
use eqc_check::{
    Gate, NoGate, Options, Pair, Report, Texts, check, check_with, options_fault, pair,
};
use eqc_engine::{Comparison, decide_pair, known_by_structure};
use eqc_flat::Flat;
use eqc_netlist_testing::two_flats;
use eqc_pair_testing::report_word;
use eqc_plain::Plain;
use eqc_report::Undecided;
use eqc_run_testing::{given, options, workers_on};
use eqc_testing::{DIFFERENCE, EQUAL, Feed, Row, UNEQUAL, lines};
use eqc_tree::{References, Stop};
use std::alloc::{AllocError, Global};
use std::sync::Wait;
use std::sync::atomic::{AtomicU64, Ordering};
use std::thread::{self, Threads};

/// Two outputs that differ, which the second netlist declares in another order.
const TWO: &str =
    ".model f;.inputs a;.outputs p q;.names a p;1 1;.names a q;1 1;.end;.model g;.inputs a;.outputs q p;.names a p;0 1;.names q;.end;";

/// How long a gate holds an output.
const TURNS: u32 = 10_000_000;

/// Holds output 0 until another output was entered, and counts what it was told.
#[derive(Drop)]
pub struct Held {
    first: AtomicU64,
    second: AtomicU64,
    ran_out: AtomicU64,
}

impl Held {
    pub fn new() -> Held {
        Held {
            first: AtomicU64::new(0),
            second: AtomicU64::new(0),
            ran_out: AtomicU64::new(0),
        }
    }

    fn hold(&self) {
        for _ in 0..TURNS {
            if self.second.load(Ordering::SeqCst) > 0 {
                return;
            }
            thread::yield_now();
        }
        self.ran_out.fetch_add(1, Ordering::SeqCst);
    }

    /// Whether each output was entered once, and output 0 not before output 1.
    fn is_passed(&self) -> bool {
        self.first.load(Ordering::SeqCst) == 1
            && self.second.load(Ordering::SeqCst) == 1
            && self.ran_out.load(Ordering::SeqCst) == 0
    }
}

impl<R> Gate<R> for Held {
    fn enter(&self, _rt: &R, _worker: u32, output: u32) {
        if output == 0 {
            self.first.fetch_add(1, Ordering::SeqCst);
            self.hold();
        } else {
            self.second.fetch_add(1, Ordering::SeqCst);
        }
    }
}

/// Two stores of 16 nodes.
pub fn two_stores(alloc: Global, inputs: u16) -> Result<Vec<Plain>, Stop>
    ensures some { IfOk result (λ all. 1 ≤ vec_len all) }
    ensures variables { IfOk result (λ all. All (λ p. inputs ≤ (⟦<Plain as References>⟧.holding p).variables) all.items) }
{
    let mut all = Vec::new(alloc);
    for _ in 0..2u32 {
        let Ok(()) = all.push(Plain::new(alloc, inputs, 16)?) else {
            return Err(Stop::Memory);
        };
    }
    Ok(all)
}

/// How a pair is compared.
#[derive(Clone, Copy, Debug)]
pub enum Way {
    /// By so many workers, with a store of 16 nodes.
    Workers(u32),
    /// By so many workers, with a store of so many nodes.
    Within(u32, u32),
    /// By two members over stores of 16 nodes.
    Members,
    /// In the course of a run with so many workers.
    Course(u32),
}

/// Compares a pair in the course of a run, which has room for all that it may try.
fn compared_in_course<R: Threads + Wait + Sync>(
    rt: &R,
    alloc: Global,
    pair: &Pair<'_>,
    workers: u32,
) -> Result<Report, Stop> {
    let options = Options {
        workers,
        nodes: 1_024,
        cells: 1,
        forks: 0,
        conflicts: 1_000,
        inputs: 2_048,
        bytes: 16_777_216,
        every: false,
    };
    let comparison = Comparison {
        rt,
        alloc,
        pair,
        options: &options,
        watch: &NoGate,
    };
    match options_fault(&options) {
        None => {
            let mut alike = known_by_structure(&comparison);
            decide_pair(&comparison, &mut alike, &mut Undecided::none(alloc))
        }
        Some(_) => Err(Stop::NodeLimit),
    }
}

/// Compares a pair.
fn compared<R: Threads + Wait + Sync, G: Gate<R> + Sync>(
    rt: &R,
    alloc: Global,
    pair: &Pair<'_>,
    way: Way,
    gate: &G,
) -> Result<Report, Stop> {
    let (workers, nodes) = match way {
        Way::Workers(workers) => (workers, 16),
        Way::Within(workers, nodes) => (workers, nodes),
        Way::Members => {
            let members = two_stores(alloc, pair.first().inputs().len() as u16)?;
            return check_with(rt, alloc, pair, false, members, gate);
        }
        Way::Course(workers) => return compared_in_course(rt, alloc, pair, workers),
    };
    let options = Options {
        workers,
        nodes,
        cells: 1,
        forks: 0,
        conflicts: 0,
        inputs: 2_048,
        bytes: 16_777_216,
        every: false,
    };
    match options_fault(&options) {
        None => check(rt, alloc, pair, &options, gate),
        Some(_) => Err(Stop::NodeLimit),
    }
}

/// What is reported of a pair.
fn pair_word<R: Threads + Wait + Sync, G: Gate<R> + Sync>(
    rt: &R,
    alloc: Global,
    pair: &Pair<'_>,
    way: Way,
    gate: &G,
) -> Result<String, AllocError> {
    match compared(rt, alloc, pair, way, gate) {
        Ok(report) => report_word(alloc, &report),
        Err(stop) => report_word(alloc, &Report::Stopped(stop)),
    }
}

/// What is reported of two flat netlists.
fn flat_word<R: Threads + Wait + Sync, G: Gate<R> + Sync>(
    rt: &R,
    alloc: Global,
    first: &Flat<'_>,
    second: &Flat<'_>,
    way: Way,
    gate: &G,
) -> Result<String, AllocError> {
    match pair(alloc, first, second, None) {
        Ok(pair) => pair_word(rt, alloc, &pair, way, gate),
        Err(refused) => report_word(alloc, &Report::Refused(refused)),
    }
}

/// What is reported of the first two models of a library.
fn library_word<R: Threads + Wait + Sync, G: Gate<R> + Sync>(
    rt: &R,
    alloc: Global,
    library: &Library,
    way: Way,
    gate: &G,
) -> Result<String, AllocError> {
    match &two_flats(alloc, library) {
        Some((first, second)) => flat_word(rt, alloc, first, second, way, gate),
        None => String::from_str(alloc, "no two simple models"),
    }
}

/// Whether this is reported of the first two models of a text.
fn is_word_of<R: Threads + Wait + Sync, G: Gate<R> + Sync>(
    rt: &R,
    alloc: Global,
    text: &[u8],
    way: Way,
    gate: &G,
    wanted: &str,
) -> Result<bool, AllocError> {
    match read(alloc, text) {
        Ok(library) => {
            let word = library_word(rt, alloc, &library, way, gate)?;
            Ok(word.as_str() == wanted)
        }
        Err(_) => Ok(false),
    }
}

/// The same, where `;` stands for LF.
pub fn gives<R: Threads + Wait + Sync, G: Gate<R> + Sync>(
    rt: &R,
    alloc: Global,
    text: &str,
    way: Way,
    gate: &G,
    wanted: &str,
) -> Result<bool, AllocError> {
    let text = lines(alloc, text)?;
    is_word_of(rt, alloc, &text, way, gate, wanted)
}

/// By whom a pair is compared.
static WAYS: &[Way] = &[
    Way::Workers(1),
    Way::Workers(2),
    Way::Workers(64),
    Way::Members,
    Way::Course(1),
    Way::Course(2),
];

/// What is compared, and what is reported of it.
static ROWS: &[Row<&str>] = &[
    ("conjunctions", EQUAL, "equivalent;"),
    ("a conjunction and a disjunction", UNEQUAL, DIFFERENCE),
];

#[test]
fn pairs_are_compared_by_workers(rt: HostRuntime) {
    for way in WAYS {
        for (name, text, report) in ROWS {
            holds(
                &rt,
                gives(&rt, rt.alloc(), text, *way, &NoGate, report),
                name,
            );
        }
    }
}

#[test]
fn no_output_is_left_at_first(rt: HostRuntime) {
    let left = Undecided::none(rt.alloc());
    assert!(rt; left.left().count == 0 && left.left().names.is_empty() && left.seen().is_none());
}

/// Whether two outputs are reported on, and were compared at once.
fn are_compared_at_once<R: Threads + Wait + Sync>(
    rt: &R,
    alloc: Global,
    way: Way,
) -> Result<bool, AllocError> {
    let gate = Held::new();
    let given = gives(
        rt,
        alloc,
        TWO,
        way,
        &gate,
        "differs at p;a=0;first=0;second=1;",
    )?;
    Ok(given && gate.is_passed())
}

#[test]
fn two_outputs_are_compared_at_once(rt: HostRuntime) {
    for way in [Way::Workers(2), Way::Members] {
        holds(
            &rt,
            are_compared_at_once(&rt, rt.alloc(), way),
            "two outputs are compared at once",
        );
    }
}

/// Five outputs. The second, the fourth and the last differ.
const MANY: &str =
    ".model f;.inputs a b;.outputs p q r s t;.names a p;1 1;.names a b q;11 1;.names b r;1 1;.names a s;1 1;.names b t;1 1;.end;.model g;.inputs a b;.outputs t s r q p;.names a p;1 1;.names a b q;1- 1;-1 1;.names b r;1 1;.names b s;1 1;.names t;.end;";

/// The report on the text `MANY`.
const SECOND: &str = "differs at q;a=0;b=1;first=0;second=1;";

/// Counts what it was told.
#[derive(Drop)]
struct Count {
    entered: AtomicU64,
}

impl<R> Gate<R> for Count {
    fn enter(&self, _rt: &R, _worker: u32, _output: u32) {
        self.entered.fetch_add(1, Ordering::SeqCst);
    }
}

/// How many outputs of `MANY` one worker enters, where it reports the second one.
fn entered<R: Threads + Wait + Sync>(rt: &R, alloc: Global) -> Result<Option<u64>, AllocError> {
    let gate = Count {
        entered: AtomicU64::new(0),
    };
    let given = gives(rt, alloc, MANY, Way::Workers(1), &gate, SECOND)?;
    Ok(given.then_some(gate.entered.load(Ordering::SeqCst)))
}

#[test]
fn nothing_is_compared_behind_a_difference(rt: HostRuntime) -> Result<(), AllocError> {
    let entered = entered(&rt, rt.alloc())?;
    assert_eq!(rt; entered, Some(2));
    Ok(())
}

/// How many workers compared outputs, of so many that are waited for, in a run of many over the
/// text `MANY` that reports the second output: none where it doesn't.
fn workers_on_many<R: AllocGlobal + Threads + Wait + Sync>(
    rt: &R,
    forks: u32,
    awaited: u32,
) -> Option<u32> {
    let options = options((64, 1_023, 8_192, forks));
    let run = given(Texts::One(Feed::whole(MANY)), None, None, options);
    workers_on(rt, run, awaited, SECOND)
}

/// How many levels of an operation workers share, and how many runs are made. Without such a level
/// only three workers are started, since two of the five outputs are driven alike; with one all 64.
static FORKS: &[(u32, u32)] = &[(0, 1_000), (16, 100)];

/// Most runs go as they like. In each fiftieth three workers are held until all three compare an
/// output.
#[test]
fn runs_of_many_workers_write_the_same(rt: HostRuntime) {
    for (forks, turns) in FORKS {
        for turn in 0..*turns {
            let awaited = if turn % 50 == 0 { 3 } else { 0 };
            let workers = workers_on_many(&rt, *forks, awaited);
            let found = workers.is_some_and(|count| count >= awaited);
            assert!(rt; found, "{forks} {turn}");
        }
    }
}

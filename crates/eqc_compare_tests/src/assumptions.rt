//! Pairs under an assumption, which is the third model of a text: whether it allows anything, and
//! what is reported.

ghost use Rattle.std.specs.Prelude.{◌≤◌, length};

use crate::ends::holds;
use crate::workers::two_stores;
use eqc_blif::{Library, read};
use eqc_check::{Gate, Pair, Report, allows_none, check_plain, check_with, pair_assuming};
use eqc_flat::Flat;
use eqc_netlist_testing::{flat_of, two_flats};
use eqc_pair_testing::report_word;
use eqc_plain::Plain;
use eqc_testing::{Row, lines};
use eqc_tree::Stop;
use std::alloc::{AllocError, Global};
use std::sync::Wait;
use std::sync::atomic::{AtomicU64, Ordering};
use std::thread::Threads;

/// What is asked of a pair under an assumption, on stores of 16 nodes.
#[derive(Clone, Copy)]
enum Ask {
    /// Whether nothing is allowed.
    AllowsNone,
    /// The report by one thread, on each difference or the first.
    Plain(bool),
    /// The same by two members, and how many outputs were entered at the gate.
    Members(bool),
}

/// Counts the outputs that enter.
#[derive(Drop)]
struct Counted {
    entered: AtomicU64,
}

impl<R> Gate<R> for Counted {
    fn enter(&self, _rt: &R, _worker: u32, _output: u32) {
        self.entered.fetch_add(1, Ordering::SeqCst);
    }
}

/// A report, or that of a stop.
fn word_of(alloc: Global, report: Result<Report, Stop>) -> Result<String, AllocError> {
    match report {
        Ok(report) => report_word(alloc, &report),
        Err(stop) => report_word(alloc, &Report::Stopped(stop)),
    }
}

/// Whether nothing is allowed.
fn allows_word<R>(rt: &R, alloc: Global, pair: &Pair<'_>) -> Result<String, AllocError> {
    let inputs = pair.first().inputs().len();
    let answer = match Plain::new(alloc, inputs as u16, 16) {
        Ok(mut plain) => allows_none(rt, alloc, &mut plain, pair),
        Err(stop) => Err(stop),
    };
    match answer {
        Ok(none) => format!(in alloc; "{none}"),
        Err(stop) => word_of(alloc, Err(stop)),
    }
}

/// The report by two members, with the number of outputs that entered.
fn members_word<R: Threads + Wait + Sync>(
    rt: &R,
    alloc: Global,
    pair: &Pair<'_>,
    every: bool,
) -> Result<String, AllocError> {
    let gate = Counted {
        entered: AtomicU64::new(0),
    };
    let report = match two_stores(alloc, pair.first().inputs().len() as u16) {
        Ok(members) => check_with(rt, alloc, pair, every, members, &gate),
        Err(stop) => Err(stop),
    };
    let word = word_of(alloc, report)?;
    format!(in alloc; "{word}{}", gate.entered.load(Ordering::SeqCst))
}

/// The answer on a pair.
fn pair_word<R: Threads + Wait + Sync>(
    rt: &R,
    alloc: Global,
    pair: &Pair<'_>,
    ask: Ask,
) -> Result<String, AllocError> {
    pair.recall_laws();
    match ask {
        Ask::AllowsNone => allows_word(rt, alloc, pair),
        Ask::Plain(every) => word_of(alloc, check_plain(rt, alloc, pair, every, 16)),
        Ask::Members(every) => members_word(rt, alloc, pair, every),
    }
}

/// The answer on two flat netlists, under an assumption if there is one.
fn flat_word<R: Threads + Wait + Sync>(
    rt: &R,
    alloc: Global,
    first: &Flat<'_>,
    second: &Flat<'_>,
    assumed: Option<&Flat<'_>>,
    ask: Ask,
) -> Result<String, AllocError> {
    match pair_assuming(alloc, first, second, None, assumed) {
        Ok(pair) => pair_word(rt, alloc, &pair, ask),
        Err(refused) => report_word(alloc, &Report::Refused(refused)),
    }
}

/// The answer on the models of a library.
fn models_word<R: Threads + Wait + Sync>(
    rt: &R,
    alloc: Global,
    library: &Library,
    ask: Ask,
) -> Result<String, AllocError> {
    let assumed = flat_of(alloc, library, 2);
    match &two_flats(alloc, library) {
        Some((first, second)) => flat_word(rt, alloc, first, second, assumed.as_ref(), ask),
        None => String::from_str(alloc, "no two simple models"),
    }
}

/// Whether this is the answer on a text, in which `;` stands for LF.
fn is_answer<R: Threads + Wait + Sync>(
    rt: &R,
    alloc: Global,
    text: &str,
    ask: Ask,
    wanted: &str,
) -> Result<bool, AllocError> {
    match read(alloc, &lines(alloc, text)?) {
        Ok(library) => Ok(models_word(rt, alloc, &library, ask)?.as_str() == wanted),
        Err(_) => Ok(false),
    }
}

/// A conjunction and a disjunction, and an assumption that is never met.
const ASSUMED_0: &str =
    ".model f;.inputs x y;.outputs z;.names x y z;11 1;.end;.model g;.inputs x y;.outputs z;.names x y z;1- 1;-1 1;.end;.model h;.outputs e;.names e;";

/// The same, and one that asks for one of the inputs.
const ASSUMED_X: &str =
    ".model f;.inputs x y;.outputs z;.names x y z;11 1;.end;.model g;.inputs x y;.outputs z;.names x y z;1- 1;-1 1;.end;.model h;.inputs x;.outputs e;.names x e;1 1;";

/// Nothing to compare, and a contradiction.
const NO_OUTPUTS: &str =
    ".model f;.inputs x;.end;.model g;.inputs x;.end;.model h;.inputs x;.outputs e;.names x a;1 1;.names x b;0 1;.names a b e;11 1;";

/// Two outputs that differ, and no assumption.
const BOTH: &str =
    ".model f;.inputs a;.outputs p q;.names a p;1 1;.names a q;1 1;.end;.model g;.inputs a;.outputs q p;.names a p;0 1;.names q;.end;";

/// What is asked, and the answer.
type Asked = (Ask, &'static str);

#[rattlefmt::skip]
static ROWS: &[Row<Asked>] = &[
    ("nothing is allowed", ASSUMED_0, (Ask::AllowsNone, "true")),
    ("something is", ASSUMED_X, (Ask::AllowsNone, "false")),
    ("a contradiction", NO_OUTPUTS, (Ask::AllowsNone, "true")),
    ("no assumption", BOTH, (Ask::AllowsNone, "false")),
    ("nothing, by one", ASSUMED_0, (Ask::Plain(false), "vacuous;")),
    ("nothing, by two", ASSUMED_0, (Ask::Members(true), "vacuous;0")),
    ("no outputs, by one", NO_OUTPUTS, (Ask::Plain(true), "vacuous;")),
    ("no outputs, by two", NO_OUTPUTS, (Ask::Members(false), "vacuous;0")),
    ("the least that is allowed, by one", ASSUMED_X, (Ask::Plain(false), "differs at z;x=1;y=0;first=0;second=1;")),
    ("the least that is allowed, by two", ASSUMED_X, (Ask::Members(false), "differs at z;x=1;y=0;first=0;second=1;1")),
    ("the first, by one", BOTH, (Ask::Plain(false), "differs at p;a=0;first=0;second=1;")),
    ("each, by one", BOTH, (Ask::Plain(true), "differs at p;a=0;first=0;second=1;differs at q;a=1;first=1;second=0;")),
    ("each, by two", BOTH, (Ask::Members(true), "differs at p;a=0;first=0;second=1;differs at q;a=1;first=1;second=0;2")),
];

#[test]
fn assumptions_are_asked_first(rt: HostRuntime) {
    for (name, text, (ask, wanted)) in ROWS {
        holds(&rt, is_answer(&rt, rt.alloc(), text, *ask, wanted), name);
    }
}

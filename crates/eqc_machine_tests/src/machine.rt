//! The machine under the diagrams: cores of several sizes, lists of steps, and what is read after
//! them. The readings of the lists by chance are those of a plain program that shares nothing with
//! the machine.
//!
//! No core is held where something is asserted: what is read of it is a few numbers, or why there
//! is none.
ghost use Rattle.std.specs.Prelude.{◌≡◌, IfOk};

use crate::ends::same;
use eqc_core::{Core, Event, ReplayFault, Step, replay};
use std::alloc::{AllocError, Global};
use std::process::Abort;

/// The and of slot 2 with itself, which is slot 2, as the word of a cell.
const WORD: u64 = (1 << 60) + (2 << 40) + (2 << 20) + 2;

/// Steps, each with its worker.
type Steps = &'static [(u32, Step)];

/// A case: its name, two lists of steps, and what is read after both, or which step the machine
/// refuses.
type Played<W> = (&'static str, Steps, Steps, Result<W, ReplayFault>);

/// The events of both lists of steps.
fn list(
    alloc: Global,
    steps: &[(u32, Step)],
    more: &[(u32, Step)],
) -> Result<Vec<Event>, AllocError> {
    let mut events = Vec::new(alloc);
    for (worker, step) in steps.iter().chain(more) {
        events.push(Event {
            worker: *worker,
            step: *step,
        })?;
    }
    Ok(events)
}

/// The core after both lists of steps.
fn play(
    alloc: Global,
    core: &Core,
    steps: &[(u32, Step)],
    more: &[(u32, Step)],
) -> Result<Core, ReplayFault>
    ensures { IfOk result (λ last. last.sizes ≡ core.now.sizes) }
{
    let Ok(events) = list(alloc, steps, more) else {
        return Err(ReplayFault::Memory);
    };
    if events.len() > 1000 {
        return Err(ReplayFault::Memory);
    }
    replay(alloc, core, &events)
}

/// Why there is no core of these sizes, if there is none.
fn refusal(alloc: Global, workers: u32, nodes: u32, cells: u32) -> Option<ReplayFault> {
    Core::stocked(alloc, workers, nodes, cells).err()
}

/// Numbers of workers, nodes and cells that are too small or too large.
static SIZES: &[(u32, u32, u32)] = &[(0, 4, 1), (9, 4, 1), (2, 17, 1), (2, 4, 0)];

#[test]
fn sizes_are_refused(rt: HostRuntime) {
    for (workers, nodes, cells) in SIZES {
        let fault = refusal(rt.alloc(), *workers, *nodes, *cells);
        same(&rt, fault, Some(ReplayFault::Size), workers);
    }
}

/// What is read of a core with 2 workers, 4 nodes and 1 cell: the cell, what worker 1 announces,
/// the count of slot 2, and how often worker 0 holds it and has it retired.
fn readings(core: &Core) -> [u64; 5]
    requires { core.now.sizes ≡ record { workers = 2; announcements = 4; names = 6; cells = 1; variables = 4 } }
{
    [
        core.cell(0),
        core.announced(1, 0),
        core.count(2),
        core.held(0, 2),
        core.retired(0, 2),
    ]
}

/// The readings of a stocked core after both lists of steps.
fn readings_after(
    alloc: Global,
    steps: &[(u32, Step)],
    more: &[(u32, Step)],
) -> Result<[u64; 5], ReplayFault> {
    let core = Core::stocked(alloc, 2, 4, 1)?;
    let last = play(alloc, &core, steps, more)?;
    Ok(readings(&last))
}

/// After both lists of each row a stocked core has these readings.
fn check_readings(rt: &(impl Abort + AllocGlobal), rows: &[Played<[u64; 5]>]) {
    for (case, steps, more, wanted) in rows {
        same(rt, readings_after(rt.alloc(), steps, more), *wanted, case);
    }
}

static STOCKED: &[Played<[u64; 5]>] = &[
    ("no step", &[], &[], Ok([0, 0, 2, 1, 0])),
    (
        "no such cell",
        &[],
        &[(0, Step::Look(0, 1))],
        Err(ReplayFault::Event(0)),
    ),
];

#[test]
fn a_stocked_core_is_read(rt: HostRuntime) {
    check_readings(&rt, STOCKED);
}

/// A worker announces a name that was scanned before.
const MISSED: Steps = &[
    (0, Step::Split(1)),
    (0, Step::Up(2)),
    (0, Step::Up(2)),
    (0, Step::Up(2)),
    (0, Step::SwapCell(0, WORD)),
    (1, Step::Look(0, 0)),
    (0, Step::SwapCell(0, 0)),
    (0, Step::ScanOne),
    (0, Step::ScanOne),
    (0, Step::ScanOne),
    (0, Step::ScanOne),
    (0, Step::ScanOne),
    (0, Step::ScanOne),
    (0, Step::ScanOne),
    (0, Step::ScanOne),
    (1, Step::Announce(0, 2)),
    (1, Step::Recheck(0)),
];

static AFTER_MISSED: &[Played<[u64; 5]>] = &[
    ("missed", MISSED, &[], Ok([0, 2, 5, 4, 0])),
    (
        "counted up",
        MISSED,
        &[(1, Step::Up(2))],
        Err(ReplayFault::Event(17)),
    ),
];

#[test]
fn a_name_that_was_scanned_is_missed(rt: HostRuntime) {
    check_readings(&rt, AFTER_MISSED);
}

/// A worker announces and confirms a name before it is scanned.
const CONFIRMED: Steps = &[
    (0, Step::Split(1)),
    (0, Step::Up(2)),
    (0, Step::Up(2)),
    (0, Step::Up(2)),
    (0, Step::SwapCell(0, WORD)),
    (1, Step::Look(0, 0)),
    (1, Step::Announce(0, 2)),
    (1, Step::Recheck(0)),
    (0, Step::SwapCell(0, 0)),
    (0, Step::ScanOne),
    (0, Step::ScanOne),
    (0, Step::ScanOne),
    (0, Step::ScanOne),
    (0, Step::ScanOne),
    (0, Step::ScanOne),
    (0, Step::ScanOne),
    (0, Step::ScanOne),
    (0, Step::Down(2)),
    (0, Step::Down(2)),
    (0, Step::Down(2)),
];

static AFTER_CONFIRMED: &[Played<[u64; 5]>] = &[
    ("confirmed", CONFIRMED, &[], Ok([0, 2, 2, 0, 1])),
    (
        "given back once more",
        CONFIRMED,
        &[(0, Step::Down(2))],
        Err(ReplayFault::Event(20)),
    ),
    (
        "counted up",
        CONFIRMED,
        &[(1, Step::Up(2))],
        Ok([0, 2, 3, 0, 1]),
    ),
];

#[test]
fn a_name_that_is_confirmed_stays(rt: HostRuntime) {
    check_readings(&rt, AFTER_CONFIRMED);
}

/// A worker announces and confirms a name by its last announcement word.
const LAST_WORD: Steps = &[
    (0, Step::Split(1)),
    (0, Step::Up(2)),
    (0, Step::Up(2)),
    (0, Step::Up(2)),
    (0, Step::SwapCell(0, WORD)),
    (1, Step::Look(3, 0)),
    (1, Step::Announce(3, 2)),
    (1, Step::Recheck(3)),
    (0, Step::SwapCell(0, 0)),
    (0, Step::ScanOne),
    (0, Step::ScanOne),
    (0, Step::ScanOne),
    (0, Step::ScanOne),
    (0, Step::ScanOne),
    (0, Step::ScanOne),
    (0, Step::ScanOne),
    (0, Step::ScanOne),
    (0, Step::Down(2)),
    (0, Step::Down(2)),
    (0, Step::Down(2)),
];

#[rattlefmt::skip]
static AFTER_LAST_WORD: &[Played<[u64; 5]>] = &[
    ("confirmed", LAST_WORD, &[], Ok([0, 0, 2, 0, 1])),
    ("counted up", LAST_WORD, &[(1, Step::Up(2))], Ok([0, 0, 3, 0, 1])),
    ("the first word looks", LAST_WORD, &[(1, Step::Look(0, 0)), (1, Step::Up(2))], Ok([0, 0, 3, 0, 1])),
    ("joined", LAST_WORD, &[(0, Step::Join(1))], Err(ReplayFault::Event(20))),
    ("no such word", LAST_WORD, &[(1, Step::Look(4, 0))], Err(ReplayFault::Event(20))),
];

#[test]
fn a_name_that_the_last_word_confirms_stays(rt: HostRuntime) {
    check_readings(&rt, AFTER_LAST_WORD);
}

/// The name that was missed is given back, its slot taken back, and claimed: the announcement of it
/// isn't confirmed.
const TAKEN_BACK: Steps = &[
    (0, Step::Down(2)),
    (0, Step::Down(2)),
    (0, Step::Down(2)),
    (0, Step::Down(2)),
    (0, Step::Lock(1, true)),
    (0, Step::Reclaim(2)),
    (0, Step::Unlock(1)),
    (0, Step::Claim(2, true)),
];

static AFTER_TAKEN_BACK: &[Played<[u64; 5]>] = &[(
    "claimed",
    MISSED,
    TAKEN_BACK,
    Ok([0, 2, 2, 0, 0]),
)];

#[test]
fn a_name_that_was_missed_is_taken_back(rt: HostRuntime) {
    check_readings(&rt, AFTER_TAKEN_BACK);
}

/// A worker takes a stripe's lock, and then the slot of a name that another one has confirmed.
#[rattlefmt::skip]
static LOCKED: &[Played<[u64; 5]>] = &[
    ("taken back", CONFIRMED, &[(0, Step::Lock(1, true)), (0, Step::Reclaim(2))], Err(ReplayFault::Event(21))),
    ("claimed", CONFIRMED, &[(0, Step::Lock(1, true)), (0, Step::Claim(2, true))], Err(ReplayFault::Event(21))),
];

#[test]
fn a_name_that_is_confirmed_is_not_taken_back(rt: HostRuntime) {
    check_readings(&rt, LOCKED);
}

/// The and of slot 2 with itself as a task in a box.
const TASK: u64 = (5 << 60) + (2 << 40) + (2 << 20);

/// The same, stopped at the node limit.
const STOPPED: u64 = (14 << 60) + (2 << 40) + (2 << 20);

/// A worker offers a task in its first box, another one takes it, does it and puts the result back.
const OFFERED: Steps = &[
    (0, Step::Split(1)),
    (0, Step::Up(2)),
    (0, Step::SwapBox(0, TASK)),
    (1, Step::LookBox(0)),
    (1, Step::SwapBox(0, 0)),
    (1, Step::Up(2)),
    (1, Step::SwapBox(0, WORD)),
    (0, Step::SwapBox(0, 0)),
];

#[rattlefmt::skip]
static AFTER_OFFERED: &[Played<[u64; 5]>] = &[
    ("done", OFFERED, &[], Ok([0, 0, 4, 3, 0])),
    ("stopped", OFFERED, &[(0, Step::SwapBox(31, STOPPED)), (1, Step::SwapBox(31, 0))], Ok([0, 0, 4, 1, 0])),
    ("in a scan", OFFERED, &[(0, Step::ScanOne), (0, Step::LookBox(0))], Err(ReplayFault::Event(9))),
];

#[test]
fn a_task_comes_back_as_its_result(rt: HostRuntime) {
    check_readings(&rt, AFTER_OFFERED);
}

/// Words that no box takes.
#[rattlefmt::skip]
static NO_WORDS: &[Played<[u64; 5]>] = &[
    ("no box", OFFERED, &[(0, Step::LookBox(32))], Err(ReplayFault::Event(8))),
    ("no names", OFFERED, &[(1, Step::SwapBox(0, TASK))], Err(ReplayFault::Event(8))),
    ("a wrong result", OFFERED, &[(0, Step::SwapBox(0, (2 << 60) + WORD))], Err(ReplayFault::Event(8))),
    ("a task with a result", OFFERED, &[(0, Step::SwapBox(0, TASK + 2))], Err(ReplayFault::Event(8))),
    ("a stop with a result", OFFERED, &[(0, Step::SwapBox(0, STOPPED + 2))], Err(ReplayFault::Event(8))),
    ("no number", OFFERED, &[(0, Step::SwapBox(0, (4 << 60) + TASK))], Err(ReplayFault::Event(8))),
    ("a number below stops", OFFERED, &[(0, Step::SwapBox(0, (7 << 60) + TASK))], Err(ReplayFault::Event(8))),
];

#[test]
fn boxes_take_words_of_their_own_alone(rt: HostRuntime) {
    check_readings(&rt, NO_WORDS);
}

/// All readings of a core with 3 workers, 4 nodes and 2 cells, in one number.
fn digest(core: &Core) -> u64
    requires { core.now.sizes ≡ record { workers = 3; announcements = 4; names = 6; cells = 2; variables = 4 } }
{
    let mut sum: u64 = 7;
    for x in 2..6 {
        sum = sum.wrapping_mul(31).wrapping_add(core.count(x));
    }
    for c in 0..2 {
        sum = sum.wrapping_mul(31).wrapping_add(core.cell(c));
    }
    for worker in 0..3 {
        sum = sum.wrapping_mul(31).wrapping_add(core.announced(worker, 0));
        for x in 2..6 {
            sum = sum.wrapping_mul(31).wrapping_add(core.held(worker, x));
            sum = sum.wrapping_mul(31).wrapping_add(core.retired(worker, x));
        }
    }
    sum
}

/// The digest of a stocked core with 3 workers, 4 nodes and 2 cells after both lists of steps.
fn digest_after(
    alloc: Global,
    steps: &[(u32, Step)],
    more: &[(u32, Step)],
) -> Result<u64, ReplayFault> {
    let core = Core::stocked(alloc, 3, 4, 2)?;
    let last = play(alloc, &core, steps, more)?;
    Ok(digest(&last))
}

/// After both lists of each row a stocked core with 3 workers, 4 nodes and 2 cells has this digest.
fn check_digests(rt: &(impl Abort + AllocGlobal), rows: &[Played<u64>]) {
    for (case, steps, more, wanted) in rows {
        same(rt, digest_after(rt.alloc(), steps, more), *wanted, case);
    }
}

/// A list by chance.
const FIRST: Steps = &[
    (0, Step::Down(2)),
    (0, Step::Down(5)),
    (0, Step::Up(3)),
    (0, Step::Down(4)),
    (0, Step::Look(0, 1)),
    (0, Step::Up(3)),
    (0, Step::SwapCell(1, 1152924803144876035)),
    (0, Step::Look(0, 1)),
    (0, Step::Announce(0, 3)),
    (0, Step::Announce(0, 0)),
    (0, Step::Split(1)),
    (0, Step::Look(0, 0)),
    (1, Step::Look(0, 1)),
    (0, Step::Look(0, 1)),
    (0, Step::Announce(0, 3)),
    (0, Step::Recheck(0)),
    (0, Step::Up(3)),
    (0, Step::Up(3)),
    (0, Step::Announce(0, 0)),
    (0, Step::SwapCell(0, 2305846307748577283)),
    (1, Step::Announce(0, 3)),
    (1, Step::Recheck(0)),
    (1, Step::Up(3)),
    (1, Step::Announce(0, 0)),
    (1, Step::Down(3)),
    (0, Step::SwapCell(0, 0)),
    (0, Step::ScanOne),
    (0, Step::ScanOne),
    (0, Step::ScanOne),
    (0, Step::ScanOne),
    (0, Step::ScanOne),
    (0, Step::ScanOne),
    (0, Step::ScanOne),
    (0, Step::ScanOne),
    (0, Step::ScanOne),
    (0, Step::ScanOne),
    (0, Step::ScanOne),
    (0, Step::ScanOne),
    (0, Step::SwapCell(0, 1152924803142778883)),
    (0, Step::Join(1)),
    (0, Step::Split(2)),
    (2, Step::Look(0, 1)),
    (2, Step::Announce(0, 3)),
    (2, Step::Announce(0, 0)),
    (0, Step::Look(0, 1)),
    (0, Step::Announce(0, 3)),
    (0, Step::Recheck(0)),
    (2, Step::Look(0, 0)),
    (0, Step::Up(3)),
];

#[rattlefmt::skip]
static AFTER_FIRST: &[Played<u64>] = &[
    ("the list", FIRST, &[], Ok(8636760986609832085)),
    ("a forbidden step", FIRST, &[(1, Step::SwapCell(0, 3458764513822638082))], Err(ReplayFault::Event(49))),
];

#[test]
fn the_first_random_list_ends_as_elsewhere(rt: HostRuntime) {
    check_digests(&rt, AFTER_FIRST);
}

/// Another list by chance.
const SECOND: Steps = &[
    (0, Step::Split(1)),
    (1, Step::Look(0, 1)),
    (0, Step::Down(2)),
    (0, Step::SwapCell(1, 0)),
    (0, Step::Join(1)),
    (0, Step::Look(0, 1)),
    (0, Step::Up(5)),
    (0, Step::Look(0, 0)),
    (0, Step::Up(4)),
    (0, Step::SwapCell(0, 2305848506771832837)),
    (0, Step::Up(3)),
    (0, Step::Up(3)),
    (0, Step::SwapCell(1, 0)),
    (0, Step::SwapCell(0, 1152924803142778883)),
    (0, Step::ScanOne),
    (0, Step::ScanOne),
    (0, Step::ScanOne),
    (0, Step::ScanOne),
    (0, Step::ScanOne),
    (0, Step::ScanOne),
    (0, Step::ScanOne),
    (0, Step::ScanOne),
    (0, Step::ScanOne),
    (0, Step::ScanOne),
    (0, Step::ScanOne),
    (0, Step::ScanOne),
    (0, Step::Look(0, 0)),
    (0, Step::Up(4)),
    (0, Step::Announce(0, 3)),
    (0, Step::Announce(0, 0)),
    (0, Step::SwapCell(1, 2305847407264399364)),
    (0, Step::Look(0, 0)),
    (0, Step::Announce(0, 3)),
    (0, Step::Up(3)),
    (0, Step::Up(3)),
    (0, Step::Recheck(0)),
    (0, Step::Up(3)),
    (0, Step::Announce(0, 0)),
    (0, Step::Look(0, 1)),
    (0, Step::Announce(0, 4)),
    (0, Step::Up(5)),
    (0, Step::Announce(0, 0)),
    (0, Step::Up(3)),
    (0, Step::Up(3)),
    (0, Step::Look(0, 1)),
    (0, Step::Look(0, 0)),
    (0, Step::SwapCell(1, 4611689316962271235)),
    (0, Step::ScanOne),
    (0, Step::ScanOne),
    (0, Step::ScanOne),
    (0, Step::ScanOne),
    (0, Step::ScanOne),
    (0, Step::ScanOne),
    (0, Step::ScanOne),
    (0, Step::ScanOne),
];

#[rattlefmt::skip]
static AFTER_SECOND: &[Played<u64>] = &[
    ("the list", SECOND, &[], Ok(3781607041970279465)),
    ("a forbidden step", SECOND, &[(2, Step::SwapCell(0, 1152923703631151106))], Err(ReplayFault::Event(55))),
];

#[test]
fn the_second_random_list_ends_as_elsewhere(rt: HostRuntime) {
    check_digests(&rt, AFTER_SECOND);
}

/// A list by chance with steps on stripes, drafts and nodes.
const THIRD: Steps = &[
    (0, Step::ReadNode(2)),
    (0, Step::ScanOne),
    (0, Step::ScanOne),
    (0, Step::ScanOne),
    (0, Step::ScanOne),
    (0, Step::ScanOne),
    (0, Step::ScanOne),
    (0, Step::ScanOne),
    (0, Step::ScanOne),
    (0, Step::ScanOne),
    (0, Step::ScanOne),
    (0, Step::ScanOne),
    (0, Step::ScanOne),
    (0, Step::Down(2)),
    (0, Step::Lock(1, true)),
    (0, Step::Reclaim(2)),
    (0, Step::Claim(2, true)),
    (0, Step::WriteNode(0, 1, 0)),
    (0, Step::Split(1)),
    (0, Step::Join(1)),
    (0, Step::SwapCell(0, 4611686018427387904)),
    (0, Step::ReadNode(3)),
    (0, Step::Down(4)),
    (0, Step::Up(3)),
    (0, Step::Up(2)),
    (0, Step::Look(0, 0)),
    (0, Step::ReadNode(3)),
    (0, Step::Up(5)),
    (0, Step::Look(0, 1)),
    (0, Step::Unlock(1)),
    (0, Step::Lock(3, true)),
    (0, Step::ReadNode(5)),
    (0, Step::Reclaim(4)),
    (0, Step::Claim(4, true)),
    (0, Step::WriteNode(2, 0, 1)),
    (0, Step::Split(2)),
    (0, Step::Unlock(3)),
    (2, Step::Lock(3, true)),
    (0, Step::Down(5)),
    (0, Step::SwapCell(1, 2305843009215791106)),
    (2, Step::ScanOne),
    (2, Step::ScanOne),
    (2, Step::ScanOne),
    (2, Step::ScanOne),
    (2, Step::ScanOne),
    (2, Step::ScanOne),
    (2, Step::ScanOne),
    (2, Step::ScanOne),
    (2, Step::ScanOne),
    (2, Step::ScanOne),
    (2, Step::ScanOne),
    (2, Step::ScanOne),
    (0, Step::Lock(2, true)),
    (0, Step::Down(5)),
    (0, Step::Unlock(2)),
    (2, Step::Look(0, 1)),
    (0, Step::Claim(2, false)),
    (2, Step::Unlock(3)),
    (2, Step::Lock(1, true)),
    (2, Step::Unlock(1)),
    (0, Step::Claim(2, false)),
    (2, Step::Lock(4, true)),
    (2, Step::Reclaim(5)),
    (0, Step::Claim(5, true)),
    (2, Step::Look(0, 1)),
    (0, Step::Look(0, 1)),
    (2, Step::Announce(0, 2)),
    (2, Step::Recheck(0)),
    (0, Step::Down(4)),
    (0, Step::Lock(3, true)),
    (0, Step::WriteNode(2, 1, 0)),
    (2, Step::Announce(0, 0)),
    (0, Step::Reclaim(4)),
    (0, Step::Claim(3, false)),
    (2, Step::Unlock(4)),
    (2, Step::SwapCell(1, 0)),
    (2, Step::Claim(5, false)),
    (0, Step::SwapCell(0, 1152922604121620483)),
];

#[rattlefmt::skip]
static AFTER_THIRD: &[Played<u64>] = &[
    ("the list", THIRD, &[], Ok(15425200296797180857)),
    ("a forbidden step", THIRD, &[(0, Step::SwapCell(1, 2305848506771832837))], Err(ReplayFault::Event(78))),
];

#[test]
fn the_third_random_list_ends_as_elsewhere(rt: HostRuntime) {
    check_digests(&rt, AFTER_THIRD);
}

/// Another such list.
const FOURTH: Steps = &[
    (0, Step::Lock(3, true)),
    (0, Step::Up(2)),
    (0, Step::Look(0, 1)),
    (0, Step::Split(2)),
    (2, Step::SwapCell(0, 0)),
    (2, Step::SwapCell(1, 0)),
    (0, Step::Unlock(3)),
    (0, Step::Join(2)),
    (0, Step::Down(3)),
    (0, Step::Look(0, 1)),
    (0, Step::Lock(2, true)),
    (0, Step::Reclaim(3)),
    (0, Step::Claim(3, true)),
    (0, Step::ReadNode(2)),
    (0, Step::WriteNode(1, 1, 0)),
    (0, Step::Unlock(2)),
    (0, Step::Down(3)),
    (0, Step::Lock(2, true)),
    (0, Step::ReadNode(5)),
    (0, Step::SwapCell(1, 1152922604120571906)),
    (0, Step::Down(5)),
    (0, Step::Reclaim(3)),
    (0, Step::Look(0, 1)),
    (0, Step::Claim(3, true)),
    (0, Step::WriteNode(1, 1, 0)),
    (0, Step::Announce(0, 2)),
    (0, Step::Split(1)),
    (1, Step::Lock(4, true)),
    (1, Step::Reclaim(5)),
    (0, Step::Announce(0, 0)),
    (1, Step::Claim(5, true)),
    (1, Step::WriteNode(3, 1, 0)),
    (0, Step::ScanOne),
    (0, Step::ScanOne),
    (0, Step::ScanOne),
    (0, Step::ScanOne),
    (0, Step::ScanOne),
    (0, Step::ScanOne),
    (0, Step::ScanOne),
    (0, Step::ScanOne),
    (0, Step::ScanOne),
    (0, Step::ScanOne),
    (0, Step::ScanOne),
    (0, Step::ScanOne),
    (0, Step::ReadNode(3)),
    (1, Step::Down(5)),
    (1, Step::Reclaim(5)),
    (0, Step::Claim(5, true)),
    (0, Step::Up(3)),
    (1, Step::Claim(3, false)),
    (0, Step::WriteNode(1, 0, 1)),
    (0, Step::Down(3)),
    (0, Step::Look(0, 1)),
    (0, Step::Unlock(2)),
    (0, Step::Down(5)),
    (0, Step::Claim(4, false)),
    (0, Step::Lock(2, true)),
    (0, Step::Reclaim(5)),
    (0, Step::Claim(5, true)),
    (0, Step::WriteNode(1, 0, 1)),
    (1, Step::Unlock(4)),
    (0, Step::Up(4)),
    (0, Step::Unlock(2)),
    (1, Step::SwapCell(0, 0)),
    (0, Step::ScanOne),
    (0, Step::ScanOne),
    (0, Step::ScanOne),
    (0, Step::ScanOne),
    (0, Step::ScanOne),
    (0, Step::ScanOne),
    (0, Step::ScanOne),
    (0, Step::ScanOne),
    (1, Step::Lock(2, true)),
    (0, Step::ScanOne),
    (0, Step::ScanOne),
    (0, Step::ScanOne),
    (0, Step::ScanOne),
    (1, Step::Claim(2, false)),
];

#[rattlefmt::skip]
static AFTER_FOURTH: &[Played<u64>] = &[
    ("the list", FOURTH, &[], Ok(4023163620145408469)),
    ("a forbidden step", FOURTH, &[(1, Step::SwapCell(0, 4611688217452740608))], Err(ReplayFault::Event(78))),
];

#[test]
fn the_fourth_random_list_ends_as_elsewhere(rt: HostRuntime) {
    check_digests(&rt, AFTER_FOURTH);
}

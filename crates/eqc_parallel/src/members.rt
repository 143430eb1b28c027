//! All chosen outputs of a pair, compared by members that run in threads of their own: each output
//! is drawn once, and those that differ are the same whichever member drew them.
ghost use Rattle.std.specs.Prelude.{◌≡◌, ◌≤◌, length, vec_len, IfOk};
ghost use Rattle.std.specs.List.{All};
ghost use Rattle.eqc_tree.specs.Holding.{Holding};
ghost use Rattle.eqc_compare.specs.Verdict.{allows_none};
ghost use Rattle.eqc_compare.specs.Comparing.{assumption_of, netlist_of, AreTold, IsOutcome};
ghost use Rattle.eqc_compare.specs.Alike.{IsKnown, IsSchedule};
ghost use Rattle.eqc_parallel.specs.Verdicts.{asked, AreMembers, AreVerdicts, IsShare};

use crate::comparison::Comparison;
use crate::group::Group;
use crate::request::Request;
use crate::share::{Share, work_together};
use crate::task::Task;
use crate::ticket::{Key, TicketTable, open, settle};
use crate::verdict::{Verdict, in_order, told_of};
use eqc_compare::{Difference, Gate, Outcome, Schedule, allows_none};
use eqc_pair::Pair;
use eqc_tree::{Diagrams, References, Stop};
use std::alloc::{AllocError, Global};
use std::sync::Wait;
use std::thread::Threads;

/// The verdicts of a share that stands for all members: they name each output once.
fn verdicts_of(table: TicketTable, pair: &Pair<'_>, every: bool, share: Share) -> Vec<Verdict>
    requires share { IsShare (asked pair.now every) table.shared.table_id table.shared.key.seats share.seat share.verdicts.items }
    requires key { table.shared.key.outputs ≡ length pair.now.first.outputs }
    requires some { 1 ≤ table.shared.key.seats }
    ensures { AreVerdicts (asked pair.now every) result.items }
{
    let Share { seat, verdicts } = share;
    settle(table, seat);
    verdicts
}

/// The verdicts of all outputs, by these members with this task.
fn all_verdicts<R: Threads + Wait + Sync, D: Diagrams<R> + Send + Drop, G: Gate<R> + Sync>(
    rt: &R,
    alloc: Global,
    pair: &Pair<'_>,
    task: &Task<'_>,
    members: Vec<D>,
    gate: &G,
) -> Result<Vec<Verdict>, Stop>
    requires members { AreMembers D.holding pair.now members }
    requires task { IsSchedule pair.now task.now.schedule }
    ensures { IfOk result (λ verdicts. AreVerdicts (asked pair.now task.now.schedule.every) verdicts.items) }
{
    let key = Key {
        outputs: pair.first().outputs().len() as u32,
        seats: members.len() as u32,
    };
    let (table, seat) = open(alloc, key)?;
    let group = Group {
        worker: 0,
        seat,
        members,
    };
    // All are lent for as long as the words are, which are known here alone.
    let comparison = Comparison {
        rt: &*rt,
        alloc,
        pair: &*pair,
        task: &*task,
        words: &table.shared,
        gate: &*gate,
    };
    let share = work_together(&comparison, group)?;
    Ok(verdicts_of(table, pair, task.schedule.every, share))
}

/// The outputs that differ, as verdicts of all outputs tell them.
fn told_by(
    alloc: Global,
    pair: &Pair<'_>,
    every: bool,
    verdicts: Vec<Verdict>,
) -> Result<Vec<Difference>, AllocError>
    requires { AreVerdicts (asked pair.now every) verdicts.items }
    ensures { IfOk result (λ found. AreTold pair.now every found.items) }
{
    let row = in_order(alloc, pair, every, verdicts)?;
    told_of(alloc, pair, every, row)
}

/// The chosen outputs that differ, or the first of them alone, as this is requested.
fn told_by_members<R: Threads + Wait + Sync, D: Diagrams<R> + Send + Drop, G: Gate<R> + Sync>(
    rt: &R,
    alloc: Global,
    pair: &Pair<'_>,
    request: Request,
    members: Vec<D>,
    gate: &G,
) -> Result<Vec<Difference>, Stop>
    requires members { AreMembers D.holding pair.now members }
    requires known { IsKnown pair.now request.alike }
    ensures found { IfOk result (λ found. AreTold pair.now request.every found.items) }
{
    let Request {
        every,
        alike,
        patience,
    } = request;
    let outputs = pair.first().outputs().len() as u64;
    let draws = outputs.saturating_add(members.len() as u64);
    let schedule = Schedule::of(alloc, pair, every, alike)?;
    let task = Task {
        schedule,
        draws,
        patience,
    };
    let verdicts = all_verdicts(rt, alloc, pair, &task, members, gate)?;
    Ok(told_by(alloc, pair, every, verdicts)?)
}

/// Whether the assumption allows none, as the first member finds it.
fn first_allows_none<R, D: Diagrams<R>>(
    rt: &R,
    alloc: Global,
    pair: &Pair<'_>,
    members: &mut Vec<D>,
) -> Result<bool, Stop>
    requires { AreMembers D.holding pair.now members.old }
    ensures none { IfOk result (λ none. none ≡ allows_none (netlist_of pair.now.first) (assumption_of pair.now)) }
    ensures members { AreMembers D.holding pair.now members.new }
{
    allows_none(rt, alloc, &mut members[0], pair)
}

/// Compares the chosen outputs of a pair by these members, of which each runs in a thread of its
/// own: those that differ, by their positions and in their order, each with its least assignment;
/// without the request's `every` the first of them alone. Whether the assumption allows none is
/// asked of the first member, before anything is drawn.
///
/// There is at least one member, and each has at least as many variables as the pair has inputs;
/// they are consumed. Members beyond the first 4,294,967,295 are let go, since 32 bits number those
/// that compare. What the request says is known of the pair need not be compared. The gate is told
/// of each comparison before it begins. Without `every` a member that has found a difference
/// compares no later output. One that has drawn its last helps the others, for as long as the
/// request's patience lasts. The call may wait, since it waits for all members, and for the gate.
///
/// The errors are those of the members' diagrams, `NodeLimit` (71), `Memory` (72) and `References`
/// (73); `Memory` also where memory is refused; and `Threads` (74) where a thread could not be
/// started. Where several came it is one of them.
pub fn compare_by_members<
    R: Threads + Wait + Sync,
    D: Diagrams<R> + Send + Drop,
    G: Gate<R> + Sync,
>(
    rt: &R,
    alloc: Global,
    pair: &Pair<'_>,
    request: Request,
    members: Vec<D>,
    gate: &G,
) -> Result<Outcome, Stop>
    requires some { 1 ≤ vec_len members }
    requires variables { All (λ d. length pair.now.first.inputs ≤ (D.holding d).variables) members.items }
    requires known { IsKnown pair.now request.alike }
    ensures found { IfOk result (IsOutcome pair.now request.every) }
{
    // It has no more outputs than signals, so 32 bits number them.
    pair.recall_laws();
    let mut members = members;
    members.truncate(u32::MAX as usize);
    if first_allows_none(rt, alloc, pair, &mut members)? {
        return Ok(Outcome::Vacuous);
    }
    let found = told_by_members(rt, alloc, pair, request, members, gate)?;
    Ok(Outcome::Compared(found))
}

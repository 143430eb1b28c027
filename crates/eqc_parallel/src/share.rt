//! Members that draw outputs and compare them, each in a thread of its own, and what they give
//! back.
ghost use Rattle.std.specs.Prelude.{◌≡◌, ◌≢◌, ◌+◌, ◌<◌, ◌≤◌, IsTrue, length, vec_len, IfOk, IfErr};
ghost use Rattle.std.specs.Thread.{IsSync, IsSend};
ghost use Rattle.eqc_build.specs.Turns.{AreKept};
ghost use Rattle.eqc_compare.specs.Alike.{IsSchedule};
ghost use Rattle.eqc_parallel.specs.Verdicts.{asked, DiffersBefore, IsFoundAt, IsShare, IsFresh, AreSeated};

use crate::comparison::Comparison;
use crate::group::{Group, halves};
use crate::help::help_others;
use crate::member::{self, Member};
use crate::task::Task;
use crate::ticket::{Drawer, Words, draw, take_in};
use crate::verdict::{Finding, Verdict};
use eqc_compare::{Gate, is_marked};
use eqc_pair::Pair;
use eqc_tree::{Diagrams, References, Stop};
use std::snapshot::Snapshot;
use std::sync::Wait;
use std::thread::{Promise, Scope, Threads, scope, scope_env};

/// What members give back: their seat, and a verdict for each output that it drew.
#[derive(Drop)]
pub(crate) struct Share {
    pub seat: Drawer,
    pub verdicts: Vec<Verdict>,
}

/// What a member finds at an output that it drew. Where it knows of a difference before, that the
/// output is equal or that it is not chosen, it need not compare.
fn finding<R, D: Diagrams<R>, G: Gate<R>>(
    comparison: &Comparison<'_, R, G>,
    worker: u32,
    member: &mut Member<D>,
    output: u32,
    behind: bool,
) -> Result<Finding, Stop>
    requires kept { AreKept D.entry comparison.now.pair.now (D.holding member.old.diagrams) member.old.kept.table }
    requires task { IsSchedule comparison.now.pair.now comparison.now.task.now.schedule }
    requires output { output < length comparison.now.pair.now.first.outputs }
    requires knows { IsTrue behind → DiffersBefore (asked comparison.now.pair.now comparison.now.task.now.schedule.every) output }
    ensures found { IfOk result (λ found. IsFoundAt (asked comparison.now.pair.now comparison.now.task.now.schedule.every) output found) }
    ensures kept { AreKept D.entry comparison.now.pair.now (D.holding member.new.diagrams) member.new.kept.table }
    ensures only { IfErr result (λ s. s ≢ Stop.Threads) }
{
    let Comparison {
        rt,
        alloc,
        pair,
        task,
        gate,
        ..
    } = *comparison;
    if behind {
        return Ok(Finding::Behind);
    }
    if is_marked(&task.schedule.settled, output as usize) {
        return Ok(Finding::Equal);
    }
    gate.enter(rt, worker, output);
    match member::compare(rt, alloc, member, pair, task, output)? {
        None => Ok(Finding::Equal),
        Some(values) => Ok(Finding::Differs(values)),
    }
}

/// A member draws until its draw is no output. What it draws rises, so behind its first difference
/// nothing that it draws can be the first of all, which it need not look at where that one is asked
/// for alone.
fn draw_all<R, D: Diagrams<R>, G: Gate<R>>(
    comparison: &Comparison<'_, R, G>,
    worker: u32,
    seat: Drawer,
    member: &mut Member<D>,
) -> Result<Share, Stop>
    requires fresh { IsFresh comparison.now.pair.now comparison.now.words.now.table_id comparison.now.words.now.key 1 seat }
    requires kept { AreKept D.entry comparison.now.pair.now (D.holding member.old.diagrams) member.old.kept.table }
    requires task { IsSchedule comparison.now.pair.now comparison.now.task.now.schedule }
    ensures share { IfOk result (λ s. IsShare (asked comparison.now.pair.now comparison.now.task.now.schedule.every) comparison.now.words.now.table_id 1 s.seat s.verdicts.items) }
    ensures only { IfErr result (λ s. s ≢ Stop.Threads) }
    ensures kept { AreKept D.entry comparison.now.pair.now (D.holding member.new.diagrams) member.new.kept.table }
{
    let mut seat = seat;
    let mut verdicts = Vec::new(comparison.alloc);
    let outputs = comparison.pair.first().outputs().len() as u64;
    let mut least = 0u64;
    let mut behind = false;
    loop {
        let number = draw(comparison.words, &mut seat);
        if number >= outputs {
            break;
        }
        let output = number as u32;
        let finding = finding(comparison, worker, member, output, behind)?;
        behind = finding.ends(comparison.task.schedule.every);
        let Ok(()) = verdicts.push(Verdict { output, finding }) else {
            return Err(Stop::Memory);
        };
        least = number + 1;
    }
    Ok(Share { seat, verdicts })
}

/// All that one member does: it draws, compares, helps others, and gives its diagrams up. What it
/// kept it gives back before it helps, so that what it holds takes no room from members that work.
fn work_alone<R: Wait, D: Diagrams<R> + Drop, G: Gate<R>>(
    comparison: &Comparison<'_, R, G>,
    worker: u32,
    seat: Drawer,
    diagrams: D,
) -> Result<Share, Stop>
    requires fresh { IsFresh comparison.now.pair.now comparison.now.words.now.table_id comparison.now.words.now.key 1 seat }
    requires variables { length comparison.now.pair.now.first.inputs ≤ (D.holding diagrams).variables }
    requires task { IsSchedule comparison.now.pair.now comparison.now.task.now.schedule }
    ensures share { IfOk result (λ s. IsShare (asked comparison.now.pair.now comparison.now.task.now.schedule.every) comparison.now.words.now.table_id 1 s.seat s.verdicts.items) }
    ensures only { IfErr result (λ s. s ≢ Stop.Threads) }
{
    let Comparison {
        rt,
        alloc,
        pair,
        task,
        words,
        ..
    } = *comparison;
    let mut member = member::begin(alloc, diagrams, pair)?;
    let drawn = draw_all(comparison, worker, seat, &mut member);
    let mut diagrams = member::end(member, pair);
    let share = drawn?;
    help_others(rt, task, words, &share.seat, &mut diagrams);
    Ok(share)
}

/// What the only member of a group does.
fn work_only<R: Wait, D: Diagrams<R> + Drop, G: Gate<R>>(
    comparison: &Comparison<'_, R, G>,
    group: Group<D>,
) -> Result<Share, Stop>
    requires seated { AreSeated D.holding comparison.now.pair.now comparison.now.words.now.table_id comparison.now.words.now.key group.seat group.worker group.members }
    requires only { vec_len group.members ≡ 1 }
    requires task { IsSchedule comparison.now.pair.now comparison.now.task.now.schedule }
    ensures share { IfOk result (λ s. IsShare (asked comparison.now.pair.now comparison.now.task.now.schedule.every) comparison.now.words.now.table_id 1 s.seat s.verdicts.items) }
{
    let Group {
        worker,
        seat,
        mut members,
    } = group;
    let Some(diagrams) = members.pop() else {
        unreachable!()
    };
    match work_alone(comparison, worker, seat, diagrams) {
        Ok(share) => Ok(share),
        Err(stop) => Err(comparison.task.patience.note(stop)),
    }
}

/// Puts two shares together.
fn put_together(
    words: &Words,
    pair: &Pair<'_>,
    every: bool,
    mine: Share,
    theirs: Share,
) -> Result<Share, Stop>
    requires mine { IsShare (asked pair.now every) words.now.table_id mine.seat.me.0.seats mine.seat mine.verdicts.items }
    requires theirs { IsShare (asked pair.now every) words.now.table_id theirs.seat.me.0.seats theirs.seat theirs.verdicts.items }
    ensures share { IfOk result (λ s. IsShare (asked pair.now every) words.now.table_id (mine.seat.me.0.seats + theirs.seat.me.0.seats) s.seat s.verdicts.items) }
{
    let Share {
        mut seat,
        mut verdicts,
    } = mine;
    let Share {
        seat: other,
        verdicts: mut others,
    } = theirs;
    take_in(words, &mut seat, other);
    let Ok(()) = verdicts.append(&mut others) else {
        return Err(Stop::Memory);
    };
    Ok(Share { seat, verdicts })
}

/// What a thread of several members promises.
#[derive(Drop)]
struct Pledge<'f> {
    pair: Snapshot<Pair<'f>>,
    words: Snapshot<Words>,
    every: bool,
    members: u64,
}

impl<'f> Pledge<'f> {
    /// The promise of a thread of so many members.
    fn of(pair: &Pair<'f>, words: &Words, every: bool, members: usize) -> Pledge<'f>
        ensures pair { result.pair.value ≡ pair.now }
        ensures words { result.words.value ≡ words.now }
        ensures every { result.every ≡ every }
        ensures members { result.members ≡ members }
    {
        Pledge {
            pair: Snapshot::of(pair),
            words: Snapshot::of(words),
            every,
            members: members as u64,
        }
    }
}

impl<'f> Promise<Result<Share, Stop>> for Pledge<'f> {
    ghost kept_by = { λ p r. IfOk r (λ s. IsShare (asked p.pair.value p.every) p.words.value.table_id p.members s.seat s.verdicts.items) };
}

/// The members are halved, one half on a new thread and one here, down to one. Where a thread can't
/// be started, its half does not run, nor does this one.
#[cycle(members)]
fn work<
    's,
    E: 's,
    R: Threads + Wait + Sync + 's,
    D: Diagrams<R> + Send + Drop + 's,
    G: Gate<R> + Sync + 's,
>(
    scope: &'s Scope<'s, E>,
    comparison: &Comparison<'s, R, G>,
    group: Group<D>,
) -> Result<Share, Stop>
    requires seated { AreSeated D.holding comparison.now.pair.now comparison.now.words.now.table_id comparison.now.words.now.key group.seat group.worker group.members }
    requires task { IsSchedule comparison.now.pair.now comparison.now.task.now.schedule }
    ensures share { IfOk result (λ s. IsShare (asked comparison.now.pair.now comparison.now.task.now.schedule.every) comparison.now.words.now.table_id (vec_len group.members) s.seat s.verdicts.items) }
{
    if group.members.len() == 1 {
        return work_only(comparison, group);
    }
    let Comparison {
        rt,
        alloc,
        pair,
        task,
        words,
        gate,
    } = *comparison;
    let Ok((mine, theirs)) = halves(words, pair, group) else {
        return Err(task.patience.note(Stop::Memory));
    };
    let kept = Pledge::of(pair, words, task.schedule.every, theirs.members.len());
    let there = move || -> Result<Share, Stop>
        requires { IsSync R.row × IsSync G.row × IsSend D.row × IsSchedule pair.now task.now.schedule
            × AreSeated D.holding pair.now words.now.table_id words.now.key theirs.seat theirs.worker theirs.members }
        ensures { IfOk result (λ s. IsShare (asked pair.entry.now task.entry.now.schedule.every) words.entry.now.table_id (vec_len theirs.members) s.seat s.verdicts.items) }
    {
        work(
            scope,
            &Comparison {
                rt,
                alloc,
                pair,
                task,
                words,
                gate,
            },
            theirs,
        )
    };
    let Ok(child) = scope.spawn_with(kept, there) else {
        return Err(task.patience.note(Stop::Threads));
    };
    let mine = work(scope, comparison, mine);
    let theirs = child.join(rt);
    put_together(words, pair, task.schedule.every, mine?, theirs?)
}

/// Runs the members, each in a thread of its own, and waits for all of them.
pub(crate) fn work_together<
    R: Threads + Wait + Sync,
    D: Diagrams<R> + Send + Drop,
    G: Gate<R> + Sync,
>(comparison: &Comparison<'_, R, G>, group: Group<D>) -> Result<Share, Stop>
    requires seated { AreSeated D.holding comparison.now.pair.now comparison.now.words.now.table_id comparison.now.words.now.key group.seat group.worker group.members }
    requires task { IsSchedule comparison.now.pair.now comparison.now.task.now.schedule }
    ensures share { IfOk result (λ s. IsShare (asked comparison.now.pair.now comparison.now.task.now.schedule.every) comparison.now.words.now.table_id (vec_len group.members) s.seat s.verdicts.items) }
{
    scope(
        scope_env(),
        comparison.rt,
        move |scope| -> Result<Share, Stop>
            requires { IsSchedule comparison.now.pair.now comparison.now.task.now.schedule
                × AreSeated D.holding comparison.now.pair.now comparison.now.words.now.table_id comparison.now.words.now.key group.seat group.worker group.members }
            ensures { IfOk result (λ s. IsShare (asked comparison.entry.now.pair.now comparison.entry.now.task.now.schedule.every) comparison.entry.now.words.now.table_id (vec_len group.members) s.seat s.verdicts.items) }
        { work(scope, comparison, group) },
    )
}

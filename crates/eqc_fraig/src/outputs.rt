//! Outputs that are asked about once more, several of them side by side.
ghost use Rattle.std.specs.Prelude.{◌≡◌, ◌<◌, None, IsTrue, length, IfOk};
ghost use Rattle.std.specs.List.{All};
ghost use Rattle.eqc_sweep.specs.Team.{IsTwin};
ghost use Rattle.eqc_compare.specs.Alike.{IsKnown};
ghost use Rattle.eqc_compare.specs.Comparing.{difference_at};
ghost use Rattle.eqc_literals.specs.Literals.{IsInside, KeepsMarks};

use crate::inside::Inside;
use eqc_build::Steps;
use eqc_compare::{Alike, Progress, is_marked};
use eqc_literals::{literal_of, mark};
use eqc_sweep::{Sweep, Twins};
use eqc_xag::Literal;
use std::alloc::{AllocError, Global};
use std::thread::Threads;

/// So many outputs are asked about side by side. Together they may have half of the conflicts that
/// are left: those that want more are asked about one after the other then.
const SIDE_BY_SIDE: usize = 16;

/// Whether an output never differs, as these are its two literals.
fn is_shown(steps: &Steps<'_>, sweep: &Sweep, literals: &[Option<Literal>], twins: Twins) -> bool
    requires inside { IsInside steps.now sweep.now literals.now }
    requires output { twins.place < length steps.now.pair.first.outputs }
    requires equal { IsTwin sweep.now twins }
    ensures { IsTrue result → difference_at steps.now.pair twins.place ≡ None }
{
    let roots = steps.roots(twins.place);
    let Some(x) = literal_of(literals, roots[0]) else {
        return false;
    };
    let Some(y) = literal_of(literals, roots[1]) else {
        return false;
    };
    if x != twins.x || y != twins.y {
        return false;
    }
    true
}

/// Marks an output if it never differs, as these are its two literals. Whether it is.
fn mark_shown(
    steps: &Steps<'_>,
    sweep: &Sweep,
    literals: &[Option<Literal>],
    twins: Twins,
    alike: &mut Alike,
) -> bool
    requires inside { IsInside steps.now sweep.now literals.now }
    requires equal { IsTwin sweep.now twins }
    requires known { IsKnown steps.now.pair alike.old }
    ensures known { IsKnown steps.now.pair alike.new }
    ensures kept { KeepsMarks steps.now.pair alike.old.equal.items alike.new.equal.items }
{
    let outputs = steps.pair().first().outputs().len();
    if twins.place >= outputs || !is_shown(steps, sweep, literals, twins) {
        return false;
    }
    mark(alike, twins.place);
    true
}

/// Marks the outputs that never differ, as these are their literals. Answers how many there are,
/// and what it took to find that.
fn mark_all(
    steps: &Steps<'_>,
    sweep: &Sweep,
    literals: &[Option<Literal>],
    equal: &[Twins],
    alike: &mut Alike,
) -> (usize, u64)
    requires inside { IsInside steps.now sweep.now literals.now }
    requires equal { All (IsTwin sweep.now) equal.now }
    requires known { IsKnown steps.now.pair alike.old }
    ensures known { IsKnown steps.now.pair alike.new }
    ensures kept { KeepsMarks steps.now.pair alike.old.equal.items alike.new.equal.items }
{
    let mut count: usize = 0;
    let mut used: u64 = 0;
    for twins in equal {
        if mark_shown(steps, sweep, literals, *twins, alike) {
            count = count.saturating_add(1);
            used = used.saturating_add(twins.used);
        }
    }
    (count, used)
}

/// The pairs of outputs that aren't marked. Fails where memory is refused.
fn unmarked(alloc: Global, alike: &Alike, some: &[Twins]) -> Result<Vec<Twins>, AllocError> {
    let mut open = Vec::with_capacity(alloc, some.len())?;
    for twins in some {
        if !is_marked(&alike.equal, twins.place) {
            open.push(*twins)?;
        }
    }
    Ok(open)
}

impl<'a> Inside<'a> {
    /// The two literals of an output, where it has them, isn't known to be equal and not seen to
    /// differ.
    fn open_twins(&mut self, alike: &Alike, output: usize) -> Option<Twins>
        requires { output < length self.old.first.outputs }
        ensures { self.new ≡ self.old }
    {
        if is_marked(&alike.equal, output) || !self.steps.pair().is_chosen(output) {
            return None;
        }
        if self.is_seen_to_differ(output) {
            return None;
        }
        let roots = self.steps.roots(output);
        Some(Twins {
            place: output,
            x: literal_of(&self.literals, roots[0])?,
            y: literal_of(&self.literals, roots[1])?,
            used: 0,
        })
    }

    /// The next outputs that are asked about, from one on, and the output behind the last of these.
    /// The watch is told of each that is looked at. Fails where memory is refused.
    fn next_twins<R, P: Progress<R>>(
        &mut self,
        rt: &R,
        alloc: Global,
        alike: &Alike,
        from: usize,
        watch: &P,
    ) -> Result<(Vec<Twins>, usize), AllocError>
        ensures { self.new ≡ self.old }
    {
        let mut some = Vec::with_capacity(alloc, SIDE_BY_SIDE)?;
        let outputs = self.steps.pair().first().outputs().len();
        for output in from..outputs {
            if some.len() >= SIDE_BY_SIDE {
                return Ok((some, output));
            }
            watch.step(rt, output, outputs);
            if let Some(twins) = self.open_twins(alike, output) {
                some.push(twins)?;
            }
        }
        Ok((some, outputs))
    }

    /// Asks about some outputs side by side, with so many conflicts each, and marks those that are
    /// found equal. Answers how many these are, and what it took.
    fn ask_side_by_side<R: Threads + Sync>(
        &mut self,
        rt: &R,
        alike: &mut Alike,
        some: &[Twins],
        each: u64,
    ) -> (usize, u64)
        requires { IsKnown self.old alike.old }
        ensures pair { self.new ≡ self.old }
        ensures known { IsKnown self.new alike.new }
        ensures kept { KeepsMarks self.old alike.old.equal.items alike.new.equal.items }
    {
        // Where memory is refused nothing is known.
        let Ok(equal) = self.sweep.equal_among(rt, some, each) else {
            return (0, 0);
        };
        mark_all(&self.steps, &self.sweep, &self.literals, &equal, alike)
    }

    /// Asks about those of some outputs that aren't marked, one after the other, and marks those
    /// that are found equal. Whether there are any. The conflicts that it took are counted down.
    fn ask_in_turn<R: Threads + Sync>(
        &mut self,
        rt: &R,
        alloc: Global,
        alike: &mut Alike,
        some: &[Twins],
        conflicts: &mut u64,
    ) -> bool
        requires { IsKnown self.old alike.old }
        ensures pair { self.new ≡ self.old }
        ensures known { IsKnown self.new alike.new }
        ensures kept { KeepsMarks self.old alike.old.equal.items alike.new.equal.items }
    {
        // Where memory is refused nothing is known.
        let Ok(open) = unmarked(alloc, alike, some) else {
            return false;
        };
        let Ok(equal) = self.sweep.equal_in_turn(rt, &open, conflicts) else {
            return false;
        };
        let (count, _) = mark_all(&self.steps, &self.sweep, &self.literals, &equal, alike);
        count > 0
    }

    /// Asks about some outputs, first side by side and then one after the other, and marks those
    /// that are found equal. Whether there are any. The conflicts that it took are counted down.
    fn ask_some<R: Threads + Sync>(
        &mut self,
        rt: &R,
        alloc: Global,
        alike: &mut Alike,
        some: &[Twins],
        conflicts: &mut u64,
    ) -> bool
        requires { IsKnown self.old alike.old }
        ensures pair { self.new ≡ self.old }
        ensures known { IsKnown self.new alike.new }
        ensures kept { KeepsMarks self.old alike.old.equal.items alike.new.equal.items }
    {
        let each = *conflicts / 2 / SIDE_BY_SIDE as u64;
        let mut found = false;
        if each > 0 {
            let (count, used) = self.ask_side_by_side(rt, alike, some, each);
            *conflicts = conflicts.saturating_sub(used);
            found = count > 0;
        }
        found | self.ask_in_turn(rt, alloc, alike, some, conflicts)
    }

    /// Searches for differences of the chosen outputs that are not marked, with so many conflicts
    /// in all, and marks those for which there is none. Whether there are any: the others may be
    /// equal too. Several are asked about side by side by the threads of the last round; what is
    /// found doesn't depend on how many there are. The watch is told of each output.
    pub fn ask_outputs<R: Threads + Sync, P: Progress<R>>(
        &mut self,
        rt: &R,
        alloc: Global,
        alike: &mut Alike,
        conflicts: u64,
        watch: &P,
    ) -> bool
        requires { IsKnown self.old alike.old }
        ensures pair { self.new ≡ self.old }
        ensures known { IsKnown self.new alike.new }
        ensures kept { KeepsMarks self.old alike.old.equal.items alike.new.equal.items }
    {
        let mut left = conflicts;
        let mut found = false;
        let mut from = 0;
        let outputs = self.steps.pair().first().outputs().len();
        'turns: for _ in 0..outputs {
            // Where memory is refused nothing more is known.
            let Ok((some, next)) = self.next_twins(rt, alloc, alike, from, watch) else {
                return found;
            };
            if some.is_empty() {
                return found;
            }
            found |= self.ask_some(rt, alloc, alike, &some, &mut left);
            from = next;
        }
        found
    }
}

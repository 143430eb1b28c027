//! What a member does once it has nothing left to draw: it helps with the operations of others.
ghost use Rattle.eqc_tree.specs.Holding.{Keeps};
ghost use Rattle.eqc_parallel.specs.Ticket.{IsSeat};

use crate::task::Task;
use crate::ticket::{Drawer, Words, drawn};
use eqc_tree::{Diagrams, References};
use std::sync::Wait;

/// Helps with the next operation that another member offers, and says whether one came before too
/// many asks were in vain, all members had drawn their last, or one stopped. It is for the diagrams
/// to pause where something may come yet.
fn help_once<R, D: Diagrams<R>>(
    rt: &R,
    task: &Task<'_>,
    words: &Words,
    seat: &Drawer,
    diagrams: &mut D,
) -> bool
    requires own { IsSeat words.now.table_id seat.now }
    ensures kept { Keeps (D.holding diagrams.old) (D.holding diagrams.new) }
{
    for _ in 0..task.patience.asks() {
        // A member draws its last when it has compared all others, so then there is nobody who
        // could offer anything.
        if drawn(words, seat) >= task.draws || task.patience.has_stopped() {
            return false;
        }
        if diagrams.help(rt) {
            return true;
        }
    }
    false
}

/// Helps with operations that other members offer, until all have compared what they drew, one
/// stopped, or none has come for as long as members are patient. What is held is as before.
///
/// Nothing says how many come, so the call may wait: it returns once the others offer nothing more.
pub(crate) fn help_others<R: Wait, D: Diagrams<R>>(
    rt: &R,
    task: &Task<'_>,
    words: &Words,
    seat: &Drawer,
    diagrams: &mut D,
)
    requires own { IsSeat words.now.table_id seat.now }
    ensures kept { Keeps (D.holding diagrams.old) (D.holding diagrams.new) }
{
    for _ in rt.forever() {
        if !help_once(rt, task, words, seat, diagrams) {
            return;
        }
    }
    unreachable!()
}

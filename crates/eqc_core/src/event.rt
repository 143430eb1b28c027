//! One step of one worker.

/// One step of one worker: a load, a store, a swap, an add or a compare-and-exchange on one shared
/// word, or a split or join.
#[derive(Clone, Copy)]
pub struct Event {
    /// The number of the worker, counted from 0.
    pub worker: u32,
    /// What it does.
    pub step: Step,
}

/// The kinds of step.
#[derive(Clone, Copy)]
pub enum Step {
    /// Splits this number off, which was never active.
    Split(u32),
    /// Joins this worker: what it held and retired is then the joiner's.
    Join(u32),
    /// Stores to this announcement word of the worker, counted from 0, the result that was seen, or
    /// 0 to withdraw.
    Announce(u32, u32),
    /// Loads, for this announcement word, a cell.
    Look(u32, u32),
    /// Loads the cell again whose result this announcement word has.
    Recheck(u32),
    /// Adds 1 to this slot's count.
    Up(u32),
    /// Takes 1 from this slot's count.
    Down(u32),
    /// Swaps this cell for a word, or for 0.
    SwapCell(u32, u64),
    /// Loads the announcement word at the scan's position.
    ScanOne,
    /// Tries for this stripe's lock, and says whether it is won: then the stripe is in hand.
    Lock(u32, bool),
    /// Puts this stripe home, which is in hand.
    Unlock(u32),
    /// Tries for this slot, and says whether it is won: then it is the worker's draft.
    Claim(u32, bool),
    /// Gives the draft up.
    Unclaim,
    /// Writes the node of this variable, low child and high child into the draft.
    WriteNode(u16, u32, u32),
    /// Loads the node word of this slot, which is held.
    ReadNode(u32),
    /// Takes this slot of the stripe in hand back, whose count is 1.
    Reclaim(u32),
    /// Swaps this box for a word, or for 0.
    SwapBox(u32, u64),
    /// Loads this box.
    LookBox(u32),
}

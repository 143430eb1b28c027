//! The operation cache of the shared forest: results are found without a count until they are
//! wanted.
//!
//! A cell has an operation, its operands and its result, and may be swapped at any moment by any
//! worker. A lookup loads the cell first, and where that has another word nothing else happens.
//! Else it announces the result that it saw and looks again: where the cell is the same still, the
//! result cannot be taken back before it is counted up (Anderson, Blelloch and Wei 2021). A
//! snapshot does without the count: its result stays as long as it is announced. So who only
//! compares a result writes no word but one of its own. Nothing here takes memory or waits. Read
//! the modules in this order:
//!
//! - `key`, where an operation is kept; `finding`, the lookup; `storing`, what the cells keep
//! - `peeking`, with `specs/Peeking.antt`: snapshots, and what they promise. What calls leave of
//!   them is told by `KeepsSnapshots` of `eqc_guard`'s `specs/Snapshots.antt`
#![tactic(auto)]

pub mod finding;
mod key;
pub mod peeking;
pub mod storing;

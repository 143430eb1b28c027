//! Words of a pair that add up the same: of its outputs, and of signals inside of both netlists.
//!
//! What the words are made of enters graphs of their own, where `eqc_numbers` shows them equal.
//! Here that becomes outputs that never differ, and literals that steps of one value share
//! (`eqc_literals`). Which words there are is believed in nothing. Read the modules in this order:
//!
//! - `adding`, words of outputs that add up the same (`specs/Adding.antt`)
//! - `look`, which words are looked for beside that; `inner`, words inside that add up the same,
//!   and words of outputs that do so when they are made anew, or in each case
#![tactic(auto)]

mod adding;
mod inner;
mod look;

pub use adding::{MOST_NODES, Task, Turn, add_open, limits_in};
pub use inner::{Scope, shown_below};
pub use look::{Kind, Look};

//! What the tests of several crates need, and no crate below the tests: rows of cases, texts,
//! readers and writers that fail, and numbers that are the same in every run.
//!
//! - `rows`: a case is a row, which has a name, a text, and what is wanted. What ends a test stands
//!   in each crate of tests, in its `ends`, since only tests may end a process
//! - `texts`, texts in which `;` stands for LF; `line`, answers on one line
//! - `streams`, readers, writers, a disk and a terminal
//! - `chance`, numbers by chance
#![tactic(auto)]

mod chance;
mod line;
mod rows;
mod streams;
mod texts;

pub use chance::Chance;
pub use line::Line;
pub use rows::{Row, first_wrong};
pub use streams::{Disk, Drain, Endless, Feed, NEVER, Terminal};
pub use texts::{DIFFERENCE, EQUAL, PERMUTED, UNEQUAL, XOR, doubling, input_names, is_text, lines};

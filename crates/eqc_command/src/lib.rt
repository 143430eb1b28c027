//! The program over readers and writers: what its words ask for is run, and all that is written.
//! The words themselves stand in `eqc_words`, and those of warnings, explanations and progress in
//! `eqc_telling`; their calls are offered here too.
//!
//! Read the modules in this order:
//!
//! - `start`, the one call: all that the program does
//! - `source`, with `specs/Sources.antt`: where texts come from; `ending`, with `specs/Ends.antt`:
//!   what is told at the end, and the status
#![tactic(auto)]

mod ending;
mod source;
mod start;

pub use eqc_telling::{Explanation, Told, Watch, explanation_for};
pub use eqc_words::Request;
pub use start::program;

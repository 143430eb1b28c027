//! What is told of a run beside its report, in words: warnings, why there is no verdict, and how
//! far it is. Nothing here runs one.
//!
//! - `warning`, with `specs/Warnings.antt`: lines on models that others contain
//! - `explanation`: the words of `--explain`; those of `--locate`, signal by signal, stand in
//!   `eqc_diagnosis`
//! - `progress`: those of `--progress`
#![tactic(auto)]

mod explanation;
mod progress;
mod warning;

pub use explanation::{Explanation, explanation_for};
pub use progress::{Told, Watch};
pub use warning::warn;

//! What the tests of several crates need of pairs.
//!
//! - `answers`, what the calls below a run answer on the first two models of a text
//! - `reports`, the words of a report
#![tactic(auto)]

mod answers;
mod reports;

pub use answers::{Ask, is_ordered_answer};
pub use reports::report_word;

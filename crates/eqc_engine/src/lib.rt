//! What decides a pair: the stages of a run, one after the other, and the calls that make diagrams
//! alone. What makes a pair stands in `eqc_pair`, what a stage does in `eqc_compare`, `eqc_parallel`
//! and `eqc_fraig`, and what the answer is in `eqc_report`.
//!
//! What the report has to be is said in `specs/Report.antt` and `specs/PairReport.antt` of
//! `eqc_report`. Read the modules in this order:
//!
//! - `course`, `known_by_structure` and `decide_pair`: the stages of a run in their order, of which
//!   `sweeping` has the rounds of sweeping, and `words` what words add up to
//! - `workers`, diagrams in rooms, by one thread and by several, of a run and of pairs without one;
//!   `watched`, how those of a run tell of their nodes; `begun`, how far one came; `plain`, a
//!   pair's report by one thread
#![tactic(auto, using(eqc_tree::proofs::HoldingLemmas::counts_itself))]

mod begun;
mod course;
mod plain;
mod sweeping;
mod watched;
mod words;
mod workers;

pub use course::{decide_pair, known_by_structure};
pub use plain::check_plain;
pub use workers::{Comparison, check, check_with};

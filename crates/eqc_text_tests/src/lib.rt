//! The tests of what a text means: its models, and what is told of one that is refused.
//!
//! - `reading` and `text_findings`, of `eqc_blif`
//! - `ends`, what ends a test
#![tactic(auto)]

#[cfg(test)]
mod ends;
#[cfg(test)]
mod reading;
#[cfg(test)]
mod text_findings;

//! The tests of what hierarchies mean: flat netlists, pairs of them, and what is told of those that
//! are refused.
//!
//! - `hierarchies`, `random_hierarchies` and `explanations`, of `eqc_flat` and what it stands on
//! - `pair_findings`, of `eqc_pair`
//! - `messages`, of the errors of all of them, and of the reader's
//! - `ends`, what ends a test
#![tactic(auto)]

#[cfg(test)]
mod ends;
#[cfg(test)]
mod explanations;
#[cfg(test)]
mod hierarchies;
#[cfg(test)]
mod messages;
#[cfg(test)]
mod pair_findings;
#[cfg(test)]
mod random_hierarchies;

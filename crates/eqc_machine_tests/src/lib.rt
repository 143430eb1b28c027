//! The tests of the machine under diagrams that threads share: its words, its operations and its
//! steps.
//!
//! - `words` and `operations`, of `eqc_tree`; `machine`, of `eqc_core`
//! - `ends`, what ends a test
#![tactic(auto)]

#[cfg(test)]
mod ends;
#[cfg(test)]
mod machine;
#[cfg(test)]
mod operations;
#[cfg(test)]
mod words;

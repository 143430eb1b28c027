//! The tests of diagrams, on one thread, and by appliers of one forest in threads of their own.
//!
//! - `diagrams`, of `eqc_plain`; `appliers`, of `eqc_apply`
//! - `ends`, what ends a test
#![tactic(auto)]

#[cfg(test)]
mod appliers;
#[cfg(test)]
mod diagrams;
#[cfg(test)]
mod ends;

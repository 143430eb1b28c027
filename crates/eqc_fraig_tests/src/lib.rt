//! The tests of what is asked inside of netlists: graphs, clauses that hints show, searches, graphs
//! in which equal nodes are one, and least assignments of literals.
//!
//! - `graphs`, of `eqc_xag`, and the graphs that the others ask about; `clauses`, of
//!   `eqc_rup`; `questions`, of `eqc_cdcl`; `sweeps`, of `eqc_sweep`, and `teams`, the same by
//!   several threads; `witnesses`, least assignments, of `eqc_witness`
//! - `ends`, what ends a test
#![tactic(auto)]

#[cfg(test)]
mod clauses;
#[cfg(test)]
mod ends;
#[cfg(test)]
mod graphs;
#[cfg(test)]
mod questions;
#[cfg(test)]
mod sweeps;
#[cfg(test)]
mod teams;
#[cfg(test)]
mod witnesses;

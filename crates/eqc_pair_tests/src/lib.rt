//! The tests of pairs by the calls below a run, on one thread.
//!
//! - `pairs`, one output, least assignments and reports
//! - `covers`, how many nodes these take, and their truth tables; `instances`, instances of one
//!   cover
#![tactic(auto)]

#[cfg(test)]
mod covers;
#[cfg(test)]
mod ends;
#[cfg(test)]
mod instances;
#[cfg(test)]
mod pairs;

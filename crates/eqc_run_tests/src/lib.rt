//! The tests of runs: from texts to the bytes of a report.
//!
//! - `runs`, options, order texts, one text and two
//! - `assumptions`, runs in which not every assignment counts, each difference is wanted or outputs
//!   are chosen
//! - `compared_hierarchies`, `structures`, `inside` and `products`, what is reported of netlists;
//!   `rows`, what compares rows of these
//! - `watching`, what a run tells of how far it is
//! - `teams`, threads that sweep or search; `many_workers`, very many threads that compare outputs
#![tactic(auto)]

#[cfg(test)]
mod assumptions;
#[cfg(test)]
mod compared_hierarchies;
#[cfg(test)]
mod ends;
#[cfg(test)]
mod inside;
#[cfg(test)]
mod many_workers;
#[cfg(test)]
mod products;
#[cfg(test)]
mod rows;
#[cfg(test)]
mod runs;
#[cfg(test)]
mod structures;
#[cfg(test)]
mod teams;
#[cfg(test)]
mod watching;

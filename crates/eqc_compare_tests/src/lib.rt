//! The tests of comparisons of pairs by members and workers, with what they hold meanwhile.
//!
//! - `assumptions`, pairs under one
//! - `workers`, by several in threads of their own; `parities` and `comparators`, how many nodes
//!   they take
//! - `long_chains`, very many covers that stand one behind the other
#![tactic(auto)]

#[cfg(test)]
mod assumptions;
#[cfg(test)]
mod comparators;
#[cfg(test)]
mod ends;
#[cfg(test)]
mod long_chains;
#[cfg(test)]
mod parities;
#[cfg(test)]
mod workers;

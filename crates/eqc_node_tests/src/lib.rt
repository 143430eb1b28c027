//! The tests of the nodes of the store that threads share.
//!
//! - `arenas` and `random_nodes`, of `eqc_arena`; `snapshots`, of what the cache's snapshots leave
//!   of nodes
//! - `makers`, what makes its calls, and `peekers`, where snapshots are out; `ends`, what ends a
//!   test
#![tactic(auto)]

#[cfg(test)]
mod arenas;
#[cfg(test)]
mod ends;
#[cfg(test)]
mod makers;
#[cfg(test)]
mod peekers;
#[cfg(test)]
mod random_nodes;
#[cfg(test)]
mod snapshots;

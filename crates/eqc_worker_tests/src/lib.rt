//! The tests of workers of the store that threads share, and of its operation cache.
//!
//! - `forests`, of `eqc_guard`; `cached_results`, of `eqc_cache`; `random_steps`, of both, which
//!   are compared with the machine of `eqc_core`
//! - `drivers`, what takes a worker's steps; `ends`, what ends a test
#![tactic(auto)]

#[cfg(test)]
mod cached_results;
#[cfg(test)]
mod drivers;
#[cfg(test)]
mod ends;
#[cfg(test)]
mod forests;
#[cfg(test)]
mod random_steps;

//! The shared forest as decision diagrams: `Applier`, an implementation of `eqc_tree`'s traits over
//! a worker.
//!
//! A worker holds each node that it names once, and counts its own references by itself. So a
//! reference, a copy and an operation on what it names cost no step on a word that others see; only
//! a node that is made, or met for the first time, does. Read the modules in this order:
//!
//! - `held`, what a worker holds: its counts, cofactors and nodes; `reference`, what is handed out
//! - `applier`, with the results that a worker keeps for itself; `expansion` and `apply`, the loop;
//!   `parts`, with which part of an operation a worker begins
//! - `allowance`, how long operations may go on; `shared`, the operation cache that all workers
//!   share; `cached`, whether a result that it has is a given function, asked without a count
//! - `boxes` and `forking`, in which one half of an operation is offered to other workers;
//!   `serving`, which do it
//! - `least`, the least assignment, found on a `plain_copy` of a diagram
//! - `diagrams`, the calls of the traits; `members`, the appliers of a new forest
//! - `joining`, one applier takes another one in; `closing`, the last one closes the forest
#![tactic(auto)]

mod allowance;
mod applier;
mod apply;
mod boxes;
mod cached;
mod closing;
mod diagrams;
mod expansion;
mod forking;
mod held;
mod joining;
mod least;
mod members;
mod parts;
mod plain_copy;
mod reference;
mod serving;
mod shared;

pub use allowance::Allowance;
pub use applier::Applier;
pub use members::{team, team_with};
pub use reference::Ref;

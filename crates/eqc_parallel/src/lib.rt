//! Parallel decision diagrams: what the comparison of a pair finds, by several members in threads
//! of their own: each output is drawn once, over any store of diagrams.
//!
//! What has to be found is said in `eqc_compare`, what members find in `specs/Verdicts.antt`. Read
//! the modules in this order:
//!
//! - `members`, all outputs by several members, and `request`, what is asked of them: `share`,
//!   members in threads and what they give back; `comparison`, what they share; `group`, members
//!   that share a seat; `verdict`, all of it put in order
//! - `ticket`, the word from which outputs are drawn; `task`, what members do; `member`, what a
//!   member compares with; `help`, what it does for others, and `patience`, for how long
#![tactic(auto, using(eqc_tree::proofs::HoldingLemmas::counts_itself))]

mod comparison;
mod group;
mod help;
mod member;
mod members;
mod patience;
mod request;
mod share;
mod task;
mod ticket;
mod verdict;

pub use members::compare_by_members;
pub use patience::Patience;
pub use request::Request;

//! Pairs: two flat netlists whose inputs and outputs are matched by name, with an order of the
//! inputs as variables, the outputs that are chosen and an assumption, where they are given; or
//! what they are refused for.
//!
//! What makes a pair is said in `specs/Matched.antt` and `specs/PairOf.antt`, and what a refusal is
//! about in `specs/Finding.antt`. Read the modules in this order:
//!
//! - `pairing`, the call; `matched_pair`, the pair that it gives; `assuming`, a pair under an
//!   assumption; `refused` and `rule`, why there is none
//! - `name_index`, where names stand among others; `order`, order texts; `places`, the step of each
//!   signal
//! - `explanation`, what is at fault, as a `finding`, by names that others lack, `unmatched`
#![tactic(auto)]

mod assuming;
mod explanation;
mod finding;
mod matched_pair;
mod name_index;
mod order;
mod pairing;
mod places;
mod refused;
mod rule;
mod unmatched;

pub use assuming::pair_assuming;
pub use explanation::{explain_assumption, explain_pair};
pub use finding::Finding;
pub use matched_pair::{Pair, recall_laws};
pub use pairing::{pair, pair_choosing};
pub use refused::{Refused, Side};
pub use rule::{PAIR_RULES, Rule};
pub use unmatched::Unmatched;

//! The chosen outputs of a pair that differ, or the first of them, each with the least allowed
//! assignment that shows it: over any store of diagrams, one output after the other.
//!
//! What has to be found is said in `specs/Verdict.antt` and `specs/Comparing.antt`. Read the
//! modules in this order:
//!
//! - `outcome`, what a comparison finds; `laws`, facts about the definitions, as functions without
//!   a body
//! - `schedule`, which outputs are compared; `compare`, one output, and all of them; `allowing`,
//!   whether the assumption allows none; `least`, the least assignment of a pair's inputs
//! - `alike`, what is known of a pair, and what structures tell of it; `gate`, what is told of a
//!   comparison while it runs
#![tactic(auto, using(eqc_tree::proofs::HoldingLemmas::counts_itself))]

mod alike;
mod allowing;
mod compare;
mod gate;
mod laws;
mod least;
mod outcome;
mod schedule;

pub use alike::{Alike, alike_or_nothing, is_marked, is_settled};
pub use allowing::allows_none;
pub use compare::{compare_kept, compare_known, compare_output, compare_outputs};
pub use gate::{Gate, NoGate, Progress, Stage};
pub use laws::{
    difference_is_of_values, differences_are_each, first_alone_is_first_difference,
    first_difference_is_first, first_difference_is_none_where_equal, inputs_are_matched_by_name,
    least_difference_is_least, least_difference_is_none_where_equal, least_difference_is_unique,
    vacuous_where_none_is_allowed,
};
pub use least::least_assignment;
pub use outcome::{Difference, Outcome, known_outcome};
pub use schedule::Schedule;

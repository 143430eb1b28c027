//! The least assignment under which a literal of a graph is true, found without diagrams.
//!
//! A search is asked for an assignment, and then, for each position that is true in it, for one
//! with the same values before and false there. Nothing that it finds is believed: an assignment
//! counts where the graph's value under it is true, and a position stays true where it is refuted
//! that it can be false. Read the modules in this order:
//!
//! - `witness`, what is found, with `specs/Witnesses.antt`
//! - `least`, the public call, position by position; `target`, what it is asked; `completion`, an
//!   assignment that begins with given values
//! - `trials`, assignments that are tried before the search is asked, by `simulation`; `shown`,
//!   literals that are seen true by it
//! - `cone`, the graph below the literal, over positions; `below`, what belongs to it; `copying`,
//!   its nodes; `evaluation`, its value. What they promise stands in `specs/Cones.antt`
//!
//! `proofs/WitnessLemmas.antt` has what proofs above need besides the contract: `found_as`, that
//! what is found of a test holds of each that agrees with it.
#![tactic(auto)]

mod below;
mod completion;
mod cone;
mod copying;
mod evaluation;
mod least;
mod shown;
mod simulation;
mod target;
mod trials;
mod witness;

pub use least::least_witness;
pub use shown::{first_shown, words_shown};
pub use target::{Hints, Target};
pub use trials::EARLIER;
pub use witness::Witness;

//! Diagrams of the signals of a pair that its outputs depend on, for any store of diagrams: each is
//! built once, kept while a later output needs it, itself or for a step that wasn't built, and
//! given back after its last use.
//!
//! `StepDiagrams` has them: a plan of what is to be compared says what is built, `complete` builds
//! it for an output's goals, and `get` lends it. When a table of diagrams is right is said in
//! `specs/Building.antt`, and what comparing the outputs in turn asks of it and leaves in
//! `specs/Turns.antt`. Read the modules in this order:
//!
//! - `step_diagrams`, what stays from one output to the next; `building`, the diagrams of some
//!   steps; `plan`, what they are built by
//! - `steps`, both netlists and the assumption in one row, and what makes each value;
//!   `cover_tables`, tables of covers with many rows, `wide_covers`, such covers of many columns as
//!   splits; `goals`, the steps that are needed together; `wanted`, those that are still needed for
//!   them
//! - `schedule`, when each step is used for the last time, where all outputs are compared; `cone`,
//!   where some steps are made alone; `moments`, how that is noted; `demand`, what outputs need
//!   each step for, and whether that is done
//! - `table`, the references of steps
#![tactic(auto, using(eqc_tree::proofs::HoldingLemmas::counts_itself))]

mod building;
mod cone;
mod cover_tables;
mod demand;
mod goals;
mod moments;
mod plan;
mod schedule;
mod step_diagrams;
mod steps;
mod table;
mod wanted;
mod wide_covers;

pub use goals::Goals;
pub use plan::{Plan, plan_below, plan_of};
pub use step_diagrams::StepDiagrams;
pub use steps::{StepDriver, Steps, Uses};

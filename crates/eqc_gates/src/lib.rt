//! The steps of a pair of netlists as literals of a graph: each step gets a literal whose value is
//! the step's.
//!
//! Read the modules in this order:
//!
//! - `steps`, the literals of steps in their order; `marks`, which steps are needed; `amount`, none
//!   of them where they are too much. What they say of a pair stands in `specs/Entering.antt`
//! - `cover`, the literal of a cover, by its table or by its rows; lists of literals stand in
//!   `specs/Literals.antt`
//! - `expansion`, the literal of a table of `eqc_cover`; `gate`, literals made of literals: or,
//!   multiplexer, conjunction
#![tactic(auto)]

mod amount;
mod cover;
mod expansion;
mod gate;
mod marks;
mod steps;

pub use amount::needed_within;
pub use cover::cover_literal;
pub use marks::needed;
pub use steps::literals;

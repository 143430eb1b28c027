//! The place of a difference: signals of two netlists at which one of their outputs begins to
//! differ. And up to where two netlists are known to be equal.
//!
//! What is told of a place, and of signals that are equal, is said in `specs/Places.antt`. Nothing
//! is promised of which signals are told: that is found by simulation. Read the modules in this
//! order:
//!
//! - `locating`, the call; `place`, what it tells; `partner`, which signals are proved equal, and
//!   `allowed`, which are where an assumption holds
//! - `told`, the values of all signals under one assignment, and `words`, those under many, of
//!   which nothing is believed, by `covers`
//! - `trial`, in which order signals are told of one output: by `sensitised`, signals on ways from
//!   it back; by `turning`, what comes of a signal with the opposite value, over its `users`; by
//!   `ranking`; and `mending`, signals that have the wanted values
//! - `lanes`, which of many outputs may begin to differ at one place
//! - `border`, the nearest signals below outputs that have partners
//! - `known`, signals that the other netlist has, and `depths`, how high they stand
#![tactic(auto)]

mod allowed;
mod border;
mod covers;
mod depths;
mod known;
mod lanes;
mod locating;
mod mending;
mod partner;
mod place;
mod ranking;
mod sensitised;
mod told;
mod trial;
mod turning;
mod users;
mod words;

pub use lanes::Lanes;
pub use locating::Locator;
pub use place::{Border, Column, Meeting, Mending, Partner, Place, Places};

//! What is told of two netlists signal by signal: where an output may begin to differ, and up to
//! where they are known to be equal. Places and borders are found by `eqc_place`; here are the
//! words for them. Nothing here knows why it is told, nor what a run is given.
//!
//! Read the modules in this order:
//!
//! - `lines`, what is told, one line behind another, and `shown`, names in it
//! - `signal`, a signal by its name and by where it stands in its design, and `statement`, at which
//!   line of a text its cover does
//! - `places`, the lines of `--locate`, and in short those of `--explain`; `border`, up to where
//!   netlists are known to be equal
#![tactic(auto)]

mod border;
mod lines;
mod places;
mod shown;
mod signal;
mod statement;

pub use border::say_border;
pub use lines::Lines;
pub use places::{say_briefly, say_places, say_sharing, say_unplaced};
pub use shown::{LISTED, Shown, Whole};
pub use signal::{Design, Designs};

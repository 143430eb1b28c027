//! What tests of several threads need: how many of these there are.
//!
//! - `lookout`, how many threads there are while something is done
#![tactic(auto)]

mod lookout;

pub use lookout::{Census, Lookout};

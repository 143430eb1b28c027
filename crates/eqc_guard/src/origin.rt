//! How a forest begins.

use eqc_core::Sizes;

/// How a forest begins: its sizes, and for how many variables the literal has a slot that worker 0
/// holds.
#[derive(Clone, Copy)]
pub struct Origin {
    /// How many words of each kind there are.
    pub sizes: Sizes,
    /// How many variables have their literal from the beginning.
    pub literals: u32,
}

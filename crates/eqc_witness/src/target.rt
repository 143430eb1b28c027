//! What a witness is looked for, and the assignments that are tried first.
use eqc_xag::Literal;

/// A literal that is to be true, and the variables over which its least assignment is looked for.
#[derive(Clone, Copy)]
pub struct Target<'a> {
    /// The literal.
    pub literal: Literal,
    /// The variable of each position. Where one stands twice, its first position counts.
    pub variables: &'a [u16],
}

/// Assignments that are tried first. The less these are, the sooner the least one is found; nothing
/// is promised of them.
#[derive(Clone, Copy)]
pub struct Hints<'a> {
    /// Variables and their values in an assignment. What isn't there is false.
    pub seen: &'a [(u32, bool)],
    /// Further assignments, as values of the positions: those of literals like this one, the
    /// nearest last.
    pub earlier: &'a [Vec<bool>],
}

//! Terms of linear forms.
use eqc_xag::Literal;

/// A literal with a factor.
#[derive(Clone, Copy, PartialEq, Eq, Debug)]
pub struct Term {
    pub literal: Literal,
    /// Modulo 2^128.
    pub factor: u128,
}

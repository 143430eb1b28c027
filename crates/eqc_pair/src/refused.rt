//! Refusals in a comparison: the side that is refused, the line in its text, and the code of the
//! rule.
ghost use Rattle.std.specs.Prelude.{◌≡◌};
ghost use Rattle.eqc_pair.specs.Side.{side_word};

use crate::rule::reason_of;
use thiserror::Error;

/// Which text, or what else of a run, was refused.
#[derive(Clone, Copy, Debug, PartialEq, Eq)]
pub enum Side {
    First,
    Second,
    Pair,
    Order,
    Assume,
    Options,
}

/// A refusal: the line of the text, 0 where there is none, and the number of the rule.
#[derive(Clone, Copy, Debug, PartialEq, Eq, Error)]
#[error("{}: {} (line {line}, code {code})", .side.word(), reason_of(.code))]
pub struct Refused {
    pub side: Side,
    pub line: u32,
    pub code: u8,
}

impl Side {
    /// The word of a report.
    pub fn word(self) -> &'static str
        ensures { result.now ≡ side_word self }
    {
        match self {
            Side::First => "first",
            Side::Second => "second",
            Side::Pair => "pair",
            Side::Order => "order",
            Side::Assume => "assume",
            Side::Options => "options",
        }
    }
}

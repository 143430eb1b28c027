//! The rules of reading, with their codes and their words.
ghost use Rattle.std.specs.Prelude.{◌≡◌};
ghost use Rattle.eqc_netlist.specs.TextRule.{rule_code};

use thiserror::Error;

/// What a text is refused for (`docs/blif.md`).
#[derive(Clone, Copy, Debug, PartialEq, Eq, Error)]
pub enum Rule {
    #[error("a byte below 32 other than tab, or 127")]
    ControlByte,
    #[error("a text of over 16777216 bytes")]
    TextTooLong,
    #[error("an unknown command")]
    UnknownCommand,
    #[error("a latch")]
    Latch,
    #[error("after .end, a line other than .model")]
    BehindEnd,
    #[error("a row that doesn't follow .names")]
    RowOutsideCover,
    #[error("a row of another shape than its cover's columns want")]
    RowShape,
    #[error("a row whose output differs from that of the cover's first row")]
    RowOutput,
    #[error("a pair without =, or with an empty name on one side")]
    NoPair,
    #[error(".names or .subckt without a word")]
    NoWord,
    #[error("a model name used before")]
    ModelTwice,
    #[error("a name twice in one model's inputs, or twice in its outputs")]
    NameTwice,
    #[error("no statement, or no model of the name or at the place that is wanted")]
    NoModel,
    #[error("memory was refused")]
    Memory,
}

/// The rules of which a text can break one, in the order of their codes.
pub const RULES: [Rule; 13] = [
    Rule::ControlByte,
    Rule::TextTooLong,
    Rule::UnknownCommand,
    Rule::Latch,
    Rule::BehindEnd,
    Rule::RowOutsideCover,
    Rule::RowShape,
    Rule::RowOutput,
    Rule::NoPair,
    Rule::NoWord,
    Rule::ModelTwice,
    Rule::NameTwice,
    Rule::NoModel,
];

impl Rule {
    /// The number that a report shows: 1 to 13 in the order of the variants, 72 for memory that was
    /// refused.
    pub fn code(self) -> u8
        ensures { result ≡ rule_code self }
    {
        match self {
            Rule::ControlByte => 1,
            Rule::TextTooLong => 2,
            Rule::UnknownCommand => 3,
            Rule::Latch => 4,
            Rule::BehindEnd => 5,
            Rule::RowOutsideCover => 6,
            Rule::RowShape => 7,
            Rule::RowOutput => 8,
            Rule::NoPair => 9,
            Rule::NoWord => 10,
            Rule::ModelTwice => 11,
            Rule::NameTwice => 12,
            Rule::NoModel => 13,
            Rule::Memory => 72,
        }
    }
}

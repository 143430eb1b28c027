//! The rules of hierarchies, with their codes and their words.
ghost use Rattle.std.specs.Prelude.{◌≡◌};
ghost use Rattle.eqc_netlist.specs.Rule.{rule_code};

use thiserror::Error;

/// What a hierarchy is refused for (`docs/hierarchy.md`).
#[derive(Clone, Copy, Debug, PartialEq, Eq, Error)]
pub enum Rule {
    #[error("an instance of a model that isn't in the text")]
    NoSuchModel,
    #[error("a model that contains itself")]
    Recursion,
    #[error("a pair for a name that is no input or output of the instance's model")]
    UnknownFormal,
    #[error("a name twice in one instance's pairs")]
    FormalTwice,
    #[error("an input of an instance without a pair")]
    MissingInput,
    #[error("a signal with two drivers")]
    DrivenTwice,
    #[error("a signal without a driver")]
    Undriven,
    #[error("a signal that depends on itself")]
    Circle,
    #[error("over 1048576 signals and instances")]
    TooLarge,
    #[error("more inputs than are allowed")]
    ManyInputs,
    #[error("memory was refused")]
    Memory,
}

/// The rules of which a hierarchy can break one, in the order of their codes.
pub const RULES: [Rule; 10] = [
    Rule::NoSuchModel,
    Rule::Recursion,
    Rule::UnknownFormal,
    Rule::FormalTwice,
    Rule::MissingInput,
    Rule::DrivenTwice,
    Rule::Undriven,
    Rule::Circle,
    Rule::TooLarge,
    Rule::ManyInputs,
];

impl Rule {
    /// The number that a report shows: 21 to 30 in the order of the variants, 72 for memory that
    /// was refused.
    pub fn code(self) -> u8
        ensures { result ≡ rule_code self }
    {
        match self {
            Rule::NoSuchModel => 21,
            Rule::Recursion => 22,
            Rule::UnknownFormal => 23,
            Rule::FormalTwice => 24,
            Rule::MissingInput => 25,
            Rule::DrivenTwice => 26,
            Rule::Undriven => 27,
            Rule::Circle => 28,
            Rule::TooLarge => 29,
            Rule::ManyInputs => 30,
            Rule::Memory => 72,
        }
    }
}

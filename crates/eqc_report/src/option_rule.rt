//! The rules of options, with their codes and their words.
ghost use Rattle.std.specs.Prelude.{◌≡◌};
ghost use Rattle.eqc_report.specs.OptionRule.{option_rule_code};

use thiserror::Error;

/// What options are refused for (`docs/report.md`).
#[derive(Clone, Copy, Debug, PartialEq, Eq, Error)]
pub enum OptionRule {
    #[error("workers are from 1 to 64")]
    Workers,
    #[error("nodes are from 1 to 1048574")]
    Nodes,
    #[error("cells are a power of two from 1 to 1048576")]
    Cells,
    #[error("forks are from 0 to 16")]
    Forks,
    #[error("inputs are from 0 to 65535")]
    Inputs,
    #[error("bytes are from 0 to 2147483647")]
    Bytes,
}

/// The rules of options, in the order of their codes.
pub const OPTION_RULES: [OptionRule; 6] = [
    OptionRule::Workers,
    OptionRule::Nodes,
    OptionRule::Cells,
    OptionRule::Forks,
    OptionRule::Inputs,
    OptionRule::Bytes,
];

impl OptionRule {
    /// The number that a report shows: 81 to 86, in the order of the variants.
    pub fn code(self) -> u8
        ensures { result ≡ option_rule_code self }
    {
        match self {
            OptionRule::Workers => 81,
            OptionRule::Nodes => 82,
            OptionRule::Cells => 83,
            OptionRule::Forks => 84,
            OptionRule::Inputs => 85,
            OptionRule::Bytes => 86,
        }
    }
}

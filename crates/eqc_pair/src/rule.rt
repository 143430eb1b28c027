//! The rules of a pair, of an order text and of an assumption, with their codes and their words.
ghost use Rattle.std.specs.Prelude.{◌≡◌};
ghost use Rattle.eqc_pair.specs.Rule.{rule_code};

use thiserror::Error;

/// What two netlists are refused for as a pair, or what an order text or an assumption is
/// (`docs/report.md`).
#[derive(Clone, Copy, Debug, PartialEq, Eq, Error)]
pub enum Rule {
    #[error("the two netlists have different inputs")]
    OtherInputs,
    #[error("the two netlists have different outputs")]
    OtherOutputs,
    #[error("a chosen output that is none")]
    UnknownOutput,
    #[error("a word of the order text that is no input")]
    UnknownWord,
    #[error("a word twice in the order text")]
    WordTwice,
    #[error("an input that the order text leaves out")]
    InputLeftOut,
    #[error("the assumption has an input that the netlists lack")]
    AssumeInputs,
    #[error("the assumption hasn't exactly one output")]
    AssumeOutput,
}

/// The rules of a pair, of an order text and of an assumption, in the order of their codes.
pub const PAIR_RULES: [Rule; 8] = [
    Rule::OtherInputs,
    Rule::OtherOutputs,
    Rule::UnknownOutput,
    Rule::UnknownWord,
    Rule::WordTwice,
    Rule::InputLeftOut,
    Rule::AssumeInputs,
    Rule::AssumeOutput,
];

impl Rule {
    /// The number that a report shows: 41 to 43 for the pair, 51 to 53 for the order text, 61 and
    /// 62 for the assumption, in the order of the variants.
    pub fn code(self) -> u8
        ensures { result ≡ rule_code self }
    {
        match self {
            Rule::OtherInputs => 41,
            Rule::OtherOutputs => 42,
            Rule::UnknownOutput => 43,
            Rule::UnknownWord => 51,
            Rule::WordTwice => 52,
            Rule::InputLeftOut => 53,
            Rule::AssumeInputs => 61,
            Rule::AssumeOutput => 62,
        }
    }
}

/// What a refusal is for: a text, a hierarchy, what is asked of both together, or what the caller
/// refuses by a number of its own, as options.
#[derive(Clone, Copy, Debug, PartialEq, Eq, Error)]
pub(crate) enum Reason {
    #[error(transparent)]
    Text(eqc_netlist::text_rule::Rule),
    #[error(transparent)]
    Hierarchy(eqc_netlist::Rule),
    #[error(transparent)]
    Both(Rule),
    #[error("out of its range")]
    Other,
}

/// The reason of a code of a refusal.
pub(crate) fn reason_of(code: &u8) -> Reason {
    for rule in &eqc_netlist::text_rule::RULES {
        if rule.code() == *code {
            return Reason::Text(*rule);
        }
    }
    for rule in &eqc_netlist::RULES {
        if rule.code() == *code {
            return Reason::Hierarchy(*rule);
        }
    }
    for rule in &PAIR_RULES {
        if rule.code() == *code {
            return Reason::Both(*rule);
        }
    }
    Reason::Other
}

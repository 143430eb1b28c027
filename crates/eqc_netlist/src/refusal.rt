//! Why a text is refused: the number of the line and the code of its first fault, by the rule that
//! it breaks.

use crate::text_rule::{RULES, Rule};
use std::alloc::AllocError;
use thiserror::Error;

/// Why a text was refused: the number of the line, from 1, and the code of its fault
/// (`docs/blif.md`). Line 0 stands where the fault has no line: 2 for a text that is too long, 13
/// for a text without a statement, 72 for memory that was refused.
#[derive(Debug, Clone, Copy, PartialEq, Eq, Error)]
#[error("{} (line {line}, code {code})", rule_of(.code))]
pub struct Refusal {
    pub line: u32,
    pub code: u8,
}

/// The rule of a code of a refusal.
fn rule_of(code: &u8) -> Rule {
    let found = RULES.iter().copied().find(|rule| rule.code() == *code);
    found.unwrap_or(Rule::Memory)
}

impl Rule {
    ghost use Rattle.std.specs.Prelude.{◌≡◌};
    ghost use Rattle.eqc_netlist.specs.TextRule.{rule_code};

    /// The refusal by this rule, of no line.
    pub fn without_line(self) -> Refusal
        ensures { result ≡ record { line = 0; code = rule_code self } }
    {
        Refusal {
            line: 0,
            code: self.code(),
        }
    }
}

impl Refusal {
    ghost use Rattle.std.specs.Prelude.{◌≡◌, ◌↔◌, IsTrue};

    /// Whether memory was refused, which is no fault of the text.
    pub fn is_memory(&self) -> bool
        ensures { IsTrue result ↔ (self.now.code ≡ 72) }
    {
        self.code == Rule::Memory.code()
    }
}

impl From<AllocError> for Refusal {
    ghost use Rattle.std.specs.Prelude.{◌≡◌};

    ghost from_gives = { λ _ e. e ≡ record { line = 0; code = 72 } };

    fn from(_: AllocError) -> Refusal {
        Rule::Memory.without_line()
    }
}

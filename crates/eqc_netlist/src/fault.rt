//! Why a netlist is refused, or could not be evaluated: the code of its hierarchy's first fault, or
//! want of memory.
ghost use Rattle.std.specs.Prelude.{◌≡◌, nat_eq, position};
ghost use Rattle.eqc_netlist.specs.Rule.{rule_code};

use crate::rule::{RULES, Rule};
use std::alloc::AllocError;
use thiserror::Error;

/// Why a netlist is refused, or why its values could not be had: 21 to 30 for the first fault of
/// the hierarchy below its main model, 72 for memory that was refused.
#[derive(Debug, Clone, Copy, PartialEq, Eq, Error)]
#[error("{} (code {code})", rule_of(.code))]
pub struct Fault {
    pub code: u8,
}

/// Why one of two models of a library has no flat netlist: the first one's fault where it has one,
/// whatever the second.
#[derive(Debug, Clone, Copy, PartialEq, Eq)]
pub enum FaultOfTwo {
    First(Fault),
    Second(Fault),
}

/// Where a rule of a code first stands among these.
fn place_of(rules: &[Rule], code: u8) -> Option<usize>
    ensures { result ≡ position (λ rule. nat_eq (rule_code rule) code) rules.now }
{
    rules.iter().position(|rule| rule.code() == code)
}

/// The rule of a code of a fault.
fn rule_of(code: &u8) -> Rule
    ensures { (rule : Rule) → rule_code rule ≡ code.now → rule_code result ≡ code.now }
{
    match place_of(&RULES, *code) {
        Some(k) => RULES[k],
        None => Rule::Memory,
    }
}

impl Fault {
    ghost use Rattle.std.specs.Prelude.{◌≡◌, ◌↔◌, IsTrue};
    ghost use Rattle.eqc_netlist.specs.Rule.{rule_code};

    /// The fault by a rule.
    pub fn of(rule: Rule) -> Fault
        ensures { result.code ≡ rule_code rule }
    {
        Fault { code: rule.code() }
    }

    /// The rule of the code.
    pub fn rule(&self) -> Rule
        ensures { (rule : Rule) → rule_code rule ≡ self.now.code → rule_code result ≡ self.now.code }
    {
        rule_of(&self.code)
    }

    /// Whether memory was refused, which is no fault of the netlist.
    pub fn is_memory(&self) -> bool
        ensures { IsTrue result ↔ (self.now.code ≡ 72) }
    {
        self.code == Rule::Memory.code()
    }
}

impl From<AllocError> for Fault {
    ghost use Rattle.std.specs.Prelude.{◌≡◌};

    ghost from_gives = { λ _ e. e ≡ record { code = 72 } };

    fn from(_: AllocError) -> Fault {
        Fault::of(Rule::Memory)
    }
}

//! Pairs with an assumption: a netlist whose one output says which assignments of the inputs count.
ghost use Rattle.std.specs.Prelude.{◌≡◌, ◌⊎◌, [], Some, None, false, IfOk, IfErr};
ghost use Rattle.std.specs.Option.{option_copied};
ghost use Rattle.eqc_netlist.specs.Names.{has_twice};
ghost use Rattle.eqc_pair.specs.Matched.{ArePlaces};
ghost use Rattle.eqc_pair.specs.Rule.{rule_code};
ghost use Rattle.eqc_pair.specs.PairOf.{assumption_refusal, assumption_refused, assuming_refusal, order_for, no_memory};

use crate::matched_pair::{Pair, recall_laws};
use crate::name_index::{bytes_of, places_among};
use crate::pairing::pair;
use crate::refused::{Refused, Side};
use crate::rule::Rule;
use eqc_netlist::{Flat, Name};
use std::alloc::{AllocError, Global};

/// A refusal of an assumption.
fn refusal(rule: Rule) -> Refused
    ensures { result ≡ assumption_refused (rule_code rule) }
{
    Refused {
        side: Side::Assume,
        line: 0,
        code: rule.code(),
    }
}

/// Where each of the others stands among the names, of which none stands twice, or none where one
/// of them isn't there. Fails where memory is refused.
fn among(alloc: Global, names: &[Name], others: &[Name]) -> Result<Option<Vec<usize>>, AllocError>
    requires once { has_twice names.now ≡ false }
    ensures { IfOk result (ArePlaces names.now others.now) }
{
    let names = bytes_of(alloc, names)?;
    let others = bytes_of(alloc, others)?;
    places_among(alloc, &names, &others)
}

impl<'a> Pair<'a> {
    /// The pair with an assumption in place of its own: only assignments count under which its one
    /// output is 1. Its inputs are matched by name with those of the first netlist, of which it
    /// needn't have all. Refused are, in this order: an input of it that is no input of the pair
    /// (61), and another number of outputs than one (62). Want of memory is 72.
    pub fn assuming(self, alloc: Global, assumed: &'a Flat<'a>) -> Result<Pair<'a>, Refused>
        ensures taken { IfOk result (λ _. assumption_refusal self.entry.first.inputs assumed.now ≡ None) }
        ensures pair { IfOk result (λ p. p ≡ record self.entry { assumes = Some assumed.now }) }
        ensures refused { IfErr result (λ refused. (refused ≡ no_memory) ⊎ (assumption_refusal self.entry.first.inputs assumed.now ≡ Some refused)) }
    {
        self.recall_laws();
        recall_laws(assumed);
        let Some(inputs) = among(alloc, self.first().inputs(), assumed.inputs())? else {
            return Err(refusal(Rule::AssumeInputs));
        };
        if assumed.outputs().len() != 1 {
            return Err(refusal(Rule::AssumeOutput));
        }
        Ok(self.with_assumption(alloc, assumed, &inputs)?)
    }
}

/// The pair of two netlists as `pair` gives it, under an assumption, if there is one: it is refused
/// as `Pair::assuming` refuses it, behind all that `pair` refuses.
pub fn pair_assuming<'a>(
    alloc: Global,
    first: &'a Flat<'a>,
    second: &'a Flat<'a>,
    order: Option<&[u8]>,
    assumed: Option<&'a Flat<'a>>,
) -> Result<Pair<'a>, Refused>
    ensures taken { IfOk result (λ _. assuming_refusal first.now second.now (option_copied order.entry) (option_copied assumed.entry) ≡ None) }
    ensures netlists { IfOk result (λ p. (p.first ≡ first.now) × (p.second ≡ second.now)) }
    ensures order { IfOk result (λ p. p.order ≡ order_for first.now.inputs (option_copied order.entry)) }
    ensures assumed { IfOk result (λ p. (p.assumes ≡ option_copied assumed.entry) × (p.chosen ≡ [])) }
    ensures refused { IfErr result (λ refused. (refused ≡ no_memory) ⊎ (assuming_refusal first.now second.now (option_copied order.entry) (option_copied assumed.entry) ≡ Some refused)) }
{
    let pair = pair(alloc, first, second, order)?;
    match assumed {
        None => Ok(pair),
        Some(assumed) => pair.assuming(alloc, assumed),
    }
}

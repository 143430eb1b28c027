//! The matching of two flat netlists by the names of their inputs and outputs: a pair, or the first
//! refusal.
ghost use Rattle.std.specs.Prelude.{◌≡◌, ◌⊎◌, [], Some, None, true, false, map, IfOk, IfErr, MatchOption};
ghost use Rattle.std.specs.Option.{option_copied};
ghost use Rattle.eqc_netlist.specs.Names.{has_twice};
ghost use Rattle.eqc_pair.specs.Matched.{position_of, same_names};
ghost use Rattle.eqc_pair.specs.PairOf.{AreMatched, order_for, pair_refusal, pair_refused, no_memory};

use crate::matched_pair::{Matches, Pair, recall_laws};
use crate::name_index::{bytes_of, left_out, places_among};
use crate::order::order_of;
use crate::refused::{Refused, Side};
use crate::rule::Rule;
use eqc_netlist::{Flat, Name};
use std::alloc::{AllocError, Global};

impl From<AllocError> for Refused {
    ghost use Rattle.eqc_pair.specs.PairOf.{no_memory};

    ghost from_gives = { λ _ refused. refused ≡ no_memory };

    fn from(_error: AllocError) -> Refused {
        refusal(eqc_netlist::text_rule::Rule::Memory.code())
    }
}

/// A refusal of two netlists as a pair.
fn refusal(code: u8) -> Refused
    ensures { result ≡ pair_refused code }
{
    Refused {
        side: Side::Pair,
        line: 0,
        code,
    }
}

/// Where each of the others stands among the names, or none where the two haven't the same names.
/// Fails where memory is refused.
fn matched(alloc: Global, names: &[Name], others: &[Name]) -> Result<Option<Vec<usize>>, AllocError>
    requires once { has_twice names.now ≡ false }
    requires others_once { has_twice others.now ≡ false }
    ensures { IfOk result (λ found. MatchOption found
        (same_names names.now others.now ≡ false)
        (λ all. (same_names names.now others.now ≡ true) × (all.items ≡ map (position_of names.now) others.now))) }
{
    let names = bytes_of(alloc, names)?;
    let others = bytes_of(alloc, others)?;
    if places_among(alloc, &others, &names)?.is_none() {
        return Ok(None);
    }
    places_among(alloc, &names, &others)
}

/// Where the names of two netlists stand, or their refusal, as without an order text: two sets of
/// input names that differ (41) or of output names (42), or a name of a chosen output that is that
/// of none (43); or no memory.
fn matches_of(
    alloc: Global,
    first: &Flat<'_>,
    second: &Flat<'_>,
    chosen: &[&[u8]],
) -> Result<Matches, Refused>
    ensures matched { IfOk result (λ m. AreMatched first.now second.now (map (λ name. name.now) chosen.now) m.inputs.items m.outputs.items m.left_out.items) }
    ensures refused { IfErr result (λ refused. (refused ≡ no_memory) ⊎ (pair_refusal first.now second.now (map (λ name. name.now) chosen.now) None ≡ Some refused)) }
{
    let Some(inputs) = matched(alloc, first.inputs(), second.inputs())? else {
        return Err(refusal(Rule::OtherInputs.code()));
    };
    let Some(outputs) = matched(alloc, second.outputs(), first.outputs())? else {
        return Err(refusal(Rule::OtherOutputs.code()));
    };
    let Some(left_out) = left_out(alloc, first.outputs(), chosen)? else {
        return Err(refusal(Rule::UnknownOutput.code()));
    };
    Ok(Matches {
        inputs,
        outputs,
        left_out,
    })
}

/// The pair of two netlists, whose inputs and outputs are matched by name, with the order of an
/// order text, else with that in which the first netlist declares its inputs. Refused are, in this
/// order: two sets of input names that differ (41) or of output names (42), and of the order text
/// what is too long (2), a word that is no input (51), a word twice (52) and an input that isn't
/// there (53). Want of memory is 72.
pub fn pair<'a>(
    alloc: Global,
    first: &'a Flat<'a>,
    second: &'a Flat<'a>,
    order: Option<&[u8]>,
) -> Result<Pair<'a>, Refused>
    ensures taken { IfOk result (λ _. pair_refusal first.now second.now [] (option_copied order.entry) ≡ None) }
    ensures netlists { IfOk result (λ p. (p.first ≡ first.now) × (p.second ≡ second.now)) }
    ensures order { IfOk result (λ p. p.order ≡ order_for first.now.inputs (option_copied order.entry)) }
    ensures all { IfOk result (λ p. (p.assumes ≡ None) × (p.chosen ≡ [])) }
    ensures refused { IfErr result (λ refused. (refused ≡ no_memory) ⊎ (pair_refusal first.now second.now [] (option_copied order.entry) ≡ Some refused)) }
{
    pair_choosing(alloc, first, second, &[], order)
}

/// The same with the outputs of these names alone, which may stand twice; without a name with all.
/// Behind 42 a name is refused that is that of no output (43).
pub fn pair_choosing<'a>(
    alloc: Global,
    first: &'a Flat<'a>,
    second: &'a Flat<'a>,
    chosen: &'a [&'a [u8]],
    order: Option<&[u8]>,
) -> Result<Pair<'a>, Refused>
    ensures taken { IfOk result (λ _. pair_refusal first.now second.now (map (λ name. name.now) chosen.now) (option_copied order.entry) ≡ None) }
    ensures netlists { IfOk result (λ p. (p.first ≡ first.now) × (p.second ≡ second.now)) }
    ensures order { IfOk result (λ p. p.order ≡ order_for first.now.inputs (option_copied order.entry)) }
    ensures chosen { IfOk result (λ p. (p.assumes ≡ None) × (p.chosen ≡ map (λ name. name.now) chosen.now)) }
    ensures refused { IfErr result (λ refused. (refused ≡ no_memory) ⊎ (pair_refusal first.now second.now (map (λ name. name.now) chosen.now) (option_copied order.entry) ≡ Some refused)) }
{
    recall_laws(second);
    let matches = matches_of(alloc, first, second, chosen)?;
    let order = order_of(alloc, first.inputs(), order)?;
    Ok(Pair::laid_out(alloc, first, second, chosen, matches, order)?)
}

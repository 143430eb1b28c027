//! What is at fault in two netlists that make no pair, or in what is given for them.
ghost use Rattle.std.specs.Prelude.{◌≡◌, ◌==◌, map, true, false, IfOk, MatchOption};
ghost use Rattle.std.specs.Option.{option_copied};
ghost use Rattle.eqc_netlist.specs.Names.{has_twice};
ghost use Rattle.eqc_pair.specs.Matched.{has_all, same_names};
ghost use Rattle.eqc_pair.specs.Finding.{AreUnmatched, IsExplained, IsAssumptionExplained, IsOrderExplained};

use crate::finding::Finding;
use crate::matched_pair::recall_laws;
use crate::name_index::{bytes_of, first_twice, set_of};
use crate::order::{MAX_TEXT, order_words};
use crate::unmatched::Unmatched;
use eqc_netlist::{Flat, Name};
use std::alloc::{AllocError, Global};

/// Those of these names that others lack, of which none may stand twice. Fails where memory is
/// refused.
fn unmatched<'a>(
    alloc: Global,
    others: &[&[u8]],
    names: &[&'a [u8]],
) -> Result<Unmatched<'a>, AllocError>
    requires once { has_twice (map (λ name. name.now) others.now) ≡ false }
    ensures names { IfOk result (AreUnmatched (map (λ name. name.now) others.now) (map (λ name. name.now) names.now)) }
    ensures none { IfOk result (λ found. has_all (map (λ name. name.now) others.now) (map (λ name. name.now) names.now) ≡ (found.1 == 0)) }
{
    let set = set_of(alloc, others)?;
    Unmatched::among(alloc, &set, names)
}

/// The names of each of two lists that the other lacks, or none where they have the same names.
/// Fails where memory is refused.
fn differing<'a>(
    alloc: Global,
    names: &'a [Name],
    others: &'a [Name],
) -> Result<Option<(Unmatched<'a>, Unmatched<'a>)>, AllocError>
    requires once { has_twice names.now ≡ false }
    requires others_once { has_twice others.now ≡ false }
    ensures { IfOk result (λ found. MatchOption found
        (same_names names.now others.now ≡ true)
        (λ both. (same_names names.now others.now ≡ false) × AreUnmatched others.now names.now both.0 × AreUnmatched names.now others.now both.1)) }
{
    let names = bytes_of(alloc, names)?;
    let others = bytes_of(alloc, others)?;
    let first = unmatched(alloc, &others, &names)?;
    let second = unmatched(alloc, &names, &others)?;
    if first.count() == 0 && second.count() == 0 {
        return Ok(None);
    }
    Ok(Some((first, second)))
}

/// What is at fault in an order text over these inputs, of which none may stand twice, or none
/// where it is taken. Fails where memory is refused.
fn order_finding<'a>(
    alloc: Global,
    inputs: &'a [Name],
    text: &'a [u8],
) -> Result<Option<Finding<'a>>, AllocError>
    requires { has_twice inputs.now ≡ false }
    ensures { IfOk result (λ found. IsOrderExplained inputs.now text.now found) }
{
    if text.len() > MAX_TEXT {
        let bytes = text.len();
        let limit = MAX_TEXT;
        return Ok(Some(Finding::OrderTooLong { bytes, limit }));
    }
    let inputs = bytes_of(alloc, inputs)?;
    let words = order_words(alloc, text)?;
    let unknown = unmatched(alloc, &inputs, &words)?;
    if unknown.count() > 0 {
        return Ok(Some(Finding::UnknownWords(unknown)));
    }
    if let Some(word) = first_twice(alloc, &words)? {
        return Ok(Some(Finding::WordTwice(word)));
    }
    let left_out = unmatched(alloc, &words, &inputs)?;
    if left_out.count() > 0 {
        return Ok(Some(Finding::InputsLeftOut(left_out)));
    }
    Ok(None)
}

/// Those of these names that others lack, if there are any; none of the others stands twice. Fails
/// where memory is refused.
fn unknown_among<'a>(
    alloc: Global,
    others: &[Name],
    names: &[&'a [u8]],
) -> Result<Option<Unmatched<'a>>, AllocError>
    requires { has_twice others.now ≡ false }
    ensures { IfOk result (λ found. MatchOption found
        (has_all others.now (map (λ name. name.now) names.now) ≡ true)
        (λ unknown. (has_all others.now (map (λ name. name.now) names.now) ≡ false) × AreUnmatched others.now (map (λ name. name.now) names.now) unknown)) }
{
    let others = bytes_of(alloc, others)?;
    let unknown = unmatched(alloc, &others, names)?;
    if unknown.count() > 0 {
        return Ok(Some(unknown));
    }
    Ok(None)
}

/// What is at fault in two netlists that make no pair, in the names of chosen outputs, or in the
/// order text that is given for them, for a reader of a refusal: names that one netlist has and the
/// other lacks, names of no outputs, and what in the order text its code is about. None where
/// `pair_choosing` takes them. Fails where memory is refused.
pub fn explain_pair<'a>(
    alloc: Global,
    first: &'a Flat<'a>,
    second: &'a Flat<'a>,
    chosen: &[&'a [u8]],
    order: Option<&'a [u8]>,
) -> Result<Option<Finding<'a>>, AllocError>
    ensures { IfOk result (λ found. IsExplained first.now second.now (map (λ name. name.now) chosen.now) (option_copied order.entry) found) }
{
    recall_laws(first);
    recall_laws(second);
    if let Some((first, second)) = differing(alloc, first.inputs(), second.inputs())? {
        return Ok(Some(Finding::OtherInputs { first, second }));
    }
    if let Some((first, second)) = differing(alloc, first.outputs(), second.outputs())? {
        return Ok(Some(Finding::OtherOutputs { first, second }));
    }
    if let Some(unknown) = unknown_among(alloc, first.outputs(), chosen)? {
        return Ok(Some(Finding::UnknownOutputs(unknown)));
    }
    match order {
        Some(text) => order_finding(alloc, first.inputs(), text),
        None => Ok(None),
    }
}

/// What is at fault in an assumption on the inputs of a netlist, for a reader of a refusal: inputs
/// of it that the netlist lacks, or how many outputs it has. None where `Pair::assuming` takes it.
/// Fails where memory is refused.
pub fn explain_assumption<'a>(
    alloc: Global,
    first: &Flat<'_>,
    assumed: &'a Flat<'a>,
) -> Result<Option<Finding<'a>>, AllocError>
    ensures { IfOk result (IsAssumptionExplained first.now.inputs assumed.now) }
{
    recall_laws(first);
    let names = bytes_of(alloc, assumed.inputs())?;
    if let Some(unknown) = unknown_among(alloc, first.inputs(), &names)? {
        return Ok(Some(Finding::UnknownInputs(unknown)));
    }
    let outputs = assumed.outputs().len();
    if outputs != 1 {
        return Ok(Some(Finding::OutputCount(outputs)));
    }
    Ok(None)
}

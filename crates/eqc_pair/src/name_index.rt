//! Where names stand among others, whether one of them stands twice, and which outputs are not
//! among those that are named.
ghost use Rattle.std.specs.Prelude.{◌≡◌, ℕ, ◌<◌, map, true, false, not, nat_eq, IfOk, EachIndex, MatchOption, slice_index, slice_index_or};
ghost use Rattle.std.specs.List.{list_any};
ghost use Rattle.eqc_netlist.specs.Names.{has_twice};
ghost use Rattle.eqc_netlist.specs.Names.{StandsTwice};
ghost use Rattle.eqc_pair.specs.Matched.{ArePlaces, MarkLeftOut};

use eqc_netlist::{Key, Name, NameSet};
use std::alloc::{AllocError, Global};

/// The set of these names, in their order, of which none may stand twice. Fails where memory is
/// refused.
pub(crate) fn set_of<'a>(alloc: Global, names: &[&'a [u8]]) -> Result<NameSet<'a>, AllocError>
    requires once { has_twice (map (λ name. name.now) names.now) ≡ false }
    ensures { IfOk result (λ set. set ≡ map (λ name. name.now) names.now) }
{
    let mut set = NameSet::new(alloc, Key::of_names(names));
    'names: for name in names {
        set.insert_bytes(name)?;
    }
    Ok(set)
}

/// The first of these names that stands among those before it, or none where no name stands twice.
/// Fails where memory is refused.
pub(crate) fn first_twice<'a>(
    alloc: Global,
    names: &[&'a [u8]],
) -> Result<Option<&'a [u8]>, AllocError>
    ensures { IfOk result (λ found. MatchOption found
        (has_twice (map (λ name. name.now) names.now) ≡ false)
        (λ name. (has_twice (map (λ name. name.now) names.now) ≡ true) × StandsTwice (map (λ name. name.now) names.now) name.now)) }
{
    let mut set = NameSet::new(alloc, Key::of_names(names));
    'names: for name in names {
        if !set.insert_bytes(name)? {
            return Ok(Some(*name));
        }
    }
    Ok(None)
}

/// Where each of these names stands in a set, or none where one of them isn't there. Fails where
/// memory is refused.
fn positions(
    alloc: Global,
    set: &NameSet<'_>,
    names: &[&[u8]],
) -> Result<Option<Vec<usize>>, AllocError>
    ensures { IfOk result (ArePlaces set.now (map (λ name. name.now) names.now)) }
{
    let mut all = Vec::with_capacity(alloc, names.len())?;
    'names: for name in names {
        match set.position(name) {
            Some(position) => all.push(position)?,
            None => return Ok(None),
        }
    }
    Ok(Some(all))
}

/// Where each of the other names stands among these, of which none may stand twice, or none where
/// one of the others isn't there. Fails where memory is refused.
pub(crate) fn places_among(
    alloc: Global,
    names: &[&[u8]],
    others: &[&[u8]],
) -> Result<Option<Vec<usize>>, AllocError>
    requires once { has_twice (map (λ name. name.now) names.now) ≡ false }
    ensures { IfOk result (ArePlaces (map (λ name. name.now) names.now) (map (λ name. name.now) others.now)) }
{
    let set = set_of(alloc, names)?;
    positions(alloc, &set, others)
}

/// Whether one of these names stands twice. Fails where memory is refused.
pub(crate) fn has_twice(alloc: Global, names: &[&[u8]]) -> Result<bool, AllocError>
    ensures { IfOk result (λ twice. twice ≡ has_twice (map (λ name. name.now) names.now)) }
{
    Ok(first_twice(alloc, names)?.is_some())
}

/// Marks for so many outputs, all but those at these places.
fn marks_but(alloc: Global, count: usize, places: &[usize]) -> Result<Vec<bool>, AllocError>
    requires { EachIndex places.now (λ k. slice_index places.now k < count) }
    ensures { IfOk result (λ marks. (o : ℕ) → o < count → slice_index_or marks.items o false ≡ not (list_any (nat_eq o) places.now)) }
{
    let mut marks = vec![in alloc; true; count]?;
    'places: for place in places {
        marks[*place] = false;
    }
    Ok(marks)
}

/// Marks of the outputs that are not among those of these names, none without a name; or nothing
/// where a name is that of no output. None of the outputs stands twice. Fails where memory is
/// refused.
pub(crate) fn left_out(
    alloc: Global,
    outputs: &[Name],
    chosen: &[&[u8]],
) -> Result<Option<Vec<bool>>, AllocError>
    requires once { has_twice outputs.now ≡ false }
    ensures { IfOk result (MarkLeftOut outputs.now (map (λ name. name.now) chosen.now)) }
{
    if chosen.is_empty() {
        return Ok(Some(Vec::new(alloc)));
    }
    let names = bytes_of(alloc, outputs)?;
    match places_among(alloc, &names, chosen)? {
        Some(places) => Ok(Some(marks_but(alloc, outputs.len(), &places)?)),
        None => Ok(None),
    }
}

/// The bytes of each of these names. Fails where memory is refused.
pub(crate) fn bytes_of<'a>(alloc: Global, names: &'a [Name]) -> Result<Vec<&'a [u8]>, AllocError>
    ensures { IfOk result (λ all. map (λ name. name.now) all.items ≡ names.now) }
{
    let mut all = Vec::with_capacity(alloc, names.len())?;
    'names: for name in names {
        all.push(name.as_bytes())?;
    }
    Ok(all)
}

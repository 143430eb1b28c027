//! Lists of names, which may stand in them several times.
ghost use Rattle.std.specs.Prelude.{◌≡◌, ◌<◌, ◌++◌, ◌↔◌, IsTrue, IfSome, IfOk, OnOk, length, ◌==◌};
ghost use Rattle.std.specs.List.{position_from};
ghost use Rattle.eqc_core.specs.Words.{times, slots_of};
ghost use Rattle.eqc_core.specs.Moves.{without, without_each, AreHeld, note};
ghost use Rattle.eqc_core.specs.Scanning.{kept, ejected};

use std::alloc::{AllocError, Global};

// How often the name stands in the list.
pub(crate) fn count(names: &[u32], x: u32) -> usize
    ensures { result ≡ times x names.now }
{
    names.iter().filter(|y| **y == x).count()
}

// Whether it stands there.
pub(crate) fn is_among(names: &[u32], x: u32) -> bool
    ensures { IsTrue result ↔ (0 < times x names.now) }
{
    count(names, x) > 0
}

// The first place of the name.
fn place(names: &[u32], x: u32) -> Option<usize>
    ensures value { result ≡ position_from (λ y. y == x) 0 names.now }
    ensures within { IfSome result (λ i. i < length names.now) }
{
    names.iter().position(|y| *y == x)
}

// Takes the first such name out of the list, if there is one.
pub(crate) fn remove_first(names: &mut Vec<u32>, x: u32)
    ensures { names.new.items ≡ without x names.old.items }
{
    if let Some(i) = place(names, x) {
        names.remove(i);
    }
}

// Takes one of each of these out of the list.
pub(crate) fn remove_each(names: &mut Vec<u32>, gone: &[u32])
    ensures { names.new.items ≡ without_each gone.now names.old.items }
{
    for x in gone {
        remove_first(names, *x);
    }
}

// Those that are slots, and no constants.
pub(crate) fn slots(alloc: Global, names: &[u32]) -> Result<Vec<u32>, AllocError>
    ensures { IfOk result (λ v. v.items ≡ slots_of names.now) }
{
    let mut slots = Vec::new(alloc);
    for x in names {
        if *x >= 2 {
            slots.push(*x)?;
        }
    }
    Ok(slots)
}

// Whether the slots among these names are held as often as they occur.
pub(crate) fn are_held(names: &[u32], held: &[u32]) -> bool
    ensures { IsTrue result ↔ AreHeld names.now held.now }
{
    for x in names {
        if *x >= 2 && count(held, *x) < count(names, *x) {
            return false;
        }
    }
    true
}

// Notes a name that an announcement word has.
pub(crate) fn add_note(noted: &mut Vec<u32>, x: u32) -> Result<(), AllocError>
    ensures { OnOk result (noted.new.items ≡ note x noted.old.items) }
{
    if x == 0 || is_among(noted, x) {
        return Ok(());
    }
    noted.push(x)?;
    Ok(())
}

// The same list, in memory of its own.
pub(crate) fn copy(alloc: Global, names: &[u32]) -> Result<Vec<u32>, AllocError>
    ensures { IfOk result (λ v. v.items ≡ names.now) }
{
    let mut all = Vec::new(alloc);
    all.extend_from_slice(names)?;
    Ok(all)
}

// One retired entry of each noted name, and the other entries.
pub(crate) fn sort_out(
    alloc: Global,
    noted: &[u32],
    retired: &[u32],
) -> Result<(Vec<u32>, Vec<u32>), AllocError>
    ensures { IfOk result (λ p. (p.0.items ≡ kept noted.now retired.now) × (p.1.items ≡ ejected noted.now retired.now)) }
{
    let mut left = copy(alloc, noted)?;
    let mut stay = Vec::new(alloc);
    let mut go = Vec::new(alloc);
    for x in retired {
        if is_among(&left, *x) {
            remove_first(&mut left, *x);
            stay.push(*x)?;
        } else {
            go.push(*x)?;
        }
    }
    Ok((stay, go))
}

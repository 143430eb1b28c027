//! The words, tables and references with which a forest begins.
ghost use Rattle.std.specs.Prelude.{◌≡◌, ◌+◌, ◌<◌, ◌≤◌, ◌^◌, ◌++◌, map, IfOk, OnOk};
ghost use mathlib.Core.Option.{some};
ghost use Rattle.eqc_core.specs.State.{IsWithinLimits, repeated, literals, slots_from, stripe_entries, literal_homes, opening};
ghost use Rattle.eqc_guard.specs.Known.{flat};
ghost use Rattle.eqc_guard.specs.Rule.{all_words, homes_of};

use crate::reference::Ref;
use crate::rule::Stripe;
use eqc_core::Sizes;
use eqc_tree::pack_node;
use indexmap::IndexMap;
use std::alloc::{AllocError, Global};

// How many stripes the unique table has.
const STRIPES: u32 = 16;

// How many words it is from one lock word to the next: a cache line, so that workers that lock
// different stripes take no line from each other.
pub(crate) const APART: u32 = 8;

// How many words it is from one announcement word to the next: the four of a worker fill a cache
// line, so that workers that announce take no line from each other.
pub(crate) const ASIDE: u32 = 2;

// Puts a word n times behind the others.
fn extend_with(words: &mut Vec<u64>, word: u64, n: u32) -> Result<(), AllocError>
    ensures { OnOk result (words.new.items ≡ words.old.items ++ repeated word n) }
{
    let len = words.len() + n as usize;
    words.resize(len, word)
}

// Puts the node words of the literals of the first n variables behind the others.
fn extend_with_literals(words: &mut Vec<u64>, n: u32) -> Result<(), AllocError>
    requires { n ≤ 2 ^ 16 }
    ensures { OnOk result (words.new.items ≡ words.old.items ++ literals 0 n) }
{
    for k in 0..n {
        words.push(pack_node(k as u16, 0, 1))?;
    }
    Ok(())
}

// How many words a forest of these sizes has.
fn count_words(sizes: &Sizes) -> usize
    requires { IsWithinLimits sizes.now }
    ensures { result ≡ all_words sizes.now }
{
    let workers = sizes.workers as usize;
    let names = sizes.names as usize;
    let announced = workers * sizes.announcements as usize;
    let cells = ASIDE as usize * announced + (names + names) + sizes.cells as usize;
    cells + (16 * workers + (APART * STRIPES) as usize)
}

// The words, kind by kind, in which the first n variables have their literals.
pub(crate) fn first_words(alloc: Global, sizes: &Sizes, n: u32) -> Result<Vec<u64>, AllocError>
    requires limits { IsWithinLimits sizes.now }
    requires names { n + 2 ≤ sizes.now.names }
    requires variables { n ≤ sizes.now.variables }
    ensures { IfOk result (λ v. v.items ≡ flat (opening sizes.now n).words) }
{
    let mut words = Vec::with_capacity(alloc, count_words(sizes))?;
    let free = sizes.names - (n + 2);
    extend_with(&mut words, 0, ASIDE * (sizes.workers * sizes.announcements))?;
    // The constants have no count and no node word.
    extend_with(&mut words, 0, 2)?;
    extend_with(&mut words, 2, n)?;
    extend_with(&mut words, 0, free)?;
    extend_with(&mut words, 0, 2)?;
    extend_with_literals(&mut words, n)?;
    extend_with(&mut words, 0, free)?;
    extend_with(&mut words, 0, sizes.cells)?;
    extend_with(&mut words, 0, 16 * sizes.workers + APART * STRIPES)?;
    Ok(words)
}

// The table of a stripe, in which the first n variables have their literals.
fn stripe_literals(alloc: Global, s: u32, n: u32) -> Result<Stripe, AllocError>
    requires stripe { s < 16 }
    requires few { n ≤ 16 }
    ensures { IfOk result (λ m. m.entries ≡ stripe_entries s 0 n) }
{
    let mut stripe = IndexMap::new(alloc);
    // Of so few literals each stripe has one at most.
    let i = (s + 15) % STRIPES;
    if i < n {
        stripe.insert(pack_node(i as u16, 0, 1), i + 2)?;
    }
    Ok(stripe)
}

// The tables of all stripes.
pub(crate) fn stripes(alloc: Global, n: u32) -> Result<Vec<Stripe>, AllocError>
    requires { n ≤ 16 }
    ensures { IfOk result (λ v. homes_of (map some v.items) ≡ literal_homes n) }
{
    let mut maps = Vec::new(alloc);
    for s in 0..STRIPES {
        maps.push(stripe_literals(alloc, s, n)?)?;
    }
    Ok(maps)
}

// The references of the literals of the first n variables.
pub(crate) fn literal_references(alloc: Global, n: u32) -> Result<Vec<Ref>, AllocError>
    requires { n ≤ 2 ^ 16 }
    ensures { IfOk result (λ v. map (λ r. r.number) v.items ≡ slots_from 2 n) }
{
    let mut references: Vec<Ref> = Vec::with_capacity(alloc, n as usize)?;
    for k in 0..n {
        references.push(Ref { number: k + 2 }).unwrap();
    }
    Ok(references)
}

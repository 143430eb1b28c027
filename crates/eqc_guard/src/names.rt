//! Names in words, and the retired names of a worker.
ghost use Rattle.std.specs.Prelude.{◌≡◌, ◌+◌, ◌<◌, ◌≤◌, ◌^◌, [], ◌∷◌, ◌++◌, ℕ, length, ◌==◌, ◌≢◌, ◌↔◌, IsTrue, false, eqb, if◌then◌else◌};
ghost use Rattle.arrayvec.specs.ArrayVec.{array_vec_len};
ghost use Rattle.eqc_core.specs.Words.{times, slots_of, cell_names, operands, result_of};
ghost use Rattle.eqc_core.specs.Moves.{without, without_each, note};
ghost use Rattle.eqc_core.specs.Scanning.{kept, ejected};

use arrayvec::ArrayVec;
use eqc_tree::unpack_cell;

// 1 where the name is a node's, and 0 where it is a constant's.
fn slots_in(x: u32) -> u64
    ensures { result ≡ length (slots_of (x ∷ [])) }
{
    if x < 2 { 0 } else { 1 }
}

// How many names a worker holds that held so many, and swapped a cell from the old word to the new.
#[tactic(auto, unfolding(eqc_core::specs::Words::first_of, eqc_core::specs::Words::second_of, eqc_core::specs::Words::result_of))]
pub(crate) fn held_after(held: u64, new: u64, old: u64) -> u64
    requires enough { length (slots_of (cell_names new)) ≤ held }
    requires room { held ≤ 2 ^ 40 }
    ensures { result + length (slots_of (cell_names new)) ≡ held + length (slots_of (operands old)) }
{
    let (_, f, g, r) = unpack_cell(new);
    let (_, old_f, old_g, _) = unpack_cell(old);
    let given = slots_in(r) + slots_in(f) + slots_in(g);
    let taken = slots_in(old_f) + slots_in(old_g);
    held - given + taken
}

// How many nodes a word of a cell or a box names.
#[tactic(auto, unfolding(eqc_core::specs::Words::first_of, eqc_core::specs::Words::second_of, eqc_core::specs::Words::result_of))]
fn slots_named(word: u64) -> u64
    ensures { result ≡ length (slots_of (cell_names word)) }
{
    let (_, f, g, r) = unpack_cell(word);
    slots_in(r) + slots_in(f) + slots_in(g)
}

// How many names a worker holds that held so many, and swapped a box from the old word to the new.
pub(crate) fn held_with_box(held: u64, new: u64, old: u64) -> u64
    requires enough { length (slots_of (cell_names new)) ≤ held }
    requires room { held ≤ 2 ^ 40 }
    ensures { result + length (slots_of (cell_names new)) ≡ held + length (slots_of (cell_names old)) }
{
    held - slots_named(new) + slots_named(old)
}

// How many names a worker holds that held so many, and gave the children of a node to it.
pub(crate) fn held_with_node(held: u64, low: u32, high: u32) -> u64
    requires enough { length (slots_of (low ∷ high ∷ [])) ≤ held }
    requires room { held ≤ 2 ^ 40 }
    ensures { result + length (slots_of (low ∷ high ∷ [])) ≡ held + 1 }
{
    held - (slots_in(low) + slots_in(high)) + 1
}

// How many names a worker holds that held so many, and has the children of a node from it.
pub(crate) fn held_with_children(held: u64, low: u32, high: u32) -> u64
    requires { held ≤ 2 ^ 40 }
    ensures { result ≡ held + length (slots_of (low ∷ high ∷ [])) }
{
    held + slots_in(low) + slots_in(high)
}

// Keeps the result of a cell's old word for later.
#[tactic(auto, unfolding(eqc_core::specs::Words::result_of))]
pub(crate) fn retire(retired: &mut ArrayVec<u32, 512>, old: u64)
    requires { length retired.old.items < 512 }
    ensures { retired.new.items ≡ retired.old.items ++ slots_of (result_of old ∷ []) }
{
    let (_, _, _, result) = unpack_cell(old);
    if result >= 2 {
        retired.push(result);
    }
}

// Takes the first such name out of the list, and says whether there was one.
fn remove_first<const N: usize>(names: &mut ArrayVec<u64, N>, x: u64) -> bool
    ensures found { IsTrue result ↔ (0 < times x names.old.items) }
    ensures others { names.new.items ≡ without x names.old.items }
    ensures none { result ≡ false → names.new.items ≡ names.old.items }
{
    match names.as_slice().iter().position(|y| *y == x) {
        Some(i) => {
            names.remove(i);
            true
        }
        None => false,
    }
}

// Puts the other names behind these.
pub(crate) fn append(names: &mut ArrayVec<u32, 512>, more: &[u32])
    requires { length names.old.items + length more.now ≤ 512 }
    ensures { names.new.items ≡ names.old.items ++ more.now }
{
    let _fits = names.try_extend_from_slice(more);
}

// The numbers that are out of a worker's view once it has another worker's back: out no more at
// worker 0, and taken in at any other.
pub(crate) fn take_numbers(out: &mut ArrayVec<u64, 64>, number: u32, from: u64, more: &[u64])
    requires { number ≢ 0 → length out.old.items + 1 + length more.now ≤ 64 }
    ensures { out.new.items ≡ (if eqb number 0 then without_each (from ∷ more.now) out.old.items else out.old.items ++ from ∷ more.now) }
{
    if number == 0 {
        remove_first(out, from);
        for x in more {
            remove_first(out, *x);
        }
        return;
    }
    out.push(from);
    let _fits = out.try_extend_from_slice(more);
}

// Notes a name that an announcement word has.
pub(crate) fn add_note(noted: &mut ArrayVec<u64, 256>, x: u64)
    requires { length noted.old.items < 256 }
    ensures { noted.new.items ≡ note x noted.old.items }
{
    if x == 0 || noted.as_slice().contains(&x) {
        return;
    }
    noted.push(x);
}

// One retired entry of each noted name stays, and the others are given.
pub(crate) fn sort_out(
    noted: &mut ArrayVec<u64, 256>,
    retired: &mut ArrayVec<u32, 512>,
) -> ArrayVec<u32, 512>
    ensures stay { retired.new.items ≡ kept noted.old.items retired.old.items }
    ensures go { result.items ≡ ejected noted.old.items retired.old.items }
{
    let mut stay = ArrayVec::new();
    let mut go = ArrayVec::new();
    for x in retired.as_slice() {
        if remove_first(noted, u64::from(*x)) {
            stay.push(*x);
        } else {
            go.push(*x);
        }
    }
    *retired = stay;
    go
}

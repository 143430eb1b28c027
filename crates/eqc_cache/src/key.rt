//! Where the result of an operation is kept.
ghost use Rattle.std.specs.Prelude.{◌≡◌, ◌<◌};
ghost use Rattle.eqc_cache.specs.Finding.{IsOrdered};
ghost use Rattle.eqc_cache.specs.Placing.{in_order, mixed_word, place_of};

use eqc_tree::Op;

// 2^64 divided by the golden ratio, an odd number.
const GOLDEN: u64 = 0x9E37_79B9_7F4A_7C15;

// The operands in the order in which a cell has them: the smaller one first, where the operation
// does not tell them apart.
#[inline(always)]
pub(crate) fn ordered(op: Op, f: u32, g: u32) -> (u32, u32)
    ensures either { IsOrdered op f g result }
    ensures order { result ≡ in_order op f g }
{
    match op {
        Op::AndNot => (f, g),
        _ => { if g < f { (g, f) } else { (f, g) } }
    }
}

// A word with its bits mixed, so that each bit of the upper half depends on all of them.
#[tactic(auto, unfolding(crate::specs::Placing::mixed_word))]
#[inline(always)]
fn mixed(word: u64) -> u64
    ensures { result ≡ mixed_word word }
{
    let spread = word.wrapping_mul(GOLDEN);
    (spread ^ (spread >> 32)).wrapping_mul(GOLDEN)
}

// The cell of an operation, of so many. Operands that are near each other, as those of one level
// of a diagram are, must not share cells: so all bits are mixed, and the upper half is scaled.
#[tactic(auto, unfolding(crate::specs::Placing::place_of))]
#[inline(always)]
pub(crate) fn place(cells: u32, op: Op, first: u32, second: u32) -> u32
    requires { 0 < cells }
    ensures within { result < cells }
    ensures place { result ≡ place_of cells op (first, second) }
{
    let operands = u64::from(first) * 0x1_0000_0000 + u64::from(second);
    let word = operands.wrapping_mul(8).wrapping_add(u64::from(op.tag()));
    let upper = mixed(word) >> 32;
    ((upper * u64::from(cells)) >> 32) as u32
}

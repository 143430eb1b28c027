//! The terminal cases of operations, for which no node is read, and the order of operands under
//! which a result is cached.
ghost use Rattle.std.specs.Prelude.{◌≡◌, ℕ, ◌<◌, IfSome, IfNone};
ghost use Rattle.eqc_plain.specs.Placing.{in_order};
ghost use Rattle.eqc_plain.specs.Terminal.{Decides, AreOperands};

use eqc_tree::Op;

/// The result of an operation that no node has to be read for: two constants, one constant that
/// decides, or equal operands.
pub fn decide(op: Op, f: u32, g: u32) -> Option<u32>
    ensures decided { IfSome result (Decides op f g) }
    ensures undecided { IfNone result ((x : ℕ) → ¬ Decides op f g x) }
    ensures inner { IfNone result (¬ ((f < 2) × (g < 2))) }
{
    match op {
        Op::And => decide_and(f, g),
        Op::Or => decide_or(f, g),
        Op::Xor => decide_xor(f, g),
        Op::AndNot => decide_and_not(f, g),
    }
}

fn decide_and(f: u32, g: u32) -> Option<u32>
    ensures decided { IfSome result (Decides Op.And f g) }
    ensures undecided { IfNone result ((x : ℕ) → ¬ Decides Op.And f g x) }
    ensures inner { IfNone result (¬ ((f < 2) × (g < 2))) }
{
    if f == 0 || g == 0 {
        return Some(0);
    }
    if f == 1 {
        return Some(g);
    }
    if g == 1 || f == g {
        return Some(f);
    }
    None
}

fn decide_or(f: u32, g: u32) -> Option<u32>
    ensures decided { IfSome result (Decides Op.Or f g) }
    ensures undecided { IfNone result ((x : ℕ) → ¬ Decides Op.Or f g x) }
    ensures inner { IfNone result (¬ ((f < 2) × (g < 2))) }
{
    if f == 1 || g == 1 {
        return Some(1);
    }
    if f == 0 {
        return Some(g);
    }
    if g == 0 || f == g {
        return Some(f);
    }
    None
}

fn decide_xor(f: u32, g: u32) -> Option<u32>
    ensures decided { IfSome result (Decides Op.Xor f g) }
    ensures undecided { IfNone result ((x : ℕ) → ¬ Decides Op.Xor f g x) }
    ensures inner { IfNone result (¬ ((f < 2) × (g < 2))) }
{
    if f == g {
        return Some(0);
    }
    if f == 0 {
        return Some(g);
    }
    if g == 0 {
        return Some(f);
    }
    None
}

fn decide_and_not(f: u32, g: u32) -> Option<u32>
    ensures decided { IfSome result (Decides Op.AndNot f g) }
    ensures undecided { IfNone result ((x : ℕ) → ¬ Decides Op.AndNot f g x) }
    ensures inner { IfNone result (¬ ((f < 2) × (g < 2))) }
{
    if f == 0 || g == 1 || f == g {
        return Some(0);
    }
    if g == 0 {
        return Some(f);
    }
    None
}

/// The operands in the order in which their result is kept: an operation that commutes has the
/// smaller number first.
pub fn ordered_operands(op: Op, f: u32, g: u32) -> (u32, u32)
    ensures operands { AreOperands op f g result.0 result.1 }
    ensures order { result ≡ in_order op f g }
{
    if f <= g {
        return (f, g);
    }
    match op {
        Op::And | Op::Or | Op::Xor => (g, f),
        Op::AndNot => (f, g),
    }
}

//! Steps as values: what is chosen by one that is believed in nothing, and done.
ghost use Rattle.eqc_sums.specs.Forms.{Keeps};

use eqc_sums::Reduction;
use eqc_xag::Literal;
use std::alloc::AllocError;

/// A step of a reduction.
#[derive(Clone, Copy)]
pub(crate) enum Move {
    /// An adder of three literals, so many times.
    Adder(Literal, Literal, Literal, u128),
    /// A parity of two.
    Parity(Literal, Literal),
    /// A literal that is split by another one, so many times.
    Split(Literal, Literal, u128),
    /// The carry of a complement of the first literal, so many times.
    Polarity(Literal, Literal, Literal, u128),
    /// An adder times the first literal, so many times.
    Product(Literal, Literal, Literal, Literal, u128),
    /// A literal that is split by another one, times the first one.
    SplitProduct(Literal, Literal, Literal, u128),
    /// A literal's polynomial, down to so many gates below it, so many times.
    Expand(Literal, u32, u128),
    /// A literal times the polynomial of another one, in place of their conjunction, so many times.
    ExpandProduct(Literal, Literal, u32, u128),
    /// The second literal in place of the first, so many times.
    Unify(Literal, Literal, u128),
}

#[tactic(auto, using(eqc_sums::proofs::KeepLemmas::keeps_itself))]
/// Does a step. For a question there are so many conflicts, of which those are taken away that
/// there were.
pub(crate) fn apply(
    reduction: &mut Reduction,
    step: Move,
    conflicts: &mut u64,
) -> Result<(), AllocError>
    ensures { Keeps reduction.old.sweep reduction.new.sweep reduction.old.form reduction.new.form }
{
    match step {
        Move::Adder(x, y, z, factor) => reduction.adder(x, y, z, factor),
        Move::Parity(x, y) => reduction.parity(x, y),
        Move::Split(x, y, factor) => reduction.split(x, y, factor),
        Move::Polarity(x, y, z, factor) => reduction.polarity(x, y, z, factor),
        Move::Product(by, x, y, z, factor) => reduction.product(by, x, y, z, factor),
        Move::SplitProduct(by, x, y, factor) => reduction.split_product(by, x, y, factor),
        Move::Expand(literal, depth, factor) => reduction.expand(literal, depth, factor),
        Move::ExpandProduct(by, literal, depth, factor) => reduction.expand_product(
            by, literal, depth, factor,
        ),
        Move::Unify(x, y, factor) => {
            let _ = reduction.unify(x, y, factor, conflicts)?;
            Ok(())
        }
    }
}

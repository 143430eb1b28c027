//! What a cell of the operation cache has.
ghost use Rattle.std.specs.Prelude.{◌≡◌, ◌≢◌, ◌↔◌, None, IfSome};
ghost use Rattle.eqc_core.specs.Words.{first_of, second_of};
ghost use Rattle.eqc_guard.specs.Filling.{AreSmall, word_of};

use crate::reference::Ref;
use eqc_tree::{Op, pack_cell, unpack_cell};

/// An operation, its operands and its result, whose references the cell is to have.
pub struct Filled {
    /// The operation.
    pub op: Op,
    /// The first operand.
    pub f: Ref,
    /// The second operand.
    pub g: Ref,
    /// The result.
    pub r: Ref,
}

// The word of a cell with this, or of an empty one.
pub(crate) fn entry_word(filled: Option<Filled>) -> u64
    requires { AreSmall filled }
    ensures { result ≡ word_of filled }
{
    let Some(Filled { op, f, g, r }) = filled else {
        return 0;
    };
    let Ref { number: first } = f;
    let Ref { number: second } = g;
    let Ref { number: found } = r;
    pack_cell(op.tag(), first, second, found)
}

// The references of the operands in a cell's word, which the cell gives up.
#[tactic(auto, unfolding(eqc_core::specs::Words::first_of, eqc_core::specs::Words::second_of))]
pub(crate) fn operands(word: u64) -> Option<(Ref, Ref)>
    ensures empty { (result ≡ None) ↔ (word ≡ 0) }
    ensures some { IfSome result (λ p. (p.0.number ≡ first_of word) × (p.1.number ≡ second_of word)) }
{
    if word == 0 {
        return None;
    }
    let (_, first, second, _) = unpack_cell(word);
    Some((Ref { number: first }, Ref { number: second }))
}

//! The signatures of the carry and of the sum of three literals.

use crate::finder::patterns::Patterns;
use crate::finder::words::{TOGETHER, Words, shares_of, words_of};
use eqc_xag::Literal;

/// The words of the sum of literals in a block of rows.
#[inline(always)]
fn sum_in(block: &[Words], literals: &[Literal]) -> Words {
    let mut words = [0; TOGETHER];
    for literal in literals {
        let others = words_of(block, *literal);
        for lane in 0..TOGETHER {
            words[lane] ^= others[lane];
        }
    }
    words
}

impl Patterns {
    /// The signature that the carry of three has, of which the first is the sum of literals, and
    /// its first simulated value.
    pub(crate) fn carry(&self, literals: &[Literal], y: Literal, z: Literal) -> (u64, bool) {
        let mut signature: u64 = 0;
        let mut is_flipped = false;
        for (at, block) in self.blocks.iter().enumerate() {
            let of_x = sum_in(block.as_slice(), literals);
            let of_y = words_of(block.as_slice(), y);
            let of_z = words_of(block.as_slice(), z);
            let mut words = [0; TOGETHER];
            for lane in 0..TOGETHER {
                let either = of_x[lane] | of_y[lane];
                words[lane] = of_x[lane] & of_y[lane] | of_z[lane] & either;
            }
            if at == 0 {
                is_flipped = words[0] % 2 == 1;
            }
            signature = signature.wrapping_add(shares_of(at, self.rows, words, is_flipped));
        }
        (signature, is_flipped)
    }

    /// The signature that the sum of literals has, which is true where an odd number of them are,
    /// and its first simulated value.
    pub(crate) fn sum(&self, literals: &[Literal]) -> (u64, bool) {
        let mut signature: u64 = 0;
        let mut is_flipped = false;
        for (at, block) in self.blocks.iter().enumerate() {
            let words = sum_in(block.as_slice(), literals);
            if at == 0 {
                is_flipped = words[0] % 2 == 1;
            }
            signature = signature.wrapping_add(shares_of(at, self.rows, words, is_flipped));
        }
        (signature, is_flipped)
    }
}

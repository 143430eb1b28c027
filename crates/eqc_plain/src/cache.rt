//! The operation cache, or computed table: results of operations, each in one cell, which a later
//! result may take.
ghost use Rattle.std.specs.Prelude.{◌≡◌, ◌<◌, ◌^◌, ℕ, length, IfSome, None};
ghost use Rattle.eqc_plain.specs.Cells.{IsKept, MayHave, HasNoMore};
ghost use Rattle.eqc_plain.specs.Placing.{place_of, HasAt};

use crate::terminal::ordered_operands;
use eqc_tree::{Op, pack_cell, unpack_cell};
use std::alloc::Global;

/// The fewest cells, once there are any, and the most: 2^16 of them take half a megabyte.
const FEWEST: usize = 256;

const MOST: usize = 0x1_0000;

/// The operation cache (the field's computed table): a word for an operation, its operands and
/// its result in the one cell that they fall into, or 0.
#[derive(Drop)]
pub struct Cache {
    pub(crate) cells: Vec<u64>,
}

impl Cache {
    pub fn new(alloc: Global) -> Cache
        ensures { length result.cells.items ≡ 0 }
    {
        Cache {
            cells: Vec::new(alloc),
        }
    }

    /// Gives all results up.
    pub fn clear(&mut self)
        ensures { length self.new.cells.items ≡ 0 }
    {
        self.cells.clear();
    }

    /// The cell of a word, by its operation and operands.
    #[tactic(auto, unfolding(crate::specs::Placing::place_of))]
    fn place(&self, word: u64) -> usize
        requires { 0 < length self.now.cells.items }
        ensures within { result < length self.now.cells.items }
        ensures place { result ≡ place_of (length self.now.cells.items) word }
    {
        let mixed = (word >> 20).wrapping_mul(0x9E37_79B9_7F4A_7C15) >> 32;
        mixed as usize & (self.cells.len() - 1)
    }

    /// The result that is kept for an operation. There is one where the operation's cell has it.
    pub fn find(&self, op: Op, f: u32, g: u32) -> Option<u32>
        requires f { f < 2 ^ 20 }
        requires g { g < 2 ^ 20 }
        ensures found { IfSome result (IsKept self.now.cells.items op f g) }
        ensures none { result ≡ None → (r : ℕ) → HasAt self.now.cells.items op f g r → ⊥ }
    {
        if self.cells.is_empty() {
            return None;
        }
        let (p, q) = ordered_operands(op, f, g);
        let word = pack_cell(op.tag(), p, q, 0);
        let cell = self.cells[self.place(word)];
        if cell >> 20 != word >> 20 {
            return None;
        }
        let (_, _, _, r) = unpack_cell(cell);
        Some(r)
    }

    /// Keeps a result in place of what its cell had.
    pub fn keep(&mut self, op: Op, f: u32, g: u32, r: u32)
        requires f { f < 2 ^ 20 }
        requires g { g < 2 ^ 20 }
        requires r { r < 2 ^ 20 }
        ensures { MayHave op f g r self.old.cells.items self.new.cells.items }
    {
        if self.cells.is_empty() {
            return;
        }
        let (p, q) = ordered_operands(op, f, g);
        let word = pack_cell(op.tag(), p, q, r);
        let place = self.place(word);
        self.cells[place] = word;
    }

    /// Has at least half as many cells as there are nodes, up to the most, where memory allows:
    /// results are then found more often, and nothing depends on it.
    pub fn grow(&mut self, nodes: usize)
        ensures { HasNoMore self.old.cells.items self.new.cells.items }
    {
        let len = self.cells.len();
        if len >= MOST || nodes < 2 * len {
            return;
        }
        let more = if len == 0 { FEWEST } else { 2 * len };
        let _ = self.cells.resize(more, 0);
    }
}

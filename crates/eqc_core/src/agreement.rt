//! Whether a cell's word is right, and a box's: its operation on the functions of its operands
//! gives the function of its result.
//!
//! The three diagrams are walked together, variable by variable (Bryant 1986, Shannon's expansion).
ghost use Rattle.std.specs.Prelude.{◌≡◌, ◌<◌, ◌^◌, ◌↔◌, IsTrue};
ghost use Rattle.eqc_tree.specs.Operation.{operate};
ghost use Rattle.eqc_core.specs.Words.{first_of, second_of, result_of};
ghost use Rattle.eqc_core.specs.Tables.{IsName};
ghost use Rattle.eqc_core.specs.Trees.{variable_at, IsFilled, IsBoxWord};
ghost use Rattle.eqc_core.specs.Agreement.{Agrees, cofactor};
ghost use Rattle.eqc_core.specs.Machine.{state_of, IsKept};

use crate::machine::Machine;
use eqc_tree::{Op, unpack_cell, unpack_node};

// The variable of a constant: above all others.
const NO_VARIABLE: u32 = 1 << 16;

// The numbers of operations are followed by those of tasks, and those of stops are the last.
const LAST_OPERATION: u8 = 4;

const LAST_TASK: u8 = 8;

const FIRST_STOP: u8 = 13;

// The operation on two values.
fn compute(op: Op, p: bool, q: bool) -> bool
    ensures { result ≡ operate op p q }
{
    match op {
        Op::And => p && q,
        Op::Or => p || q,
        Op::Xor => p != q,
        Op::AndNot => p && !q,
    }
}

impl Machine {
    // The variable of a name.
    #[tactic(auto, unfolding(crate::specs::Words::variable_of))]
    fn variable(&self, x: u32) -> u32
        requires kept { IsKept self.now }
        requires name { IsName (state_of self.now).homes (state_of self.now).views x }
        ensures { result ≡ variable_at self.now.nodes.items x }
    {
        if x < 2 {
            return NO_VARIABLE;
        }
        let (variable, _, _) = unpack_node(self.nodes[x as usize]);
        u32::from(variable)
    }

    // The cofactor of a name where the variable v is 0, or 1.
    #[tactic(auto, unfolding(crate::specs::Words::low_of, crate::specs::Words::high_of))]
    fn cofactor(&self, v: u32, high: bool, x: u32) -> u32
        requires kept { IsKept self.now }
        requires name { IsName (state_of self.now).homes (state_of self.now).views x }
        requires below { v < 2 ^ 16 }
        ensures { result ≡ cofactor self.now.nodes.items v high x }
    {
        if self.variable(x) != v {
            return x;
        }
        if x < 2 {
            return x;
        }
        let (_, low_child, high_child) = unpack_node(self.nodes[x as usize]);
        if high { high_child } else { low_child }
    }

    // Whether the operation on the functions of f and g gives the function of r.
    fn agrees(&self, op: Op, f: u32, g: u32, r: u32) -> bool
        requires kept { IsKept self.now }
        requires f { IsName (state_of self.now).homes (state_of self.now).views f }
        requires g { IsName (state_of self.now).homes (state_of self.now).views g }
        requires r { IsName (state_of self.now).homes (state_of self.now).views r }
        ensures { IsTrue result ↔ Agrees self.now.nodes.items op f g r }
    {
        let v = self.variable(f).min(self.variable(g)).min(self.variable(r));
        if v >= NO_VARIABLE {
            return compute(op, f == 1, g == 1) == (r == 1);
        }
        let f_low = self.cofactor(v, false, f);
        let g_low = self.cofactor(v, false, g);
        let r_low = self.cofactor(v, false, r);
        if !self.agrees(op, f_low, g_low, r_low) {
            return false;
        }
        let f_high = self.cofactor(v, true, f);
        let g_high = self.cofactor(v, true, g);
        let r_high = self.cofactor(v, true, r);
        self.agrees(op, f_high, g_high, r_high)
    }

    // Whether the word is right. Its names are there.
    pub(crate) fn is_filled(&self, word: u64) -> bool
        requires kept { IsKept self.now }
        requires first { IsName (state_of self.now).homes (state_of self.now).views (first_of word) }
        requires second { IsName (state_of self.now).homes (state_of self.now).views (second_of word) }
        requires outcome { IsName (state_of self.now).homes (state_of self.now).views (result_of word) }
        ensures { IsTrue result ↔ IsFilled self.now.nodes.items word }
    {
        let (tag, f, g, r) = unpack_cell(word);
        let Some(op) = Op::of_tag(tag) else {
            return false;
        };
        self.agrees(op, f, g, r)
    }

    // Whether a box may have the word. Its names are there.
    pub(crate) fn is_box_word(&self, word: u64) -> bool
        requires kept { IsKept self.now }
        requires first { IsName (state_of self.now).homes (state_of self.now).views (first_of word) }
        requires second { IsName (state_of self.now).homes (state_of self.now).views (second_of word) }
        requires outcome { IsName (state_of self.now).homes (state_of self.now).views (result_of word) }
        ensures { IsTrue result ↔ IsBoxWord self.now.nodes.items word }
    {
        if word == 0 {
            return true;
        }
        let (tag, _, _, r) = unpack_cell(word);
        if tag <= LAST_OPERATION {
            return self.is_filled(word);
        }
        // Neither a task nor a stop has a result.
        if r != 0 {
            return false;
        }
        if tag <= LAST_TASK {
            return true;
        }
        tag >= FIRST_STOP
    }
}

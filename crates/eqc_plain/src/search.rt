//! The search for a least assignment: values chosen so far, which nodes can still lead to true, and
//! a way to true that is known.
ghost use Rattle.std.specs.Prelude.{◌≡◌, ℕ, ◌+◌, ◌<◌, ◌≤◌, Bool, true, false, None, length, slice_index_or, IfOk};
ghost use Rattle.eqc_tree.specs.Assigned.{IsSatisfiable};
ghost use Rattle.eqc_tree.specs.Tree.{value};
ghost use Rattle.eqc_plain.specs.Store.{tree_at};
ghost use Rattle.eqc_plain.specs.Searching.{Agrees, given, leads_by, rises_by, AreMarked, IsSized, IsSearch, IsChoice};

use crate::store::Store;
use std::alloc::{AllocError, Global};

/// The search for the least assignment under which the function of a number `f` is true: one
/// variable after the other gets its value. It makes no node.
#[derive(Drop)]
pub struct Search {
    /// The value of each variable that has one.
    pub(crate) choices: Vec<Option<bool>>,
    /// For each number up to `f` whether some assignment that agrees with the choices makes its
    /// function true, as far as they were looked at.
    pub(crate) marks: Vec<bool>,
    /// Values of the variables that agree with the choices and make the function true.
    pub(crate) witness: Vec<bool>,
}

/// Whether a node leads to true where its children do.
fn leads(choice: Option<bool>, low: bool, high: bool) -> bool
    ensures { result ≡ leads_by choice low high }
{
    match choice {
        None => low || high,
        Some(true) => high,
        Some(false) => low,
    }
}

/// Whether the way to true goes to the high child of a node: where it has to.
fn rises(choice: Option<bool>, low: bool) -> bool
    ensures { result ≡ rises_by choice low }
{
    match choice {
        None => !low,
        Some(value) => value,
    }
}

impl Search {
    /// A search at a number, with no choice yet. Fails where memory is refused.
    pub fn of(alloc: Global, store: &Store, f: usize) -> Result<Search, AllocError>
        requires within { f < length store.now.nodes + 2 }
        requires satisfiable { IsSatisfiable (value (tree_at store.now.nodes f)) }
        ensures search { IfOk result (λ s. IsSearch store.now f s) }
        ensures free { IfOk result (λ s. (v : ℕ) → slice_index_or s.choices.items v None ≡ None) }
    {
        let mut search = Search::blank(alloc, store, f)?;
        search.mark(store, f);
        search.trace(store, f);
        Ok(search)
    }

    /// A search with no choice, no mark and no witness yet.
    fn blank(alloc: Global, store: &Store, f: usize) -> Result<Search, AllocError>
        requires within { f < length store.now.nodes + 2 }
        requires some { 1 ≤ f }
        ensures sized { IfOk result (λ s. IsSized store.now f s) }
        ensures free { IfOk result (λ s. (v : ℕ) → slice_index_or s.choices.items v None ≡ None) }
    {
        let variables = store.variables as usize;
        let choices = vec![in alloc; None; variables]?;
        let marks = vec![in alloc; false; f + 1]?;
        let witness = vec![in alloc; false; variables]?;
        Ok(Search {
            choices,
            marks,
            witness,
        })
    }

    fn choice(&self, variable: usize) -> Option<bool>
        requires { variable < length self.now.choices.items }
        ensures { result ≡ slice_index_or self.now.choices.items variable None }
    {
        self.choices[variable]
    }

    fn is_marked(&self, x: usize) -> bool
        requires { x < length self.now.marks.items }
        ensures { result ≡ slice_index_or self.now.marks.items x false }
    {
        self.marks[x]
    }

    fn is_witnessed(&self, variable: usize) -> bool
        requires { variable < length self.now.witness.items }
        ensures { result ≡ given self.now.witness.items variable }
    {
        self.witness[variable]
    }

    /// Marks the numbers up to `f` anew.
    fn mark(&mut self, store: &Store, f: usize)
        requires { IsSized store.now f self.old }
        ensures marked { AreMarked store.now.nodes self.new.choices.items self.new.marks.items (f + 1) }
        ensures sized { IsSized store.now f self.new }
        ensures choices { self.new.choices ≡ self.old.choices }
        ensures witness { self.new.witness ≡ self.old.witness }
    {
        self.marks[0] = false;
        self.marks[1] = true;
        'numbers: for x in 2..f + 1 {
            let (variable, low, high) = store.branch(x);
            let mark = leads(
                self.choice(variable),
                self.is_marked(low),
                self.is_marked(high),
            );
            self.marks[x] = mark;
        }
    }

    /// Gives the witness the choices, and false elsewhere.
    fn start_over(&mut self)
        requires { length self.old.witness.items ≡ length self.old.choices.items }
        ensures agrees { Agrees self.new.choices.items (given self.new.witness.items) }
        ensures long { length self.new.witness.items ≡ length self.old.witness.items }
        ensures choices { self.new.choices ≡ self.old.choices }
        ensures marks { self.new.marks ≡ self.old.marks }
    {
        'variables: for v in 0..self.choices.len() {
            let value = rises(self.choice(v), true);
            self.witness[v] = value;
        }
    }

    /// Gives the witness the values on a way from `f` to true, low where there is a choice.
    fn trace(&mut self, store: &Store, f: usize)
        requires sized { IsSized store.now f self.old }
        requires marked { AreMarked store.now.nodes self.old.choices.items self.old.marks.items (f + 1) }
        requires leads { slice_index_or self.old.marks.items f false ≡ true }
        requires agrees { Agrees self.old.choices.items (given self.old.witness.items) }
        ensures search { IsSearch store.now f self.new }
        ensures choices { self.new.choices ≡ self.old.choices }
    {
        let mut x = f;
        'way: while x >= 2 {
            let (variable, low, high) = store.branch(x);
            let up = rises(self.choice(variable), self.is_marked(low));
            self.witness[variable] = up;
            x = if up { high } else { low };
        }
    }

    /// Chooses a variable's value: false where some assignment that agrees with the choices then
    /// makes the function true, and else true. Where the witness has it at false, no node has to be
    /// looked at.
    pub fn choose(&mut self, store: &Store, f: usize, variable: usize) -> bool
        requires search { IsSearch store.now f self.old }
        requires below { variable < store.now.variables }
        requires free { slice_index_or self.old.choices.items variable None ≡ None }
        ensures search { IsSearch store.now f self.new }
        ensures choice { IsChoice variable result self.old.choices.items self.new.choices.items }
        ensures least { result ≡ true → (a : ℕ → Bool) → Agrees self.old.choices.items a → a variable ≡ false → value (tree_at store.now.nodes f) a ≡ false }
    {
        self.choices[variable] = Some(false);
        if !self.is_witnessed(variable) {
            return false;
        }
        self.mark(store, f);
        if self.is_marked(f) {
            self.start_over();
            self.trace(store, f);
            return false;
        }
        self.choices[variable] = Some(true);
        true
    }
}

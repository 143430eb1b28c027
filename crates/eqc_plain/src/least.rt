//! The least assignment under which a function in the store is true, searched for without making a
//! node.
ghost use Rattle.std.specs.Prelude.{◌≡◌, ℕ, ◌+◌, ◌<◌, length, Some, IfOk};
ghost use Rattle.std.specs.List.{All, find};
ghost use Rattle.eqc_tree.specs.Assigned.{assigned, assignments, AreDistinct, DependsOnlyOn, IsSatisfiable};
ghost use Rattle.eqc_tree.specs.Tree.{value};
ghost use Rattle.eqc_plain.specs.Store.{tree_at};

use crate::search::Search;
use crate::store::Store;
use std::alloc::{AllocError, Global};

impl Store {
    /// The least assignment under which a number's function is true, in lexicographic order over
    /// these variables. Fails where memory is refused. It takes one look at the numbers up to `f`,
    /// and one for each variable that is true in an assignment with the least values so far: a
    /// store with many nodes of other functions is copied first.
    pub fn least(&self, alloc: Global, variables: &[u16], f: usize) -> Result<Vec<bool>, AllocError>
        requires f { f < length self.now.nodes + 2 }
        requires within { All (λ v. v < self.now.variables) variables.now }
        requires distinct { AreDistinct variables.now }
        requires satisfiable { IsSatisfiable (value (tree_at self.now.nodes f)) }
        requires depends { DependsOnlyOn variables.now (value (tree_at self.now.nodes f)) }
        ensures { IfOk result (λ least. Some least.items ≡ find (λ values. value (tree_at self.now.nodes f) (assigned variables.now values)) (assignments (length variables.now))) }
    {
        let mut values = Vec::with_capacity(alloc, variables.len())?;
        let mut search = Search::of(alloc, self, f)?;
        'positions: for k in 0..variables.len() {
            let value = search.choose(self, f, variables[k] as usize);
            values.push(value)?;
        }
        Ok(values)
    }
}

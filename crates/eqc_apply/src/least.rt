//! The least assignment, found on a copy of a diagram in a store of one thread.
ghost use Rattle.std.specs.Prelude.{◌≡◌, ◌<◌, Some, length, IfOk, IfErr};
ghost use Rattle.std.specs.List.{All, find};
ghost use Rattle.eqc_tree.specs.Assigned.{assigned, assignments, AreDistinct, DependsOnlyOn, IsSatisfiable};
ghost use Rattle.eqc_tree.specs.Tree.{value};
ghost use Rattle.eqc_guard.specs.Known.{IsHeld, tree_of};
ghost use Rattle.eqc_apply.specs.Extending.{Extends};

use crate::held::Held;
use crate::plain_copy::PlainCopy;
use eqc_tree::Stop;
use std::alloc::Global;

impl Held {
    /// The least assignment under which a name's function is true, in lexicographic order over
    /// these variables.
    ///
    /// It makes no node. Nodes are read once each, and held then, as those that an operation reads;
    /// the rest is done on the copy, which others don't see. The error is `Stop::Memory` alone.
    pub(crate) fn least(
        &mut self,
        alloc: Global,
        variables: &[u16],
        f: u32,
    ) -> Result<Vec<bool>, Stop>
        requires held { IsHeld self.old.worker.known.core f }
        requires within { All (λ v. v < self.old.variables) variables.now }
        requires distinct { AreDistinct variables.now }
        requires satisfiable { IsSatisfiable (value (tree_of self.old.worker.known f)) }
        requires depends { DependsOnlyOn variables.now (value (tree_of self.old.worker.known f)) }
        ensures least { IfOk result (λ least. Some least.items ≡ find (λ values. value (tree_of self.old.worker.known f) (assigned variables.now values)) (assignments (length variables.now))) }
        ensures names { Extends self.old self.new }
        ensures only { IfErr result (λ s. s ≡ Stop.Memory) }
    {
        let mut copy = PlainCopy::new(alloc, self)?;
        let number = copy.copy(self, f)?;
        match copy.store.least(alloc, variables, number as usize) {
            Ok(values) => Ok(values),
            Err(_) => Err(Stop::Memory),
        }
    }
}

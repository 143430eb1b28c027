//! The diagram of one number alone: a copy of the nodes below it, in a store that has no others.
ghost use Rattle.std.specs.Prelude.{◌≡◌, ℕ, ◌+◌, ◌<◌, ◌≤◌, ◌∷◌, ◌++◌, [], length, slice_index, IfOk, OnOk, IfErr};
ghost use Rattle.eqc_plain.specs.Copying.{Has, Takes, Follows, AreReached, IsCopying, IsDiagramOf};

use crate::store::Store;
use eqc_tree::Stop;
use indexmap::IndexSet;
use std::alloc::Global;

/// The nodes of one number's diagram in a store of their own, and its number there.
#[derive(Drop)]
pub(crate) struct Diagram {
    pub(crate) store: Store,
    pub(crate) top: usize,
}

/// Takes a number into those that are reached. The error is `Stop::Memory` alone.
fn reach(reached: &mut IndexSet<usize>, x: usize) -> Result<(), Stop>
    ensures takes { OnOk result (Takes reached.old.keys reached.new.keys x) }
    ensures only { IfErr result (λ s. s ≡ Stop.Memory) }
{
    reached.insert(x)?;
    Ok(())
}

/// The place of a number that is reached.
fn place(reached: &IndexSet<usize>, x: usize) -> usize
    requires { Has reached.now.keys x }
    ensures within { result < length reached.now.keys }
    ensures at { slice_index reached.now.keys result ≡ x }
{
    match reached.get_index_of(&x) {
        Some(place) => place,
        None => unreachable!(),
    }
}

impl Store {
    /// A copy of the nodes below a number, which takes as long as there are such nodes, however
    /// many others the store has. The error is `Stop::Memory` alone.
    pub(crate) fn diagram(&self, alloc: Global, f: usize) -> Result<Diagram, Stop>
        requires { f < length self.now.nodes + 2 }
        ensures diagram { IfOk result (IsDiagramOf self.now f) }
        ensures only { IfErr result (λ s. s ≡ Stop.Memory) }
    {
        let reached = self.reached(alloc, f)?;
        self.copied(alloc, &reached, f)
    }

    /// A copy of the numbers that are reached, with one of them at its top. The error is
    /// `Stop::Memory` alone.
    fn copied(&self, alloc: Global, reached: &IndexSet<usize>, f: usize) -> Result<Diagram, Stop>
        requires reached { AreReached self.now.nodes reached.now.keys }
        requires top { Has reached.now.keys f }
        ensures diagram { IfOk result (IsDiagramOf self.now f) }
        ensures only { IfErr result (λ s. s ≡ Stop.Memory) }
    {
        let mut copy = Store::new(alloc, self.variables, self.limit)?;
        let mut numbers = Vec::new(alloc);
        'places: while numbers.len() < reached.len() {
            let number = self.copy_next(&mut copy, reached, numbers.as_slice())?;
            numbers.push(number)?;
        }
        let top = numbers[place(reached, f)] as usize;
        Ok(Diagram { store: copy, top })
    }

    /// The constants, a number and all below it, in ascending order, so that children come first.
    /// The error is `Stop::Memory` alone.
    fn reached(&self, alloc: Global, f: usize) -> Result<IndexSet<usize>, Stop>
        requires { f < length self.now.nodes + 2 }
        ensures reached { IfOk result (λ r. AreReached self.now.nodes r.keys) }
        ensures top { IfOk result (λ r. Has r.keys f) }
        ensures only { IfErr result (λ s. s ≡ Stop.Memory) }
    {
        let mut reached = IndexSet::new(alloc);
        reach(&mut reached, 0)?;
        reach(&mut reached, 1)?;
        reach(&mut reached, f)?;
        let mut k = 0;
        'places: while k < reached.len() {
            let x = reached.as_slice()[k];
            self.reach_children(&mut reached, x)?;
            k += 1;
        }
        reached.sort()?;
        Ok(reached)
    }

    /// Takes the children of a number, where it is a node's, into those that are reached. The error
    /// is `Stop::Memory` alone.
    fn reach_children(&self, reached: &mut IndexSet<usize>, x: usize) -> Result<(), Stop>
        requires { x < length self.now.nodes + 2 }
        ensures follows { OnOk result (Follows self.now.nodes reached.old.keys reached.new.keys x) }
        ensures only { IfErr result (λ s. s ≡ Stop.Memory) }
    {
        if x < 2 {
            return Ok(());
        }
        let (_, low, high) = self.branch(x);
        reach(reached, low)?;
        reach(reached, high)
    }

    /// Copies the next of the numbers that are reached, after those that have numbers in the copy.
    /// The error is `Stop::Memory` alone.
    fn copy_next(
        &self,
        copy: &mut Store,
        reached: &IndexSet<usize>,
        numbers: &[u32],
    ) -> Result<u32, Stop>
        requires reached { AreReached self.now.nodes reached.now.keys }
        requires copying { IsCopying self.now reached.now.keys numbers.now copy.old }
        requires more { length numbers.now < length reached.now.keys }
        ensures copying { IfOk result (λ n. IsCopying self.now reached.now.keys (numbers.now ++ n ∷ []) copy.new) }
        ensures only { IfErr result (λ s. s ≡ Stop.Memory) }
    {
        let x = reached.as_slice()[numbers.len()];
        if x < 2 {
            return Ok(x as u32);
        }
        let (variable, low, high) = self.branch(x);
        let low = numbers[place(reached, low)];
        let high = numbers[place(reached, high)];
        copy.node(variable as u16, low, high)
    }
}

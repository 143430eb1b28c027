//! The node store: one node for each variable and pair of different children, found by its number,
//! with its reference count.
ghost use Rattle.std.specs.Prelude.{◌≡◌, ◌≢◌, ℕ, ◌<◌, ◌≤◌, ◌+◌, ◌-◌, ◌^◌, ◌⊎◌, [], length, slice_index, vec_capacity, IsOk, IfOk, IfErr, OnErr};
ghost use Rattle.eqc_tree.specs.Word.{node_word};
ghost use Rattle.eqc_plain.specs.Store.{IsStore};

use crate::reference::Ref;
use crate::unique_table::UniqueTable;
use eqc_tree::{Stop, pack_node, unpack_node};
use std::alloc::Global;
use std::snapshot::Snapshot;

/// Nodes with their counts of references. Number 0 is false, 1 is true, and slot k has number
/// k + 2.
#[derive(Drop)]
pub struct Store {
    pub(crate) variables: u16,
    pub(crate) limit: u32,
    pub(crate) nodes: UniqueTable,
    pub(crate) counts: Vec<u32>,
    ghost lawful: { IsStore variables limit nodes counts.items },
}

impl Store {
    ghost use Rattle.eqc_tree.specs.Holding.{Gains, Keeps, Loses, IsHeld, IsNew, copies, says};
    ghost use Rattle.eqc_plain.specs.Store.{entry_at, root, tree_at, IsNode, AreCofactors};
    ghost use Rattle.eqc_plain.specs.Extending.{holding_in, Extends};
    ghost use Rattle.eqc_plain.specs.Referring.{entry_of};
    ghost use Rattle.eqc_plain.specs.Searching.{IsBranch};

    /// No nodes, and room for `limit` of them.
    pub fn new(alloc: Global, variables: u16, limit: u32) -> Result<Store, Stop>
        requires { limit < 2 ^ 20 - 1 }
        ensures empty { IfOk result (λ s. IsNew variables (holding_in s)) }
        ensures limit { IfOk result (λ s. s.limit ≡ limit) }
        ensures nodes { IfOk result (λ s. s.nodes ≡ []) }
        ensures only { IfErr result (λ s. s ≡ Stop.Memory) }
    {
        let counts = vec![in alloc; 0u32; 2]?;
        Ok(Store {
            variables,
            limit,
            nodes: UniqueTable::new(alloc),
            counts,
        })
    }

    /// The number of the node with these children, which is made where there is none.
    pub fn node(&mut self, variable: u16, low: u32, high: u32) -> Result<u32, Stop>
        requires low { low < length self.old.nodes + 2 }
        requires high { high < length self.old.nodes + 2 }
        requires above_low { variable < root self.old.variables (tree_at self.old.nodes low) }
        requires above_high { variable < root self.old.variables (tree_at self.old.nodes high) }
        ensures store { Extends self.old self.new }
        ensures ok { IfOk result (λ x. IsNode self.new.variables self.new.nodes variable low high x) }
        ensures one { length self.new.nodes ≤ length self.old.nodes + 1 }
        ensures still { OnErr result (self.new.nodes ≡ self.old.nodes) }
        ensures absent { IfErr result (λ _. (k : ℕ) → k < length self.old.nodes → slice_index self.old.nodes k ≢ node_word variable low high) }
        ensures full { result ≡ Err Stop.NodeLimit → length self.new.nodes ≡ self.new.limit }
        ensures only { IfErr result (λ s. (s ≡ Stop.NodeLimit) ⊎ (s ≡ Stop.Memory)) }
    {
        if low == high {
            return Ok(low);
        }
        match self.nodes.find(pack_node(variable, low, high)) {
            Some(slot) => Ok(slot as u32 + 2),
            None => self.new_node(variable, low, high),
        }
    }

    /// The number of the node with these children, where there is none yet.
    fn new_node(&mut self, variable: u16, low: u32, high: u32) -> Result<u32, Stop>
        requires low { low < length self.old.nodes + 2 }
        requires high { high < length self.old.nodes + 2 }
        requires above_low { variable < root self.old.variables (tree_at self.old.nodes low) }
        requires above_high { variable < root self.old.variables (tree_at self.old.nodes high) }
        requires differ { low ≢ high }
        requires absent { (k : ℕ) → k < length self.old.nodes → slice_index self.old.nodes k ≢ node_word variable low high }
        ensures store { Extends self.old self.new }
        ensures ok { IfOk result (λ x. IsNode self.new.variables self.new.nodes variable low high x) }
        ensures one { length self.new.nodes ≤ length self.old.nodes + 1 }
        ensures still { OnErr result (self.new.nodes ≡ self.old.nodes) }
        ensures full { result ≡ Err Stop.NodeLimit → length self.new.nodes ≡ self.new.limit }
        ensures only { IfErr result (λ s. (s ≡ Stop.NodeLimit) ⊎ (s ≡ Stop.Memory)) }
    {
        if self.nodes.len() == self.limit as usize {
            return Err(Stop::NodeLimit);
        }
        self.counts.push(0)?;
        let Ok(slot) = self.nodes.add(pack_node(variable, low, high)) else {
            self.counts.pop();
            return Err(Stop::Memory);
        };
        Ok(slot as u32 + 2)
    }

    /// The variable of a number's root, or the number of variables for a constant.
    pub fn root(&self, x: u32) -> u16
        requires { x < length self.now.nodes + 2 }
        ensures { result ≡ root self.now.variables (tree_at self.now.nodes x) }
    {
        if x < 2 {
            return self.variables;
        }
        let (variable, _, _) = unpack_node(self.nodes.word(x as usize - 2));
        variable
    }

    /// A node's variable, its low and its high child.
    pub fn branch(&self, x: usize) -> (usize, usize, usize)
        requires node { 2 ≤ x }
        requires within { x < length self.now.nodes + 2 }
        ensures { IsBranch self.now.variables self.now.nodes x result.0 result.1 result.2 }
    {
        let (variable, low, high) = unpack_node(self.nodes.word(x - 2));
        (variable as usize, low as usize, high as usize)
    }

    /// The cofactors of a number: what it is where the variable is 0, and where it is 1.
    pub fn cofactors(&self, variable: u16, x: u32) -> (u32, u32)
        requires within { x < length self.now.nodes + 2 }
        requires below { variable < self.now.variables }
        requires root { variable ≤ root self.now.variables (tree_at self.now.nodes x) }
        ensures { AreCofactors self.now.variables self.now.nodes variable x result.0 result.1 }
    {
        if x < 2 {
            return (x, x);
        }
        let (top, low, high) = unpack_node(self.nodes.word(x as usize - 2));
        if top != variable {
            return (x, x);
        }
        (low, high)
    }

    /// One reference more to a number.
    pub fn hold(&mut self, x: u32) -> Result<Ref, Stop>
        requires { x < length self.old.nodes + 2 }
        ensures ok { IfOk result (λ r. Gains (holding_in self.old) (holding_in self.new) (entry_of r) (says (entry_at self.old.nodes x))) }
        ensures stop { OnErr result (Keeps (holding_in self.old) (holding_in self.new)) }
        ensures only { IfErr result (λ s. s ≡ Stop.References) }
        ensures constant { x < 2 → IsOk result }
        ensures full { OnErr result (copies (holding_in self.old) (entry_at self.old.nodes x) ≡ 2 ^ 32 - 1) }
        ensures nodes { self.new.nodes ≡ self.old.nodes }
        ensures limit { self.new.limit ≡ self.old.limit }
        ensures variables { self.new.variables ≡ self.old.variables }
        ensures room { vec_capacity self.new.counts ≡ vec_capacity self.old.counts }
    {
        let at = Snapshot::of(&self.nodes);
        if x < 2 {
            return Ok(Ref { node: x, at });
        }
        let count = self.counts[x as usize];
        if count == u32::MAX {
            return Err(Stop::References);
        }
        self.counts[x as usize] = count + 1;
        Ok(Ref { node: x, at })
    }

    /// Ends a reference.
    pub fn release(&mut self, r: Ref)
        requires { IsHeld (holding_in self.old) (entry_of r) }
        ensures loses { Loses (holding_in self.old) (holding_in self.new) (entry_of r) }
        ensures nodes { self.new.nodes ≡ self.old.nodes }
        ensures limit { self.new.limit ≡ self.old.limit }
        ensures variables { self.new.variables ≡ self.old.variables }
        ensures room { vec_capacity self.new.counts ≡ vec_capacity self.old.counts }
    {
        let Ref { node, at } = r;
        drop(at);
        if node < 2 {
            return;
        }
        let count = self.counts[node as usize];
        self.counts[node as usize] = count - 1;
    }
}

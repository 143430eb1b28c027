//! Nodes of the forest, copied into a store of one thread.
ghost use Rattle.std.specs.Prelude.{◌≡◌, ℕ, ◌<◌, ◌++◌, ◌∷◌, [], Some, None, length, slice_index_or, IfOk, IfErr, OnOk};
ghost use Rattle.eqc_guard.specs.Known.{IsHeld, tree_of};
ghost use Rattle.eqc_apply.specs.Extending.{Extends};
ghost use Rattle.eqc_apply.specs.Copying.{IsCopyOf, IsFaithful, IsOnWay, IsAdvance};

use crate::held::Held;
use eqc_plain::store::Store;
use eqc_tree::Stop;
use std::alloc::Global;

/// What is on the way of a copy.
#[derive(Clone, Copy, Drop)]
pub(crate) enum Visit {
    /// A name that was come to.
    Reached(u32),
    /// A node whose children are copied before it.
    Opened {
        name: u32,
        variable: u16,
        low: u32,
        high: u32,
    },
}

impl Visit {
    ghost use Rattle.eqc_apply.specs.Copying.{name_of};

    fn name(self) -> u32
        ensures { result ≡ name_of self }
    {
        match self {
            Visit::Reached(name) => name,
            Visit::Opened { name, .. } => name,
        }
    }
}

/// Nodes that a worker reached, in a store of one thread: each once, after its children.
#[derive(Drop)]
pub(crate) struct PlainCopy {
    pub(crate) store: Store,
    // The number in the store of each name that is copied.
    pub(crate) places: Vec<Option<u32>>,
    // What is still to be copied, the next one last.
    pub(crate) visits: Vec<Visit>,
}

impl PlainCopy {
    /// A copy of the two constants, with room for all nodes of the forest. The error is
    /// `Stop::Memory` alone.
    pub(crate) fn new(alloc: Global, names: &Held) -> Result<PlainCopy, Stop>
        ensures faithful { IfOk result (IsFaithful names.now) }
        ensures idle { IfOk result (λ c. c.visits.items ≡ []) }
        ensures only { IfErr result (λ s. s ≡ Stop.Memory) }
    {
        names.worker.recall_laws();
        let slots = names.worker.slots();
        let store = Store::new(alloc, names.variables, slots)?;
        let Ok(mut places) = vec![in alloc; None; slots as usize + 2] else {
            return Err(Stop::Memory);
        };
        places[0] = Some(0);
        places[1] = Some(1);
        Ok(PlainCopy {
            store,
            places,
            visits: Vec::new(alloc),
        })
    }

    fn place(&self, x: u32) -> Option<u32>
        requires { x < length self.now.places.items }
        ensures { result ≡ slice_index_or self.now.places.items x None }
    {
        self.places[x as usize]
    }

    /// Copies a name with all nodes below it, each once, and answers its number in the store. The
    /// error is `Stop::Memory` alone.
    pub(crate) fn copy(&mut self, names: &mut Held, f: u32) -> Result<u32, Stop>
        requires held { IsHeld names.old.worker.known.core f }
        requires faithful { IsFaithful names.old self.old }
        requires idle { self.old.visits.items ≡ [] }
        ensures ok { IfOk result (IsCopyOf names.new self.new.store f) }
        ensures variables { OnOk result (self.new.store.variables ≡ names.new.variables) }
        ensures names { Extends names.old names.new }
        ensures only { IfErr result (λ s. s ≡ Stop.Memory) }
    {
        self.push(Visit::Reached(f))?;
        'visits: while let Some(visit) = self.visits.pop() {
            self.visit(names, visit)?;
        }
        names.worker.recall_laws();
        match self.place(f) {
            Some(number) => Ok(number),
            None => unreachable!(),
        }
    }

    /// One step of a copy, at the visit that was taken from the end of the list.
    fn visit(&mut self, names: &mut Held, visit: Visit) -> Result<(), Stop>
        requires { IsOnWay names.old self.old (self.old.visits.items ++ visit ∷ []) }
        ensures advance { OnOk result (IsAdvance names.old self.old (self.old.visits.items ++ visit ∷ []) names.new self.new) }
        ensures names { Extends names.old names.new }
        ensures only { IfErr result (λ s. s ≡ Stop.Memory) }
    {
        names.worker.recall_laws();
        if let Some(_number) = self.place(visit.name()) {
            return Ok(());
        }
        match visit {
            Visit::Reached(x) => self.open(names, x),
            Visit::Opened {
                name,
                variable,
                low,
                high,
            } => self.close(names, name, variable, low, high),
        }
    }

    /// Puts a node's children before the node.
    fn open(&mut self, names: &mut Held, x: u32) -> Result<(), Stop>
        requires way { IsOnWay names.old self.old (self.old.visits.items ++ Visit.Reached x ∷ []) }
        requires new { slice_index_or self.old.places.items x None ≡ None }
        ensures advance { OnOk result (IsAdvance names.old self.old (self.old.visits.items ++ Visit.Reached x ∷ []) names.new self.new) }
        ensures names { Extends names.old names.new }
        ensures only { IfErr result (λ s. s ≡ Stop.Memory) }
    {
        let variable = names.root(x);
        let (low, high) = names.cofactors(variable, x)?;
        let node = Visit::Opened {
            name: x,
            variable,
            low,
            high,
        };
        self.put(node, low, high)
    }

    /// Puts a visit of a node, and behind it those of its children.
    fn put(&mut self, node: Visit, low: u32, high: u32) -> Result<(), Stop>
        ensures visits { OnOk result (self.new.visits.items ≡ self.old.visits.items ++ node ∷ Visit.Reached high ∷ Visit.Reached low ∷ []) }
        ensures store { self.new.store ≡ self.old.store }
        ensures places { self.new.places ≡ self.old.places }
        ensures only { IfErr result (λ s. s ≡ Stop.Memory) }
    {
        self.push(node)?;
        self.push(Visit::Reached(high))?;
        self.push(Visit::Reached(low))
    }

    fn push(&mut self, visit: Visit) -> Result<(), Stop>
        ensures visits { OnOk result (self.new.visits.items ≡ self.old.visits.items ++ visit ∷ []) }
        ensures store { self.new.store ≡ self.old.store }
        ensures places { self.new.places ≡ self.old.places }
        ensures only { IfErr result (λ s. s ≡ Stop.Memory) }
    {
        self.visits.push(visit)?;
        Ok(())
    }

    /// Copies a node whose children are copied.
    fn close(
        &mut self,
        names: &Held,
        name: u32,
        variable: u16,
        low: u32,
        high: u32,
    ) -> Result<(), Stop>
        requires way { IsOnWay names.now self.old (self.old.visits.items ++ Visit.Opened name variable low high ∷ []) }
        requires new { slice_index_or self.old.places.items name None ≡ None }
        ensures advance { OnOk result (IsAdvance names.now self.old (self.old.visits.items ++ Visit.Opened name variable low high ∷ []) names.now self.new) }
        ensures only { IfErr result (λ s. s ≡ Stop.Memory) }
    {
        names.worker.recall_laws();
        let Some(low) = self.place(low) else {
            unreachable!();
        };
        let Some(high) = self.place(high) else {
            unreachable!();
        };
        match self.store.node(variable, low, high) {
            Ok(number) => {
                self.places[name as usize] = Some(number);
                Ok(())
            }
            Err(stop) => Err(stop),
        }
    }
}

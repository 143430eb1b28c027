//! A set of names in their order, for those that are too many to be compared one by one.
ghost use Rattle.std.specs.Prelude.{◌≡◌, [], ◌∷◌, ◌++◌, IfOk, IfErr, not, if◌then◌else◌, false};
ghost use Rattle.eqc_netlist.specs.Names.{is_named, has_twice};

use eqc_netlist::{Key, Name};
use indexmap::IndexSet;
use std::alloc::{AllocError, Global};
use std::marker::Model;

/// Names in order, none of them twice, each of which is found without a look at the others.
#[derive(Drop)]
pub(crate) struct ManyNames {
    names: IndexSet<Name, Key>,
}

impl Model for ManyNames {
    ghost use Rattle.std.specs.Prelude.{List, ℕ};

    ghost Value = { List (List ℕ) };

    ghost view = { λ a. a.names.keys };
}

impl ManyNames {
    /// These names, none of which stands twice, looked up by a key. Fails where memory is refused.
    pub(crate) fn of(alloc: Global, key: Key, names: &[Name]) -> Result<ManyNames, AllocError>
        requires { has_twice names.now ≡ false }
        ensures { IfOk result (λ many. many ≡ names.now) }
    {
        let mut set = IndexSet::with_hasher(alloc, key);
        'names: for name in names {
            let copy = Name::new(alloc, name.as_bytes())?;
            set.insert(copy)?;
        }
        Ok(ManyNames { names: set })
    }

    /// Puts a name at the end, unless it is there, and answers whether it was not. Fails where
    /// memory is refused, and adds nothing then.
    pub(crate) fn insert(&mut self, name: Name) -> Result<bool, AllocError>
        ensures fresh { IfOk result (λ fresh. fresh ≡ not (is_named self.old name)) }
        ensures added { IfOk result (λ fresh. self.new ≡ (if fresh then self.old ++ name ∷ [] else self.old)) }
        ensures kept { IfErr result (λ _. self.new ≡ self.old) }
    {
        let fresh = self.names.insert(name)?;
        Ok(fresh)
    }

    /// Makes room for so many more names. Fails where memory is refused.
    pub(crate) fn reserve(&mut self, additional: usize) -> Result<(), AllocError>
        ensures { self.new ≡ self.old }
    {
        self.names.reserve(additional)?;
        Ok(())
    }

    pub(crate) fn as_slice(&self) -> &[Name]
        ensures { result.now ≡ self.now }
    {
        self.names.as_slice()
    }
}

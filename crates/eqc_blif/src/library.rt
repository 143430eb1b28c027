//! The models of a text, found by number or by name, with what each of them declares.
ghost use Rattle.std.specs.Prelude.{◌≡◌, ◌<◌, ◌++◌, ◌∷◌, [], false, length, map, nat_lt, not, position, bytes_eq, slice_index_or, OnOk};
ghost use Rattle.eqc_netlist.specs.Names.{is_named, has_twice};
ghost use Rattle.eqc_blif.specs.Netlist.{no_model};
ghost use Rattle.eqc_blif.specs.Steps.{model_of};

use crate::model::cover::Cover;
use crate::model::declarations::Declarations;
use crate::model::instance::Instance;
use eqc_netlist::{Key, Name};
use indexmap::IndexMap;
use std::alloc::{AllocError, Global};
use std::marker::Model;

/// The models of a text, in order.
#[derive(Drop)]
pub struct Library {
    key: Key,
    models: IndexMap<Name, Declarations, Key>,
}

impl Model for Library {
    ghost use Rattle.std.specs.Prelude.{List, map};
    ghost use Rattle.eqc_blif.specs.Netlist.{ModelOf};
    ghost use Rattle.eqc_blif.specs.Steps.{model_of};

    ghost Value = { List ModelOf };

    ghost view = { λ a. map (λ e. model_of e.0 e.1) a.models.entries };
}

impl Library {
    pub(crate) fn new(alloc: Global, key: Key) -> Library
        ensures { result ≡ [] }
    {
        Library {
            key,
            models: IndexMap::with_hasher(alloc, key),
        }
    }

    /// The key of the text, for other tables of its names. Nothing but their time depends on it.
    pub fn key(&self) -> Key {
        self.key
    }

    /// Whether there are no models.
    pub(crate) fn is_empty(&self) -> bool
        ensures { result ≡ not (nat_lt 0 (length self.now)) }
    {
        self.models.is_empty()
    }

    /// Whether a model has this name.
    pub(crate) fn has(&self, name: &Name) -> bool
        ensures { result ≡ is_named (map (λ m. m.name) self.now) name.now }
    {
        self.models.contains_key(name)
    }

    /// Puts a model behind the others, none of which has its name. Fails where memory is refused.
    pub(crate) fn add(&mut self, name: Name, declarations: Declarations) -> Result<(), AllocError>
        requires { is_named (map (λ m. m.name) self.old) name ≡ false }
        ensures { OnOk result (self.new ≡ self.old ++ model_of name declarations ∷ []) }
    {
        let _ = self.models.insert(name, declarations)?;
        Ok(())
    }

    /// The number of models. No two of them have the same name.
    pub fn models(&self) -> usize
        ensures count { result ≡ length self.now }
        ensures once { has_twice (map (λ m. m.name) self.now) ≡ false }
    {
        self.models.len()
    }

    /// The position of the model with this name, if there is one.
    pub fn find(&self, name: &Name) -> Option<usize>
        ensures { result ≡ position (λ m. bytes_eq name.now m.name) self.now }
    {
        self.models.get_index_of(name)
    }

    /// The name of model `m`, which is below the number of models.
    pub fn name(&self, m: usize) -> &[u8]
        requires { m < length self.now }
        ensures { result.now ≡ (slice_index_or self.now m no_model).name }
    {
        let (name, _) = self.models.get_index(m).unwrap();
        name.as_bytes()
    }

    /// What model `m` declares.
    fn declarations(&self, m: usize) -> &Declarations
        requires { m < length self.now }
        ensures { model_of (slice_index_or self.now m no_model).name result.now ≡ slice_index_or self.now m no_model }
    {
        let (_, declarations) = self.models.get_index(m).unwrap();
        declarations
    }

    /// The inputs that model `m` declares, in order. None of them stands twice.
    pub fn inputs(&self, m: usize) -> &[Name]
        requires { m < length self.now }
        ensures names { result.now ≡ (slice_index_or self.now m no_model).inputs }
        ensures once { has_twice result.now ≡ false }
    {
        self.declarations(m).inputs.as_slice()
    }

    /// The outputs that model `m` declares, in order. None of them stands twice.
    pub fn outputs(&self, m: usize) -> &[Name]
        requires { m < length self.now }
        ensures names { result.now ≡ (slice_index_or self.now m no_model).outputs }
        ensures once { has_twice result.now ≡ false }
    {
        self.declarations(m).outputs.as_slice()
    }

    /// The covers of model `m`, in order.
    pub fn covers(&self, m: usize) -> &[Cover]
        requires { m < length self.now }
        ensures { result.now ≡ (slice_index_or self.now m no_model).covers }
    {
        self.declarations(m).covers.as_slice()
    }

    /// The instances in model `m`, in order.
    pub fn instances(&self, m: usize) -> &[Instance]
        requires { m < length self.now }
        ensures { result.now ≡ (slice_index_or self.now m no_model).instances }
    {
        self.declarations(m).instances.as_slice()
    }
}

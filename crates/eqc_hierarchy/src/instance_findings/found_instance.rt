//! How an instance at fault is told: where it stands in the library, and which name of its model is
//! at fault.
ghost use Rattle.std.specs.Prelude.{◌≡◌, ◌<◌, length, slice_index_or};
ghost use Rattle.eqc_hierarchy.specs.Hierarchy.{model};
ghost use Rattle.eqc_hierarchy.specs.Reaching.{no_instance};

use crate::calls::instances;
use eqc_blif::{Instance, Library};
use std::marker::Model;

/// An instance at fault: the number of the model in which it stands, its position among the
/// instances of that model, counted from 0, and the instance itself, which has the name of its own
/// model.
#[derive(Drop)]
pub struct FoundInstance<'a> {
    model: usize,
    position: usize,
    instance: &'a Instance,
}

impl<'a> Model for FoundInstance<'a> {
    ghost use Rattle.std.specs.Prelude.{ℕ};
    ghost use Rattle.eqc_blif.specs.Netlist.{InstanceOf};

    ghost Value = { (ℕ × ℕ) × InstanceOf };

    ghost view = { λ a. ((a.model, a.position), a.instance.now) };
}

impl<'a> FoundInstance<'a> {
    /// The instance at a position of model `m`.
    pub(crate) fn new(library: &'a Library, m: usize, position: usize) -> FoundInstance<'a>
        requires { position < length (model library.now m).instances }
        ensures { result ≡ ((m, position), slice_index_or (model library.now m).instances position no_instance) }
    {
        let instance = &instances(library, m)[position];
        FoundInstance {
            model: m,
            position,
            instance,
        }
    }

    /// The number of the model in which it stands.
    pub fn model(&self) -> usize
        ensures { result ≡ self.now.0.0 }
    {
        self.model
    }

    /// Its position among the instances of that model, counted from 0.
    pub fn position(&self) -> usize
        ensures { result ≡ self.now.0.1 }
    {
        self.position
    }

    /// The instance.
    pub fn instance(&self) -> &'a Instance
        ensures { result.now ≡ self.now.1 }
    {
        self.instance
    }
}

/// A name of an instance's model that its pairs use wrongly.
#[derive(Drop)]
pub struct FoundFormal<'a> {
    instance: FoundInstance<'a>,
    formal: &'a [u8],
}

impl<'a> Model for FoundFormal<'a> {
    ghost use Rattle.std.specs.Prelude.{ℕ, List};
    ghost use Rattle.eqc_blif.specs.Netlist.{InstanceOf};

    ghost Value = { ((ℕ × ℕ) × InstanceOf) × List ℕ };

    ghost view = { λ a. (a.instance, a.formal.now) };
}

impl<'a> FoundFormal<'a> {
    pub(crate) fn new(instance: FoundInstance<'a>, formal: &'a [u8]) -> FoundFormal<'a>
        ensures { result ≡ (instance.entry, formal.now) }
    {
        FoundFormal { instance, formal }
    }

    /// The instance.
    pub fn instance(&self) -> &FoundInstance<'a>
        ensures { result.now ≡ self.now.0 }
    {
        &self.instance
    }

    /// The name in the instance's model.
    pub fn formal(&self) -> &'a [u8]
        ensures { result.now ≡ self.now.1 }
    {
        self.formal
    }
}

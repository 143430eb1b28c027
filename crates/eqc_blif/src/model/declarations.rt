//! What a model declares: its inputs, outputs, covers and instances, in the order of the text.
ghost use Rattle.std.specs.Prelude.{◌≡◌, []};
ghost use Rattle.eqc_blif.specs.Steps.{no_declarations};

use crate::model::cover::Cover;
use crate::model::instance::Instance;
use crate::names::Names;
use eqc_netlist::Key;
use std::alloc::Global;
use std::marker::Model;

/// What a model declares, in the order of the text.
#[derive(Drop)]
pub(crate) struct Declarations {
    pub(crate) inputs: Names,
    pub(crate) outputs: Names,
    pub(crate) covers: Vec<Cover>,
    pub(crate) instances: Vec<Instance>,
}

impl Model for Declarations {
    ghost use Rattle.eqc_blif.specs.Steps.{DeclarationsOf};

    ghost Value = { DeclarationsOf };

    ghost view = { λ a. record { inputs = a.inputs; outputs = a.outputs; covers = a.covers.items; instances = a.instances.items } };
}

impl Declarations {
    pub(crate) fn new(alloc: Global, key: Key) -> Declarations
        ensures { result ≡ no_declarations }
    {
        Declarations {
            inputs: Names::new(key),
            outputs: Names::new(key),
            covers: Vec::new(alloc),
            instances: Vec::new(alloc),
        }
    }
}

//! Instances of models (`.subckt`): the model that an instance names, and which formal is connected
//! to which actual.

use eqc_netlist::Name;
use std::marker::Model;

/// An instance (`.subckt`): the name of its model, and its pairs of formal and actual.
#[derive(Drop)]
pub struct Instance {
    pub model: Name,
    pub pairs: Vec<(Name, Name)>,
}

impl Model for Instance {
    ghost use Rattle.eqc_blif.specs.Netlist.{InstanceOf};

    ghost Value = { InstanceOf };

    ghost view = { λ a. record { model = a.model; pairs = a.pairs.items } };
}

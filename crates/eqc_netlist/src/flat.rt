//! Flat netlists: signals in an order by dependency, each with its driver, its instance and its
//! name.
ghost use Rattle.std.specs.Prelude.{◌≡◌, ◌<◌, ◌≤◌, ◌-◌, length, slice_index_or, [], map};
ghost use Rattle.eqc_netlist.specs.Graph.{driver_at, FollowsDrivers, IsFlat};
ghost use Rattle.eqc_netlist.specs.Drivers.{driver_of};

pub(crate) mod signals;

use crate::drivers::Drivers;
use crate::drivers::driver::Driver;
use crate::key::Key;
use crate::name::Name;
use crate::rows::Rows;
use std::marker::Model;

/// A flat netlist over the names and rows of a library: numbered signals, each with its driver.
#[derive(Drop)]
pub struct Flat<'a> {
    key: Key,
    inputs: &'a [Name],
    outputs: &'a [Name],
    output_signals: Vec<u32>,
    signals: Vec<(u32, &'a [u8])>,
    places: Vec<(u32, u32)>,
    drivers: Drivers,
    rows: Vec<Rows<'a>>,
    steps: Vec<u32>,
}

impl<'a> Model for Flat<'a> {
    ghost use Rattle.std.specs.Prelude.{map};
    ghost use Rattle.eqc_netlist.specs.Graph.{FlatOf, IsFlat};

    ghost Value = { FlatOf };

    ghost view = { λ a. record {
      inputs = a.inputs.now;
      outputs = a.outputs.now;
      output_signals = a.output_signals.items;
      signals = map (λ p. (p.0, p.1.now)) a.signals.items;
      places = a.places.items;
      drivers = a.drivers;
      rows = a.rows.items;
      steps = a.steps.items;
    } };

    ghost invariant = { λ a. IsFlat (record {
      inputs = a.inputs.now;
      outputs = a.outputs.now;
      output_signals = a.output_signals.items;
      signals = map (λ p. (p.0, p.1.now)) a.signals.items;
      places = a.places.items;
      drivers = a.drivers;
      rows = a.rows.items;
      steps = a.steps.items;
    }) };
}

impl<'a> Flat<'a> {
    /// A flat netlist of these parts.
    #[allow(clippy::too_many_arguments)]
    pub fn new(
        key: Key,
        inputs: &'a [Name],
        outputs: &'a [Name],
        output_signals: Vec<u32>,
        signals: Vec<(u32, &'a [u8])>,
        places: Vec<(u32, u32)>,
        drivers: Drivers,
        rows: Vec<Rows<'a>>,
        steps: Vec<u32>,
    ) -> Flat<'a>
        requires { IsFlat (record {
          inputs = inputs.now;
          outputs = outputs.now;
          output_signals = output_signals.items;
          signals = map (λ p. (p.0, p.1.now)) signals.items;
          places = places.items;
          drivers = drivers;
          rows = rows.items;
          steps = steps.items;
        }) }
        ensures { result ≡ record {
          inputs = inputs.now;
          outputs = outputs.now;
          output_signals = output_signals.items;
          signals = map (λ p. (p.0, p.1.now)) signals.entry.items;
          places = places.items;
          drivers = drivers;
          rows = rows.entry.items;
          steps = steps.items;
        } }
    {
        Flat {
            key,
            inputs,
            outputs,
            output_signals,
            signals,
            places,
            drivers,
            rows,
            steps,
        }
    }

    /// The key of the text, for tables that its names or what it says are looked up in. Nothing but
    /// their time depends on it.
    pub fn key(&self) -> Key {
        self.key
    }

    /// The names of the main model's inputs, in its order.
    pub fn inputs(&self) -> &[Name]
        ensures names { result.now ≡ self.now.inputs }
        ensures lawful { IsFlat self.now }
    {
        self.inputs
    }

    /// The names of the main model's outputs, in its order.
    pub fn outputs(&self) -> &[Name]
        ensures { result.now ≡ self.now.outputs }
    {
        self.outputs
    }

    /// The signal of each output.
    pub fn output_signals(&self) -> &[u32]
        ensures signals { result.now ≡ self.now.output_signals }
        ensures lawful { IsFlat self.now }
    {
        self.output_signals.as_slice()
    }

    /// The signals, each once and after those that it depends on.
    pub fn steps(&self) -> &[u32]
        ensures steps { result.now ≡ self.now.steps }
        ensures lawful { IsFlat self.now }
        ensures follows { FollowsDrivers self.now }
    {
        self.steps.as_slice()
    }

    /// What holds of every flat netlist, for a proof of its caller: it does nothing. A netlist's
    /// laws are known only where a call states them.
    pub fn recall_laws(&self)
        ensures lawful { IsFlat self.now }
        ensures follows { FollowsDrivers self.now }
    {
        let _steps = self.steps();
    }

    /// What drives signal `s`, which is one of this netlist.
    pub fn driver(&self, s: u32) -> Driver<'_>
        requires { s < length self.now.drivers }
        ensures { driver_of result ≡ driver_at self.now s }
    {
        self.drivers.get(s as usize)
    }

    /// The rows of number `r`, which the driver of a signal of this netlist names.
    pub fn rows(&self, r: u32) -> &Rows<'_>
        requires { r < length self.now.rows }
        ensures { result.now ≡ slice_index_or self.now.rows r [] }
    {
        &self.rows[r as usize]
    }

    /// The instance and the name of signal `s`, which is one of this netlist. Instance 0 is the
    /// main model.
    pub fn signal(&self, s: u32) -> (u32, &[u8])
        requires { s < length self.now.drivers }
        ensures signal { (result.0, result.1.now) ≡ slice_index_or self.now.signals s (0, []) }
        ensures instance { result.0 ≤ length self.now.places }
        ensures lawful { IsFlat self.now }
    {
        self.signals[s as usize]
    }

    /// The parent of instance `i`, from 1 on, and the position of its `.subckt` there. The parent
    /// is an instance before it.
    pub fn place(&self, i: u32) -> (u32, u32)
        requires some { 1 ≤ i }
        requires there { i ≤ length self.now.places }
        ensures place { result ≡ slice_index_or self.now.places (i - 1) (0, 0) }
        ensures parent { result.0 < i }
        ensures lawful { IsFlat self.now }
    {
        self.places[i as usize - 1]
    }
}

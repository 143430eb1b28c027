//! The drivers of all flat signals, with the columns of a cover kept once for all instances of its
//! model.
ghost use Rattle.std.specs.Prelude.{◌≡◌, ◌<◌, length, map, slice_index_or};
ghost use Rattle.eqc_netlist.specs.Graph.{input};
ghost use Rattle.eqc_netlist.specs.Drivers.{driver_of};
ghost use Rattle.eqc_netlist.specs.StoredDrivers.{driver_from, AreInRange};

pub(crate) mod driver;
pub(crate) mod stored_driver;

use crate::drivers::driver::Driver;
use crate::drivers::stored_driver::StoredDriver;
use crate::flat::signals::Signals;
use crate::graph::Graph;
use smallvec::SmallVec;
use std::marker::Model;

/// The driver of each flat signal. The columns of a cover are kept once for all instances of its
/// model, by the number of the cover, as their places among the names of the model.
#[derive(Drop)]
pub struct Drivers {
    stored: Vec<StoredDriver>,
    columns: Vec<SmallVec<u32, 4>>,
}

impl Model for Drivers {
    ghost use Rattle.std.specs.Prelude.{List, length, map};
    ghost use Rattle.eqc_netlist.specs.Graph.{DriverOf};
    ghost use Rattle.eqc_netlist.specs.StoredDrivers.{driver_from, AreInRange};

    ghost Value = { List DriverOf };

    ghost view = { λ a. map (driver_from (map (λ c. c.items) a.columns.items)) a.stored.items };

    ghost invariant = { λ a. AreInRange (length (map (λ c. c.items) a.columns.items)) (map (driver_from (map (λ c. c.items) a.columns.items)) a.stored.items) };
}

impl Drivers {
    /// These drivers, over the columns of the covers by their numbers.
    pub fn new(stored: Vec<StoredDriver>, columns: Vec<SmallVec<u32, 4>>) -> Drivers
        requires { AreInRange (length (map (λ c. c.items) columns.items)) (map (driver_from (map (λ c. c.items) columns.items)) stored.items) }
        ensures { result ≡ map (driver_from (map (λ c. c.items) columns.items)) stored.items }
    {
        Drivers { stored, columns }
    }

    /// The number of signals.
    pub fn len(&self) -> usize
        ensures { result ≡ length self.now }
    {
        self.stored.len()
    }

    /// The driver of signal `s`, which is below their number.
    pub fn get(&self, s: usize) -> Driver<'_>
        requires { s < length self.now }
        ensures { driver_of result ≡ slice_index_or self.now s (input 0) }
    {
        match self.stored[s] {
            StoredDriver::Input(position) => Driver::Input(position),
            StoredDriver::Tie(other) => Driver::Tie(other),
            StoredDriver::Cover { first, cover } => {
                let places = self.columns[cover as usize].as_slice();
                Driver::Cover {
                    columns: Signals::behind(first, places),
                    rows: cover,
                }
            }
        }
    }
}

impl Graph for Drivers {
    ghost use Rattle.std.specs.Prelude.{length};
    ghost use Rattle.eqc_netlist.specs.Drivers.{signal_deps};

    ghost size = { λ drivers. length drivers };

    ghost deps = { λ drivers s. signal_deps drivers s };

    fn dependency(&self, node: usize, k: usize) -> Option<usize> {
        let on = self.get(node).dependencies();
        if k < on.len() {
            Some(on.get(k) as usize)
        } else {
            None
        }
    }
}

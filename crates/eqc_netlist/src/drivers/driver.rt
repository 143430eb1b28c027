//! What drives a flat signal: an input of the main model, the other end of a connection, or a
//! cover.

use crate::flat::signals::Signals;

/// What drives a flat signal.
#[derive(Drop)]
pub enum Driver<'a> {
    /// The input at this position of the main model.
    Input(u32),
    /// The signal at the other end of a pair of formal and actual.
    Tie(u32),
    /// A cover over these signals, with the rows of this number.
    Cover { columns: Signals<'a>, rows: u32 },
}

impl<'a> Driver<'a> {
    ghost use Rattle.std.specs.Prelude.{◌≡◌};
    ghost use Rattle.eqc_netlist.specs.Graph.{dependencies};
    ghost use Rattle.eqc_netlist.specs.Drivers.{driver_of};

    /// The signals that it depends on, in order and with repeats.
    pub fn dependencies(self) -> Signals<'a>
        ensures { result ≡ dependencies (driver_of self.entry) }
    {
        match self {
            Driver::Input(_) => Signals::of(&[]),
            Driver::Tie(other) => Signals::behind(other, &[0]),
            Driver::Cover { columns, .. } => columns,
        }
    }
}

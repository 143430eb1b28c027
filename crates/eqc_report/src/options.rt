//! What a run may use, workers, nodes, cells and levels that are shared, and the inputs and bytes
//! that a netlist may have, each within its range, and conflicts.
ghost use Rattle.std.specs.Prelude.{◌≡◌};
ghost use Rattle.eqc_report.specs.Options.{options_code, is_cell_count};

use crate::option_rule::OptionRule;

const MAX_WORKERS: u32 = 64;

const MAX_NODES: u32 = 1_048_574;

const MAX_CELLS: u32 = 1_048_576;

const MAX_FORKS: u32 = 16;

const MAX_INPUTS: u32 = 65_535;

const MAX_BYTES: u32 = 2_147_483_647;

/// What a comparison may use, none of which changes the answer, how wide what is compared and how
/// long its text may be, and what is to be told.
#[derive(Clone, Copy, Debug, PartialEq, Eq)]
pub struct Options {
    /// Workers, each with a thread of its own, 1 to 64.
    pub workers: u32,
    /// Nodes of the diagrams that all workers share, 1 to 1,048,574.
    pub nodes: u32,
    /// Cells of the operation cache that all workers share, a power of two from 1 to 1,048,576.
    pub cells: u32,
    /// Levels of an operation that are shared among workers, 0 to 16.
    pub forks: u32,
    /// Conflicts of a search for each output that diagrams leave, 0 for diagrams alone.
    pub conflicts: u32,
    /// Inputs that the main model of a netlist may have, 0 to 65,535.
    pub inputs: u32,
    /// Bytes that the text of a netlist may have, 0 to 2,147,483,647. An order text has its own
    /// limit.
    pub bytes: u32,
    /// Whether each output that differs is told, and not the first alone.
    pub every: bool,
}

impl Options {
    ghost use Rattle.std.specs.Prelude.{◌≡◌, ◌≤◌, ◌<◌, ◌^◌};

    /// How many inputs the main model of a netlist may have, where that is in its range, and else
    /// as many as the range allows.
    pub fn input_limit(&self) -> u16
        ensures { self.now.inputs ≤ 65535 → result ≡ self.now.inputs }
    {
        self.inputs.min(MAX_INPUTS) as u16
    }

    /// How many bytes the text of a netlist may have, where that is in its range, and else as many
    /// as the range allows.
    pub fn byte_limit(&self) -> u32
        ensures small { result < 2 ^ 31 }
        ensures given { self.now.bytes ≤ 2147483647 → result ≡ self.now.bytes }
    {
        self.bytes.min(MAX_BYTES)
    }
}

/// The code of the first option that is out of its range: 81 workers, 82 nodes, 83 cells, 84 forks,
/// 85 inputs, 86 bytes.
pub fn options_fault(options: &Options) -> Option<u8>
    ensures { result ≡ options_code options.now }
{
    let Options {
        workers,
        nodes,
        cells,
        forks,
        inputs,
        bytes,
        ..
    } = *options;
    if !(1..=MAX_WORKERS).contains(&workers) {
        return Some(OptionRule::Workers.code());
    }
    if !(1..=MAX_NODES).contains(&nodes) {
        return Some(OptionRule::Nodes.code());
    }
    if !is_cell_count(cells) {
        return Some(OptionRule::Cells.code());
    }
    if forks > MAX_FORKS {
        return Some(OptionRule::Forks.code());
    }
    if inputs > MAX_INPUTS {
        return Some(OptionRule::Inputs.code());
    }
    if bytes > MAX_BYTES {
        return Some(OptionRule::Bytes.code());
    }
    None
}

fn is_cell_count(cells: u32) -> bool
    ensures { result ≡ is_cell_count cells }
{
    cells.is_power_of_two() && cells <= MAX_CELLS
}

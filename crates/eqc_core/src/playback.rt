//! Lists of events, taken one after the other.
ghost use Rattle.std.specs.Prelude.{◌≡◌, ◌<◌, ◌^◌, length, IfOk, IfErr};
ghost use Rattle.eqc_core.specs.Run.{Runs};
ghost use Rattle.eqc_core.specs.Machine.{state_of, IsKept, EndsAs};
ghost use Rattle.eqc_core.specs.Replay.{StopsWith};

use crate::event::Event;
use crate::machine::Machine;
use crate::state::Core;
use std::alloc::{AllocError, Global};
use thiserror::Error;

/// Why there is no state.
#[derive(Clone, Copy, Debug, PartialEq, Eq, Error)]
pub enum ReplayFault {
    /// More workers, nodes or cells were asked for than a replay takes, or none.
    #[error("the sizes are not those of a replay: 1 to 8 workers, 1 to 16 nodes, 1 to 16 cells")]
    Size,
    /// The allocator refused.
    #[error("the memory is exhausted")]
    Memory,
    /// The event with this index is the first that is not allowed.
    #[error("event {0} is not allowed")]
    Event(u32),
}

// How a run ends.
#[derive(Drop)]
pub(crate) enum Ending {
    Done(Machine),
    // At the event with this index.
    Stopped(u32),
}

// Takes the events, up to the first that is not allowed.
fn run(alloc: Global, start: &Machine, events: &[Event]) -> Result<Ending, AllocError>
    requires kept { IsKept start.now }
    requires few { length events.now < 2 ^ 32 }
    ensures { IfOk result (λ end. EndsAs (state_of start.now) events.now end) }
{
    let mut machine = start.copy(alloc)?;
    for (i, event) in events.iter().enumerate() {
        let taken = machine.take(alloc, *event)?;
        if !taken {
            return Ok(Ending::Stopped(i as u32));
        }
    }
    Ok(Ending::Done(machine))
}

/// The state after these events, each by its worker, in this order.
///
/// The index of the first event that is not allowed is told by `Event`, and want of memory by
/// `Memory`. The core that is lent stays as it is. There are fewer than 2^32 events.
pub fn replay(alloc: Global, core: &Core, events: &[Event]) -> Result<Core, ReplayFault>
    requires { length events.now < 2 ^ 32 }
    ensures ok { IfOk result (λ last. Runs core.now events.now last) }
    ensures sizes { IfOk result (λ last. last.sizes ≡ core.now.sizes) }
    ensures err { IfErr result (λ fault. StopsWith core.now events.now fault) }
{
    match run(alloc, &core.machine, events) {
        Ok(Ending::Done(last)) => Ok(Core { machine: last }),
        Ok(Ending::Stopped(i)) => Err(ReplayFault::Event(i)),
        Err(_) => Err(ReplayFault::Memory),
    }
}

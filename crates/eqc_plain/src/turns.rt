//! How long operations may go on: turns of their loop beyond the first ones are counted.
ghost use Rattle.std.specs.Prelude.{◌≡◌, IfErr};
ghost use Rattle.eqc_plain.specs.Spending.{Spends, IsSpent};

use eqc_tree::Stop;

/// So many first turns are free each time that the loop begins: however many small operations there
/// are, they use up nothing.
pub const FREE_TURNS: u32 = 1_024;

/// Counts a turn of the loop, a step from one pair of operands to the next, in which so many are
/// free yet. The error is `Stop::NodeLimit` alone, where none is left.
pub fn count_turn(turns: &mut Option<u64>, free: &mut u32) -> Result<(), Stop>
    ensures spends { Spends turns.old turns.new }
    ensures spent { IfErr result (λ s. (s ≡ Stop.NodeLimit) × IsSpent turns.new) }
{
    if *free > 0 {
        *free -= 1;
        return Ok(());
    }
    match *turns {
        None => Ok(()),
        Some(0) => Err(Stop::NodeLimit),
        Some(left) => {
            *turns = Some(left - 1);
            Ok(())
        }
    }
}

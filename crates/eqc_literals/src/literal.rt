//! The literal of a step, in a graph that steps of a pair entered.
ghost use Rattle.std.specs.Prelude.{◌≡◌};
ghost use Rattle.eqc_build.specs.Building.{reference_of};

use eqc_xag::Literal;

/// The literal of a step, if it has one. `literals` are those of steps, in the order of these; a
/// step behind them has none.
pub fn literal_of(literals: &[Option<Literal>], step: u32) -> Option<Literal>
    ensures { result ≡ reference_of literals.now step }
{
    literals.get(step as usize).copied().flatten()
}

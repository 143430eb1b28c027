//! What is left of a clause.
ghost use Rattle.std.specs.Prelude.{◌≡◌};
ghost use Rattle.eqc_rup.specs.Checking.{IsLeft};

use crate::falsified::Falsified;
use eqc_xag::Literal;

/// What is left of a clause without the literals that are taken to be false.
pub(crate) enum Left {
    Nothing,
    One(Literal),
    More,
}

/// What is left of a clause.
pub(crate) fn left_of(clause: &[Literal], falsified: &Falsified) -> Left
    ensures { IsLeft clause.now falsified.now result }
{
    let mut left: Option<Literal> = None;
    for l in clause {
        if !falsified.is_false(*l) {
            if left.is_some() {
                return Left::More;
            }
            left = Some(*l);
        }
    }
    match left {
        None => Left::Nothing,
        Some(l) => Left::One(l),
    }
}

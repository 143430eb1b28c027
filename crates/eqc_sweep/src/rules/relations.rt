//! How one literal is related to a conjunction of two others, as far as their numbers tell.
ghost use Rattle.std.specs.Prelude.{IsTrue};
ghost use Rattle.eqc_sweep.specs.Gates.{AreOpposite, Excludes, Implies};

use eqc_xag::{Literal, negated};

/// Whether two literals are complements of one another.
pub(crate) fn are_opposite(x: Literal, y: Literal) -> bool
    ensures { IsTrue result → AreOpposite x y }
{
    y == negated(x)
}

/// Whether one of p and q is the complement of y: then not all three are true.
pub(crate) fn excludes(p: Literal, q: Literal, y: Literal) -> bool
    ensures { IsTrue result → Excludes p q y }
{
    if are_opposite(p, y) {
        return true;
    }
    are_opposite(q, y)
}

/// Whether y is one of p and q: then it is true where both are.
pub(crate) fn implies(p: Literal, q: Literal, y: Literal) -> bool
    ensures { IsTrue result → Implies p q y }
{
    if y == p {
        return true;
    }
    y == q
}

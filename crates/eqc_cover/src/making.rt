//! Operations on references that were made in turn: what is made of them comes in their place.
ghost use Rattle.std.specs.Prelude.{◌≡◌, if◌then◌else◌};
ghost use Rattle.eqc_tree.specs.Holding.{IsHeld, says};
ghost use Rattle.eqc_tree.specs.Operation.{operate};
ghost use Rattle.eqc_cover.specs.Making.{OwnsMade, OwnsInTurn, HasBoth, Inverts, Joins};

use eqc_tree::{Diagrams, Op, References, Stop};

/// Two references of which the second was made after the first. Where it was not made, the first is
/// given back.
fn both<D: References>(
    d: &mut D,
    first: D::Ref,
    second: Result<D::Ref, Stop>,
) -> Result<(D::Ref, D::Ref), Stop>
    requires { OwnsInTurn D.entry (D.holding d.old) first second }
    ensures { HasBoth D.entry (D.holding d.old) (D.holding d.new) first second result }
{
    match second {
        Ok(second) => Ok((first, second)),
        Err(stop) => {
            d.give_back(first);
            Err(stop)
        }
    }
}

/// An operation on a reference and on one that was made after it. Both are given back; where the
/// second was not made, the first is.
pub(crate) fn joined<R, D: Diagrams<R>>(
    rt: &R,
    d: &mut D,
    op: Op,
    front: D::Ref,
    back: Result<D::Ref, Stop>,
) -> Result<D::Ref, Stop>
    requires { OwnsInTurn D.entry (D.holding d.old) front back }
    ensures { Joins D.entry (D.holding d.old) (D.holding d.new) front back result (λ _. operate op) }
{
    let (front, back) = both(d, front, back)?;
    let made = d.apply(rt, op, &front, &back);
    d.give_back(front);
    d.give_back(back);
    made
}

/// The one reference where the column is true, and the other, which was made after it, where the
/// column is false. Both are given back; where the second was not made, the first is.
pub(crate) fn chosen<R, D: Diagrams<R>>(
    rt: &R,
    d: &mut D,
    column: &D::Ref,
    high: D::Ref,
    low: Result<D::Ref, Stop>,
) -> Result<D::Ref, Stop>
    requires column { IsHeld (D.holding d.old) (D.entry column.now) }
    requires owned { OwnsInTurn D.entry (D.holding d.old) high low }
    ensures { Joins D.entry (D.holding d.old) (D.holding d.new) high low result (λ a x y. if says (D.entry column.now) a then x else y) }
{
    let (high, low) = both(d, high, low)?;
    let made = d.ite(rt, column, &high, &low);
    d.give_back(high);
    d.give_back(low);
    made
}

/// The opposite of a function that was made, whose reference is given back.
pub(crate) fn inverted<R, D: Diagrams<R>>(
    rt: &R,
    d: &mut D,
    f: Result<D::Ref, Stop>,
) -> Result<D::Ref, Stop>
    requires { OwnsMade D.entry (D.holding d.old) f }
    ensures { Inverts D.entry (D.holding d.old) (D.holding d.new) f result }
{
    let f = f?;
    let all = d.constant(true);
    joined(rt, d, Op::Xor, f, all)
}

//! The diagram of a list of splits over the diagrams of a cover's columns: each split is made once.
ghost use Rattle.std.specs.Prelude.{◌≡◌, ◌≢◌, ℕ, ◌++◌, ◌∷◌, Bool, [], map, IfErr, OnOk, OnErr};
ghost use Rattle.eqc_tree.specs.Holding.{IsHeld, Keeps, Loses, says};
ghost use Rattle.eqc_cover.specs.Matching.{AreHeld, said};
ghost use Rattle.eqc_cover.specs.Making.{Makes};
ghost use Rattle.eqc_cover.specs.Splits.{split_value, value_of, AreOwned, Gathers, SaySplits};

use crate::expansion::by_table;
use crate::splits::{Choice, Split};
use crate::table::MOST_COLUMNS;
use eqc_tree::{Diagrams, References, Stop};
use std::alloc::Global;

/// The diagram of a choice by a column between two that were made. One whose column or splits there
/// aren't isn't made.
fn by_choice<R, D: Diagrams<R>>(
    rt: &R,
    d: &mut D,
    columns: &[&D::Ref],
    made: &[D::Ref],
    choice: Choice,
) -> Result<D::Ref, Stop>
    requires held { AreHeld D.entry (D.holding d.old) columns.now }
    requires owned { AreOwned D.entry (D.holding d.old) made.now }
    ensures { Makes D.entry (D.holding d.old) (D.holding d.new) result (λ a. split_value (Split.Choice choice) (map (λ r. says (D.entry r) a) made.now) (said D.entry columns.now a)) }
{
    if choice.column >= columns.len() || choice.high >= made.len() || choice.low >= made.len() {
        return Err(Stop::Memory);
    }
    d.ite(
        rt,
        columns[choice.column],
        &made[choice.high],
        &made[choice.low],
    )
}

/// The diagram of a split over those that were made before it.
fn by_split<R, D: Diagrams<R>>(
    rt: &R,
    d: &mut D,
    columns: &[&D::Ref],
    made: &[D::Ref],
    split: Split,
) -> Result<D::Ref, Stop>
    requires held { AreHeld D.entry (D.holding d.old) columns.now }
    requires owned { AreOwned D.entry (D.holding d.old) made.now }
    ensures { Makes D.entry (D.holding d.old) (D.holding d.new) result (λ a. split_value split (map (λ r. says (D.entry r) a) made.now) (said D.entry columns.now a)) }
{
    match split {
        Split::Table(table) => {
            let last = &columns[columns.len().saturating_sub(MOST_COLUMNS)..];
            by_table(rt, d, last, table, [true; MOST_COLUMNS])
        }
        Split::Choice(choice) => by_choice(rt, d, columns, made, choice),
    }
}

/// Puts a reference behind others. Where memory is refused it is given back.
fn gather<D: References>(d: &mut D, made: &mut Vec<D::Ref>, reference: D::Ref) -> Result<(), Stop>
    requires { IsHeld (D.holding d.old) (D.entry reference) }
    ensures ok { OnOk result (made.new.items ≡ made.old.items ++ reference ∷ []) }
    ensures still { OnOk result (Keeps (D.holding d.old) (D.holding d.new)) }
    ensures refused { OnErr result (made.new.items ≡ made.old.items) }
    ensures back { OnErr result (Loses (D.holding d.old) (D.holding d.new) (D.entry reference)) }
    ensures only { IfErr result (λ stop. stop ≡ Stop.Memory) }
{
    match made.push(reference) {
        Ok(()) => Ok(()),
        Err(refused) => {
            d.give_back(refused.value);
            Err(Stop::Memory)
        }
    }
}

/// Makes the splits, one after the other.
fn make_each<R, D: Diagrams<R>>(
    rt: &R,
    d: &mut D,
    columns: &[&D::Ref],
    splits: &[Split],
    made: &mut Vec<D::Ref>,
) -> Result<(), Stop>
    requires held { AreHeld D.entry (D.holding d.old) columns.now }
    requires none { made.old.items ≡ [] }
    ensures gathers { Gathers D.entry (D.holding d.old) (D.holding d.new) made.new.items }
    ensures made { OnOk result ((a : ℕ → Bool) → SaySplits D.entry made.new.items splits.now columns.now a) }
    ensures only { IfErr result (λ stop. stop ≢ Stop.Threads) }
{
    for split in splits {
        let reference = by_split(rt, d, columns, made, *split)?;
        gather(d, made, reference)?;
    }
    Ok(())
}

/// Gives references back.
fn give_back_each<D: References>(d: &mut D, mut made: Vec<D::Ref>)
    requires { AreOwned D.entry (D.holding d.old) made.items }
    ensures { Gathers D.entry (D.holding d.new) (D.holding d.old) made.items }
{
    while let Some(reference) = made.pop() {
        d.give_back(reference);
    }
    made.destroy_empty();
}

/// The diagram of the split at a place. One that there isn't isn't made.
pub(crate) fn by_splits<R, D: Diagrams<R>>(
    alloc: Global,
    rt: &R,
    d: &mut D,
    columns: &[&D::Ref],
    splits: &[Split],
    place: usize,
) -> Result<D::Ref, Stop>
    requires { AreHeld D.entry (D.holding d.old) columns.now }
    ensures { Makes D.entry (D.holding d.old) (D.holding d.new) result (λ a. value_of splits.now place (said D.entry columns.now a)) }
{
    let mut made = Vec::new(alloc);
    let result = match make_each(rt, d, columns, splits, &mut made) {
        Ok(()) if place < made.len() => d.copy(&made[place]),
        Ok(()) => Err(Stop::Memory),
        Err(stop) => Err(stop),
    };
    give_back_each(d, made);
    result
}

//! The least assignment of a pair's inputs, for any order of these as variables, under which a
//! function is true.
ghost use Rattle.std.specs.Prelude.{◌≡◌, ◌≢◌, ℕ, ◌<◌, ◌≤◌, length, IfOk, IfErr};
ghost use Rattle.eqc_tree.specs.Holding.{IsHeld, says, Keeps};
ghost use Rattle.eqc_tree.specs.Assigned.{IsSatisfiable};
ghost use Rattle.eqc_compare.specs.Assigned.{DependsBelow};
ghost use Rattle.eqc_pair.specs.PairOf.{input_values};
ghost use Rattle.eqc_compare.specs.VerdictLaws.{IsLeast};

use eqc_cover::least_over;
use eqc_pair::Pair;
use eqc_tree::{Diagrams, References, Stop};
use std::alloc::Global;

/// The least assignment of the first netlist's inputs under which a function is true, in
/// lexicographic order, 0 before 1. The pair's order of variables plays no part.
///
/// `d` has at least as many variables as the pair has inputs. `f` is a reference of `d` whose
/// function is true under some assignment, and depends on no variable from the pair's number of
/// inputs upwards. The errors are those of the diagrams, `NodeLimit`, `Memory` and `References`,
/// and `Memory` where memory is refused. All references are given back, whatever the answer.
pub fn least_assignment<R, D: Diagrams<R>>(
    rt: &R,
    alloc: Global,
    d: &mut D,
    pair: &Pair<'_>,
    f: &D::Ref,
) -> Result<Vec<bool>, Stop>
    requires held { IsHeld (D.holding d.old) (D.entry f.now) }
    requires variables { length pair.now.first.inputs ≤ (D.holding d.old).variables }
    requires satisfiable { IsSatisfiable (says (D.entry f.now)) }
    requires depends { DependsBelow (length pair.now.first.inputs) (says (D.entry f.now)) }
    ensures least { IfOk result (λ least. IsLeast (length pair.now.first.inputs) (λ values. says (D.entry f.now) (input_values pair.now values)) least.items) }
    ensures kept { Keeps (D.holding d.old) (D.holding d.new) }
    ensures only { IfErr result (λ s. s ≢ Stop.Threads) }
{
    least_over(alloc, rt, d, pair.variables(), f)
}

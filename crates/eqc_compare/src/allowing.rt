//! Whether the assumption of a pair allows no assignment at all.
ghost use Rattle.std.specs.Prelude.{◌≡◌, ◌≢◌, ◌↔◌, ℕ, ◌≤◌, ◌∷◌, [], Bool, IsTrue, false, length, IfOk, IfErr};
ghost use Rattle.eqc_tree.specs.Holding.{Keeps};
ghost use Rattle.eqc_build.specs.Steps.{value_at};
ghost use Rattle.eqc_build.specs.Turns.{AreKept, IsTurn, MovesKept};
ghost use Rattle.eqc_compare.specs.Verdict.{allows_none};
ghost use Rattle.eqc_compare.specs.Comparing.{assumption_of, netlist_of};

use eqc_build::{Plan, StepDiagrams, Steps, plan_below};
use eqc_cover::is_false;
use eqc_pair::Pair;
use eqc_tree::{Diagrams, References, Stop};
use std::alloc::Global;

/// Whether a step's value is 0 under all assignments, in the only turn of its plan.
fn is_never_true<R, D: Diagrams<R>>(
    alloc: Global,
    rt: &R,
    d: &mut D,
    plan: &Plan<'_>,
    kept: &mut StepDiagrams<D::Ref>,
    step: u32,
) -> Result<bool, Stop>
    requires turn { IsTurn plan.now (step ∷ []) 1 }
    requires kept { AreKept D.entry plan.now.steps.pair (D.holding d.old) kept.old.table }
    ensures never { IfOk result (λ never. IsTrue never ↔ ((a : ℕ → Bool) → value_at plan.now.steps.pair a step ≡ false)) }
    ensures moves { MovesKept D.entry plan.now.steps.pair (D.holding d.old) kept.old.table (D.holding d.new) kept.new.table }
    ensures only { IfErr result (λ s. s ≢ Stop.Threads) }
{
    kept.complete(alloc, rt, d, plan, &[step], 1)?;
    Ok(is_false(d, kept.get(step)))
}

/// The same, from no references to none.
fn is_never_built<R, D: Diagrams<R>>(
    alloc: Global,
    rt: &R,
    d: &mut D,
    plan: &Plan<'_>,
    step: u32,
) -> Result<bool, Stop>
    requires variables { length plan.now.steps.pair.first.inputs ≤ (D.holding d.old).variables }
    requires turn { IsTurn plan.now (step ∷ []) 1 }
    ensures never { IfOk result (λ never. IsTrue never ↔ ((a : ℕ → Bool) → value_at plan.now.steps.pair a step ≡ false)) }
    ensures kept { Keeps (D.holding d.old) (D.holding d.new) }
    ensures only { IfErr result (λ s. s ≢ Stop.Threads) }
{
    let mut kept = StepDiagrams::for_few(alloc, plan);
    let never = is_never_true(alloc, rt, d, plan, &mut kept, step);
    kept.give_back(d);
    never
}

/// Whether a pair has an assumption that allows no assignment: its output is 0 under all of them.
///
/// `d` has at least as many variables as the pair has inputs. The diagram of each signal that the
/// assumption's output depends on is built, and of no other. The errors are those of the diagrams,
/// `NodeLimit`, `Memory` and `References`, and `Memory` where memory is refused. All references are
/// given back, whatever the answer.
pub fn allows_none<R, D: Diagrams<R>>(
    rt: &R,
    alloc: Global,
    d: &mut D,
    pair: &Pair<'_>,
) -> Result<bool, Stop>
    requires variables { length pair.now.first.inputs ≤ (D.holding d.old).variables }
    ensures none { IfOk result (λ none. none ≡ allows_none (netlist_of pair.now.first) (assumption_of pair.now)) }
    ensures kept { Keeps (D.holding d.old) (D.holding d.new) }
    ensures only { IfErr result (λ s. s ≢ Stop.Threads) }
{
    let steps = Steps::each(alloc, pair);
    let _count = steps.len();
    let Some(root) = steps.assumed_root() else {
        return Ok(false);
    };
    let plan = plan_below(alloc, steps, &[root])?;
    is_never_built(alloc, rt, d, &plan, root)
}

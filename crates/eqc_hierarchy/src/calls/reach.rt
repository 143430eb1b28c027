//! The models that a main model reaches by instances, itself among them.
ghost use Rattle.std.specs.Prelude.{◌≡◌, ℕ, ◌+◌, ◌<◌, ◌≤◌, [], length, replicate, IfOk, OnOk, true, false, nat_lt};
ghost use Rattle.std.specs.List.{list_all};
ghost use Rattle.eqc_netlist.specs.Dependency.{among};
ghost use Rattle.eqc_hierarchy.specs.Hierarchy.{reached};
ghost use Rattle.eqc_hierarchy.specs.Reaching.{IsReaching};

use crate::calls::Calls;
use std::alloc::{AllocError, Global};

/// Lists the models that model `top` reaches, of which none is seen yet. Fails where memory is
/// refused.
fn list_reached(
    calls: &Calls<'_>,
    top: usize,
    seen: &mut Vec<bool>,
    all: &mut Vec<usize>,
) -> Result<(), AllocError>
    requires top { top ≤ length calls.now }
    requires unseen { seen.old.items ≡ replicate (length calls.now + 1) false }
    requires empty { all.old.items ≡ [] }
    ensures { OnOk result ((k : ℕ) × (length all.new.items ≤ k) × IsReaching calls.now top (length calls.now + 1) seen.new.items all.new.items k) }
{
    all.push(top)?;
    seen[top] = true;
    let mut k = 0;
    'models: while k < all.len() {
        let m = all[k];
        'callees: for callee in calls.callees(m) {
            if seen[*callee] {
                continue;
            }
            all.push(*callee)?;
            seen[*callee] = true;
        }
        k += 1;
    }
    Ok(())
}

/// The numbers of the models that model `top` reaches by instances, each once and `top` first. The
/// number of models stands for one that isn't there; `top` is at most that. Fails where memory is
/// refused.
pub(crate) fn reached_models(
    alloc: Global,
    calls: &Calls<'_>,
    top: usize,
) -> Result<Vec<usize>, AllocError>
    requires { top ≤ length calls.now }
    ensures each { IfOk result (λ all. (m : ℕ) → among all.items m ≡ among (reached calls.now top) m) }
    ensures within { IfOk result (λ all. list_all (λ m. nat_lt m (length calls.now + 1)) all.items ≡ true) }
{
    let mut seen = vec![in alloc; false; calls.nodes()]?;
    let mut all = Vec::new(alloc);
    list_reached(calls, top, &mut seen, &mut all)?;
    Ok(all)
}

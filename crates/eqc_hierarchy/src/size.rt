//! How many signals and instances a hierarchy has, counted model by model, since they may be too
//! many to number.
ghost use Rattle.std.specs.Prelude.{◌≡◌, ℕ, ◌+◌, ◌-◌, ◌<◌, ◌≤◌, None, length, vec_len, true, false, slice_index_or, IfOk};
ghost use Rattle.std.specs.List.{sum_by};
ghost use Rattle.eqc_hierarchy.specs.Codes.{is_recursive};
ghost use Rattle.eqc_netlist.specs.Dependency.{among};
ghost use Rattle.eqc_hierarchy.specs.Hierarchy.{model, callees, paths};
ghost use Rattle.eqc_hierarchy.specs.Signals.{names_of, signals};
ghost use Rattle.eqc_hierarchy.specs.Sizes.{IsTold, model_size, IsCallOrder};

use crate::calls::Calls;
use crate::naming::Naming;
use crate::search::Search;
use eqc_blif::Library;
use std::alloc::{AllocError, Global};

/// Two numbers and one more together. None stands for a number over 2^64 - 1.
fn sum_and_one(first: Option<usize>, second: Option<usize>) -> Option<usize>
    ensures { (m n : ℕ) → IsTold first m → IsTold second n → IsTold result (m + n + 1) }
{
    first?.checked_add(second?)?.checked_add(1)
}

/// The number of signals and instances below model `m`, which is no instance itself, from those of
/// the models of its instances. None stands for a number over 2^64 - 1.
fn size_by_callees(
    calls: &Calls<'_>,
    naming: &Naming<'_>,
    sizes: &Vec<Option<usize>>,
    m: usize,
) -> Option<usize>
    requires same { naming.now ≡ calls.now }
    requires there { m ≤ length calls.now }
    requires each { vec_len sizes.now ≡ length calls.now + 1 }
    requires known { (c : ℕ) → among (callees calls.now m) c ≡ true → IsTold (slice_index_or sizes.now.items c None) (model_size calls.now c) }
    ensures { IsTold result (length (names_of (model calls.now m)) + sum_by (λ c. model_size calls.now c + 1) (callees calls.now m)) }
{
    let mut size = Some(naming.count(m));
    'callees: for callee in calls.callees(m) {
        size = sum_and_one(size, sizes[*callee]);
    }
    size
}

/// The number of signals and instances below each of these models, each of which stands after the
/// models of its instances. None stands for a number over 2^64 - 1, and for that of any other
/// model. Fails where memory is refused.
fn sizes_of(
    alloc: Global,
    calls: &Calls<'_>,
    naming: &Naming<'_>,
    order: &[usize],
) -> Result<Vec<Option<usize>>, AllocError>
    requires same { naming.now ≡ calls.now }
    requires ordered { IsCallOrder calls.now order.now }
    ensures each { IfOk result (λ sizes. length sizes.items ≡ length calls.now + 1) }
    ensures told { IfOk result (λ sizes. (m : ℕ) → among order.now m ≡ true → IsTold (slice_index_or sizes.items m None) (model_size calls.now m)) }
{
    let mut sizes = vec![in alloc; None; calls.nodes()]?;
    for k in 0..order.len() {
        let m = order[k];
        let size = size_by_callees(calls, naming, &sizes, m);
        sizes[m] = size;
    }
    Ok(sizes)
}

/// The number of flat signals and instances together below model `top`, whose models never reach
/// themselves, or none where it is over 2^64 - 1. It is counted model by model, since there can be
/// far more instances than a text has lines. Fails where memory is refused.
pub fn hierarchy_size(
    alloc: Global,
    library: &Library,
    top: usize,
) -> Result<Option<usize>, AllocError>
    requires there { top < length library.now }
    requires ends { is_recursive library.now top ≡ false }
    ensures { IfOk result (λ size. IsTold size (length (signals library.now top) + (length (paths library.now top) - 1))) }
{
    let calls = Calls::of(alloc, library)?;
    let (naming, _) = Naming::of(alloc, library)?;
    let mut search = Search::new(alloc, calls.nodes())?;
    let _ends = search.visit(alloc, &calls, top)?;
    let order = search.into_order();
    let sizes = sizes_of(alloc, &calls, &naming, &order)?;
    Ok(sizes[top])
}

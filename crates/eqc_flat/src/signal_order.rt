//! An order of the flat signals by dependency, or a way into a circle where they have none.
ghost use Rattle.std.specs.Prelude.{◌≡◌, ◌<◌, ◌≤◌, length, nat_lt, true, false, IfOk, MatchOption};
ghost use Rattle.std.specs.List.{list_all};
ghost use Rattle.eqc_hierarchy.specs.Searching.{IsClosed};
ghost use Rattle.eqc_flat.specs.Ordering.{IsOrder, IsCircular, IsTrail, HasNoOrder};
ghost use Rattle.eqc_netlist.specs.Drivers.{signal_deps};

use eqc_hierarchy::Search;
use eqc_netlist::Drivers;
use std::alloc::{AllocError, Global};

/// The same numbers in less room. Fails where memory is refused.
fn narrow(alloc: Global, numbers: &[usize]) -> Result<Vec<u32>, AllocError>
    requires { list_all (λ x. nat_lt x 1048576) numbers.now ≡ true }
    ensures { IfOk result (λ all. all.items ≡ numbers.now) }
{
    let mut all = Vec::with_capacity(alloc, numbers.len())?;
    for k in 0..numbers.len() {
        all.push(numbers[k] as u32)?;
    }
    Ok(all)
}

/// A search through all signals with these drivers, and whether it came to its end: it doesn't
/// where a signal depends on itself. Fails where memory is refused.
fn search_all(alloc: Global, drivers: &Drivers) -> Result<(bool, Search), AllocError>
    requires few { length drivers.now ≤ 1048576 }
    requires closed { IsClosed (signal_deps drivers.now) (length drivers.now) }
    ensures order { IfOk result (λ done. done.0 ≡ true → IsOrder drivers.now done.1.order.items) }
    ensures small { IfOk result (λ done. done.0 ≡ true → list_all (λ x. nat_lt x 1048576) done.1.order.items ≡ true) }
    ensures circle { IfOk result (λ done. done.0 ≡ false → IsCircular drivers.now) }
    ensures trail { IfOk result (λ done. done.0 ≡ false → IsTrail drivers.now done.1.trail.items) }
{
    let mut search = Search::new(alloc, drivers.len())?;
    for s in 0..drivers.len() {
        if !search.visit(alloc, drivers, s)? {
            return Ok((false, search));
        }
    }
    Ok((true, search))
}

/// An order of the signals with these drivers in which each stands after those that it depends on,
/// or none where one depends on itself. Fails where memory is refused.
pub(crate) fn order_of(alloc: Global, drivers: &Drivers) -> Result<Option<Vec<u32>>, AllocError>
    requires few { length drivers.now ≤ 1048576 }
    requires closed { IsClosed (signal_deps drivers.now) (length drivers.now) }
    ensures { IfOk result (λ found. MatchOption found
        (IsCircular drivers.now)
        (λ order. IsOrder drivers.now order.items)) }
{
    let (ended, search) = search_all(alloc, drivers)?;
    if !ended {
        return Ok(None);
    }
    let order = search.into_order();
    let steps = narrow(alloc, &order)?;
    Ok(Some(steps))
}

/// A way into a circle along signals with these drivers, which have no order. Fails where memory is
/// refused.
pub(crate) fn trail_of(alloc: Global, drivers: &Drivers) -> Result<Vec<usize>, AllocError>
    requires few { length drivers.now ≤ 1048576 }
    requires closed { IsClosed (signal_deps drivers.now) (length drivers.now) }
    requires circular { HasNoOrder drivers.now }
    ensures { IfOk result (λ trail. IsTrail drivers.now trail.items) }
{
    let (_, search) = search_all(alloc, drivers)?;
    Ok(search.into_trail())
}

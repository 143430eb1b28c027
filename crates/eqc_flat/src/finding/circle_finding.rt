//! The circle of signals that a hierarchy is refused for, and the names of the first of its
//! signals.
ghost use Rattle.std.specs.Prelude.{◌≡◌, ℕ, ◌+◌, ◌-◌, ◌<◌, length, map, take, Some, slice_index_or, IfOk};
ghost use Rattle.eqc_hierarchy.specs.Codes.{IsRefusedWith};
ghost use Rattle.eqc_flat.specs.Flattened.{signal_at};
ghost use Rattle.eqc_hierarchy.specs.Signals.{signals};
ghost use Rattle.eqc_hierarchy.specs.Walks.{from_on};
ghost use Rattle.eqc_flat.specs.Finding.{hierarchical_name, IsCircle};
ghost use Rattle.eqc_hierarchy.specs.Columns.{all_columns};
ghost use Rattle.eqc_flat.specs.Ordering.{IsTrailBelow};

use crate::drivers::driver_table::drivers_of;
use crate::drivers::row_table::RowTable;
use crate::finding::circle::Circle;
use crate::finding::driver_findings::expanded_below;
use crate::finding::hierarchical_name::HierarchicalName;
use crate::hierarchy::Hierarchy;
use crate::signal_order::trail_of;
use eqc_blif::Library;
use eqc_hierarchy::Naming;
use smallvec::SmallVec;
use std::alloc::{AllocError, Global};

/// How many signals of a circle are named.
const NAMED: usize = 20;

/// The names of the first of these signals. Fails where memory is refused.
fn first_names<'a>(
    alloc: Global,
    hierarchy: &Hierarchy<'_, 'a>,
    members: &[usize],
) -> Result<Vec<HierarchicalName<'a>>, AllocError>
    requires { (k : ℕ) → k < length members.now → slice_index_or members.now k 0 < length (signals hierarchy.now.0 hierarchy.now.1) }
    ensures { IfOk result (λ names. names.items ≡ map (λ s. hierarchical_name hierarchy.now.0 hierarchy.now.1 (signal_at hierarchy.now.0 hierarchy.now.1 s)) (take 20 members.now)) }
{
    let mut names = Vec::new(alloc);
    for k in 0..members.len() {
        if k >= NAMED {
            return Ok(names);
        }
        names.push(hierarchy.name_of(alloc, members[k])?)?;
    }
    Ok(names)
}

/// Where the last node of a walk, which stands before too, first stands in it.
fn start_of(walk: &[usize]) -> usize
    requires { (j : ℕ) × (j + 1 < length walk.now) × (slice_index_or walk.now j 0 ≡ slice_index_or walk.now (length walk.now - 1) 0) }
    ensures before { result + 1 < length walk.now }
    ensures same { slice_index_or walk.now result 0 ≡ slice_index_or walk.now (length walk.now - 1) 0 }
{
    let node = walk[walk.len() - 1];
    walk.iter().position(|other| *other == node).unwrap()
}

/// The circle at the end of a walk through signals. Fails where memory is refused.
fn named_circle<'a>(
    alloc: Global,
    hierarchy: &Hierarchy<'_, 'a>,
    walk: &[usize],
) -> Result<Circle<'a>, AllocError>
    requires back { (j : ℕ) × (j + 1 < length walk.now) × (slice_index_or walk.now j 0 ≡ slice_index_or walk.now (length walk.now - 1) 0) }
    requires within { (k : ℕ) → k < length walk.now → slice_index_or walk.now k 0 < length (signals hierarchy.now.0 hierarchy.now.1) }
    ensures { IfOk result (λ circle. (start : ℕ) × (start + 1 < length walk.now) × (slice_index_or walk.now start 0 ≡ slice_index_or walk.now (length walk.now - 1) 0) × (circle ≡ (map (λ s. hierarchical_name hierarchy.now.0 hierarchy.now.1 (signal_at hierarchy.now.0 hierarchy.now.1 s)) (take 20 (from_on start walk.now)), length (from_on start walk.now)))) }
{
    let start = start_of(walk);
    let (_, round) = walk.split_at(start);
    let (members, _) = round.split_at(round.len() - 1);
    let names = first_names(alloc, hierarchy, members)?;
    Ok(Circle::new(names, members.len()))
}

/// A way into a circle of signals, in a hierarchy with these places of columns that is refused for
/// one. Fails where memory is refused.
fn trail_in(
    alloc: Global,
    library: &Library,
    hierarchy: &Hierarchy<'_, '_>,
    columns: Vec<SmallVec<u32, 4>>,
) -> Result<Vec<usize>, AllocError>
    requires same { library.now ≡ hierarchy.now.0 }
    requires refused { IsRefusedWith hierarchy.now.0 hierarchy.now.1 28 }
    requires columns { map (λ c. c.items) columns.items ≡ all_columns hierarchy.now.0 }
    ensures { IfOk result (λ trail. IsTrailBelow hierarchy.now.0 hierarchy.now.1 trail.items) }
{
    let rows = RowTable::of(alloc, library)?;
    // Each signal has one driver, so that nothing but memory can be refused.
    let Ok(drivers) = drivers_of(alloc, hierarchy, &rows, columns) else {
        return Err(AllocError);
    };
    trail_of(alloc, &drivers)
}

/// A circle of signals, in a hierarchy with these places of columns that is refused for one. Fails
/// where memory is refused.
fn circle_in<'a>(
    alloc: Global,
    library: &Library,
    hierarchy: &Hierarchy<'_, 'a>,
    columns: Vec<SmallVec<u32, 4>>,
) -> Result<Circle<'a>, AllocError>
    requires same { library.now ≡ hierarchy.now.0 }
    requires refused { IsRefusedWith hierarchy.now.0 hierarchy.now.1 28 }
    requires columns { map (λ c. c.items) columns.items ≡ all_columns hierarchy.now.0 }
    ensures { IfOk result (λ circle. IsCircle hierarchy.now.0 hierarchy.now.1 circle) }
{
    let trail = trail_in(alloc, library, hierarchy, columns)?;
    let circle = named_circle(alloc, hierarchy, &trail)?;
    Ok(circle)
}

/// A circle of signals, below a model that is refused for one. Fails where memory is refused.
pub(crate) fn circle_below(
    alloc: Global,
    library: &Library,
    top: usize,
) -> Result<Circle<'_>, AllocError>
    requires there { top < length library.now }
    requires refused { IsRefusedWith library.now top 28 }
    ensures { IfOk result (λ circle. IsCircle library.now top circle) }
{
    let (naming, columns) = Naming::of(alloc, library)?;
    let hierarchy = expanded_below(alloc, library, &naming, top)?;
    circle_in(alloc, library, &hierarchy, columns)
}

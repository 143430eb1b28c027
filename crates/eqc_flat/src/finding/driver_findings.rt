//! The signal that is driven twice, or by nothing, in a hierarchy that is refused for one.
ghost use Rattle.std.specs.Prelude.{◌≡◌, ◌<◌, ◌≤◌, length, false, Some, IfOk};
ghost use Rattle.eqc_hierarchy.specs.Hierarchy.{model};
ghost use Rattle.eqc_hierarchy.specs.Signals.{signals, sources, drivings};
ghost use Rattle.eqc_hierarchy.specs.Codes.{IsRefusedWith, has_unknown_formal, is_recursive, is_too_large};
ghost use Rattle.eqc_flat.specs.Flattened.{signal_at};
ghost use Rattle.eqc_flat.specs.DriverTable.{IsTable, driven_code, IsDrivenSo, NamesDriven};
ghost use Rattle.eqc_flat.specs.Instances.{IsExpansion};

use crate::drivers::driver_table::{Driven, DriverTable};
use crate::drivers::row_table::RowTable;
use crate::finding::hierarchical_name::HierarchicalName;
use crate::hierarchy::Hierarchy;
use eqc_blif::Library;
use eqc_hierarchy::{Calls, Naming};
use std::alloc::{AllocError, Global};

/// The hierarchy below model `top` of a library, which is neither recursive nor too large, over the
/// names of its models. Fails where memory is refused.
pub(crate) fn expanded_below<'n, 'a>(
    alloc: Global,
    library: &'a Library,
    naming: &'n Naming<'a>,
    top: usize,
) -> Result<Hierarchy<'n, 'a>, AllocError>
    requires there { top < length library.now }
    requires named { naming.now ≡ library.now }
    requires ends { is_recursive library.now top ≡ false }
    requires small { is_too_large library.now top ≡ false }
    ensures { IfOk result (λ made. IsExpansion library.now top made) }
{
    let calls = Calls::of(alloc, library)?;
    let found = Hierarchy::of(alloc, calls, naming, top)?;
    Ok(found.unwrap())
}

/// What drives the signals of a hierarchy. Fails where memory is refused.
fn table_in(
    alloc: Global,
    library: &Library,
    hierarchy: &Hierarchy<'_, '_>,
) -> Result<DriverTable, AllocError>
    requires same { library.now ≡ hierarchy.now.0 }
    requires few { length (model hierarchy.now.0 hierarchy.now.1).inputs ≤ 65535 }
    requires known { has_unknown_formal hierarchy.now.0 hierarchy.now.1 ≡ false }
    ensures { IfOk result (λ table. IsTable hierarchy.now.0 hierarchy.now.1 table.0 table.1 (drivings hierarchy.now.0 hierarchy.now.1)) }
{
    let rows = RowTable::of(alloc, library)?;
    DriverTable::of(alloc, hierarchy, &rows)
}

/// A signal that is driven so, in a hierarchy that is refused for one. Fails where memory is
/// refused.
fn driven_in(
    alloc: Global,
    library: &Library,
    hierarchy: &Hierarchy<'_, '_>,
    driven: Driven,
) -> Result<usize, AllocError>
    requires same { library.now ≡ hierarchy.now.0 }
    requires refused { IsRefusedWith hierarchy.now.0 hierarchy.now.1 (driven_code driven) }
    ensures within { IfOk result (λ s. s < length (signals hierarchy.now.0 hierarchy.now.1)) }
    ensures driven { IfOk result (λ s. IsDrivenSo driven hierarchy.now.0 hierarchy.now.1 s) }
{
    let table = table_in(alloc, library, hierarchy)?;
    Ok(table.first_driven(driven).unwrap())
}

/// The name of a signal that is driven so, in a hierarchy that is refused for one. Fails where
/// memory is refused.
fn driven_named<'a>(
    alloc: Global,
    library: &Library,
    hierarchy: &Hierarchy<'_, 'a>,
    driven: Driven,
) -> Result<HierarchicalName<'a>, AllocError>
    requires same { library.now ≡ hierarchy.now.0 }
    requires refused { IsRefusedWith hierarchy.now.0 hierarchy.now.1 (driven_code driven) }
    ensures { IfOk result (λ name. NamesDriven driven hierarchy.now.0 hierarchy.now.1 name) }
{
    let signal = driven_in(alloc, library, hierarchy, driven)?;
    hierarchy.name_of(alloc, signal)
}

/// The name of a signal that is driven so, below a model that is refused for one. Fails where
/// memory is refused.
pub(crate) fn driven_below(
    alloc: Global,
    library: &Library,
    top: usize,
    driven: Driven,
) -> Result<HierarchicalName<'_>, AllocError>
    requires there { top < length library.now }
    requires refused { IsRefusedWith library.now top (driven_code driven) }
    ensures { IfOk result (λ name. NamesDriven driven library.now top name) }
{
    let (naming, _) = Naming::of(alloc, library)?;
    let hierarchy = expanded_below(alloc, library, &naming, top)?;
    driven_named(alloc, library, &hierarchy, driven)
}

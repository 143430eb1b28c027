//! The names that occur in one model, each once, and where the columns of its covers stand among
//! them.
ghost use Rattle.std.specs.Prelude.{◌≡◌, ℕ, ◌<◌, ◌++◌, List, [], length, map, IfOk, OnOk};
ghost use Rattle.std.specs.List.{fold, flat_map};
ghost use Rattle.eqc_hierarchy.specs.Hierarchy.{model};
ghost use Rattle.eqc_netlist.specs.NameSets.{with_name};
ghost use Rattle.eqc_hierarchy.specs.Signals.{cover_names, actuals, names_of};
ghost use Rattle.eqc_hierarchy.specs.Columns.{places_in, columns_in, columns_of};

use eqc_blif::{Cover, Instance, Library, Name};
use eqc_netlist::NameSet;
use smallvec::SmallVec;
use std::alloc::{AllocError, Global};

/// The place at position `k`, or 0 where there are not so many.
fn place_at(places: &[u32], k: usize) -> u32 {
    match places.get(k) {
        Some(place) => *place,
        None => 0,
    }
}

/// The places of the columns of the last cover, or none where there is no cover.
fn last_places(columns: &[SmallVec<u32, 4>]) -> &[u32] {
    match columns.last() {
        Some(places) => places.as_slice(),
        None => &[],
    }
}

/// Puts in the names of these columns, and answers the place of each. Many stand in the cover
/// before: in the same column, or as its output. So the places there, `before` and `output`, are
/// looked at first, and nothing but the time depends on them.
fn insert_columns<'a>(
    alloc: Global,
    names: &mut NameSet<'a>,
    columns: &'a [Name],
    before: &[u32],
    output: u32,
) -> Result<SmallVec<u32, 4>, AllocError>
    ensures names { OnOk result (names.new ≡ fold with_name names.old columns.now) }
    ensures places { IfOk result (λ places. (later : List (List ℕ)) → places.items ≡ places_in (fold with_name names.new later) columns.now) }
{
    let mut places = SmallVec::with_capacity(alloc, columns.len())?;
    'columns: for column in columns {
        let near = place_at(before, places.len());
        places.push(names.place_near(column, near, output)?)?;
    }
    Ok(places)
}

/// Puts in the names of the columns and the output of each of these covers, the places of the
/// columns behind others, and that of the output behind other outputs.
fn insert_covers<'a>(
    alloc: Global,
    names: &mut NameSet<'a>,
    columns: &mut Vec<SmallVec<u32, 4>>,
    outputs: &mut Vec<u32>,
    covers: &'a [Cover],
) -> Result<(), AllocError>
    ensures names { OnOk result (names.new ≡ fold with_name names.old (flat_map cover_names covers.now)) }
    ensures columns { OnOk result ((later : List (List ℕ)) → map (λ c. c.items) columns.new.items ≡ map (λ c. c.items) columns.old.items ++ columns_in (fold with_name names.new later) covers.now) }
{
    columns.reserve(covers.len())?;
    outputs.reserve(covers.len())?;
    names.reserve(covers.len())?;
    let mut output = 0;
    'covers: for cover in covers {
        let before = last_places(columns);
        let places = insert_columns(alloc, names, &cover.columns, before, output)?;
        columns.push(places)?;
        output = names.place(&cover.output)?;
        outputs.push(output)?;
    }
    Ok(())
}

/// Puts in the actuals of an instance.
fn insert_pairs<'a>(names: &mut NameSet<'a>, instance: &'a Instance) -> Result<(), AllocError>
    ensures { OnOk result (names.new ≡ fold with_name names.old (actuals instance.now)) }
{
    'pairs: for pair in &instance.pairs {
        names.insert(&pair.1)?;
    }
    Ok(())
}

/// Puts in the actuals of each of these instances.
fn insert_actuals<'a>(names: &mut NameSet<'a>, instances: &'a [Instance]) -> Result<(), AllocError>
    ensures { OnOk result (names.new ≡ fold with_name names.old (flat_map actuals instances.now)) }
{
    'instances: for instance in instances {
        insert_pairs(names, instance)?;
    }
    Ok(())
}

/// Puts the names that occur in model `m` of a library, which is below the number of models, into
/// an empty set, and the places of its covers' columns among them behind `columns`, and those of
/// their outputs behind `outputs`.
fn insert_names<'a>(
    alloc: Global,
    names: &mut NameSet<'a>,
    columns: &mut Vec<SmallVec<u32, 4>>,
    outputs: &mut Vec<u32>,
    library: &'a Library,
    m: usize,
) -> Result<(), AllocError>
    requires there { m < length library.now }
    requires empty { names.old ≡ [] }
    ensures names { OnOk result (names.new ≡ names_of (model library.now m)) }
    ensures columns { OnOk result (map (λ c. c.items) columns.new.items ≡ map (λ c. c.items) columns.old.items ++ columns_of (model library.now m)) }
{
    names.insert_all(library.inputs(m))?;
    names.insert_all(library.outputs(m))?;
    insert_covers(alloc, names, columns, outputs, library.covers(m))?;
    insert_actuals(names, library.instances(m))?;
    Ok(())
}

/// The names that occur in model `m` of a library, which is below the number of models: those of
/// its inputs, outputs, covers and actuals, each once. The places of its covers' columns among them
/// go behind `columns`, and those of their outputs behind `outputs`. Fails where memory is refused.
pub(crate) fn names_of<'a>(
    alloc: Global,
    library: &'a Library,
    m: usize,
    columns: &mut Vec<SmallVec<u32, 4>>,
    outputs: &mut Vec<u32>,
) -> Result<NameSet<'a>, AllocError>
    requires { m < length library.now }
    ensures names { IfOk result (λ names. names ≡ names_of (model library.now m)) }
    ensures columns { OnOk result (map (λ c. c.items) columns.new.items ≡ map (λ c. c.items) columns.old.items ++ columns_of (model library.now m)) }
{
    let mut names = NameSet::new(alloc, library.key());
    insert_names(alloc, &mut names, columns, outputs, library, m)?;
    Ok(names)
}

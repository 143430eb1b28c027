//! The rows of all covers of a library, numbered once, so that the instances of a model share them.
ghost use Rattle.std.specs.Prelude.{◌≡◌, ◌+◌, ◌<◌, ◌++◌, [], length, map, slice_index_or, IfOk, OnOk};
ghost use Rattle.eqc_blif.specs.Netlist.{no_cover};
ghost use Rattle.eqc_hierarchy.specs.Hierarchy.{model};
ghost use Rattle.eqc_flat.specs.RowTable.{all_rows};
ghost use Rattle.eqc_hierarchy.specs.Signals.{names_of};
ghost use Rattle.eqc_hierarchy.specs.Columns.{places_in, all_columns};

use eqc_blif::{Cover, Library, Rows};
use std::alloc::{AllocError, Global};
use std::marker::Model;

/// The rows of all covers of a library, numbered model by model.
#[derive(Drop)]
pub(crate) struct RowTable<'a> {
    library: &'a Library,
    firsts: Vec<usize>,
    rows: Vec<Rows<'a>>,
}

impl<'a> Model for RowTable<'a> {
    ghost use Rattle.std.specs.Prelude.{List};
    ghost use Rattle.eqc_blif.specs.Netlist.{ModelOf};
    ghost use Rattle.eqc_flat.specs.RowTable.{IsRowTable};

    ghost Value = { List ModelOf };

    ghost view = { λ a. a.library.now };

    ghost invariant = { λ a. IsRowTable a.library.now a.firsts.items a.rows.items };
}

/// Puts the rows of these covers behind others. Fails where memory is refused.
fn push_rows<'a>(all: &mut Vec<Rows<'a>>, covers: &'a [Cover]) -> Result<(), AllocError>
    ensures { OnOk result (all.new.items ≡ all.old.items ++ map (λ c. c.rows) covers.now) }
{
    all.reserve(covers.len())?;
    'covers: for cover in covers {
        all.push(cover.rows())?;
    }
    Ok(())
}

impl<'a> RowTable<'a> {
    /// The rows of a library's covers. Fails where memory is refused, and where there are more
    /// covers than memory has room for.
    pub(crate) fn of(alloc: Global, library: &'a Library) -> Result<RowTable<'a>, AllocError>
        ensures { IfOk result (λ table. table ≡ library.now) }
    {
        let mut firsts = Vec::new(alloc);
        let mut rows = Vec::new(alloc);
        for m in 0..library.models() {
            firsts.push(rows.len())?;
            push_rows(&mut rows, library.covers(m))?;
        }
        if rows.len() >= u32::MAX as usize {
            return Err(AllocError);
        }
        Ok(RowTable {
            library,
            firsts,
            rows,
        })
    }

    /// The number of the rows of cover `k` of model `m`.
    pub(crate) fn number(&self, m: usize, k: usize) -> u32
        requires model { m < length self.now }
        requires cover { k < length (model self.now m).covers }
        ensures within { result < length (all_rows self.now) }
        ensures columns { slice_index_or (all_columns self.now) result [] ≡ places_in (names_of (model self.now m)) (slice_index_or (model self.now m).covers k no_cover).columns }
        ensures rows { slice_index_or (all_rows self.now) result [] ≡ (slice_index_or (model self.now m).covers k no_cover).rows }
    {
        (self.firsts[m] + k) as u32
    }

    /// The rows, by their numbers.
    pub(crate) fn into_rows(self) -> Vec<Rows<'a>>
        ensures { result.items ≡ all_rows self.entry }
    {
        self.rows
    }
}

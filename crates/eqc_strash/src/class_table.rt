//! The classes that were found so far: the class of a shape is looked up, and a new one where there
//! is none.
ghost use Rattle.std.specs.Prelude.{◌≡◌, ℕ, ◌<◌, false, [], IfOk, OnOk, length};
ghost use Rattle.eqc_strash.specs.Structure.{constant};
ghost use Rattle.eqc_strash.specs.Shapes.{grown, IsShapeWithin};
ghost use Rattle.eqc_strash.specs.Tables.{AreApart, Grows, Stands, structures_in};

use crate::row_set::RowSet;
use crate::shape::Shape;
use eqc_netlist::Key;
use indexmap::IndexSet;
use std::alloc::{AllocError, Global};
use std::marker::Model;

/// No more columns of shapes are stored than about so many. Two texts of the greatest length have
/// no more, so only hierarchies meet it: there a cover stands in each instance of its model, over
/// other signals each time.
const MOST_COLUMNS: usize = 16_777_216;

/// Classes, each told by a shape over classes before it. Contracts see the rows that shapes name by
/// their numbers, and the shapes; the structures of all classes differ.
#[derive(Drop)]
pub(crate) struct ClassTable<'r, 'a> {
    rows: &'r RowSet<'a>,
    shapes: IndexSet<Shape, Key>,
    /// How many columns the shapes have.
    columns: usize,
}

impl<'r, 'a> Model for ClassTable<'r, 'a> {
    ghost use Rattle.std.specs.Prelude.{List, ℕ};
    ghost use Rattle.eqc_strash.specs.declared.shape.Shape.{Shape};
    ghost use Rattle.eqc_strash.specs.Tables.{structures_of, IsClassTable};

    ghost Value = { List (List (List ℕ)) × List Shape };

    ghost view = { λ a. (a.rows.now, a.shapes.keys) };

    ghost invariant = { λ a. IsClassTable a.rows.now a.shapes.keys (structures_of a.rows.now a.shapes.keys) };
}

/// How many columns a shape adds.
fn added(fresh: bool, width: usize) -> usize {
    if fresh { width } else { 0 }
}

impl<'r, 'a> ClassTable<'r, 'a> {
    /// No classes, over these rows, with room for so many, which are looked up by the key. Fails
    /// where memory is refused.
    pub(crate) fn new(
        alloc: Global,
        key: Key,
        rows: &'r RowSet<'a>,
        room: usize,
    ) -> Result<ClassTable<'r, 'a>, AllocError>
        ensures { IfOk result (λ table. table ≡ (rows.now, [])) }
    {
        rows.recall_apart();
        let shapes = IndexSet::with_capacity_and_hasher(alloc, room, key)?;
        Ok(ClassTable {
            rows,
            shapes,
            columns: 0,
        })
    }

    /// The class of a shape over rows and classes that are there: a new one, unless there is one.
    /// Fails where memory is refused, where there are more classes than memory has room for, and
    /// where their shapes have too many columns.
    pub(crate) fn class(&mut self, shape: Shape) -> Result<u32, AllocError>
        requires within { IsShapeWithin (length self.old.0) (length (structures_in self.old)) shape }
        ensures rows { self.new.0 ≡ self.old.0 }
        ensures kept { OnOk result (Grows (constant false) (structures_in self.old) (structures_in self.new) 1) }
        ensures class { IfOk result (λ class. Stands (constant false) (structures_in self.new) class (grown self.old.0 (structures_in self.old) shape)) }
    {
        if self.columns > MOST_COLUMNS {
            return Err(AllocError);
        }
        let width = shape.width();
        let (class, fresh) = self.shapes.insert_full(shape)?;
        self.columns = self.columns.saturating_add(added(fresh, width));
        if class > u32::MAX as usize {
            return Err(AllocError);
        }
        Ok(class as u32)
    }

    /// The number of classes.
    pub(crate) fn len(&self) -> usize
        ensures count { result ≡ length (structures_in self.now) }
        ensures apart { AreApart (constant false) (structures_in self.now) }
    {
        self.shapes.len()
    }
}

//! The names that occur in each model of a library, with their places: an instance of a model has a
//! signal for each.
ghost use Rattle.std.specs.Prelude.{◌≡◌, ◌<◌, [], length, map, true, slice_index_or, IfOk};
ghost use Rattle.std.specs.List.{position_or_len};
ghost use Rattle.std.specs.Str.{bytes_eq};
ghost use Rattle.eqc_netlist.specs.Names.{is_named};
ghost use Rattle.eqc_hierarchy.specs.Hierarchy.{model};
ghost use Rattle.eqc_hierarchy.specs.Signals.{names_of};
ghost use Rattle.eqc_hierarchy.specs.Columns.{all_columns};

pub(crate) mod model_names;

use crate::naming::model_names::names_of;
use eqc_blif::Library;
use eqc_netlist::NameSet;
use smallvec::SmallVec;
use std::alloc::{AllocError, Global};
use std::marker::Model;

/// The names that occur in each model of a library.
#[derive(Drop)]
pub struct Naming<'a> {
    library: &'a Library,
    sets: Vec<NameSet<'a>>,
    /// Where the output of each cover stands among the names of its model, by the number of the
    /// cover among all of the library: only looked at first, so that nothing but the time depends
    /// on it.
    outputs: Vec<u32>,
}

impl<'a> Model for Naming<'a> {
    ghost use Rattle.std.specs.Prelude.{◌≡◌, List, map};
    ghost use Rattle.eqc_blif.specs.Netlist.{ModelOf};
    ghost use Rattle.eqc_hierarchy.specs.Signals.{names_of};

    ghost Value = { List ModelOf };

    ghost view = { λ a. a.library.now };

    ghost invariant = { λ a. a.sets.items ≡ map names_of a.library.now };
}

impl<'a> Naming<'a> {
    /// The names of a library's models, and the places of the columns of each cover, model by
    /// model. Fails where memory is refused.
    pub fn of(
        alloc: Global,
        library: &'a Library,
    ) -> Result<(Naming<'a>, Vec<SmallVec<u32, 4>>), AllocError>
        ensures library { IfOk result (λ made. made.0 ≡ library.now) }
        ensures columns { IfOk result (λ made. map (λ c. c.items) made.1.items ≡ all_columns library.now) }
    {
        let mut sets = Vec::new(alloc);
        let mut columns = Vec::new(alloc);
        let mut outputs = Vec::new(alloc);
        for m in 0..library.models() {
            sets.push(names_of(alloc, library, m, &mut columns, &mut outputs)?)?;
        }
        let naming = Naming {
            library,
            sets,
            outputs,
        };
        Ok((naming, columns))
    }

    /// The number of names in model `m`; there are none in a model that isn't there.
    pub fn count(&self, m: usize) -> usize
        ensures { result ≡ length (names_of (model self.now m)) }
    {
        if m < self.sets.len() {
            self.sets[m].len()
        } else {
            0
        }
    }

    /// The name at position `k` among those of model `m`.
    pub fn name(&self, m: usize, k: usize) -> &'a [u8]
        requires { k < length (names_of (model self.now m)) }
        ensures { result.now ≡ slice_index_or (names_of (model self.now m)) k [] }
    {
        self.sets[m].get(k)
    }

    /// Where a name that occurs in model `m` stands among its names.
    pub fn position(&self, m: usize, name: &[u8]) -> usize
        requires { is_named (names_of (model self.now m)) name.now ≡ true }
        ensures first { result ≡ position_or_len (λ other. bytes_eq name.now other) (names_of (model self.now m)) }
        ensures within { result < length (names_of (model self.now m)) }
        ensures named { slice_index_or (names_of (model self.now m)) result [] ≡ name.now }
    {
        self.sets[m].position(name).unwrap()
    }

    /// A place at which the output of a cover may stand, by the number of the cover among all of
    /// the library.
    fn output_place(&self, cover: u32) -> u32 {
        match self.outputs.get(cover as usize) {
            Some(place) => *place,
            None => 0,
        }
    }

    /// Where a name that occurs in model `m` stands among its names, which is found at once where
    /// it is the output of a cover, by the number of the cover among all of the library.
    pub fn output_position(&self, m: usize, name: &[u8], cover: u32) -> usize
        requires { is_named (names_of (model self.now m)) name.now ≡ true }
        ensures first { result ≡ position_or_len (λ other. bytes_eq name.now other) (names_of (model self.now m)) }
        ensures within { result < length (names_of (model self.now m)) }
        ensures named { slice_index_or (names_of (model self.now m)) result [] ≡ name.now }
    {
        let near = self.output_place(cover);
        self.sets[m].position_near(name, near).unwrap()
    }

    /// Where a name that occurs in model `m` stands among its names, and whether it is an input of
    /// it.
    pub fn port(&self, m: usize, name: &[u8]) -> (usize, bool)
        requires { is_named (names_of (model self.now m)) name.now ≡ true }
        ensures within { result.0 < length (names_of (model self.now m)) }
        ensures named { slice_index_or (names_of (model self.now m)) result.0 [] ≡ name.now }
        ensures input { result.1 ≡ is_named (model self.now m).inputs name.now }
    {
        // The inputs are the first of the names, and no two of them are the same.
        let position = self.position(m, name);
        (position, position < self.library.inputs(m).len())
    }
}

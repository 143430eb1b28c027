//! The state of an applier: what its worker holds, what it knows of results, and what it has under
//! way.
ghost use Rattle.std.specs.Prelude.{◌≡◌};
ghost use Rattle.eqc_plain.specs.Cache.{IsCache};
ghost use Rattle.std.proofs.Props.{props};
ghost use Rattle.eqc_apply.specs.Meaning.{kept_of};

use crate::held::Held;
use eqc_plain::cache::Cache;
use eqc_plain::task::Task;

/// A worker's diagrams over the shared forest.
///
/// Results that the worker came to are kept in cells of its own too. These hold no name: each name
/// in them stays held as long as they stand.
#[derive(Drop)]
pub struct Applier {
    pub(crate) names: Held,
    pub(crate) cells: Cache,
    pub(crate) tasks: Vec<Task>,
    // In how many levels of an operation one half is offered to other workers.
    pub(crate) forks: u32,
    // The levels in which it is offered now.
    pub(crate) offers: Vec<u32>,
    // The levels, a bit each, of which another worker took the half and has not put its answer
    // back.
    pub(crate) owed: u32,
    // Whether an operation begins anew, without names that no references stand on, where the forest
    // is full.
    pub(crate) anew: bool,
    // How often in succession there was no operation to be done for another worker.
    pub(crate) vain: u32,
    ghost cached: { IsCache (kept_of names.variables names.worker.known) cells.cells.items } by { Prim.hlevel (props) },
}

impl Applier {
    /// The names alone.
    pub(crate) fn into_names(self) -> Held
        ensures { result ≡ self.names }
    {
        let Applier {
            names,
            cells: _,
            tasks: _,
            forks: _,
            offers: _,
            owed: _,
            anew: _,
            vain: _,
        } = self;
        names
    }
}

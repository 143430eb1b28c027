//! The chain of models that a recursive hierarchy is refused for: it comes back to one that stands
//! in it before.
ghost use Rattle.std.specs.Prelude.{◌<◌, length, IfOk};
ghost use Rattle.eqc_hierarchy.specs.Codes.{IsRefusedWith};
ghost use Rattle.eqc_hierarchy.specs.Hierarchy.{callees};
ghost use Rattle.eqc_hierarchy.specs.Walks.{WalksBack};

use crate::calls::Calls;
use crate::search::Search;
use eqc_blif::Library;
use std::alloc::{AllocError, Global};

/// The chain of models from model `top` to one that stands before in it, each the model of an
/// instance in the one before it, in a hierarchy that is refused for one. Fails where memory is
/// refused.
pub fn recursive_chain(
    alloc: Global,
    library: &Library,
    top: usize,
) -> Result<Vec<usize>, AllocError>
    requires there { top < length library.now }
    requires refused { IsRefusedWith library.now top 22 }
    ensures { IfOk result (λ models. WalksBack (callees library.now) top models.items) }
{
    let calls = Calls::of(alloc, library)?;
    let mut search = Search::new(alloc, calls.nodes())?;
    let _ends = search.visit(alloc, &calls, top)?;
    Ok(search.into_trail())
}

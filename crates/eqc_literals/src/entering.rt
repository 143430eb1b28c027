//! How steps of a pair enter a graph, while somebody is told of it.
ghost use Rattle.std.specs.Prelude.{IfOk};
ghost use Rattle.eqc_gates.specs.Entering.{AreClosed};
ghost use Rattle.eqc_literals.specs.Literals.{IsInside};

use eqc_build::Steps;
use eqc_compare::Progress;
use eqc_gates::literals;
use eqc_sweep::Sweep;
use eqc_xag::Literal;
use std::alloc::{AllocError, Global};

/// So many characters of covers enter at most. A cover enters anew for each instance of its model,
/// so that a short text may have billions of them, and a million takes half a second. Of real flows
/// few netlists have any.
pub const CHARACTERS: u64 = 8_000_000;

/// Enters the marked steps into a graph, and answers their literals. `marks` has a mark for each
/// step that enters, and what a marked step uses is marked. Nothing is asked of what is made of
/// the graph from then on. The watch is told of each step. Fails where memory is refused.
pub fn entered<R, P: Progress<R>>(
    rt: &R,
    alloc: Global,
    steps: &Steps<'_>,
    marks: &[bool],
    sweep: &mut Sweep,
    watch: &P,
) -> Result<Vec<Option<Literal>>, AllocError>
    requires { AreClosed steps.now marks.now }
    ensures { IfOk result (λ literals. IsInside steps.now sweep.new literals.items) }
{
    let count = steps.len() as usize;
    let told = |step: u32| watch.step(rt, step as usize, count);
    let literals = literals(alloc, steps, marks, sweep, &told)?;
    // What the searches for differences make is no signal: they ask about it themselves.
    sweep.ask_no_more();
    Ok(literals)
}

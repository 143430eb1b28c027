//! Outputs that are marked since they never differ, as those whose two steps have one literal.
ghost use Rattle.std.specs.Prelude.{◌≡◌, ◌<◌, true, IsTrue, None, length, slice_index, slice_set, IfOk};
ghost use Rattle.eqc_build.specs.Steps.{AreSteps};
ghost use Rattle.eqc_build.specs.Turns.{is_marked};
ghost use Rattle.eqc_compare.specs.Alike.{AreEqual};
ghost use Rattle.eqc_compare.specs.Comparing.{difference_at};
ghost use Rattle.eqc_literals.specs.Literals.{HaveOneLiteral, KeepsMarks, TellEqual};

use crate::literal::literal_of;
use eqc_build::Steps;
use eqc_compare::{Alike, is_marked};
use eqc_xag::Literal;
use std::alloc::{AllocError, Global};

/// Whether two steps have one literal.
fn have_one_literal(literals: &[Option<Literal>], steps: [u32; 2]) -> bool
    ensures { IsTrue result → HaveOneLiteral literals.now (slice_index steps 0) (slice_index steps 1) }
{
    let literal = literal_of(literals, steps[0]);
    literal.is_some() && literal == literal_of(literals, steps[1])
}

/// Whether an output is marked, or its two steps have one literal.
fn is_known_equal(
    steps: &Steps<'_>,
    literals: &[Option<Literal>],
    marks: &[bool],
    output: usize,
) -> bool
    requires lawful { AreSteps steps.now }
    requires tell { TellEqual steps.now.pair literals.now }
    requires equal { AreEqual steps.now.pair marks.now }
    requires output { output < length steps.now.pair.first.outputs }
    ensures equal { IsTrue result → difference_at steps.now.pair output ≡ None }
    ensures kept { is_marked marks.now output ≡ true → result ≡ true }
{
    if is_marked(marks, output) {
        return true;
    }
    have_one_literal(literals, steps.roots(output))
}

/// Marks the outputs whose two steps have one literal, and those that are marked already: a mark
/// for each output of the first netlist, in its order. `literals` has those of steps of which any
/// two of one literal have one value, and outputs that have one of `marks` never differ. Fails
/// where memory is refused.
pub fn outputs_of_one_literal(
    alloc: Global,
    steps: &Steps<'_>,
    literals: &[Option<Literal>],
    marks: &[bool],
) -> Result<Vec<bool>, AllocError>
    requires lawful { AreSteps steps.now }
    requires tell { TellEqual steps.now.pair literals.now }
    requires equal { AreEqual steps.now.pair marks.now }
    ensures equal { IfOk result (λ more. AreEqual steps.now.pair more.items) }
    ensures kept { IfOk result (λ more. KeepsMarks steps.now.pair marks.now more.items) }
{
    let outputs = steps.pair().first().outputs().len();
    let mut more = Vec::with_capacity(alloc, outputs)?;
    for output in 0..outputs {
        more.push(is_known_equal(steps, literals, marks, output))?;
    }
    Ok(more)
}

/// Marks an output, if it has a mark: `output` is its position in the first netlist. What is chosen
/// stays.
pub fn mark(alike: &mut Alike, output: usize)
    ensures equal { alike.new.equal.items ≡ slice_set alike.old.equal.items output true }
    ensures chosen { alike.new.chosen ≡ alike.old.chosen }
{
    if output < alike.equal.len() {
        alike.equal[output] = true;
    }
}

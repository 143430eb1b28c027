//! The value of a cone's root under values of the positions.
ghost use Rattle.std.specs.Prelude.{◌≡◌, ◌≤◌, ◌++◌, length, drop, IfOk, IfSome, slice_index_or, false};
ghost use Rattle.eqc_xag.specs.Graph.{node_value, value_among};
ghost use Rattle.eqc_witness.specs.Cones.{holds_under, values_at};
ghost use Rattle.eqc_witness.specs.Completing.{Completes};

use crate::cone::Cone;
use eqc_xag::{Literal, Node};
use std::alloc::{AllocError, Global};

/// The value at a place, false behind the end.
fn value_at(values: &[bool], place: u32) -> bool
    ensures { result ≡ slice_index_or values.now place false }
{
    values.get(place as usize).copied().unwrap_or(false)
}

/// The value of a literal, where these are the values of nodes.
fn value_among(known: &[bool], literal: Literal) -> bool
    ensures { result ≡ value_among known.now literal }
{
    let value = value_at(known, literal / 2);
    if literal % 2 == 0 { value } else { !value }
}

/// The value of a node, where these are the values of the positions and of earlier nodes.
fn node_value(node: Node, values: &[bool], known: &[bool]) -> bool
    ensures { result ≡ node_value (values_at values.now) (value_among known.now) node }
{
    match node {
        Node::Constant => false,
        Node::Input(position) => value_at(values, position),
        Node::And(x, y) => value_among(known, x) && value_among(known, y),
        Node::Xor(x, y) => value_among(known, x) != value_among(known, y),
    }
}

/// Values, and behind them those of others from there on. Fails where memory is refused.
fn followed(alloc: Global, first: &[bool], others: &[bool]) -> Result<Vec<bool>, AllocError>
    requires { length first.now ≤ length others.now }
    ensures { IfOk result (λ values. values.items ≡ first.now ++ drop (length first.now) others.now) }
{
    let mut values = Vec::with_capacity(alloc, others.len())?;
    values.extend_from_slice(first)?;
    values.extend_from_slice(&others[first.len()..])?;
    Ok(values)
}

impl Cone {
    /// Whether the root is true under values of the positions. It takes time in proportion to the
    /// nodes. Fails where memory is refused.
    fn is_true(&self, alloc: Global, values: &[bool]) -> Result<bool, AllocError>
        ensures { IfOk result (λ value. value ≡ holds_under self.now.graph self.now.root values.now) }
    {
        let count = self.graph.len();
        let mut known = Vec::with_capacity(alloc, count as usize)?;
        for k in 0..count {
            let value = node_value(self.graph.node(k), values, &known);
            known.push(value)?;
        }
        Ok(value_among(&known, self.root))
    }

    /// Values that begin with the first ones and go on as the others, if the root is true under
    /// them. Fails where memory is refused.
    pub(crate) fn confirmed(
        &self,
        alloc: Global,
        first: &[bool],
        others: &[bool],
    ) -> Result<Option<Vec<bool>>, AllocError>
        requires first { length first.now ≤ self.now.positions }
        requires others { length others.now ≡ self.now.positions }
        ensures { IfOk result (λ found. IfSome found (λ values. Completes self.now.positions (holds_under self.now.graph self.now.root) first.now values.items)) }
    {
        let values = followed(alloc, first, others)?;
        if self.is_true(alloc, &values)? {
            return Ok(Some(values));
        }
        Ok(None)
    }
}

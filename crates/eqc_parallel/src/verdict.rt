//! What members found, put in the order of the outputs, and those that differ.
ghost use Rattle.std.specs.Prelude.{◌≡◌, ℕ, ◌<◌, ◌≤◌, ◌&&◌, not, None, [], length, vec_len, slice_index_or, replicate, IfOk};
ghost use Rattle.eqc_compare.specs.Comparing.{AreTold};
ghost use Rattle.eqc_parallel.specs.Verdicts.{asked, tells_difference, AreVerdicts, Stands};

use eqc_compare::Difference;
use eqc_pair::Pair;
use std::alloc::{AllocError, Global};

/// What is found at an output.
#[derive(Drop)]
pub(crate) enum Finding {
    /// It differs under no assignment, or is not chosen.
    Equal,
    /// The least assignment under which it differs.
    Differs(Vec<bool>),
    /// It was not compared, since one before it differs.
    Behind,
}

/// An output, by its position, and what was found there.
#[derive(Drop)]
pub(crate) struct Verdict {
    pub output: u32,
    pub finding: Finding,
}

impl Finding {
    /// Whether nothing behind this output is to be told: it or one before it differs, and the first
    /// is asked for alone.
    pub(crate) fn ends(&self, every: bool) -> bool
        ensures { result ≡ (not every && tells_difference self.now) }
    {
        if every {
            return false;
        }
        match self {
            Finding::Equal => false,
            Finding::Differs(_) => true,
            Finding::Behind => true,
        }
    }
}

/// A row of places with nothing in them. Fails where memory is refused.
fn places(alloc: Global, outputs: usize) -> Result<Vec<Option<Finding>>, AllocError>
    ensures { IfOk result (λ row. row.items ≡ replicate outputs None) }
{
    let mut row = Vec::with_capacity(alloc, outputs)?;
    for _ in 0..outputs {
        row.push(None)?;
    }
    Ok(row)
}

/// What was found, each at its output's place. No verdict is of another number or of an output that
/// has one. Fails where memory is refused.
pub(crate) fn in_order(
    alloc: Global,
    pair: &Pair<'_>,
    every: bool,
    verdicts: Vec<Verdict>,
) -> Result<Vec<Option<Finding>>, AllocError>
    requires { AreVerdicts (asked pair.now every) verdicts.items }
    ensures size { IfOk result (λ row. vec_len row ≡ length pair.now.first.outputs) }
    ensures each { IfOk result (λ row. (o : ℕ) → o < vec_len row → Stands (asked pair.now every) [] o (slice_index_or row.items o None)) }
{
    // It is for the clauses alone, which say what was asked.
    let _every = every;
    let mut rest = verdicts;
    let mut row = places(alloc, pair.first().outputs().len())?;
    while let Some(Verdict { output, finding }) = rest.pop() {
        let place = output as usize;
        if place >= row.len() {
            unreachable!()
        }
        if row[place].is_some() {
            unreachable!()
        }
        row[place] = Some(finding);
    }
    Ok(row)
}

/// The chosen outputs that differ, in their order, or the first of them alone. Fails where memory
/// is refused.
pub(crate) fn told_of(
    alloc: Global,
    pair: &Pair<'_>,
    every: bool,
    row: Vec<Option<Finding>>,
) -> Result<Vec<Difference>, AllocError>
    requires size { vec_len row ≡ length pair.now.first.outputs }
    requires each { (o : ℕ) → o < vec_len row → Stands (asked pair.now every) [] o (slice_index_or row.items o None) }
    ensures { IfOk result (λ found. AreTold pair.now every found.items) }
{
    let mut row = row;
    let mut found = Vec::new(alloc);
    let mut next = 0;
    while next < row.len() {
        let output = next;
        next += 1;
        match row[output].take() {
            Some(Finding::Equal) => continue,
            Some(Finding::Differs(values)) => found.push(Difference { output, values })?,
            Some(Finding::Behind) | None => unreachable!(),
        }
        if !every {
            return Ok(found);
        }
    }
    Ok(found)
}

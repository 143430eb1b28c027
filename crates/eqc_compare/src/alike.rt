//! What structures tell of a pair: outputs whose two signals have one structure are equal, whatever
//! it computes, and of steps of one structure one needs to be made.
ghost use Rattle.std.specs.Prelude.{◌≡◌, ℕ, ◌+◌, ◌<◌, ◌≤◌, ◌++◌, [], None, true, false, IsTrue, length, map, slice_index, IfOk, OnOk};
ghost use Rattle.eqc_build.specs.Turns.{is_marked};
ghost use Rattle.eqc_strash.specs.Classes.{AreClasses};
ghost use Rattle.eqc_pair.specs.PairOf.{first_variables, second_variables};
ghost use Rattle.eqc_compare.specs.Comparing.{told_at, is_chosen_at};
ghost use Rattle.eqc_compare.specs.Alike.{AreEqual, AreFirst, AreSettled, IsKnown, TellAlike, TellShared};

use eqc_pair::{Pair, recall_laws};
use eqc_strash::{SignalClasses, classes};
use std::alloc::{AllocError, Global};

/// What is known of a pair.
#[derive(Clone, Drop)]
pub struct Alike {
    /// The outputs that are marked are equal.
    pub equal: Vec<bool>,
    /// The step that is chosen in place of each, itself where none is listed.
    pub chosen: Vec<u32>,
}

impl Alike {
    /// Nothing is known.
    pub fn nothing(alloc: Global) -> Alike
        ensures equal { result.equal.items ≡ [] }
        ensures chosen { result.chosen.items ≡ [] }
    {
        Alike {
            equal: Vec::new(alloc),
            chosen: Vec::new(alloc),
        }
    }
}

/// Marks the outputs whose two signals are of one class. Fails where memory is refused.
fn outputs_of_one_class(
    alloc: Global,
    pair: &Pair<'_>,
    classes: &SignalClasses,
) -> Result<Vec<bool>, AllocError>
    requires { AreClasses pair.now.first pair.now.second (first_variables pair.now) (second_variables pair.now) classes.now }
    ensures { IfOk result (λ marks. TellAlike pair.now marks.items) }
{
    pair.recall_laws();
    let signals = pair.first().output_signals();
    let others = pair.second_signals();
    let mut marks = Vec::with_capacity(alloc, others.len())?;
    for output in 0..others.len() {
        let class = classes.first()[signals[output] as usize];
        marks.push(class == classes.second()[others[output] as usize])?;
    }
    Ok(marks)
}

/// Appends the classes of signals, by the number of each signal's class. Fails where memory is
/// refused.
fn append_classes(row: &mut Vec<u32>, numbers: &[u32], signals: &[u32]) -> Result<(), AllocError>
    requires { (k : ℕ) → k < length signals.now → slice_index signals.now k < length numbers.now }
    ensures { OnOk result (row.new.items ≡ row.old.items ++ map (slice_index numbers.now) signals.now) }
{
    for k in 0..signals.len() {
        row.push(numbers[signals[k] as usize])?;
    }
    Ok(())
}

/// For each place in a row of classes the first place of its class. The classes are below `count`.
/// Fails where memory is refused.
fn first_of_class(alloc: Global, row: &[u32], count: usize) -> Result<Vec<u32>, AllocError>
    requires within { (k : ℕ) → k < length row.now → slice_index row.now k < count }
    requires few { length row.now ≤ 2097152 }
    ensures { IfOk result (λ places. AreFirst row.now places.items) }
{
    let mut firsts = vec![in alloc; 4294967295u32; count]?;
    let mut places = Vec::with_capacity(alloc, row.len())?;
    for k in 0..row.len() {
        let class = row[k] as usize;
        let first = firsts[class].min(k as u32);
        firsts[class] = first;
        places.push(first)?;
    }
    Ok(places)
}

/// Chooses the first step of each class in place of all its steps. Fails where memory is refused.
fn first_steps(
    alloc: Global,
    pair: &Pair<'_>,
    classes: &SignalClasses,
) -> Result<Vec<u32>, AllocError>
    requires classes { AreClasses pair.now.first pair.now.second (first_variables pair.now) (second_variables pair.now) classes.now }
    ensures { IfOk result (λ chosen. TellShared pair.now chosen.items) }
{
    pair.recall_laws();
    let mut row = Vec::new(alloc);
    append_classes(&mut row, classes.first(), pair.first().steps())?;
    append_classes(&mut row, classes.second(), pair.second().steps())?;
    let chosen = first_of_class(alloc, &row, classes.count())?;
    Ok(chosen)
}

/// What is known of a pair by its structures: the outputs whose two signals have one are marked,
/// and of the steps of one structure the first is chosen. Fails where memory is refused.
fn by_structures(alloc: Global, pair: &Pair<'_>) -> Result<Alike, AllocError>
    ensures marked { IfOk result (λ alike. TellAlike pair.now alike.equal.items) }
    ensures shared { IfOk result (λ alike. TellShared pair.now alike.chosen.items) }
    ensures known { IfOk result (IsKnown pair.now) }
{
    pair.recall_laws();
    let first = pair.first();
    let second = pair.second();
    recall_laws(first);
    recall_laws(second);
    let variables = pair.variables();
    let classes = classes(alloc, first, variables, second, pair.second_variables())?;
    let equal = outputs_of_one_class(alloc, pair, &classes)?;
    let chosen = first_steps(alloc, pair, &classes)?;
    Ok(Alike { equal, chosen })
}

/// What is known of a pair by its structures: nothing where memory for that is refused.
pub fn alike_or_nothing(alloc: Global, pair: &Pair<'_>) -> Alike
    ensures { IsKnown pair.now result }
{
    match by_structures(alloc, pair) {
        Ok(alike) => alike,
        Err(_) => Alike::nothing(alloc),
    }
}

/// Whether an output is marked, by its position in the first netlist. One without a mark is not.
pub fn is_marked(marks: &[bool], output: usize) -> bool
    ensures { result ≡ is_marked marks.now output }
{
    marks.get(output).copied().unwrap_or(false)
}

/// Whether nothing is to be told of an output: it is not chosen, or it is marked. Those that are
/// marked are equal.
pub fn is_settled(pair: &Pair<'_>, equal: &[bool], output: usize) -> bool
    requires equal { AreEqual pair.now equal.now }
    requires output { output < length pair.now.first.outputs }
    ensures none { IsTrue result → told_at pair.now output ≡ None }
    ensures chosen { result ≡ false → is_chosen_at pair.now output ≡ true }
{
    if !pair.is_chosen(output) {
        return true;
    }
    is_marked(equal, output)
}

/// Whether nothing is to be told of any output of a pair, of which those that are marked are equal.
pub(crate) fn are_all_settled(pair: &Pair<'_>, equal: &[bool]) -> bool
    requires { AreEqual pair.now equal.now }
    ensures { IsTrue result → (o : ℕ) → o < length pair.now.first.outputs → told_at pair.now o ≡ None }
{
    for output in 0..pair.first().outputs().len() {
        if !is_settled(pair, equal, output) {
            return false;
        }
    }
    true
}

/// Marks the outputs of which nothing is to be told: those that are not chosen, and those that are
/// marked already, which are equal. Fails where memory is refused.
pub(crate) fn settled_outputs(
    alloc: Global,
    pair: &Pair<'_>,
    equal: &[bool],
) -> Result<Vec<bool>, AllocError>
    requires { AreEqual pair.now equal.now }
    ensures { IfOk result (λ marks. AreSettled pair.now marks.items) }
{
    let outputs = pair.first().outputs().len();
    let mut marks = Vec::with_capacity(alloc, outputs)?;
    for output in 0..outputs {
        marks.push(is_settled(pair, equal, output))?;
    }
    Ok(marks)
}

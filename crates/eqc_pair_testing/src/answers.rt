//! What the calls below a run answer on a pair, in one word: the comparison of one output, least
//! assignments, and reports of pairs, each on a store of its own.
#![tactic(auto, using(eqc_tree::proofs::HoldingLemmas::counts_itself))]

ghost use Rattle.std.specs.Prelude.{◌<◌, ◌≤◌, IsTrue, length};
ghost use Rattle.eqc_tree.specs.Holding.{Keeps};

use crate::reports::report_word;
use eqc_blif::{Library, read};
use eqc_check::{Pair, Report, check_plain, compare_output, least_assignment, pair};
use eqc_flat::Flat;
use eqc_netlist_testing::two_flats;
use eqc_plain::Plain;
use eqc_testing::lines;
use eqc_tree::{Diagrams, Op, References, Stop};
use std::alloc::{AllocError, Global};

/// What is asked of a pair.
#[derive(Clone, Copy)]
pub enum Ask {
    /// The output at this position, on a store of so many nodes.
    Output(usize, u32),
    /// The least assignment that makes a variable true.
    Literal(u16),
    /// The least assignment that makes one of the first two variables true.
    Either,
    /// The position of each variable's input.
    Order,
    /// The report, on a store of so many nodes.
    Report(u32),
}

/// An answer in one word.
fn shown(alloc: Global, found: Result<Option<Vec<bool>>, Stop>) -> Result<String, AllocError> {
    let mut word = String::new(alloc);
    match found {
        Ok(None) => word.push_str("none")?,
        Ok(Some(values)) => {
            for value in &values {
                word.push(if *value { '1' } else { '0' })?;
            }
        }
        Err(stop) => return format!(in alloc; "stopped {}", stop.code()),
    }
    Ok(word)
}

/// Whether a store may have so many nodes.
fn is_size(nodes: u32) -> bool
    ensures some { IsTrue result → 1 ≤ nodes }
    ensures few { IsTrue result → nodes ≤ 1048574 }
{
    1 <= nodes && nodes <= 1_048_574
}

/// What `compare_output` says of an output, on a store of its own.
fn output_word<R>(
    rt: &R,
    alloc: Global,
    pair: &Pair<'_>,
    output: usize,
    nodes: u32,
) -> Result<String, AllocError> {
    let inputs = pair.first().inputs().len();
    if output >= pair.first().outputs().len() || !is_size(nodes) {
        return String::from_str(alloc, "no such output, or no such size");
    }
    match Plain::new(alloc, inputs as u16, nodes) {
        Ok(mut plain) => shown(alloc, compare_output(rt, alloc, &mut plain, pair, output)),
        Err(stop) => shown(alloc, Err(stop)),
    }
}

/// The least assignment that makes a variable true.
fn least_of_literal<R, D: Diagrams<R>>(
    rt: &R,
    alloc: Global,
    d: &mut D,
    pair: &Pair<'_>,
    variable: u16,
) -> Result<Vec<bool>, Stop>
    requires variables { length pair.now.first.inputs ≤ (D.holding d.old).variables }
    requires variable { variable < length pair.now.first.inputs }
    ensures { Keeps (D.holding d.old) (D.holding d.new) }
{
    let x = d.literal(rt, variable)?;
    let least = least_assignment(rt, alloc, d, pair, &x);
    d.give_back(x);
    least
}

/// What `least_assignment` says of a variable, on a store of 16 nodes.
fn literal_word<R>(
    rt: &R,
    alloc: Global,
    pair: &Pair<'_>,
    variable: u16,
) -> Result<String, AllocError> {
    let inputs = pair.first().inputs().len();
    if variable as usize >= inputs {
        return String::from_str(alloc, "no such variable");
    }
    match Plain::new(alloc, inputs as u16, 16) {
        Ok(mut plain) => {
            let least = least_of_literal(rt, alloc, &mut plain, pair, variable);
            shown(alloc, least.map(Some))
        }
        Err(stop) => shown(alloc, Err(stop)),
    }
}

/// The least assignment that makes one of the first two variables true.
fn least_of_either<R, D: Diagrams<R>>(
    rt: &R,
    alloc: Global,
    d: &mut D,
    pair: &Pair<'_>,
) -> Result<Vec<bool>, Stop>
    requires variables { length pair.now.first.inputs ≤ (D.holding d.old).variables }
    requires two { 1 < length pair.now.first.inputs }
    ensures { Keeps (D.holding d.old) (D.holding d.new) }
{
    let x = d.literal(rt, 0)?;
    let y = match d.literal(rt, 1) {
        Ok(y) => y,
        Err(stop) => {
            d.give_back(x);
            return Err(stop);
        }
    };
    let made = d.apply(rt, Op::Or, &x, &y);
    d.give_back(x);
    d.give_back(y);
    let either = made?;
    let least = least_assignment(rt, alloc, d, pair, &either);
    d.give_back(either);
    least
}

/// What `least_assignment` says of the first two variables, on a store of 16 nodes.
fn either_word<R>(rt: &R, alloc: Global, pair: &Pair<'_>) -> Result<String, AllocError> {
    let inputs = pair.first().inputs().len();
    if inputs < 2 {
        return String::from_str(alloc, "no two variables");
    }
    match Plain::new(alloc, inputs as u16, 16) {
        Ok(mut plain) => {
            let least = least_of_either(rt, alloc, &mut plain, pair);
            shown(alloc, least.map(Some))
        }
        Err(stop) => shown(alloc, Err(stop)),
    }
}

/// The positions of a pair's order.
fn order_word(alloc: Global, pair: &Pair<'_>) -> Result<String, AllocError> {
    let mut word = String::new(alloc);
    for position in pair.order() {
        word.push_str(&format!(in alloc; "{position};")?)?;
    }
    Ok(word)
}

/// What `check_plain` says of a pair, on a store of its own.
fn checked_word<R>(
    rt: &R,
    alloc: Global,
    pair: &Pair<'_>,
    nodes: u32,
) -> Result<String, AllocError> {
    if !is_size(nodes) {
        return String::from_str(alloc, "no such size");
    }
    match check_plain(rt, alloc, pair, false, nodes) {
        Ok(report) => report_word(alloc, &report),
        Err(stop) => report_word(alloc, &Report::Stopped(stop)),
    }
}

/// The answer on a pair.
fn pair_answer<R>(rt: &R, alloc: Global, pair: &Pair<'_>, ask: Ask) -> Result<String, AllocError> {
    match ask {
        Ask::Output(output, nodes) => output_word(rt, alloc, pair, output, nodes),
        Ask::Literal(variable) => literal_word(rt, alloc, pair, variable),
        Ask::Either => either_word(rt, alloc, pair),
        Ask::Order => order_word(alloc, pair),
        Ask::Report(nodes) => checked_word(rt, alloc, pair, nodes),
    }
}

/// The answer on two flat netlists.
fn flat_answer<R>(
    rt: &R,
    alloc: Global,
    first: &Flat<'_>,
    second: &Flat<'_>,
    order: Option<&[u8]>,
    ask: Ask,
) -> Result<String, AllocError> {
    match pair(alloc, first, second, order) {
        Ok(pair) => pair_answer(rt, alloc, &pair, ask),
        Err(refused) => report_word(alloc, &Report::Refused(refused)),
    }
}

/// The answer on the first two models of a library.
fn models_answer<R>(
    rt: &R,
    alloc: Global,
    library: &Library,
    order: Option<&[u8]>,
    ask: Ask,
) -> Result<String, AllocError> {
    match &two_flats(alloc, library) {
        Some((first, second)) => flat_answer(rt, alloc, first, second, order, ask),
        None => String::from_str(alloc, "no two simple models"),
    }
}

/// Whether this is the answer on the first two models of a text.
fn is_answer<R>(
    rt: &R,
    alloc: Global,
    text: &[u8],
    order: Option<&[u8]>,
    ask: Ask,
    wanted: &str,
) -> Result<bool, AllocError> {
    match read(alloc, text) {
        Ok(library) => {
            let answer = models_answer(rt, alloc, &library, order, ask)?;
            Ok(answer.as_str() == wanted)
        }
        Err(_) => Ok(false),
    }
}

/// The same of a text and an order text, where this isn't empty, in which `;` stands for LF.
pub fn is_ordered_answer<R>(
    rt: &R,
    alloc: Global,
    text: &str,
    order: &str,
    ask: Ask,
    wanted: &str,
) -> Result<bool, AllocError> {
    let text = lines(alloc, text)?;
    if order.is_empty() {
        return is_answer(rt, alloc, &text, None, ask, wanted);
    }
    let order = lines(alloc, order)?;
    is_answer(rt, alloc, &text, Some(&order), ask, wanted)
}

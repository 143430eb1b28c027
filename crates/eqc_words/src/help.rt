//! The texts of `--help`. What a number means is said by the type that has it.
use eqc_netlist::text_rule::Rule as TextRule;
use eqc_report::RunFault;
use eqc_tree::Stop;
use std::alloc::{AllocError, Global};
use std::fmt::Display;

pub const ABOUT: &str =
    "Decides whether two combinational netlists in BLIF compute the same outputs.";

pub const USAGE: &str = "\
eqc [--workers N] [--nodes N] [--cells N] [--forks N] [--conflicts N] [--inputs N] [--bytes N]
           [--order FILE] [--assume FILE] [--all] [--output NAME]..
           [--first-model NAME] [--second-model NAME] [--explain] [--locate] [--progress]
           [FILE [FILE]]";

pub const WORKERS: &str = "Compares outputs on this many threads, 1 to 64";

pub const NODES: &str =
    "Keeps at most this many nodes of diagrams for all workers together, 1 to 1048574";

pub const CELLS: &str =
    "Remembers this many operations for all workers, a power of two up to 1048576";

pub const FORKS: &str =
    "Offers one half of an operation to idle workers in this many levels, 0 to 16";

pub const CONFLICTS: &str =
    "Gives up a search for outputs that diagrams leave after this many conflicts; 0 for diagrams alone";

pub const INPUTS: &str =
    "Refuses a netlist whose compared model has more inputs than this, which is 65535 at most";

pub const BYTES: &str =
    "Refuses a netlist whose text has more bytes than this, which is 2147483647 at most";

pub const ORDER: &str =
    "Takes the variables in this file's order, a word for each input of the first netlist";

pub const ASSUME: &str = "Counts only assignments under which the one output of this netlist is 1";

pub const ALL: &str = "Reports each output that differs, and not the first alone";

pub const OUTPUT: &str = "Compares the output of this name, and no other that is not named so";

pub const FIRST_MODEL: &str = "Compares the model of this name of the first netlist's text";

pub const SECOND_MODEL: &str = "Compares the model of this name of the second netlist's text";

pub const EXPLAIN: &str = "Tells on standard error why there is no verdict";

pub const LOCATE: &str =
    "Tells on standard error at which signals each difference that is reported may begin";

pub const PROGRESS: &str =
    "Shows on standard error how far the run is, in a line that changes in place";

pub const FIRST: &str = "The first netlist, or both";

pub const SECOND: &str = "The second netlist";

/// The texts that are compared, and the reports with their statuses.
const REPORTS: &str = "\
Without a FILE the first two models of standard input are compared, with one FILE its first two models,
with two the first model of each. --first-model and --second-model choose a model by its name instead; with one
text both choose from it. --assume takes the first model of its text, whose inputs are inputs of the netlists; where no
assignment meets it, nothing is compared. A warning on standard error says that a model was compared which another model of its
text contains, as where a tool wrote a part of a design first. --explain names what is at fault where there is no
verdict. `--` ends the options. Numbers go from 0 to 4294967295.
Each worker has a thread. All build in one store of --nodes nodes with one operation cache of --cells cells; nodes
that are no longer needed are given back. With --forks N one half of an operation is offered in its first N
levels to workers that have nothing left to compare.
Where a small store is full, signals inside the netlists are compared first, and those that are proved equal are
built once; outputs that neither this nor the whole store decides are asked for by a search of --conflicts
conflicts in all. Neither comes with --conflicts 0, or where --nodes is below 1024.

Statuses and reports:
  0  equivalent              each output has equal values under every assignment of the inputs
  1  differs at NAME         the first output that differs, the least assignment that shows it, and its two values;
                             with --all so for each output that differs
  2  refused SIDE LINE CODE  SIDE is first, second, pair, order, assume or options; LINE is 0 where there is none
  3  stopped CODE            the comparison was given up
  4  fault CODE              a file could not be opened, or a read or a write failed; told on standard error
  5                          a bad command line, or want of memory in reading it; told on standard error
  6  vacuous                 no assignment of the inputs meets the assumption, so nothing was compared";

/// What `Stop::NodeLimit` tells of a comparison. The store's own word for it knows nothing of
/// turns, which a comparison counts.
const NODE_LIMIT: &str = "the store of diagrams is full, or operations on them take too many turns";

/// What `TextRule::TextTooLong` tells of a text. The rule's own words know of no option.
const TEXT_TOO_LONG: &str =
    "a netlist of more bytes than are allowed, or an order text of over 16777216";

/// Appends the line of a number.
fn push_code<M: Display>(
    alloc: Global,
    text: &mut String,
    code: u8,
    meaning: &M,
) -> Result<(), AllocError> {
    let line = format!(in alloc; "\n  {code:>2}  {meaning}")?;
    text.push_str(&line)
}

/// Appends the numbers of refused texts and hierarchies.
fn push_netlist_codes(alloc: Global, text: &mut String) -> Result<(), AllocError> {
    text.push_str("\n\nCodes of reading a netlist (an order text can have 2):")?;
    for rule in &eqc_netlist::text_rule::RULES {
        match rule {
            TextRule::TextTooLong => push_code(alloc, text, rule.code(), &TEXT_TOO_LONG)?,
            _ => push_code(alloc, text, rule.code(), rule)?,
        }
    }
    text.push_str("\n\nCodes of following instances:")?;
    for rule in &eqc_netlist::RULES {
        push_code(alloc, text, rule.code(), rule)?;
    }
    Ok(())
}

/// Appends the numbers of a pair that is refused, and of a comparison that stops.
fn push_pair_codes(alloc: Global, text: &mut String) -> Result<(), AllocError> {
    text.push_str("\n\nCodes of the pair, of the order text and of the assumption:")?;
    for rule in &eqc_pair::PAIR_RULES {
        push_code(alloc, text, rule.code(), rule)?;
    }
    text.push_str("\n\nCodes of a stop:")?;
    push_code(alloc, text, Stop::NodeLimit.code(), &NODE_LIMIT)?;
    for stop in &[Stop::Memory, Stop::References, Stop::Threads] {
        push_code(alloc, text, stop.code(), stop)?;
    }
    Ok(())
}

/// Appends the numbers of refused options and of faults.
fn push_run_codes(alloc: Global, text: &mut String) -> Result<(), AllocError> {
    text.push_str("\n\nCodes of the options:")?;
    for rule in &eqc_report::OPTION_RULES {
        push_code(alloc, text, rule.code(), rule)?;
    }
    text.push_str("\n\nCodes of a fault:")?;
    for fault in &[RunFault::Read, RunFault::Write] {
        push_code(alloc, text, fault.code(), fault)?;
    }
    Ok(())
}

/// The reports with their statuses, and all numbers that a report or a fault may have.
pub fn answers(alloc: Global) -> Result<String, AllocError> {
    let mut text = String::from_str(alloc, REPORTS)?;
    push_netlist_codes(alloc, &mut text)?;
    push_pair_codes(alloc, &mut text)?;
    push_run_codes(alloc, &mut text)?;
    Ok(text)
}

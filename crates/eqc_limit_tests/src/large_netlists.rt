//! Netlists of very many models, signals or covers, that stand below one another: they are read,
//! flattened and compared without a recursion that would be as deep, and one signal more than there
//! may be is refused.

use crate::ends::same;
use eqc_run_testing::{TWO, reports_on};
use std::alloc::{AllocError, Global};

/// How many models stand below one another.
const MODELS: u32 = 100_000;

/// A main model with an instance of `m1`, each model with one of the next, the last one empty; and
/// an empty main model.
fn chain_of_models(alloc: Global) -> Result<String, AllocError> {
    let mut text = String::from_str(alloc, ".model f;.subckt m1;.end;.model g;.end;")?;
    for k in 1..MODELS {
        let next = k + 1;
        text.push_str(&format!(in alloc; ".model m{k};.subckt m{next};.end;")?)?;
    }
    text.push_str(&format!(in alloc; ".model m{MODELS};.end;")?)?;
    Ok(text)
}

#[test]
fn a_chain_of_models_is_as_deep_as_it_likes(rt: HostRuntime) -> Result<(), AllocError> {
    let text = chain_of_models(rt.alloc())?;
    let found = reports_on(&rt, &text, TWO, "equivalent;");
    same(&rt, found, true, "the report");
    Ok(())
}

/// The most signals that a netlist may have.
const MOST: u32 = 1_048_576;

/// A main model of so many signals, which are constants, and an empty main model.
fn signals(alloc: Global, count: u32) -> Result<String, AllocError> {
    let mut text = String::from_str(alloc, ".model f;")?;
    for k in 0..count {
        text.push_str(&format!(in alloc; ".names s{k};")?)?;
    }
    text.push_str(".end;.model g;.end;")?;
    Ok(text)
}

#[test]
fn one_signal_more_than_there_may_be_is_refused(rt: HostRuntime) -> Result<(), AllocError> {
    for (count, report) in [(MOST, "equivalent;"), (MOST + 1, "refused first 0 29;")] {
        let text = signals(rt.alloc(), count)?;
        same(&rt, reports_on(&rt, &text, TWO, report), true, count);
    }
    Ok(())
}

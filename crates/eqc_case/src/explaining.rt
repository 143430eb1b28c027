//! What is at fault in texts that are refused: the checks are made once more, in their order, up to
//! the first that fails.
ghost use Rattle.std.specs.Prelude.{◌<◌, ◌^◌, length, IfOk, IfSome};

use crate::choice::{Main, choose, read_main};
use crate::diagnostics::Diagnostics;
use crate::given::{Case, bytes_of};
use eqc_blif::{Library, Refusal, read_within};
use eqc_flat::{Flat, flatten_within};
use eqc_pair::{Side, explain_assumption, explain_pair};
use eqc_report::Options;
use std::alloc::{AllocError, Global};

/// Tells of a text that may have so many bytes, and is refused or has no such model. Fails where
/// memory is refused.
fn tell_text<T: Diagnostics>(
    alloc: Global,
    side: Side,
    text: &[u8],
    limit: u32,
    told: &mut T,
) -> Result<(), AllocError>
    requires { limit < 2 ^ 31 }
{
    match read_within(alloc, text, limit) {
        Ok(library) => told.models(side, &library),
        Err(Refusal { line, .. }) => {
            let finding = eqc_blif::explain(alloc, text, limit)?;
            told.text(side, line, finding.as_ref());
        }
    }
    Ok(())
}

/// The main model of a text that may have so many bytes, or none where the text was told of. Fails
/// where memory is refused.
fn main_or_told<T: Diagnostics>(
    alloc: Global,
    side: Side,
    text: &[u8],
    limit: u32,
    name: Option<&[u8]>,
    told: &mut T,
) -> Result<Option<Main>, AllocError>
    requires { limit < 2 ^ 31 }
    ensures { IfOk result (λ found. IfSome found (λ main. main.model < length main.library)) }
{
    match read_main(alloc, text, limit, name, 0) {
        Ok(main) => Ok(Some(main)),
        Err(refusal) => {
            if refusal.is_memory() {
                return Err(AllocError);
            }
            tell_text(alloc, side, text, limit, told)?;
            Ok(None)
        }
    }
}

/// Tells of the hierarchy below a model, if it is refused with this limit of inputs, and answers
/// whether it did. Fails where memory is refused.
fn tell_hierarchy<T: Diagnostics>(
    alloc: Global,
    side: Side,
    main: (&Library, usize),
    limit: u16,
    told: &mut T,
) -> Result<bool, AllocError>
    requires { main.1 < length main.0.now }
{
    match eqc_flat::explain(alloc, main.0, main.1, limit)? {
        Some(finding) => {
            told.hierarchy(side, main.0, &finding);
            Ok(true)
        }
        None => Ok(false),
    }
}

/// Tells of two models whose comparison is refused. Fails where memory is refused.
fn tell_models<T: Diagnostics>(
    alloc: Global,
    first: (&Library, usize),
    second: (&Library, usize),
    case: &Case<'_>,
    told: &mut T,
) -> Result<(), AllocError>
    requires m { first.1 < length first.0.now }
    requires n { second.1 < length second.0.now }
{
    let limit = case.options.input_limit();
    if tell_hierarchy(alloc, Side::First, first, limit, told)? {
        return Ok(());
    }
    if tell_hierarchy(alloc, Side::Second, second, limit, told)? {
        return Ok(());
    }
    match flatten_within(alloc, first.0, first.1, limit) {
        Ok(f) => tell_second(alloc, &f, second, case, told),
        Err(_) => Ok(()),
    }
}

/// The same, where the first model is flat, and the second has no fault of its own.
fn tell_second<T: Diagnostics>(
    alloc: Global,
    first: &Flat<'_>,
    second: (&Library, usize),
    case: &Case<'_>,
    told: &mut T,
) -> Result<(), AllocError>
    requires { second.1 < length second.0.now }
{
    match flatten_within(alloc, second.0, second.1, case.options.input_limit()) {
        Ok(g) => tell_flats(alloc, first, &g, case, told),
        Err(_) => Ok(()),
    }
}

/// The same, where both are flat.
fn tell_flats<T: Diagnostics>(
    alloc: Global,
    first: &Flat<'_>,
    second: &Flat<'_>,
    case: &Case<'_>,
    told: &mut T,
) -> Result<(), AllocError> {
    let order = bytes_of(&case.order);
    if let Some(finding) = explain_pair(alloc, first, second, case.outputs.names, order)? {
        told.pair(&finding);
        return Ok(());
    }
    match &case.assume {
        Some(text) => tell_assumption(alloc, first, text, &case.options, told),
        None => Ok(()),
    }
}

/// Tells of a flat netlist that is refused as an assumption for the first netlist's inputs. Fails
/// where memory is refused.
fn tell_assumed<T: Diagnostics>(
    alloc: Global,
    first: &Flat<'_>,
    assumed: &Flat<'_>,
    told: &mut T,
) -> Result<(), AllocError> {
    if let Some(finding) = explain_assumption(alloc, first, assumed)? {
        told.pair(&finding);
    }
    Ok(())
}

/// The same, where the assumption's model is found, and maybe not flat.
fn tell_assuming<T: Diagnostics>(
    alloc: Global,
    first: &Flat<'_>,
    assumption: &Main,
    limit: u16,
    told: &mut T,
) -> Result<(), AllocError>
    requires { assumption.now.model < length assumption.now.library }
{
    let Main { library, model } = assumption;
    if tell_hierarchy(alloc, Side::Assume, (library, *model), limit, told)? {
        return Ok(());
    }
    match flatten_within(alloc, library, *model, limit) {
        Ok(assumed) => tell_assumed(alloc, first, &assumed, told),
        Err(_) => Ok(()),
    }
}

/// Tells of an assumption that is refused for the first netlist's inputs, or with these limits of
/// bytes and inputs. Fails where memory is refused.
fn tell_assumption<T: Diagnostics>(
    alloc: Global,
    first: &Flat<'_>,
    text: &[u8],
    options: &Options,
    told: &mut T,
) -> Result<(), AllocError> {
    let limit = options.byte_limit();
    let Some(main) = main_or_told(alloc, Side::Assume, text, limit, None, told)? else {
        return Ok(());
    };
    tell_assuming(alloc, first, &main, options.input_limit(), told)
}

/// Tells of what stands behind the first text's model, where there is one text. Fails where memory
/// is refused.
fn tell_of_one<T: Diagnostics>(
    alloc: Global,
    first: &Main,
    case: &Case<'_>,
    told: &mut T,
) -> Result<(), AllocError>
    requires { first.now.model < length first.now.library }
{
    let Main { library, model } = first;
    match choose(alloc, library, case.names.second, 1) {
        Ok(other) => tell_models(alloc, (library, *model), (library, other), case, told),
        Err(refusal) => {
            if refusal.is_memory() {
                return Err(AllocError);
            }
            told.models(Side::Second, library);
            Ok(())
        }
    }
}

/// Tells of what stands behind the first text's model, where there are two texts. Fails where
/// memory is refused.
fn tell_of_two<T: Diagnostics>(
    alloc: Global,
    first: &Main,
    second: &[u8],
    case: &Case<'_>,
    told: &mut T,
) -> Result<(), AllocError>
    requires { first.now.model < length first.now.library }
{
    let limit = case.options.byte_limit();
    let name = case.names.second;
    let Some(second) = main_or_told(alloc, Side::Second, second, limit, name, told)? else {
        return Ok(());
    };
    tell_models(
        alloc,
        (&first.library, first.model),
        (&second.library, second.model),
        case,
        told,
    )
}

/// Tells what is at fault in a case whose report is a refusal. Fails where memory is refused.
pub fn tell_of_case<T: Diagnostics>(
    alloc: Global,
    case: &Case<'_>,
    told: &mut T,
) -> Result<(), AllocError> {
    let limit = case.options.byte_limit();
    let name = case.names.first;
    let Some(first) = main_or_told(alloc, Side::First, &case.first, limit, name, told)? else {
        return Ok(());
    };
    match &case.second {
        None => tell_of_one(alloc, &first, case, told),
        Some(second) => tell_of_two(alloc, &first, second, case, told),
    }
}

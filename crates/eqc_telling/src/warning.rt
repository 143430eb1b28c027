//! Warnings: a model is compared that another model of its text contains.
ghost use Rattle.std.specs.Prelude.{◌≡◌, ◌++◌, IfOk, OnOk};
ghost use Rattle.std.specs.Option.{option_map};
ghost use Rattle.eqc_telling.specs.Warnings.{warning_line, warning_lines, warnings_text, first_source, second_source, IsToldOf};

use eqc_case::{Contained, Warnings};
use eqc_report::write_text;
use eqc_words::Request;
use std::alloc::{AllocError, Global};
use std::io::Write;

/// What standard input is called.
const STANDARD_INPUT: &str = "standard input";

/// Appends a warning's line. After an error the text may have a part of it.
fn push_line(text: &mut Vec<u8>, source: &str, contained: &Contained) -> Result<(), AllocError>
    ensures { OnOk result (text.new.items ≡ text.old.items ++ warning_line source.now contained.now) }
{
    text.extend_from_slice(b"eqc: warning: ")?;
    text.extend_from_slice(source.as_bytes())?;
    text.extend_from_slice(b": model '")?;
    text.extend_from_slice(contained.model.as_bytes())?;
    text.extend_from_slice(b"' is compared, which model '")?;
    text.extend_from_slice(contained.container.as_bytes())?;
    text.extend_from_slice(b"' contains\n")
}

/// Appends the line of a warning, where there is one.
fn push_warning(
    text: &mut Vec<u8>,
    source: &str,
    warning: &Option<Contained>,
) -> Result<(), AllocError>
    ensures { OnOk result (text.new.items ≡ text.old.items ++ warning_lines source.now warning.now) }
{
    match warning {
        Some(contained) => push_line(text, source, contained),
        None => Ok(()),
    }
}

/// What the first text is called.
pub fn first_source<'a>(request: &Request<'a>) -> &'a str
    ensures { result.now ≡ first_source request.now }
{
    match request.first {
        Some(path) => path,
        None => STANDARD_INPUT,
    }
}

/// What the text with the second model is called: where there is no second text, as the first.
pub fn second_source<'a>(request: &Request<'a>) -> &'a str
    ensures { result.now ≡ second_source request.now }
{
    match request.second {
        Some(path) => path,
        None => first_source(request),
    }
}

/// The lines of the warnings.
fn warnings_text(
    alloc: Global,
    request: &Request<'_>,
    warnings: &Warnings,
) -> Result<Vec<u8>, AllocError>
    ensures { IfOk result (λ text. text.items ≡ warnings_text request.now warnings.now) }
{
    let mut text = Vec::new(alloc);
    push_warning(&mut text, first_source(request), &warnings.first)?;
    push_warning(&mut text, second_source(request), &warnings.second)?;
    Ok(text)
}

/// Writes the warnings. Where memory is refused or a write fails, they are lost, or a part of them
/// is.
pub fn warn<E: Write>(alloc: Global, request: &Request<'_>, warnings: &Warnings, err: &mut E)
    ensures { IsToldOf (warnings_text request.now warnings.now) (E.contents err.old) (E.contents err.new) }
{
    let Ok(text) = warnings_text(alloc, request, warnings) else {
        return;
    };
    let bytes = text.as_slice();
    if !bytes.is_empty() {
        let _ = write_text(err, bytes);
    }
}

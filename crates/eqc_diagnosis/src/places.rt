//! The words for where differences begin, in full and in short.
ghost use Rattle.std.specs.Prelude.{◌<◌, length};

use crate::lines::Lines;
use crate::shown::{LISTED, Shown, Whole};
use crate::signal::{Designs, Signal, name_of, signal_of};
use eqc_netlist::Driver;
use eqc_place::{Column, Mending, Place, Places};
use std::alloc::{AllocError, Global};

/// What is said of a place whose cover alone may be changed.
const OTHER_COVER: &str = ", and another cover of its columns may do so";

/// So many places are told in short, and what tells more of them.
const BRIEF: usize = 3;

const LOCATE_HINT: &str = "--locate tells more places, with their covers and values";

/// A column with its value and its partner.
fn column_said(
    alloc: Global,
    designs: &Designs<'_>,
    column: &Column,
) -> Result<String, AllocError> {
    let name = name_of(alloc, designs, column.step)?;
    let value = u8::from(column.value);
    let Some(partner) = column.partner else {
        return format!(in alloc; " {name}={value}");
    };
    let other = name_of(alloc, designs, partner.step)?;
    let not = if partner.is_opposite { "not " } else { "" };
    format!(in alloc; " {name}={value} ({not}{other})")
}

/// A row as a text has it, with a blank before its output. Fails where memory is refused.
fn row_said(alloc: Global, row: &[u8]) -> Result<String, AllocError> {
    match row.split_last() {
        Some((output, columns)) if !columns.is_empty() => {
            format!(in alloc; "{} {}", Shown(columns), Shown(&[*output]))
        }
        _ => format!(in alloc; "{}", Shown(row)),
    }
}

/// The rows of the cover of a signal. Fails where memory is refused.
fn rows_said(alloc: Global, signal: &Signal<'_>) -> Result<String, AllocError>
    requires { signal.now.number < length signal.now.flat.now.drivers }
{
    let mut said = String::new(alloc);
    signal.flat.recall_laws();
    let Driver::Cover { rows, .. } = signal.flat.driver(signal.number) else {
        return Ok(said);
    };
    let rows = signal.flat.rows(rows);
    for k in 0..rows.len().min(LISTED) {
        let cut = if k == 0 { "" } else { ", " };
        let row = row_said(alloc, rows.get(k))?;
        said.push_str(cut)?;
        said.push_str(&row)?;
    }
    if rows.len() > LISTED {
        said.push_str(" ..")?;
    }
    Ok(said)
}

/// The line on the signal by which a place would be mended. Fails where memory is refused.
fn mending_said(
    alloc: Global,
    designs: &Designs<'_>,
    mending: &Mending,
) -> Result<String, AllocError> {
    let name = name_of(alloc, designs, mending.step)?;
    let not = if mending.is_opposite { "not " } else { "" };
    format!(in alloc;
        "{not}{name} of the other netlist has the values that mend it, in {} simulated assignments",
        mending.assignments
    )
}

/// The line on a place: its name, the line of its driver, its value, in how many of the simulated
/// assignments under which the output differs it is mended, and its cover with the values of its
/// columns. Fails where memory is refused.
fn place_said(
    alloc: Global,
    designs: &Designs<'_>,
    differing: u32,
    place: &Place,
) -> Result<String, AllocError> {
    let Some(signal) = signal_of(designs, place.step) else {
        return Ok(String::new(alloc));
    };
    let (name, model) = signal.named(alloc)?;
    let side = signal.side();
    let value = u8::from(place.value);
    let mut said = match signal.line(model) {
        Some(line) => format!(in alloc; "{side}, line {line}: {name} is {value}"),
        None => format!(in alloc; "{side}: {name} is {value}"),
    }?;
    let rows = rows_said(alloc, &signal)?;
    let mends = format!(in alloc;
        ", mends {} of {differing} if turned{}; cover {rows} of",
        place.mended,
        if place.torn == 0 { OTHER_COVER } else { "" }
    )?;
    said.push_str(&mends)?;
    for column in place.columns.iter().take(LISTED) {
        let column = column_said(alloc, designs, column)?;
        said.push_str(&column)?;
    }
    if place.columns.len() > LISTED {
        said.push_str(" ..")?;
    }
    Ok(said)
}

/// The line before the places of an output. Fails where memory is refused.
fn output_said(alloc: Global, output: &[u8], places: &Places) -> Result<String, AllocError> {
    let output = Whole(output);
    if places.each.is_empty() {
        return format!(in alloc; "'{output}' differs, and no place is known at which that begins");
    }
    format!(in alloc;
        "'{output}' differs, in {} simulated assignments, which may begin at:",
        places.differing
    )
}

/// The line on the other outputs that may begin to differ at a place. Fails where memory is
/// refused.
fn sharing_said(
    alloc: Global,
    designs: &Designs<'_>,
    place: &Place,
    others: &[&[u8]],
) -> Result<String, AllocError> {
    let count = others.len();
    let name = name_of(alloc, designs, place.step)?;
    let what = if count == 1 { "output" } else { "outputs" };
    let mut said = format!(in alloc; "{count} more {what} may begin to differ at {name}:")?;
    for other in others.iter().take(LISTED) {
        let output = format!(in alloc; " '{}'", Shown(*other))?;
        said.push_str(&output)?;
    }
    if count > LISTED {
        said.push_str(" ..")?;
    }
    Ok(said)
}

/// The short line before the places of an output. Fails where memory is refused.
fn brief_output_said(alloc: Global, output: &[u8]) -> Result<String, AllocError> {
    format!(in alloc; "'{}' may begin to differ at:", Whole(output))
}

/// The short line on a place, where the texts of the designs are called so: the line of its driver,
/// its name, and what would mend it. Fails where memory is refused.
fn brief_place_said(
    alloc: Global,
    designs: &Designs<'_>,
    texts: (&str, &str),
    place: &Place,
    mending: Option<Mending>,
) -> Result<String, AllocError> {
    let Some(signal) = signal_of(designs, place.step) else {
        return Ok(String::new(alloc));
    };
    let (name, model) = signal.named(alloc)?;
    let text = if signal.is_first { texts.0 } else { texts.1 };
    let mut said = match signal.line(model) {
        Some(line) => format!(in alloc; "{text}: line {line}: {name}"),
        None => format!(in alloc; "{text}: {name}"),
    }?;
    if let Some(mending) = mending {
        let other = name_of(alloc, designs, mending.step)?;
        let not = if mending.is_opposite { "not " } else { "" };
        let mends = format!(in alloc;
            "; {not}{other} of the other netlist has the values that mend it"
        )?;
        said.push_str(&mends)?;
    }
    Ok(said)
}

/// The line on differences for which no place was looked for. Fails where memory is refused.
fn unplaced_said(alloc: Global, count: usize) -> Result<String, AllocError> {
    let what = if count == 1 { "output" } else { "outputs" };
    format!(in alloc; "{count} more {what} may begin to differ elsewhere, which was not looked for")
}

/// Puts the lines on the places at which an output of this name may begin to differ. Fails where
/// memory is refused, and then some aren't put.
pub fn say_places(
    alloc: Global,
    designs: &Designs<'_>,
    output: &[u8],
    places: &Places,
    lines: &mut Lines,
) -> Result<(), AllocError> {
    lines.put(output_said(alloc, output, places))?;
    for (place, mending) in places.each.iter().zip(&places.mendings) {
        lines.put(place_said(alloc, designs, places.differing, place))?;
        if let Some(mending) = mending {
            lines.put(mending_said(alloc, designs, mending))?;
        }
    }
    Ok(())
}

/// Puts the line on the other outputs, by their names, that may begin to differ at one of the
/// places of an output, too. Fails where memory is refused, and then it isn't put.
pub fn say_sharing(
    alloc: Global,
    designs: &Designs<'_>,
    place: &Place,
    others: &[&[u8]],
    lines: &mut Lines,
) -> Result<(), AllocError> {
    lines.put(sharing_said(alloc, designs, place, others))
}

/// Puts the lines in short on the first of the places at which an output of this name may begin to
/// differ, if there are any, where the texts of the designs are called so. Fails where memory is
/// refused, and then some aren't put.
pub fn say_briefly(
    alloc: Global,
    designs: &Designs<'_>,
    texts: (&str, &str),
    output: &[u8],
    places: &Places,
    lines: &mut Lines,
) -> Result<(), AllocError> {
    if places.each.is_empty() {
        return Ok(());
    }
    lines.put(brief_output_said(alloc, output))?;
    for (place, mending) in places.each.iter().zip(&places.mendings).take(BRIEF) {
        lines.put(brief_place_said(alloc, designs, texts, place, *mending))?;
    }
    lines.put(String::from_str(alloc, LOCATE_HINT))
}

/// Puts the line on so many outputs that differ, for which no place was looked for. Fails where
/// memory is refused, and then it isn't put.
pub fn say_unplaced(alloc: Global, count: usize, lines: &mut Lines) -> Result<(), AllocError> {
    lines.put(unplaced_said(alloc, count))
}

//! A signal of a pair, by its name and by where it stands in its design.
//!
//! A path of an instance is read from the main model down: `2:adder/1:cell` is, in the second
//! `.subckt` of the main model, an `adder`, its first one, a `cell`.
ghost use Rattle.std.specs.Prelude.{◌<◌, ◌≤◌, length, IfSome};

use crate::shown::Shown;
use crate::statement::line_of_cover;
use eqc_blif::Library;
use eqc_netlist::{Flat, Name};
use eqc_pair::Pair;
use std::alloc::{AllocError, Global};

/// A design as it was given: its text, the models of that, and the number of its main one.
#[derive(Clone, Copy)]
pub struct Design<'a> {
    pub text: &'a [u8],
    pub library: &'a Library,
    pub model: usize,
}

/// A pair, and the designs of which its netlists are made.
#[derive(Clone, Copy)]
pub struct Designs<'a> {
    pub pair: &'a Pair<'a>,
    pub first: Design<'a>,
    pub second: Design<'a>,
}

/// A signal of a flat netlist.
#[derive(Clone, Copy)]
pub(crate) struct Signal<'a> {
    pub flat: &'a Flat<'a>,
    design: Design<'a>,
    pub number: u32,
    /// Whether the netlist is the first one.
    pub is_first: bool,
}

/// The signal of a step of a pair, if it is one of its netlists.
pub(crate) fn signal_of<'a>(designs: &Designs<'a>, step: u32) -> Option<Signal<'a>>
    ensures { IfSome result (λ signal. signal.number < length signal.flat.now.drivers) }
{
    let first = designs.pair.first();
    let second = designs.pair.second();
    let count = first.steps().len();
    let at = step as usize;
    let (flat, design, at) = if at < count {
        (first, designs.first, at)
    } else {
        (second, designs.second, at - count)
    };
    let steps = flat.steps();
    if at >= steps.len() {
        return None;
    }
    let number = steps[at];
    Some(Signal {
        flat,
        design,
        number,
        is_first: (step as usize) < count,
    })
}

/// The positions of an instance and of those around it, the innermost first. Fails where memory is
/// refused.
fn positions_of(alloc: Global, flat: &Flat<'_>, instance: u32) -> Result<Vec<u32>, AllocError>
    requires { instance ≤ length flat.now.places }
{
    let mut positions = Vec::new(alloc);
    let mut at = instance;
    'up: while at > 0 {
        let (parent, position) = flat.place(at);
        positions.push(position)?;
        at = parent;
    }
    Ok(positions)
}

/// The name of the model of an instance in a model, and its number, if there is one.
fn model_at(library: &Library, model: usize, position: u32) -> Option<(&Name, usize)> {
    if model >= library.models() {
        return None;
    }
    let instance = library.instances(model).get(position as usize)?;
    Some((&instance.model, library.find(&instance.model)?))
}

/// The model of the last instance of a way, and the way as it is read, empty for the main model.
/// Fails where memory is refused.
fn path_of(
    alloc: Global,
    design: Design<'_>,
    positions: &[u32],
) -> Result<(usize, String), AllocError> {
    let mut path = String::new(alloc);
    let mut model = design.model;
    for position in positions.iter().rev() {
        let Some((name, next)) = model_at(design.library, model, *position) else {
            break;
        };
        let cut = if path.is_empty() {
            " of instance "
        } else {
            "/"
        };
        let step = format!(in alloc;
            "{cut}{}:{}",
            position.saturating_add(1),
            Shown(name.as_bytes())
        )?;
        path.push_str(&step)?;
        model = next;
    }
    Ok((model, path))
}

impl<'a> Signal<'a> {
    /// The way to its instance, and the number of the model that it stands in. Fails where memory
    /// is refused.
    pub(crate) fn path(&self, alloc: Global) -> Result<(usize, String), AllocError>
        requires { self.now.number < length self.now.flat.now.drivers }
    {
        let (instance, _) = self.flat.signal(self.number);
        let positions = positions_of(alloc, self.flat, instance)?;
        path_of(alloc, self.design, &positions)
    }

    /// Its name, and the number of the model that it stands in. Fails where memory is refused.
    pub(crate) fn named(&self, alloc: Global) -> Result<(String, usize), AllocError>
        requires { self.now.number < length self.now.flat.now.drivers }
    {
        let (_, name) = self.flat.signal(self.number);
        let (model, path) = self.path(alloc)?;
        let said = format!(in alloc; "'{}'{path}", Shown(name))?;
        Ok((said, model))
    }

    /// The line of the cover that drives it, where it stands in a model of this number, if it is
    /// found.
    pub(crate) fn line(&self, model: usize) -> Option<u32>
        requires { self.now.number < length self.now.flat.now.drivers }
    {
        if model >= self.design.library.models() {
            return None;
        }
        let (_, name) = self.flat.signal(self.number);
        line_of_cover(self.design.text, self.design.library.name(model), name)
    }

    /// Which netlist it is of.
    pub(crate) fn side(&self) -> &'static str {
        if self.is_first { "first" } else { "second" }
    }
}

/// The name of the signal of a step, empty where it is none. Fails where memory is refused.
pub(crate) fn name_of(
    alloc: Global,
    designs: &Designs<'_>,
    step: u32,
) -> Result<String, AllocError> {
    match signal_of(designs, step) {
        Some(signal) => {
            let (name, _) = signal.named(alloc)?;
            Ok(name)
        }
        None => Ok(String::new(alloc)),
    }
}

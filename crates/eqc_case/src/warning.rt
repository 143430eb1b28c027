//! Warnings: a model that is compared, which another model of its text contains.
ghost use Rattle.std.specs.Prelude.{◌≡◌, ◌<◌, find, length, map, slice_index_or, IfOk};
ghost use Rattle.std.specs.Option.{option_copied, option_map};
ghost use Rattle.std.specs.List.{list_any};
ghost use Rattle.std.specs.Str.{bytes_eq};
ghost use Rattle.eqc_blif.specs.Netlist.{no_model};
ghost use Rattle.eqc_case.specs.Warning.{contains, is_container, contained, warnings_in_one, warnings_in_two, warnings_at, no_warnings};

use eqc_blif::{Library, Name};
use eqc_report::Status;
use std::alloc::{AllocError, Global};

/// A model that was compared, and the first model of its text that contains it and wasn't.
#[derive(Drop)]
pub struct Contained {
    pub model: Name,
    pub container: Name,
}

/// The warnings on the two models that were compared.
#[derive(Drop)]
pub struct Warnings {
    pub first: Option<Contained>,
    pub second: Option<Contained>,
}

impl Warnings {
    pub fn none() -> Warnings
        ensures { result ≡ no_warnings }
    {
        Warnings {
            first: None,
            second: None,
        }
    }

    /// These warnings after a verdict, else none.
    pub fn at(self, status: Status) -> Warnings
        ensures { result ≡ warnings_at status self }
    {
        match status {
            Status::Equivalent | Status::Differs => self,
            Status::Vacuous | Status::Refused | Status::Stopped => Warnings::none(),
        }
    }
}

/// Whether model `m` has an instance of the model of this name.
fn contains(library: &Library, m: usize, name: &[u8]) -> bool
    requires { m < length library.now }
    ensures { result ≡ contains name.now (slice_index_or library.now m no_model) }
{
    library
        .instances(m)
        .iter()
        .any(|instance| name == instance.model.as_bytes())
}

/// Whether a name is among these.
fn is_among(names: &[&[u8]], name: &[u8]) -> bool
    ensures { result ≡ list_any (λ other. bytes_eq name.now other.now) names.now }
{
    names.iter().any(|other| name == *other)
}

/// Whether model `m` contains the one of this name and is none of those that are compared.
fn is_container(library: &Library, compared: &[&[u8]], m: usize, name: &[u8]) -> bool
    requires { m < length library.now }
    ensures { result ≡ is_container (map (λ n. n.now) compared.now) name.now (slice_index_or library.now m no_model) }
{
    contains(library, m, name) && !is_among(compared, library.name(m))
}

/// The first model that contains the one of this name and is none of those that are compared.
fn container<'a>(library: &'a Library, compared: &[&[u8]], name: &[u8]) -> Option<&'a [u8]>
    ensures { option_copied result ≡ option_map (λ m. m.name) (find (is_container (map (λ n. n.now) compared.now) name.now) library.now) }
{
    for m in 0..library.models() {
        if is_container(library, compared, m, name) {
            return Some(library.name(m));
        }
    }
    None
}

/// The warning on the model of this name, where there is one. Fails where memory is refused.
fn warning_on(
    alloc: Global,
    library: &Library,
    compared: &[&[u8]],
    m: usize,
) -> Result<Option<Contained>, AllocError>
    requires { m < length library.now }
    ensures { IfOk result (λ found. found ≡ contained (map (λ n. n.now) compared.now) (library.now, m)) }
{
    let name = library.name(m);
    let Some(container) = container(library, compared, name) else {
        return Ok(None);
    };
    Ok(Some(Contained {
        model: Name::new(alloc, name)?,
        container: Name::new(alloc, container)?,
    }))
}

/// The warnings on two models of a text. Fails where memory is refused.
pub fn warnings_in_one(
    alloc: Global,
    library: &Library,
    m: usize,
    n: usize,
) -> Result<Warnings, AllocError>
    requires m { m < length library.now }
    requires n { n < length library.now }
    ensures { IfOk result (λ warnings. warnings ≡ warnings_in_one (library.now, m) (library.now, n)) }
{
    let compared = [library.name(m), library.name(n)];
    Ok(Warnings {
        first: warning_on(alloc, library, &compared, m)?,
        second: warning_on(alloc, library, &compared, n)?,
    })
}

/// The warnings on a model of one text and one of another. Fails where memory is refused.
pub fn warnings_in_two(
    alloc: Global,
    first: (&Library, usize),
    second: (&Library, usize),
) -> Result<Warnings, AllocError>
    requires m { first.1 < length first.0.now }
    requires n { second.1 < length second.0.now }
    ensures { IfOk result (λ warnings. warnings ≡ warnings_in_two (first.entry.0.now, first.entry.1) (second.entry.0.now, second.entry.1)) }
{
    let (library, m) = first;
    let (other, n) = second;
    Ok(Warnings {
        first: warning_on(alloc, library, &[library.name(m)], m)?,
        second: warning_on(alloc, other, &[other.name(n)], n)?,
    })
}

//! Which models of texts are compared, and which outputs of these.
ghost use Rattle.std.specs.Prelude.{◌≡◌, ◌⊎◌, ◌<◌, ◌^◌, [], length, IfOk, IfErr, Ok, Err};
ghost use Rattle.std.specs.Option.{option_copied};
ghost use Rattle.eqc_blif.specs.Reading.{outcome};
ghost use Rattle.eqc_case.specs.Answer.{chosen_number, chosen, main_of, no_names};

use eqc_blif::{Library, Name, Refusal, Rule, read_within};
use std::alloc::Global;
use std::marker::Model;

/// The names of the models to compare; without a name, the place of a model in its text decides.
#[derive(Drop)]
pub struct ModelNames<'a> {
    pub first: Option<&'a [u8]>,
    pub second: Option<&'a [u8]>,
}

impl<'a> Model for ModelNames<'a> {
    ghost use Rattle.std.specs.Option.{option_copied};
    ghost use Rattle.eqc_case.specs.Answer.{NamesOf};

    ghost Value = { NamesOf };

    ghost view = { λ a. record { first = option_copied a.first; second = option_copied a.second } };
}

impl<'a> ModelNames<'a> {
    /// No name: the first two models of one text are compared, or the first of each of two.
    pub fn none() -> ModelNames<'a>
        ensures { result ≡ no_names }
    {
        ModelNames {
            first: None,
            second: None,
        }
    }
}

/// The names of the outputs that are compared; without a name, all are.
#[derive(Drop)]
pub struct OutputNames<'a> {
    pub names: &'a [&'a [u8]],
}

impl<'a> Model for OutputNames<'a> {
    ghost use Rattle.std.specs.Prelude.{ℕ, List, map};

    ghost Value = { List (List ℕ) };

    ghost view = { λ a. map (λ name. name.now) a.names.now };
}

impl<'a> OutputNames<'a> {
    /// No name: all outputs are compared.
    pub fn none() -> OutputNames<'a>
        ensures { result ≡ [] }
    {
        OutputNames { names: &[] }
    }
}

/// The number of the model of a name, else of the one at a place; where there is no such model, no
/// number of one.
fn chosen_number(
    alloc: Global,
    library: &Library,
    name: Option<&[u8]>,
    place: usize,
) -> Result<usize, Refusal>
    ensures number { IfOk result (λ m. m ≡ chosen_number library.now (option_copied name.entry) place) }
    ensures memory { IfErr result (λ refusal. refusal ≡ record { line = 0; code = 72 }) }
{
    match name {
        None => Ok(place),
        Some(name) => {
            let name = Name::new(alloc, name)?;
            Ok(library.find(&name).unwrap_or(library.models()))
        }
    }
}

/// The number of the model that is chosen by a name or, without one, by its place, which counts
/// from 0. The code is 13 where there is no such model, and 72 where memory is refused.
pub fn choose(
    alloc: Global,
    library: &Library,
    name: Option<&[u8]>,
    place: usize,
) -> Result<usize, Refusal>
    ensures there { IfOk result (λ m. m < length library.now) }
    ensures chosen { IfOk result (λ m. chosen library.now (option_copied name.entry) place ≡ Ok (library.now, m)) }
    ensures refused { IfErr result (λ refusal. (refusal ≡ record { line = 0; code = 72 }) ⊎ (chosen library.now (option_copied name.entry) place ≡ Err (refusal.line, refusal.code))) }
{
    let m = chosen_number(alloc, library, name, place)?;
    if m < library.models() {
        Ok(m)
    } else {
        Err(Rule::NoModel.without_line())
    }
}

/// The models of a text, and the number of the one that is chosen: its main model.
#[derive(Drop)]
pub struct Main {
    pub library: Library,
    pub model: usize,
}

/// Reads a text of at most `limit` bytes, fewer than 2^31, and chooses its main model, as `choose`
/// does. It fails with the line and the code by which the text is refused, or with the code of
/// `choose`.
pub fn read_main(
    alloc: Global,
    text: &[u8],
    limit: u32,
    name: Option<&[u8]>,
    place: usize,
) -> Result<Main, Refusal>
    requires { limit < 2 ^ 31 }
    ensures read { IfOk result (λ main. outcome limit text.now ≡ Ok main.library) }
    ensures there { IfOk result (λ main. main.model < length main.library) }
    ensures chosen { IfOk result (λ main. main_of (outcome limit text.now) (option_copied name.entry) place ≡ Ok (main.library, main.model)) }
    ensures refused { IfErr result (λ refusal. (refusal ≡ record { line = 0; code = 72 }) ⊎ (main_of (outcome limit text.now) (option_copied name.entry) place ≡ Err (refusal.line, refusal.code))) }
{
    let library = read_within(alloc, text, limit)?;
    let model = choose(alloc, &library, name, place)?;
    Ok(Main { library, model })
}

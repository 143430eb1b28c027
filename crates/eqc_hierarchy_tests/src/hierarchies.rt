//! Flat netlists: the codes of a hierarchy's models, and the values of outputs, worked out by hand
//! from the rules of the format.

ghost use Rattle.std.specs.Prelude.{◌<◌, length};

use crate::ends::{check_rows, holds};
use eqc_blif::{Library, read};
use eqc_flat::{
    DEFAULT_INPUTS, Driver, Fault, FaultOfTwo, Flat, Signals, eval, flatten, flatten_two,
    flatten_within,
};
use eqc_netlist_testing::flat_of;
use eqc_testing::{Row, input_names};
use std::alloc::{AllocError, Global};

/// Whether this is the code of the first fault below the main model of a library.
fn library_has_code(alloc: Global, library: &Library, code: Option<u8>) -> bool {
    if library.models() == 0 {
        return false;
    }
    match flatten(alloc, library, 0) {
        Ok(_) => code.is_none(),
        Err(fault) => code == Some(fault.code),
    }
}

/// Whether this is the code of the first fault below the main model of a text.
fn has_code(alloc: Global, text: &[u8], code: Option<u8>) -> bool {
    match read(alloc, text) {
        Ok(library) => library_has_code(alloc, &library, code),
        Err(_) => false,
    }
}

/// Texts and their codes. The codes of models are 21 to 25; the first text has none of them, and
/// then 27, since nothing drives the output of its second model.
#[rattlefmt::skip]
static CODES: &[Row<Option<u8>>] = &[
    ("an output that nothing drives", ".model m;.inputs a;.outputs y;.subckt n x=a z=y;.end;.model n;.inputs x;.outputs z;.end;", Some(27)),
    ("a missing model", ".model m;.subckt n x=a;.end;", Some(21)),
    ("models that contain one another", ".model m;.subckt n x=a;.end;.model n;.inputs x;.subckt m x=x;.end;", Some(22)),
    ("a formal that is no port", ".model m;.subckt n x=a w=a;.end;.model n;.inputs x;.end;", Some(23)),
    ("a formal twice", ".model m;.subckt n x=a x=b;.end;.model n;.inputs x;.end;", Some(24)),
    ("an input without a pair", ".model m;.subckt n x=a;.end;.model n;.inputs x v;.end;", Some(25)),
    ("a fault that is not below the main model", ".model m;.end;.model n;.subckt o x=a;.end;", None),
];

#[test]
fn tells_the_first_code_of_the_models(rt: HostRuntime) {
    check_rows(
        &rt,
        CODES,
        |alloc, text, code| Ok(has_code(alloc, text, *code)),
    );
}

/// Numbers of inputs, how many are allowed, and the code.
#[rattlefmt::skip]
static WIDTHS: &[(u32, u16, Option<u8>)] = &[
    (0, 0, None),
    (1, 0, Some(30)),
    (2, 2, None),
    (3, 2, Some(30)),
    (2_049, 2_049, None),
    (2_049, 2_048, Some(30)),
    (65_535, 65_535, None),
];

/// Whether this is the code of a library's main model where so many inputs are allowed.
fn library_has_width(alloc: Global, library: &Library, limit: u16, code: Option<u8>) -> bool {
    if library.models() == 0 {
        return false;
    }
    match flatten_within(alloc, library, 0, limit) {
        Ok(_) => code.is_none(),
        Err(fault) => code == Some(fault.code),
    }
}

/// Whether this is the code of a main model with so many inputs where so many are allowed.
fn has_width(alloc: Global, count: u32, limit: u16, code: Option<u8>) -> Result<bool, AllocError> {
    let names = input_names(alloc, count)?;
    let text = format!(in alloc; ".model m\n.inputs{names}\n.end\n")?;
    match read(alloc, text.as_bytes()) {
        Ok(library) => Ok(library_has_width(alloc, &library, limit, code)),
        Err(_) => Ok(false),
    }
}

#[test]
fn as_many_inputs_are_taken_as_are_allowed(rt: HostRuntime) {
    for (count, limit, code) in WIDTHS {
        let found = has_width(rt.alloc(), *count, *limit, *code);
        holds(&rt, found, "a number of inputs");
    }
}

/// Which of the first two models of a library is refused: none where both are accepted, or aren't
/// there.
fn fault_of_two(alloc: Global, library: &Library) -> Option<FaultOfTwo> {
    if library.models() < 2 {
        return None;
    }
    flatten_two(alloc, library, 0, 1, DEFAULT_INPUTS).err()
}

/// Whether that is so of a text.
fn has_fault_of_two(alloc: Global, text: &[u8], fault: Option<FaultOfTwo>) -> bool {
    match read(alloc, text) {
        Ok(library) => fault_of_two(alloc, &library) == fault,
        Err(_) => false,
    }
}

#[rattlefmt::skip]
static FAULTS_OF_TWO: &[Row<Option<FaultOfTwo>>] = &[
    ("two models that are accepted", ".model m;.inputs a;.end;.model n;.end;", None),
    ("a fault of the first", ".model m;.subckt o x=a;.end;.model n;.end;", Some(FaultOfTwo::First(Fault { code: 21 }))),
    ("a fault of the second", ".model m;.end;.model n;.subckt o x=a;.end;", Some(FaultOfTwo::Second(Fault { code: 21 }))),
    ("faults of both", ".model m;.outputs y;.end;.model n;.subckt o x=a;.end;", Some(FaultOfTwo::First(Fault { code: 27 }))),
];

#[test]
fn tells_which_of_two_models_is_at_fault(rt: HostRuntime) {
    check_rows(
        &rt,
        FAULTS_OF_TWO,
        |alloc, text, fault| Ok(has_fault_of_two(alloc, text, *fault)),
    );
}

/// Whether a flat netlist has so many signals, and these values of its outputs under those of its
/// inputs.
fn flat_gives(
    alloc: Global,
    flat: &Flat<'_>,
    signals: usize,
    inputs: &[bool],
    outputs: &[bool],
) -> bool {
    if flat.steps().len() != signals || flat.inputs().len() != inputs.len() {
        return false;
    }
    match eval(alloc, flat, inputs) {
        Ok(values) => values.as_slice() == outputs,
        Err(_) => false,
    }
}

/// Whether the main model of a library does.
fn library_gives(
    alloc: Global,
    library: &Library,
    signals: usize,
    inputs: &[bool],
    outputs: &[bool],
) -> bool {
    match flat_of(alloc, library, 0) {
        Some(flat) => flat_gives(alloc, &flat, signals, inputs, outputs),
        None => false,
    }
}

/// A number of models and of signals, values of the inputs, and those of the outputs.
type Values = (usize, usize, &'static [bool], &'static [bool]);

/// Whether a text has so many models, and its main model does.
fn gives(alloc: Global, text: &[u8], wanted: &Values) -> bool {
    let (models, signals, inputs, outputs) = *wanted;
    match read(alloc, text) {
        Ok(library) => {
            library.models() == models && library_gives(alloc, &library, signals, inputs, outputs)
        }
        Err(_) => false,
    }
}

#[rattlefmt::skip]
static COVERS: &[Row<Values>] = &[
    ("two covers", ".model m;.inputs a b;.outputs y z;.names b z;1 0;.names a b y;1- 1;01 1;", (1, 4, &[false, true], &[true, false])),
];

#[test]
fn evaluates_covers(rt: HostRuntime) {
    check_rows(
        &rt,
        COVERS,
        |alloc, text, wanted| Ok(gives(alloc, text, wanted)),
    );
}

/// Two not-ands in series, the second over the first's output twice, are a conjunction.
const NOT_ANDS: &str =
    ".model f;.inputs a b;.outputs z;.subckt n i=a j=b o=t;.subckt n i=t j=t o=z;.end;.model n;.inputs i j;.outputs o;.names i j o;11 0;";

#[rattlefmt::skip]
static INSTANCES: &[Row<Values>] = &[
    ("no input", NOT_ANDS, (2, 10, &[false, false], &[false])),
    ("the second input", NOT_ANDS, (2, 10, &[false, true], &[false])),
    ("the first input", NOT_ANDS, (2, 10, &[true, false], &[false])),
    ("both inputs", NOT_ANDS, (2, 10, &[true, true], &[true])),
];

#[test]
fn evaluates_hierarchies(rt: HostRuntime) {
    check_rows(
        &rt,
        INSTANCES,
        |alloc, text, wanted| Ok(gives(alloc, text, wanted)),
    );
}

/// A name as text.
fn name_word(alloc: Global, name: &[u8]) -> Result<String, AllocError> {
    let mut word = String::new(alloc);
    for byte in name {
        word.push(*byte as char)?;
    }
    Ok(word)
}

/// The name of a signal behind those of the positions on the way to its instance, from the main
/// model down.
fn path_of(alloc: Global, flat: &Flat<'_>, s: u32) -> Result<String, AllocError>
    requires { s < length flat.now.drivers }
{
    let (instance, name) = flat.signal(s);
    let word = name_word(alloc, name)?;
    if instance == 0 {
        return Ok(word);
    }
    let (parent, position) = flat.place(instance);
    format!(in alloc; "{parent}.{position}.{word}")
}

/// Signals, each behind a blank.
fn signals_word(alloc: Global, signals: &Signals<'_>) -> Result<String, AllocError> {
    let mut word = String::new(alloc);
    for k in 0..signals.len() {
        let other = format!(in alloc; " {}", signals.get(k))?;
        word.push_str(&other)?;
    }
    Ok(word)
}

/// What drives a signal, in one word: its kind and what it depends on.
fn driver_word(alloc: Global, flat: &Flat<'_>, s: u32) -> Result<String, AllocError>
    requires { s < length flat.now.drivers }
{
    let others = signals_word(alloc, &flat.driver(s).dependencies())?;
    match flat.driver(s) {
        Driver::Input(position) => format!(in alloc; "input {position}{others}"),
        Driver::Tie(_) => format!(in alloc; "tie{others}"),
        Driver::Cover { .. } => format!(in alloc; "cover{others}"),
    }
}

/// A signal: path and driver, with `;` behind it.
fn signal_word(alloc: Global, flat: &Flat<'_>, s: u32) -> Result<String, AllocError>
    requires { s < length flat.now.drivers }
{
    let path = path_of(alloc, flat, s)?;
    let driver = driver_word(alloc, flat, s)?;
    format!(in alloc; "{path}={driver};")
}

/// The signals of a flat netlist in the order of the steps.
fn flat_word(alloc: Global, flat: &Flat<'_>) -> Result<String, AllocError> {
    let mut all = String::new(alloc);
    let steps = flat.steps();
    for k in 0..steps.len() {
        let word = signal_word(alloc, flat, steps[k])?;
        all.push_str(&word)?;
    }
    Ok(all)
}

/// Whether the signals of a library's main model are these.
fn library_has(alloc: Global, library: &Library, signals: &str) -> Result<bool, AllocError> {
    match flat_of(alloc, library, 0) {
        Some(flat) => Ok(flat_word(alloc, &flat)?.as_str() == signals),
        None => Ok(false),
    }
}

/// Whether the signals of a text's main model are these.
fn has_signals(alloc: Global, text: &[u8], signals: &str) -> Result<bool, AllocError> {
    match read(alloc, text) {
        Ok(library) => library_has(alloc, &library, signals),
        Err(_) => Ok(false),
    }
}

#[rattlefmt::skip]
static SIGNALS: &[Row<&str>] = &[
    ("a cover", ".model f;.inputs x y;.outputs z;.names x y z;11 1;", "x=input 0;y=input 1;z=cover 0 1;"),
    ("two instances", ".model f;.inputs a;.outputs z;.subckt n i=a o=t;.subckt n i=t o=z;.end;.model n;.inputs i;.outputs o;.names i o;0 1;", "a=input 0;0.0.i=tie 0;0.0.o=cover 3;t=tie 4;0.1.i=tie 2;0.1.o=cover 5;z=tie 6;"),
];

#[test]
fn signals_have_names_places_and_drivers(rt: HostRuntime) {
    check_rows(
        &rt,
        SIGNALS,
        |alloc, text, signals| has_signals(alloc, text, signals),
    );
}

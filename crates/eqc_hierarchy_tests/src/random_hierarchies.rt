//! Small hierarchies by chance: the outputs that `eval` answers are those of a plain evaluation,
//! which goes down the models of the library and never looks at the flat netlist.
ghost use Rattle.std.specs.Prelude.{◌<◌, IfOk, length};

use eqc_blif::{Cover, Instance, Library, Name, read};
use eqc_flat::{Flat, eval};
use eqc_netlist_testing::flat_of;
use eqc_testing::Chance;
use std::alloc::Global;
use std::test::Fail;

/// How many hierarchies are made.
const HIERARCHIES: u32 = 150;

/// All values of three inputs.
static ALL_VALUES: &[[bool; 3]] = &[
    [false, false, false],
    [true, false, false],
    [false, true, false],
    [true, true, false],
    [false, false, true],
    [true, false, true],
    [false, true, true],
    [true, true, true],
];

/// How many inputs and outputs a model has.
#[derive(Clone, Copy)]
struct Ports {
    inputs: u32,
    outputs: u32,
}

/// A text while it is written, by numbers that are the same in every run. In a model the inputs are
/// `i0`, `i1`, .., and the signals that are made after them `t0`, `t1`, ...
#[derive(Drop)]
struct Draft {
    text: String,
    chance: Chance,
    inputs: u32,
    made: u32,
}

impl Draft {
    /// Writes the name of an input or of a signal that was made.
    fn write_some(&mut self, alloc: Global) -> Result<(), Fail> {
        let k = self.chance.below(self.inputs.saturating_add(self.made));
        let name = match k.checked_sub(self.inputs) {
            None => format!(in alloc; "i{k}")?,
            Some(t) => format!(in alloc; "t{t}")?,
        };
        self.text.push_str(&name)?;
        Ok(())
    }

    /// Writes the name of a new signal.
    fn write_next(&mut self, alloc: Global) -> Result<(), Fail> {
        let name = format!(in alloc; "t{}", self.made)?;
        self.made = self.made.saturating_add(1);
        self.text.push_str(&name)?;
        Ok(())
    }

    /// Writes a row over so many columns that ends in `last`.
    fn write_row(&mut self, columns: u32, last: char) -> Result<(), Fail> {
        for _column in 0..columns {
            let byte = match self.chance.below(3) {
                0 => '0',
                1 => '1',
                _ => '-',
            };
            self.text.push(byte)?;
        }
        self.text.push(' ')?;
        self.text.push(last)?;
        self.text.push('\n')?;
        Ok(())
    }

    /// Writes a cover over up to three signals with up to three rows.
    fn write_cover(&mut self, alloc: Global) -> Result<(), Fail> {
        let columns = self.chance.below(4);
        self.text.push_str(".names ")?;
        for _column in 0..columns {
            self.write_some(alloc)?;
            self.text.push(' ')?;
        }
        self.write_next(alloc)?;
        self.text.push('\n')?;
        let last = if self.chance.below(2) == 0 { '0' } else { '1' };
        for _row in 0..self.chance.below(4) {
            self.write_row(columns, last)?;
        }
        Ok(())
    }

    /// Writes the start of an instance of model `m`, whose inputs are signals that are there.
    fn write_instance(&mut self, alloc: Global, m: u32, inputs: u32) -> Result<(), Fail> {
        let start = format!(in alloc; ".subckt m{m}")?;
        self.text.push_str(&start)?;
        for k in 0..inputs {
            let formal = format!(in alloc; " i{k}=")?;
            self.text.push_str(&formal)?;
            self.write_some(alloc)?;
        }
        Ok(())
    }

    /// Writes an instance of model `m` that makes new signals. Now and then an output has no pair.
    fn write_making(&mut self, alloc: Global, m: u32, ports: Ports) -> Result<(), Fail> {
        self.write_instance(alloc, m, ports.inputs)?;
        for k in 0..ports.outputs {
            if self.chance.below(5) > 0 {
                let formal = format!(in alloc; " o{k}=")?;
                self.text.push_str(&formal)?;
                self.write_next(alloc)?;
            }
        }
        self.text.push('\n')?;
        Ok(())
    }

    /// Writes what drives output `k`: an instance of the next model, where there is one, or a
    /// cover.
    fn write_output(
        &mut self,
        alloc: Global,
        k: u32,
        next: Option<(u32, Ports)>,
    ) -> Result<(), Fail> {
        match next {
            Some((m, ports)) if self.chance.below(3) == 0 => {
                self.write_instance(alloc, m, ports.inputs)?;
                let pair = format!(in alloc; " o0=o{k}\n")?;
                self.text.push_str(&pair)?;
            }
            _ => {
                self.text.push_str(".names ")?;
                self.write_some(alloc)?;
                let row = self.chance.below(2);
                let rest = format!(in alloc; " o{k}\n{row} 1\n")?;
                self.text.push_str(&rest)?;
            }
        }
        Ok(())
    }

    /// Writes a line with the names of ports.
    fn write_ports(&mut self, alloc: Global, start: &str, count: u32) -> Result<(), Fail> {
        self.text.push_str(start)?;
        let letter = if start == ".inputs" { 'i' } else { 'o' };
        for k in 0..count {
            let name = format!(in alloc; " {letter}{k}")?;
            self.text.push_str(&name)?;
        }
        self.text.push('\n')?;
        Ok(())
    }

    /// Writes model `m`, which has an instance of the next one, and covers and instances of the
    /// models below it.
    fn write_model(&mut self, alloc: Global, ports: &[Ports], m: u32) -> Result<(), Fail> {
        let own = ports.get(m as usize).copied().ok_or("no such model")?;
        let start = format!(in alloc; ".model m{m}\n")?;
        self.text.push_str(&start)?;
        self.write_ports(alloc, ".inputs", own.inputs)?;
        self.write_ports(alloc, ".outputs", own.outputs)?;
        self.inputs = own.inputs;
        self.made = 0;
        let next = m.saturating_add(1);
        let callee = ports.get(next as usize).map(|ports| (next, *ports));
        if let Some((callee, ports)) = callee {
            self.write_making(alloc, callee, ports)?;
        }
        for _step in 0..3 {
            let below = next.saturating_add(self.chance.below(3));
            match ports.get(below as usize) {
                Some(ports) => self.write_making(alloc, below, *ports)?,
                None => self.write_cover(alloc)?,
            }
        }
        for k in 0..own.outputs {
            self.write_output(alloc, k, callee)?;
        }
        self.text.push_str(".end\n")?;
        Ok(())
    }
}

/// A text of two to four models, each but the last right above the next one.
fn hierarchy(alloc: Global, seed: u32) -> Result<String, Fail> {
    let mut draft = Draft {
        text: String::new(alloc),
        chance: Chance { seed },
        inputs: 0,
        made: 0,
    };
    let models = draft.chance.below(3).saturating_add(2);
    let mut ports = Vec::new(alloc);
    for _m in 0..models {
        let inputs = draft.chance.below(3).saturating_add(1);
        let outputs = draft.chance.below(2).saturating_add(1);
        ports.push(Ports { inputs, outputs })?;
    }
    for m in 0..models {
        draft.write_model(alloc, &ports, m)?;
    }
    Ok(draft.text)
}

/// The value of a name, if it is known.
fn known_value(known: &[(&[u8], bool)], name: &Name) -> Option<bool> {
    for (other, value) in known {
        if *other == name.as_bytes() {
            return Some(*value);
        }
    }
    None
}

/// The values of these names, if all are known.
fn known_values(
    alloc: Global,
    known: &[(&[u8], bool)],
    names: &[Name],
) -> Result<Option<Vec<bool>>, Fail> {
    let mut values = Vec::new(alloc);
    for name in names {
        match known_value(known, name) {
            Some(value) => values.push(value)?,
            None => return Ok(None),
        }
    }
    Ok(Some(values))
}

/// Whether a row matches these values of its columns.
fn matches(row: &[u8], values: &[bool]) -> bool {
    for (k, value) in values.iter().enumerate() {
        let unlike = if *value { b'0' } else { b'1' };
        if row.get(k).copied() == Some(unlike) {
            return false;
        }
    }
    true
}

/// The value of a cover: that in which its rows end where one of them matches, else the other;
/// false without rows.
fn cover_value(cover: &Cover, values: &[bool]) -> bool {
    let mut on = true;
    let mut some = false;
    let rows = cover.rows();
    for k in 0..rows.len() {
        let row = rows.get(k);
        on = row.last().copied() == Some(b'1');
        some = some || matches(row, values);
    }
    some == on
}

/// Notes the values of the covers whose columns all have values.
fn note_covers<'a>(
    alloc: Global,
    covers: &'a [Cover],
    known: &mut Vec<(&'a [u8], bool)>,
) -> Result<(), Fail> {
    for cover in covers {
        if known_value(known, &cover.output).is_none() {
            if let Some(values) = known_values(alloc, known, &cover.columns)? {
                known.push((cover.output.as_bytes(), cover_value(cover, &values)))?;
            }
        }
    }
    Ok(())
}

/// The actual of a formal in an instance, if it has a pair.
fn actual_of<'a>(instance: &'a Instance, formal: &Name) -> Option<&'a Name> {
    for pair in &instance.pairs {
        if pair.0 == *formal {
            return Some(&pair.1);
        }
    }
    None
}

/// The values of the inputs of an instance, if all are known.
fn input_values(
    alloc: Global,
    inputs: &[Name],
    instance: &Instance,
    known: &[(&[u8], bool)],
) -> Result<Option<Vec<bool>>, Fail> {
    let mut values = Vec::new(alloc);
    for input in inputs {
        let actual = actual_of(instance, input).ok_or("an input without a pair")?;
        match known_value(known, actual) {
            Some(value) => values.push(value)?,
            None => return Ok(None),
        }
    }
    Ok(Some(values))
}

/// Whether the actuals of an instance all have values.
fn is_noted(instance: &Instance, known: &[(&[u8], bool)]) -> bool {
    for pair in &instance.pairs {
        if known_value(known, &pair.1).is_none() {
            return false;
        }
    }
    true
}

/// Notes the values of the outputs of an instance.
fn note_outputs<'a>(
    outputs: &[Name],
    values: &[bool],
    instance: &'a Instance,
    known: &mut Vec<(&'a [u8], bool)>,
) -> Result<(), Fail> {
    for (output, value) in outputs.iter().zip(values) {
        if let Some(actual) = actual_of(instance, output) {
            if known_value(known, actual).is_none() {
                known.push((actual.as_bytes(), *value))?;
            }
        }
    }
    Ok(())
}

/// The names of inputs with their values.
fn note_inputs<'a>(
    alloc: Global,
    names: &'a [Name],
    values: &[bool],
) -> Result<Vec<(&'a [u8], bool)>, Fail> {
    let mut known = Vec::new(alloc);
    for (name, value) in names.iter().zip(values) {
        known.push((name.as_bytes(), *value))?;
    }
    Ok(known)
}

/// The number of the model of an instance.
fn callee_of(library: &Library, instance: &Instance) -> Result<usize, Fail>
    ensures { IfOk result (λ m. m < length library.now) }
{
    match library.find(&instance.model) {
        Some(m) if m < library.models() => Ok(m),
        _ => Err(Fail::from("no such model")),
    }
}

/// The values of the outputs of model `m` under these values of its inputs: round by round those of
/// its covers and, by going down at most so many levels, of its instances.
fn output_values(
    alloc: Global,
    library: &Library,
    m: usize,
    inputs: &[bool],
    levels: u32,
) -> Result<Vec<bool>, Fail> {
    if levels == 0 || m >= library.models() {
        return Err(Fail::from("no such model, or one too deep"));
    }
    let mut known = note_inputs(alloc, library.inputs(m), inputs)?;
    for _round in 0..16 {
        note_covers(alloc, library.covers(m), &mut known)?;
        for instance in library.instances(m) {
            if is_noted(instance, &known) {
                continue;
            }
            let callee = callee_of(library, instance)?;
            if let Some(values) = input_values(alloc, library.inputs(callee), instance, &known)? {
                let outputs = output_values(alloc, library, callee, &values, levels - 1)?;
                note_outputs(library.outputs(callee), &outputs, instance, &mut known)?;
            }
        }
    }
    let outputs = known_values(alloc, &known, library.outputs(m))?;
    Ok(outputs.ok_or("an output without a value")?)
}

/// The values of a flat netlist's outputs under these values of its inputs.
fn flat_values(alloc: Global, flat: &Flat<'_>, values: &[bool]) -> Result<Vec<bool>, Fail> {
    if flat.inputs().len() != values.len() {
        return Err(Fail::from("more or fewer inputs"));
    }
    match eval(alloc, flat, values) {
        Ok(outputs) => Ok(outputs),
        Err(_) => Err(Fail::from("no memory")),
    }
}

/// Whether a flat netlist and the plain evaluation of its library agree under all values of the
/// inputs, of which there are three at most.
fn agree_everywhere(alloc: Global, library: &Library, flat: &Flat<'_>) -> Result<bool, Fail> {
    for all in ALL_VALUES {
        let values = all.get(..flat.inputs().len()).ok_or("many inputs")?;
        let outputs = flat_values(alloc, flat, values)?;
        let plain = output_values(alloc, library, 0, values, 4)?;
        if outputs.as_slice() != plain.as_slice() {
            return Ok(false);
        }
    }
    Ok(true)
}

/// Whether `eval` and the plain evaluation agree on the main model of a text.
fn agree(alloc: Global, text: &[u8]) -> Result<bool, Fail> {
    let library = read(alloc, text).ok().ok_or("refused text")?;
    let flat = flat_of(alloc, &library, 0).ok_or("refused hierarchy")?;
    agree_everywhere(alloc, &library, &flat)
}

#[test]
fn evaluates_hierarchies_as_their_models_say(rt: HostRuntime) -> Result<(), Fail> {
    let alloc = rt.alloc();
    for seed in 0..HIERARCHIES {
        let text = hierarchy(alloc, seed)?;
        assert_eq!(rt; (seed, agree(alloc, text.as_bytes())?), (seed, true));
    }
    Ok(())
}

//! The words for what is at fault where a run gives no verdict, one line each, and a second one
//! where there is a hint.
//!
//! A path of an instance is read from the main model down: `2:adder/1:cell` is, in the second
//! `.subckt` of the main model, an `adder`, its first one, a `cell`. The words for where
//! differences begin, and up to where equality is known, stand in `eqc_diagnosis`.

use crate::warning::{first_source, second_source};
use eqc_blif::{Finding as TextFinding, Library};
use eqc_case::{Bordered, Case, Compared, Diagnostics, Located, Netlist};
use eqc_diagnosis::{
    Design, Designs, LISTED, Lines, Shown, Whole, say_border, say_briefly, say_places, say_sharing,
    say_unplaced,
};
use eqc_flat::{Circle, Finding, FoundFormal, FoundInstance, HierarchicalName};
use eqc_pair::{Finding as PairFinding, Side, Unmatched};
use eqc_report::{Left, Options, RunFault, Seen, Undecided, Word};
use eqc_tree::Stop;
use eqc_words::Request;
use std::alloc::{AllocError, Global};
use std::fmt::{Display, Formatter};
use std::{fmt, io};

/// What to do about a text that begins with no command.
const NO_BLIF_HINT: &str =
    "BLIF begins with a command; other formats are converted first, and a byte order mark is left out";

/// The most nodes that may be asked for.
const MOST_NODES: u32 = 1_048_574;

/// The fewest nodes with which equal signals are looked for inside the netlists.
const SWEPT_NODES: u32 = 1_024;

/// What is said where memory was refused for the places of differences, or for up to where equality
/// is known.
const UNLOCATED: &str = "the memory is exhausted, so not all places are told of";

/// What is said where nothing was compared.
const VACUOUS: &str = "no assignment of the inputs meets the assumption, so nothing was compared";

/// What to do about a signal without a driver.
const UNDRIVEN_HINT: &str =
    "'opt_clean -purge', 'write_blif -noalias' or scripts/prepare --unused leaves such a name out; what an output needs 'setundef -undriven -zero' before 'techmap' ties to 0";

/// What the texts are called, and the lines on what is at fault in them. Where memory is refused
/// lines are left out.
#[derive(Drop)]
pub struct Explanation<'a> {
    alloc: Global,
    first: &'a str,
    second: &'a str,
    /// Empty where there is no order text.
    order: &'a str,
    /// Empty where there is no assumption.
    assume: &'a str,
    options: Options,
    /// Whether it is told why there is no verdict, and where differences begin, in full or in
    /// short.
    explains: bool,
    locates: bool,
    briefs: bool,
    lines: Lines,
}

/// The name of a model of a library by its number.
fn model_name<'a>(library: &'a Library, m: usize) -> Shown<'a> {
    if m < library.models() {
        Shown(library.name(m))
    } else {
        Shown(b"")
    }
}

/// A signal by its name, and by the path of its instance where that isn't the main model.
#[derive(Clone, Copy)]
struct Signal<'a> {
    library: &'a Library,
    name: &'a HierarchicalName<'a>,
}

impl<'a> Display for Signal<'a> {
    fn fmt<W: fmt::Write>(&self, f: &mut Formatter<W>) -> fmt::Result {
        write!(f, "'{}'", Shown(self.name.name()))?;
        let steps = self.name.steps();
        if steps.is_empty() {
            return Ok(());
        }
        f.write_str(" of instance ")?;
        for (k, step) in steps.iter().rev().enumerate() {
            if k >= LISTED && steps.len() - k > LISTED {
                if k == LISTED {
                    f.write_str("/..")?;
                }
                continue;
            }
            let cut = if k == 0 { "" } else { "/" };
            let model = model_name(self.library, step.model);
            write!(f, "{cut}{}:{model}", step.position.saturating_add(1))?;
        }
        Ok(())
    }
}

/// Where an instance stands: the number of its `.subckt`, counted from 1, the model around it, and
/// its own model.
#[derive(Clone, Copy)]
struct Place<'a> {
    library: &'a Library,
    found: &'a FoundInstance<'a>,
}

impl<'a> Display for Place<'a> {
    fn fmt<W: fmt::Write>(&self, f: &mut Formatter<W>) -> fmt::Result {
        let number = self.found.position().saturating_add(1);
        let around = model_name(self.library, self.found.model());
        let own = Shown(self.found.instance().model.as_bytes());
        write!(f, ".subckt {number} of model '{around}', a '{own}'")
    }
}

/// The first names that others lack, and how many there are.
#[derive(Clone, Copy)]
struct Names<'a>(&'a Unmatched<'a>);

impl<'a> Display for Names<'a> {
    fn fmt<W: fmt::Write>(&self, f: &mut Formatter<W>) -> fmt::Result {
        write!(f, "{}", self.0.count())?;
        let mut cut = ": ";
        for name in self.0.names() {
            write!(f, "{cut}'{}'", Shown(name))?;
            cut = " ";
        }
        if self.0.count() > self.0.names().len() {
            f.write_str(" ..")?;
        }
        Ok(())
    }
}

/// What flows write that is no command here, and what to do about it.
fn command_hint(command: &[u8]) -> &'static str {
    match command {
        b".gate" => {
            "a mapped cell; leave out '-gates' of yosys, or let abc write covers after 'unmap'"
        }
        b".mlatch" => "a mapped latch; cut registers into inputs and outputs",
        b".conn" => "leave out '-conn' of yosys's 'write_blif'",
        b".param" => "leave out '-param' of yosys's 'write_blif'",
        b".blackbox" => "leave out '-blackbox' of yosys's 'write_blif'",
        _ => "",
    }
}

/// How many characters a row has that are no blanks.
fn width(row: &[u8]) -> usize {
    row.iter()
        .filter(|byte| **byte != b' ' && **byte != b'\t')
        .count()
}

/// What is said of a row at fault, and of a size and a byte.
fn text_said(alloc: Global, finding: &TextFinding) -> Result<String, AllocError> {
    match finding {
        TextFinding::ControlByte { byte, column, .. } => format!(in alloc;
            "the byte {byte} in column {column} is no part of a text (1)"
        ),
        TextFinding::TextTooLong { bytes, limit } => format!(in alloc;
            "the text has {bytes} bytes at least, and may have {limit} (2)"
        ),
        TextFinding::RowShape { row, columns } => format!(in alloc;
            "the row '{}' has {} characters without its blanks; its cover wants 0, 1 or - for each of {columns} columns, and 0 or 1 for the output (7)",
            Shown(row.as_bytes()),
            width(row.as_bytes())
        ),
        TextFinding::RowOutput { output, first } => format!(in alloc;
            "the row ends in '{}', and the first row of its cover in '{}' (8)",
            Shown(&[*output]),
            Shown(&[*first])
        ),
        _ => name_said(alloc, finding),
    }
}

/// What is said of a word or a name at fault in a text.
fn name_said(alloc: Global, finding: &TextFinding) -> Result<String, AllocError> {
    let (before, word, wrong) = match finding {
        TextFinding::UnknownCommand(word) => ("", word, "is no command that is known (3)"),
        TextFinding::BehindEnd(word) => ("", word, "stands behind .end, where only .model may (5)"),
        TextFinding::RowOutsideCover(row) => ("the row ", row, "follows no .names (6)"),
        TextFinding::NoPair(word) => {
            ("", word, "is no pair of a formal and an actual, as a=b (9)")
        }
        TextFinding::NoWord(command) => ("", command, "has no word behind it (10)"),
        TextFinding::ModelTwice(name) => ("a model ", name, "stands before (11)"),
        TextFinding::InputTwice(name) => ("", name, "stands twice in the inputs of its model (12)"),
        TextFinding::OutputTwice(name) => {
            ("", name, "stands twice in the outputs of its model (12)")
        }
        _ => return String::from_str(alloc, "no line is a statement (13)"),
    };
    format!(in alloc; "{before}'{}' {wrong}", Shown(word.as_bytes()))
}

/// What is wrong with a formal, by its code.
const NO_PORT: &str = "is neither input nor output of that model (23)";

const TWO_PAIRS: &str = "stands in two pairs (24)";

const NO_PAIR: &str = "is an input of that model, and has no pair (25)";

/// What is said of a name of an instance's model.
fn formal_said(
    alloc: Global,
    library: &Library,
    found: &FoundFormal<'_>,
    wrong: &str,
) -> Result<String, AllocError> {
    let place = Place {
        library,
        found: found.instance(),
    };
    format!(in alloc; "{place}: '{}' {wrong}", Shown(found.formal()))
}

/// What is said of a chain of models of which each has an instance of the next one.
fn chain_said(alloc: Global, library: &Library, models: &[usize]) -> Result<String, AllocError> {
    let mut said = String::from_str(alloc, "a model contains itself (22):")?;
    for (k, m) in models.iter().take(LISTED).enumerate() {
        let cut = if k == 0 { "" } else { " >" };
        let name = format!(in alloc; "{cut} '{}'", model_name(library, *m))?;
        said.push_str(&name)?;
    }
    if models.len() > LISTED {
        said.push_str(" > ..")?;
    }
    Ok(said)
}

/// What is said of signals of which each depends on the next one.
fn circle_said(
    alloc: Global,
    library: &Library,
    circle: &Circle<'_>,
) -> Result<String, AllocError> {
    let mut said = format!(in alloc;
        "each of {} signals depends on the next one, and the last on the first (28)",
        circle.count()
    )?;
    let mut cut = ":";
    for name in circle.signals() {
        let signal = format!(in alloc; "{cut} {}", Signal { library, name })?;
        said.push_str(&signal)?;
        cut = ",";
    }
    if circle.count() > circle.signals().len() {
        said.push_str(", ..")?;
    }
    Ok(said)
}

/// What is said of a hierarchy that is too large, whose size isn't told where no `usize` has it.
fn size_said(alloc: Global, size: Option<usize>, limit: usize) -> Result<String, AllocError> {
    match size {
        Some(size) => format!(in alloc;
            "the main model has {size} signals and instances in all, and may have {limit} (29)"
        ),
        None => format!(in alloc;
            "the main model has over {} signals and instances in all, and may have {limit} (29)",
            usize::MAX
        ),
    }
}

/// What is said of an instance, a signal or a size at fault in a hierarchy.
fn hierarchy_said(
    alloc: Global,
    library: &Library,
    finding: &Finding<'_>,
) -> Result<String, AllocError> {
    match finding {
        Finding::NoSuchModel(found) => format!(in alloc;
            "{}: the text has no such model (21)",
            Place { library, found }
        ),
        Finding::Recursion(models) => chain_said(alloc, library, models),
        Finding::UnknownFormal(found) => formal_said(alloc, library, found, NO_PORT),
        Finding::FormalTwice(found) => formal_said(alloc, library, found, TWO_PAIRS),
        Finding::MissingInput(found) => formal_said(alloc, library, found, NO_PAIR),
        Finding::DrivenTwice(name) => format!(in alloc;
            "signal {} is driven twice (26)",
            Signal { library, name }
        ),
        Finding::Undriven(name) => format!(in alloc;
            "signal {} has no driver (27)",
            Signal { library, name }
        ),
        Finding::Circular(circle) => circle_said(alloc, library, circle),
        Finding::TooLarge { size, limit } => size_said(alloc, *size, *limit),
        Finding::ManyInputs { inputs, limit } => format!(in alloc;
            "the main model has {inputs} inputs, and may have {limit} (30)"
        ),
    }
}

/// What is said of inputs or outputs that one netlist alone has, by the code.
fn others_said(
    alloc: Global,
    what: &str,
    first: &Unmatched<'_>,
    second: &Unmatched<'_>,
    code: u8,
) -> Result<String, AllocError> {
    format!(in alloc;
        "{what} of the first netlist alone, {}; of the second alone, {} ({code})",
        Names(first),
        Names(second)
    )
}

/// What is said of names at fault, by the code.
fn names_said(
    alloc: Global,
    what: &str,
    names: &Unmatched<'_>,
    code: u8,
) -> Result<String, AllocError> {
    format!(in alloc; "{what}, {} ({code})", Names(names))
}

/// What is said of two netlists that make no pair, or of an order text.
fn pair_said(alloc: Global, finding: &PairFinding<'_>) -> Result<String, AllocError> {
    match finding {
        PairFinding::OtherInputs { first, second } => {
            others_said(alloc, "inputs", first, second, 41)
        }
        PairFinding::OtherOutputs { first, second } => {
            others_said(alloc, "outputs", first, second, 42)
        }
        PairFinding::UnknownOutputs(names) => {
            names_said(alloc, "names of --output that are no outputs", names, 43)
        }
        PairFinding::OrderTooLong { bytes, limit } => format!(in alloc;
            "the order text has {bytes} bytes at least, and may have {limit} (2)"
        ),
        PairFinding::UnknownWords(words) => {
            names_said(
                alloc,
                "words of the order text that are no inputs",
                words,
                51,
            )
        }
        PairFinding::WordTwice(word) => format!(in alloc;
            "'{}' stands twice in the order text (52)",
            Shown(word)
        ),
        PairFinding::InputsLeftOut(names) => {
            names_said(alloc, "inputs that the order text leaves out", names, 53)
        }
        PairFinding::UnknownInputs(names) => {
            let what = "inputs of the assumption that the netlists don't have";
            names_said(alloc, what, names, 61)
        }
        PairFinding::OutputCount(count) => format!(in alloc;
            "the assumption has {count} outputs, and has to have one (62)"
        ),
    }
}

/// What is said of a text with other models than the one that is wanted.
fn models_said(alloc: Global, library: &Library) -> Result<String, AllocError> {
    let count = library.models();
    let mut said = format!(in alloc;
        "no model has the name or the place that is wanted; the text has {count} (13):"
    )?;
    for m in 0..count.min(LISTED) {
        let name = format!(in alloc; " '{}'", model_name(library, m))?;
        said.push_str(&name)?;
    }
    if count > LISTED {
        said.push_str(" ..")?;
    }
    Ok(said)
}

/// What is said of an option that is refused by a code.
fn option_said(alloc: Global, options: Options, code: u8) -> Result<String, AllocError> {
    match code {
        81 => format!(in alloc; "--workers {}: 1 to 64 are allowed (81)", options.workers),
        82 => format!(in alloc; "--nodes {}: 1 to 1048574 are allowed (82)", options.nodes),
        83 => format!(in alloc;
            "--cells {}: a power of two up to 1048576 is wanted (83)",
            options.cells
        ),
        84 => format!(in alloc; "--forks {}: 0 to 16 are allowed (84)", options.forks),
        85 => format!(in alloc; "--inputs {}: 0 to 65535 are allowed (85)", options.inputs),
        _ => format!(in alloc;
            "--bytes {}: 0 to 2147483647 are allowed (86)",
            options.bytes
        ),
    }
}

/// What to try where the diagrams have no room.
fn way_on(options: Options) -> &'static str {
    if options.nodes < MOST_NODES {
        "a larger number, up to 1048574, or another --order, as scripts/order makes"
    } else if options.workers > 1 {
        "fewer --workers, or another --order, as scripts/order makes"
    } else {
        "another --order, as scripts/order makes"
    }
}

/// What to try where equal signals were not looked for inside the netlists, or not found.
fn inside_hint(options: Options) -> &'static str {
    if options.conflicts == 0 {
        "without --conflicts 0 equal signals are looked for inside the netlists"
    } else if options.nodes < SWEPT_NODES {
        "with --nodes 1024 and more equal signals are looked for inside the netlists"
    } else {
        "a larger --conflicts gives the search for equal outputs more time"
    }
}

/// What is said of a comparison that was given up.
fn stop_said(alloc: Global, options: Options, stop: Stop) -> Result<String, AllocError> {
    if stop == Stop::NodeLimit {
        return format!(in alloc;
            "the diagrams want more than --nodes {}, or too many turns (71); try {}",
            options.nodes,
            way_on(options)
        );
    }
    format!(in alloc; "{stop} ({})", stop.code())
}

/// What is said before the outputs that are left undecided.
fn undecided_said(alloc: Global, left: &Left) -> Result<String, AllocError> {
    format!(in alloc;
        "{} of {} outputs are equal; left undecided, {}:",
        left.compared.saturating_sub(left.count),
        left.compared,
        left.count
    )
}

/// A word of outputs, as `p[63:0]`, with the number of those that are left undecided.
fn word_said(alloc: Global, word: &Word) -> Result<String, AllocError> {
    format!(in alloc;
        "{}{}:{}{}: {} of {}",
        Shown(&word.before),
        word.high,
        word.low,
        Shown(&word.after),
        word.left,
        word.all
    )
}

/// The names that are told of outputs that are in no word, and how many outputs more are left. None
/// if there are neither.
fn alone_said(alloc: Global, left: &Left) -> Result<Option<String>, AllocError> {
    let mut said = String::new(alloc);
    let mut cut = "";
    for name in &left.names {
        let output = format!(in alloc; "{cut}'{}'", Shown(name))?;
        said.push_str(&output)?;
        cut = " ";
    }
    let more = left.alone.saturating_sub(left.names.len());
    if more > 0 {
        let count = format!(in alloc; "{cut}and {more} more")?;
        said.push_str(&count)?;
    }
    if said.is_empty() {
        return Ok(None);
    }
    Ok(Some(said))
}

/// What is said of an output that was seen to differ, before the assignment under which it does.
const SEEN: &str =
    "this output differs all the same, under these values; they may not be the least, and an output before it may differ too";

/// An output that was seen to differ, as a report has it: a line for its name, one for each input,
/// and one for each netlist.
fn seen_said(alloc: Global, seen: &Seen) -> Result<String, AllocError> {
    let Seen { inputs, difference } = seen;
    let mut said = format!(in alloc; "{SEEN}\ndiffers at {}", Whole(difference.name.as_bytes()))?;
    for k in 0..inputs.len().min(difference.values.len()) {
        let value = u8::from(difference.values[k]);
        let line = format!(in alloc; "\n{}={value}", Whole(inputs[k].as_bytes()))?;
        said.push_str(&line)?;
    }
    let ends = format!(in alloc;
        "\nfirst={}\nsecond={}",
        u8::from(difference.first),
        u8::from(!difference.first)
    )?;
    said.push_str(&ends)?;
    Ok(said)
}

/// The design of a netlist that is compared.
fn design_of<'a>(netlist: &Netlist<'a>) -> Design<'a> {
    Design {
        text: netlist.text,
        library: netlist.library,
        model: netlist.model,
    }
}

/// The designs that are compared.
fn designs_of<'a>(compared: &Compared<'a>) -> Designs<'a> {
    Designs {
        pair: compared.pair,
        first: design_of(&compared.first),
        second: design_of(&compared.second),
    }
}

/// The names of the other outputs that may begin to differ at one of the places. Fails where memory
/// is refused.
fn names_of<'a>(alloc: Global, located: &Located<'a>) -> Result<Vec<&'a [u8]>, AllocError> {
    let mut names = Vec::new(alloc);
    for other in located.others {
        if let Some(difference) = located.differences.each.get(*other) {
            names.push(difference.name.as_bytes())?;
        }
    }
    Ok(names)
}

/// No explanation yet, of what is asked for. On a terminal `--explain` tells in short where
/// differences begin.
pub fn explanation_for<'a>(
    alloc: Global,
    request: &Request<'a>,
    is_terminal: bool,
) -> Explanation<'a> {
    Explanation {
        alloc,
        first: first_source(request),
        second: second_source(request),
        order: request.order.unwrap_or(""),
        assume: request.assume.unwrap_or(""),
        options: request.options,
        explains: request.explain,
        locates: request.locate,
        briefs: request.explain && !request.locate && is_terminal,
        lines: Lines::new(alloc),
    }
}

impl<'a> Explanation<'a> {
    /// The lines.
    pub fn as_bytes(&self) -> &[u8] {
        self.lines.as_bytes()
    }

    /// What the text of a side is called.
    fn name(&self, side: Side) -> &'a str {
        match side {
            Side::First | Side::Pair | Side::Options => self.first,
            Side::Second => self.second,
            Side::Order => self.order,
            Side::Assume => self.assume,
        }
    }

    /// Puts a line behind the others.
    fn tell(&mut self, said: Result<String, AllocError>) -> Result<(), AllocError> {
        if !self.explains {
            return Ok(());
        }
        self.lines.put(said)
    }

    /// Puts a line behind the others on something that has a name, as a file.
    fn tell_of(&mut self, name: &str, said: Result<String, AllocError>) -> Result<(), AllocError> {
        if !self.explains {
            return Ok(());
        }
        self.lines.put_of(name, said)
    }

    /// Puts a hint behind the others, where there is one.
    fn hint(&mut self, hint: &str) -> Result<(), AllocError> {
        if hint.is_empty() {
            return Ok(());
        }
        self.tell(String::from_str(self.alloc, hint))
    }

    fn tell_text(
        &mut self,
        side: Side,
        number: u32,
        finding: Option<&TextFinding>,
    ) -> Result<(), AllocError> {
        let said = match finding {
            Some(finding) => text_said(self.alloc, finding)?,
            None => String::from_str(
                self.alloc,
                "a latch; cut registers into inputs and outputs (4)",
            )?,
        };
        let name = self.name(side);
        if number == 0 {
            self.tell_of(name, Ok(said))?;
        } else {
            self.tell_of(name, format!(in self.alloc; "line {number}: {said}"))?;
        }
        match finding {
            Some(TextFinding::UnknownCommand(word)) => self.hint(command_hint(word.as_bytes())),
            Some(TextFinding::RowOutsideCover(_)) if number == 1 => self.hint(NO_BLIF_HINT),
            _ => Ok(()),
        }
    }

    fn tell_hierarchy(
        &mut self,
        side: Side,
        library: &Library,
        finding: &Finding<'_>,
    ) -> Result<(), AllocError> {
        self.tell_of(
            self.name(side),
            hierarchy_said(self.alloc, library, finding),
        )?;
        match finding {
            Finding::Undriven(_) => self.hint(UNDRIVEN_HINT),
            _ => Ok(()),
        }
    }

    /// Tells of outputs that are left undecided.
    fn tell_left(&mut self, left: &Left) -> Result<(), AllocError> {
        self.tell(undecided_said(self.alloc, left))?;
        for word in &left.words {
            self.tell(word_said(self.alloc, word))?;
        }
        if let Some(said) = alone_said(self.alloc, left)? {
            self.tell(Ok(said))?;
        }
        Ok(())
    }

    /// Tells in short of the first places of a difference.
    fn tell_briefly(&mut self, located: &Located<'_>) -> Result<(), AllocError> {
        let designs = designs_of(&located.compared);
        let texts = (self.first, self.second);
        let Located { output, places, .. } = *located;
        say_briefly(self.alloc, &designs, texts, output, places, &mut self.lines)
    }

    /// Tells of the places of a difference, and of the others that may begin at one of them.
    fn tell_places(&mut self, located: &Located<'_>) -> Result<(), AllocError> {
        let designs = designs_of(&located.compared);
        let Located { output, places, .. } = *located;
        say_places(self.alloc, &designs, output, places, &mut self.lines)?;
        match places.each.get(located.shared) {
            Some(place) if !located.others.is_empty() => {
                let others = names_of(self.alloc, located)?;
                say_sharing(self.alloc, &designs, place, &others, &mut self.lines)
            }
            _ => Ok(()),
        }
    }

    /// Tells of a file that can't be opened or read, or of a report that can't be written, and the
    /// system's reason.
    fn tell_failed(&mut self, name: &str, error: &io::Error, fault: RunFault) {
        let said = format!(in self.alloc; "{error} ({})", fault.code());
        let _ = self.tell_of(name, said);
    }

    /// Tells of a file that could not be opened.
    pub fn unopened(&mut self, path: &str, error: &io::Error) {
        self.tell_failed(path, error, RunFault::Read);
    }
}

impl<'a> Diagnostics for Explanation<'a> {
    fn text(&mut self, side: Side, line: u32, finding: Option<&TextFinding>) {
        let _ = self.tell_text(side, line, finding);
    }

    fn models(&mut self, side: Side, library: &Library) {
        let _ = self.tell_of(self.name(side), models_said(self.alloc, library));
    }

    fn hierarchy(&mut self, side: Side, library: &Library, finding: &Finding<'_>) {
        let _ = self.tell_hierarchy(side, library, finding);
    }

    fn pair(&mut self, finding: &PairFinding<'_>) {
        let _ = self.tell(pair_said(self.alloc, finding));
    }

    fn vacuous(&mut self) {
        let _ = self.tell_of(self.assume, String::from_str(self.alloc, VACUOUS));
    }

    fn option(&mut self, code: u8) {
        let _ = self.tell(option_said(self.alloc, self.options, code));
    }

    fn stopped(&mut self, stop: Stop) {
        let _ = self.tell(stop_said(self.alloc, self.options, stop));
        if stop == Stop::NodeLimit {
            let _ = self.hint(inside_hint(self.options));
        }
    }

    fn undecided(&mut self, _stop: Stop, _case: &Case<'_>, left: &Undecided) {
        if left.left().count > 0 {
            let _ = self.tell_left(left.left());
        }
        if let Some(seen) = left.seen() {
            let _ = self.tell(seen_said(self.alloc, seen));
        }
    }

    fn unread(&mut self, side: Side, error: &io::Error) {
        self.tell_failed(self.name(side), error, RunFault::Read);
    }

    fn unwritten(&mut self, error: &io::Error) {
        self.tell_failed("standard output", error, RunFault::Write);
    }

    fn wants_places(&self) -> bool {
        self.locates || self.briefs
    }

    fn places(&mut self, located: &Located<'_>) {
        if self.locates {
            let _ = self.tell_places(located);
        } else if self.briefs {
            // Those of the first group of outputs are enough.
            self.briefs = false;
            let _ = self.tell_briefly(located);
        }
    }

    fn unplaced(&mut self, count: usize) {
        if self.locates {
            let _ = say_unplaced(self.alloc, count, &mut self.lines);
        }
    }

    fn unlocated(&mut self) {
        let _ = self.lines.put(String::from_str(self.alloc, UNLOCATED));
    }

    fn wants_border(&self) -> bool {
        self.explains || self.locates
    }

    fn border(&mut self, bordered: &Bordered<'_>) {
        let designs = designs_of(&bordered.compared);
        let _ = say_border(self.alloc, &designs, bordered.border, &mut self.lines);
    }
}

//! What `--explain` tells behind the report of a run without a verdict, for each code, worked out
//! by hand from the texts.

use super::ends::{holds, same};
use super::program::{LEAF_FIRST, words_of, writes, written_by, written_on};
use eqc_check::{Diagnostics, Options};
use eqc_command::{Request, explanation_for, program};
use eqc_testing::{
    Drain, Endless, Feed, NEVER, PERMUTED, Row, UNEQUAL, doubling, input_names, is_text, lines,
};
use eqc_tree::Stop;
use std::alloc::{AllocError, Global};
use std::process::Abort;
use std::rt::{Clock, Files};
use std::sync::Wait;
use std::thread::Threads;

/// Options, a report, and the lines of the explanation.
type Told = (&'static str, &'static str, &'static [&'static str]);

/// Texts that are no netlists.
#[rattlefmt::skip]
static READING: &[Row<Told>] = &[
    ("a control byte", ".model f;\u{1};", ("", "refused first 2 1;", &["eqc: standard input: line 2: the byte 1 in column 1 is no part of a text (1)"])),
    ("a gate", ".model f;.gate and2 a=b;.end;", ("", "refused first 2 3;", &["eqc: standard input: line 2: '.gate' is no command that is known (3)", "eqc: a mapped cell; leave out '-gates' of yosys, or let abc write covers after 'unmap'"])),
    ("a connection", ".model f;.conn a b;", ("", "refused first 2 3;", &["eqc: standard input: line 2: '.conn' is no command that is known (3)", "eqc: leave out '-conn' of yosys's 'write_blif'"])),
    ("a latch", ".model f;.latch a z 0;", ("", "refused first 2 4;", &["eqc: standard input: line 2: a latch; cut registers into inputs and outputs (4)"])),
    ("a command after end", ".model f;.end;.names z;", ("", "refused first 3 5;", &["eqc: standard input: line 3: '.names' stands behind .end, where only .model may (5)"])),
    ("a row without a cover", ".model f;11 1;", ("", "refused first 2 6;", &["eqc: standard input: line 2: the row '11 1' follows no .names (6)"])),
    ("another format", "aig 2 0;", ("", "refused first 1 6;", &["eqc: standard input: line 1: the row 'aig 2 0' follows no .names (6)", "eqc: BLIF begins with a command; other formats are converted first, and a byte order mark is left out"])),
    ("a short row", ".model f;.names a b z;1 1;", ("", "refused first 3 7;", &["eqc: standard input: line 3: the row '1 1' has 2 characters without its blanks; its cover wants 0, 1 or - for each of 2 columns, and 0 or 1 for the output (7)"])),
    ("rows of two kinds", ".model f;.names a z;1 1;0 0;", ("", "refused first 4 8;", &["eqc: standard input: line 4: the row ends in '0', and the first row of its cover in '1' (8)"])),
    ("no pair", ".model f;.subckt g a;", ("", "refused first 2 9;", &["eqc: standard input: line 2: 'a' is no pair of a formal and an actual, as a=b (9)"])),
    ("no word", ".model f;.names;", ("", "refused first 2 10;", &["eqc: standard input: line 2: '.names' has no word behind it (10)"])),
    ("a model twice", ".model f;.end;.model f;", ("", "refused first 3 11;", &["eqc: standard input: line 3: a model 'f' stands before (11)"])),
    ("an input twice", ".model f;.inputs a a;", ("", "refused first 2 12;", &["eqc: standard input: line 2: 'a' stands twice in the inputs of its model (12)"])),
    ("an output twice", ".model f;.outputs a a;", ("", "refused first 2 12;", &["eqc: standard input: line 2: 'a' stands twice in the outputs of its model (12)"])),
    ("no byte", "", ("", "refused first 0 13;", &["eqc: standard input: no line is a statement (13)"])),
    ("one model", ".model f;.end;", ("", "refused second 0 13;", &["eqc: standard input: no model has the name or the place that is wanted; the text has 1 (13): 'f'"])),
];

/// Hierarchies that are no netlists.
#[rattlefmt::skip]
static FLATTENING: &[Row<Told>] = &[
    ("a missing model", ".model f;.subckt g a=b;.end;.model h;", ("", "refused first 0 21;", &["eqc: standard input: .subckt 1 of model 'f', a 'g': the text has no such model (21)"])),
    ("models that contain one another", ".model f;.subckt g;.end;.model g;.subckt f;.end;", ("", "refused first 0 22;", &["eqc: standard input: a model contains itself (22): 'f' > 'g' > 'f'"])),
    ("no port", ".model f;.inputs a;.subckt g b=a;.end;.model g;.end;", ("", "refused first 0 23;", &["eqc: standard input: .subckt 1 of model 'f', a 'g': 'b' is neither input nor output of that model (23)"])),
    ("a formal twice", ".model f;.inputs a;.subckt g b=a b=a;.end;.model g;.inputs b;.end;", ("", "refused first 0 24;", &["eqc: standard input: .subckt 1 of model 'f', a 'g': 'b' stands in two pairs (24)"])),
    ("a missing input", ".model f;.subckt g;.end;.model g;.inputs b;.end;", ("", "refused first 0 25;", &["eqc: standard input: .subckt 1 of model 'f', a 'g': 'b' is an input of that model, and has no pair (25)"])),
    ("a signal driven twice", ".model f;.inputs a;.names a;.end;.model g;.end;", ("", "refused first 0 26;", &["eqc: standard input: signal 'a' is driven twice (26)"])),
    ("a signal without a driver", ".model f;.outputs z;.subckt g z=y;.subckt g z=z;.end;.model g;.outputs z;.subckt h n=z;.end;.model h;.outputs n;.names m n;1 1;", ("", "refused first 0 27;", &["eqc: standard input: signal 'm' of instance 1:g/1:h has no driver (27)", "eqc: 'opt_clean -purge', 'write_blif -noalias' or scripts/prepare --unused leaves such a name out; what an output needs 'setundef -undriven -zero' before 'techmap' ties to 0"])),
    ("a circle", ".model f;.outputs z;.names z z;1 1;.end;.model g;.end;", ("", "refused first 0 28;", &["eqc: standard input: each of 1 signals depends on the next one, and the last on the first (28): 'z'"])),
    ("too many signals", ".model f;.subckt a;.subckt a;.end;.model a;.subckt b;.subckt b;.end;.model b;.subckt c;.subckt c;.end;.model c;.subckt d;.subckt d;.end;.model d;.subckt e;.subckt e;.end;.model e;.subckt g;.subckt g;.end;.model g;.subckt h;.subckt h;.end;.model h;.subckt i;.subckt i;.end;.model i;.subckt j;.subckt j;.end;.model j;.subckt k;.subckt k;.end;.model k;.subckt l;.subckt l;.end;.model l;.subckt m;.subckt m;.end;.model m;.subckt n;.subckt n;.end;.model n;.subckt o;.subckt o;.end;.model o;.subckt p;.subckt p;.end;.model p;.subckt q;.subckt q;.end;.model q;.subckt r;.subckt r;.end;.model r;.subckt s;.subckt s;.end;.model s;.subckt t;.subckt t;.end;.model t;.subckt u;.subckt u;.end;.model u;.end;", ("", "refused first 0 29;", &["eqc: standard input: the main model has 2097150 signals and instances in all, and may have 1048576 (29)"])),
];

/// Netlists with outputs of one structure, two of a word that have others, one of none, and one
/// that has an index alone.
const LEFT_OF_A_WORD: &str =
    ".model f;.inputs a b;.outputs q p[0] p[1] p[2] r v_1_;.names a p[0];1 1;.names a b p[1];11 1;.names a b p[2];10 1;.names a b q;01 1;.names b r;1 1;.names a b v_1_;00 1;.end;.model g;.inputs a b;.outputs q p[0] p[1] p[2] r v_1_;.names a p[0];1 1;.names a b p[1];1- 1;.names a b p[2];0- 1;.names a b q;-1 1;.names b r;1 1;.names a b v_1_;-0 1;.end;";

/// Netlists of which a word is equal to another one, and a signal is the opposite of what an
/// instance gives; their outputs differ.
const EQUAL_BELOW: &str =
    ".model f;.inputs a b c;.outputs z;.names a b t[0];11 1;.names b c t[1];11 1;.names a c n;11 1;.names t[0] t[1] n b z;1--- 1;-1-- 1;--11 1;.end;.model g;.inputs a b c;.outputs z;.names a b u[2];11 1;.names b c u[3];11 1;.subckt h x=a y=c o=w;.names u[2] u[3] w b z;11-- 1;--11 1;.end;.model h;.inputs x y;.outputs o;.names x y o;11 0;.end;";

/// Netlists that make no pair, order texts, options, and files that can't be read.
#[rattlefmt::skip]
static COMPARING: &[Row<Told>] = &[
    ("other inputs", LEAF_FIRST, ("", "refused pair 0 41;", &["eqc: inputs of the first netlist alone, 0; of the second alone, 1: 'b' (41)"])),
    ("other outputs", ".model f;.outputs y;.names y;.end;.model g;.outputs z;.names z;.end;", ("", "refused pair 0 42;", &["eqc: outputs of the first netlist alone, 1: 'y'; of the second alone, 1: 'z' (42)"])),
    ("a word that is no input", PERMUTED, ("--order ada", "refused order 0 51;", &["eqc: words of the order text that are no inputs, 1: 'd' (51)"])),
    ("a word twice", PERMUTED, ("--order aba", "refused order 0 52;", &["eqc: 'a' stands twice in the order text (52)"])),
    ("an input left out", PERMUTED, ("--order a", "refused order 0 53;", &["eqc: inputs that the order text leaves out, 1: 'b' (53)"])),
    ("no such output", UNEQUAL, ("--output y --output z", "refused pair 0 43;", &["eqc: names of --output that are no outputs, 1: 'y' (43)"])),
    ("an assumption's input", UNEQUAL, ("--assume w_is_1", "refused assume 0 61;", &["eqc: inputs of the assumption that the netlists don't have, 1: 'w' (61)"])),
    ("an assumption's outputs", UNEQUAL, ("--assume two_outputs", "refused assume 0 62;", &["eqc: the assumption has 2 outputs, and has to have one (62)"])),
    ("a latch in the assumption", UNEQUAL, ("--assume latch", "refused assume 2 4;", &["eqc: latch: line 2: a latch; cut registers into inputs and outputs (4)"])),
    ("no statement in the assumption", UNEQUAL, ("--assume yx", "refused assume 1 6;", &["eqc: yx: line 1: the row 'y x' follows no .names (6)", "eqc: BLIF begins with a command; other formats are converted first, and a byte order mark is left out"])),
    ("the assumption's hierarchy", UNEQUAL, ("--assume undriven", "refused assume 0 27;", &["eqc: undriven: signal 'e' has no driver (27)", "eqc: 'opt_clean -purge', 'write_blif -noalias' or scripts/prepare --unused leaves such a name out; what an output needs 'setundef -undriven -zero' before 'techmap' ties to 0"])),
    ("nothing is allowed", UNEQUAL, ("--assume nothing", "vacuous;", &["eqc: nothing: no assignment of the inputs meets the assumption, so nothing was compared"])),
    ("too few nodes", UNEQUAL, ("--nodes 1", "stopped 71;", &["eqc: the diagrams want more than --nodes 1, or too many turns (71); try a larger number, up to 1048574, or another --order, as scripts/order makes", "eqc: with --nodes 1024 and more equal signals are looked for inside the netlists", "eqc: 0 of 1 outputs are equal; left undecided, 1:", "eqc: 'z'", "eqc: below the outputs that are left no signal was found equal to one of the other netlist; inputs that they need: 2"])),
    ("outputs left of a word", LEFT_OF_A_WORD, ("--nodes 1", "stopped 71;", &["eqc: the diagrams want more than --nodes 1, or too many turns (71); try a larger number, up to 1048574, or another --order, as scripts/order makes", "eqc: with --nodes 1024 and more equal signals are looked for inside the netlists", "eqc: 2 of 6 outputs are equal; left undecided, 4:", "eqc: p[2:0]: 2 of 3", "eqc: 'q' 'v_1_'", "eqc: below the outputs that are left no signal was found equal to one of the other netlist; inputs that they need: 2"])),
    ("a word up to which it is equal", EQUAL_BELOW, ("--nodes 1", "stopped 71;", &["eqc: the diagrams want more than --nodes 1, or too many turns (71); try a larger number, up to 1048574, or another --order, as scripts/order makes", "eqc: with --nodes 1024 and more equal signals are looked for inside the netlists", "eqc: 0 of 1 outputs are equal; left undecided, 1:", "eqc: 'z'", "eqc: below the outputs that are left so many signals are proved equal to ones of the other netlist: 3; inputs that they need beside these: 1", "eqc: 't[1:0]' (first, line 4) = 'u[3:2]' (second, line 18): 2 of 2", "eqc: 'n' (first, line 8) = not 'o' of instance 1:h (second, line 30)"])),
    ("too many workers", UNEQUAL, ("--workers 65", "refused options 0 81;", &["eqc: --workers 65: 1 to 64 are allowed (81)"])),
    ("no node", UNEQUAL, ("--nodes 0", "refused options 0 82;", &["eqc: --nodes 0: 1 to 1048574 are allowed (82)"])),
    ("three cells", UNEQUAL, ("--cells 3", "refused options 0 83;", &["eqc: --cells 3: a power of two up to 1048576 is wanted (83)"])),
    ("too many forks", UNEQUAL, ("--forks 17", "refused options 0 84;", &["eqc: --forks 17: 0 to 16 are allowed (84)"])),
    ("too many inputs allowed", UNEQUAL, ("--inputs 65536", "refused options 0 85;", &["eqc: --inputs 65536: 0 to 65535 are allowed (85)"])),
    ("too many bytes allowed", UNEQUAL, ("--bytes 2147483648", "refused options 0 86;", &["eqc: --bytes 2147483648: 0 to 2147483647 are allowed (86)"])),
    ("few bytes allowed", UNEQUAL, ("--bytes 9", "refused first 0 2;", &["eqc: standard input: the text has 10 bytes at least, and may have 9 (2)"])),
    ("no input allowed", UNEQUAL, ("--inputs 0", "refused first 0 30;", &["eqc: standard input: the main model has 2 inputs, and may have 0 (30)"])),
    ("a missing file", "", ("and nofile", "", &["eqc: nofile: entity not found (91)"])),
    ("a missing order text", "", ("and or --order nofile", "", &["eqc: nofile: entity not found (91)"])),
    ("a file that fails", "", ("and broken!", "", &["eqc: broken!: operation interrupted (91)"])),
    ("a missing assumption", "", ("and or --assume nofile", "", &["eqc: nofile: entity not found (91)"])),
    ("an assumption that fails", "", ("and or --assume broken!", "", &["eqc: broken!: operation interrupted (91)"])),
    ("an order text that fails", "", ("and or --order broken!", "", &["eqc: broken!: operation interrupted (91)"])),
];

/// The status of a command line on a text, where it writes this report, and exactly this on
/// standard error.
fn status_of(
    rt: &(impl AllocGlobal + Threads + Wait + Sync),
    line: &str,
    text: &[u8],
    report: &str,
    said: &str,
) -> Result<Option<u8>, AllocError> {
    let written = written_by(rt, line.trim_end(), Feed::of_bytes(text))?;
    let as_said = is_text(&written.out, report) && written.err.as_slice() == said.as_bytes();
    Ok(as_said.then_some(written.status))
}

/// What ends standard error where there is no report.
fn fault_of(report: &str) -> &'static str {
    if report.is_empty() { "fault 91\n" } else { "" }
}

/// The status of a text without an explanation.
fn plain_status(
    rt: &(impl AllocGlobal + Threads + Wait + Sync),
    text: &[u8],
    options: &str,
    report: &str,
) -> Result<Option<u8>, AllocError> {
    let line = format!(in rt.alloc(); "eqc {options}")?;
    status_of(rt, &line, text, report, fault_of(report))
}

/// Lines, and what ends standard error behind them.
fn joined(alloc: Global, lines: &[&str], end: &str) -> Result<String, AllocError> {
    let mut all = String::new(alloc);
    for line in lines {
        all.push_str(line)?;
        all.push('\n')?;
    }
    all.push_str(end)?;
    Ok(all)
}

/// The status of a text with its explanation.
fn explained_status(
    rt: &(impl AllocGlobal + Threads + Wait + Sync),
    text: &[u8],
    told: &Told,
) -> Result<Option<u8>, AllocError> {
    let (options, report, said) = *told;
    let line = format!(in rt.alloc(); "eqc --explain {options}")?;
    let said = joined(rt.alloc(), said, fault_of(report))?;
    status_of(rt, &line, text, report, &said)
}

/// Whether a text, in which `;` stands for LF, ends with one status, with its explanation and
/// without.
fn is_told(
    rt: &(impl AllocGlobal + Threads + Wait + Sync),
    text: &str,
    told: &Told,
) -> Result<bool, AllocError> {
    let text = lines(rt.alloc(), text)?;
    let plain = plain_status(rt, &text, told.0, told.1)?;
    let explained = explained_status(rt, &text, told)?;
    Ok(plain.is_some() && explained == plain)
}

/// Each text is reported as ever, with the lines of its explanation where `--explain` asks for
/// them, and with none where it doesn't.
fn check_told(rt: &(impl Abort + AllocGlobal + Threads + Wait + Sync), rows: &[Row<Told>]) {
    for (name, text, told) in rows {
        holds(rt, is_told(rt, text, told), name);
    }
}

#[test]
fn texts_at_fault_are_explained(rt: HostRuntime) {
    check_told(&rt, READING);
}

#[test]
fn hierarchies_at_fault_are_explained(rt: HostRuntime) {
    check_told(&rt, FLATTENING);
}

#[test]
fn runs_without_a_verdict_are_explained(rt: HostRuntime) {
    check_told(&rt, COMPARING);
}

/// A main model with so many inputs.
fn many_inputs(alloc: Global, count: u32) -> Result<String, AllocError> {
    let names = input_names(alloc, count)?;
    format!(in alloc; ".model f;.inputs{names};.end;.model g;")
}

/// Models on so many levels below the first one, each but the last with two instances of the next
/// one.
fn levels_below(alloc: Global, levels: u32) -> Result<String, AllocError> {
    let models = doubling(alloc, levels.saturating_add(1))?;
    format!(in alloc; "{models}.end;")
}

/// Whether a text is refused by its hierarchy's size, with this explanation.
fn is_too_large(
    rt: &(impl AllocGlobal + Threads + Wait + Sync),
    text: &str,
    said: &str,
) -> Result<bool, AllocError> {
    writes(
        rt,
        "eqc --explain",
        Feed::whole(text),
        2,
        "refused first 0 29;",
        said,
    )
}

#[test]
fn sizes_are_counted_as_far_as_they_go(rt: HostRuntime) -> Result<(), AllocError> {
    // On n levels are 2^(n + 1) - 2 instances.
    for (levels, said) in [
        (
            63,
            "eqc: standard input: the main model has 18446744073709551614 signals and instances in all, and may have 1048576 (29);",
        ),
        (
            64,
            "eqc: standard input: the main model has over 18446744073709551615 signals and instances in all, and may have 1048576 (29);",
        ),
    ] {
        let text = levels_below(rt.alloc(), levels)?;
        holds(&rt, is_too_large(&rt, &text, said), levels);
    }
    Ok(())
}

/// What is said of a text with 2049 inputs.
const MANY_INPUTS: &str =
    "eqc: standard input: the main model has 2049 inputs, and may have 2048 (30);";

/// Whether a text is refused for its inputs, with that explanation.
fn has_many_inputs(
    rt: &(impl AllocGlobal + Threads + Wait + Sync),
    text: &str,
) -> Result<bool, AllocError> {
    let input = Feed::whole(text);
    writes(
        rt,
        "eqc --explain",
        input,
        2,
        "refused first 0 30;",
        MANY_INPUTS,
    )
}

/// What is said of a text without end.
const MANY_BYTES: &str =
    "eqc: standard input: the text has 16777217 bytes at least, and may have 16777216 (2);";

/// Whether a text without end is refused, with that explanation.
fn has_many_bytes(
    rt: &(impl AllocGlobal + Clock + Eprint + Files + Threads + Wait + Sync),
    words: &[String],
) -> bool {
    let mut out = Vec::new(rt.alloc());
    let mut err = Vec::new(rt.alloc());
    program(rt, words, Endless::new(), &mut out, &mut err, false);
    is_text(&out, "refused first 0 2;") && is_text(&err, MANY_BYTES)
}

#[test]
fn too_many_inputs_and_bytes_are_explained(rt: HostRuntime) -> Result<(), AllocError> {
    let text = many_inputs(rt.alloc(), 2049)?;
    holds(&rt, has_many_inputs(&rt, &text), "inputs");
    let words = words_of(rt.alloc(), "eqc --explain")?;
    same(&rt, has_many_bytes(&rt, &words), true, "bytes");
    Ok(())
}

/// Whether these words end as a failed write, with this on standard error.
fn is_write_fault(
    rt: &(impl AllocGlobal + Clock + Eprint + Files + Threads + Wait + Sync),
    words: &[String],
    said: &str,
) -> bool {
    let mut out = Drain::new(Vec::new(rt.alloc()), 4, 1, true);
    let mut err = Vec::new(rt.alloc());
    let input = Feed::new(UNEQUAL, NEVER, NEVER);
    let status = program(rt, words, input, &mut out, &mut err, false);
    status == 4 && is_text(&err, said)
}

#[test]
fn a_failed_write_is_explained(rt: HostRuntime) -> Result<(), AllocError> {
    for (line, said) in [
        ("eqc", "fault 92;"),
        (
            "eqc --explain",
            "eqc: standard output: operation interrupted (92);fault 92;",
        ),
    ] {
        let words = words_of(rt.alloc(), line)?;
        same(&rt, is_write_fault(&rt, &words, said), true, line);
    }
    Ok(())
}

/// Stops that no small text brings about, and what is said of them.
#[rattlefmt::skip]
static STOPS: &[(Stop, &str)] = &[
    (Stop::Memory, "eqc: the memory is exhausted (72);"),
    (Stop::References, "eqc: a diagram has as many references as can be counted (73);"),
    (Stop::Threads, "eqc: a thread could not be started (74);"),
];

/// Whether this is said of a stop.
fn is_said_of(alloc: Global, stop: Stop, said: &str) -> bool {
    let request = Request {
        options: Options {
            workers: 1,
            nodes: 1,
            cells: 1,
            forks: 0,
            conflicts: 100_000,
            inputs: 2_048,
            bytes: 16_777_216,
            every: false,
        },
        explain: true,
        locate: false,
        progress: false,
        order: None,
        assume: None,
        outputs: Vec::new(alloc),
        first_model: None,
        second_model: None,
        first: None,
        second: None,
    };
    let mut explanation = explanation_for(alloc, &request, false);
    explanation.stopped(stop);
    is_text(explanation.as_bytes(), said)
}

#[test]
fn stops_are_explained(rt: HostRuntime) {
    for (stop, said) in STOPS {
        same(&rt, is_said_of(rt.alloc(), *stop, said), true, said);
    }
}

/// A conjunction, and a cover in its place that has lost a column: `m` has to be `n`.
const LOST: &str =
    ".model f;.inputs a b;.outputs y;.names a b n;11 1;.names n y;0 1;.end;.model g;.inputs a b;.outputs y;.names a b m;1- 1;.names m y;0 1;.end;";

/// How the report on it begins, and the line on the output.
const LOST_REPORT: &str = "differs at y;a=1;b=0;first=1;second=0;";

const LOST_OUTPUT: &str = "eqc: 'y' differs, in 364 simulated assignments, which may begin at:";

/// The first place of it, with what mends it.
const LOST_PLACE: &str =
    "eqc: second, line 12: 'm' is 1, mends 364 of 364 if turned, and another cover of its columns may do so; cover 1- 1 of 'a'=1 ('a') 'b'=0 ('b')";

const LOST_MENDING: &str =
    "eqc: 'n' of the other netlist has the values that mend it, in 512 simulated assignments";

/// The same with a second output behind the cover.
const LOST_TWICE: &str =
    ".model f;.inputs a b;.outputs y z;.names a b n;11 1;.names n y;0 1;.names n b z;10 1;01 1;.end;.model g;.inputs a b;.outputs y z;.names a b m;1- 1;.names m y;0 1;.names m b z;10 1;01 1;.end;";

const LOST_TWICE_REPORT: &str =
    "differs at y;a=1;b=0;first=1;second=0;differs at z;a=1;b=0;first=0;second=1;";

/// What is said of the second output.
const LOST_SHARED: &str = "eqc: 1 more output may begin to differ at 'm': 'z'";

/// What is said of outputs for which no place is looked for.
const UNPLACED: &str =
    "eqc: 2 more outputs may begin to differ elsewhere, which was not looked for";

/// Whether a report is the same with `--locate` behind options, and standard error begins and ends
/// with these lines.
fn is_located(
    rt: &(impl AllocGlobal + Threads + Wait + Sync),
    text: &str,
    told: (&str, &str),
    first: &[&str],
    last: &[&str],
) -> Result<bool, AllocError> {
    let (options, report) = told;
    let text = lines(rt.alloc(), text)?;
    let plain = plain_status(rt, &text, options, report)?;
    let line = format!(in rt.alloc(); "eqc {options} --locate")?;
    let located = written_by(rt, &line, Feed::of_bytes(&text))?;
    let said = joined(rt.alloc(), first, "")?;
    let end = joined(rt.alloc(), last, "")?;
    let is_same = is_text(&located.out, report) && plain == Some(located.status);
    let told = located.err.as_slice();
    Ok(is_same && told.starts_with(said.as_bytes()) && told.ends_with(end.as_bytes()))
}

#[test]
fn differences_are_located(rt: HostRuntime) {
    let first = [LOST_OUTPUT, LOST_PLACE, LOST_MENDING];
    holds(
        &rt,
        is_located(&rt, LOST, ("--workers 1", LOST_REPORT), &first, &[]),
        "places",
    );
}

#[test]
fn outputs_are_grouped_by_place(rt: HostRuntime) {
    let told = ("--all", LOST_TWICE_REPORT);
    let first = [LOST_OUTPUT];
    let located = is_located(&rt, LOST_TWICE, told, &first, &[LOST_SHARED]);
    holds(&rt, located, "two outputs");
}

/// The lines on a terminal: the output, the first place, and what tells more.
const BRIEF_OUTPUT: &str = "eqc: 'y' may begin to differ at:";

const BRIEF_PLACE: &str =
    "eqc: standard input: line 12: 'm'; 'n' of the other netlist has the values that mend it";

const BRIEF_HINT: &str = "eqc: --locate tells more places, with their covers and values";

/// Whether `--explain` tells places in short of a difference where standard error is a terminal,
/// and nothing where it isn't, and the report is the same.
fn is_told_in_short(rt: &(impl AllocGlobal + Threads + Wait + Sync)) -> Result<bool, AllocError> {
    let alloc = rt.alloc();
    let text = lines(alloc, LOST)?;
    let plain = written_by(rt, "eqc --explain", Feed::of_bytes(&text))?;
    let shown = written_on(rt, "eqc --explain", Feed::of_bytes(&text), true)?;
    let first = joined(alloc, &[BRIEF_OUTPUT, BRIEF_PLACE], "")?;
    let last = joined(alloc, &[BRIEF_HINT], "")?;
    let is_same = plain.status == 1 && shown.status == 1 && shown.out == plain.out;
    let told = shown.err.as_slice();
    let is_short = told.starts_with(first.as_bytes()) && told.ends_with(last.as_bytes());
    Ok(is_same && is_short && plain.err.is_empty() && is_text(&plain.out, LOST_REPORT))
}

#[test]
fn differences_are_told_in_short_on_a_terminal(rt: HostRuntime) {
    holds(&rt, is_told_in_short(&rt), "a terminal");
}

/// Covers of which those of `n` and `m` are equal where `x` is 1, and those of the outputs aren't.
const ALLOWED: &str =
    ".model f;.inputs x y w;.outputs z;.names x y w n;11- 1;1-1 1;.names n y z;10 1;01 1;.end;.model g;.inputs x y w;.outputs z;.names y w m;1- 1;-1 1;.names m y z;11 1;.end;";

const ALLOWED_REPORT: &str = "differs at z;x=1;y=0;w=1;first=1;second=0;";

/// The line on the output, and the first place where `x` has to be 1.
const ALLOWED_OUTPUT: &str = "eqc: 'z' differs, in 384 simulated assignments, which may begin at:";

const ALLOWED_PLACE: &str =
    "eqc: second, line 17: 'z' is 0, mends 384 of 384 if turned, and another cover of its columns may do so; cover 11 1 of 'm'=1 ('n') 'y'=0 ('y')";

/// The same where `x` may be 0 too.
const EACH_PLACE: &str =
    "eqc: second, line 17: 'z' is 0, mends 384 of 384 if turned; cover 11 1 of 'm'=1 'y'=0 ('y')";

#[test]
fn partners_are_equal_where_allowed(rt: HostRuntime) {
    for (options, place) in [("--assume x_is_1", ALLOWED_PLACE), ("--all", EACH_PLACE)] {
        let first = [ALLOWED_OUTPUT, place];
        let located = is_located(&rt, ALLOWED, (options, ALLOWED_REPORT), &first, &[]);
        holds(&rt, located, place);
    }
}

/// A text in which each of so many outputs is negated on one side, and the report on it.
fn negated(alloc: Global, outputs: u32) -> Result<(String, String), AllocError> {
    let mut names = String::new(alloc);
    let mut first = String::new(alloc);
    let mut second = String::new(alloc);
    let mut report = String::new(alloc);
    for k in 0..outputs {
        names.push_str(&format!(in alloc; " y{k}")?)?;
        first.push_str(&format!(in alloc; ".names a y{k};1 1;")?)?;
        second.push_str(&format!(in alloc; ".names a y{k};0 1;")?)?;
        report.push_str(&format!(in alloc; "differs at y{k};a=0;first=0;second=1;")?)?;
    }
    let text = format!(in alloc;
        ".model f;.inputs a;.outputs{names};{first}.end;.model g;.inputs a;.outputs{names};{second}.end;"
    )?;
    Ok((text, report))
}

#[test]
fn outputs_without_a_place_are_counted(rt: HostRuntime) -> Result<(), AllocError> {
    let (text, report) = negated(rt.alloc(), 12)?;
    let told = ("--all", report.as_str());
    let located = is_located(&rt, &text, told, &[], &[UNPLACED]);
    holds(&rt, located, "twelve outputs");
    Ok(())
}

//! Texts and what they give. The answers come from an independent reader, or are those of the
//! format's own examples.
//!
//! The texts of other programs were made by
//!
//! ```text
//! berkeley-abc -q "gen -N 2 -a a.blif; read_blif a.blif; strash; if -K 6; write_blif add2.blif"
//! yosys -p "read_verilog mux.v; synth -top top; abc -lut 4; write_blif mux4.blif"
//! ```
//!
//! where `mux.v` has a module `top` with one instance of `mux4`, whose body is
//! `assign y = d[s]; assign n = ~s;`.
ghost use Rattle.std.specs.Prelude.{◌<◌, length};

use crate::ends::{check_rows, holds, same};
use eqc_blif::{
    Cover, Instance, Library, Name, Rows, allows, cover_value, is_on, is_on_set, read, read_within,
    row_matches,
};
use eqc_testing::{Row, lines};
use std::alloc::{AllocError, Global};
use std::process::Abort;

/// A text with a continued line and a latch.
const LATCH: &str = ".model f;.inputs a \\;b;.outputs z;.names a z;.latch a z 0;";

/// A text with carriage returns.
const CARRIAGE: &str =
    ".model f\r;.inputs a \\ # two\r;b\r;.wire_load_slope 0.00\r;.outputs z\r;.names a b z\r;1 1 1\r;.end\r;.model g;.inputs a b;.outputs z;.names a b z;11 1;";

/// A text for each rule of the format: its name, the text, and its library or the line and code of
/// its first fault.
#[rattlefmt::skip]
static ROWS: &[Row<&str>] = &[
    ("comment and continuation", LATCH, "6 4"),
    ("carriage returns", CARRIAGE, "f(a b>z)[a b z:111]|g(a b>z)[a b z:111]"),
    ("short row", ".model f;.inputs a b;.outputs z;.names a b z;11;", "5 7"),
    ("mixed rows", ".model f;.inputs a b;.outputs z;.names a b z;11 1;00 0;", "6 8"),
    ("empty", "", "0 13"),
    ("one model", ".model f;.inputs x y;.outputs z;.names x y z;11 1;.end;", "f(x y>z)[x y z:111]"),
    ("bad byte", ".model f;.inputs a\x01;", "2 1"),
    ("unknown command", ".model f;.gate and2 A=a O=z;", "2 3"),
    ("inputs after end", ".model f;.end;.inputs a;", "3 5"),
    ("row after end", ".model f;.end;1 1;", "3 5"),
    ("row first", "1 1;", "1 6"),
    ("pair without equals", ".model f;.subckt h a;", "2 9"),
    ("names without word", ".model f;.names;", "2 10"),
    ("model twice", ".model f;.end;.model f;", "3 11"),
    ("input twice", ".model f;.inputs a a;", "2 12"),
    ("cr inside", ".model f;.inputs a\rb;", "2 1"),
    ("latch and bad byte", ".model f;.latch\x01;", "2 1"),
    ("backslash last", ".model f;.inputs a \\", "f(a>)"),
    ("only blanks and comments", " \t;# x;;", "0 13"),
    ("only skipped", ".area 1;.delay a b;", "0 13"),
    ("unnamed model", ".inputs a;.outputs z;.names a z;1 1;.end;", "(a>z)[a z:11]"),
    ("unnamed twice", ".inputs a;.model;", "2 11"),
    ("model without name", ".model;.inputs a;.end;.model g;", "(a>)|g(>)"),
    ("input and output alike", ".model f;.inputs a;.outputs a;.inputs b;.outputs b;", "f(a b>a b)"),
    ("output twice over lines", ".model f;.outputs a b;.inputs a;.outputs c b;", "4 12"),
    ("skipped between cover and row", ".model f;.names a z;.area 3;1 1;", "f(>)[a z:11]"),
    ("skipped after end", ".model f;.end;.cname x;", "f(>)"),
    ("bad byte in skipped", ".model f;.area\x01;", "2 1"),
    ("unknown after end", ".model f;.end;.gate;", "3 3"),
    ("latch after end", ".model f;.end;.latch;", "3 4"),
    ("end twice", ".model f;.end;.end;", "3 5"),
    ("subckt without word", ".model f;.subckt;", "2 10"),
    ("equals in the actual", ".model f;.subckt g a=b=c d=e;", "f(>){g a=b=c d=e}"),
    ("empty formal", ".model f;.subckt g =b;", "2 9"),
    ("empty actual", ".model f;.subckt g a=;", "2 9"),
    ("subckt of a model with equals", ".model f;.subckt g=h a=b;", "f(>){g=h a=b}"),
    ("row after inputs", ".model f;.names a z;.inputs a;1 1;", "4 6"),
    ("row of a bad value", ".model f;.names a z;2 1;", "3 7"),
    ("row with output dash", ".model f;.names a z;1 -;", "3 7"),
    ("long row", ".model f;.names a z;1 1 1;", "3 7"),
    ("row without columns", ".model f;.names z;1;", "f(>)[z:1]"),
    ("two backslashes", ".model f;.inputs a\\\\;b;", "f(a\\ b>)"),
    ("comment before backslash", ".model f;.inputs a # \\;b;", "3 6"),
    ("backslash before comment", ".model f;.inputs a \\ # c;b c;", "f(a b c>)"),
    ("joined blank lines", ".model f;\\;\\;.inputs a;.inputs a;", "5 12"),
    ("tabs", ".model\tf;.names\ta\tz;1\t1;", "f(>)[a z:11]"),
    ("many inputs", ".model f;.inputs i0 i1 i2 i3 i4 i5 i6 i7 i8 i9 i10 i11 i12 i13 i14 i15 i16 i17 i18 i19;.inputs i19;", "3 12"),
    ("long name", ".model a_name_of_more_than_sixteen_bytes;.names a_name_of_more_than_sixteen_bytes z;", "a_name_of_more_than_sixteen_bytes(>)[a_name_of_more_than_sixteen_bytes z:]"),
    ("end ends no text", ".model f;.end;.model g;.inputs a;", "f(>)|g(a>)"),
];

/// From which length on a beginning of `LATCH` gives which answer.
static LATCH_STEPS: &[(usize, &str)] = &[
    (0, "0 13"),
    (1, "1 3"),
    (6, "(>)"),
    (8, "f(>)"),
    (10, "2 3"),
    (16, "f(>)"),
    (18, "f(a>)"),
    (22, "f(a b>)"),
    (24, "4 3"),
    (31, "f(a b>)"),
    (33, "f(a b>z)"),
    (35, "5 3"),
    (40, "5 10"),
    (42, "f(a b>z)[a:]"),
    (44, "f(a b>z)[a z:]"),
    (46, "6 3"),
    (51, "6 4"),
];

/// The same of `CARRIAGE`.
static CARRIAGE_STEPS: &[(usize, &str)] = &[
    (0, "0 13"),
    (1, "1 3"),
    (6, "(>)"),
    (8, "f(>)"),
    (11, "2 3"),
    (17, "f(>)"),
    (19, "f(a>)"),
    (30, "f(a b>)"),
    (33, "4 3"),
    (37, "f(a b>)"),
    (38, "4 3"),
    (48, "f(a b>)"),
    (56, "5 3"),
    (63, "f(a b>)"),
    (65, "f(a b>z)"),
    (68, "6 3"),
    (73, "6 10"),
    (75, "f(a b>z)[a:]"),
    (77, "f(a b>z)[a b:]"),
    (79, "f(a b>z)[a b z:]"),
    (82, "7 7"),
    (86, "f(a b>z)[a b z:111]"),
    (89, "8 3"),
    (92, "f(a b>z)[a b z:111]"),
    (95, "9 3"),
    (100, "f(a b>z)[a b z:111]|(>)"),
    (102, "f(a b>z)[a b z:111]|g(>)"),
    (104, "10 3"),
    (110, "f(a b>z)[a b z:111]|g(>)"),
    (112, "f(a b>z)[a b z:111]|g(a>)"),
    (114, "f(a b>z)[a b z:111]|g(a b>)"),
    (116, "11 3"),
    (123, "f(a b>z)[a b z:111]|g(a b>)"),
    (125, "f(a b>z)[a b z:111]|g(a b>z)"),
    (127, "12 3"),
    (132, "12 10"),
    (134, "f(a b>z)[a b z:111]|g(a b>z)[a:]"),
    (136, "f(a b>z)[a b z:111]|g(a b>z)[a b:]"),
    (138, "f(a b>z)[a b z:111]|g(a b>z)[a b z:]"),
    (140, "13 7"),
    (143, "f(a b>z)[a b z:111]|g(a b>z)[a b z:111]"),
];

/// Small netlists as other programs write them.
#[rattlefmt::skip]
static WRITTEN: &[Row<&str>] = &[
    ("instances by gen of ABC", "# 2-bit ripple-carry adder generated by ABC on Sun Nov 22 08:39:00 2026;.model ADD2;.inputs a0 a1 b0 b1;.outputs s0 s1 s2;.names c;.subckt FA a=a0 b=b0 cin=c s=s0 cout=0;.subckt FA a=a1 b=b1 cin=0 s=s1 cout=s2;.end;;.model FA;.inputs a b cin;.outputs s cout;.names a b and1;11 1;.names a b and1_;00 1;.names and1 and1_ xor;00 1;.names cin xor and2;11 1;.names cin xor and2_;00 1;.names and2 and2_ s;00 1;.names and1 and2 cout;00 0;.end;;", "ADD2(a0 a1 b0 b1>s0 s1 s2)[c:]{FA a=a0 b=b0 cin=c s=s0 cout=0}{FA a=a1 b=b1 cin=0 s=s1 cout=s2}|FA(a b cin>s cout)[a b and1:111][a b and1_:001][and1 and1_ xor:001][cin xor and2:111][cin xor and2_:001][and2 and2_ s:001][and1 and2 cout:000]"),
    ("lookup tables by if of ABC", "# Benchmark \"ADD2\" written by ABC on Sun Nov 22 08:39:00 2026;.model ADD2;.inputs a0 a1 b0 b1;.outputs s0 s1 s2;.names a0 b0 s0;01 1;10 1;.names a0 b0 a1 b1 s1;-001 1;-010 1;0-01 1;0-10 1;1100 1;1111 1;.names a1 b1 b0 a0 s2;-111 1;1-11 1;11-- 1;.end;", "ADD2(a0 a1 b0 b1>s0 s1 s2)[a0 b0 s0:011 101][a0 b0 a1 b1 s1:-0011 -0101 0-011 0-101 11001 11111][a1 b1 b0 a0 s2:-1111 1-111 11--1]"),
    ("hierarchy by Yosys", "# Generated by Yosys 0.23 (git sha1 7ce5011c24b);;.model top;.inputs d[0] d[1] d[2] d[3] s[0] s[1];.outputs y n[0] n[1];.names $false;.names $true;1;.names $undef;.subckt mux4 d[0]=d[0] d[1]=d[1] d[2]=d[2] d[3]=d[3] n[0]=n[0] n[1]=n[1] s[0]=s[0] s[1]=s[1] y=y;.end;;.model mux4;.inputs d[0] d[1] d[2] d[3] s[0] s[1];.outputs y n[0] n[1];.names $false;.names $true;1;.names $undef;.names $abc$116$s[1] $abc$116$n[1];0 1;.names $abc$116$s[0] $abc$116$n[0];0 1;.names $abc$116$s[0] $abc$116$s[1] $abc$116$d[3] $abc$116$d[2] $abc$116$new_n16_;0101 1;0111 1;1000 1;1001 1;1010 1;1011 1;1110 1;1111 1;.names $abc$116$new_n16_ $abc$116$s[1] $abc$116$d[1] $abc$116$d[0] $abc$116$y;0001 1;0011 1;1010 1;1011 1;1100 1;1101 1;1110 1;1111 1;.names s[1] $abc$116$s[1];1 1;.names $abc$116$n[1] n[1];1 1;.names d[0] $abc$116$d[0];1 1;.names d[1] $abc$116$d[1];1 1;.names s[0] $abc$116$s[0];1 1;.names d[2] $abc$116$d[2];1 1;.names d[3] $abc$116$d[3];1 1;.names $abc$116$y y;1 1;.names $abc$116$n[0] n[0];1 1;.end;", "top(d[0] d[1] d[2] d[3] s[0] s[1]>y n[0] n[1])[$false:][$true:1][$undef:]{mux4 d[0]=d[0] d[1]=d[1] d[2]=d[2] d[3]=d[3] n[0]=n[0] n[1]=n[1] s[0]=s[0] s[1]=s[1] y=y}|mux4(d[0] d[1] d[2] d[3] s[0] s[1]>y n[0] n[1])[$false:][$true:1][$undef:][$abc$116$s[1] $abc$116$n[1]:01][$abc$116$s[0] $abc$116$n[0]:01][$abc$116$s[0] $abc$116$s[1] $abc$116$d[3] $abc$116$d[2] $abc$116$new_n16_:01011 01111 10001 10011 10101 10111 11101 11111][$abc$116$new_n16_ $abc$116$s[1] $abc$116$d[1] $abc$116$d[0] $abc$116$y:00011 00111 10101 10111 11001 11011 11101 11111][s[1] $abc$116$s[1]:11][$abc$116$n[1] n[1]:11][d[0] $abc$116$d[0]:11][d[1] $abc$116$d[1]:11][s[0] $abc$116$s[0]:11][d[2] $abc$116$d[2]:11][d[3] $abc$116$d[3]:11][$abc$116$y y:11][$abc$116$n[0] n[0]:11]"),
];

fn append_names(out: &mut Vec<u8>, names: &[Name]) -> Result<(), AllocError> {
    for (i, name) in names.iter().enumerate() {
        if i > 0 {
            out.push(b' ')?;
        }
        out.extend_from_slice(name.as_bytes())?;
    }
    Ok(())
}

fn append_rows(out: &mut Vec<u8>, rows: &Rows<'_>) -> Result<(), AllocError> {
    for k in 0..rows.len() {
        if k > 0 {
            out.push(b' ')?;
        }
        out.extend_from_slice(rows.get(k))?;
    }
    Ok(())
}

fn append_model(out: &mut Vec<u8>, library: &Library, m: usize) -> Result<(), AllocError>
    requires { m < length library.now }
{
    out.extend_from_slice(library.name(m))?;
    out.push(b'(')?;
    append_names(out, library.inputs(m))?;
    out.push(b'>')?;
    append_names(out, library.outputs(m))?;
    out.push(b')')?;
    for cover in library.covers(m) {
        append_cover(out, cover)?;
    }
    for instance in library.instances(m) {
        append_instance(out, instance)?;
    }
    Ok(())
}

fn append_cover(out: &mut Vec<u8>, cover: &Cover) -> Result<(), AllocError> {
    out.push(b'[')?;
    append_names(out, &cover.columns)?;
    if !cover.columns.is_empty() {
        out.push(b' ')?;
    }
    out.extend_from_slice(cover.output.as_bytes())?;
    out.push(b':')?;
    append_rows(out, &cover.rows())?;
    out.push(b']')?;
    Ok(())
}

fn append_instance(out: &mut Vec<u8>, instance: &Instance) -> Result<(), AllocError> {
    out.push(b'{')?;
    out.extend_from_slice(instance.model.as_bytes())?;
    for (formal, actual) in &instance.pairs {
        out.push(b' ')?;
        out.extend_from_slice(formal.as_bytes())?;
        out.push(b'=')?;
        out.extend_from_slice(actual.as_bytes())?;
    }
    out.push(b'}')?;
    Ok(())
}

/// The library of a text on one line, or the line and code of its fault.
fn answer(alloc: Global, text: &[u8]) -> Result<Vec<u8>, AllocError> {
    match read(alloc, text) {
        Ok(library) => {
            let mut out = Vec::new(alloc);
            for m in 0..library.models() {
                if m > 0 {
                    out.push(b'|')?;
                }
                append_model(&mut out, &library, m)?;
            }
            Ok(out)
        }
        Err(refusal) => {
            let line = refusal.line;
            let code = refusal.code;
            let shown = format!(in alloc; "{line} {code}")?;
            Vec::from_slice(alloc, shown.as_bytes())
        }
    }
}

/// Whether a text gives this answer.
fn gives(alloc: Global, text: &[u8], want: &str) -> Result<bool, AllocError> {
    Ok(answer(alloc, text)?.as_slice() == want.as_bytes())
}

#[test]
fn reads_each_rule(rt: HostRuntime) {
    check_rows(&rt, ROWS, |alloc, text, want| gives(alloc, text, want));
}

#[test]
fn reads_what_others_write(rt: HostRuntime) {
    check_rows(&rt, WRITTEN, |alloc, text, want| gives(alloc, text, want));
}

/// A text with bytes that are no character.
const HIGH: &[u8] = b".inputs \xc3\xa9 \xff\n";

/// Whether it is read as it is.
fn reads_high_bytes(alloc: Global) -> Result<bool, AllocError> {
    Ok(answer(alloc, HIGH)?.as_slice() == b"(\xc3\xa9 \xff>)".as_slice())
}

#[test]
fn reads_bytes_that_are_no_characters(rt: HostRuntime) {
    holds(&rt, reads_high_bytes(rt.alloc()), "high bytes");
}

/// Each beginning of a text gives the answer of the last step that is not past it.
fn check_beginnings(
    rt: &(impl Abort + AllocGlobal),
    text: &str,
    steps: &[(usize, &str)],
) -> Result<(), AllocError> {
    let text = lines(rt.alloc(), text)?;
    let mut want = "";
    for len in 0..text.len() + 1 {
        for (from, answer) in steps.iter() {
            if *from == len {
                want = *answer;
            }
        }
        holds(rt, gives(rt.alloc(), &text[..len], want), len);
    }
    Ok(())
}

#[test]
fn reads_each_beginning(rt: HostRuntime) -> Result<(), AllocError> {
    check_beginnings(&rt, LATCH, LATCH_STEPS)?;
    check_beginnings(&rt, CARRIAGE, CARRIAGE_STEPS)
}

#[test]
fn refuses_a_long_text(rt: HostRuntime) {
    let text = vec![in rt.alloc(); b'\n'; 16_777_217].expect(&rt, "memory");
    holds(&rt, gives(rt.alloc(), &text, "0 2"), "too long");
    holds(&rt, gives(rt.alloc(), &text[1..], "0 13"), "the longest");
}

/// How many bytes a text of line ends has, how many are allowed, and the code.
static SIZES: &[(usize, u32, u8)] = &[
    (0, 0, 13),
    (1, 0, 2),
    (7, 7, 13),
    (8, 7, 2),
    (16_777_217, 16_777_216, 2),
    (16_777_217, 16_777_217, 13),
    (1_000, 2_147_483_647, 13),
];

/// The code by which so many bytes of a text are refused, where so many are allowed.
fn code_within(alloc: Global, text: &[u8], bytes: usize, limit: u32) -> Option<u8> {
    let part = &text[..bytes.min(text.len())];
    match read_within(alloc, part, limit.min(2_147_483_647)) {
        Ok(_) => None,
        Err(refusal) => Some(refusal.code),
    }
}

#[test]
fn reads_as_many_bytes_as_are_allowed(rt: HostRuntime) {
    let text = vec![in rt.alloc(); b'\n'; 16_777_217].expect(&rt, "memory");
    for (bytes, limit, code) in SIZES {
        let found = code_within(rt.alloc(), &text, *bytes, *limit);
        same(&rt, found == Some(*code), true, bytes);
    }
}

/// Whether the library of a text has a model of this name there.
fn is_there(alloc: Global, text: &[u8], name: &Name, place: Option<usize>) -> bool {
    match read(alloc, text) {
        Ok(library) => library.find(name) == place,
        Err(_) => false,
    }
}

/// Names, and where the library of a text has a model of that name.
static PLACES: &[(&str, Option<usize>)] = &[("g", Some(1)), ("h", None)];

#[test]
fn finds_models(rt: HostRuntime) -> Result<(), AllocError> {
    for (word, place) in PLACES {
        let name = Name::new(rt.alloc(), word.as_bytes())?;
        let found = is_there(rt.alloc(), b".model f\n.end\n.model g\n", &name, *place);
        same(&rt, found, true, word);
    }
    Ok(())
}

/// Rows over two columns, values of these, whether the row matches, and whether it ends in `1`.
static MATCHES: &[(&str, &[bool], bool, bool)] = &[
    ("0-1", &[false, true], true, true),
    ("0-1", &[true, true], false, true),
    ("110", &[true, true], true, false),
    ("110", &[true, false], false, false),
    ("--0", &[false, false], true, false),
];

#[test]
fn rows_match_values(rt: HostRuntime) {
    for (row, values, matches, on) in MATCHES {
        let found = (row_matches(row.as_bytes(), values), is_on(row.as_bytes()));
        same(&rt, found, (*matches, *on), row);
    }
    let allowed = (allows(b'-', true), allows(b'1', true), allows(b'0', true));
    same(&rt, allowed, (true, true, false), "bytes");
}

/// The value of the one cover of a text under these values of its columns, and whether its rows end
/// in `1`.
fn cover_of(alloc: Global, text: &[u8], values: &[bool]) -> Option<(bool, bool, bool)> {
    let library = read(alloc, text).ok()?;
    if library.models() == 0 {
        return None;
    }
    let cover = library.covers(0).first()?;
    Some((
        cover.value(values),
        cover_value(&cover.rows(), values),
        is_on_set(&cover.rows()),
    ))
}

/// Covers with values of their columns, their value, and whether their rows end in `1`.
static COVERS: &[Row<(&[bool], bool, bool)>] = &[
    (
        "a row that matches",
        ".names a b z;1- 1;-1 1;",
        (&[false, true], true, true),
    ),
    (
        "no row that matches",
        ".names a b z;1- 1;-1 1;",
        (&[false, false], false, true),
    ),
    (
        "a row for 0 that matches",
        ".names a b z;11 0;",
        (&[true, false], true, false),
    ),
    ("no row", ".names a b z;", (&[true, true], false, false)),
];

/// Whether the cover of a text has this value, and its rows end in `1`.
fn has_value(alloc: Global, text: &[u8], wanted: &(&[bool], bool, bool)) -> bool {
    let (values, value, on) = *wanted;
    cover_of(alloc, text, values) == Some((value, value, on))
}

#[test]
fn covers_have_values(rt: HostRuntime) {
    check_rows(
        &rt,
        COVERS,
        |alloc, text, wanted| Ok(has_value(alloc, text, wanted)),
    );
}

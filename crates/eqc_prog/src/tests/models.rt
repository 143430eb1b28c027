//! Which models are compared, by their names or their places, and the warnings on models that
//! others contain.

use super::ends::holds;
use super::program::{LEAF_FIRST, Line, words_of, writes, written_by};
use eqc_command::program;
use eqc_testing::{Drain, Feed, Row, is_text};
use std::alloc::AllocError;
use std::rt::{Clock, Files};
use std::sync::Wait;
use std::thread::Threads;

/// Warnings on the leaf of two texts.
const ON_BOTH: &str =
    "eqc: warning: leaf_first: model 'leaf' is compared, which model 'top' contains;eqc: warning: other_top: model 'leaf' is compared, which model 'top' contains;";

/// Warnings on the leaf of one text, that is compared with itself.
const ON_BOTH_OF_ONE: &str =
    "eqc: warning: leaf_first: model 'leaf' is compared, which model 'top' contains;eqc: warning: leaf_first: model 'leaf' is compared, which model 'top' contains;";

/// Command lines with files, their report, status and warnings.
#[rattlefmt::skip]
static NAMED: &[Line<(&str, u8, &str)>] = &[
    ("eqc leaf_first other_top", ("equivalent;", 0, ON_BOTH)),
    ("eqc --first-model top --second-model top leaf_first other_top", ("differs at z;a=0;b=1;first=0;second=1;", 1, "")),
    ("eqc --second-model top leaf_first other_top", ("refused pair 0 41;", 2, "")),
    ("eqc --first-model=leaf leaf_first other_top", ("equivalent;", 0, ON_BOTH)),
    ("eqc --first-model none leaf_first other_top", ("refused first 0 13;", 2, "")),
    ("eqc --second-model none leaf_first other_top", ("refused second 0 13;", 2, "")),
    ("eqc --first-model none leaf_first latch", ("refused first 0 13;", 2, "")),
    ("eqc --second-model none latch leaf_first", ("refused first 2 4;", 2, "")),
    ("eqc leaf_first", ("refused pair 0 41;", 2, "")),
    ("eqc --first-model top leaf_first", ("equivalent;", 0, "")),
    ("eqc --second-model leaf leaf_first", ("equivalent;", 0, ON_BOTH_OF_ONE)),
    ("eqc --first-model top --second-model leaf leaf_first", ("refused pair 0 41;", 2, "")),
    ("eqc --first-model m --second-model m or", ("equivalent;", 0, "")),
    ("eqc --second-model m --first-model none or", ("refused first 0 13;", 2, "")),
    ("eqc --second-model leaf leaf_first leaf_first --nodes 0", ("refused options 0 82;", 2, "")),
];

#[test]
fn models_are_chosen_and_warned_of(rt: HostRuntime) {
    for (line, (report, status, warnings)) in NAMED {
        let input = Feed::whole("");
        let found = writes(&rt, line, input, *status, report, warnings);
        holds(&rt, found, line);
    }
}

/// Texts on standard input, and the warnings on them: a container that is compared is none to warn
/// of.
#[rattlefmt::skip]
static CONTAINED: &[Row<&str>] = &[
    ("a container that is compared", ".model f;.inputs a;.outputs z;.subckt g a=a z=z;.end;.model g;.inputs a;.outputs z;.names a z;1 1;.end;", ""),
    ("a container of the second model", ".model f;.inputs a;.outputs z;.names a z;1 1;.end;.model g;.inputs a;.outputs z;.names a z;1 1;.end;.model h;.subckt g a=a z=z;.end;", "eqc: warning: standard input: model 'g' is compared, which model 'h' contains;"),
    ("two containers of the first model", ".model f;.outputs z;.names z;.end;.model g;.outputs z;.names z;1;.end;.model h;.end;.model i;.subckt f;.end;.model j;.subckt f;.end;", "eqc: warning: standard input: model 'f' is compared, which model 'i' contains;"),
];

/// Whether a text is compared, and these are the warnings on it.
fn is_warned_of(
    rt: &(impl AllocGlobal + Threads + Wait + Sync),
    text: &str,
    warnings: &str,
) -> Result<bool, AllocError> {
    let written = written_by(rt, "eqc", Feed::whole(text))?;
    Ok(written.status < 2 && is_text(&written.err, warnings))
}

#[test]
fn containers_are_named(rt: HostRuntime) {
    for (name, text, warnings) in CONTAINED {
        holds(&rt, is_warned_of(&rt, text, warnings), name);
    }
}

/// Whether these leaves are equivalent, with as much of a warning as standard error takes.
fn is_cut_off(
    rt: &(impl AllocGlobal + Clock + Eprint + Files + Threads + Wait + Sync),
    words: &[String],
) -> bool {
    let mut out = Vec::new(rt.alloc());
    let mut err = Drain::new(Vec::new(rt.alloc()), 4, 1, true);
    let status = program(
        rt,
        words,
        Feed::whole(LEAF_FIRST),
        &mut out,
        &mut err,
        false,
    );
    status == 0 && is_text(&out, "equivalent;") && is_text(&err.bytes, "eqc:")
}

#[test]
fn a_warning_that_is_cut_off_changes_nothing(rt: HostRuntime) -> Result<(), AllocError> {
    let words = words_of(rt.alloc(), "eqc --first-model leaf --second-model leaf")?;
    assert!(rt; is_cut_off(&rt, &words));
    Ok(())
}

/// Two conjunctions, one of which a third model contains.
const AND_IN_THIRD: &str =
    ".model f;.inputs x y;.outputs z;.names x y z;11 1;.end;.model g;.inputs x y;.outputs z;.names y x z;11 1;.end;.model h;.subckt f x=a y=b z=c;.end;";

/// The warning on them.
const ON_AND_IN_THIRD: &str =
    "eqc: warning: standard input: model 'f' is compared, which model 'h' contains;";

#[test]
fn a_stop_is_not_warned_of(rt: HostRuntime) {
    for (line, status, report, warnings) in [
        ("eqc --nodes 1", 3, "stopped 71;", ""),
        ("eqc", 0, "equivalent;", ON_AND_IN_THIRD),
    ] {
        let input = Feed::whole(AND_IN_THIRD);
        holds(
            &rt,
            writes(&rt, line, input, status, report, warnings),
            line,
        );
    }
}

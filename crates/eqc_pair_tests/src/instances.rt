//! Instances of one cover over different columns, of which the later ones are made by what was kept
//! of the cover or by its table, against covers of two columns.
#![tactic(auto)]

use crate::ends::holds;
use eqc_pair_testing::{Ask, is_ordered_answer};
use eqc_testing::Row;
use std::alloc::{AllocError, Global};

/// A model of a cover of seven columns, up to its rows.
const ODD: &str = ".model odd;.inputs a b c d e f g;.outputs o;.names a b c d e f g o;";

/// Its rows: an odd number of the first five columns is true, and so is the sixth.
const ODD_ROWS: &str =
    "000011- 1;000101- 1;001001- 1;001111- 1;010001- 1;010111- 1;011011- 1;011101- 1;100001- 1;100111- 1;101011- 1;101101- 1;110011- 1;110101- 1;111001- 1;111111- 1;";

/// The same by covers of two columns.
const CHAIN: &str =
    ".model chain;.inputs a b c d e f g;.outputs o;.names a b s;10 1;01 1;.names s c t;10 1;01 1;.names t d u;10 1;01 1;.names u e v;10 1;01 1;.names v f o;11 1;.end;";

/// The formals' actuals in three instances.
const ACTUALS: [&str; 3] = [
    "a=a b=b c=c d=d e=e f=f g=g",
    "a=g b=f c=e d=d e=c f=b g=a",
    "a=a b=c c=e d=g e=b f=d g=f",
];

/// The third instance with two of the actuals exchanged.
const EXCHANGED: &str = "a=a b=c c=e d=g e=b f=f g=d";

/// A model whose output is the exclusive or of three instances of a model.
fn three_of(alloc: Global, name: &str, model: &str, third: &str) -> Result<String, AllocError> {
    let [first, second, _] = ACTUALS;
    format!(in alloc;
        ".model {name};.inputs a b c d e f g;.outputs z;.subckt {model} {first} o=x;.subckt {model} {second} o=y;.subckt {model} {third} o=w;.names x y v;10 1;01 1;.names v w z;10 1;01 1;.end;"
    )
}

/// A model whose rows stand so many times.
fn with_rows(alloc: Global, head: &str, rows: &str, times: u32) -> Result<String, AllocError> {
    let mut text = String::from_str(alloc, head)?;
    for _ in 0..times {
        text.push_str(rows)?;
    }
    text.push_str(".end;")?;
    Ok(text)
}

/// A pair of three instances each: of the cover, whose rows stand so many times, in the one, and by
/// covers of two columns in the other, with this third one.
fn pair_of_three(alloc: Global, third: &str, times: u32) -> Result<String, AllocError> {
    let [_, _, same] = ACTUALS;
    let first = three_of(alloc, "f", "odd", same)?;
    let second = three_of(alloc, "g", "chain", third)?;
    let cover = with_rows(alloc, ODD, ODD_ROWS, times)?;
    format!(in alloc; "{first}{second}{cover}{CHAIN}")
}

/// Whether of such a pair is answered so.
fn answers(
    rt: &impl AllocGlobal,
    third: &str,
    times: u32,
    ask: Ask,
    wanted: &str,
) -> Result<bool, AllocError> {
    let text = pair_of_three(rt.alloc(), third, times)?;
    is_ordered_answer(rt, rt.alloc(), &text, "", ask, wanted)
}

/// How often the rows stand that are looked for by their number.
const MANY_TIMES: u32 = 65;

/// The report where two actuals of the third instance are exchanged.
const DIFFERS: &str = "differs at z;a=0;b=0;c=0;d=0;e=0;f=1;g=1;first=0;second=1;";

#[test]
fn instances_of_one_cover_have_columns_of_their_own(rt: HostRuntime) {
    let [_, _, same] = ACTUALS;
    let ask = Ask::Output(0, 4_096);
    holds(&rt, answers(&rt, same, 1, ask, "none"), "equal");
    holds(&rt, answers(&rt, EXCHANGED, 1, ask, "0000011"), "exchanged");
}

#[test]
fn instances_of_a_cover_of_very_many_rows_are_made_of_its_splits(rt: HostRuntime) {
    let [_, _, same] = ACTUALS;
    let ask = Ask::Report(4_096);
    holds(
        &rt,
        answers(&rt, same, MANY_TIMES, ask, "equivalent;"),
        "equal",
    );
    holds(
        &rt,
        answers(&rt, EXCHANGED, MANY_TIMES, ask, DIFFERS),
        "exchanged",
    );
}

/// The rows of a choice: of the complement of the third column where the first is true, else of the
/// second.
const CHOICE: &str = "1-0 1;01- 1;";

/// The same by covers of two columns.
const BY_TWO: &str =
    ".model two;.inputs a b c;.outputs o;.names a c s;10 1;.names a b t;01 1;.names s t o;1- 1;-1 1;.end;";

/// A model of three columns, up to its rows.
const MANY: &str = ".model many;.inputs a b c;.outputs o;.names a b c o;";

/// A model of two instances of a model, of which the second has the output of the first, and this
/// actual in the end.
fn two_of(alloc: Global, name: &str, model: &str, last: &str) -> Result<String, AllocError> {
    format!(in alloc;
        ".model {name};.inputs a b c d;.outputs z;.subckt {model} a=a b=b c=c o=x;.subckt {model} a=d b=x c={last} o=z;.end;"
    )
}

/// The last actual in the second model of a pair, and the report.
#[rattlefmt::skip]
static LAST: &[Row<&'static str>] = &[
    ("equal", "a", "equivalent;"),
    ("another actual", "b", "differs at z;a=0;b=1;c=0;d=1;first=1;second=0;"),
    ("the first column", "d", "differs at z;a=0;b=0;c=0;d=1;first=1;second=0;"),
];

/// Whether the report on such a pair is this one.
fn reports(rt: &impl AllocGlobal, last: &str, wanted: &str) -> Result<bool, AllocError> {
    let alloc = rt.alloc();
    let first = two_of(alloc, "f", "many", "a")?;
    let second = two_of(alloc, "g", "two", last)?;
    // More rows than six columns have assignments.
    let rows = with_rows(alloc, MANY, CHOICE, 40)?;
    let text = format!(in alloc; "{first}{second}{rows}{BY_TWO}")?;
    is_ordered_answer(rt, alloc, &text, "", Ask::Report(4_096), wanted)
}

#[test]
fn instances_of_a_cover_of_many_rows_go_by_its_table(rt: HostRuntime) {
    for (name, last, wanted) in LAST {
        holds(&rt, reports(&rt, last, wanted), name);
    }
}

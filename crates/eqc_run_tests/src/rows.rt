//! Rows of runs: each text is given to several teams of workers.

use crate::ends::holds_at;
use eqc_check::Texts;
use eqc_run_testing::{Numbers, given, options, reports_on, two_of, workers_on};
use eqc_testing::{Feed, Row};
use std::process::Abort;
use std::sync::Wait;
use std::thread::Threads;

/// Each row's text gives its report with each of these numbers.
pub fn check_runs(
    rt: &(impl Abort + AllocGlobal + Threads + Wait + Sync),
    teams: &[Numbers],
    rows: &[Row<&str>],
) {
    for numbers in teams {
        for (name, text, report) in rows {
            holds_at(
                rt,
                Ok(reports_on(rt, text, *numbers, report)),
                name,
                *numbers,
            );
        }
    }
}

/// How many workers have to compare outputs at once in a row of this name, where the rows of these
/// names have several outputs to compare.
pub(crate) fn at_once(several: &[&str], name: &str, numbers: Numbers) -> u32 {
    for one in several {
        if *one == name {
            return two_of(numbers);
        }
    }
    0
}

/// The same as `check_runs`. In rows of these names several outputs are compared, so that threads
/// have to be started.
pub fn check_runs_by_several(
    rt: &(impl Abort + AllocGlobal + Threads + Wait + Sync),
    teams: &[Numbers],
    rows: &[Row<&str>],
    several: &[&str],
) {
    for numbers in teams {
        for (name, text, report) in rows {
            let texts = Texts::One(Feed::whole(text));
            let run = given(texts, None, None, options(*numbers));
            let wanted = at_once(several, name, *numbers);
            let workers = workers_on(rt, run, wanted, report);
            let found = workers.is_some_and(|count| count >= wanted);
            holds_at(rt, Ok(found), name, *numbers);
        }
    }
}

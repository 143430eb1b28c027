//! Reports as bytes, and writers that fail under them.

use eqc_blif::Name;
use eqc_check::{Difference, Differences, Refused, Report, RunFault, Side, write_report};
use eqc_report::write_or_stop;
use eqc_testing::{Drain, NEVER, is_text};
use eqc_tree::Stop;
use std::alloc::{AllocError, Global};

/// Writers, by how many bytes one takes at most, which write fails and whether it flushes; then the
/// outcome of writing the report `equivalent`, and what was written.
pub static WRITERS: &[(usize, usize, bool, Result<(), RunFault>, &str)] = &[
    (NEVER, NEVER, true, Ok(()), "equivalent;"),
    (1, NEVER, true, Ok(()), "equivalent;"),
    (4, 1, true, Err(RunFault::Write), "equi"),
    (0, NEVER, true, Err(RunFault::Write), ""),
    (NEVER, 0, true, Err(RunFault::Write), ""),
    (NEVER, NEVER, false, Err(RunFault::Write), "equivalent;"),
];

#[test]
fn a_failed_write_leaves_a_prefix(rt: HostRuntime) {
    for (step, fails_at, flushes, outcome, written) in WRITERS {
        let mut drain = Drain::new(Vec::new(rt.alloc()), *step, *fails_at, *flushes);
        assert_eq!(rt;
            write_report(rt.alloc(), &Report::Equivalent, &mut drain),
            *outcome,
            "{step} {fails_at}"
        );
        assert!(rt; is_text(&drain.bytes, written), "{step} {fails_at}");
    }
}

/// An output that differs under 0 and 1.
fn difference(alloc: Global, name: &[u8], first: bool) -> Result<Difference, AllocError> {
    Ok(Difference {
        name: Name::new(alloc, name)?,
        values: vec![in alloc; false, true]?,
        first,
    })
}

/// A report on one output that differs, or on two, with inputs `a` and `b`.
fn differs(alloc: Global, is_two: bool) -> Result<Report, AllocError> {
    let a = Name::new(alloc, b"a")?;
    let b = Name::new(alloc, b"b")?;
    let inputs = vec![in alloc; a, b]?;
    let mut each = Vec::new(alloc);
    each.push(difference(alloc, b"y", true)?)?;
    if is_two {
        each.push(difference(alloc, b"z", false)?)?;
    }
    Ok(Report::Differs(Differences { inputs, each }))
}

#[test]
fn reports_have_their_bytes(rt: HostRuntime) {
    let alloc = rt.alloc();
    let one = differs(alloc, false).expect(&rt, "memory");
    let two = differs(alloc, true).expect(&rt, "memory");
    let refused = Report::Refused(Refused {
        side: Side::Order,
        line: 0,
        code: 51,
    });
    let rows = [
        (Report::Equivalent, "equivalent;"),
        (Report::Vacuous, "vacuous;"),
        (one, "differs at y;a=0;b=1;first=1;second=0;"),
        (
            two,
            "differs at y;a=0;b=1;first=1;second=0;differs at z;a=0;b=1;first=0;second=1;",
        ),
        (refused, "refused order 0 51;"),
        (Report::Stopped(Stop::Memory), "stopped 72;"),
    ];
    for (report, text) in &rows {
        let mut written = Vec::new(alloc);
        assert_eq!(rt; write_report(alloc, report, &mut written), Ok(()));
        assert!(rt; is_text(&written, text), "{text}");
        written.clear();
        let kind = write_or_stop(alloc, report, &mut written).ok();
        assert_eq!(rt; kind, Some(report.status()));
        assert!(rt; is_text(&written, text), "{text}");
    }
}

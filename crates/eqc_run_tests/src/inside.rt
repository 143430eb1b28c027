//! Netlists that agree inside, and whose outputs have no diagram in a small store: with 1,024 nodes
//! and more equal signals are looked for inside them, with fewer, and with 0 conflicts, diagrams
//! alone are made.

use crate::ends::same;
use eqc_check::{Options, Texts, run};
use eqc_run_testing::{CONFLICTS, options};
use eqc_testing::{Feed, is_text};
use std::sync::Wait;
use std::thread::Threads;

/// Two multipliers of 8 bits, of which the lower 8 are put out. A carry is the majority of three in
/// one, and in the other it is made with the half sum. In the order of the inputs the diagram of
/// the last bit has 1,367 nodes.
#[rattlefmt::skip]
pub static MULTIPLIERS: &str = ".model f;.inputs a0 a1 a2 a3 a4 a5 a6 a7 b0 b1 b2 b3 b4 b5 b6 b7;.outputs s0_0 s1_0 s2_0 s3_0 s4_0 s5_0 s6_0 s7_0;.names a0 b0 s0_0;11 1;.names c0_0;.names a1 b0 s0_1;11 1;.names c0_1;.names a2 b0 s0_2;11 1;.names c0_2;.names a3 b0 s0_3;11 1;.names c0_3;.names a4 b0 s0_4;11 1;.names c0_4;.names a5 b0 s0_5;11 1;.names c0_5;.names a6 b0 s0_6;11 1;.names c0_6;.names a7 b0 s0_7;11 1;.names c0_7;.names a0 b1 p1_0;11 1;.names p1_0 s0_1 x1_0;10 1;01 1;.names x1_0 c0_0 s1_0;10 1;01 1;.names p1_0 s0_1 c0_0 x1_0 c1_0;11-- 1;1-1- 1;-11- 1;.names a1 b1 p1_1;11 1;.names p1_1 s0_2 x1_1;10 1;01 1;.names x1_1 c0_1 s1_1;10 1;01 1;.names p1_1 s0_2 c0_1 x1_1 c1_1;11-- 1;1-1- 1;-11- 1;.names a2 b1 p1_2;11 1;.names p1_2 s0_3 x1_2;10 1;01 1;.names x1_2 c0_2 s1_2;10 1;01 1;.names p1_2 s0_3 c0_2 x1_2 c1_2;11-- 1;1-1- 1;-11- 1;.names a3 b1 p1_3;11 1;.names p1_3 s0_4 x1_3;10 1;01 1;.names x1_3 c0_3 s1_3;10 1;01 1;.names p1_3 s0_4 c0_3 x1_3 c1_3;11-- 1;1-1- 1;-11- 1;.names a4 b1 p1_4;11 1;.names p1_4 s0_5 x1_4;10 1;01 1;.names x1_4 c0_4 s1_4;10 1;01 1;.names p1_4 s0_5 c0_4 x1_4 c1_4;11-- 1;1-1- 1;-11- 1;.names a5 b1 p1_5;11 1;.names p1_5 s0_6 x1_5;10 1;01 1;.names x1_5 c0_5 s1_5;10 1;01 1;.names p1_5 s0_6 c0_5 x1_5 c1_5;11-- 1;1-1- 1;-11- 1;.names a6 b1 p1_6;11 1;.names p1_6 s0_7 x1_6;10 1;01 1;.names x1_6 c0_6 s1_6;10 1;01 1;.names p1_6 s0_7 c0_6 x1_6 c1_6;11-- 1;1-1- 1;-11- 1;.names a0 b2 p2_0;11 1;.names p2_0 s1_1 x2_0;10 1;01 1;.names x2_0 c1_0 s2_0;10 1;01 1;.names p2_0 s1_1 c1_0 x2_0 c2_0;11-- 1;1-1- 1;-11- 1;.names a1 b2 p2_1;11 1;.names p2_1 s1_2 x2_1;10 1;01 1;.names x2_1 c1_1 s2_1;10 1;01 1;.names p2_1 s1_2 c1_1 x2_1 c2_1;11-- 1;1-1- 1;-11- 1;.names a2 b2 p2_2;11 1;.names p2_2 s1_3 x2_2;10 1;01 1;.names x2_2 c1_2 s2_2;10 1;01 1;.names p2_2 s1_3 c1_2 x2_2 c2_2;11-- 1;1-1- 1;-11- 1;.names a3 b2 p2_3;11 1;.names p2_3 s1_4 x2_3;10 1;01 1;.names x2_3 c1_3 s2_3;10 1;01 1;.names p2_3 s1_4 c1_3 x2_3 c2_3;11-- 1;1-1- 1;-11- 1;.names a4 b2 p2_4;11 1;.names p2_4 s1_5 x2_4;10 1;01 1;.names x2_4 c1_4 s2_4;10 1;01 1;.names p2_4 s1_5 c1_4 x2_4 c2_4;11-- 1;1-1- 1;-11- 1;.names a5 b2 p2_5;11 1;.names p2_5 s1_6 x2_5;10 1;01 1;.names x2_5 c1_5 s2_5;10 1;01 1;.names p2_5 s1_6 c1_5 x2_5 c2_5;11-- 1;1-1- 1;-11- 1;.names a0 b3 p3_0;11 1;.names p3_0 s2_1 x3_0;10 1;01 1;.names x3_0 c2_0 s3_0;10 1;01 1;.names p3_0 s2_1 c2_0 x3_0 c3_0;11-- 1;1-1- 1;-11- 1;.names a1 b3 p3_1;11 1;.names p3_1 s2_2 x3_1;10 1;01 1;.names x3_1 c2_1 s3_1;10 1;01 1;.names p3_1 s2_2 c2_1 x3_1 c3_1;11-- 1;1-1- 1;-11- 1;.names a2 b3 p3_2;11 1;.names p3_2 s2_3 x3_2;10 1;01 1;.names x3_2 c2_2 s3_2;10 1;01 1;.names p3_2 s2_3 c2_2 x3_2 c3_2;11-- 1;1-1- 1;-11- 1;.names a3 b3 p3_3;11 1;.names p3_3 s2_4 x3_3;10 1;01 1;.names x3_3 c2_3 s3_3;10 1;01 1;.names p3_3 s2_4 c2_3 x3_3 c3_3;11-- 1;1-1- 1;-11- 1;.names a4 b3 p3_4;11 1;.names p3_4 s2_5 x3_4;10 1;01 1;.names x3_4 c2_4 s3_4;10 1;01 1;.names p3_4 s2_5 c2_4 x3_4 c3_4;11-- 1;1-1- 1;-11- 1;.names a0 b4 p4_0;11 1;.names p4_0 s3_1 x4_0;10 1;01 1;.names x4_0 c3_0 s4_0;10 1;01 1;.names p4_0 s3_1 c3_0 x4_0 c4_0;11-- 1;1-1- 1;-11- 1;.names a1 b4 p4_1;11 1;.names p4_1 s3_2 x4_1;10 1;01 1;.names x4_1 c3_1 s4_1;10 1;01 1;.names p4_1 s3_2 c3_1 x4_1 c4_1;11-- 1;1-1- 1;-11- 1;.names a2 b4 p4_2;11 1;.names p4_2 s3_3 x4_2;10 1;01 1;.names x4_2 c3_2 s4_2;10 1;01 1;.names p4_2 s3_3 c3_2 x4_2 c4_2;11-- 1;1-1- 1;-11- 1;.names a3 b4 p4_3;11 1;.names p4_3 s3_4 x4_3;10 1;01 1;.names x4_3 c3_3 s4_3;10 1;01 1;.names p4_3 s3_4 c3_3 x4_3 c4_3;11-- 1;1-1- 1;-11- 1;.names a0 b5 p5_0;11 1;.names p5_0 s4_1 x5_0;10 1;01 1;.names x5_0 c4_0 s5_0;10 1;01 1;.names p5_0 s4_1 c4_0 x5_0 c5_0;11-- 1;1-1- 1;-11- 1;.names a1 b5 p5_1;11 1;.names p5_1 s4_2 x5_1;10 1;01 1;.names x5_1 c4_1 s5_1;10 1;01 1;.names p5_1 s4_2 c4_1 x5_1 c5_1;11-- 1;1-1- 1;-11- 1;.names a2 b5 p5_2;11 1;.names p5_2 s4_3 x5_2;10 1;01 1;.names x5_2 c4_2 s5_2;10 1;01 1;.names p5_2 s4_3 c4_2 x5_2 c5_2;11-- 1;1-1- 1;-11- 1;.names a0 b6 p6_0;11 1;.names p6_0 s5_1 x6_0;10 1;01 1;.names x6_0 c5_0 s6_0;10 1;01 1;.names p6_0 s5_1 c5_0 x6_0 c6_0;11-- 1;1-1- 1;-11- 1;.names a1 b6 p6_1;11 1;.names p6_1 s5_2 x6_1;10 1;01 1;.names x6_1 c5_1 s6_1;10 1;01 1;.names p6_1 s5_2 c5_1 x6_1 c6_1;11-- 1;1-1- 1;-11- 1;.names a0 b7 p7_0;11 1;.names p7_0 s6_1 x7_0;10 1;01 1;.names x7_0 c6_0 s7_0;10 1;01 1;.names p7_0 s6_1 c6_0 x7_0 c7_0;11-- 1;1-1- 1;-11- 1;.end;.model g;.inputs a0 a1 a2 a3 a4 a5 a6 a7 b0 b1 b2 b3 b4 b5 b6 b7;.outputs s0_0 s1_0 s2_0 s3_0 s4_0 s5_0 s6_0 s7_0;.names a0 b0 s0_0;11 1;.names c0_0;.names a1 b0 s0_1;11 1;.names c0_1;.names a2 b0 s0_2;11 1;.names c0_2;.names a3 b0 s0_3;11 1;.names c0_3;.names a4 b0 s0_4;11 1;.names c0_4;.names a5 b0 s0_5;11 1;.names c0_5;.names a6 b0 s0_6;11 1;.names c0_6;.names a7 b0 s0_7;11 1;.names c0_7;.names a0 b1 p1_0;11 1;.names p1_0 s0_1 x1_0;10 1;01 1;.names x1_0 c0_0 s1_0;10 1;01 1;.names p1_0 s0_1 c0_0 x1_0 c1_0;11-- 1;--11 1;.names a1 b1 p1_1;11 1;.names p1_1 s0_2 x1_1;10 1;01 1;.names x1_1 c0_1 s1_1;10 1;01 1;.names p1_1 s0_2 c0_1 x1_1 c1_1;11-- 1;--11 1;.names a2 b1 p1_2;11 1;.names p1_2 s0_3 x1_2;10 1;01 1;.names x1_2 c0_2 s1_2;10 1;01 1;.names p1_2 s0_3 c0_2 x1_2 c1_2;11-- 1;--11 1;.names a3 b1 p1_3;11 1;.names p1_3 s0_4 x1_3;10 1;01 1;.names x1_3 c0_3 s1_3;10 1;01 1;.names p1_3 s0_4 c0_3 x1_3 c1_3;11-- 1;--11 1;.names a4 b1 p1_4;11 1;.names p1_4 s0_5 x1_4;10 1;01 1;.names x1_4 c0_4 s1_4;10 1;01 1;.names p1_4 s0_5 c0_4 x1_4 c1_4;11-- 1;--11 1;.names a5 b1 p1_5;11 1;.names p1_5 s0_6 x1_5;10 1;01 1;.names x1_5 c0_5 s1_5;10 1;01 1;.names p1_5 s0_6 c0_5 x1_5 c1_5;11-- 1;--11 1;.names a6 b1 p1_6;11 1;.names p1_6 s0_7 x1_6;10 1;01 1;.names x1_6 c0_6 s1_6;10 1;01 1;.names p1_6 s0_7 c0_6 x1_6 c1_6;11-- 1;--11 1;.names a0 b2 p2_0;11 1;.names p2_0 s1_1 x2_0;10 1;01 1;.names x2_0 c1_0 s2_0;10 1;01 1;.names p2_0 s1_1 c1_0 x2_0 c2_0;11-- 1;--11 1;.names a1 b2 p2_1;11 1;.names p2_1 s1_2 x2_1;10 1;01 1;.names x2_1 c1_1 s2_1;10 1;01 1;.names p2_1 s1_2 c1_1 x2_1 c2_1;11-- 1;--11 1;.names a2 b2 p2_2;11 1;.names p2_2 s1_3 x2_2;10 1;01 1;.names x2_2 c1_2 s2_2;10 1;01 1;.names p2_2 s1_3 c1_2 x2_2 c2_2;11-- 1;--11 1;.names a3 b2 p2_3;11 1;.names p2_3 s1_4 x2_3;10 1;01 1;.names x2_3 c1_3 s2_3;10 1;01 1;.names p2_3 s1_4 c1_3 x2_3 c2_3;11-- 1;--11 1;.names a4 b2 p2_4;11 1;.names p2_4 s1_5 x2_4;10 1;01 1;.names x2_4 c1_4 s2_4;10 1;01 1;.names p2_4 s1_5 c1_4 x2_4 c2_4;11-- 1;--11 1;.names a5 b2 p2_5;11 1;.names p2_5 s1_6 x2_5;10 1;01 1;.names x2_5 c1_5 s2_5;10 1;01 1;.names p2_5 s1_6 c1_5 x2_5 c2_5;11-- 1;--11 1;.names a0 b3 p3_0;11 1;.names p3_0 s2_1 x3_0;10 1;01 1;.names x3_0 c2_0 s3_0;10 1;01 1;.names p3_0 s2_1 c2_0 x3_0 c3_0;11-- 1;--11 1;.names a1 b3 p3_1;11 1;.names p3_1 s2_2 x3_1;10 1;01 1;.names x3_1 c2_1 s3_1;10 1;01 1;.names p3_1 s2_2 c2_1 x3_1 c3_1;11-- 1;--11 1;.names a2 b3 p3_2;11 1;.names p3_2 s2_3 x3_2;10 1;01 1;.names x3_2 c2_2 s3_2;10 1;01 1;.names p3_2 s2_3 c2_2 x3_2 c3_2;11-- 1;--11 1;.names a3 b3 p3_3;11 1;.names p3_3 s2_4 x3_3;10 1;01 1;.names x3_3 c2_3 s3_3;10 1;01 1;.names p3_3 s2_4 c2_3 x3_3 c3_3;11-- 1;--11 1;.names a4 b3 p3_4;11 1;.names p3_4 s2_5 x3_4;10 1;01 1;.names x3_4 c2_4 s3_4;10 1;01 1;.names p3_4 s2_5 c2_4 x3_4 c3_4;11-- 1;--11 1;.names a0 b4 p4_0;11 1;.names p4_0 s3_1 x4_0;10 1;01 1;.names x4_0 c3_0 s4_0;10 1;01 1;.names p4_0 s3_1 c3_0 x4_0 c4_0;11-- 1;--11 1;.names a1 b4 p4_1;11 1;.names p4_1 s3_2 x4_1;10 1;01 1;.names x4_1 c3_1 s4_1;10 1;01 1;.names p4_1 s3_2 c3_1 x4_1 c4_1;11-- 1;--11 1;.names a2 b4 p4_2;11 1;.names p4_2 s3_3 x4_2;10 1;01 1;.names x4_2 c3_2 s4_2;10 1;01 1;.names p4_2 s3_3 c3_2 x4_2 c4_2;11-- 1;--11 1;.names a3 b4 p4_3;11 1;.names p4_3 s3_4 x4_3;10 1;01 1;.names x4_3 c3_3 s4_3;10 1;01 1;.names p4_3 s3_4 c3_3 x4_3 c4_3;11-- 1;--11 1;.names a0 b5 p5_0;11 1;.names p5_0 s4_1 x5_0;10 1;01 1;.names x5_0 c4_0 s5_0;10 1;01 1;.names p5_0 s4_1 c4_0 x5_0 c5_0;11-- 1;--11 1;.names a1 b5 p5_1;11 1;.names p5_1 s4_2 x5_1;10 1;01 1;.names x5_1 c4_1 s5_1;10 1;01 1;.names p5_1 s4_2 c4_1 x5_1 c5_1;11-- 1;--11 1;.names a2 b5 p5_2;11 1;.names p5_2 s4_3 x5_2;10 1;01 1;.names x5_2 c4_2 s5_2;10 1;01 1;.names p5_2 s4_3 c4_2 x5_2 c5_2;11-- 1;--11 1;.names a0 b6 p6_0;11 1;.names p6_0 s5_1 x6_0;10 1;01 1;.names x6_0 c5_0 s6_0;10 1;01 1;.names p6_0 s5_1 c5_0 x6_0 c6_0;11-- 1;--11 1;.names a1 b6 p6_1;11 1;.names p6_1 s5_2 x6_1;10 1;01 1;.names x6_1 c5_1 s6_1;10 1;01 1;.names p6_1 s5_2 c5_1 x6_1 c6_1;11-- 1;--11 1;.names a0 b7 p7_0;11 1;.names p7_0 s6_1 x7_0;10 1;01 1;.names x7_0 c6_0 s7_0;10 1;01 1;.names p7_0 s6_1 c6_0 x7_0 c7_0;11-- 1;--11 1;.end;";

/// Numbers of workers, nodes and conflicts, and what is reported with them.
static ROWS: &[(u32, u32, u32, &str)] = &[
    (1, 1_024, CONFLICTS, "equivalent;"),
    (2, 1_024, CONFLICTS, "equivalent;"),
    (3, 1_024, CONFLICTS, "equivalent;"),
    (4, 1_024, CONFLICTS, "equivalent;"),
    (8, 1_024, CONFLICTS, "equivalent;"),
    (16, 1_024, CONFLICTS, "equivalent;"),
    (2, 1_023, CONFLICTS, "stopped 71;"),
    (2, 1_024, 0, "stopped 71;"),
    (2, 65_536, 0, "equivalent;"),
];

/// Whether a run on the multipliers writes this report.
fn reports(
    rt: &(impl AllocGlobal + Threads + Wait + Sync),
    options: &Options,
    report: &str,
) -> bool {
    let mut out = Vec::new(rt.alloc());
    let texts = Texts::One(Feed::whole(MULTIPLIERS));
    let done = run(rt, rt.alloc(), texts, None, None, options, &mut out);
    done.is_ok() && is_text(&out, report)
}

#[test]
fn equal_signals_are_looked_for_inside(rt: HostRuntime) {
    for (workers, nodes, conflicts, report) in ROWS {
        let options = Options {
            conflicts: *conflicts,
            ..options((*workers, *nodes, 8_192, 0))
        };
        same(&rt, reports(&rt, &options, report), true, *nodes);
    }
}

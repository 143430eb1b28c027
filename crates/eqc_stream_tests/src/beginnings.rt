//! Each beginning of a text, as of one that was cut off, has its own report. The tables are what
//! `scripts/dev/beginnings` finds, which reads a beginning without `eqc` and evaluates both
//! netlists under all assignments; `scripts/dev/beginnings --check` compares them.

use crate::ends::holds_at;
use eqc_check::Texts;
use eqc_run_testing::{ADDERS, TWO, reports};
use eqc_testing::{EQUAL, Feed};
use std::process::Abort;
use std::sync::Wait;
use std::thread::Threads;

/// A text with a continued line and a latch.
pub const LATCH: &str = ".model f;.inputs a \\;b;.outputs z;.names a z;.latch a z 0;";

/// A text with carriage returns.
const CARRIAGE: &str =
    ".model f\r;.inputs a \\ # two\r;b\r;.wire_load_slope 0.00\r;.outputs z\r;.names a b z\r;1 1 1\r;.end\r;.model g;.inputs a b;.outputs z;.names a b z;11 1;";

/// From which length on a beginning of `EQUAL` has which report.
#[rattlefmt::skip]
static EQUAL_STEPS: &[(usize, &str)] = &[
    (0, "refused first 0 13;"), (1, "refused first 1 3;"), (6, "refused second 0 13;"), (10, "refused first 2 3;"), (16, "refused second 0 13;"),
    (22, "refused first 3 3;"), (29, "refused second 0 13;"), (33, "refused first 4 3;"), (38, "refused first 4 10;"), (40, "refused second 0 13;"),
    (46, "refused first 5 7;"), (49, "refused second 0 13;"), (51, "refused first 6 3;"), (54, "refused second 0 13;"), (56, "refused first 7 3;"),
    (61, "refused pair 0 41;"), (65, "refused first 8 3;"), (71, "refused pair 0 41;"), (75, "refused pair 0 42;"), (77, "refused first 9 3;"),
    (84, "refused pair 0 42;"), (86, "refused second 0 27;"), (88, "refused first 10 3;"), (93, "refused first 10 10;"), (95, "refused second 0 26;"),
    (99, "differs at z;x=1;y=1;first=1;second=0;"), (101, "refused first 11 7;"), (104, "differs at z;x=1;y=0;first=0;second=1;"),
    (106, "refused first 12 7;"), (109, "equivalent;"), (111, "refused first 13 3;"), (114, "equivalent;"),
];

/// The same of `LATCH`.
#[rattlefmt::skip]
static LATCH_STEPS: &[(usize, &str)] = &[
    (0, "refused first 0 13;"), (1, "refused first 1 3;"), (6, "refused second 0 13;"), (10, "refused first 2 3;"), (16, "refused second 0 13;"),
    (24, "refused first 4 3;"), (31, "refused second 0 13;"), (35, "refused first 5 3;"), (40, "refused first 5 10;"), (42, "refused second 0 13;"),
    (46, "refused first 6 3;"), (51, "refused first 6 4;"),
];

/// The same of `CARRIAGE`.
#[rattlefmt::skip]
static CARRIAGE_STEPS: &[(usize, &str)] = &[
    (0, "refused first 0 13;"), (1, "refused first 1 3;"), (6, "refused second 0 13;"), (11, "refused first 2 3;"), (17, "refused second 0 13;"),
    (33, "refused first 4 3;"), (37, "refused second 0 13;"), (38, "refused first 4 3;"), (48, "refused second 0 13;"), (56, "refused first 5 3;"),
    (63, "refused second 0 13;"), (68, "refused first 6 3;"), (73, "refused first 6 10;"), (75, "refused second 0 13;"), (82, "refused first 7 7;"),
    (86, "refused second 0 13;"), (89, "refused first 8 3;"), (92, "refused second 0 13;"), (95, "refused first 9 3;"), (100, "refused pair 0 41;"),
    (104, "refused first 10 3;"), (110, "refused pair 0 41;"), (114, "refused pair 0 42;"), (116, "refused first 11 3;"), (123, "refused pair 0 42;"),
    (125, "refused second 0 27;"), (127, "refused first 12 3;"), (132, "refused first 12 10;"), (134, "refused second 0 26;"),
    (138, "differs at z;a=1;b=1;first=1;second=0;"), (140, "refused first 13 7;"), (143, "equivalent;"),
];

/// The same of `ADDERS`.
#[rattlefmt::skip]
static ADDERS_STEPS: &[(usize, &str)] = &[
    (0, "refused first 0 13;"), (1, "refused first 1 3;"), (6, "refused second 0 13;"), (12, "refused first 2 3;"), (18, "refused second 0 13;"),
    (72, "refused first 3 3;"), (79, "refused second 0 13;"), (110, "refused first 4 3;"), (116, "refused first 4 10;"),
    (118, "refused second 0 13;"), (122, "refused first 4 9;"), (124, "refused second 0 13;"), (128, "refused first 4 9;"),
    (131, "refused second 0 13;"), (134, "refused first 4 9;"), (137, "refused second 0 13;"), (140, "refused first 4 9;"),
    (143, "refused second 0 13;"), (146, "refused first 4 9;"), (149, "refused second 0 13;"), (152, "refused first 4 9;"),
    (155, "refused second 0 13;"), (158, "refused first 4 9;"), (161, "refused second 0 13;"), (164, "refused first 4 9;"),
    (167, "refused second 0 13;"), (170, "refused first 4 9;"), (173, "refused second 0 13;"), (179, "refused first 4 9;"),
    (182, "refused second 0 13;"), (185, "refused first 4 9;"), (188, "refused second 0 13;"), (191, "refused first 4 9;"),
    (194, "refused second 0 13;"), (197, "refused first 4 9;"), (200, "refused second 0 13;"), (203, "refused first 4 9;"),
    (205, "refused second 0 13;"), (207, "refused first 6 3;"), (213, "refused first 6 10;"), (215, "refused second 0 13;"),
    (219, "refused first 6 9;"), (221, "refused second 0 13;"), (223, "refused first 6 9;"), (226, "refused second 0 13;"),
    (229, "refused first 6 9;"), (232, "refused second 0 13;"), (235, "refused first 6 9;"), (238, "refused second 0 13;"),
    (241, "refused first 6 9;"), (244, "refused second 0 13;"), (247, "refused first 6 9;"), (250, "refused second 0 13;"),
    (253, "refused first 6 9;"), (256, "refused second 0 13;"), (259, "refused first 6 9;"), (262, "refused second 0 13;"),
    (265, "refused first 6 9;"), (268, "refused second 0 13;"), (274, "refused first 6 9;"), (277, "refused second 0 13;"),
    (280, "refused first 6 9;"), (283, "refused second 0 13;"), (286, "refused first 6 9;"), (289, "refused second 0 13;"),
    (292, "refused first 6 9;"), (295, "refused second 0 13;"), (298, "refused first 6 9;"), (300, "refused second 0 13;"),
    (305, "refused first 8 3;"), (308, "refused second 0 13;"), (310, "refused first 9 3;"), (315, "refused first 0 21;"),
    (321, "refused first 10 3;"), (327, "refused first 0 21;"), (381, "refused first 11 3;"), (388, "refused first 0 21;"),
    (419, "refused first 12 3;"), (425, "refused first 12 10;"), (427, "refused first 0 21;"), (431, "refused first 12 9;"),
    (433, "refused first 0 21;"), (437, "refused first 12 9;"), (440, "refused first 0 21;"), (443, "refused first 12 9;"),
    (446, "refused first 0 21;"), (449, "refused first 12 9;"), (452, "refused first 0 21;"), (455, "refused first 12 9;"),
    (458, "refused first 0 21;"), (461, "refused first 12 9;"), (464, "refused first 0 21;"), (467, "refused first 12 9;"),
    (470, "refused first 0 21;"), (473, "refused first 12 9;"), (476, "refused first 0 21;"), (479, "refused first 12 9;"),
    (482, "refused first 0 21;"), (488, "refused first 12 9;"), (491, "refused first 0 21;"), (494, "refused first 12 9;"),
    (497, "refused first 0 21;"), (500, "refused first 12 9;"), (503, "refused first 0 21;"), (506, "refused first 12 9;"),
    (509, "refused first 0 21;"), (512, "refused first 12 9;"), (514, "refused first 0 21;"), (516, "refused first 14 3;"),
    (521, "refused first 14 10;"), (523, "refused first 0 21;"), (528, "refused first 15 3;"), (533, "refused first 15 10;"),
    (535, "refused first 0 21;"), (541, "refused first 17 3;"), (547, "refused first 17 10;"), (549, "refused first 0 21;"),
    (553, "refused first 17 9;"), (555, "refused first 0 21;"), (560, "refused first 17 9;"), (563, "refused first 0 21;"),
    (566, "refused first 17 9;"), (569, "refused first 0 21;"), (572, "refused first 17 9;"), (575, "refused first 0 21;"),
    (578, "refused first 17 9;"), (581, "refused first 0 21;"), (584, "refused first 17 9;"), (587, "refused first 0 21;"),
    (590, "refused first 17 9;"), (593, "refused first 0 21;"), (596, "refused first 17 9;"), (599, "refused first 0 21;"),
    (602, "refused first 17 9;"), (605, "refused first 0 21;"), (611, "refused first 17 9;"), (614, "refused first 0 21;"),
    (617, "refused first 17 9;"), (620, "refused first 0 21;"), (623, "refused first 17 9;"), (626, "refused first 0 21;"),
    (629, "refused first 17 9;"), (632, "refused first 0 21;"), (635, "refused first 17 9;"), (637, "refused first 0 21;"),
    (640, "refused first 19 3;"), (646, "refused first 19 10;"), (648, "refused first 0 21;"), (652, "refused first 19 9;"),
    (654, "refused first 0 21;"), (658, "refused first 19 9;"), (661, "refused first 0 21;"), (664, "refused first 19 9;"),
    (667, "refused first 0 21;"), (670, "refused first 19 9;"), (673, "refused first 0 21;"), (676, "refused first 19 9;"),
    (679, "refused first 0 21;"), (682, "refused first 19 9;"), (685, "refused first 0 21;"), (688, "refused first 19 9;"),
    (691, "refused first 0 21;"), (694, "refused first 19 9;"), (697, "refused first 0 21;"), (700, "refused first 19 9;"),
    (703, "refused first 0 21;"), (709, "refused first 19 9;"), (712, "refused first 0 21;"), (715, "refused first 19 9;"),
    (718, "refused first 0 21;"), (721, "refused first 19 9;"), (724, "refused first 0 21;"), (727, "refused first 19 9;"),
    (730, "refused first 0 21;"), (733, "refused first 19 9;"), (735, "refused first 0 21;"), (738, "refused first 21 3;"),
    (744, "refused first 21 10;"), (746, "refused first 0 21;"), (750, "refused first 21 9;"), (752, "refused first 0 21;"),
    (754, "refused first 21 9;"), (756, "refused first 0 21;"), (759, "refused first 21 9;"), (761, "refused first 0 21;"),
    (764, "refused first 21 9;"), (766, "refused first 0 21;"), (769, "refused first 22 3;"), (775, "refused first 22 10;"),
    (777, "refused first 0 21;"), (781, "refused first 22 9;"), (783, "refused first 0 21;"), (785, "refused first 22 9;"),
    (787, "refused first 0 21;"), (790, "refused first 22 9;"), (792, "refused first 0 21;"), (795, "refused first 22 9;"),
    (797, "refused first 0 21;"), (800, "refused first 23 3;"), (806, "refused first 23 10;"), (808, "refused first 0 21;"),
    (812, "refused first 23 9;"), (814, "refused first 0 21;"), (816, "refused first 23 9;"), (818, "refused first 0 21;"),
    (821, "refused first 23 9;"), (823, "refused first 0 21;"), (826, "refused first 23 9;"), (828, "refused first 0 21;"),
    (831, "refused first 24 3;"), (837, "refused first 24 10;"), (839, "refused first 0 21;"), (843, "refused first 24 9;"),
    (845, "refused first 0 21;"), (847, "refused first 24 9;"), (849, "refused first 0 21;"), (852, "refused first 24 9;"),
    (854, "refused first 0 21;"), (857, "refused first 24 9;"), (859, "refused first 0 21;"), (862, "refused first 25 3;"),
    (868, "refused first 25 10;"), (870, "refused first 0 21;"), (874, "refused first 25 9;"), (876, "refused first 0 21;"),
    (878, "refused first 25 9;"), (880, "refused first 0 21;"), (883, "refused first 25 9;"), (885, "refused first 0 21;"),
    (888, "refused first 25 9;"), (890, "refused first 0 21;"), (895, "refused first 26 3;"), (898, "refused first 0 21;"),
    (900, "refused first 27 3;"), (905, "refused first 0 21;"), (909, "refused first 0 23;"), (911, "refused first 28 3;"),
    (917, "refused first 0 23;"), (945, "refused first 29 3;"), (952, "refused first 0 23;"), (966, "refused first 0 27;"),
    (968, "refused first 30 3;"), (974, "refused first 30 10;"), (976, "refused first 0 21;"), (979, "refused first 30 9;"),
    (981, "refused first 0 21;"), (984, "refused first 30 9;"), (986, "refused first 0 21;"), (989, "refused first 30 9;"),
    (991, "refused first 0 21;"), (993, "refused first 30 9;"), (995, "refused first 0 21;"), (998, "refused first 30 9;"),
    (1000, "refused first 0 21;"), (1003, "refused first 31 3;"), (1009, "refused first 31 10;"), (1011, "refused first 0 21;"),
    (1014, "refused first 31 9;"), (1016, "refused first 0 21;"), (1019, "refused first 31 9;"), (1021, "refused first 0 21;"),
    (1024, "refused first 31 9;"), (1026, "refused first 0 21;"), (1029, "refused first 31 9;"), (1031, "refused first 0 21;"),
    (1034, "refused first 31 9;"), (1036, "refused first 0 21;"), (1039, "refused first 32 3;"), (1045, "refused first 32 10;"),
    (1047, "refused first 0 21;"), (1050, "refused first 32 9;"), (1052, "refused first 0 21;"), (1055, "refused first 32 9;"),
    (1057, "refused first 0 21;"), (1060, "refused first 32 9;"), (1062, "refused first 0 21;"), (1065, "refused first 32 9;"),
    (1067, "refused first 0 21;"), (1070, "refused first 32 9;"), (1072, "refused first 0 21;"), (1075, "refused first 33 3;"),
    (1081, "refused first 33 10;"), (1083, "refused first 0 21;"), (1086, "refused first 33 9;"), (1088, "refused first 0 21;"),
    (1091, "refused first 33 9;"), (1093, "refused first 0 21;"), (1096, "refused first 33 9;"), (1098, "refused first 0 21;"),
    (1101, "refused first 33 9;"), (1103, "refused first 0 21;"), (1106, "refused first 33 9;"), (1108, "refused first 0 21;"),
    (1110, "refused first 34 3;"), (1113, "refused first 0 21;"), (1115, "refused first 35 3;"), (1120, "refused first 0 21;"),
    (1123, "refused first 0 23;"), (1125, "refused first 36 3;"), (1131, "refused first 0 23;"), (1139, "refused first 37 3;"),
    (1146, "refused first 0 23;"), (1150, "refused first 0 27;"), (1152, "refused first 38 3;"), (1157, "refused first 38 10;"),
    (1159, "refused first 0 26;"), (1165, "refused first 0 27;"), (1167, "refused first 39 7;"), (1171, "refused first 0 27;"),
    (1173, "refused first 40 7;"), (1177, "refused first 0 27;"), (1179, "refused first 41 7;"), (1183, "refused first 0 27;"),
    (1185, "refused first 42 7;"), (1189, "refused first 0 27;"), (1191, "refused first 43 3;"), (1196, "refused first 43 10;"),
    (1198, "refused first 0 26;"), (1204, "refused second 0 21;"), (1206, "refused first 44 7;"), (1210, "refused second 0 21;"),
    (1212, "refused first 45 7;"), (1216, "refused second 0 21;"), (1218, "refused first 46 7;"), (1222, "refused second 0 21;"),
    (1224, "refused first 47 3;"), (1227, "refused second 0 21;"), (1229, "refused first 48 3;"), (1234, "refused second 0 21;"),
    (1238, "refused second 0 23;"), (1240, "refused first 49 3;"), (1246, "refused second 0 23;"), (1254, "refused first 50 3;"),
    (1261, "refused second 0 23;"), (1263, "refused second 0 27;"), (1265, "refused first 51 3;"), (1270, "refused first 51 10;"),
    (1272, "refused second 0 26;"),
    (1278, "differs at s4;cin=0;a0=0;b0=0;a1=0;b1=0;a2=0;b2=0;a3=0;b3=0;a4=0;b4=1;a5=0;b5=0;a6=0;b6=0;a7=0;b7=0;first=1;second=0;"),
    (1280, "refused first 52 7;"),
    (1284, "differs at s4;cin=0;a0=0;b0=0;a1=0;b1=0;a2=0;b2=0;a3=1;b3=1;a4=0;b4=0;a5=0;b5=0;a6=0;b6=0;a7=0;b7=0;first=1;second=0;"),
    (1286, "refused first 53 7;"), (1290, "equivalent;"), (1292, "refused first 54 3;"), (1295, "equivalent;"),
];

/// Each beginning of a text has the report of the last step that is not past it.
fn check_beginnings(
    rt: &(impl Abort + AllocGlobal + Threads + Wait + Sync),
    text: &str,
    steps: &[(usize, &str)],
) {
    let bytes = text.as_bytes();
    let mut report = "";
    for len in 0..bytes.len() + 1 {
        for (from, next) in steps.iter() {
            if *from == len {
                report = *next;
            }
        }
        let beginning = Texts::One(Feed::of_bytes(&bytes[..len]));
        let found = reports(rt, beginning, None, TWO, report);
        holds_at(rt, Ok(found), report, len);
    }
}

#[test]
fn beginnings_of_small_texts_have_their_reports(rt: HostRuntime) {
    check_beginnings(&rt, EQUAL, EQUAL_STEPS);
    check_beginnings(&rt, LATCH, LATCH_STEPS);
    check_beginnings(&rt, CARRIAGE, CARRIAGE_STEPS);
}

#[test]
fn beginnings_of_a_hierarchy_have_their_reports(rt: HostRuntime) {
    check_beginnings(&rt, ADDERS, ADDERS_STEPS);
}

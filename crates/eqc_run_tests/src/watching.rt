//! What a run tells of how far it is.

use crate::ends::same;
use crate::inside::MULTIPLIERS;
use eqc_check::{
    Gate, Given, ModelNames, NoDiagnostics, OutputNames, Progress, Stage, Texts, run_explained,
};
use eqc_run_testing::options;
use eqc_testing::{Feed, is_text};
use std::sync::{Mutex, Wait};
use std::thread::Threads;

/// Three outputs that are equal, and of which no two signals have one structure.
const THREE: &str =
    ".model f;.inputs a b;.outputs p q r;.names a b p;11 1;.names a b q;1- 1;-1 1;.names a b r;10 1;01 1;.end;.model g;.inputs a b;.outputs p q r;.names a b p;0- 0;-0 0;.names a b q;00 0;.names a b r;11 0;00 0;.end;";

/// The sum of four words of ten bits, added up in two orders: too large for the diagrams of 1,024
/// nodes, and with no carries in common that sweeping could find.
const ADDED: &str =
    ".model m;.inputs a0 a1 a2 a3 a4 a5 a6 a7 a8 a9 b0 b1 b2 b3 b4 b5 b6 b7 b8 b9 c0 c1 c2 c3 c4 c5 c6 c7 c8 c9 d0 d1 d2 d3 d4 d5 d6 d7 d8 d9;.outputs z0 z1 z2 z3 z4 z5 z6 z7 z8 z9;.subckt h x=a0 y=b0 s=s0 c=k0;.subckt f x=a1 y=b1 z=k0 s=s1 c=k1;.subckt f x=a2 y=b2 z=k1 s=s2 c=k2;.subckt f x=a3 y=b3 z=k2 s=s3 c=k3;.subckt f x=a4 y=b4 z=k3 s=s4 c=k4;.subckt f x=a5 y=b5 z=k4 s=s5 c=k5;.subckt f x=a6 y=b6 z=k5 s=s6 c=k6;.subckt f x=a7 y=b7 z=k6 s=s7 c=k7;.subckt f x=a8 y=b8 z=k7 s=s8 c=k8;.subckt f x=a9 y=b9 z=k8 s=s9 c=k9;.subckt h x=c0 y=d0 s=s10 c=k10;.subckt f x=c1 y=d1 z=k10 s=s11 c=k11;.subckt f x=c2 y=d2 z=k11 s=s12 c=k12;.subckt f x=c3 y=d3 z=k12 s=s13 c=k13;.subckt f x=c4 y=d4 z=k13 s=s14 c=k14;.subckt f x=c5 y=d5 z=k14 s=s15 c=k15;.subckt f x=c6 y=d6 z=k15 s=s16 c=k16;.subckt f x=c7 y=d7 z=k16 s=s17 c=k17;.subckt f x=c8 y=d8 z=k17 s=s18 c=k18;.subckt f x=c9 y=d9 z=k18 s=s19 c=k19;.subckt h x=s0 y=s10 s=z0 c=k20;.subckt f x=s1 y=s11 z=k20 s=z1 c=k21;.subckt f x=s2 y=s12 z=k21 s=z2 c=k22;.subckt f x=s3 y=s13 z=k22 s=z3 c=k23;.subckt f x=s4 y=s14 z=k23 s=z4 c=k24;.subckt f x=s5 y=s15 z=k24 s=z5 c=k25;.subckt f x=s6 y=s16 z=k25 s=z6 c=k26;.subckt f x=s7 y=s17 z=k26 s=z7 c=k27;.subckt f x=s8 y=s18 z=k27 s=z8 c=k28;.subckt f x=s9 y=s19 z=k28 s=z9 c=k29;.end;.model w;.inputs a0 a1 a2 a3 a4 a5 a6 a7 a8 a9 b0 b1 b2 b3 b4 b5 b6 b7 b8 b9 c0 c1 c2 c3 c4 c5 c6 c7 c8 c9 d0 d1 d2 d3 d4 d5 d6 d7 d8 d9;.outputs z0 z1 z2 z3 z4 z5 z6 z7 z8 z9;.subckt h x=d0 y=a0 s=s0 c=k0;.subckt f x=d1 y=a1 z=k0 s=s1 c=k1;.subckt f x=d2 y=a2 z=k1 s=s2 c=k2;.subckt f x=d3 y=a3 z=k2 s=s3 c=k3;.subckt f x=d4 y=a4 z=k3 s=s4 c=k4;.subckt f x=d5 y=a5 z=k4 s=s5 c=k5;.subckt f x=d6 y=a6 z=k5 s=s6 c=k6;.subckt f x=d7 y=a7 z=k6 s=s7 c=k7;.subckt f x=d8 y=a8 z=k7 s=s8 c=k8;.subckt f x=d9 y=a9 z=k8 s=s9 c=k9;.subckt h x=s0 y=c0 s=s10 c=k10;.subckt f x=s1 y=c1 z=k10 s=s11 c=k11;.subckt f x=s2 y=c2 z=k11 s=s12 c=k12;.subckt f x=s3 y=c3 z=k12 s=s13 c=k13;.subckt f x=s4 y=c4 z=k13 s=s14 c=k14;.subckt f x=s5 y=c5 z=k14 s=s15 c=k15;.subckt f x=s6 y=c6 z=k15 s=s16 c=k16;.subckt f x=s7 y=c7 z=k16 s=s17 c=k17;.subckt f x=s8 y=c8 z=k17 s=s18 c=k18;.subckt f x=s9 y=c9 z=k18 s=s19 c=k19;.subckt h x=s10 y=b0 s=z0 c=k20;.subckt f x=s11 y=b1 z=k20 s=z1 c=k21;.subckt f x=s12 y=b2 z=k21 s=z2 c=k22;.subckt f x=s13 y=b3 z=k22 s=z3 c=k23;.subckt f x=s14 y=b4 z=k23 s=z4 c=k24;.subckt f x=s15 y=b5 z=k24 s=z5 c=k25;.subckt f x=s16 y=b6 z=k25 s=z6 c=k26;.subckt f x=s17 y=b7 z=k26 s=z7 c=k27;.subckt f x=s18 y=b8 z=k27 s=z8 c=k28;.subckt f x=s19 y=b9 z=k28 s=z9 c=k29;.end;.model f;.inputs x y z;.outputs s c;.names x y t;10 1;01 1;.names t z s;10 1;01 1;.names x y t z c;11-- 1;--11 1;.end;.model h;.inputs x y;.outputs s c;.names x y s;10 1;01 1;.names x y c;11 1;.end;";

/// The letter of a stage.
fn letter(stage: Stage) -> u8 {
    match stage {
        Stage::Reading => b'r',
        Stage::Structure => b's',
        Stage::FirstDiagrams => b'd',
        Stage::Sweeping => b'i',
        Stage::Asking => b'a',
        Stage::Adding => b'u',
        Stage::Searching => b'f',
        Stage::AllDiagrams => b'w',
        Stage::Writing => b'e',
    }
}

/// Notes what it is told: a letter for each stage, and the digit of each output that is compared;
/// and how many steps or outputs it was told of since the last stage began, each behind the one
/// before; and the most nodes that were ever in use.
#[derive(Drop)]
struct Notes {
    told: Mutex<Vec<u8>>,
    steps: Mutex<usize>,
    most_nodes: Mutex<u32>,
    /// How often something came out of its turn.
    wrong: Mutex<u64>,
}

impl Notes {
    fn note<R: Wait>(&self, rt: &R, byte: u8) {
        let mut told = self.told.lock(rt);
        let _ = told.push(byte);
    }
}

impl<R: Wait> Gate<R> for Notes {
    fn enter(&self, rt: &R, _worker: u32, output: u32) {
        self.note(rt, b'0'.saturating_add(output.min(9) as u8));
    }
}

impl<R: Wait> Progress<R> for Notes {
    fn stage(&self, rt: &R, stage: Stage) {
        self.note(rt, letter(stage));
        let mut steps = self.steps.lock(rt);
        *steps = 0;
    }

    fn step(&self, rt: &R, done: usize, all: usize) {
        let mut steps = self.steps.lock(rt);
        if done != *steps || done >= all {
            let mut wrong = self.wrong.lock(rt);
            *wrong = wrong.saturating_add(1);
        }
        *steps = steps.saturating_add(1);
    }

    fn nodes(&self, rt: &R, nodes: u32) {
        let mut most = self.most_nodes.lock(rt);
        *most = nodes.max(*most);
    }
}

/// The stages and outputs that a run on a text with so many workers and nodes tells, and the most
/// nodes in use: none where it doesn't report that all is equal, or where something came out of its
/// turn.
fn told_of(
    rt: &(impl AllocGlobal + Threads + Wait + Sync),
    text: &'static str,
    workers: u32,
    nodes: u32,
) -> Option<(Vec<u8>, u32)> {
    let notes = Notes {
        told: Mutex::new(Vec::new(rt.alloc())),
        steps: Mutex::new(0),
        most_nodes: Mutex::new(0),
        wrong: Mutex::new(0),
    };
    let given = Given {
        texts: Texts::One(Feed::whole(text)),
        names: ModelNames::none(),
        order: None,
        assume: None,
        outputs: OutputNames::none(),
        options: options((workers, nodes, 8_192, 0)),
    };
    let mut out = Vec::new(rt.alloc());
    let nobody: Option<&mut NoDiagnostics> = None;
    let done = run_explained(rt, rt.alloc(), given, &mut out, nobody, &notes);
    let Notes {
        told,
        most_nodes,
        wrong,
        ..
    } = notes;
    let right = done.is_ok() && is_text(&out, "equivalent;") && wrong.into_inner() == 0;
    right.then_some((told.into_inner(), most_nodes.into_inner()))
}

/// Whether this was told, and the most nodes in use were so many.
fn is_told(told: &Option<(Vec<u8>, u32)>, wanted: &str, few: u32, many: u32) -> bool {
    told.as_ref().is_some_and(|(told, nodes)| {
        told.as_slice() == wanted.as_bytes() && few <= *nodes && *nodes <= many
    })
}

/// Numbers of workers and nodes, what is told of the text `THREE` with them, and how many nodes at
/// least and at most. The three outputs have five; over two variables there are fourteen in all,
/// which workers that share them don't count one by one.
#[rattlefmt::skip]
static ROWS: &[(u32, u32, &str, u32, u32)] = &[
    (1, 65_536, "rsd012e", 5, 14),
    (8, 65_536, "rsd012e", 5, 14),
    (1, 1_023, "rsw012e", 5, 1_023),
];

#[test]
fn a_run_tells_its_stages_each_output_once_and_its_nodes(rt: HostRuntime) {
    for (workers, nodes, wanted, few, many) in ROWS {
        let told = told_of(&rt, THREE, *workers, *nodes);
        same(&rt, is_told(&told, wanted, *few, *many), true, *wanted);
    }
}

/// The first room, which one thread has, is left where it is full. Then signals enter a graph, and
/// are swept.
#[test]
fn a_run_tells_how_far_it_sweeps(rt: HostRuntime) {
    let wanted = "rsd23456iie";
    let told = told_of(&rt, MULTIPLIERS, 2, 1_024);
    same(&rt, is_told(&told, wanted, 1_024, 1_024), true, wanted);
}

/// Words that add up the same are seen to be equal behind sweeping, and nothing is tried behind
/// that.
#[test]
fn a_run_adds_words_up_where_sweeping_leaves_them(rt: HostRuntime) {
    for workers in [1, 4] {
        let told = told_of(&rt, ADDED, workers, 1_024);
        let ends = told.is_some_and(|(told, _)| told.ends_with(b"iue"));
        same(&rt, ends, true, workers);
    }
}

//! Random steps of running workers: on 8 threads at once, after which the counts are what was given
//! back leaves, and on one thread, where what is read afterwards is what the machine has after a
//! replay of the same steps.
ghost use Rattle.std.specs.Prelude.{◌≡◌, ◌<◌};

use crate::drivers::{Driver, Scan, stocked};
use crate::ends::same;
use eqc_core::{Core, Event, Step, replay};
use eqc_testing::Chance;
use eqc_tree::{Op, pack_cell};
use std::process::Abort;
use std::thread::{Threads, join_mut};

/// How many steps each of the 8 workers tries.
const STEPS: u32 = 10_000;

/// How many lists are replayed.
const LISTS: u32 = 200;

/// How many references a worker keeps at most.
const MOST_REFERENCES: usize = 24;

/// A step that was taken.
#[derive(Clone, Copy)]
enum Taken {
    /// It was not allowed.
    Nothing,
    /// A step of the machine.
    One(Step),
    /// Three references of this name were counted up, and this cell has them.
    Filled(u32, u32),
}

/// Tries one step of the counted load.
fn load(rt: &impl Abort, driver: &mut Driver, kind: u32, cell: u32) -> Taken
    ensures { driver.new.worker.forest ≡ driver.old.worker.forest }
{
    match kind {
        0 => match driver.look(cell) {
            Some(_) => Taken::One(Step::Look(0, cell)),
            None => Taken::Nothing,
        },
        1 => match driver.announce() {
            Some(x) => Taken::One(Step::Announce(0, x)),
            None => Taken::Nothing,
        },
        2 => match driver.recheck() {
            Some(_) => Taken::One(Step::Recheck(0)),
            None => Taken::Nothing,
        },
        3 => match driver.up_confirmed(rt) {
            Some(x) => Taken::One(Step::Up(x)),
            None => Taken::Nothing,
        },
        _ => if driver.release() {
            Taken::One(Step::Announce(0, 0))
        } else {
            Taken::Nothing
        },
    }
}

/// Tries one step that changes a count, a cell or a scan.
fn change(rt: &impl Abort, driver: &mut Driver, kind: u32, cell: u32, i: usize) -> Taken
    ensures { driver.new.worker.forest ≡ driver.old.worker.forest }
{
    match kind {
        0 => match driver.up(rt, i) {
            Some(x) => Taken::One(Step::Up(x)),
            None => Taken::Nothing,
        },
        1 => match driver.down(i) {
            Some(x) => Taken::One(Step::Down(x)),
            None => Taken::Nothing,
        },
        2 => match driver.fill(rt, cell, i) {
            Some(x) => Taken::Filled(cell, x),
            None => Taken::Nothing,
        },
        3 => if driver.empty(rt, cell) {
            Taken::One(Step::SwapCell(cell, 0))
        } else {
            Taken::Nothing
        },
        _ => match driver.scan_one(rt) {
            Scan::Refused => Taken::Nothing,
            Scan::GoesOn | Scan::Ends(_) => Taken::One(Step::ScanOne),
        },
    }
}

/// Tries one step by chance, of 2 cells.
fn step(rt: &impl Abort, driver: &mut Driver, chance: &mut Chance) -> Taken
    ensures { driver.new.worker.forest ≡ driver.old.worker.forest }
{
    let cell = chance.below(2);
    let many = driver.references.len();
    let i = chance.below(MOST_REFERENCES as u32) as usize;
    if many > MOST_REFERENCES {
        return change(rt, driver, 1, cell, i);
    }
    let kind = chance.below(5);
    if chance.below(2) == 0 {
        load(rt, driver, kind, cell)
    } else {
        change(rt, driver, kind, cell, i)
    }
}

/// Tries steps and calls of the cache by chance, and comes to rest.
fn wander(rt: &impl Abort, driver: &mut Driver, seed: u32)
    ensures { driver.new.worker.forest ≡ driver.old.worker.forest }
{
    let mut chance = Chance { seed };
    for _ in 0..STEPS {
        let kind = chance.below(40);
        let i = chance.below(4) as usize;
        if kind == 0 {
            driver.store(i);
        } else if kind == 1 {
            driver.lookup(rt, i);
        } else if kind == 2 {
            driver.clear();
        } else {
            step(rt, driver, &mut chance);
        }
    }
    driver.rest(rt);
}

/// Two workers at once.
fn two<R: Threads + Sync + Abort>(rt: &R, a: &mut Driver, b: &mut Driver, seed: u32)
    ensures first { a.new.worker.forest ≡ a.old.worker.forest }
    ensures second { b.new.worker.forest ≡ b.old.worker.forest }
{
    join_mut(
        rt,
        &mut || wander(rt, a, seed),
        &mut || wander(rt, b, seed ^ 1),
    );
}

/// Four workers at once.
fn four<R: Threads + Sync + Abort>(
    rt: &R,
    a: &mut Driver,
    b: &mut Driver,
    c: &mut Driver,
    d: &mut Driver,
    seed: u32,
)
    ensures first { a.new.worker.forest ≡ a.old.worker.forest }
    ensures second { b.new.worker.forest ≡ b.old.worker.forest }
    ensures third { c.new.worker.forest ≡ c.old.worker.forest }
    ensures fourth { d.new.worker.forest ≡ d.old.worker.forest }
{
    join_mut(
        rt,
        &mut || two(rt, a, b, seed),
        &mut || two(rt, c, d, seed ^ 2),
    );
}

/// Four workers, of which the first is worker 0, and four others, which it takes in then.
fn beside_four<R: Threads + Sync + Abort + AllocGlobal>(
    rt: &R,
    a: &mut Driver,
    b: &mut Driver,
    c: &mut Driver,
    d: &mut Driver,
)
    ensures first { a.new.worker.forest ≡ a.old.worker.forest }
    ensures second { b.new.worker.forest ≡ b.old.worker.forest }
    ensures third { c.new.worker.forest ≡ c.old.worker.forest }
    ensures fourth { d.new.worker.forest ≡ d.old.worker.forest }
{
    let mut e = a.another(rt);
    let mut f = a.another(rt);
    let mut g = a.another(rt);
    let mut h = a.another(rt);
    join_mut(
        rt,
        &mut || four(rt, a, b, c, d, 8),
        &mut || four(rt, &mut e, &mut f, &mut g, &mut h, 80),
    );
    a.absorb(rt, e);
    a.absorb(rt, f);
    a.absorb(rt, g);
    a.absorb(rt, h);
}

#[test]
fn counts_are_what_8_workers_give_back(rt: HostRuntime) {
    let mut a = stocked(&rt, 8, 4, 2);
    let mut b = a.another(&rt);
    let mut c = a.another(&rt);
    let mut d = a.another(&rt);
    same(&rt, a.fill(&rt, 0, 0), Some(2), "fill");
    beside_four(&rt, &mut a, &mut b, &mut c, &mut d);
    a.absorb(&rt, b);
    a.absorb(&rt, c);
    a.absorb(&rt, d);
    same(&rt, a.empty(&rt, 0), true, "the first cell");
    same(&rt, a.empty(&rt, 1), true, "the second cell");
    same(&rt, a.close(&rt), 4, "close");
}

/// Writes down a step of a worker.
fn write_down(rt: &impl Abort, events: &mut Vec<Event>, worker: u32, taken: Taken) {
    match taken {
        Taken::Nothing => {}
        Taken::One(step) => events
            .push(Event { worker, step })
            .expect(rt, "there is memory"),
        Taken::Filled(cell, x) => {
            assert!(rt; x < 1000);
            let word = pack_cell(Op::And.tag(), x, x, x);
            for step in [
                Step::Up(x),
                Step::Up(x),
                Step::Up(x),
                Step::SwapCell(cell, word),
            ] {
                events
                    .push(Event { worker, step })
                    .expect(rt, "there is memory");
            }
        }
    }
}

/// How many references are of the name x.
fn times(driver: &Driver, x: u32) -> u64 {
    driver.references.iter().filter(|r| r.number() == x).count() as u64
}

/// Compares what a worker has with what it has in the machine.
fn compare(rt: &impl Abort, core: &Core, driver: &Driver, worker: u32, list: u32)
    requires sizes { core.now.sizes ≡ record { workers = 3; announcements = 4; names = 6; cells = 2; variables = 4 } }
    requires there { worker < 3 }
{
    for x in 2..6 {
        same(rt, core.held(worker, x), times(driver, x), list);
        let retired = driver
            .worker
            .retired_names()
            .iter()
            .filter(|y| **y == x)
            .count() as u64;
        same(rt, core.retired(worker, x), retired, list);
    }
}

/// 100 steps by chance of three workers, and each is written down.
fn walk(
    rt: &impl Abort,
    a: &mut Driver,
    b: &mut Driver,
    c: &mut Driver,
    chance: &mut Chance,
    events: &mut Vec<Event>,
)
    ensures first { a.new.worker.forest ≡ a.old.worker.forest }
    ensures second { b.new.worker.forest ≡ b.old.worker.forest }
    ensures third { c.new.worker.forest ≡ c.old.worker.forest }
{
    for _ in 0..100 {
        let worker = chance.below(3);
        let taken = match worker {
            0 => step(rt, a, chance),
            1 => step(rt, b, chance),
            _ => step(rt, c, chance),
        };
        write_down(rt, events, worker, taken);
    }
}

/// 50 steps by chance of worker 0 and of another one, and each is written down.
fn walk_on(
    rt: &impl Abort,
    a: &mut Driver,
    b: &mut Driver,
    number: u32,
    chance: &mut Chance,
    events: &mut Vec<Event>,
)
    ensures first { a.new.worker.forest ≡ a.old.worker.forest }
    ensures second { b.new.worker.forest ≡ b.old.worker.forest }
{
    for _ in 0..50 {
        if chance.below(2) == 0 {
            let taken = step(rt, a, chance);
            write_down(rt, events, 0, taken);
        } else {
            let taken = step(rt, b, chance);
            write_down(rt, events, number, taken);
        }
    }
}

/// What the machine has after these events.
fn after(rt: &(impl Abort + AllocGlobal), core: &Core, events: &[Event]) -> Core
    ensures { result.sizes ≡ core.now.sizes }
{
    assert!(rt; events.len() < 10_000);
    replay(rt.alloc(), core, events).expect(rt, "each step is allowed")
}

/// Writes down that a worker scans, and gives back what comes out of the scan.
fn write_scan(rt: &(impl Abort + AllocGlobal), core: &Core, events: &mut Vec<Event>, worker: u32)
    requires sizes { core.now.sizes ≡ record { workers = 3; announcements = 4; names = 6; cells = 2; variables = 4 } }
    requires there { worker < 3 }
{
    let before = after(rt, core, events);
    for _ in 0..12 {
        write_down(rt, events, worker, Taken::One(Step::ScanOne));
    }
    let scanned = after(rt, core, events);
    for x in 2..6 {
        let came = scanned
            .held(worker, x)
            .saturating_sub(before.held(worker, x));
        for _ in 0..came {
            write_down(rt, events, worker, Taken::One(Step::Down(x)));
        }
    }
}

/// A worker comes to rest, and its steps are written down.
fn come_to_rest(rt: &impl Abort, driver: &mut Driver, worker: u32, events: &mut Vec<Event>)
    ensures { driver.new.worker.forest ≡ driver.old.worker.forest }
{
    for _ in 0..12 {
        if driver.position != 0 {
            let taken = change(rt, driver, 4, 0, 0);
            write_down(rt, events, worker, taken);
        }
    }
    let taken = load(rt, driver, 4, 0);
    write_down(rt, events, worker, taken);
}

/// A worker takes another one in, and the steps are written down: both come to rest, scan and join.
fn take_in(
    rt: &(impl Abort + AllocGlobal),
    core: &Core,
    a: &mut Driver,
    number: u32,
    b: Driver,
    from: u32,
    events: &mut Vec<Event>,
)
    requires sizes { core.now.sizes ≡ record { workers = 3; announcements = 4; names = 6; cells = 2; variables = 4 } }
    requires there { (number < 3) × (from < 3) }
    requires forest { b.worker.forest ≡ a.old.worker.forest }
    ensures { a.new.worker.forest ≡ a.old.worker.forest }
{
    let mut b = b;
    come_to_rest(rt, a, number, events);
    come_to_rest(rt, &mut b, from, events);
    write_scan(rt, core, events, number);
    write_scan(rt, core, events, from);
    write_down(rt, events, number, Taken::One(Step::Join(from)));
    a.absorb(rt, b);
}

/// Worker 0 and another one go on, and are compared with the machine; then worker 0 takes the other
/// one in, and is compared alone.
fn compare_two(
    rt: &(impl Abort + AllocGlobal),
    core: &Core,
    a: Driver,
    b: Driver,
    number: u32,
    chance: &mut Chance,
    events: &mut Vec<Event>,
    list: u32,
)
    requires sizes { core.now.sizes ≡ record { workers = 3; announcements = 4; names = 6; cells = 2; variables = 4 } }
    requires there { number < 3 }
    requires forest { b.worker.forest ≡ a.worker.forest }
{
    let mut a = a;
    let mut b = b;
    walk_on(rt, &mut a, &mut b, number, chance, events);
    let two = after(rt, core, events);
    compare(rt, &two, &a, 0, list);
    compare(rt, &two, &b, number, list);
    take_in(rt, core, &mut a, 0, b, number, events);
    let one = after(rt, core, events);
    compare(rt, &one, &a, 0, list);
    same(rt, a.look(0), Some(one.cell(0)), list);
    same(rt, a.look(1), Some(one.cell(1)), list);
    same(rt, a.close(rt), 4, list);
}

/// Compares three workers after a list of steps with the machine after the same list, and two
/// workers after one of the three took another one in.
fn compare_list(rt: &(impl Abort + AllocGlobal), list: u32) {
    let core = Core::stocked(rt.alloc(), 3, 4, 2).expect(rt, "there is memory");
    let mut a = stocked(rt, 3, 4, 2);
    let mut b = a.another(rt);
    let mut c = a.another(rt);
    let mut events = Vec::new(rt.alloc());
    write_down(rt, &mut events, 0, Taken::One(Step::Split(1)));
    write_down(rt, &mut events, 0, Taken::One(Step::Split(2)));
    let mut chance = Chance { seed: list };
    walk(rt, &mut a, &mut b, &mut c, &mut chance, &mut events);
    let three = after(rt, &core, &events);
    compare(rt, &three, &a, 0, list);
    compare(rt, &three, &b, 1, list);
    compare(rt, &three, &c, 2, list);
    if list % 2 == 0 {
        take_in(rt, &core, &mut a, 0, b, 1, &mut events);
        compare_two(rt, &core, a, c, 2, &mut chance, &mut events, list);
    } else {
        take_in(rt, &core, &mut b, 1, c, 2, &mut events);
        compare_two(rt, &core, a, b, 1, &mut chance, &mut events, list);
    }
}

#[test]
fn running_steps_are_the_machines(rt: HostRuntime) {
    for list in 0..LISTS {
        compare_list(&rt, list);
    }
}

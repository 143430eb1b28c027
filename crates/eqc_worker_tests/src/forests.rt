//! The running words of a shared forest: what its steps answer, whatever the clauses leave open.

ghost use Rattle.std.specs.Prelude.{◌≡◌};

use crate::drivers::{Driver, Scan, bare, stocked};
use crate::ends::same;
use eqc_guard::fault::SplitFault;
use std::process::Abort;

/// The and of slot 2 with itself, which is slot 2, as the word of a cell.
const WORD: u64 = (1 << 60) + (2 << 40) + (2 << 20) + 2;

/// The literal of variable 0, which is in stripe 1, as the word of a node.
const LITERAL: u64 = 1;

/// Whether a scan, in a forest of two workers, ends with the last of their eight words, and this
/// many names come out.
fn has_scanned(rt: &impl Abort, driver: &mut Driver, wanted: usize) -> bool
    ensures { driver.new.worker.forest ≡ driver.old.worker.forest }
{
    for _ in 1..8 {
        match driver.scan_one(rt) {
            Scan::GoesOn => {}
            Scan::Refused | Scan::Ends(_) => return false,
        }
    }
    match driver.scan_one(rt) {
        Scan::Ends(came) => came == wanted,
        Scan::Refused | Scan::GoesOn => false,
    }
}

#[test]
fn a_name_that_was_scanned_is_missed(rt: HostRuntime) {
    let mut first = stocked(&rt, 2, 4, 1);
    let mut second = first.another(&rt);
    same(&rt, first.fill(&rt, 0, 0), Some(2), "fill");
    same(&rt, second.look(0), Some(WORD), "look");
    same(&rt, first.empty(&rt, 0), true, "empty");
    same(&rt, has_scanned(&rt, &mut first, 1), true, "scan");
    same(&rt, second.announce(), Some(2), "announce");
    same(&rt, second.recheck(), Some(false), "recheck");
    same(&rt, first.worker.held(), 7, "held");
    same(&rt, first.worker.outstanding(), 1, "outstanding");
    same(&rt, second.release(), true, "release");
    first.absorb(&rt, second);
    same(&rt, first.close(&rt), 4, "close");
}

#[test]
fn a_name_that_is_confirmed_stays(rt: HostRuntime) {
    let mut first = stocked(&rt, 2, 4, 1);
    let mut second = first.another(&rt);
    same(&rt, first.fill(&rt, 0, 0), Some(2), "fill");
    same(&rt, second.look(0), Some(WORD), "look");
    same(&rt, second.announce(), Some(2), "announce");
    same(&rt, second.recheck(), Some(true), "recheck");
    same(&rt, first.empty(&rt, 0), true, "empty");
    same(&rt, has_scanned(&rt, &mut first, 0), true, "scan");
    same(&rt, first.down(0), Some(2), "first down");
    same(&rt, first.down(0), Some(2), "second down");
    same(&rt, first.down(0), Some(2), "third down");
    same(&rt, first.worker.held(), 3, "held");
    same(
        &rt,
        first.worker.retired_names(),
        [2].as_slice(),
        "retired names",
    );
    same(&rt, second.up_confirmed(&rt), Some(2), "up confirmed");
    same(&rt, second.release(), true, "release");
    first.absorb(&rt, second);
    same(&rt, first.close(&rt), 4, "close");
}

#[test]
fn a_forest_has_its_number_of_workers(rt: HostRuntime) {
    let mut first = bare(&rt, 2);
    let second = first.another(&rt);
    same(&rt, second.worker.number(), 1, "number");
    same(&rt, second.worker.workers(), 2, "workers");
    match first.split(&rt) {
        Err(fault) => same(&rt, fault, SplitFault::NoneLeft, "third worker"),
        Ok(_) => panic!(rt; "two workers are all"),
    }
    let mut first = first.is_refused(&rt);
    first.absorb(&rt, second);
    same(&rt, first.close(&rt), 0, "close");
}

#[test]
fn a_literal_is_read_and_found_in_its_stripe(rt: HostRuntime) {
    let mut driver = stocked(&rt, 1, 4, 8);
    same(&rt, driver.worker.slots(), 4, "slots");
    same(&rt, driver.children(0), Some((0, 0, 1)), "children");
    same(
        &rt,
        driver.visit(&rt, 1, LITERAL),
        Some((1, Some(2))),
        "its stripe",
    );
    same(
        &rt,
        driver.visit(&rt, 0, LITERAL),
        Some((0, None)),
        "another stripe",
    );
    same(&rt, driver.claim_for_a_while(2), Some(false), "taken slot");
    same(&rt, driver.close(&rt), 4, "close");
}

#[test]
fn a_slot_that_was_given_up_is_free(rt: HostRuntime) {
    let mut driver = bare(&rt, 1);
    same(&rt, driver.worker.slots(), 4, "slots");
    same(&rt, driver.claim_for_a_while(3), Some(true), "claim");
    same(&rt, driver.claim_for_a_while(3), Some(true), "second claim");
    same(&rt, driver.close(&rt), 0, "close");
}

//! The operation cache of the shared forest: what no clause says, as that hits come while others
//! store.
ghost use Rattle.std.specs.Prelude.{◌≡◌};

use crate::drivers::{Driver, stocked};
use crate::ends::same;
use std::process::Abort;
use std::thread::{Threads, join_mut};

/// How often results are stored, and looked up.
const TURNS: u32 = 10_000;

#[test]
fn a_result_is_found_until_it_is_cleared(rt: HostRuntime) {
    let mut driver = stocked(&rt, 1, 4, 8);
    same(&rt, driver.worker.held(), 4, "held at first");
    same(&rt, driver.up(&rt, 0), Some(2), "up");
    same(&rt, driver.store(0), true, "store");
    same(&rt, driver.worker.held(), 5, "held beside the result");
    same(&rt, driver.lookup(&rt, 0), Some(2), "lookup");
    same(&rt, driver.worker.held(), 6, "held with the result");
    same(&rt, driver.clear(), true, "clear");
    same(&rt, driver.lookup(&rt, 0), None, "lookup after clear");
    same(&rt, driver.close(&rt), 4, "close");
}

/// Stores the and of a name with itself and clears the cache, over and over.
fn store_and_clear(driver: &mut Driver)
    ensures { driver.new.worker.forest ≡ driver.old.worker.forest }
{
    for _ in 0..TURNS {
        driver.store(0);
        driver.clear();
    }
}

/// Looks the and of a name with itself up, over and over, and counts the hits that are not slot 2.
fn look_up(rt: &impl Abort, driver: &mut Driver) -> u32
    ensures { driver.new.worker.forest ≡ driver.old.worker.forest }
{
    let mut wrong = 0;
    for _ in 0..TURNS {
        if let Some(found) = driver.lookup(rt, 0) {
            if found != 2 {
                wrong += 1;
            }
            driver.down(1);
        }
    }
    wrong
}

/// A worker takes a result out of the first cell, and holds it.
fn take(rt: &impl Abort, driver: &mut Driver)
    ensures { driver.new.worker.forest ≡ driver.old.worker.forest }
{
    same(rt, driver.acquire(0), Some(2), "acquire");
    same(rt, driver.up_confirmed(rt), Some(2), "up confirmed");
    driver.release();
}

#[test]
fn results_are_stored_and_found_at_once(rt: HostRuntime) {
    let mut first = stocked(&rt, 2, 4, 1);
    let mut second = first.another(&rt);
    same(&rt, first.fill(&rt, 0, 0), Some(2), "fill");
    take(&rt, &mut second);
    let (_, wrong) = join_mut(
        &rt,
        &mut || store_and_clear(&mut first),
        &mut || look_up(&rt, &mut second),
    );
    same(&rt, wrong, 0, "wrong");
    first.absorb(&rt, second);
    same(&rt, first.close(&rt), 4, "close");
}

//! Which products are shown equal by way of products that are made anew, as those that a mapping took
//! apart.

use crate::ends::same;
use crate::factors::Factors;
use crate::multipliers::{Architecture, product};
use eqc_adders::Limits;
use eqc_numbers::{Words, are_equal_anew, are_equal_as_made, are_equal_by_arrays, are_shown_equal};
use eqc_sweep::{Effort, Sweep};
use std::alloc::{AllocError, Global};

/// What is made anew: nothing, where both are looked at as they were made, products in the
/// architectures that two are most like, an array for both, or nothing, where what both add up to is
/// looked at once.
#[derive(Clone, Copy)]
enum Way {
    AsMade,
    Anew,
    Arrays,
    Once,
}

/// Whether two products of factors are shown equal, the second one of which may have an adder with
/// another carry.
fn shown(
    alloc: Global,
    factors: Factors,
    first: Architecture,
    second: Architecture,
    fault: usize,
    way: Way,
) -> Result<bool, AllocError> {
    let mut sweep = Sweep::new(alloc, Effort::none())?;
    let p = product(alloc, &mut sweep, factors, first, 0)?;
    let q = product(alloc, &mut sweep, factors, second, fault)?;
    let words = Words {
        alloc,
        firsts: &p,
        seconds: &q,
        limits: Limits::of(100_000),
    };
    match way {
        Way::AsMade => are_equal_as_made(&words, sweep.graph()),
        Way::Anew => are_equal_anew(&words, sweep.graph()),
        Way::Arrays => are_equal_by_arrays(&words, sweep.graph()),
        Way::Once => are_shown_equal(&words, sweep.graph(), 1),
    }
}

/// Products, their factors, their architectures, an adder with another carry, and whether they are
/// shown equal. Where both are as they were made none is made anew.
#[rattlefmt::skip]
static PRODUCTS: &[(&str, Factors, Architecture, Architecture, usize, bool)] = &[
    ("6 bits, mapped, against rows", Factors::Two(6), Architecture::Mapped, Architecture::Array, 0, true),
    ("8 bits, mapped, against recoded", Factors::Two(8), Architecture::Mapped, Architecture::Booth, 0, true),
    ("8 bits, recoded, against mapped", Factors::Two(8), Architecture::Booth, Architecture::Mapped, 0, true),
    ("6 bits, mapped, a wrong carry", Factors::Two(6), Architecture::Mapped, Architecture::Array, 16, false),
    ("6 bits, taken away, in mapped rows", Factors::TakenAway(6), Architecture::Rows, Architecture::Array, 0, true),
    ("6 bits, taken away, a wrong carry", Factors::TakenAway(6), Architecture::Rows, Architecture::Array, 16, false),
    ("8 bits, with signs, in mapped rows", Factors::Signed(8), Architecture::Rows, Architecture::Array, 0, true),
    ("6 bits, as they were made", Factors::Two(6), Architecture::Columns, Architecture::Array, 0, false),
];

#[test]
fn mapped_products_are_shown_equal(rt: HostRuntime) -> Result<(), AllocError> {
    for (case, factors, first, second, fault, is_shown) in PRODUCTS {
        let found = shown(rt.alloc(), *factors, *first, *second, *fault, Way::Anew)?;
        same(&rt, found, *is_shown, *case);
    }
    Ok(())
}

/// The same of products that get a look as they were made, which one that was mapped gets not.
#[rattlefmt::skip]
static AS_MADE: &[(&str, Factors, Architecture, Architecture, usize, bool)] = &[
    ("6 bits, recoded, against columns", Factors::Two(6), Architecture::Booth, Architecture::Columns, 0, true),
    ("8 bits, columns, against an array", Factors::Two(8), Architecture::Columns, Architecture::Array, 0, true),
    ("6 bits, a wrong carry", Factors::Two(6), Architecture::Columns, Architecture::Array, 16, false),
    ("8 bits, mapped, against rows", Factors::Two(8), Architecture::Mapped, Architecture::Array, 0, false),
];

#[test]
fn products_are_shown_equal_as_they_were_made(rt: HostRuntime) -> Result<(), AllocError> {
    for (case, factors, first, second, fault, is_shown) in AS_MADE {
        let found = shown(rt.alloc(), *factors, *first, *second, *fault, Way::AsMade)?;
        same(&rt, found, *is_shown, *case);
    }
    Ok(())
}

/// The same of products that are each compared with an array.
#[rattlefmt::skip]
static ARRAYS: &[(&str, Factors, Architecture, Architecture, usize, bool)] = &[
    ("6 bits, recoded, against columns", Factors::Two(6), Architecture::Booth, Architecture::Columns, 0, true),
    ("6 bits, a wrong carry", Factors::Two(6), Architecture::Columns, Architecture::Array, 16, false),
    ("6 bits, of words that are chosen", Factors::Chosen(6), Architecture::Columns, Architecture::Booth, 0, false),
];

#[test]
fn products_are_compared_with_arrays(rt: HostRuntime) -> Result<(), AllocError> {
    for (case, factors, first, second, fault, is_shown) in ARRAYS {
        let found = shown(rt.alloc(), *factors, *first, *second, *fault, Way::Arrays)?;
        same(&rt, found, *is_shown, *case);
    }
    Ok(())
}

/// The same of words times a number, where it is looked once at what they add up to.
#[rattlefmt::skip]
static TIMES: &[(&str, Factors, Architecture, Architecture, usize, bool)] = &[
    ("24 bits, times a number", Factors::Times(24, 0b101_0101_0101_0101), Architecture::Array, Architecture::Columns, 0, true),
    ("20 bits, times a number, by columns", Factors::Times(20, 0b1011_0111_0110_1101), Architecture::Columns, Architecture::Array, 0, true),
    ("24 bits, times a number, a wrong carry", Factors::Times(24, 0b1_0000_1000_0001), Architecture::Columns, Architecture::Array, 60, false),
];

#[test]
fn words_times_a_number_are_shown_equal(rt: HostRuntime) -> Result<(), AllocError> {
    for (case, factors, first, second, fault, is_shown) in TIMES {
        let found = shown(rt.alloc(), *factors, *first, *second, *fault, Way::Once)?;
        same(&rt, found, *is_shown, *case);
    }
    Ok(())
}

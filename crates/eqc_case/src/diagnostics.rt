//! What is told of a run that gave no verdict, beside its report.
ghost use Rattle.eqc_case.specs.Diagnosed.{IsLocated, IsBordered};
ghost use Rattle.eqc_case.specs.Left.{IsStopToldOf};
ghost use Rattle.eqc_case.specs.Sources.{given_of};

use crate::given::Case;
use eqc_blif::Library;
use eqc_pair::{Finding, Pair, Side};
use eqc_place::{Border, Places};
use eqc_report::{Differences, Undecided};
use eqc_tree::Stop;
use std::io;

/// A netlist that is compared: its text, the models of that, and the number of its own.
#[derive(Clone, Copy)]
pub struct Netlist<'a> {
    pub text: &'a [u8],
    pub library: &'a Library,
    pub model: usize,
}

/// What is compared: a pair, and the netlists that it is made of.
#[derive(Clone, Copy)]
pub struct Compared<'a> {
    pub pair: &'a Pair<'a>,
    pub first: Netlist<'a>,
    pub second: Netlist<'a>,
}

/// The places at which an output of a pair begins to differ, and the other outputs that may begin
/// to differ at one of them.
#[derive(Clone, Copy)]
pub struct Located<'a> {
    pub compared: Compared<'a>,
    pub output: &'a [u8],
    /// The values of the first netlist's inputs under which it differs.
    pub values: &'a [bool],
    pub places: &'a Places,
    /// That place by its position among them.
    pub shared: usize,
    /// The others by their positions among the differences.
    pub others: &'a [usize],
    pub differences: &'a Differences,
}

/// Up to where two netlists are known to be equal, below outputs that a run left undecided.
#[derive(Clone, Copy)]
pub struct Bordered<'a> {
    pub compared: Compared<'a>,
    pub border: &'a Border,
}

/// Is told why a run gave no verdict, once and after its report was written, if it has one; and
/// where differences begin.
pub trait Diagnostics {
    /// The text of this side was refused, at a line that counts from 1, or at none (0). There is no
    /// finding for a latch.
    fn text(&mut self, side: Side, line: u32, finding: Option<&eqc_blif::Finding>);

    /// The text of this side has these models, and none of the name, or at the place, that is
    /// wanted.
    fn models(&mut self, side: Side, library: &Library);

    /// The hierarchy of this side was refused.
    fn hierarchy(&mut self, side: Side, library: &Library, finding: &eqc_flat::Finding<'_>);

    /// The two netlists make no pair, or the names of outputs, the order text or the assumption are
    /// refused for them.
    fn pair(&mut self, finding: &Finding<'_>);

    /// No assignment of the inputs meets the assumption.
    fn vacuous(&mut self);

    /// An option was refused by this code, 81 to 86.
    fn option(&mut self, code: u8);

    /// The run was stopped.
    fn stopped(&mut self, stop: Stop);

    /// The outputs that a run left undecided which was stopped for this, of what was read for it:
    /// none where it came to no comparison. It isn't called where nothing was read.
    fn undecided(&mut self, stop: Stop, case: &Case<'_>, left: &Undecided)
        requires { IsStopToldOf (given_of case.now) stop left.now };

    /// The text of this side could not be read.
    fn unread(&mut self, side: Side, error: &io::Error);

    /// The report could not be written whole.
    fn unwritten(&mut self, error: &io::Error);

    /// Whether it is to be told where differences begin.
    fn wants_places(&self) -> bool;

    /// Where some of the differences begin that the report tells: first those that most outputs
    /// share. What is told of a place is so under the values under which the output differs, and
    /// each partner is proved to be one.
    fn places(&mut self, located: &Located<'_>)
        requires { IsLocated located.now };

    /// For so many of the differences no place was looked for.
    fn unplaced(&mut self, count: usize);

    /// Memory was refused, and not all differences were told of, or not up to where equality is
    /// known.
    fn unlocated(&mut self);

    /// Whether it is to be told up to where equality is known, where a run was stopped that left
    /// outputs undecided.
    fn wants_border(&self) -> bool;

    /// Up to where the netlists are known to be equal. Each signal and its partner are proved to be
    /// equal, or opposite.
    fn border(&mut self, bordered: &Bordered<'_>)
        requires { IsBordered bordered.now };
}

/// Is told nothing.
#[derive(Drop)]
pub struct NoDiagnostics;

impl Diagnostics for NoDiagnostics {
    fn text(&mut self, _side: Side, _line: u32, _finding: Option<&eqc_blif::Finding>) {}

    fn models(&mut self, _side: Side, _library: &Library) {}

    fn hierarchy(&mut self, _side: Side, _library: &Library, _finding: &eqc_flat::Finding<'_>) {}

    fn pair(&mut self, _finding: &Finding<'_>) {}

    fn vacuous(&mut self) {}

    fn option(&mut self, _code: u8) {}

    fn stopped(&mut self, _stop: Stop) {}

    fn undecided(&mut self, _stop: Stop, _case: &Case<'_>, _left: &Undecided) {}

    fn unread(&mut self, _side: Side, _error: &io::Error) {}

    fn unwritten(&mut self, _error: &io::Error) {}

    fn wants_places(&self) -> bool {
        false
    }

    fn places(&mut self, _located: &Located<'_>) {}

    fn unplaced(&mut self, _count: usize) {}

    fn unlocated(&mut self) {}

    fn wants_border(&self) -> bool {
        false
    }

    fn border(&mut self, _bordered: &Bordered<'_>) {}
}

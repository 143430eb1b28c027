//! Of how many outputs of a pair something holds.
ghost use Rattle.std.specs.Prelude.{◌≡◌, ℕ, ◌<◌, Bool, length};
ghost use Rattle.eqc_pair.specs.PairOf.{PairOf};
ghost use Rattle.eqc_report.specs.Left.{is_compared, is_compared_in, is_left, is_left_in, is_alone, count_of};

use crate::undecided::word::{Word, has_number, is_of_any};
use eqc_pair::Pair;

/// What may hold of an output.
pub(crate) trait Test {
    ghost test: { Self → PairOf → ℕ → Bool };

    /// Whether it holds of an output of the first netlist.
    fn holds(&self, pair: &Pair<'_>, output: usize) -> bool
        requires { output < length pair.now.first.outputs }
        ensures { result ≡ test self.now pair.now output };
}

/// An output is compared.
#[derive(Clone, Copy)]
pub(crate) struct Compared;

impl Test for Compared {
    ghost test = { λ _ p. is_compared p };

    fn holds(&self, pair: &Pair<'_>, output: usize) -> bool {
        pair.is_chosen(output)
    }
}

/// An output is compared, and of a word: its name begins and ends so.
#[derive(Clone, Copy)]
pub(crate) struct ComparedIn<'a> {
    pub before: &'a [u8],
    pub after: &'a [u8],
}

impl Test for ComparedIn<'_> {
    ghost test = { λ t p. is_compared_in p t.before.now t.after.now };

    fn holds(&self, pair: &Pair<'_>, output: usize) -> bool {
        let name = pair.first().outputs()[output].as_bytes();
        pair.is_chosen(output) && has_number(name, self.before, self.after)
    }
}

/// An output is left: it is compared, and not marked.
#[derive(Clone, Copy)]
pub(crate) struct IsLeft<'a> {
    pub marks: &'a [bool],
}

impl Test for IsLeft<'_> {
    ghost test = { λ t p. is_left p t.marks.now };

    fn holds(&self, pair: &Pair<'_>, output: usize) -> bool {
        pair.is_chosen(output) && !self.marks.get(output).copied().unwrap_or(false)
    }
}

/// An output is left, and of a word: its name begins and ends so.
#[derive(Clone, Copy)]
pub(crate) struct LeftIn<'a> {
    pub left: IsLeft<'a>,
    pub before: &'a [u8],
    pub after: &'a [u8],
}

impl Test for LeftIn<'_> {
    ghost test = { λ t p. is_left_in p t.left.marks.now t.before.now t.after.now };

    fn holds(&self, pair: &Pair<'_>, output: usize) -> bool {
        let name = pair.first().outputs()[output].as_bytes();
        self.left.holds(pair, output) && has_number(name, self.before, self.after)
    }
}

/// An output is left, and of none of these words.
#[derive(Clone, Copy)]
pub(crate) struct Alone<'a> {
    pub left: IsLeft<'a>,
    pub words: &'a [Word],
}

impl Test for Alone<'_> {
    ghost test = { λ t p. is_alone p t.left.marks.now t.words.now };

    fn holds(&self, pair: &Pair<'_>, output: usize) -> bool {
        let name = pair.first().outputs()[output].as_bytes();
        self.left.holds(pair, output) && !is_of_any(name, self.words)
    }
}

/// Of how many outputs a test holds.
pub(crate) fn count<T: Test>(pair: &Pair<'_>, test: &T) -> usize
    ensures { result ≡ count_of pair.now (T.test test.now pair.now) }
{
    let mut count = 0usize;
    for output in 0..pair.first().outputs().len() {
        if test.holds(pair, output) {
            count += 1;
        }
    }
    count
}

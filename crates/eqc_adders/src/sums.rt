//! Words that are shown equal by sums.
ghost use Rattle.std.specs.Prelude.{◌≡◌, IfOk, IsTrue};
ghost use Rattle.eqc_xag.specs.Graph.{Extends};
ghost use Rattle.eqc_sums.specs.Forms.{Keeps};
ghost use Rattle.eqc_sums.specs.Adding.{AreEqualWords};

use crate::adders::Adders;
use crate::choice::Choice;
use crate::columns::Columns;
use crate::inner::{Lookalikes, inner_words};
use crate::moves::{Move, apply};
use eqc_sums::Reduction;
use eqc_sweep::{Effort, Sweep};
use eqc_xag::Literal;
use std::alloc::{AllocError, Global};

/// Which attempts there are to show a pair of words equal.
#[derive(Clone, Copy, PartialEq, Eq, Debug)]
pub enum Attempts {
    /// The first alone, which takes least: where a word adds up several products in a large graph,
    /// also the one with more adders, which comes before it.
    First,
    /// None that takes long, and mostly fails where the others did.
    Brief,
    All,
}

/// What may be done to find adders, and for a pair of words.
#[derive(Clone, Copy, PartialEq, Eq, Debug)]
pub struct Limits {
    /// Steps.
    pub steps: u32,
    /// Terms of a form.
    pub terms: usize,
    /// The most conflicts of a question.
    pub question: u64,
    /// Conflicts of all questions about nodes of a form.
    pub conflicts: u64,
    /// The work of all questions about nodes that are made, as for an `Effort`, and of the looks at
    /// nodes when steps are chosen.
    pub work: u64,
    /// Which attempts there are.
    pub attempts: Attempts,
}

/// What there may be for each hundred thousand conflicts.
const USUAL: Limits = Limits {
    steps: 60_000,
    terms: 20_000,
    question: 3_000,
    conflicts: 100_000,
    work: 200_000_000,
    attempts: Attempts::All,
};

impl Limits {
    /// In proportion to the conflicts that a run may have.
    pub fn of(conflicts: u64) -> Limits {
        let part = conflicts.min(USUAL.conflicts);
        Limits {
            question: USUAL.question.min(conflicts),
            conflicts,
            work: (USUAL.work / USUAL.conflicts).saturating_mul(part),
            ..USUAL
        }
    }

    /// What new nodes are asked with.
    fn effort(&self) -> Effort {
        Effort::of(self.question, self.work)
    }
}

/// A graph whose adders were looked for.
#[derive(Drop)]
pub struct Sums {
    alloc: Global,
    reduction: Reduction,
    adders: Adders,
    /// How many nodes may still be looked at for the words that are shown.
    looks: u64,
}

/// How many inputs of a node are few: at first, and where that fails.
const FEW: usize = 6;

const MORE: usize = 8;

const FEWER: usize = 4;

/// How many are few where a word is taken down to what it adds up: all that is above conjunctions
/// of two inputs is taken for an adder.
const LEAST: usize = 2;

/// What a column is compared with may take this part of a pair's conflicts.
const MEETINGS: u64 = 5;

/// A graph of so many nodes is large.
const LARGE: u32 = 16_000;

/// An attempt that may well be in vain has this part of the looks.
const BRIEF: u64 = 2;

/// The first one has this part of a pair's conflicts, and so have those in which one word is added up
/// as the other one is: what they show they mostly show with few questions.
const FIRST: u64 = 16;

/// The work of a look at whether a sum or a carry is among the nodes.
const LOOK: u64 = 10;

/// So many looks at terms for a step are one of work: a product of 64 bits takes some 300 million.
const LOOKS: u64 = 5;

/// How two words are shown equal.
#[derive(Clone, Copy)]
enum Way {
    /// Both are taken down to what they add up.
    Down,
    /// The second one is, and that is added up as the first one does it.
    AsFirst,
    /// The first one is, and that is added up as the second one does it.
    AsSecond,
}

/// Whether some nodes of a graph look like adders. Nothing is promised of it: it is a look that
/// takes little time. Fails where memory is refused.
pub fn has_adders(alloc: Global, sweep: &Sweep) -> Result<bool, AllocError> {
    Adders::new(alloc, FEW, false, u32::MAX).has_some(sweep)
}

#[tactic(auto, using(eqc_sums::proofs::KeepLemmas::keeps_itself, eqc_sums::proofs::KeepLemmas::keeps_along, eqc_sums::proofs::KeepLemmas::keeps_same))]
/// Does a step, with so many conflicts at most for a question, and takes in what came of it.
fn do_step(
    choice: &mut Choice,
    reduction: &mut Reduction,
    adders: &mut Adders,
    step: Move,
    conflicts: &mut u64,
) -> Result<(), AllocError>
    ensures { Keeps reduction.old.sweep reduction.new.sweep reduction.old.form reduction.new.form }
{
    apply(reduction, step, conflicts)?;
    adders.find_more(reduction)?;
    let are_plain = match step {
        Move::Expand(_, _, _) => true,
        _ => false,
    };
    choice.sync(reduction, adders, are_plain)
}

#[tactic(auto, using(eqc_sums::proofs::KeepLemmas::keeps_itself, eqc_sums::proofs::KeepLemmas::keeps_along, eqc_sums::proofs::KeepLemmas::keeps_same))]
/// Adds the steps that are chosen to a form, until it is zero or there is none.
fn reduce_by(
    choice: &mut Choice,
    reduction: &mut Reduction,
    adders: &mut Adders,
    lowest: u32,
    limits: Limits,
) -> Result<(), AllocError>
    ensures { Keeps reduction.old.sweep reduction.new.sweep reduction.old.form reduction.new.form }
{
    let mut conflicts = limits.conflicts;
    choice.sync(reduction, adders, false)?;
    'steps: for _step in 0..limits.steps {
        let nodes = reduction.sweep().graph().len();
        if choice.len() == 0 || choice.len() > limits.terms || nodes > adders.most() {
            return Ok(());
        }
        let Some(next) = choice.next(reduction, adders, lowest) else {
            return Ok(());
        };
        let given = conflicts.min(limits.question);
        let mut left = given;
        do_step(choice, reduction, adders, next, &mut left)?;
        conflicts = conflicts.saturating_sub(given.saturating_sub(left));
    }
    Ok(())
}

/// The place of a word's lowest literal in a form.
fn lowest_of(word: &[Literal]) -> u32 {
    128u32.saturating_sub(word.len().min(128) as u32)
}

#[tactic(auto, using(eqc_sums::proofs::KeepLemmas::keeps_itself, eqc_sums::proofs::KeepLemmas::keeps_along, eqc_sums::proofs::KeepLemmas::keeps_same))]
/// Adds steps to a form that leave a word as it is, which is taken away from the other one or not,
/// and adds up what is left besides as the nodes below that word do it.
fn rebuild(
    alloc: Global,
    choice: &mut Choice,
    reduction: &mut Reduction,
    adders: &mut Adders,
    kept: (&[Literal], bool),
    limits: Limits,
) -> Result<(), AllocError>
    ensures { Keeps reduction.old.sweep reduction.new.sweep reduction.old.form reduction.new.form }
{
    let (word, _is_second) = kept;
    let lowest = lowest_of(word);
    choice.keep(word, reduction.sweep().graph().len())?;
    reduce_by(choice, reduction, adders, lowest, limits)?;
    reduction.ask_again(limits.effort())?;
    let graph = reduction.sweep().graph();
    let mut columns = Columns::new(alloc, graph, kept, lowest, limits.work / LOOK)?;
    if !columns.take(reduction.form(), adders, word)? {
        return Ok(());
    }
    columns.add_up(reduction, word, limits.conflicts / MEETINGS)
}

#[tactic(auto, using(eqc_sums::proofs::KeepLemmas::keeps_itself, eqc_sums::proofs::KeepLemmas::keeps_along, eqc_sums::proofs::KeepLemmas::keeps_same))]
/// Adds steps to a form that compares two words, until it is zero or none is found.
fn reduce(
    alloc: Global,
    choice: &mut Choice,
    reduction: &mut Reduction,
    adders: &mut Adders,
    words: (&[Literal], &[Literal], Way),
    limits: Limits,
) -> Result<(), AllocError>
    ensures { Keeps reduction.old.sweep reduction.new.sweep reduction.old.form reduction.new.form }
{
    let (ps, qs, way) = words;
    match way {
        Way::Down => reduce_by(choice, reduction, adders, lowest_of(ps), limits),
        Way::AsFirst => rebuild(alloc, choice, reduction, adders, (ps, false), limits),
        Way::AsSecond => rebuild(alloc, choice, reduction, adders, (qs, true), limits),
    }
}

impl Sums {
    /// Looks for adders in a graph.
    pub fn new(alloc: Global, sweep: Sweep) -> Sums
        ensures { result.reduction.sweep ≡ sweep }
    {
        Sums {
            alloc,
            reduction: Reduction::new(alloc, sweep),
            adders: Adders::new(alloc, FEW, false, u32::MAX),
            looks: 0,
        }
    }

    /// The graph.
    pub fn into_sweep(self) -> Sweep
        ensures { result ≡ self.reduction.sweep }
    {
        self.reduction.into_sweep()
    }

    /// The graph as it is.
    pub fn sweep(&self) -> &Sweep
        ensures { result.now ≡ self.now.reduction.sweep }
    {
        self.reduction.sweep()
    }

    /// Looks for adders among all nodes that there are, within these limits. Fails where memory is
    /// refused.
    pub fn find_adders(&mut self, limits: Limits) -> Result<(), AllocError>
        ensures { Extends self.old.reduction.sweep self.new.reduction.sweep }
    {
        self.reduction.ask_again(limits.effort())?;
        self.adders.find(&mut self.reduction)?;
        self.reduction.ask_again(limits.effort())
    }

    /// Looks for adders also by their carries, where nothing depends on the sum: it is made. Fails
    /// where memory is refused.
    pub fn find_carries(&mut self) -> Result<(), AllocError>
        ensures { Extends self.old.reduction.sweep self.new.reduction.sweep }
    {
        self.adders.find_by_carries(&mut self.reduction)
    }

    /// Words inside two netlists that look alike, of what these literals of each are made of, by
    /// the adders that were found. Nothing is promised of them. Fails where memory is refused.
    pub fn inner_words(
        &self,
        firsts: &[Literal],
        seconds: &[Literal],
    ) -> Result<Vec<Lookalikes>, AllocError> {
        inner_words(
            self.alloc,
            self.reduction.sweep(),
            &self.adders,
            firsts,
            seconds,
        )
    }

    #[tactic(auto, using(eqc_sums::proofs::GateLemmas::extends_both))]
    /// Whether two words of literals, the lowest first, are shown equal, within these limits. Words
    /// of unequal length, of none or of more than 128 literals aren't. Fails where memory is
    /// refused.
    pub fn show(
        &mut self,
        ps: &[Literal],
        qs: &[Literal],
        limits: Limits,
    ) -> Result<bool, AllocError>
        ensures extends { Extends self.old.reduction.sweep self.new.reduction.sweep }
        ensures equal { IfOk result (λ is. IsTrue is → AreEqualWords self.new.reduction.sweep ps.now qs.now) }
    {
        self.looks = limits.work.saturating_mul(LOOKS);
        let brief = Limits {
            conflicts: limits.conflicts / FIRST,
            ..limits
        };
        if self.is_of_several(ps) && self.attempt_briefly(ps, qs, limits)? {
            return Ok(true);
        }
        if self.attempt(ps, qs, (FEW, false), brief)? {
            return Ok(true);
        }
        if limits.attempts == Attempts::First {
            return Ok(false);
        }
        self.take_kind((LEAST, true), limits)?;
        if self.shown_as_one(ps, qs, brief)? {
            return Ok(true);
        }
        Ok(limits.attempts == Attempts::All && self.shown_at_last(ps, qs, limits)?)
    }

    #[tactic(auto, using(eqc_sums::proofs::GateLemmas::extends_both))]
    /// Whether two words are shown equal where one is added up as the other one is.
    fn shown_as_one(
        &mut self,
        ps: &[Literal],
        qs: &[Literal],
        limits: Limits,
    ) -> Result<bool, AllocError>
        ensures extends { Extends self.old.reduction.sweep self.new.reduction.sweep }
        ensures equal { IfOk result (λ is. IsTrue is → AreEqualWords self.new.reduction.sweep ps.now qs.now) }
    {
        if self.shown(ps, qs, Way::AsSecond, limits)? {
            return Ok(true);
        }
        self.shown(ps, qs, Way::AsFirst, limits)
    }

    #[tactic(auto, using(eqc_sums::proofs::GateLemmas::extends_both))]
    /// Whether two words are shown equal where one is added up as the other one is, or it is asked for
    /// many carries: that takes longest, and mostly fails where other attempts did.
    fn shown_at_last(
        &mut self,
        ps: &[Literal],
        qs: &[Literal],
        limits: Limits,
    ) -> Result<bool, AllocError>
        ensures extends { Extends self.old.reduction.sweep self.new.reduction.sweep }
        ensures equal { IfOk result (λ is. IsTrue is → AreEqualWords self.new.reduction.sweep ps.now qs.now) }
    {
        if self.shown_as_one(ps, qs, limits)? || self.attempt(ps, qs, (FEW, true), limits)? {
            return Ok(true);
        }
        if self.attempt(ps, qs, (MORE, true), limits)? {
            return Ok(true);
        }
        self.attempt(ps, qs, (FEWER, true), limits)
    }

    /// Whether a word looks like a sum of several products, in a graph so large that attempts in
    /// vain take long: one product has as many literals as its factors have together, of which some
    /// may be known to be equal.
    fn is_of_several(&self, word: &[Literal]) -> bool {
        let inputs = self.adders.inputs();
        self.reduction.sweep().graph().len() >= LARGE
            && inputs > word.len().saturating_add(word.len() / 4)
    }

    #[tactic(auto, using(eqc_sums::proofs::GateLemmas::extends_both))]
    /// Whether two words are shown equal where it is asked for many carries, with a part of the
    /// looks that are left, which are left behind it too.
    fn attempt_briefly(
        &mut self,
        ps: &[Literal],
        qs: &[Literal],
        limits: Limits,
    ) -> Result<bool, AllocError>
        ensures extends { Extends self.old.reduction.sweep self.new.reduction.sweep }
        ensures equal { IfOk result (λ is. IsTrue is → AreEqualWords self.new.reduction.sweep ps.now qs.now) }
    {
        let looks = self.looks;
        self.looks = looks / BRIEF;
        let is_shown = self.attempt(ps, qs, (FEW, true), limits)?;
        self.looks = looks;
        let _ = self.reduction.sweep().graph().len();
        Ok(is_shown)
    }

    /// Looks for adders anew where others are known than those for which so many inputs are few,
    /// and it is asked for many carries or not.
    fn take_kind(&mut self, kind: (usize, bool), limits: Limits) -> Result<(), AllocError>
        ensures { Extends self.old.reduction.sweep self.new.reduction.sweep }
    {
        if self.adders.kind() != kind {
            let first = self.adders.first();
            self.adders = Adders::new(self.alloc, kind.0, kind.1, first);
            self.find_adders(limits)?;
        }
        Ok(())
    }

    #[tactic(auto, using(eqc_sums::proofs::GateLemmas::extends_both))]
    /// Whether two words are shown equal where so many inputs are few, and it is asked for many
    /// carries or not.
    fn attempt(
        &mut self,
        ps: &[Literal],
        qs: &[Literal],
        kind: (usize, bool),
        limits: Limits,
    ) -> Result<bool, AllocError>
        ensures extends { Extends self.old.reduction.sweep self.new.reduction.sweep }
        ensures equal { IfOk result (λ is. IsTrue is → AreEqualWords self.new.reduction.sweep ps.now qs.now) }
    {
        self.take_kind(kind, limits)?;
        self.shown(ps, qs, Way::Down, limits)
    }

    /// Whether two words are shown equal by the adders that are known.
    fn shown(
        &mut self,
        ps: &[Literal],
        qs: &[Literal],
        way: Way,
        limits: Limits,
    ) -> Result<bool, AllocError>
        ensures extends { Extends self.old.reduction.sweep self.new.reduction.sweep }
        ensures equal { IfOk result (λ is. IsTrue is → AreEqualWords self.new.reduction.sweep ps.now qs.now) }
    {
        if !self.reduction.begin(ps, qs)? {
            return Ok(false);
        }
        self.adders.begin(self.reduction.sweep().graph().len());
        let mut choice = Choice::new(self.alloc, self.looks);
        let reduction = &mut self.reduction;
        let adders = &mut self.adders;
        reduce(
            self.alloc,
            &mut choice,
            reduction,
            adders,
            (ps, qs, way),
            limits,
        )?;
        self.looks = choice.looks();
        let _ = self.reduction.sweep().graph().len();
        Ok(self.reduction.form().is_zero())
    }
}

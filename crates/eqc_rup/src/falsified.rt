//! The literals that are taken to be false.
ghost use Rattle.std.specs.Prelude.{◌≡◌, ℕ, [], ◌∷◌, ◌++◌, true, IsTrue, OnOk};
ghost use Rattle.eqc_rup.specs.Checking.{has, AreComplements};

use eqc_xag::{Literal, negated};
use std::alloc::{AllocError, Global};
use std::marker::Model;

/// Literals that are taken to be false, in the order in which they were. Those that there is room
/// for are found again.
#[derive(Drop)]
pub(crate) struct Falsified {
    marks: Vec<bool>,
    trail: Vec<Literal>,
}

impl Model for Falsified {
    ghost use Rattle.std.specs.Prelude.{List, ℕ};
    ghost use Rattle.eqc_rup.specs.Checking.{AreMarked};

    ghost Value = { List ℕ };

    ghost view = { λ f. f.trail.items };

    ghost invariant = { λ f. AreMarked f.marks.items f.trail.items };
}

impl Falsified {
    /// Nothing is false.
    pub(crate) fn new(alloc: Global) -> Falsified
        ensures { result ≡ [] }
    {
        Falsified {
            marks: Vec::new(alloc),
            trail: Vec::new(alloc),
        }
    }

    /// Makes room for the literals below `size`.
    pub(crate) fn make_room(&mut self, size: usize) -> Result<(), AllocError>
        ensures { self.new ≡ self.old }
    {
        if self.marks.len() < size {
            self.marks.resize(size, false)?;
        }
        Ok(())
    }

    /// Whether the literal is found among those that are false.
    pub(crate) fn is_false(&self, l: Literal) -> bool
        ensures { IsTrue result → has self.now l ≡ true }
    {
        match self.marks.get(l as usize) {
            Some(mark) => *mark,
            None => false,
        }
    }

    /// Takes the literal to be false.
    pub(crate) fn set_false(&mut self, l: Literal) -> Result<(), AllocError>
        ensures { OnOk result (self.new ≡ self.old ++ l ∷ []) }
    {
        self.trail.push(l)?;
        let at = l as usize;
        if at < self.marks.len() {
            self.marks[at] = true;
        }
        Ok(())
    }

    /// Takes each of the literals to be false.
    pub(crate) fn set_all_false(&mut self, literals: &[Literal]) -> Result<(), AllocError>
        requires { self.old ≡ [] }
        ensures { OnOk result (self.new ≡ literals.now) }
    {
        for l in literals {
            self.set_false(*l)?;
        }
        Ok(())
    }

    /// Takes each of the literals to be true.
    pub(crate) fn set_all_true(&mut self, literals: &[Literal]) -> Result<(), AllocError>
        requires { self.old ≡ [] }
        ensures { OnOk result (AreComplements self.new literals.now) }
    {
        for l in literals {
            self.set_false(negated(*l))?;
        }
        Ok(())
    }

    /// Takes all of it back, in the time in which it was set.
    pub(crate) fn clear(&mut self)
        ensures { self.new ≡ [] }
    {
        'undo: while let Some(l) = self.trail.pop() {
            let at = l as usize;
            if at < self.marks.len() {
                self.marks[at] = false;
            }
        }
    }
}

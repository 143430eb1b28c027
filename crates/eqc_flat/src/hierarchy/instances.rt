//! The instances below a main model in a row, each with its model, its parent and its first signal,
//! up to a limit.
ghost use Rattle.std.specs.Prelude.{◌≡◌, ◌+◌, ◌<◌, ◌≤◌, ◌++◌, ◌∷◌, [], length, vec_len, true, false, IfOk, MatchOption};
ghost use Rattle.eqc_hierarchy.specs.Hierarchy.{paths};
ghost use Rattle.eqc_hierarchy.specs.Codes.{is_too_large};
ghost use Rattle.eqc_flat.specs.Instances.{first_below, IsGrowing, IsFound};

use eqc_hierarchy::{Calls, Naming};
use std::alloc::{AllocError, Global};

/// How many flat signals and instances there may be together, where the main model is no instance.
pub(crate) const LIMIT: usize = 1_048_576;

/// The instances of a main model, numbered in the order in which they are found: the main model is
/// the first, and those right below an instance come after those right below the instances before
/// it.
#[derive(Drop)]
pub(crate) struct Instances {
    /// The main model.
    pub(crate) top: usize,
    /// The model of each instance.
    pub(crate) models: Vec<usize>,
    /// The number of the first signal of each instance.
    pub(crate) firsts: Vec<usize>,
    /// The parent of each instance but the main model, and its position there.
    pub(crate) places: Vec<(u32, u32)>,
    /// The number of signals.
    pub(crate) signals: usize,
}

impl Instances {
    /// The main model alone, or none where it has too many signals. Fails where memory is refused.
    fn root(alloc: Global, naming: &Naming<'_>, top: usize) -> Result<Option<Instances>, AllocError>
        requires growing { IsGrowing naming.now top }
        ensures { IfOk result (λ found. MatchOption found
            (is_too_large naming.now top ≡ true)
            (λ all. (all.top ≡ top) × IsFound naming.now top 1 all.models.items all.firsts.items all.places.items all.signals)) }
    {
        let signals = naming.count(top);
        if signals > LIMIT {
            return Ok(None);
        }
        let mut models = Vec::new(alloc);
        models.push(top)?;
        let mut firsts = Vec::new(alloc);
        firsts.push(0)?;
        Ok(Some(Instances {
            top,
            models,
            firsts,
            places: Vec::new(alloc),
            signals,
        }))
    }

    /// Puts in an instance of a model with so many names, at a place. Answers false, and changes
    /// nothing, where there would be too many signals and instances. Fails where memory is refused.
    fn push(&mut self, model: usize, names: usize, place: (u32, u32)) -> Result<bool, AllocError>
        requires few { self.old.signals + vec_len self.old.places ≤ 1048576 }
        ensures top { self.new.top ≡ self.old.top }
        ensures many { IfOk result (λ fits. fits ≡ false → 1048576 < self.old.signals + vec_len self.old.places + 1 + names) }
        ensures few { IfOk result (λ fits. fits ≡ true → self.old.signals + vec_len self.old.places + 1 + names ≤ 1048576) }
        ensures models { IfOk result (λ fits. fits ≡ true → self.new.models.items ≡ self.old.models.items ++ model ∷ []) }
        ensures firsts { IfOk result (λ fits. fits ≡ true → self.new.firsts.items ≡ self.old.firsts.items ++ self.old.signals ∷ []) }
        ensures places { IfOk result (λ fits. fits ≡ true → self.new.places.items ≡ self.old.places.items ++ place ∷ []) }
        ensures signals { IfOk result (λ fits. fits ≡ true → self.new.signals ≡ self.old.signals + names) }
    {
        let used = self.signals + self.places.len();
        if used >= LIMIT || names > LIMIT - used - 1 {
            return Ok(false);
        }
        self.models.push(model)?;
        self.firsts.push(self.signals)?;
        self.places.push(place)?;
        self.signals += names;
        Ok(true)
    }

    /// Puts in the instances right below instance `k`. Answers false where there would be too many
    /// signals and instances. Fails where memory is refused.
    fn open(&mut self, calls: &Calls<'_>, naming: &Naming<'_>, k: usize) -> Result<bool, AllocError>
        requires same { naming.now ≡ calls.now }
        requires growing { IsGrowing calls.now self.old.top }
        requires top { self.old.top ≤ length calls.now }
        requires here { k < vec_len self.old.models }
        requires found { IsFound calls.now self.old.top (first_below calls.now self.old.top k) self.old.models.items self.old.firsts.items self.old.places.items self.old.signals }
        ensures top { self.new.top ≡ self.old.top }
        ensures many { IfOk result (λ fits. fits ≡ false → is_too_large calls.now self.old.top ≡ true) }
        ensures found { IfOk result (λ fits. fits ≡ true → IsFound calls.now self.old.top (first_below calls.now self.old.top (k + 1)) self.new.models.items self.new.firsts.items self.new.places.items self.new.signals) }
    {
        let callees = calls.callees(self.models[k]);
        for position in 0..callees.len() {
            let callee = callees[position];
            let names = naming.count(callee);
            if !self.push(callee, names, (k as u32, position as u32))? {
                return Ok(false);
            }
        }
        Ok(true)
    }

    /// All instances of a main model whose models never reach themselves, or none where there are
    /// too many signals and instances. Fails where memory is refused.
    pub(crate) fn of(
        alloc: Global,
        calls: &Calls<'_>,
        naming: &Naming<'_>,
        top: usize,
    ) -> Result<Option<Instances>, AllocError>
        requires same { naming.now ≡ calls.now }
        requires growing { IsGrowing calls.now top }
        requires top { top ≤ length calls.now }
        ensures { IfOk result (λ found. MatchOption found
            (is_too_large calls.now top ≡ true)
            (λ all. (is_too_large calls.now top ≡ false) × (all.top ≡ top) × IsFound calls.now top (length (paths calls.now top)) all.models.items all.firsts.items all.places.items all.signals)) }
    {
        let Some(mut all) = Instances::root(alloc, naming, top)? else {
            return Ok(None);
        };
        let mut k = 0;
        'instances: while k < all.models.len() {
            if !all.open(calls, naming, k)? {
                return Ok(None);
            }
            k += 1;
        }
        Ok(Some(all))
    }
}

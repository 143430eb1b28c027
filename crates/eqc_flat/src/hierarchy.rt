//! The numbers of instances and signals below a main model: the signal of an instance and a name,
//! and the way back.
ghost use Rattle.std.specs.Prelude.{◌≡◌, ℕ, ◌+◌, ◌<◌, ◌≤◌, ◌++◌, ◌∷◌, [], length, map, true, false, slice_index_or, IfOk, OnOk, MatchOption};
ghost use Rattle.eqc_netlist.specs.Names.{is_named};
ghost use Rattle.eqc_hierarchy.specs.Hierarchy.{model, model_at, paths};
ghost use Rattle.eqc_hierarchy.specs.Signals.{names_of, signals};
ghost use Rattle.eqc_hierarchy.specs.Codes.{is_recursive, is_too_large};
ghost use Rattle.eqc_flat.specs.Instances.{IsGrowing, IsExpansion};
ghost use Rattle.eqc_flat.specs.Flattened.{path_at, model_of, first_signal, signal_at, named_here, all_named};
ghost use Rattle.eqc_flat.specs.Finding.{steps_of, hierarchical_name};

pub(crate) mod instances;

use crate::finding::hierarchical_name::{HierarchicalName, Step};
use crate::hierarchy::instances::Instances;
use eqc_blif::Library;
use eqc_hierarchy::{Calls, Naming};
use std::alloc::{AllocError, Global};
use std::marker::Model;

/// The hierarchy below a main model, with its instances and flat signals numbered.
#[derive(Drop)]
pub(crate) struct Hierarchy<'n, 'a> {
    calls: Calls<'a>,
    naming: &'n Naming<'a>,
    instances: Instances,
}

impl<'n, 'a> Model for Hierarchy<'n, 'a> {
    ghost use Rattle.std.specs.Prelude.{List, ℕ};
    ghost use Rattle.eqc_blif.specs.Netlist.{ModelOf};
    ghost use Rattle.eqc_flat.specs.Instances.{IsExpanded};

    ghost Value = { List ModelOf × ℕ };

    ghost view = { λ a. (a.calls, a.instances.top) };

    ghost invariant = { λ a. IsExpanded a.calls a.naming.now a.instances.top a.instances.models.items a.instances.firsts.items a.instances.places.items a.instances.signals };
}

impl<'n, 'a> Hierarchy<'n, 'a> {
    /// The hierarchy below model `top`, whose models never reach themselves, over the names of all
    /// models, or none where there are too many signals and instances. Fails where memory is
    /// refused.
    pub(crate) fn of(
        alloc: Global,
        calls: Calls<'a>,
        naming: &'n Naming<'a>,
        top: usize,
    ) -> Result<Option<Hierarchy<'n, 'a>>, AllocError>
        requires there { top < length calls }
        requires ends { is_recursive calls top ≡ false }
        requires named { naming.now ≡ calls }
        ensures { IfOk result (λ found. MatchOption found
            (is_too_large calls.entry top ≡ true)
            (λ made. IsExpansion calls.entry top made)) }
    {
        let Some(instances) = Instances::of(alloc, &calls, naming, top)? else {
            return Ok(None);
        };
        Ok(Some(Hierarchy {
            calls,
            naming,
            instances,
        }))
    }

    /// The library.
    pub(crate) fn library(&self) -> &'a Library
        ensures { result.now ≡ self.now.0 }
    {
        self.calls.library()
    }

    /// The main model.
    pub(crate) fn top(&self) -> usize
        ensures top { result ≡ self.now.1 }
        ensures there { result < length self.now.0 }
        ensures first { 0 < length (paths self.now.0 self.now.1) }
        ensures root { path_at self.now.0 self.now.1 0 ≡ [] }
        ensures main { model_of self.now.0 self.now.1 0 ≡ model self.now.0 self.now.1 }
    {
        self.instances.top
    }

    /// The number of instances, the main model among them.
    pub(crate) fn instances(&self) -> usize
        ensures count { result ≡ length (paths self.now.0 self.now.1) }
        ensures few { result ≤ 1048577 }
        ensures some { 0 < result }
    {
        self.instances.models.len()
    }

    /// The number of flat signals.
    pub(crate) fn signals(&self) -> usize
        ensures count { result ≡ length (signals self.now.0 self.now.1) }
        ensures few { result ≤ 1048576 }
    {
        self.instances.signals
    }

    /// The model of instance `i`, which is below their number.
    pub(crate) fn model(&self, i: usize) -> usize
        requires { i < length (paths self.now.0 self.now.1) }
        ensures number { result ≡ model_at self.now.0 self.now.1 (path_at self.now.0 self.now.1 i) }
        ensures growing { IsGrowing self.now.0 self.now.1 }
        ensures few { length (paths self.now.0 self.now.1) ≤ 1048577 }
    {
        self.instances.models[i]
    }

    /// The first signal of instance `i`, which its other signals follow in the order of the names
    /// of its model.
    pub(crate) fn first_signal(&self, i: usize) -> usize
        requires { i < length (paths self.now.0 self.now.1) }
        ensures first { result ≡ first_signal self.now.0 self.now.1 i }
        ensures small { result ≤ 1048576 }
    {
        self.instances.firsts[i]
    }

    /// The signal at position `k` among those of instance `i`.
    fn signal_of(&self, i: usize, k: usize) -> usize
        requires instance { i < length (paths self.now.0 self.now.1) }
        requires position { k < length (names_of (model_of self.now.0 self.now.1 i)) }
        ensures within { result < length (signals self.now.0 self.now.1) }
        ensures small { result < 1048576 }
        ensures signal { signal_at self.now.0 self.now.1 result ≡ record { path = path_at self.now.0 self.now.1 i; name = slice_index_or (names_of (model_of self.now.0 self.now.1 i)) k [] } }
    {
        self.instances.firsts[i] + k
    }

    /// The signal of a name that occurs in the model of instance `i`.
    pub(crate) fn signal(&self, i: usize, name: &[u8]) -> usize
        requires instance { i < length (paths self.now.0 self.now.1) }
        requires named { is_named (names_of (model_of self.now.0 self.now.1 i)) name.now ≡ true }
        ensures within { result < length (signals self.now.0 self.now.1) }
        ensures small { result < 1048576 }
        ensures signal { signal_at self.now.0 self.now.1 result ≡ record { path = path_at self.now.0 self.now.1 i; name = name.now } }
    {
        let k = self.naming.position(self.model(i), name);
        self.signal_of(i, k)
    }

    /// The signal of a name that occurs in the model of instance `i`, which is found at once where
    /// it is the output of the cover of a number there.
    pub(crate) fn output_signal(&self, i: usize, name: &[u8], cover: u32) -> usize
        requires instance { i < length (paths self.now.0 self.now.1) }
        requires named { is_named (names_of (model_of self.now.0 self.now.1 i)) name.now ≡ true }
        ensures within { result < length (signals self.now.0 self.now.1) }
        ensures small { result < 1048576 }
        ensures signal { signal_at self.now.0 self.now.1 result ≡ record { path = path_at self.now.0 self.now.1 i; name = name.now } }
    {
        let k = self.naming.output_position(self.model(i), name, cover);
        self.signal_of(i, k)
    }

    /// The signal of a name that occurs in the model of instance `i`, and whether the name is an
    /// input of that model.
    pub(crate) fn formal(&self, i: usize, name: &[u8]) -> (usize, bool)
        requires instance { i < length (paths self.now.0 self.now.1) }
        requires named { is_named (names_of (model_of self.now.0 self.now.1 i)) name.now ≡ true }
        ensures within { result.0 < length (signals self.now.0 self.now.1) }
        ensures small { result.0 < 1048576 }
        ensures signal { signal_at self.now.0 self.now.1 result.0 ≡ record { path = path_at self.now.0 self.now.1 i; name = name.now } }
        ensures input { result.1 ≡ is_named (model_of self.now.0 self.now.1 i).inputs name.now }
    {
        let (k, is_input) = self.naming.port(self.model(i), name);
        (self.signal_of(i, k), is_input)
    }

    /// The parent of instance `i`, which isn't the main model, and the position of `i` there.
    fn place(&self, i: usize) -> (usize, usize)
        requires inner { 0 < i }
        requires instance { i < length (paths self.now.0 self.now.1) }
        ensures place { path_at self.now.0 self.now.1 i ≡ result.1 ∷ path_at self.now.0 self.now.1 result.0 }
        ensures before { result.0 < i }
    {
        let (parent, position) = self.instances.places[i - 1];
        (parent as usize, position as usize)
    }

    /// The instances from instance `i` up to the main model, the innermost first. Fails where
    /// memory is refused.
    fn steps(&self, alloc: Global, i: usize) -> Result<Vec<Step>, AllocError>
        requires { i < length (paths self.now.0 self.now.1) }
        ensures { IfOk result (λ steps. steps.items ≡ steps_of self.now.0 self.now.1 (path_at self.now.0 self.now.1 i)) }
    {
        let mut steps = Vec::new(alloc);
        let mut inner = i;
        'up: while inner > 0 {
            let (parent, position) = self.place(inner);
            let model = self.model(inner);
            steps.push(Step { position, model })?;
            inner = parent;
        }
        Ok(steps)
    }

    /// The number of signals of instance `i`.
    fn count(&self, i: usize) -> usize
        requires { i < length (paths self.now.0 self.now.1) }
        ensures names { result ≡ length (names_of (model_of self.now.0 self.now.1 i)) }
        ensures few { length (paths self.now.0 self.now.1) ≤ 1048577 }
    {
        self.naming.count(self.model(i))
    }

    /// The instance of signal `s`, and the signal's position among those of this instance.
    fn instance_of(&self, s: usize) -> (usize, usize)
        requires { s < length (signals self.now.0 self.now.1) }
        ensures instance { result.0 < length (paths self.now.0 self.now.1) }
        ensures position { result.1 < length (names_of (model_of self.now.0 self.now.1 result.0)) }
        ensures signal { first_signal self.now.0 self.now.1 result.0 + result.1 ≡ s }
    {
        let mut i = 0;
        let mut k = s;
        'instances: while k >= self.count(i) {
            k -= self.count(i);
            i += 1;
        }
        (i, k)
    }

    /// The name of signal `s`. Fails where memory is refused.
    pub(crate) fn name_of(
        &self,
        alloc: Global,
        s: usize,
    ) -> Result<HierarchicalName<'a>, AllocError>
        requires { s < length (signals self.now.0 self.now.1) }
        ensures { IfOk result (λ name. name ≡ hierarchical_name self.now.0 self.now.1 (signal_at self.now.0 self.now.1 s)) }
    {
        let (i, k) = self.instance_of(s);
        let name = self.naming.name(self.model(i), k);
        let steps = self.steps(alloc, i)?;
        Ok(HierarchicalName::new(steps, name))
    }

    /// Puts the signals of instance `i` behind others. Fails where memory is refused.
    fn push_signals(&self, all: &mut Vec<(u32, &'a [u8])>, i: usize) -> Result<(), AllocError>
        requires { i < length (paths self.now.0 self.now.1) }
        ensures { OnOk result (map (λ s. (s.0, s.1.now)) all.new.items ≡ map (λ s. (s.0, s.1.now)) all.old.items ++ named_here self.now.0 self.now.1 i) }
    {
        let m = self.model(i);
        for k in 0..self.naming.count(m) {
            all.push((i as u32, self.naming.name(m, k)))?;
        }
        Ok(())
    }

    /// Each signal with its instance and name. Fails where memory is refused.
    pub(crate) fn all_signals(&self, alloc: Global) -> Result<Vec<(u32, &'a [u8])>, AllocError>
        ensures { IfOk result (λ all. map (λ s. (s.0, s.1.now)) all.items ≡ all_named self.now.0 self.now.1) }
    {
        let mut all = Vec::with_capacity(alloc, self.signals())?;
        for i in 0..self.instances() {
            self.push_signals(&mut all, i)?;
        }
        Ok(all)
    }

    /// The parent of each instance but the main model, and its position there.
    pub(crate) fn into_places(self) -> Vec<(u32, u32)>
        ensures placed { paths self.entry.0 self.entry.1 ≡ [] ∷ map (λ place. place.1 ∷ path_at self.entry.0 self.entry.1 place.0) result.items }
        ensures parents { (k : ℕ) → k < length result.items → (slice_index_or result.items k (0, 0)).0 ≤ k }
    {
        let instances = self.instances;
        instances.places
    }
}

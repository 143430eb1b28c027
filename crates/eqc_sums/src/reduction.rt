//! A form over a graph that grows, to which zero steps are added: what it comes to stays.
ghost use Rattle.std.specs.Prelude.{◌≡◌, ℕ, ◌/◌, ◌<◌, true, Bool, List, IfOk, IsTrue};
ghost use Rattle.eqc_xag.specs.declared.node.Node.{Node};
ghost use Rattle.eqc_xag.specs.Graph.{IsWithin, IsGraph};
ghost use Rattle.eqc_sums.specs.Forms.{form_value, IsZeroStep, Keeps};
ghost use Rattle.eqc_sums.specs.Adding.{IsFormOf};

use crate::form::Form;
use crate::polynomial::{expansion, product_expansion};
use crate::steps::{adder, alias, parity, polarity, product, split, split_product};
use crate::term::Term;
use crate::words::{MOST_LITERALS, are_within, difference};
use eqc_sweep::{Comparison, Effort, Sweep};
use eqc_xag::{Literal, node_of};
use std::alloc::{AllocError, Global};

/// A form over a graph that grows.
#[derive(Drop)]
pub struct Reduction {
    alloc: Global,
    pub(crate) sweep: Sweep,
    pub(crate) form: Form,
    /// Nodes whose coefficients may have changed.
    touched: Vec<u32>,
}

/// Notes the nodes of terms.
fn note(touched: &mut Vec<u32>, terms: &[Term]) -> Result<(), AllocError> {
    for term in terms {
        touched.push(node_of(term.literal))?;
    }
    Ok(())
}

impl Reduction {
    /// The form that is zero, over a graph.
    pub fn new(alloc: Global, sweep: Sweep) -> Reduction
        ensures { result.sweep ≡ sweep }
    {
        Reduction {
            alloc,
            sweep,
            form: Form::new(alloc),
            touched: Vec::new(alloc),
        }
    }

    /// The graph.
    pub fn into_sweep(self) -> Sweep
        ensures { result ≡ self.sweep }
    {
        self.sweep
    }

    /// From now on new nodes are asked about with this effort: who looks for adders, or adds a word
    /// up, has limits for these questions. Fails where memory is refused.
    pub fn ask_again(&mut self, effort: Effort) -> Result<(), AllocError>
        ensures sweep { self.new.sweep ≡ self.old.sweep }
        ensures form { self.new.form ≡ self.old.form }
    {
        self.sweep.ask_again(effort)
    }

    /// The form.
    pub fn form(&self) -> &Form
        ensures { result.now ≡ self.now.form }
    {
        &self.form
    }

    /// Whether a literal is one of the graph.
    fn has(&self, literal: Literal) -> bool
        ensures { IsTrue result → IsWithin self.now.sweep literal }
    {
        node_of(literal) < self.sweep.graph().len()
    }

    /// Whether two literals are of the graph.
    fn has_both(&self, x: Literal, y: Literal) -> bool
        ensures x { IsTrue result → IsWithin self.now.sweep x }
        ensures y { IsTrue result → IsWithin self.now.sweep y }
    {
        self.has(x) && self.has(y)
    }

    /// Whether three literals are.
    fn has_three(&self, x: Literal, y: Literal, z: Literal) -> bool
        ensures x { IsTrue result → IsWithin self.now.sweep x }
        ensures y { IsTrue result → IsWithin self.now.sweep y }
        ensures z { IsTrue result → IsWithin self.now.sweep z }
    {
        self.has_both(x, y) && self.has(z)
    }

    /// The nodes whose coefficients may have changed since this was asked, which are forgotten.
    pub fn take_touched(&mut self) -> Vec<u32>
        ensures sweep { self.new.sweep ≡ self.old.sweep }
        ensures form { self.new.form ≡ self.old.form }
    {
        std::mem::replace(&mut self.touched, Vec::new(self.alloc))
    }

    #[tactic(auto, using(crate::proofs::KeepLemmas::keeps_reached, crate::proofs::KeepLemmas::keeps_stepped))]
    /// Adds terms that come to 0.
    fn add_step(&mut self, terms: &[Term]) -> Result<(), AllocError>
        requires { IsZeroStep self.old.sweep terms.now }
        ensures { Keeps self.old.sweep self.new.sweep self.old.form self.new.form }
    {
        self.form.reach(self.sweep.graph().len())?;
        note(&mut self.touched, terms)?;
        self.form.add_all(terms);
        Ok(())
    }

    #[tactic(auto, using(crate::proofs::KeepLemmas::keeps_extended, crate::proofs::KeepLemmas::keeps_itself, crate::proofs::KeepLemmas::keeps_grown))]
    /// Adds an adder so many times: x + y + z - s - 2 c, where s is the sum of three literals and c
    /// the carry.
    pub fn adder(
        &mut self,
        x: Literal,
        y: Literal,
        z: Literal,
        factor: u128,
    ) -> Result<(), AllocError>
        ensures { Keeps self.old.sweep self.new.sweep self.old.form self.new.form }
    {
        if !self.has_three(x, y, z) {
            return Ok(());
        }
        let terms = adder(&mut self.sweep, x, y, z, factor)?;
        self.add_step(&terms)
    }

    #[tactic(auto, using(crate::proofs::KeepLemmas::keeps_extended, crate::proofs::KeepLemmas::keeps_itself, crate::proofs::KeepLemmas::keeps_grown))]
    /// Adds a parity 2^127 times: x + y - (x xor y).
    pub fn parity(&mut self, x: Literal, y: Literal) -> Result<(), AllocError>
        ensures { Keeps self.old.sweep self.new.sweep self.old.form self.new.form }
    {
        if !self.has_both(x, y) {
            return Ok(());
        }
        let terms = parity(&mut self.sweep, x, y)?;
        self.add_step(&terms)
    }

    #[tactic(auto, using(crate::proofs::KeepLemmas::keeps_extended, crate::proofs::KeepLemmas::keeps_itself, crate::proofs::KeepLemmas::keeps_grown))]
    /// Adds a literal that is split by another one, so many times: x y + (not x) y - y.
    pub fn split(&mut self, x: Literal, y: Literal, factor: u128) -> Result<(), AllocError>
        ensures { Keeps self.old.sweep self.new.sweep self.old.form self.new.form }
    {
        if !self.has_both(x, y) {
            return Ok(());
        }
        let terms = split(&mut self.sweep, x, y, factor)?;
        self.add_step(&terms)
    }

    #[tactic(auto, using(crate::proofs::KeepLemmas::keeps_extended, crate::proofs::KeepLemmas::keeps_itself, crate::proofs::KeepLemmas::keeps_grown))]
    /// Adds the carry of a complement, so many times: y + z - carry(x, y, z) - carry(not x, y, z).
    pub fn polarity(
        &mut self,
        x: Literal,
        y: Literal,
        z: Literal,
        factor: u128,
    ) -> Result<(), AllocError>
        ensures { Keeps self.old.sweep self.new.sweep self.old.form self.new.form }
    {
        if !self.has_three(x, y, z) {
            return Ok(());
        }
        let terms = polarity(&mut self.sweep, x, y, z, factor)?;
        self.add_step(&terms)
    }

    #[tactic(auto, using(crate::proofs::KeepLemmas::keeps_extended, crate::proofs::KeepLemmas::keeps_itself, crate::proofs::KeepLemmas::keeps_grown))]
    /// Adds an adder times a literal, so many times.
    pub fn product(
        &mut self,
        by: Literal,
        x: Literal,
        y: Literal,
        z: Literal,
        factor: u128,
    ) -> Result<(), AllocError>
        ensures { Keeps self.old.sweep self.new.sweep self.old.form self.new.form }
    {
        if !self.has(by) || !self.has_three(x, y, z) {
            return Ok(());
        }
        let terms = product(self.alloc, &mut self.sweep, by, (x, y, z), factor)?;
        self.add_step(terms.as_slice())
    }

    #[tactic(auto, using(crate::proofs::KeepLemmas::keeps_extended, crate::proofs::KeepLemmas::keeps_itself, crate::proofs::KeepLemmas::keeps_grown))]
    /// Adds a literal that is split by another one, times a third one and so many times: by x y +
    /// by (not x) y - by y.
    pub fn split_product(
        &mut self,
        by: Literal,
        x: Literal,
        y: Literal,
        factor: u128,
    ) -> Result<(), AllocError>
        ensures { Keeps self.old.sweep self.new.sweep self.old.form self.new.form }
    {
        if !self.has_three(by, x, y) {
            return Ok(());
        }
        let terms = split_product(self.alloc, &mut self.sweep, by, x, y, factor)?;
        self.add_step(terms.as_slice())
    }

    #[tactic(auto, using(crate::proofs::KeepLemmas::keeps_extended, crate::proofs::KeepLemmas::keeps_itself, crate::proofs::KeepLemmas::keeps_grown))]
    /// Puts the polynomial of a literal, of literals that are at most so many gates below it, in
    /// place of it, so many times.
    pub fn expand(&mut self, literal: Literal, depth: u32, factor: u128) -> Result<(), AllocError>
        ensures { Keeps self.old.sweep self.new.sweep self.old.form self.new.form }
    {
        if !self.has(literal) {
            return Ok(());
        }
        let terms = expansion(self.alloc, &mut self.sweep, literal, depth, factor)?;
        self.add_step(terms.as_slice())
    }

    #[tactic(auto, using(crate::proofs::KeepLemmas::keeps_extended, crate::proofs::KeepLemmas::keeps_itself, crate::proofs::KeepLemmas::keeps_grown))]
    /// Puts a literal times the polynomial of another one in place of their conjunction, so many
    /// times.
    pub fn expand_product(
        &mut self,
        by: Literal,
        literal: Literal,
        depth: u32,
        factor: u128,
    ) -> Result<(), AllocError>
        ensures { Keeps self.old.sweep self.new.sweep self.old.form self.new.form }
    {
        if !self.has_both(by, literal) {
            return Ok(());
        }
        let terms = product_expansion(self.alloc, &mut self.sweep, by, literal, depth, factor)?;
        self.add_step(terms.as_slice())
    }

    #[tactic(auto, using(crate::proofs::KeepLemmas::keeps_extended, crate::proofs::KeepLemmas::keeps_itself))]
    /// The sum and the carry of three literals, which are made in the graph if they aren't there.
    /// The form stays as it is.
    pub fn sum_and_carry(
        &mut self,
        x: Literal,
        y: Literal,
        z: Literal,
    ) -> Result<Option<(Literal, Literal)>, AllocError>
        ensures { Keeps self.old.sweep self.new.sweep self.old.form self.new.form }
    {
        if !self.has_three(x, y, z) {
            return Ok(None);
        }
        let terms = adder(&mut self.sweep, x, y, z, 0)?;
        Ok(Some((terms[3].literal, terms[4].literal)))
    }

    /// The graph and what is known of it.
    pub fn sweep(&self) -> &Sweep
        ensures { result.now ≡ self.now.sweep }
    {
        &self.sweep
    }

    /// Puts y in place of x, so many times, where they are found equal with so many conflicts, of
    /// which those are taken away that there were. Answers what was found.
    pub fn unify(
        &mut self,
        x: Literal,
        y: Literal,
        factor: u128,
        conflicts: &mut u64,
    ) -> Result<Comparison, AllocError>
        ensures { Keeps self.old.sweep self.new.sweep self.old.form self.new.form }
    {
        if !self.has_both(x, y) {
            return Ok(Comparison::Unknown);
        }
        let found = self.sweep.equal(x, y, conflicts)?;
        if let Comparison::Equal = found {
            let terms = alias(&self.sweep, x, y, factor);
            self.add_step(&terms)?;
        }
        Ok(found)
    }

    /// Begins anew with the form that is zero where two words are equal. Answers whether they are
    /// words of the graph, of as many literals, from 1 to 128.
    pub fn begin(&mut self, ps: &[Literal], qs: &[Literal]) -> Result<bool, AllocError>
        ensures sweep { self.new.sweep ≡ self.old.sweep }
        ensures begun { IfOk result (λ is. IsTrue is → IsFormOf self.new.sweep self.new.form ps.now qs.now) }
    {
        if ps.len() != qs.len() || ps.len() == 0 || ps.len() > MOST_LITERALS {
            return Ok(false);
        }
        if !are_within(self.sweep.graph(), ps) || !are_within(self.sweep.graph(), qs) {
            return Ok(false);
        }
        let terms = difference(self.alloc, ps, qs)?;
        self.form = Form::new(self.alloc);
        self.touched.clear();
        self.form.reach(self.sweep.graph().len())?;
        note(&mut self.touched, terms.as_slice())?;
        self.form.add_all(terms.as_slice());
        Ok(true)
    }
}

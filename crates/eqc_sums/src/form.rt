//! Linear forms over the nodes of a graph.
ghost use Rattle.std.specs.Prelude.{◌≡◌, ℕ, ◌+◌, ◌*◌, ◌/◌, ◌%◌, ◌^◌, ◌<◌, ◌≤◌, Bool, List, length, IfOk, IsTrue, slice_index};
ghost use Rattle.std.specs.List.{All};
ghost use Rattle.eqc_xag.specs.declared.node.Node.{Node};
ghost use Rattle.eqc_xag.specs.Graph.{literal_value, IsGraph};
ghost use Rattle.eqc_sums.specs.Forms.{bit, terms_sum, form_value};

use crate::term::Term;
use eqc_xag::Literal;
use std::alloc::{AllocError, Global};

/// A constant, and a coefficient for each of the first nodes of a graph, modulo 2^128.
#[derive(Drop)]
pub struct Form {
    /// What it comes to where no node is true.
    pub constant: u128,
    /// Those of the first nodes, in their order: what adds a word up by columns reads them all.
    pub coefficients: Vec<u128>,
}

impl Form {
    /// Zero.
    pub fn new(alloc: Global) -> Form
        ensures length { length result.coefficients.items ≡ 0 }
        ensures value { (nodes : List Node) (a : ℕ → Bool) → form_value nodes a result ≡ 0 }
    {
        Form {
            constant: 0,
            coefficients: Vec::new(alloc),
        }
    }

    /// The coefficient of a node.
    pub fn coefficient(&self, node: u32) -> u128 {
        match self.coefficients.get(node as usize) {
            None => 0,
            Some(coefficient) => *coefficient,
        }
    }

    /// Has coefficients for at least so many nodes. Fails where memory is refused.
    pub fn reach(&mut self, nodes: u32) -> Result<(), AllocError>
        ensures reached { IfOk result (λ _. nodes ≤ length self.new.coefficients.items) }
        ensures most { (n : ℕ) → length self.old.coefficients.items ≤ n → nodes ≤ n → length self.new.coefficients.items ≤ n }
        ensures value { (nodes : List Node) (a : ℕ → Bool) → form_value nodes a self.new ≡ form_value nodes a self.old }
    {
        for _k in self.coefficients.len()..nodes as usize {
            self.coefficients.push(0)?;
        }
        Ok(())
    }

    /// Adds a literal of a node that it has a coefficient for, so many times.
    pub fn add(&mut self, literal: Literal, factor: u128)
        requires { literal / 2 < length self.old.coefficients.items }
        ensures length { length self.new.coefficients.items ≡ length self.old.coefficients.items }
        ensures value { (nodes : List Node) (a : ℕ → Bool) → form_value nodes a self.new ≡ (form_value nodes a self.old + factor * bit (literal_value nodes a literal)) % 2 ^ 128 }
    {
        let k = (literal / 2) as usize;
        let coefficient = self.coefficients[k];
        if literal % 2 == 0 {
            self.coefficients[k] = coefficient.wrapping_add(factor);
        } else {
            self.constant = self.constant.wrapping_add(factor);
            self.coefficients[k] = coefficient.wrapping_sub(factor);
        }
    }

    /// Adds terms of nodes that it has coefficients for.
    pub fn add_all(&mut self, terms: &[Term])
        requires { All (λ t. t.literal / 2 < length self.old.coefficients.items) terms.now }
        ensures length { length self.new.coefficients.items ≡ length self.old.coefficients.items }
        ensures value { (nodes : List Node) (a : ℕ → Bool) → form_value nodes a self.new ≡ (form_value nodes a self.old + terms_sum (literal_value nodes a) terms.now) % 2 ^ 128 }
    {
        for term in terms {
            self.add(term.literal, term.factor);
        }
    }

    /// Whether it has neither a constant nor a coefficient, but for the constant node, which is
    /// false.
    pub fn is_zero(&self) -> bool
        ensures { IsTrue result → (nodes : List Node) (a : ℕ → Bool) → IsGraph nodes → form_value nodes a self.now ≡ 0 }
    {
        if self.constant != 0 {
            return false;
        }
        for (k, coefficient) in self.coefficients.iter().enumerate() {
            if *coefficient != 0 && k != 0 {
                return false;
            }
        }
        true
    }
}

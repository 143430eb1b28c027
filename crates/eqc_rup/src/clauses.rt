//! The store of clauses.
ghost use Rattle.std.specs.Prelude.{◌≡◌, ℕ, ◌<◌, List, [], length, map, IfOk, OnErr, IfSome};
ghost use Rattle.eqc_rup.specs.Clauses.{clause_of, IsSound, Puts, GivesUp};

use eqc_xag::{Literal, Node};
use std::alloc::{AllocError, Global};
use std::marker::Model;

/// Clauses, each under its number. A number is free where its clause is empty.
#[derive(Drop)]
pub struct Clauses {
    alloc: Global,
    clauses: Vec<Vec<Literal>>,
    /// Numbers of clauses that were given up.
    free: Vec<u32>,
}

impl Model for Clauses {
    ghost use Rattle.std.specs.Prelude.{List, ℕ, map};

    ghost Value = { List (List ℕ) };

    ghost view = { λ s. map (λ c. c.items) s.clauses.items };
}

impl Clauses {
    /// No clauses.
    #[tactic(auto, using(crate::proofs::ClauseLemmas::none_sound))]
    pub fn new(alloc: Global) -> Clauses
        ensures empty { result ≡ [] }
        ensures sound { (nodes : List Node) → IsSound nodes result }
    {
        Clauses {
            alloc,
            clauses: Vec::new(alloc),
            free: Vec::new(alloc),
        }
    }

    /// How many numbers were given so far: each clause has a number below.
    pub fn len(&self) -> usize
        ensures { result ≡ length self.now }
    {
        self.clauses.len()
    }

    /// The literals of the clause with this number; none where it was given up, or where no clause
    /// had the number yet.
    pub fn clause(&self, number: u32) -> &[u32]
        ensures { result.now ≡ clause_of self.now number }
    {
        match self.clauses.get(number as usize) {
            Some(clause) => clause.as_slice(),
            None => &[],
        }
    }

    /// Gives up the clause with this number, if there is one. Its memory is free at once, and its
    /// number may be that of a later clause.
    pub fn give_up(&mut self, number: u32)
        ensures gone { GivesUp self.old self.new number }
        ensures sound { (nodes : List Node) → IsSound nodes self.old → IsSound nodes self.new }
    {
        let at = number as usize;
        if at < self.clauses.len() && !self.clauses[at].is_empty() {
            self.clauses[at] = Vec::new(self.alloc);
            let _room_was_made = self.free.push(number);
        }
    }

    /// Gives up all clauses, and their numbers.
    pub fn clear(&mut self)
        ensures empty { self.new ≡ [] }
        ensures sound { (nodes : List Node) → IsSound nodes self.new }
    {
        self.clauses.clear();
        self.free.clear();
    }

    /// Puts a clause under a free number, which it gives. Where memory is refused the store stays
    /// as it is.
    pub(crate) fn put(&mut self, clause: &[Literal]) -> Result<u32, AllocError>
        ensures ok { IfOk result (λ number. Puts self.old self.new number clause.now) }
        ensures err { OnErr result (self.new ≡ self.old) }
    {
        let stored = Vec::from_slice(self.alloc, clause)?;
        if let Some(number) = take_free(&mut self.free, self.clauses.as_slice()) {
            self.clauses[number as usize] = stored;
            return Ok(number);
        }
        let number = self.clauses.len();
        if number >= u32::MAX as usize {
            return Err(AllocError);
        }
        // So that giving a clause up never wants memory.
        self.free.reserve(number + 1)?;
        self.clauses.push(stored)?;
        Ok(number as u32)
    }
}

/// Takes a number from the list whose clause is empty.
fn take_free(free: &mut Vec<u32>, clauses: &[Vec<Literal>]) -> Option<u32>
    ensures { IfSome result (λ number. (number < length clauses.now) × (clause_of (map (λ c. c.items) clauses.now) number ≡ [])) }
{
    while let Some(number) = free.pop() {
        let at = number as usize;
        if at < clauses.len() && clauses[at].is_empty() {
            return Some(number);
        }
    }
    None
}

//! The table of a stripe: pairs of a node word and its slot.
ghost use Rattle.std.specs.Prelude.{◌≡◌, ◌<◌, ◌^◌, ◌++◌, ◌∷◌, ◌==◌, ◌↔◌, [], IsTrue, IfSome, IfOk, OnOk, length};
ghost use Rattle.std.specs.List.{position_from};
ghost use Rattle.eqc_core.specs.Tables.{table_has, table_word};
ghost use Rattle.eqc_core.specs.Making.{without_slot};
ghost use Rattle.eqc_tree.specs.Word.{node_word};
ghost use Rattle.eqc_core.specs.Stripes.{HasRoom};

use eqc_tree::pack_node;
use std::alloc::{AllocError, Global};

// A stripe's table.
#[derive(Drop)]
pub(crate) struct Table {
    pub(crate) entries: Vec<(u64, u32)>,
}

// A stripe in hand, with its table.
#[derive(Drop)]
pub(crate) struct Hand {
    pub(crate) stripe: u32,
    pub(crate) table: Table,
}

// The first place of the slot.
fn slot_place(entries: &[(u64, u32)], x: u32) -> Option<usize>
    ensures value { result ≡ position_from (λ e. e.1 == x) 0 entries.now }
    ensures within { IfSome result (λ i. i < length entries.now) }
{
    entries.iter().position(|e| e.1 == x)
}

// The first place of the node word.
fn word_place(entries: &[(u64, u32)], word: u64) -> Option<usize>
    ensures { result ≡ position_from (λ e. e.0 == word) 0 entries.now }
{
    entries.iter().position(|e| e.0 == word)
}

impl Table {
    pub(crate) fn empty(alloc: Global) -> Table
        ensures { result.entries.items ≡ [] }
    {
        Table {
            entries: Vec::new(alloc),
        }
    }

    pub(crate) fn has_slot(&self, x: u32) -> bool
        ensures { IsTrue result ↔ (0 < table_has x self.now.entries.items) }
    {
        match slot_place(&self.entries, x) {
            Some(_i) => true,
            None => false,
        }
    }

    pub(crate) fn has_word(&self, word: u64) -> bool
        ensures { IsTrue result ↔ (0 < table_word word self.now.entries.items) }
    {
        match word_place(&self.entries, word) {
            Some(_i) => true,
            None => false,
        }
    }

    pub(crate) fn insert(&mut self, word: u64, x: u32) -> Result<(), AllocError>
        ensures { OnOk result (self.new.entries.items ≡ self.old.entries.items ++ (word, x) ∷ []) }
    {
        self.entries.push((word, x))?;
        Ok(())
    }

    pub(crate) fn remove(&mut self, x: u32)
        ensures { self.new.entries.items ≡ without_slot x self.old.entries.items }
    {
        if let Some(i) = slot_place(&self.entries, x) {
            self.entries.remove(i);
        }
    }

    // The same table, in memory of its own.
    pub(crate) fn copy(&self, alloc: Global) -> Result<Table, AllocError>
        ensures { IfOk result (λ t. t.entries.items ≡ self.now.entries.items) }
    {
        let mut entries = Vec::new(alloc);
        entries.extend_from_slice(&self.entries)?;
        Ok(Table { entries })
    }
}

impl Hand {
    // Whether the node of these fields belongs into the table, and isn't there.
    pub(crate) fn has_room(&self, variable: u16, low: u32, high: u32) -> bool
        requires low { low < 2 ^ 20 }
        requires high { high < 2 ^ 20 }
        ensures { IsTrue result ↔ HasRoom self.now.stripe self.now.table.entries.items (node_word variable low high) }
    {
        let stripe = (variable as u32 + low + high) % 16;
        if stripe != self.stripe {
            return false;
        }
        !self.table.has_word(pack_node(variable, low, high))
    }
}

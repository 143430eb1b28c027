//! Nodes by their signatures, the oldest first. Nothing is believed of it.

use std::alloc::{AllocError, Global};

/// In place of a node where there is none.
const NONE: u32 = u32::MAX;

/// How many nodes of one signature are found again, until all are entered anew.
const OF_ONE: u32 = 8;

/// How many nodes are looked at on the way to one.
const LOOKS: u32 = 64;

/// Chains of nodes whose signatures fall together.
#[derive(Drop)]
pub(crate) struct Classes {
    heads: Vec<u32>,
    /// The next node of the chain, by nodes; as many as were entered.
    nexts: Vec<u32>,
}

/// The entry at a place, or none.
fn at_or_none(row: &[u32], k: usize) -> u32 {
    match row.get(k) {
        None => NONE,
        Some(entry) => *entry,
    }
}

fn signature_at(signatures: &[u64], k: u32) -> u64 {
    match signatures.get(k as usize) {
        None => 0,
        Some(signature) => *signature,
    }
}

impl Classes {
    pub(crate) fn new(alloc: Global) -> Classes {
        Classes {
            heads: Vec::new(alloc),
            nexts: Vec::new(alloc),
        }
    }

    /// The chain of a signature.
    fn chain(&self, signature: u64) -> usize {
        signature as usize & self.heads.len().wrapping_sub(1)
    }

    /// The first node of a signature that wasn't tried.
    pub(crate) fn first(&self, signatures: &[u64], signature: u64, tried: &[u32]) -> Option<u32> {
        let mut k = at_or_none(self.heads.as_slice(), self.chain(signature));
        for _ in 0..LOOKS {
            if k == NONE {
                return None;
            }
            if signature_at(signatures, k) == signature && !tried.contains(&k) {
                return Some(k);
            }
            k = at_or_none(self.nexts.as_slice(), k as usize);
        }
        None
    }

    /// Enters the next node behind the others of its chain, unless there are enough of its
    /// signature.
    pub(crate) fn push(&mut self, signatures: &[u64]) -> Result<(), AllocError> {
        if self.nexts.len() >= self.heads.len() / 2 {
            self.nexts.push(NONE)?;
            return self.rebuild(signatures);
        }
        let new = self.nexts.len();
        self.nexts.push(NONE)?;
        if new >= NONE as usize {
            return Ok(());
        }
        let new = new as u32;
        let signature = signature_at(signatures, new);
        let chain = self.chain(signature);
        let mut last = NONE;
        let mut k = at_or_none(self.heads.as_slice(), chain);
        let mut same: u32 = 0;
        for _ in 0..LOOKS {
            if k == NONE || same >= OF_ONE {
                break;
            }
            if signature_at(signatures, k) == signature {
                same = same.wrapping_add(1);
            }
            last = k;
            k = at_or_none(self.nexts.as_slice(), k as usize);
        }
        if k == NONE {
            self.link(chain, last, new);
        }
        Ok(())
    }

    /// Puts a node behind the last of a chain.
    fn link(&mut self, chain: usize, last: u32, new: u32) {
        let at = last as usize;
        if last == NONE {
            if chain < self.heads.len() {
                self.heads[chain] = new;
            }
        } else if at < self.nexts.len() {
            self.nexts[at] = new;
        }
    }

    /// Enters all nodes anew, after their signatures have changed or where there are too few
    /// chains.
    pub(crate) fn rebuild(&mut self, signatures: &[u64]) -> Result<(), AllocError> {
        let mut chains = self.heads.len().max(1024);
        if chains <= self.nexts.len().saturating_mul(2) {
            chains = chains.saturating_mul(2);
        }
        self.heads.clear();
        self.heads.resize(chains, NONE)?;
        for back in 0..self.nexts.len() {
            let k = self.nexts.len() - 1 - back;
            if k < NONE as usize {
                let chain = self.chain(signature_at(signatures, k as u32));
                if chain < self.heads.len() {
                    self.nexts[k] = self.heads[chain];
                    self.heads[chain] = k as u32;
                }
            }
        }
        Ok(())
    }
}

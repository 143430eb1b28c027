//! Which steps use a step, and which of them wait for a new word.
ghost use Rattle.std.specs.Prelude.{◌<◌};

use eqc_build::Steps;
use std::alloc::{AllocError, Global};

/// The marked steps that use each step, those of one behind those of another.
#[derive(Drop)]
pub(crate) struct Users {
    ends: Vec<u32>,
    users: Vec<u32>,
}

/// Steps that are marked, as the bits of words, which are taken from the first on.
#[derive(Drop)]
pub(crate) struct Pending {
    words: Vec<u64>,
    /// No word before this one has a mark, and there are so many words.
    first: u32,
    end: u32,
}

impl Pending {
    /// For so many steps, none of which is marked. Fails where memory is refused.
    pub(crate) fn of(alloc: Global, steps: u32) -> Result<Pending, AllocError> {
        let end = steps / 64 + 1;
        let words = vec![in alloc; 0u64; end as usize]?;
        Ok(Pending {
            words,
            first: 0,
            end,
        })
    }

    /// Marks a step.
    fn mark(&mut self, step: u32) {
        let at = step / 64;
        if (at as usize) < self.words.len() {
            self.words[at as usize] |= 1 << (step % 64);
            self.first = self.first.min(at);
        }
    }

    /// Takes the first step that is marked.
    pub(crate) fn take(&mut self) -> Option<u32> {
        for at in self.first..self.end {
            let word = self.words.get(at as usize).copied().unwrap_or(0);
            if word != 0 && (at as usize) < self.words.len() {
                self.first = at;
                self.words[at as usize] = word & word.wrapping_sub(1);
                return Some((at << 6) | word.trailing_zeros());
            }
        }
        self.first = self.end;
        None
    }
}

/// Whether a step is marked.
fn is_marked(marks: &[bool], step: u32) -> bool {
    marks.get(step as usize).copied().unwrap_or(false)
}

/// How many uses marked steps have of each step. Fails where memory is refused.
fn counts_of(alloc: Global, steps: &Steps<'_>, marks: &[bool]) -> Result<Vec<u32>, AllocError> {
    let count = steps.len();
    let mut counts = vec![in alloc; 0u32; count as usize]?;
    for step in 0..count {
        if !is_marked(marks, step) {
            continue;
        }
        let uses = steps.uses(step);
        for c in 0..uses.len() {
            let column = uses.get(c) as usize;
            if column < counts.len() {
                counts[column] = counts[column].saturating_add(1);
            }
        }
    }
    Ok(counts)
}

impl Users {
    /// Those of the marked steps of a pair. Fails where memory is refused.
    pub(crate) fn of(
        alloc: Global,
        steps: &Steps<'_>,
        marks: &[bool],
    ) -> Result<Users, AllocError> {
        // Each step's end moves from where its own begin to where they end.
        let mut ends = counts_of(alloc, steps, marks)?;
        let mut all = 0u32;
        for k in 0..ends.len() {
            let own = ends[k];
            ends[k] = all;
            all = all.saturating_add(own);
        }
        let mut users = vec![in alloc; 0u32; all as usize]?;
        for step in 0..steps.len() {
            if !is_marked(marks, step) {
                continue;
            }
            let uses = steps.uses(step);
            for c in 0..uses.len() {
                let column = uses.get(c) as usize;
                if column >= ends.len() {
                    continue;
                }
                let at = ends[column];
                if (at as usize) < users.len() {
                    users[at as usize] = step;
                }
                ends[column] = at.saturating_add(1);
            }
        }
        Ok(Users { ends, users })
    }

    /// Where the users of a step end.
    fn end_of(&self, step: usize) -> usize {
        self.ends.get(step).copied().unwrap_or(0) as usize
    }

    /// Marks the users of a step.
    pub(crate) fn mark(&self, step: u32, marks: &mut Pending) {
        let at = step as usize;
        let begin = if at == 0 { 0 } else { self.end_of(at - 1) };
        for k in begin..self.end_of(at) {
            marks.mark(self.users.get(k).copied().unwrap_or(0));
        }
    }
}

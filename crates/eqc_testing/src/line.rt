//! Words on one line, by which an answer is compared with what is wanted.

use std::alloc::{AllocError, Global};

/// Words with a blank between them.
#[derive(Drop)]
pub struct Line {
    bytes: Vec<u8>,
}

impl Line {
    /// A line of one word, as the code of a finding.
    pub fn new(alloc: Global, word: &str) -> Result<Line, AllocError> {
        Ok(Line {
            bytes: Vec::from_slice(alloc, word.as_bytes())?,
        })
    }

    /// A line of a word with numbers behind it.
    pub fn of_numbers(alloc: Global, word: &str, numbers: &[usize]) -> Result<Line, AllocError> {
        let mut line = Line::new(alloc, word)?;
        for number in numbers {
            line.push_number(alloc, *number)?;
        }
        Ok(line)
    }

    /// A line of a word with a name behind it.
    pub fn of_name(alloc: Global, word: &str, name: &[u8]) -> Result<Line, AllocError> {
        let mut line = Line::new(alloc, word)?;
        line.push(name)?;
        Ok(line)
    }

    /// Adds a word.
    pub fn push(&mut self, word: &[u8]) -> Result<(), AllocError> {
        self.bytes.push(b' ')?;
        self.bytes.extend_from_slice(word)
    }

    /// Adds a number.
    pub fn push_number(&mut self, alloc: Global, number: usize) -> Result<(), AllocError> {
        let word = format!(in alloc; "{number}")?;
        self.push(word.as_bytes())
    }

    /// Whether these are its words.
    pub fn is(&self, words: &str) -> bool {
        self.bytes.as_slice() == words.as_bytes()
    }
}

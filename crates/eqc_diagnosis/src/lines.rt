//! What is told beside a report, line by line.

use std::alloc::{AllocError, Global};

/// Lines, each behind the name of the program.
#[derive(Drop)]
pub struct Lines {
    alloc: Global,
    text: String,
}

impl Lines {
    /// No line yet. Those that are put here are kept in this memory.
    pub fn new(alloc: Global) -> Lines {
        Lines {
            alloc,
            text: String::new(alloc),
        }
    }

    /// The lines.
    pub fn as_bytes(&self) -> &[u8] {
        self.text.as_bytes()
    }

    /// Puts a line behind the others, which says this. Fails where memory is refused, or was for
    /// what it says, and then it stays out.
    pub fn put(&mut self, said: Result<String, AllocError>) -> Result<(), AllocError> {
        let line = format!(in self.alloc; "eqc: {}\n", said?)?;
        self.text.push_str(&line)
    }

    /// Puts a line behind the others on something that has a name, as a file. Fails as `put` does.
    pub fn put_of(
        &mut self,
        name: &str,
        said: Result<String, AllocError>,
    ) -> Result<(), AllocError> {
        let line = format!(in self.alloc; "eqc: {name}: {}\n", said?)?;
        self.text.push_str(&line)
    }
}

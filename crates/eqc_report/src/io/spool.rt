//! Bytes on their way to a writer: they wait in a block, which is written when it is full. No
//! memory is taken.
ghost use Rattle.std.specs.Prelude.{◌≡◌, ℕ, List, [], ◌∷◌, Option, OnOk, OnErr, false};
ghost use Rattle.std.specs.Io.KnownBytes.{Appends};
ghost use Rattle.eqc_report.specs.Ends.{AppendsPrefix};
ghost use Rattle.eqc_report.specs.Spooling.{Puts, IsPut};

use crate::io::writing::{write_all, write_whole};
use std::io;
use std::io::Write;
use std::marker::Model;

/// How many bytes wait, at most.
const BLOCK: usize = 4_096;

/// Bytes that wait to be written. After a write that failed nothing more is written.
#[derive(Drop)]
pub(crate) struct Spool {
    block: [u8; BLOCK],
    len: usize,
    failed: Option<io::Error>,
}

impl Model for Spool {
    ghost use Rattle.std.specs.Prelude.{◌≤◌, take, is_some};
    ghost use Rattle.eqc_report.specs.Spooling.{SpoolOf};

    ghost Value = { SpoolOf };

    ghost view = { λ a. record { waits = take a.len a.block; failed = is_some a.failed } };

    ghost invariant = { λ a. a.len ≤ 4096 };
}

impl Spool {
    /// Nothing waits.
    pub fn new() -> Spool
        ensures { result ≡ record { waits = []; failed = false } }
    {
        Spool {
            block: [0; BLOCK],
            len: 0,
            failed: None,
        }
    }

    /// Puts a byte behind those that wait.
    fn put_byte<W: Write>(&mut self, out: &mut W, byte: u8)
        ensures { Puts (W.contents out.old) (W.contents out.new) self.old self.new (byte ∷ []) }
    {
        if self.failed.is_some() {
            return;
        }
        if self.len == BLOCK {
            if let Err(error) = write_all(out, &self.block) {
                self.failed = Some(error);
                return;
            }
            self.len = 0;
        }
        self.block[self.len] = byte;
        self.len += 1;
    }

    /// Puts bytes behind those that wait.
    pub fn put<W: Write>(&mut self, out: &mut W, bytes: &[u8])
        ensures { Puts (W.contents out.old) (W.contents out.new) self.old self.new bytes.now }
    {
        for byte in bytes {
            self.put_byte(out, *byte);
        }
    }

    /// Writes what waits, and flushes the writer. An error is the first that came.
    pub fn close<W: Write>(self, out: &mut W) -> io::Result<()>
        ensures whole { (start : Option (List ℕ)) (text : List ℕ) → IsPut start (W.contents out.old) self text → OnOk result (Appends start (W.contents out.new) text) }
        ensures part { (start : Option (List ℕ)) (text : List ℕ) → IsPut start (W.contents out.old) self text → OnErr result (AppendsPrefix start (W.contents out.new) text) }
    {
        let Spool { block, len, failed } = self;
        match failed {
            Some(error) => Err(error),
            None => write_whole(out, &block[..len]),
        }
    }
}

//! The reading of a text in blocks, up to one byte more than a text may have.
ghost use Rattle.std.specs.Prelude.{◌≡◌, ◌<◌, ◌≤◌, ◌^◌, ◌+◌, length, IfOk, if◌then◌else◌, IfSome, IsTrue, false, vec_len};
ghost use Rattle.std.specs.Io.{ReadsAtMost};
ghost use Rattle.std.specs.Io.KnownBytes.{Consumes, IsAtEnd, ReadConsumes};
ghost use Rattle.eqc_case.specs.Reading.{Gives, bytes_read};

use eqc_report::StreamFault;
use std::alloc::{AllocError, Global};
use std::io;
use std::io::Read;

/// How far a reader has come. One that is done or has failed isn't used again.
#[derive(Clone, Copy, Debug, PartialEq, Eq)]
enum Stage {
    Open,
    /// Read to its end.
    Done,
    Failed,
}

/// How many bytes one read may give.
const BLOCK: usize = 65_536;

/// A reader, and how often it was asked for bytes.
#[derive(Drop)]
pub(crate) struct Counted<R> {
    reader: R,
    reads: u32,
}

impl<R: Read> Counted<R> {
    /// One that wasn't asked yet.
    pub(crate) fn of(reader: R) -> Counted<R>
        ensures reader { result.reader ≡ reader }
        ensures reads { result.reads ≡ 0 }
    {
        Counted { reader, reads: 0 }
    }

    /// Asks the reader once.
    fn read(&mut self, buf: &mut [u8]) -> io::Result<usize>
        requires { self.old.reads < 2 ^ 31 }
        ensures bound { ReadsAtMost result buf.new }
        ensures bytes { ReadConsumes (R.remaining self.old.reader) (R.remaining self.new.reader) result buf.new }
        ensures counted { self.new.reads ≡ self.old.reads + 1 }
    {
        self.reads += 1;
        self.reader.read(buf)
    }
}

/// Reads a block onto the text, but no more than `most` bytes in all, and says whether more may
/// follow.
fn read_more<R: Read>(
    reader: &mut Counted<R>,
    stage: &mut Stage,
    block: &mut [u8],
    text: &mut Vec<u8>,
    most: usize,
) -> Result<bool, StreamFault>
    requires open { stage.old ≡ Stage.Open }
    requires room { 0 < length block.old }
    requires short { vec_len text.old < most }
    requires few { reader.old.reads < 2 ^ 31 }
    ensures given { IfOk result (λ _. Gives (R.remaining reader.old.reader) (R.remaining reader.new.reader) text.old.items text.new.items) }
    ensures grown { IfOk result (λ more. IsTrue more → vec_len text.old < vec_len text.new) }
    ensures most { vec_len text.new ≤ most }
    ensures end { IfOk result (λ more. more ≡ false → IsAtEnd (R.remaining reader.new.reader)) }
    ensures counted { reader.new.reads ≡ reader.old.reads + 1 }
    ensures stage { IfOk result (λ more. stage.new ≡ (if more then Stage.Open else Stage.Done)) }
{
    let room = block.len().min(most - text.len());
    let part = &mut block[..room];
    match reader.read(part) {
        Ok(0) => {
            *stage = Stage::Done;
            Ok(false)
        }
        Ok(n) => {
            text.extend_from_slice(&part[..n])?;
            Ok(true)
        }
        Err(error) => {
            *stage = Stage::Failed;
            Err(StreamFault::Failed(error))
        }
    }
}

/// A block of zeros. It is made apart for the proof's sake: whatever meets its 65,536 bytes there
/// writes them out.
fn new_block(alloc: Global) -> Result<Vec<u8>, AllocError>
    ensures { IfOk result (λ block. vec_len block ≡ BLOCK) }
{
    vec![in alloc; 0; BLOCK]
}

/// Reads a text that may have `limit` bytes until its end, or one byte past them, in blocks, of a
/// reader that wasn't asked before. It takes room as the text grows. A read that fails isn't tried
/// again. The reader is asked at most once more than the text has bytes, and at most once more than
/// it may have.
pub(crate) fn read_text<R: Read>(
    alloc: Global,
    reader: &mut Counted<R>,
    limit: u32,
) -> Result<Vec<u8>, StreamFault>
    requires limit { limit < 2 ^ 31 }
    requires unasked { reader.old.reads ≡ 0 }
    ensures text { IfOk result (λ text. IfSome (R.remaining reader.old.reader) (λ bytes. text.items ≡ bytes_read limit bytes)) }
    ensures rest { IfOk result (λ text. Consumes (R.remaining reader.old.reader) (R.remaining reader.new.reader) text.items) }
    ensures most { IfOk result (λ text. vec_len text ≤ limit + 1) }
    ensures reads { IfOk result (λ text. reader.new.reads ≤ vec_len text + 1) }
    ensures few { reader.new.reads ≤ limit + 1 }
{
    let most = limit as usize + 1;
    let mut stage = Stage::Open;
    let mut block = new_block(alloc)?;
    let mut text = Vec::new(alloc);
    'reads: while text.len() < most {
        if !read_more(reader, &mut stage, &mut block, &mut text, most)? {
            return Ok(text);
        }
    }
    Ok(text)
}

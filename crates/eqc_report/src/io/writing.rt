//! The writing of a text: whole and flushed, with nothing tried again.
ghost use Rattle.std.specs.Prelude.{◌≡◌, ◌<◌, ◌≤◌, [], length, take, IfOk, IfErr, OnOk, OnErr, is_ok, if◌then◌else◌};
ghost use Rattle.std.specs.Io.KnownBytes.{Appends, Keeps};
ghost use Rattle.eqc_report.specs.Ends.{AppendsPrefix};

use crate::io::Stage;
use crate::io::fault::RunFault;
use std::io;
use std::io::{ErrorKind, Write};

/// Writes some of these bytes, and says how many: one at least. A write that takes nothing has
/// failed.
fn write_some<W: Write>(out: &mut W, stage: &mut Stage, bytes: &[u8]) -> io::Result<usize>
    requires { stage.old ≡ Stage.Open }
    ensures some { IfOk result (λ n. (0 < n) × (n ≤ length bytes.now)) }
    ensures written { IfOk result (λ n. Appends (W.contents out.old) (W.contents out.new) (take n bytes.now)) }
    ensures kept { OnErr result (Appends (W.contents out.old) (W.contents out.new) []) }
    ensures stage { stage.new ≡ (if is_ok result then Stage.Open else Stage.Failed) }
{
    match out.write(bytes) {
        Ok(0) => {
            *stage = Stage::Failed;
            Err(io::Error::from(ErrorKind::WriteZero))
        }
        Ok(n) => Ok(n),
        Err(error) => {
            *stage = Stage::Failed;
            Err(error)
        }
    }
}

fn flush<W: Write>(out: &mut W, stage: &mut Stage) -> io::Result<()>
    requires { stage.old ≡ Stage.Open }
    ensures kept { Keeps (W.contents out.old) (W.contents out.new) }
    ensures stage { stage.new ≡ (if is_ok result then Stage.Done else Stage.Failed) }
{
    match out.flush() {
        Ok(()) => {
            *stage = Stage::Done;
            Ok(())
        }
        Err(error) => {
            *stage = Stage::Failed;
            Err(error)
        }
    }
}

/// Writes the text whole. The stage tells how it ended.
fn write_text_in<W: Write>(out: &mut W, stage: &mut Stage, text: &[u8]) -> io::Result<()>
    requires { stage.old ≡ Stage.Open }
    ensures whole { OnOk result (Appends (W.contents out.old) (W.contents out.new) text.now) }
    ensures part { OnErr result (AppendsPrefix (W.contents out.old) (W.contents out.new) text.now) }
    ensures stage { stage.new ≡ (if is_ok result then Stage.Open else Stage.Failed) }
{
    let mut done = 0;
    'writes: while done < text.len() {
        done += write_some(out, stage, &text[done..])?;
    }
    Ok(())
}

/// Writes the text, in as many writes as it takes, and doesn't flush it. Nothing is tried again. No
/// memory is taken.
pub(crate) fn write_all<W: Write>(out: &mut W, text: &[u8]) -> io::Result<()>
    ensures whole { OnOk result (Appends (W.contents out.old) (W.contents out.new) text.now) }
    ensures part { OnErr result (AppendsPrefix (W.contents out.old) (W.contents out.new) text.now) }
{
    let mut stage = Stage::Open;
    write_text_in(out, &mut stage, text)
}

/// Writes the text whole, and flushes it. The stage tells how it ended.
fn write_to_end<W: Write>(out: &mut W, stage: &mut Stage, text: &[u8]) -> io::Result<()>
    requires { stage.old ≡ Stage.Open }
    ensures whole { OnOk result (Appends (W.contents out.old) (W.contents out.new) text.now) }
    ensures part { OnErr result (AppendsPrefix (W.contents out.old) (W.contents out.new) text.now) }
    ensures stage { stage.new ≡ (if is_ok result then Stage.Done else Stage.Failed) }
{
    write_text_in(out, stage, text)?;
    flush(out, stage)
}

/// Writes the text, in as many writes as it takes, and flushes it. Nothing is tried again. No
/// memory is taken.
pub(crate) fn write_whole<W: Write>(out: &mut W, text: &[u8]) -> io::Result<()>
    ensures whole { OnOk result (Appends (W.contents out.old) (W.contents out.new) text.now) }
    ensures part { OnErr result (AppendsPrefix (W.contents out.old) (W.contents out.new) text.now) }
{
    let mut stage = Stage::Open;
    write_to_end(out, &mut stage, text)
}

/// Writes the text, in as many writes as it takes, and flushes it. A write that fails or takes
/// nothing, or a flush that fails, is `Write`; nothing is tried again. No memory is taken.
pub fn write_text<W: Write>(out: &mut W, text: &[u8]) -> Result<(), RunFault>
    ensures whole { OnOk result (Appends (W.contents out.old) (W.contents out.new) text.now) }
    ensures part { OnErr result (AppendsPrefix (W.contents out.old) (W.contents out.new) text.now) }
    ensures fault { IfErr result (λ fault. fault ≡ RunFault.Write) }
{
    match write_whole(out, text) {
        Ok(()) => Ok(()),
        Err(_) => Err(RunFault::Write),
    }
}

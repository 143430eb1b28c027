//! The bytes of reports.
ghost use Rattle.std.specs.Prelude.{◌≡◌, ◌≢◌, ◌++◌, ◌∷◌, [], map, string_bytes, IfOk, OnOk, OnErr, IfErr};
ghost use Rattle.std.specs.Io.KnownBytes.{Appends, Keeps};
ghost use Rattle.eqc_tree.specs.Stopping.{code_of};
ghost use Rattle.eqc_report.specs.Ends.{AppendsPrefix};
ghost use Rattle.eqc_report.specs.Spooling.{Puts};
ghost use Rattle.std.specs.List.{flat_map, zip};
ghost use Rattle.eqc_report.specs.Report.{text, block, value_line, stopped, refused, differs};
ghost use Rattle.eqc_report.specs.ReportView.{difference_of, differences_of, report_of, IsRefusal};
ghost use Rattle.eqc_report.specs.Written.{IsShown, IsWritten, IsCutShort};

use crate::io::fault::{RunFault, StreamFault};
use crate::io::spool::Spool;
use crate::io::writing::write_whole;
use crate::report::{Difference, Differences, Report, Status};
use eqc_netlist::Name;
use eqc_pair::Refused;
use eqc_tree::Stop;
use std::alloc::{AllocError, Global};
use std::io;
use std::io::Write;

/// `stopped CODE` with its LF. It takes no memory.
fn stopped_text(stop: Stop) -> [u8; 11]
    ensures { result ≡ text (stopped (code_of stop)) }
{
    let code = stop.code();
    let mut text = *b"stopped 00\n";
    text[8] = b'0' + code / 10;
    text[9] = b'0' + code % 10;
    text
}

/// `refused SIDE LINE CODE` with its LF.
fn refused_text(alloc: Global, refusal: Refused) -> Result<String, AllocError>
    ensures { IfOk result (λ s. string_bytes s ≡ text (refused refusal.side refusal.line refusal.code)) }
{
    let Refused { side, line, code } = refusal;
    format!(in alloc; "refused {} {line} {code}\n", side.word())
}

/// Puts `NAME=0` or `NAME=1` with its LF.
fn put_value<W: Write>(out: &mut W, spool: &mut Spool, name: &[u8], value: bool)
    ensures { Puts (W.contents out.old) (W.contents out.new) spool.old spool.new (value_line (name.now, value)) }
{
    spool.put(out, name);
    spool.put(out, if value { b"=1\n" } else { b"=0\n" });
}

/// Puts a line for each of these inputs with its value.
fn put_values<W: Write>(out: &mut W, spool: &mut Spool, inputs: &[Name], values: &[bool])
    ensures { Puts (W.contents out.old) (W.contents out.new) spool.old spool.new (flat_map value_line (zip inputs.now values.now)) }
{
    for k in 0..inputs.len().min(values.len()) {
        put_value(out, spool, inputs[k].as_bytes(), values[k]);
    }
}

/// Puts `differs at NAME`, a line for each input, and one for each netlist's value.
fn put_difference<W: Write>(
    out: &mut W,
    spool: &mut Spool,
    inputs: &[Name],
    difference: &Difference,
)
    ensures { Puts (W.contents out.old) (W.contents out.new) spool.old spool.new (block (difference_of inputs.now difference.now)) }
{
    spool.put(out, b"differs at ");
    spool.put(out, difference.name.as_bytes());
    spool.put(out, b"\n");
    put_values(out, spool, inputs, &difference.values);
    put_value(out, spool, b"first", difference.first);
    put_value(out, spool, b"second", !difference.first);
}

/// Puts the lines on each of these outputs.
fn put_each<W: Write>(out: &mut W, spool: &mut Spool, inputs: &[Name], differences: &[Difference])
    ensures { Puts (W.contents out.old) (W.contents out.new) spool.old spool.new (flat_map (λ d. block (difference_of inputs.now d)) differences.now) }
{
    for difference in differences {
        put_difference(out, spool, inputs, difference);
    }
}

/// Writes the lines on these outputs as they are made, and flushes the writer. No memory is taken.
fn put_differences<W: Write>(out: &mut W, differences: &Differences) -> io::Result<()>
    ensures whole { OnOk result (Appends (W.contents out.old) (W.contents out.new) (text (differs (differences_of differences.now)))) }
    ensures part { OnErr result (AppendsPrefix (W.contents out.old) (W.contents out.new) (text (differs (differences_of differences.now)))) }
{
    let mut spool = Spool::new();
    put_each(out, &mut spool, &differences.inputs, &differences.each);
    spool.close(out)
}

/// Writes the report's bytes and flushes the writer. Memory is refused before the first byte, and
/// for a refusal alone. Nothing is tried again.
fn put_report<W: Write>(alloc: Global, report: &Report, out: &mut W) -> Result<(), StreamFault>
    ensures written { OnOk result (Appends (W.contents out.old) (W.contents out.new) (text (report_of report.now))) }
    ensures part { OnErr result (AppendsPrefix (W.contents out.old) (W.contents out.new) (text (report_of report.now))) }
    ensures memory { IfErr result (λ fault. fault ≡ StreamFault.Refused → Keeps (W.contents out.old) (W.contents out.new)) }
    ensures answers { IfErr result (λ fault. fault ≡ StreamFault.Refused → IsRefusal (report_of report.now)) }
{
    match report {
        Report::Equivalent => write_whole(out, b"equivalent\n")?,
        Report::Differs(differences) => put_differences(out, differences)?,
        Report::Vacuous => write_whole(out, b"vacuous\n")?,
        Report::Refused(refusal) => {
            let text = refused_text(alloc, *refusal)?;
            write_whole(out, text.as_bytes())?
        }
        Report::Stopped(stop) => write_whole(out, &stopped_text(*stop))?,
    }
    Ok(())
}

/// Writes the report's bytes and flushes the writer. `Memory` comes before the first byte, and for
/// a report that is a refusal alone; a write that fails or takes nothing, or a flush that fails, is
/// `Write`, and nothing is tried again.
pub fn write_report<W: Write>(alloc: Global, report: &Report, out: &mut W) -> Result<(), RunFault>
    ensures written { OnOk result (Appends (W.contents out.old) (W.contents out.new) (text (report_of report.now))) }
    ensures part { OnErr result (AppendsPrefix (W.contents out.old) (W.contents out.new) (text (report_of report.now))) }
    ensures memory { IfErr result (λ fault. fault ≡ RunFault.Memory → Keeps (W.contents out.old) (W.contents out.new)) }
    ensures answers { IfErr result (λ fault. fault ≡ RunFault.Memory → IsRefusal (report_of report.now)) }
    ensures read { IfErr result (λ fault. fault ≢ RunFault.Read) }
{
    match put_report(alloc, report, out) {
        Ok(()) => Ok(()),
        Err(StreamFault::Refused) => Err(RunFault::Memory),
        Err(StreamFault::Failed(_)) => Err(RunFault::Write),
    }
}

/// Writes `stopped 72`, which takes no memory.
fn write_stopped<W: Write>(out: &mut W) -> io::Result<Status>
    ensures written { IfOk result (λ status. IsShown (stopped 72) (W.contents out.old) (W.contents out.new) status) }
    ensures part { OnErr result (AppendsPrefix (W.contents out.old) (W.contents out.new) (text (stopped 72))) }
{
    write_whole(out, &stopped_text(Stop::Memory))?;
    Ok(Status::Stopped)
}

/// Writes the bytes of a report of any kind and flushes the writer, or does so with those of
/// `stopped 72` where the report is a refusal, whose bytes take memory, and that is refused. It
/// answers the kind of what was written. Nothing is tried again.
///
/// It fails with the writer's error where a write or the flush fails, and with `WriteZero` where a
/// write takes nothing; then a part of what was to be written was written, and maybe all of it.
pub fn write_or_stop<W: Write>(alloc: Global, report: &Report, out: &mut W) -> io::Result<Status>
    ensures written { IfOk result (λ status. IsWritten (report_of report.now) (W.contents out.old) (W.contents out.new) status) }
    ensures part { OnErr result (IsCutShort (report_of report.now) (W.contents out.old) (W.contents out.new)) }
{
    match put_report(alloc, report, out) {
        Ok(()) => Ok(report.status()),
        Err(StreamFault::Refused) => write_stopped(out),
        Err(StreamFault::Failed(error)) => Err(error),
    }
}

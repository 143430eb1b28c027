//! Which kind of statement a logical line is, by the command that it begins with, or a row of a
//! cover.
ghost use Rattle.std.specs.Prelude.{◌≡◌, true};
ghost use Rattle.eqc_blif.specs.Kind.{kind_of, kind_of_line, skipped};
ghost use Rattle.eqc_netlist.specs.Names.{is_named};

use crate::text::words::is_blank;

/// What kind of statement a logical line is.
#[derive(Clone, Copy, Debug, PartialEq, Eq)]
pub enum Kind {
    Model,
    Inputs,
    Outputs,
    Names,
    Subckt,
    End,
    Latch,
    Skipped,
    Unknown,
    Row,
}

/// Whether a command is skipped with its line.
fn is_skipped(word: &[u8]) -> bool
    ensures { result ≡ is_named skipped word.now }
{
    word == b".area".as_slice()
        || word == b".delay".as_slice()
        || word == b".wire".as_slice()
        || word == b".wire_load_slope".as_slice()
        || word == b".input_arrival".as_slice()
        || word == b".default_input_arrival".as_slice()
        || word == b".output_required".as_slice()
        || word == b".default_output_required".as_slice()
        || word == b".input_drive".as_slice()
        || word == b".default_input_drive".as_slice()
        || word == b".max_input_load".as_slice()
        || word == b".default_max_input_load".as_slice()
        || word == b".output_load".as_slice()
        || word == b".default_output_load".as_slice()
        || word == b".attr".as_slice()
        || word == b".cname".as_slice()
}

/// Whether a line is a row by its first byte, which is neither a blank nor the `.` of a command.
/// Most lines of a large text are rows, and their words need not be cut then.
#[inline(always)]
pub(crate) fn begins_row(line: &[u8]) -> bool
    ensures { result ≡ true → kind_of_line line.now ≡ Kind.Row }
{
    match line.first() {
        Some(byte) => !is_blank(*byte) && *byte != b'.',
        None => false,
    }
}

/// What kind of statement begins with this word.
pub(crate) fn kind_of(word: &[u8]) -> Kind
    ensures { result ≡ kind_of word.now }
{
    if word.first() != Some(&b'.') {
        Kind::Row
    } else if word == b".names".as_slice() {
        Kind::Names
    } else if word == b".subckt".as_slice() {
        Kind::Subckt
    } else if word == b".model".as_slice() {
        Kind::Model
    } else if word == b".inputs".as_slice() {
        Kind::Inputs
    } else if word == b".outputs".as_slice() {
        Kind::Outputs
    } else if word == b".end".as_slice() {
        Kind::End
    } else if word == b".latch".as_slice() {
        Kind::Latch
    } else if is_skipped(word) {
        Kind::Skipped
    } else {
        Kind::Unknown
    }
}

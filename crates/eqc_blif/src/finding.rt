//! What a refusal of a text is about: the byte, word, row, name or number at fault, by the rule
//! that it breaks.
pub(crate) mod bad_byte;
pub(crate) mod line_findings;
pub(crate) mod refused_line;

use eqc_netlist::Name;

/// What is at fault in a text that is refused.
#[derive(Drop)]
pub enum Finding {
    /// 1: the first byte that is no part of a text, with the number of its physical line and its
    /// column there, both from 1.
    ControlByte { byte: u8, line: u32, column: usize },
    /// 2: how many bytes the text has, and how many it may have.
    TextTooLong { bytes: usize, limit: usize },
    /// 3: the first word of the line, which begins with `.` and is no command that is known.
    UnknownCommand(Name),
    /// 5: the first word of the line after `.end`.
    BehindEnd(Name),
    /// 6: the row, as it stands in its line.
    RowOutsideCover(Name),
    /// 7: the row, as it stands in its line, and how many columns its cover has. Beside blanks it
    /// wants a place for each of them and one for the output.
    RowShape { row: Name, columns: usize },
    /// 8: the last character of the row, and that of the cover's first row.
    RowOutput { output: u8, first: u8 },
    /// 9: a word of `.subckt` that is no pair, the first of them.
    NoPair(Name),
    /// 10: `.names` or `.subckt`, whose line has no other word.
    NoWord(Name),
    /// 11: the name of a model that an earlier model has.
    ModelTwice(Name),
    /// 12: a name that stands twice in the inputs of a model.
    InputTwice(Name),
    /// 12: a name that stands twice in the outputs of a model.
    OutputTwice(Name),
    /// 13: no line of the text is a statement.
    NoStatement,
}

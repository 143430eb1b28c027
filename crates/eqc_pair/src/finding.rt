//! What a refusal of a pair is about: inputs or outputs that the other netlist lacks, chosen
//! outputs that are none, what is wrong in the order text, or inputs and outputs of the assumption.

use crate::unmatched::Unmatched;

/// What is at fault in two netlists that make no pair, or in what is given for them: names of
/// outputs, an order text, an assumption.
#[derive(Drop)]
pub enum Finding<'a> {
    /// 41: the inputs of the first netlist that the second lacks, and those of the second that the
    /// first lacks.
    OtherInputs {
        first: Unmatched<'a>,
        second: Unmatched<'a>,
    },
    /// 42: the outputs of the first netlist that the second lacks, and those of the second that the
    /// first lacks.
    OtherOutputs {
        first: Unmatched<'a>,
        second: Unmatched<'a>,
    },
    /// 43: the names of chosen outputs that are those of none.
    UnknownOutputs(Unmatched<'a>),
    /// 2: how many bytes the order text has, and how many it may have.
    OrderTooLong {
        bytes: usize,
        limit: usize,
    },
    /// 51: the words that are no inputs.
    UnknownWords(Unmatched<'a>),
    /// 52: a word that stands twice.
    WordTwice(&'a [u8]),
    /// 53: the inputs that the order text leaves out.
    InputsLeftOut(Unmatched<'a>),
    /// 61: the inputs of the assumption that the netlists lack.
    UnknownInputs(Unmatched<'a>),
    /// 62: how many outputs the assumption has.
    OutputCount(usize),
}

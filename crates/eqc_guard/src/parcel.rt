//! What a box has, and its word.
ghost use Rattle.std.specs.Prelude.{◌≡◌, ◌≢◌, ◌<◌, ◌≤◌, ◌^◌};
ghost use Rattle.eqc_tree.specs.Operation.{tag_of};
ghost use Rattle.eqc_guard.specs.Sharing.{number_of, parcel_word, IsWhole, IsParcelWord};

use crate::filled::Filled;
use crate::reference::Ref;
use eqc_tree::{Op, Stop, pack_cell, unpack_cell};

/// What a box has, with the references that are the box's then.
pub enum Parcel {
    /// Nothing.
    Empty,
    /// An operation to be done, and its operands.
    Task(Op, Ref, Ref),
    /// An operation that was done: its operands and its result.
    Done(Filled),
    /// Why an operation stopped, and its operands. It is not for want of threads.
    Stopped(Stop, Ref, Ref),
}

// What the number of an operation is raised by in the word of a task.
const TASK: u8 = 4;

// The number of a stop in the word of a box.
fn stop_number(stop: Stop) -> u8
    ensures { result ≡ number_of stop }
{
    match stop {
        Stop::References => 13,
        Stop::NodeLimit => 14,
        Stop::Memory => 15,
        Stop::Threads => 0,
    }
}

// The stop with this number.
fn stop_of(number: u8) -> Stop
    requires from { 12 < number }
    requires upto { number < 16 }
    ensures number { number_of result ≡ number }
    ensures other { result ≢ Stop.Threads }
{
    match number {
        13 => Stop::References,
        14 => Stop::NodeLimit,
        _ => Stop::Memory,
    }
}

// The word of a box with this parcel.
pub(crate) fn word_of(parcel: Parcel) -> u64
    requires { IsWhole parcel }
    ensures { result ≡ parcel_word parcel }
{
    match parcel {
        Parcel::Empty => 0,
        Parcel::Task(op, f, g) => {
            let Ref { number: first } = f;
            let Ref { number: second } = g;
            pack_cell(op.tag() + TASK, first, second, 0)
        }
        Parcel::Done(Filled { op, f, g, r }) => {
            let Ref { number: first } = f;
            let Ref { number: second } = g;
            let Ref { number: found } = r;
            pack_cell(op.tag(), first, second, found)
        }
        Parcel::Stopped(stop, f, g) => {
            let Ref { number: first } = f;
            let Ref { number: second } = g;
            pack_cell(stop_number(stop), first, second, 0)
        }
    }
}

// The operation with this number.
fn operation(tag: u8) -> Op
    requires from { 0 < tag }
    requires upto { tag < 5 }
    ensures { tag_of result ≡ tag }
{
    match tag {
        1 => Op::And,
        2 => Op::Or,
        3 => Op::Xor,
        _ => Op::AndNot,
    }
}

// The parcel in the word of a box, which the box gives up.
pub(crate) fn parcel_of(word: u64) -> Parcel
    requires { IsParcelWord word }
    ensures word { parcel_word result ≡ word }
    ensures whole { IsWhole result }
{
    if word == 0 {
        return Parcel::Empty;
    }
    let (tag, first, second, found) = unpack_cell(word);
    let f = Ref { number: first };
    let g = Ref { number: second };
    if tag <= TASK {
        let op = operation(tag);
        let r = Ref { number: found };
        return Parcel::Done(Filled { op, f, g, r });
    }
    if tag <= TASK + TASK {
        return Parcel::Task(operation(tag - TASK), f, g);
    }
    Parcel::Stopped(stop_of(tag), f, g)
}

//! What a run is given, and what is read of it.
ghost use Rattle.std.specs.Prelude.{◌≡◌, ◌≢◌, ◌<◌, ◌^◌, ◌≤◌, None, IfOk, IfErr};
ghost use Rattle.std.specs.Option.{option_copied};
ghost use Rattle.eqc_case.specs.Sources.{items_of, IsRead, MayBeRead, AreRead, HasTextOf};

use crate::choice::{ModelNames, OutputNames};
use crate::reading::{Counted, read_text};
use eqc_pair::Side;
use eqc_report::{Options, StreamFault};
use std::alloc::Global;
use std::io::Read;

/// The texts of a run: one, of which the first two models are compared, or two, of which the main
/// (first) models are.
#[derive(Drop)]
pub enum Texts<R> {
    One(R),
    Two(R, R),
}

/// What a run is given.
#[derive(Drop)]
pub struct Given<'a, R> {
    pub texts: Texts<R>,
    /// The names of the models that are compared.
    pub names: ModelNames<'a>,
    /// The order of variables; without it, the inputs' order in the first netlist.
    pub order: Option<R>,
    /// A netlist that says which assignments of the inputs count; without it, all do.
    pub assume: Option<R>,
    /// The outputs that are compared.
    pub outputs: OutputNames<'a>,
    pub options: Options,
}

/// What a run was given, with the bytes that were read.
#[derive(Drop)]
pub struct Case<'a> {
    pub first: Vec<u8>,
    /// None where the first text has both models.
    pub second: Option<Vec<u8>>,
    pub names: ModelNames<'a>,
    pub order: Option<Vec<u8>>,
    pub assume: Option<Vec<u8>>,
    pub outputs: OutputNames<'a>,
    pub options: Options,
}

/// The bytes of a text that may be missing.
pub fn bytes_of(text: &Option<Vec<u8>>) -> Option<&[u8]>
    ensures { option_copied result ≡ items_of text.now }
{
    match text {
        Some(text) => Some(text.as_slice()),
        None => None,
    }
}

/// A text that was not read, and why.
#[derive(Drop)]
pub struct Unread {
    pub side: Side,
    pub fault: StreamFault,
}

/// How many bytes an order text may have.
const ORDER_BYTES: u32 = 16_777_216;

/// Reads the text of a side, which may have so many bytes.
fn read_side<R: Read + Drop>(
    alloc: Global,
    side: Side,
    text: R,
    limit: u32,
) -> Result<Vec<u8>, Unread>
    requires { limit < 2 ^ 31 }
    ensures read { IfOk result (λ read. IsRead limit (R.remaining text) read.items) }
    ensures unread { IfErr result (λ unread. unread.side ≡ side) }
{
    let mut reader = Counted::of(text);
    match read_text(alloc, &mut reader, limit) {
        Ok(read) => Ok(read),
        Err(fault) => Err(Unread { side, fault }),
    }
}

/// A text that may be missing, and may have so many bytes.
fn read_some<R: Read + Drop>(
    alloc: Global,
    side: Side,
    text: Option<R>,
    limit: u32,
) -> Result<Option<Vec<u8>>, Unread>
    requires { limit < 2 ^ 31 }
    ensures read { IfOk result (λ read. MayBeRead limit R.remaining text (items_of read)) }
    ensures unread { IfErr result (λ unread. (unread.side ≡ side) × (text ≢ None)) }
{
    match text {
        None => Ok(None),
        Some(text) => Ok(Some(read_side(alloc, side, text, limit)?)),
    }
}

/// Reads what a run is given, where the text of a netlist may have so many bytes.
fn read_within<'a, R: Read + Drop>(
    alloc: Global,
    given: Given<'a, R>,
    limit: u32,
) -> Result<Case<'a>, Unread>
    requires { limit < 2 ^ 31 }
    ensures read { IfOk result (AreRead limit R.remaining given.entry) }
    ensures unread { IfErr result (λ unread. HasTextOf given.entry unread.side) }
{
    let Given {
        texts,
        names,
        order,
        assume,
        outputs,
        options,
    } = given;
    let (first, second) = match texts {
        Texts::One(text) => (text, None),
        Texts::Two(first, second) => (first, Some(second)),
    };
    let first = read_side(alloc, Side::First, first, limit)?;
    let second = read_some(alloc, Side::Second, second, limit)?;
    let order = read_some(alloc, Side::Order, order, ORDER_BYTES)?;
    let assume = read_some(alloc, Side::Assume, assume, limit)?;
    Ok(Case {
        first,
        second,
        names,
        order,
        assume,
        outputs,
        options,
    })
}

/// Reads the first text whole, then the second, then the order text, then the assumption's. Of each
/// at most one byte more is read than it may have: a netlist as many as the options allow, an order
/// text 16,777,216. It fails with the first text that was not read, which is one of those that are
/// given, and why: memory was refused, or its reader failed.
pub fn read_given<'a, R: Read + Drop>(
    alloc: Global,
    given: Given<'a, R>,
) -> Result<Case<'a>, Unread>
    ensures read { given.entry.options.bytes ≤ 2147483647 → IfOk result (AreRead given.entry.options.bytes R.remaining given.entry) }
    ensures unread { IfErr result (λ unread. HasTextOf given.entry unread.side) }
{
    let limit = given.options.byte_limit();
    read_within(alloc, given, limit)
}

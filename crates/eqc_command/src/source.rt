//! Where the texts come from: standard input and files.
ghost use Rattle.std.specs.Prelude.{IfOk};
ghost use Rattle.eqc_command.specs.Sources.{source_remaining, IsFileOf, MayBeFileOf, AreFilesOf, AreAskedFor};

use eqc_case::Texts;
use eqc_words::Request;
use std::fs::File;
use std::io;
use std::io::Read;
use std::rt::Files;

/// Standard input, or a file with its path.
#[derive(Drop)]
pub enum Source<'a, R, F> {
    Input(R),
    File(&'a str, F),
}

impl<'a, R: Read, F: Read> Read for Source<'a, R, F> {
    ghost remaining = { source_remaining R.remaining F.remaining };

    fn read(&mut self, buf: &mut [u8]) -> io::Result<usize> {
        match self {
            Source::Input(input) => input.read(buf),
            Source::File(_, file) => file.read(buf),
        }
    }
}

/// The texts of a run, its order text and its assumption's, all of them open.
#[derive(Drop)]
pub struct Sources<'a, R, F> {
    pub texts: Texts<Source<'a, R, F>>,
    pub order: Option<Source<'a, R, F>>,
    pub assume: Option<Source<'a, R, F>>,
}

/// A file that could not be opened.
#[derive(Drop)]
pub struct Unopened<'a> {
    pub path: &'a str,
    pub error: io::Error,
}

/// Opens a file to be read.
fn open_file<'a, RT: Files, R>(
    rt: &RT,
    path: &'a str,
) -> Result<Source<'a, R, RT::File>, Unopened<'a>>
    ensures { IfOk result (IsFileOf path.entry) }
{
    match File::open(rt, path) {
        Ok(file) => Ok(Source::File(path, file)),
        Err(error) => Err(Unopened { path, error }),
    }
}

/// Opens a file that may not be wanted.
fn open_some<'a, RT: Files, R>(
    rt: &RT,
    path: Option<&'a str>,
) -> Result<Option<Source<'a, R, RT::File>>, Unopened<'a>>
    ensures { IfOk result (MayBeFileOf path.entry) }
{
    match path {
        None => Ok(None),
        Some(path) => Ok(Some(open_file(rt, path)?)),
    }
}

/// Opens one file or two.
fn open_texts<'a, RT: Files, R: Drop>(
    rt: &RT,
    first: &'a str,
    second: Option<&'a str>,
) -> Result<Texts<Source<'a, R, RT::File>>, Unopened<'a>>
    ensures { IfOk result (AreFilesOf first.entry second.entry) }
{
    let first = open_file(rt, first)?;
    match open_some(rt, second)? {
        None => Ok(Texts::One(first)),
        Some(second) => Ok(Texts::Two(first, second)),
    }
}

/// Opens all files that are asked for, the first text, the second, the order text and the
/// assumption's, before any is read. Without a file, the text is the input.
pub fn open<'a, RT: Files, R: Drop>(
    rt: &RT,
    request: &Request<'a>,
    input: R,
) -> Result<Sources<'a, R, RT::File>, Unopened<'a>>
    ensures { IfOk result (AreAskedFor request.now input) }
{
    let texts = match request.first {
        None => Texts::One(Source::Input(input)),
        Some(first) => open_texts(rt, first, request.second)?,
    };
    let order = open_some(rt, request.order)?;
    let assume = open_some(rt, request.assume)?;
    Ok(Sources {
        texts,
        order,
        assume,
    })
}

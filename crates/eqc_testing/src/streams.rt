//! Readers, writers, a disk and a terminal: slow ones, and ones that fail.

use std::alloc::Allocator;
use std::fmt::Display;
use std::fs::{Metadata, OpenFile, OpenOptions};
use std::io::{ErrorKind, Read, Seek, SeekFrom, Write};
use std::rt::{Clock, Files};
use std::sync::atomic::{AtomicU64, Ordering};
use std::sync::{Mutex, Wait};
use std::thread::Threads;
use std::time::Duration;
use std::{io, thread};

pub const NEVER: usize = usize::MAX;

/// The error of all that fails. A reader or a writer that tried again after it would go on.
fn failed() -> io::Error {
    io::Error::from(ErrorKind::Interrupted)
}

fn unsupported() -> io::Error {
    io::Error::from(ErrorKind::Unsupported)
}

/// Gives a text, in which `;` stands for LF, at most `step` bytes a read, and fails once, at one of
/// its calls.
#[derive(Drop)]
pub struct Feed<'a> {
    text: &'a [u8],
    step: usize,
    fails_at: usize,
    pub calls: usize,
}

impl<'a> Feed<'a> {
    pub fn new(text: &'a str, step: usize, fails_at: usize) -> Feed<'a> {
        Feed {
            text: text.as_bytes(),
            step,
            fails_at,
            calls: 0,
        }
    }

    pub fn whole(text: &'a str) -> Feed<'a> {
        Feed::new(text, NEVER, NEVER)
    }

    /// The same of a text that has its LFs.
    pub fn of_bytes(text: &'a [u8]) -> Feed<'a> {
        Feed {
            text,
            step: NEVER,
            fails_at: NEVER,
            calls: 0,
        }
    }

    /// Whether the whole text was given.
    pub fn is_at_end(&self) -> bool {
        self.text.is_empty()
    }
}

impl<'a> Read for Feed<'a> {
    fn read(&mut self, buf: &mut [u8]) -> io::Result<usize> {
        let call = self.calls;
        self.calls = call.saturating_add(1);
        if call == self.fails_at {
            return Err(failed());
        }
        let n = self.text.len().min(self.step).min(buf.len());
        let (given, rest) = self.text.split_at(n);
        for (to, from) in buf.iter_mut().zip(given) {
            *to = if *from == b';' { b'\n' } else { *from };
        }
        self.text = rest;
        Ok(n)
    }
}

/// Gives whole blocks without end.
#[derive(Drop)]
pub struct Endless {
    pub calls: usize,
    /// How many bytes were given.
    pub given: usize,
}

impl Endless {
    pub fn new() -> Endless {
        Endless { calls: 0, given: 0 }
    }
}

impl Read for Endless {
    fn read(&mut self, buf: &mut [u8]) -> io::Result<usize> {
        self.calls = self.calls.saturating_add(1);
        self.given = self.given.saturating_add(buf.len());
        Ok(buf.len())
    }
}

/// Takes at most `step` bytes a write, fails once, at one of its writes, and may fail to flush.
#[derive(Drop)]
pub struct Drain {
    pub bytes: Vec<u8>,
    step: usize,
    fails_at: usize,
    flushes: bool,
    pub calls: usize,
}

impl Drain {
    pub fn new(bytes: Vec<u8>, step: usize, fails_at: usize, flushes: bool) -> Drain {
        Drain {
            bytes,
            step,
            fails_at,
            flushes,
            calls: 0,
        }
    }
}

impl Write for Drain {
    fn write(&mut self, buf: &[u8]) -> io::Result<usize> {
        let call = self.calls;
        self.calls = call.saturating_add(1);
        if call == self.fails_at {
            return Err(failed());
        }
        let n = buf.len().min(self.step);
        self.bytes.extend_from_slice(&buf[..n])?;
        Ok(n)
    }

    fn flush(&mut self) -> io::Result<()> {
        if self.flushes { Ok(()) } else { Err(failed()) }
    }
}

/// For how many turns `Terminal::wait` waits.
const TURNS: u32 = 10_000_000;

/// Keeps what is written to standard error, and has a clock on which the same time goes by from
/// each reading to the next.
#[derive(Drop)]
pub struct Terminal {
    text: Mutex<Vec<u8>>,
    writes: AtomicU64,
    readings: AtomicU64,
    /// The milliseconds from one reading to the next.
    step: u32,
}

impl Terminal {
    /// One that keeps what it gets in this text, and whose clock goes on by so many milliseconds.
    pub fn new(text: Vec<u8>, step: u32) -> Terminal {
        Terminal {
            text: Mutex::new(text),
            writes: AtomicU64::new(0),
            readings: AtomicU64::new(0),
            step,
        }
    }

    /// Waits until something is written, or for very long.
    pub fn wait(&self) {
        for _ in 0..TURNS {
            if self.writes.load(Ordering::SeqCst) > 0 {
                return;
            }
            thread::yield_now();
        }
    }

    /// What was written.
    pub fn into_text(self) -> Vec<u8> {
        self.text.into_inner()
    }

    fn put<R: Wait, D: Display + Drop>(&self, rt: &R, value: D) -> io::Result<()> {
        let mut text = self.text.lock(rt);
        let put = write!(text, "{value}");
        self.writes.fetch_add(1, Ordering::SeqCst);
        put
    }

    fn time(&self) -> Duration {
        let readings = self.readings.fetch_add(1, Ordering::SeqCst);
        Duration::from_millis(readings.saturating_mul(u64::from(self.step)))
    }
}

/// Files by their names and a terminal, beside a runtime that has threads. A file whose name ends
/// in `!` fails at its first read. Without a terminal the clock and standard error fail.
#[derive(Clone, Copy)]
pub struct Disk<'a, R> {
    pub files: &'a [(&'a str, &'a str)],
    pub rt: &'a R,
    pub terminal: Option<&'a Terminal>,
}

impl<'a, R> Clock for Disk<'a, R> {
    fn monotonic(&self) -> io::Result<Duration> {
        match self.terminal {
            Some(terminal) => Ok(terminal.time()),
            None => Err(unsupported()),
        }
    }

    fn since_1970(&self) -> io::Result<Duration> {
        Err(unsupported())
    }
}

impl<'a, R: Wait> Eprint for Disk<'a, R> {
    fn eprint<D: Display + Drop>(&self, value: D) -> io::Result<()> {
        match self.terminal {
            Some(terminal) => terminal.put(self.rt, value),
            None => Err(unsupported()),
        }
    }

    fn eprintln<D: Display + Drop>(&self, _value: D) -> io::Result<()> {
        Err(unsupported())
    }
}

impl<'a, R: Threads> Threads for Disk<'a, R> {}

impl<'a, R: Wait> Wait for Disk<'a, R> {}

impl<'a> Seek for Feed<'a> {
    fn seek(&mut self, _to: SeekFrom) -> io::Result<u64> {
        Err(unsupported())
    }
}

impl<'a> Write for Feed<'a> {
    fn write(&mut self, _buf: &[u8]) -> io::Result<usize> {
        Err(unsupported())
    }

    fn flush(&mut self) -> io::Result<()> {
        Err(unsupported())
    }
}

impl<'a> OpenFile for Feed<'a> {
    fn metadata(&self) -> io::Result<Metadata> {
        Err(unsupported())
    }

    fn set_len(&self, _size: u64) -> io::Result<()> {
        Err(unsupported())
    }

    fn sync_all(&self) -> io::Result<()> {
        Err(unsupported())
    }

    fn sync_data(&self) -> io::Result<()> {
        Err(unsupported())
    }
}

impl<'a, R> Files for Disk<'a, R> {
    type File = Feed<'a>;

    type Dir = Endless;

    fn open_file(&self, _how: &OpenOptions, path: &str) -> io::Result<Feed<'a>> {
        for (name, text) in self.files {
            if *name == path {
                let fails_at = if name.ends_with("!") { 0 } else { NEVER };
                return Ok(Feed::new(text, NEVER, fails_at));
            }
        }
        Err(io::Error::from(ErrorKind::NotFound))
    }

    fn open_dir(&self, _path: &str) -> io::Result<Endless> {
        Err(unsupported())
    }

    fn metadata(&self, _path: &str) -> io::Result<Metadata> {
        Err(unsupported())
    }

    fn symlink_metadata(&self, _path: &str) -> io::Result<Metadata> {
        Err(unsupported())
    }

    fn copy(&self, _from: &str, _to: &str) -> io::Result<u64> {
        Err(unsupported())
    }

    fn rename(&self, _from: &str, _to: &str) -> io::Result<()> {
        Err(unsupported())
    }

    fn remove_file(&self, _path: &str) -> io::Result<()> {
        Err(unsupported())
    }

    fn create_dir(&self, _path: &str) -> io::Result<()> {
        Err(unsupported())
    }

    fn remove_dir(&self, _path: &str) -> io::Result<()> {
        Err(unsupported())
    }

    fn remove_dir_all<B: Allocator>(&self, _alloc: B, _path: &str) -> io::Result<()> {
        Err(unsupported())
    }
}

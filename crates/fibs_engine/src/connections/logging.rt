//! Connections with a log.

use crate::dial::Dial;
use crate::link::Link;
use crate::noting::{Noted, Trouble, write_trouble};
use crate::writing::{Unwritten, write_bytes};
use arrayvec::ArrayVec;
use fibs_lines::Lines;
use std::fs::{File, OpenOptions};
use std::io;
use std::io::{ErrorKind, Read, Stderr, Write};
use std::os::unix::fs::OpenOptionsExt;

/// What is written before a line that was sent. It is no prompt of the server, so whoever reads the log keeps it.
const SENT: &[u8] = b">> ";

/// How many bytes of a line that is sent are kept: no line is longer.
const SENT_ROOM: usize = 4200;

/// Who may read a log that is made, and write it: its owner alone, since it has all private talk.
const OWNER_ALONE: u32 = 0o600;

/// What is said of a log before the reason.
const LOG: &[u8] = b"the log can't be written";

/// A log, and where it is said if it can't be written any more. That is said once.
#[derive(Drop)]
pub struct Log<W: Write + Drop, E: Write + Drop> {
    file: Option<Noted<W>>,
    err: E,
}

impl<W: Write + Drop, E: Write + Drop> Log<W, E> {
    /// A log, if one is kept.
    pub fn new(file: Option<W>, err: E) -> Log<W, E> {
        Log {
            file: match file {
                None => None,
                Some(file) => Some(Noted::new(file)),
            },
            err,
        }
    }

    /// Appends a line behind a mark. If it can't be written that is said, and no other line is kept.
    fn keep(&mut self, mark: &[u8], line: &[u8]) {
        let trouble = match &mut self.file {
            None => return,
            Some(file) => match append(mark, line, file) {
                Ok(()) => return,
                Err(_) => file.trouble(),
            },
        };
        self.file = None;
        // if it can't be said, the game goes on all the same
        let _said = write_trouble(LOG, trouble, &mut self.err);
    }
}

/// A stream with a log: each line as it came, without telnet's commands and prompts, and after `>> ` each
/// line that was sent, but for the first, which is the login. A byte 255 is there twice. A log that can no longer be
/// written is left as it is.
#[derive(Drop)]
pub struct Logged<S: Link + Drop, W: Write + Drop, E: Write + Drop> {
    stream: S,
    log: Log<W, E>,
    lines: Lines,
    sent: ArrayVec<u8, SENT_ROOM>,
    /// The login was sent.
    is_in: bool,
}

impl<S: Link + Drop, W: Write + Drop, E: Write + Drop> Logged<S, W, E> {
    /// The same stream, with a log or without one.
    pub fn new(stream: S, log: Log<W, E>) -> Logged<S, W, E> {
        Logged {
            stream,
            log,
            lines: Lines::new(),
            sent: ArrayVec::new(),
            is_in: false,
        }
    }

    /// Keeps the lines that more bytes of the server end.
    fn keep_heard(&mut self, bytes: &[u8]) {
        let mut rest = bytes;
        while !rest.is_empty() {
            let fed = self.lines.feed(rest);
            let used = fed.used;
            match &fed.line {
                Some(line) => self.log.keep(b"", line.bytes),
                None => {}
            }
            rest = &rest[used..];
        }
    }

    /// Keeps the lines that end in more bytes that were sent.
    fn keep_sent(&mut self, bytes: &[u8]) {
        for byte in bytes {
            match *byte {
                b'\n' => self.end_sent(),
                b'\r' => {}
                byte => {
                    let _fits = self.sent.try_push(byte);
                }
            }
        }
    }

    /// A line that was sent has ended.
    fn end_sent(&mut self) {
        if self.is_in {
            self.log.keep(SENT, self.sent.as_slice());
        }
        self.is_in = true;
        self.sent.clear();
    }
}

/// Writes a line with each byte 255 twice, as telnet sends it, since one alone begins a command.
fn write_doubled<W: Write>(line: &[u8], log: &mut W) -> Result<(), Unwritten> {
    let mut is_first = true;
    for piece in line.split(|byte| *byte == 255) {
        if !is_first {
            write_bytes(&[255, 255], log)?;
        }
        write_bytes(piece, log)?;
        is_first = false;
    }
    Ok(())
}

/// Appends a line to a log.
fn append<W: Write>(mark: &[u8], line: &[u8], log: &mut W) -> Result<(), Unwritten> {
    write_bytes(mark, log)?;
    write_doubled(line, log)?;
    write_bytes(b"\n", log)
}

impl<S: Link + Drop, W: Write + Drop, E: Write + Drop> Read for Logged<S, W, E> {
    fn read(&mut self, buf: &mut [u8]) -> io::Result<usize> {
        self.receive(buf)
    }
}

impl<S: Link + Drop, W: Write + Drop, E: Write + Drop> Write for Logged<S, W, E> {
    fn write(&mut self, buf: &[u8]) -> io::Result<usize> {
        self.transmit(buf)
    }

    fn flush(&mut self) -> io::Result<()> {
        self.stream.flush()
    }
}

impl<S: Link + Drop, W: Write + Drop, E: Write + Drop> Link for Logged<S, W, E> {
    fn receive(&mut self, buf: &mut [u8]) -> io::Result<usize> {
        let count = self.stream.receive(buf)?;
        self.keep_heard(&buf[..count]);
        Ok(count)
    }

    fn transmit(&mut self, buf: &[u8]) -> io::Result<usize> {
        let count = self.stream.transmit(buf)?;
        self.keep_sent(&buf[..count]);
        Ok(count)
    }
}

/// Opens a file to which is appended. If it is made, nobody but its owner may read it.
pub fn open(rt: &HostRuntime, path: &str) -> io::Result<File> {
    OpenOptions::new()
        .append(true)
        .create(true)
        .mode(OWNER_ALONE)
        .open(rt, path)
}

/// A server whose connections have a log, if one is asked for.
#[derive(Drop)]
pub struct LoggedServer<'a, D: Dial + Drop> {
    server: D,
    rt: &'a HostRuntime,
    path: Option<&'a str>,
}

impl<'a, D: Dial + Drop> LoggedServer<'a, D> {
    /// The same server.
    pub fn new(server: D, rt: &'a HostRuntime, path: Option<&'a str>) -> LoggedServer<'a, D> {
        LoggedServer { server, rt, path }
    }

    /// The log, if one is asked for and can be opened. If it can't, that is said.
    fn log(&self) -> Option<File> {
        match open(self.rt, self.path?) {
            Ok(file) => Some(file),
            Err(error) => {
                let trouble = Some(Trouble::of(&error));
                // if it can't be said, the game goes on all the same
                let _said = write_trouble(LOG, trouble, &mut self.rt.stderr());
                None
            }
        }
    }
}

impl<D: Dial + Drop> Dial for LoggedServer<'_, D> {
    type Stream = Logged<D::Stream, File, Stderr>;

    fn dial(&mut self) -> Result<Logged<D::Stream, File, Stderr>, ErrorKind> {
        match self.server.dial() {
            Ok(stream) => {
                let log = Log::new(self.log(), self.rt.stderr());
                Ok(Logged::new(stream, log))
            }
            Err(why) => Err(why),
        }
    }
}

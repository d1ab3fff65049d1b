//! Streams that keep why a call failed, and that reason in words.
ghost use Rattle.std.specs.Prelude.{◌≡◌, ◌≤◌, length, None};

use crate::writing::{Unwritten, write_bytes};
use arrayvec::ArrayVec;
use fibs_fields::fixed::append;
use std::io;
use std::io::{ErrorKind, Read, Write};

/// How long a line is that says why a stream failed.
const LINE: usize = 96;

/// Why a call of a stream failed.
#[derive(Clone, Copy, Debug, PartialEq, Eq)]
pub enum Trouble {
    /// The stream is closed.
    Closed,
    /// Nobody reads any more what is written.
    Unread,
    /// It is another reason.
    Other(ErrorKind),
}

impl Trouble {
    /// The reason that an error tells.
    pub fn of(error: &io::Error) -> Trouble {
        if error.raw_os_error() == Some(libc::EBADF) {
            return Trouble::Closed;
        }
        match error.kind() {
            ErrorKind::BrokenPipe => Trouble::Unread,
            kind => Trouble::Other(kind),
        }
    }

    /// The reason in words.
    fn words(self) -> &'static str
        ensures { length result.now ≤ 40 }
    {
        match self {
            Trouble::Closed => "it is closed",
            Trouble::Unread => "nobody reads it any more",
            Trouble::Other(kind) => words_of(kind),
        }
    }
}

/// A reason in words. Only what can happen to a file, a pipe or a terminal has words of its own.
fn words_of(kind: ErrorKind) -> &'static str
    ensures { length result.now ≤ 40 }
{
    match kind {
        ErrorKind::NotFound => "no such file",
        ErrorKind::PermissionDenied => "permission denied",
        ErrorKind::IsADirectory => "it is a directory",
        ErrorKind::NotADirectory => "a part of its name is no directory",
        ErrorKind::StorageFull => "no space left on device",
        ErrorKind::QuotaExceeded => "no space left in the quota",
        ErrorKind::FileTooLarge => "the file is too large",
        ErrorKind::ReadOnlyFilesystem => "the file system is read-only",
        ErrorKind::WouldBlock => "it would wait, and is set not to",
        ErrorKind::OutOfMemory => "out of memory",
        _ => "the device failed",
    }
}

/// A stream that keeps why its last call failed.
#[derive(Drop)]
pub struct Noted<S: Drop> {
    stream: S,
    trouble: Option<Trouble>,
}

impl<S: Drop> Noted<S> {
    /// The same stream. No call has failed.
    pub fn new(stream: S) -> Noted<S>
        ensures { result.trouble ≡ None }
    {
        Noted {
            stream,
            trouble: None,
        }
    }

    /// Why the last call failed, if it did.
    pub fn trouble(&self) -> Option<Trouble>
        ensures { result ≡ self.now.trouble }
    {
        self.trouble
    }
}

/// Writes a line that says what failed, and why: `fibs: standard output: no space left on device`. Nothing if the
/// reason is not known.
pub fn write_trouble<W: Write>(
    what: &[u8],
    trouble: Option<Trouble>,
    err: &mut W,
) -> Result<(), Unwritten>
    requires { length what.now ≤ 32 }
{
    let Some(trouble) = trouble else {
        return Ok(());
    };
    let mut line = ArrayVec::<u8, LINE>::new();
    append(&mut line, b"fibs: ");
    append(&mut line, what);
    append(&mut line, b": ");
    append(&mut line, trouble.words().as_bytes());
    append(&mut line, b"\n");
    write_bytes(line.as_slice(), err)
}

impl<R: Read + Drop> Read for Noted<R> {
    ghost remaining = { λ noted. R.remaining noted.stream };

    fn read(&mut self, buf: &mut [u8]) -> io::Result<usize> {
        let answer = self.stream.read(buf);
        self.trouble = answer.as_ref().err().map(Trouble::of);
        answer
    }
}

impl<W: Write + Drop> Write for Noted<W> {
    ghost contents = { λ noted. W.contents noted.stream };

    fn write(&mut self, buf: &[u8]) -> io::Result<usize> {
        let answer = self.stream.write(buf);
        self.trouble = answer.as_ref().err().map(Trouble::of);
        answer
    }

    fn flush(&mut self) -> io::Result<()> {
        self.stream.flush()
    }
}

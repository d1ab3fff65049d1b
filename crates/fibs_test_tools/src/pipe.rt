//! A stream in memory, whose bytes the prover knows, for the tests.
ghost use Rattle.std.specs.Prelude.{◌≡◌, Some, []};
ghost use Rattle.std.specs.Io.{ReadsAtMost, WritesAtMost};
ghost use Rattle.std.specs.Io.KnownBytes.{ReadConsumes, WriteAppends};

use crate::text::Text;
use fibs_engine::link::Link;
use std::io;
use std::io::{ErrorKind, Read, Write};

/// What follows the bytes that a pipe has to read.
#[derive(Clone, Copy, Debug, PartialEq, Eq)]
pub enum After {
    /// The stream ends.
    End,
    /// Each read fails with an error of this kind.
    Fails(ErrorKind),
}

/// The stream is broken.
pub const FAULT: After = After::Fails(ErrorKind::ConnectionReset);

/// Nothing more has come yet.
pub const QUIET: After = After::Fails(ErrorKind::WouldBlock);

/// A stream in memory: bytes to read, what follows them, and what was written. It takes no memory, so that each
/// growth that a test sees refused is the engine's.
#[derive(Drop)]
pub struct Pipe<'a> {
    input: &'a [u8],
    most: usize,
    after: After,
    output: Text,
    room: usize,
}

impl<'a> Pipe<'a> {
    /// A pipe that gives `input` in reads of at most `most` bytes, and takes `room` bytes, and no
    /// more than `TEXT_ROOM`, before a write fails.
    pub fn new(input: &'a [u8], most: usize, after: After, room: usize) -> Pipe<'a>
        ensures input { result.input.now ≡ input.entry.now }
        ensures output { result.output.items ≡ [] }
    {
        Pipe {
            input,
            most,
            after,
            output: Text::new(),
            room,
        }
    }

    /// What was written.
    pub fn output(&self) -> &[u8]
        ensures { result.now ≡ self.now.output.items }
    {
        self.output.as_slice()
    }
}

impl Read for Pipe<'_> {
    ghost remaining = { λ p. Some p.input.now };

    fn read(&mut self, buf: &mut [u8]) -> io::Result<usize>
        ensures bound { ReadsAtMost result buf.new }
        ensures bytes { ReadConsumes (Some self.old.input.now) (Some self.new.input.now) result buf.new }
        ensures apart { self.new.output ≡ self.old.output }
    {
        if buf.is_empty() {
            return Ok(0);
        }
        if self.input.is_empty() {
            return match self.after {
                After::End => Ok(0),
                After::Fails(kind) => Err(io::Error::from(kind)),
            };
        }
        let most = self.most.max(1).min(self.input.len()).min(buf.len());
        let front = &self.input[..most];
        buf[..most].copy_from_slice(front);
        self.input = &self.input[most..];
        Ok(most)
    }
}

impl Write for Pipe<'_> {
    ghost contents = { λ p. Some p.output.items };

    fn write(&mut self, buf: &[u8]) -> io::Result<usize>
        ensures bound { WritesAtMost result buf.now }
        ensures bytes { WriteAppends (Some self.old.output.items) (Some self.new.output.items) result buf.now }
        ensures apart { self.new.input.now ≡ self.old.input.now }
    {
        let most = self
            .room
            .min(self.output.remaining_capacity())
            .min(buf.len());
        if most == 0 && !buf.is_empty() {
            return Err(io::Error::from(ErrorKind::BrokenPipe));
        }
        let _fits = self.output.try_extend_from_slice(&buf[..most]);
        self.room -= most;
        Ok(most)
    }

    fn flush(&mut self) -> io::Result<()> {
        Ok(())
    }
}

impl Link for Pipe<'_> {
    fn receive(&mut self, buf: &mut [u8]) -> io::Result<usize> {
        self.read(buf)
    }

    fn transmit(&mut self, buf: &[u8]) -> io::Result<usize> {
        self.write(buf)
    }
}

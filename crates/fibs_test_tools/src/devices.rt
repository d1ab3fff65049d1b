//! Devices that misbehave, for the tests.

use arrayvec::ArrayVec;
use std::io;
use std::io::{ErrorKind, Read, Write};

/// A reader without end, which gives one short line each time, and counts how often it is asked.
#[derive(Drop)]
pub struct Endless {
    asked: u32,
}

impl Endless {
    /// A reader that was not asked yet.
    pub fn new() -> Endless {
        Endless { asked: 0 }
    }

    /// How often it was asked.
    pub fn asked(&self) -> u32 {
        self.asked
    }
}

impl Read for Endless {
    fn read(&mut self, buf: &mut [u8]) -> io::Result<usize> {
        self.asked = self.asked.saturating_add(1);
        if buf.len() < 2 {
            return Ok(0);
        }
        buf[0] = b'y';
        buf[1] = b'\n';
        Ok(2)
    }
}

/// A writer with one write that fails or takes nothing. It takes bytes before and after it, and counts its writes.
#[derive(Drop)]
pub struct FailsOnce {
    before: usize,
    error: Option<ErrorKind>,
    failed: bool,
    most: usize,
    writes: usize,
    output: ArrayVec<u8, 512>,
}

impl FailsOnce {
    /// A writer that takes at most `most` bytes at once, and fails after so many writes.
    pub fn new(before: usize, most: usize) -> FailsOnce {
        FailsOnce::of_kind(Some(ErrorKind::BrokenPipe), before, most)
    }

    /// The same; the write fails with an error of this kind, or takes nothing if there is none.
    pub fn of_kind(error: Option<ErrorKind>, before: usize, most: usize) -> FailsOnce {
        FailsOnce {
            before,
            error,
            failed: false,
            most,
            writes: 0,
            output: ArrayVec::new(),
        }
    }

    /// How many writes were made, with that which failed.
    pub fn writes(&self) -> usize {
        self.writes
    }

    /// What was written.
    pub fn output(&self) -> &[u8] {
        self.output.as_slice()
    }
}

impl Write for FailsOnce {
    fn write(&mut self, buf: &[u8]) -> io::Result<usize> {
        self.writes = self.writes.saturating_add(1);
        if self.before == 0 && !self.failed {
            self.failed = true;
            return match self.error {
                Some(kind) => Err(io::Error::from(kind)),
                None => Ok(0),
            };
        }
        self.before = self.before.saturating_sub(1);
        let most = self
            .most
            .min(self.output.remaining_capacity())
            .min(buf.len());
        let _fits = self.output.try_extend_from_slice(&buf[..most]);
        Ok(most)
    }

    fn flush(&mut self) -> io::Result<()> {
        Ok(())
    }
}

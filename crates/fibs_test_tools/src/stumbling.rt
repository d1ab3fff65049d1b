//! A stream that stumbles over one write.

use crate::devices::FailsOnce;
use crate::pipe::Pipe;
use fibs_engine::link::Link;
use std::io;
use std::io::{Read, Write};

/// A stream of which one write fails, and which takes bytes before and after it.
#[derive(Drop)]
pub struct Stumbles<'a> {
    /// What is read.
    pub input: Pipe<'a>,
    /// What is written to.
    pub output: FailsOnce,
}

impl Read for Stumbles<'_> {
    fn read(&mut self, buf: &mut [u8]) -> io::Result<usize> {
        self.input.read(buf)
    }
}

impl Write for Stumbles<'_> {
    fn write(&mut self, buf: &[u8]) -> io::Result<usize> {
        self.output.write(buf)
    }

    fn flush(&mut self) -> io::Result<()> {
        self.output.flush()
    }
}

impl Link for Stumbles<'_> {
    fn receive(&mut self, buf: &mut [u8]) -> io::Result<usize> {
        self.read(buf)
    }

    fn transmit(&mut self, buf: &[u8]) -> io::Result<usize> {
        self.write(buf)
    }
}

//! A login that the server refuses: it asks for the login once more. A stream notes that.

use crate::link::Link;
use fibs_lines::Questions;
use std::cell::Cell;
use std::io;
use std::io::{Read, Write};

/// A stream: whether the server asks for the login once more before it has greeted the user is noted.
#[derive(Drop)]
pub struct Refusing<'a, S: Link + Drop> {
    stream: S,
    questions: Questions,
    is_refused: &'a Cell<bool>,
}

impl<'a, S: Link + Drop> Refusing<'a, S> {
    /// The same stream, from which nothing was read.
    pub fn new(stream: S, is_refused: &'a Cell<bool>) -> Refusing<'a, S> {
        Refusing {
            stream,
            questions: Questions::new(),
            is_refused,
        }
    }
}

impl<S: Link + Drop> Read for Refusing<'_, S> {
    fn read(&mut self, buf: &mut [u8]) -> io::Result<usize> {
        self.receive(buf)
    }
}

impl<S: Link + Drop> Write for Refusing<'_, S> {
    fn write(&mut self, buf: &[u8]) -> io::Result<usize> {
        self.transmit(buf)
    }

    fn flush(&mut self) -> io::Result<()> {
        self.stream.flush()
    }
}

impl<S: Link + Drop> Link for Refusing<'_, S> {
    fn receive(&mut self, buf: &mut [u8]) -> io::Result<usize> {
        let count = self.stream.receive(buf)?;
        self.questions.hear(&buf[..count]);
        self.is_refused.set(self.questions.is_again());
        Ok(count)
    }

    fn transmit(&mut self, buf: &[u8]) -> io::Result<usize> {
        self.stream.transmit(buf)
    }
}

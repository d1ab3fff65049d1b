//! Streams of two directions.
ghost use Rattle.std.specs.Prelude.{◌≡◌, ◌↔◌, ◌⊎◌, IsTrue};
ghost use Rattle.std.specs.IoError.{error_kind};
ghost use Rattle.std.specs.Io.{ReadsAtMost, WritesAtMost};
ghost use Rattle.std.specs.Io.KnownBytes.{Keeps, ReadConsumes, WriteAppends};
ghost use Rattle.fibs_engine.specs.Writing.{Wrote, progress_of};

use crate::writing::Unwritten;
use std::io;
use std::io::{ErrorKind, Read, Write};
use std::net::TcpStream;

/// A stream whose two directions are apart: a read leaves what was written as it is, and a write what is left to read.
///
/// `Read` says nothing of what was written, and `Write` nothing of what is left to read.
pub trait Link: Read + Write {
    /// Reads as `read` does.
    fn receive(&mut self, buf: &mut [u8]) -> io::Result<usize>
        ensures bound { ReadsAtMost result buf.new }
        ensures bytes { ReadConsumes (Self.remaining self.old) (Self.remaining self.new) result buf.new }
        ensures apart { Keeps (Self.contents self.old) (Self.contents self.new) };

    /// Writes as `write` does.
    fn transmit(&mut self, buf: &[u8]) -> io::Result<usize>
        ensures bound { WritesAtMost result buf.now }
        ensures bytes { WriteAppends (Self.contents self.old) (Self.contents self.new) result buf.now }
        ensures apart { Keeps (Self.remaining self.old) (Self.remaining self.new) };
}

/// A signal, as when a program that was stopped goes on, can interrupt a call that waits. Nothing was read or written
/// then, and no connection has ended.
impl Link for TcpStream {
    fn receive(&mut self, buf: &mut [u8]) -> io::Result<usize> {
        read_retrying(self, buf)
    }

    fn transmit(&mut self, buf: &[u8]) -> io::Result<usize> {
        write_retrying(self, buf)
    }
}

/// How often a call that is interrupted each time is made again, before its error counts as any other.
pub const RETRIES: u32 = 1000;

/// Whether a signal interrupted the call.
fn is_interrupted(error: &io::Error) -> bool
    ensures { IsTrue result ↔ (error_kind error.now ≡ ErrorKind.Interrupted) }
{
    error.kind() == ErrorKind::Interrupted
}

/// Reads as `read` does, and again if a signal interrupts it.
pub(crate) fn read_retrying<R: Read>(reader: &mut R, buf: &mut [u8]) -> io::Result<usize>
    ensures bound { ReadsAtMost result buf.new }
    ensures bytes { ReadConsumes (R.remaining reader.old) (R.remaining reader.new) result buf.new }
{
    for _ in 0..RETRIES {
        match reader.read(buf) {
            Err(error) if is_interrupted(&error) => {}
            answer => return answer,
        }
    }
    reader.read(buf)
}

/// Writes as `write` does, and again if a signal interrupts it.
pub(crate) fn write_retrying<W: Write>(writer: &mut W, buf: &[u8]) -> io::Result<usize>
    ensures bound { WritesAtMost result buf.now }
    ensures bytes { WriteAppends (W.contents writer.old) (W.contents writer.new) result buf.now }
{
    for _ in 0..RETRIES {
        match writer.write(buf) {
            Err(error) if is_interrupted(&error) => {}
            answer => return answer,
        }
    }
    writer.write(buf)
}

/// Whether a read gave nothing because nothing has come yet. Each other error of a read ends a connection.
pub fn is_quiet(error: &io::Error) -> bool
    ensures { IsTrue result
        ↔ ((error_kind error.now ≡ ErrorKind.WouldBlock) ⊎ (error_kind error.now ≡ ErrorKind.TimedOut)) }
{
    matches!(error.kind(), ErrorKind::WouldBlock | ErrorKind::TimedOut)
}

/// Writes the bytes in order, as `write_bytes` does on a writer. What is left to read stays, which `write` alone does
/// not say.
pub fn send_bytes<S: Link>(bytes: &[u8], stream: &mut S) -> Result<(), Unwritten>
    ensures wrote { Wrote (progress_of result) (S.contents stream.old) (S.contents stream.new) bytes.now }
    ensures apart { Keeps (S.remaining stream.old) (S.remaining stream.new) }
{
    let mut rest = bytes;
    while !rest.is_empty() {
        match stream.transmit(rest) {
            Ok(0) => return Err(Unwritten),
            Ok(count) => rest = &rest[count..],
            Err(_) => return Err(Unwritten),
        }
    }
    Ok(())
}

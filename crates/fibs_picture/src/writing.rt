//! Bytes and numbers, written.
ghost use Rattle.std.specs.Prelude.{OnOk};
ghost use Rattle.std.specs.Io.KnownBytes.{Appends};

use itoa::{Buffer, Integer};
use std::io;
use std::io::Write;

/// Writes bytes.
pub fn write_text<W: Write>(bytes: &[u8], out: &mut W) -> io::Result<()>
    ensures { OnOk result (Appends (W.contents out.old) (W.contents out.new) bytes.now) }
{
    out.write_all(bytes)
}

/// Writes a number.
pub fn write_digits<I: Integer, W: Write>(number: I, out: &mut W) -> io::Result<()>
    ensures { OnOk result (Appends (W.contents out.old) (W.contents out.new) (I.text number)) }
{
    write_text(Buffer::new().format(number).as_bytes(), out)
}

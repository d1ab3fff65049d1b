//! Lines are printed, each by one write if the writer takes all of it, with no memory taken.
ghost use Rattle.std.specs.Prelude.{◌≡◌, ◌≤◌, ◌+◌, ◌++◌, length, OnOk, IfSome};
ghost use Rattle.std.specs.Io.KnownBytes.{Appends};
ghost use Rattle.fibs_commands.specs.TextOf.{text_of};
ghost use Rattle.fibs_engine.specs.Escape.{escaped};
ghost use Rattle.fibs_engine.specs.Printing.{line_bytes};
ghost use Rattle.fibs_connect.specs.Lines.{reason_line};

use crate::fault::FrontFault;
use arrayvec::{ArrayString, ArrayVec};
use fibs_engine::escape::write_escaped;
use fibs_engine::fixed::append_number;
use fibs_engine::writing::write_bytes;
use fibs_fields::fixed::append;
use std::fmt::Display;
use std::io::Write;

/// How long a label and a text may be that make up a line.
const PARTS_LEN: usize = 600;

/// A line in the program's own words, with its line end.
type OwnLine = ArrayVec<u8, 640>;

/// Prints bytes. After a failed write it makes no other.
pub fn print<W: Write>(bytes: &[u8], out: &mut W) -> Result<(), FrontFault>
    ensures { OnOk result (Appends (W.contents out.old) (W.contents out.new) bytes.now) }
{
    write_bytes(bytes, out)?;
    Ok(())
}

/// Prints a line of a label and a text.
pub fn print_line<W: Write>(label: &[u8], text: &[u8], out: &mut W) -> Result<(), FrontFault>
    requires { length label.now + length text.now ≤ PARTS_LEN }
    ensures { OnOk result (Appends (W.contents out.old) (W.contents out.new) (line_bytes (label.now ++ text.now))) }
{
    let mut line = OwnLine::new();
    append(&mut line, label);
    append(&mut line, text);
    line.push(b'\n');
    print(line.as_slice(), out)
}

/// Appends the name that a value displays.
fn append_name<T: Display + Drop>(name: T, line: &mut OwnLine) -> Result<(), FrontFault>
    ensures { OnOk result (IfSome (T.output name) (λ text. line.new.items ≡ line.old.items ++ text)) }
{
    line.write_fmt(name).map_err(|_| FrontFault::Output)
}

/// Prints a line that says why something was not done: a label, and the number and the name of the reason.
pub(crate) fn print_reason<T: Display + Drop, W: Write>(
    label: &[u8],
    number: u8,
    name: T,
    out: &mut W,
) -> Result<(), FrontFault>
    requires { length label.now ≤ PARTS_LEN }
    ensures { OnOk result (IfSome (T.output name) (λ text.
        Appends (W.contents out.old) (W.contents out.new) (line_bytes (reason_line label.now number text)))) }
{
    let mut line = OwnLine::new();
    append(&mut line, label);
    append_number(&mut line, number);
    line.push(b' ');
    append_name(name, &mut line)?;
    print(b"\n", &mut line)?;
    print(line.as_slice(), out)
}

/// Appends a label, and bytes of any kind.
pub(crate) fn append_labelled<const N: usize>(
    label: &[u8],
    bytes: &[u8],
    text: &mut ArrayVec<u8, N>,
) -> Result<(), FrontFault>
    ensures { OnOk result (text.new.items ≡ text.old.items ++ (label.now ++ escaped bytes.now)) }
{
    print(label, text)?;
    write_escaped(bytes, text)?;
    Ok(())
}

/// The bytes of a command.
pub fn text_bytes<const N: usize>(command: &ArrayString<N>) -> &[u8]
    requires { N ≤ 512 }
    ensures value { result.now ≡ text_of command.now }
    ensures fits { length result.now ≤ 512 }
{
    command.as_str().as_bytes()
}

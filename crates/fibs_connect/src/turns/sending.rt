//! Commands are written to the server.
ghost use Rattle.std.specs.Prelude.{◌≤◌, ◌+◌, length};
ghost use Rattle.std.specs.Io.KnownBytes.{Keeps};
ghost use Rattle.fibs_commands.specs.TextOf.{text_of};
ghost use Rattle.fibs_session.specs.History.Machine.{on_wire, wire_of};
ghost use Rattle.fibs_session.specs.Calls.SessionOf.{texts_of};
ghost use Rattle.fibs_engine.specs.Writing.{Wrote, progress_of};

use crate::printing::text_bytes;
use crate::typed_line::TYPED_LIMIT;
use arrayvec::{ArrayString, ArrayVec};
use fibs_engine::link::{Link, send_bytes};
use fibs_engine::writing::Unwritten;
use fibs_fields::fixed::append;
use fibs_session::AnswerText;

/// A command of at most 512 bytes and its line end.
type WireLine = ArrayVec<u8, 514>;

/// A typed line and its line end.
type PassedLine = ArrayVec<u8, PASSED_ROOM>;

/// Room for the longest line that may be typed, and its line end.
const PASSED_ROOM: usize = TYPED_LIMIT + 2;

/// Writes a command and its line end, by one write if the stream takes all of it.
pub(crate) fn send_command<S: Link, const N: usize>(
    command: &ArrayString<N>,
    stream: &mut S,
) -> Result<(), Unwritten>
    requires { N ≤ 512 }
    ensures wrote { Wrote (progress_of result) (S.contents stream.old) (S.contents stream.new)
        (on_wire (text_of command.now)) }
    ensures apart { Keeps (S.remaining stream.old) (S.remaining stream.new) }
{
    let mut line = WireLine::new();
    append(&mut line, text_bytes(command));
    append(&mut line, b"\r\n");
    send_bytes(line.as_slice(), stream)
}

/// Writes the commands in order.
pub(crate) fn send_commands<S: Link>(
    commands: &[AnswerText],
    stream: &mut S,
) -> Result<(), Unwritten>
    ensures wrote { Wrote (progress_of result) (S.contents stream.old) (S.contents stream.new)
        (wire_of (texts_of commands.now)) }
    ensures apart { Keeps (S.remaining stream.old) (S.remaining stream.new) }
{
    for command in commands {
        send_command(command, stream)?;
    }
    Ok(())
}

/// Writes a line past the client, and its line end, by one write if the stream takes all of it.
pub(crate) fn send_as_it_is<S: Link>(line: &[u8], stream: &mut S) -> Result<(), Unwritten>
    requires { length line.now ≤ TYPED_LIMIT }
    ensures wrote { Wrote (progress_of result) (S.contents stream.old) (S.contents stream.new) (on_wire line.now) }
    ensures apart { Keeps (S.remaining stream.old) (S.remaining stream.new) }
{
    let mut piece = PassedLine::new();
    append(&mut piece, line);
    append(&mut piece, b"\r\n");
    send_bytes(piece.as_slice(), stream)
}

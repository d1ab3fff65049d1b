//! Commands as they go to the server.

ghost use Rattle.std.specs.Prelude.{◌≡◌, ◌+◌, ◌≤◌, ◌++◌, [], ◌∷◌, length};
ghost use Rattle.fibs_commands.specs.TextOf.{text_of};
ghost use Rattle.fibs_session.specs.Calls.SessionOf.{texts_of};
ghost use Rattle.fibs_session.specs.History.Machine.{on_wire, wire_of};
ghost use Rattle.fibs_c.specs.Records.Wires.{wire_in, Holds, IsEmptied, RestStays};

use crate::records::text::put;
use arrayvec::ArrayString;
use fibs_session::{AnswerText, CommandText};

/// What is to be sent, at once: some commands, each with CR LF.
#[repr(C)]
#[derive(Clone, Copy)]
pub struct WireRecord {
    /// How many bytes it has.
    pub len: usize,
    /// At most three commands.
    pub bytes: [u8; 1542],
}

/// Makes it hold nothing.
pub fn clear(wire: &mut WireRecord)
    ensures { IsEmptied wire.old wire.new }
{
    wire.len = 0;
}

/// Appends bytes for which there is room.
fn append(wire: &mut WireRecord, bytes: &[u8])
    requires { wire.old.len + length bytes.now ≤ 1542 }
    ensures appended { wire_in wire.new ≡ wire_in wire.old ++ bytes.now }
    ensures len { wire.new.len ≡ wire.old.len + length bytes.now }
    ensures rest { RestStays wire.old wire.new }
{
    let len = wire.len;
    let written = put(&mut wire.bytes[len..], bytes);
    wire.len = len + written;
}

/// Appends a line with its line end.
#[tactic(auto, using(crate::proofs::WireLemmas::rest_joined))]
fn append_line(wire: &mut WireRecord, line: &[u8])
    requires { wire.old.len + length line.now + 2 ≤ 1542 }
    ensures appended { wire_in wire.new ≡ wire_in wire.old ++ on_wire line.now }
    ensures len { wire.new.len ≡ wire.old.len + length (on_wire line.now) }
    ensures few { wire.new.len ≡ wire.old.len + length line.now + 2 }
    ensures rest { RestStays wire.old wire.new }
{
    append(wire, line);
    append(wire, b"\r\n");
}

/// Appends a command with its line end.
fn append_command<const N: usize>(wire: &mut WireRecord, command: &ArrayString<N>)
    requires room { wire.old.len + 514 ≤ 1542 }
    requires short { N ≤ 512 }
    ensures appended { wire_in wire.new ≡ wire_in wire.old ++ on_wire (text_of command.now) }
    ensures len { wire.new.len ≡ wire.old.len + length (on_wire (text_of command.now)) }
    ensures short { wire.new.len ≤ wire.old.len + 514 }
    ensures rest { RestStays wire.old wire.new }
{
    append_line(wire, command.as_bytes());
}

/// Makes it hold these commands.
#[tactic(auto, using(crate::proofs::WireLemmas::rest_joined, crate::proofs::WireLemmas::rest_of_emptied))]
pub fn put_commands(wire: &mut WireRecord, commands: &[AnswerText])
    requires { length commands.now ≤ 3 }
    ensures { Holds wire.old wire.new (wire_of (texts_of commands.now)) }
{
    clear(wire);
    for command in commands {
        append_command(wire, command);
    }
}

/// Makes it hold this command.
#[tactic(auto, using(crate::proofs::WireLemmas::rest_joined, crate::proofs::WireLemmas::rest_of_emptied))]
pub fn put_command(wire: &mut WireRecord, command: &CommandText)
    ensures { Holds wire.old wire.new (wire_of (text_of command.now ∷ [])) }
{
    clear(wire);
    append_command(wire, command);
}

/// Makes it hold a line that is sent as it is, with its line end.
#[tactic(auto, using(crate::proofs::WireLemmas::rest_joined, crate::proofs::WireLemmas::rest_of_emptied))]
pub fn put_line(wire: &mut WireRecord, line: &[u8])
    requires { length line.now ≤ 512 }
    ensures { Holds wire.old wire.new (on_wire line.now) }
{
    clear(wire);
    append_line(wire, line);
}

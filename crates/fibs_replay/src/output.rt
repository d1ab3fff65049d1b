//! What is written for a script: the lines of the log, and a last line.
ghost use Rattle.std.specs.Prelude.{◌≡◌, ◌≤◌, ◌++◌, length, map};
ghost use Rattle.fibs_model.specs.EntryOf.{entry_of};
ghost use Rattle.fibs_engine.specs.Writing.{Wrote, progress_of};
ghost use Rattle.fibs_replay.specs.Limits.{write_len};
ghost use Rattle.fibs_replay.specs.LogLines.{log_text};
ghost use Rattle.fibs_replay.specs.Passing.{MadeRoom};
ghost use Rattle.fibs_replay.specs.Output.{end_text, refused_text, unread_text};

use crate::limits::{ENTRY_LEN, LAST_LINE_LEN};
use crate::log_lines::{Portion, append_entry};
use arrayvec::ArrayVec;
use fibs_engine::writing::{Unwritten, write_bytes};
use fibs_fields::fixed::append;
use fibs_model::{Entry, WorldRefusal};
use itoa::Buffer;
use std::io::Write;

/// One line, long enough for each last line.
pub type LastLine = ArrayVec<u8, LAST_LINE_LEN>;

/// The line of a script that is not run: the number of its first line that is unreadable, 0 if it is too long.
pub fn unread_line(number: usize) -> LastLine
    ensures { result.items ≡ unread_text number }
{
    let mut line = LastLine::new();
    append(&mut line, b"script ");
    append(&mut line, Buffer::new().format(number).as_bytes());
    line.push(b'\n');
    line
}

/// The last line of a script if each event was accepted.
pub fn end_line(done: usize) -> LastLine
    ensures { result.items ≡ end_text done }
{
    let mut line = LastLine::new();
    append(&mut line, b"end ");
    append(&mut line, Buffer::new().format(done).as_bytes());
    line.push(b'\n');
    line
}

/// The last line of a script if an event was refused, after so many that were accepted.
pub fn refused_line(done: usize, why: WorldRefusal) -> LastLine
    ensures { result.items ≡ refused_text done why }
{
    let mut line = LastLine::new();
    append(&mut line, b"refused ");
    append(&mut line, Buffer::new().format(done).as_bytes());
    line.push(b' ');
    append(&mut line, Buffer::new().format(why.number()).as_bytes());
    line.push(b' ');
    append(&mut line, why.name().as_bytes());
    line.push(b'\n');
    line
}

/// Makes room for so many bytes more: if there is less, the text is written.
fn make_room<W: Write>(text: &mut Portion, room: usize, writer: &mut W) -> Result<(), Unwritten>
    requires { room ≤ write_len }
    ensures { MadeRoom (progress_of result) room (W.contents writer.old) (W.contents writer.new)
        text.old.items text.new.items }
{
    if text.remaining_capacity() < room {
        write_bytes(text.as_slice(), writer)?;
        text.clear();
    }
    Ok(())
}

/// Writes the line of each entry, in portions, and then a last line. After a failed write it makes no other.
pub fn print_log<W: Write>(entries: &[Entry], last: &[u8], writer: &mut W) -> Result<(), Unwritten>
    requires { length last.now ≤ write_len }
    ensures { Wrote (progress_of result) (W.contents writer.old) (W.contents writer.new)
        (log_text (map entry_of entries.now) ++ last.now) }
{
    let mut text = Portion::new();
    for entry in entries {
        make_room(&mut text, ENTRY_LEN, writer)?;
        append_entry(&mut text, entry);
    }
    make_room(&mut text, last.len(), writer)?;
    append(&mut text, last);
    write_bytes(text.as_slice(), writer)
}

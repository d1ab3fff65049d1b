//! The object of the last line of a script.
ghost use Rattle.std.specs.Prelude.{◌≡◌, ◌++◌, OnOk};
ghost use Rattle.fibs_cli.specs.Endings.{last_object};

use crate::objects::parts::{append_end, without_end};
use fibs_json::line::append_front;
use fibs_json::values::{Value, append_member};
use fibs_model::WorldRefusal;
use fibs_replay::output::{end_line, refused_line, unread_line};
use std::alloc::AllocError;

/// The last line that is printed for a script.
#[derive(Clone, Copy, Debug, PartialEq, Eq)]
pub enum Last {
    /// The script is not run: the number of its first line that is unreadable, or 0 if it is too long.
    Script(usize),
    /// Each event was done: how many.
    End(usize),
    /// So many events were done, and the next one was refused.
    Refused(usize, WorldRefusal),
    /// None, since memory ran out.
    Nothing,
}

/// Appends the object of a script that is not run.
fn append_script(number: usize, text: &mut Vec<u8>) -> Result<(), AllocError>
    ensures { OnOk result (text.new.items ≡ text.old.items ++ last_object (Last.Script number)) }
{
    append_front(b"script", without_end(unread_line(number).as_slice()), text)?;
    append_member(b"number", Value::Whole(number as u64), text)?;
    append_end(text)
}

/// Appends the object of a script whose events were all done.
fn append_done(done: usize, text: &mut Vec<u8>) -> Result<(), AllocError>
    ensures { OnOk result (text.new.items ≡ text.old.items ++ last_object (Last.End done)) }
{
    append_front(b"end", without_end(end_line(done).as_slice()), text)?;
    append_member(b"done", Value::Whole(done as u64), text)?;
    append_end(text)
}

/// Appends the object of a script of which an event was refused.
fn append_refused(done: usize, why: WorldRefusal, text: &mut Vec<u8>) -> Result<(), AllocError>
    ensures { OnOk result (text.new.items ≡ text.old.items ++ last_object (Last.Refused done why)) }
{
    append_front(
        b"refused",
        without_end(refused_line(done, why).as_slice()),
        text,
    )?;
    append_member(b"done", Value::Whole(done as u64), text)?;
    append_member(b"number", Value::Whole(u64::from(why.number())), text)?;
    append_member(b"reason", Value::Bytes(why.name().as_bytes()), text)?;
    append_end(text)
}

/// Appends the object of a last line, with its end.
pub(crate) fn append_last(last: Last, text: &mut Vec<u8>) -> Result<(), AllocError>
    ensures { OnOk result (text.new.items ≡ text.old.items ++ last_object last) }
{
    match last {
        Last::Script(number) => append_script(number, text),
        Last::End(done) => append_done(done, text),
        Last::Refused(done, why) => append_refused(done, why, text),
        Last::Nothing => Ok(()),
    }
}

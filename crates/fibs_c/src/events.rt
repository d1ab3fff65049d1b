//! What lines say has happened, and what bytes say of the login.

ghost use Rattle.std.specs.Prelude.{◌≡◌, None};
ghost use Rattle.fibs_messages.specs.Line.{reading_of, reading_value};
ghost use Rattle.fibs_events.specs.Known.{opponent_of};
ghost use Rattle.fibs_events.specs.Asking.{not_asked};
ghost use Rattle.fibs_c.specs.EventsDoor.{AreBytesHeard, HearsBytes, HearsOrNot, IsLineHeard, IsNewEvents, IsOpened, IsOpponentTold, with_login};
ghost use Rattle.fibs_c.specs.Records.Texts.{HandsOut};

use crate::records::EventsHandle;
use crate::records::events::{HappenedRecord, happened_record, said_record};
use crate::records::listener::Listener;
use crate::records::status::{DONE, HELD, MEMORY, NO_HANDLE};
use crate::records::text::hand_out;
use fibs_events::asking::Asking;
use fibs_messages::{Reading, read};
use std::alloc::Global;

/// Makes the events of a stream of which nothing was heard. A handle that holds some stays as it is.
#[unsafe(no_mangle)]
pub extern "C" fn fibs_events_new(alloc: Global, events: &mut EventsHandle) -> u32
    ensures { IsNewEvents events.old.value events.new.value result }
{
    if let Some(held) = events.take(alloc) {
        *events = EventsHandle::of(held);
        return HELD;
    }
    match Box::new(alloc, Listener::new()) {
        Ok(made) => {
            *events = EventsHandle::of(made);
            DONE
        }
        Err(_) => MEMORY,
    }
}

/// Gives the memory back. The handle then holds nothing; a handle that held nothing stays as it is.
#[unsafe(no_mangle)]
pub extern "C" fn fibs_events_free(alloc: Global, events: &mut EventsHandle)
    ensures { events.new.value ≡ None }
{
    drop(events.take(alloc));
}

/// Hears what a reading says, and gives what has happened by it.
fn hear(
    alloc: Global,
    listener: &mut Listener,
    reading: &Reading<'_>,
    told: &mut HappenedRecord,
) -> u32
    ensures { HearsOrNot listener.old listener.new (reading_of reading.now) told.old told.new result }
{
    match listener.lines.hear(alloc, reading) {
        Err(_) => MEMORY,
        Ok(happened) => {
            *told = happened_record(&happened);
            DONE
        }
    }
}

/// Hears a line that was not cut, and gives what has happened by it.
#[unsafe(no_mangle)]
pub extern "C" fn fibs_events_hear(
    alloc: Global,
    events: &mut EventsHandle,
    line: &[u8],
    told: &mut HappenedRecord,
) -> u32
    ensures { IsLineHeard events.old.value events.new.value (reading_value line.now) told.old told.new result }
{
    with!(EventsHandle, events, alloc, |held| {
        hear(alloc, &mut held, &read(line), told)
    })
}

/// Hears bytes, and gives the refusal of the login, if they tell it.
fn hear_bytes(listener: &mut Listener, bytes: &[u8], told: &mut HappenedRecord) -> u32
    ensures { HearsBytes listener.old listener.new bytes.now told.new result }
{
    *told = said_record(&listener.login.hear(bytes));
    DONE
}

/// Hears bytes of a connection as they come, and gives what they say that no line does: that the login is refused.
#[unsafe(no_mangle)]
pub extern "C" fn fibs_events_hear_bytes(
    alloc: Global,
    events: &mut EventsHandle,
    bytes: &[u8],
    told: &mut HappenedRecord,
) -> u32
    ensures { AreBytesHeard events.old.value events.new.value bytes.now told.old told.new result }
{
    with!(EventsHandle, events, alloc, |held| {
        hear_bytes(&mut held, bytes, told)
    })
}

/// Forgets what was asked on the connection before.
fn open(listener: &mut Listener) -> u32
    ensures opened { listener.new ≡ with_login listener.old not_asked }
    ensures status { result ≡ 0 }
{
    listener.login = Asking::new();
    DONE
}

/// A connection is opened: the server asks for the login anew.
#[unsafe(no_mangle)]
pub extern "C" fn fibs_events_open(alloc: Global, events: &mut EventsHandle) -> u32
    ensures { IsOpened events.old.value events.new.value result }
{
    with!(EventsHandle, events, alloc, |held| { open(&mut held) })
}

/// Hands out the opponent's name.
fn hand_out_opponent(listener: &Listener, text: &mut [u8], len: &mut usize) -> u32
    ensures { HandsOut (opponent_of listener.now.lines) text.old text.new len.new result }
{
    hand_out(listener.lines.opponent(), text, len)
}

/// The opponent of the match that is played, or was played last; nothing if none is known.
#[unsafe(no_mangle)]
pub extern "C" fn fibs_events_opponent(
    alloc: Global,
    events: &mut EventsHandle,
    text: &mut [u8],
    len: &mut usize,
) -> u32
    ensures { IsOpponentTold events.old.value events.new.value text.old text.new len.old len.new result }
{
    with!(EventsHandle, events, alloc, |held| {
        hand_out_opponent(&held, text, len)
    })
}

//! The client hears bytes, with room for all that they add.

ghost use Rattle.std.specs.Prelude.{◌≡◌, ◌≤◌, ◌<◌, ◌+◌, ◌++◌, List, length, map, take, drop, vec_len, vec_capacity};
ghost use Rattle.fibs_messages.specs.Line.{reading_of};
ghost use Rattle.fibs_session.specs.Calls.SessionOf.{texts_of};
ghost use Rattle.fibs_session.specs.History.Hearing.{heard};
ghost use Rattle.fibs_session.specs.History.Log as L;
ghost use Rattle.fibs_session.specs.History.Machine.{wire_of};
ghost use Rattle.fibs_model.specs.EntryOf.{entry_of, entries_of};
ghost use Rattle.fibs_model.specs.HearingOf.{HearsPiece, RoomForLine, RoomForPiece};

use crate::Entry;
use crate::wire::Wire;
use fibs_messages::Reading;
use fibs_session::{AnswerText, Client};

/// Notes an entry, if there is one.
pub(super) fn note(log: &mut Vec<Entry>, entry: Option<Entry>)
    requires room { vec_len log.old + length (entries_of entry) ≤ vec_capacity log.old }
    ensures items { map entry_of log.new.items ≡ map entry_of log.old.items ++ entries_of entry }
    ensures len { vec_len log.new ≡ vec_len log.old + length (entries_of entry) }
    ensures capacity { vec_capacity log.old ≤ vec_capacity log.new }
{
    if let Some(entry) = entry {
        log.push_reserved(entry);
    }
}

/// Notes what a line gives that the client heard: its entry, and the roll of a standing order that rolled at it.
fn note_line(log: &mut Vec<Entry>, conn: usize, reading: &Reading<'_>, rolled: bool)
    requires room { RoomForLine conn (reading_of reading.now) rolled (vec_len log.old) (vec_capacity log.old) }
    ensures items { (before : List L.Entry) → (heard conn before (reading_of reading.now)).rolled ≡ rolled →
        map entry_of log.new.items
        ≡ map entry_of log.old.items ++ (heard conn before (reading_of reading.now)).entries }
    ensures len { (before : List L.Entry) → (heard conn before (reading_of reading.now)).rolled ≡ rolled →
        vec_len log.new ≡ vec_len log.old + length (heard conn before (reading_of reading.now)).entries }
    ensures capacity { vec_capacity log.old ≤ vec_capacity log.new }
{
    note(log, Entry::of_reading(conn, reading));
    if rolled {
        note(log, Entry::of_roll(conn, reading));
    }
}

/// Puts commands on a wire that has room for them.
fn put_all(wire: &mut Wire, commands: &[AnswerText])
    requires room { length (wire_of (texts_of commands.now)) ≤ wire.old.room }
    ensures items { wire.new.items ≡ wire.old.items ++ wire_of (texts_of commands.now) }
    ensures room { wire.old.room ≤ wire.new.room + length (wire_of (texts_of commands.now)) }
{
    for command in commands {
        wire.put(command.as_bytes());
    }
}

/// Reads a front of the piece, and takes down what the line that ends with it gives. Says how long the front is.
fn hear_line(
    client: &mut Client,
    conn: usize,
    piece: &[u8],
    log: &mut Vec<Entry>,
    wire: &mut Wire,
) -> usize
    requires some { 0 < conn }
    requires room { RoomForPiece client.old conn piece.now (vec_len log.old) (vec_capacity log.old) wire.old.room }
    ensures in_range { result ≤ length piece.now }
    ensures progress { 0 < length piece.now → 0 < result }
    ensures hears { HearsPiece client.old client.new conn (take result piece.now)
        (map entry_of log.old.items) (map entry_of log.new.items) wire.old.items wire.new.items }
    ensures room { RoomForPiece client.new conn (drop result piece.now) (vec_len log.new) (vec_capacity log.new)
        wire.new.room }
{
    fibs_lines::laws::lines_are_at_most_the_line_ends();
    fibs_session::client::laws::pieces_take_from_what_is_owed();
    fibs_session::client::laws::pieces_take_from_the_entries_owed();
    let heard = client.read(piece);
    let got = client.got(heard);
    if let Some(taken) = &got.taken {
        note_line(log, conn, &taken.reading, taken.rolled);
        put_all(wire, taken.send.as_slice());
    }
    got.used
}

/// The client hears the whole piece.
pub(super) fn hear_all(
    client: &mut Client,
    conn: usize,
    piece: &[u8],
    log: &mut Vec<Entry>,
    wire: &mut Wire,
)
    requires some { 0 < conn }
    requires room { RoomForPiece client.old conn piece.now (vec_len log.old) (vec_capacity log.old) wire.old.room }
    ensures hears { HearsPiece client.old client.new conn piece.now
        (map entry_of log.old.items) (map entry_of log.new.items) wire.old.items wire.new.items }
{
    fibs_session::client::laws::pieces_join();
    fibs_session::client::laws::empty_piece_is_nothing();
    let mut rest = piece;
    while !rest.is_empty() {
        let used = hear_line(client, conn, rest, log, wire);
        rest = &rest[used..];
    }
}

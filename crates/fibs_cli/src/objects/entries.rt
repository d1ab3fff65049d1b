//! The objects of a log.
ghost use Rattle.std.specs.Prelude.{◌≡◌, ◌++◌, ℕ, List, OnOk, codes, map};
ghost use Rattle.std.specs.Result.{result_err};
ghost use Rattle.fibs_fields.specs.StoredBoard.{fields_of};
ghost use Rattle.fibs_engine.specs.Printing.{line_bytes};
ghost use Rattle.fibs_model.specs.EntryOf.{entry_of};
ghost use Rattle.fibs_replay.specs.LogLines.{entry_line};
ghost use Rattle.fibs_session.specs.Calls.SessionOf.{ask_of};
ghost use Rattle.fibs_session.specs.History.Asked.{asked_text};
ghost use Rattle.fibs_json.specs.Json.{member, more_member, null, string, truth, whole};
ghost use Rattle.fibs_json.specs.Lines.{opening};
ghost use Rattle.fibs_cli.specs.Entries.{AskMembers, BoardMember, EntryMembers, EntryObject, LogObjects, answer_json, entry_connection, entry_kind};

use crate::objects::parts::{append_end, without_end};
use fibs_fields::boards::Board;
use fibs_json::line::append_front;
use fibs_json::values::{Value, append_board_member, append_member};
use fibs_model::Entry;
use fibs_replay::log_lines::{Portion, append_entry};
use fibs_session::{Outstanding, Refusal};
use std::alloc::AllocError;

/// The word with which an entry's line begins.
fn kind_of(entry: &Entry) -> &'static [u8]
    ensures { result.now ≡ entry_kind (entry_of entry.now) }
{
    match entry {
        Entry::Opened { .. } => b"opened",
        Entry::LoggedIn { .. } => b"loggedin",
        Entry::Welcomed { .. } => b"welcomed",
        Entry::Informed { .. } => b"informed",
        Entry::Shown { .. } => b"shown",
        Entry::Clicked { .. } => b"clicked",
        Entry::Sent { .. } => b"sent",
        Entry::Took { .. } => b"took",
        Entry::Undone { .. } => b"undone",
        Entry::Lost { .. } => b"lost",
        Entry::Ordered { .. } => b"ordered",
        Entry::Withdrawn { .. } => b"withdrawn",
    }
}

/// The number of an entry's connection.
fn connection_of(entry: &Entry) -> usize
    ensures { result ≡ entry_connection (entry_of entry.now) }
{
    match entry {
        Entry::Opened { conn }
        | Entry::LoggedIn { conn }
        | Entry::Welcomed { conn }
        | Entry::Ordered { conn }
        | Entry::Withdrawn { conn } => *conn,
        Entry::Informed { conn, .. } => *conn,
        Entry::Shown { conn, .. } => *conn,
        Entry::Clicked { conn, .. } => *conn,
        Entry::Sent { conn, .. } | Entry::Took { conn, .. } | Entry::Undone { conn, .. } => *conn,
        Entry::Lost { conn, .. } => *conn,
    }
}

/// Appends a board.
fn append_board(board: &Board, text: &mut Vec<u8>) -> Result<(), AllocError>
    ensures { OnOk result ((more : List ℕ) × BoardMember (fields_of board.now) more
        × (text.new.items ≡ text.old.items ++ more)) }
{
    append_board_member(b"board", board, text)
}

/// Appends the command of what was decided.
fn append_command(asked: &Outstanding, text: &mut Vec<u8>) -> Result<(), AllocError>
    ensures { OnOk result (text.new.items ≡ text.old.items
        ++ more_member (member (codes "command") (string (asked_text (ask_of asked.now))))) }
{
    append_member(b"command", Value::Bytes(asked.command().as_bytes()), text)
}

/// Appends the command of what was decided, and the board.
fn append_ask(asked: &Outstanding, text: &mut Vec<u8>) -> Result<(), AllocError>
    ensures { OnOk result ((more : List ℕ) × AskMembers (ask_of asked.now) more
        × (text.new.items ≡ text.old.items ++ more)) }
{
    append_command(asked, text)?;
    append_board(&asked.board, text)
}

/// Appends whether the server moves and bears off by itself.
fn append_flags(automove: bool, greedy: bool, text: &mut Vec<u8>) -> Result<(), AllocError>
    ensures { OnOk result (text.new.items ≡ text.old.items
        ++ (more_member (member (codes "automove") (truth automove))
        ++ more_member (member (codes "greedy") (truth greedy)))) }
{
    append_member(b"automove", Value::Truth(automove), text)?;
    append_member(b"greedy", Value::Truth(greedy), text)
}

/// Appends why a click was refused, if it was.
fn append_answer(answer: Result<(), Refusal>, text: &mut Vec<u8>) -> Result<(), AllocError>
    ensures { OnOk result (text.new.items ≡ text.old.items
        ++ more_member (member (codes "refusal") (answer_json (result_err answer)))) }
{
    match answer {
        Ok(()) => append_member(b"refusal", Value::Null, text),
        Err(why) => append_member(b"refusal", Value::Bytes(why.name().as_bytes()), text),
    }
}

/// Appends that nothing was unconfirmed.
fn append_no_ask(text: &mut Vec<u8>) -> Result<(), AllocError>
    ensures { OnOk result (text.new.items ≡ text.old.items
        ++ (more_member (member (codes "command") null) ++ more_member (member (codes "board") null))) }
{
    append_member(b"command", Value::Null, text)?;
    append_member(b"board", Value::Null, text)
}

/// Appends the members that follow the connection.
fn append_rest(entry: &Entry, text: &mut Vec<u8>) -> Result<(), AllocError>
    ensures { OnOk result ((more : List ℕ) × EntryMembers (entry_of entry.now) more
        × (text.new.items ≡ text.old.items ++ more)) }
{
    match entry {
        Entry::Opened { .. }
        | Entry::LoggedIn { .. }
        | Entry::Welcomed { .. }
        | Entry::Ordered { .. }
        | Entry::Withdrawn { .. } => Ok(()),
        Entry::Informed {
            automove,
            greedy,
            ..
        } => append_flags(*automove, *greedy, text),
        Entry::Shown { board, .. } => append_board(board, text),
        Entry::Clicked { answer, .. } => append_answer(*answer, text),
        Entry::Sent {
            board,
            decision,
            ..
        }
        | Entry::Took {
            board,
            decision,
            ..
        }
        | Entry::Undone {
            board,
            decision,
            ..
        } => append_ask(
            &Outstanding {
                board: *board,
                decision: *decision,
            },
            text,
        ),
        Entry::Lost {
            unconfirmed: None,
            ..
        } => append_no_ask(text),
        Entry::Lost {
            unconfirmed: Some(asked),
            ..
        } => append_ask(asked, text),
    }
}

/// Appends the front of an entry's object: its word, and its line.
fn append_opening(entry: &Entry, text: &mut Vec<u8>) -> Result<(), AllocError>
    ensures { let e = entry_of entry.now in OnOk result (text.new.items
        ≡ text.old.items ++ opening (entry_kind e) (entry_line e)) }
{
    let mut line = Portion::new();
    append_entry(&mut line, entry);
    append_front(kind_of(entry), without_end(line.as_slice()), text)
}

/// Appends the connection of an entry.
fn append_connection(entry: &Entry, text: &mut Vec<u8>) -> Result<(), AllocError>
    ensures { OnOk result (text.new.items ≡ text.old.items
        ++ more_member (member (codes "connection") (whole (entry_connection (entry_of entry.now))))) }
{
    append_member(
        b"connection",
        Value::Whole(connection_of(entry) as u64),
        text,
    )
}

/// Appends the object of an entry, and a line end.
pub fn append_object(entry: &Entry, text: &mut Vec<u8>) -> Result<(), AllocError>
    ensures { OnOk result ((shown : List ℕ) × EntryObject (entry_of entry.now) shown
        × (text.new.items ≡ text.old.items ++ line_bytes shown)) }
{
    append_opening(entry, text)?;
    append_connection(entry, text)?;
    append_rest(entry, text)?;
    append_end(text)
}

/// Appends the objects of a log.
pub(crate) fn append_log(log: &[Entry], text: &mut Vec<u8>) -> Result<(), AllocError>
    ensures { OnOk result ((shown : List ℕ) × LogObjects (map entry_of log.now) shown
        × (text.new.items ≡ text.old.items ++ shown)) }
{
    for entry in log {
        append_object(entry, text)?;
    }
    Ok(())
}

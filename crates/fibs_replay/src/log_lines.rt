//! The lines that are printed for the entries of the log.
ghost use Rattle.std.specs.Prelude.{◌≡◌, ◌≤◌, ◌+◌, ◌++◌, ◌∷◌, length, option_map};
ghost use Rattle.std.specs.Result.{result_err};
ghost use Rattle.arrayvec.specs.ArrayVec.{array_vec_len};
ghost use Rattle.fibs_fields.specs.Board.{spelling};
ghost use Rattle.fibs_fields.specs.StoredBoard.{fields_of};
ghost use Rattle.fibs_session.specs.Calls.SessionOf.{ask_of};
ghost use Rattle.fibs_model.specs.EntryOf.{entry_of};
ghost use Rattle.fibs_engine.specs.Printing.{line_bytes};
ghost use Rattle.fibs_replay.specs.LogLines.{answer_text, ask_text, entry_line, flag_text, of_connection, unconfirmed_text};
ghost use Rattle.fibs_replay.specs.Limits.{ask_len, board_len, entry_len, flag_len, number_len, write_len, answer_len, said_len};

use crate::limits::WRITE_LEN;
use arrayvec::ArrayVec;
use fibs_fields::boards::Board;
use fibs_fields::fixed::append;
use fibs_model::Entry;
use fibs_session::{Outstanding, Refusal};
use itoa::Buffer;

/// Text on its way to a writer: as much as is written at once.
pub type Portion = ArrayVec<u8, WRITE_LEN>;

/// Appends a word and the number of a connection.
fn append_connection(text: &mut Portion, word: &[u8], conn: usize)
    requires { array_vec_len text.old + length word.now + number_len ≤ write_len }
    ensures text { text.new.items ≡ text.old.items ++ of_connection word.now conn }
    ensures short { array_vec_len text.new ≤ array_vec_len text.old + length word.now + number_len }
{
    append(text, word);
    text.push(b' ');
    append(text, Buffer::new().format(conn).as_bytes());
}

/// Appends whether the server does something by itself, after a space.
fn append_flag(text: &mut Portion, flag: bool)
    requires { array_vec_len text.old + flag_len ≤ write_len }
    ensures text { text.new.items ≡ text.old.items ++ (32 ∷ flag_text flag) }
    ensures short { array_vec_len text.new ≡ array_vec_len text.old + flag_len }
{
    text.push(b' ');
    text.push(if flag { b'1' } else { b'0' });
}

/// Appends a board, after a space.
fn append_board(text: &mut Portion, board: &Board)
    requires { array_vec_len text.old + board_len ≤ write_len }
    ensures text { text.new.items ≡ text.old.items ++ (32 ∷ spelling (fields_of board.now)) }
    ensures short { array_vec_len text.new ≤ array_vec_len text.old + board_len }
{
    text.push(b' ');
    append(text, board.print().as_slice());
}

/// Appends a board, and the command of what was decided on it, in its numbers, after a space.
fn append_ask(text: &mut Portion, asked: &Outstanding)
    requires { array_vec_len text.old + ask_len ≤ write_len }
    ensures text { text.new.items ≡ text.old.items ++ (32 ∷ ask_text (ask_of asked.now)) }
    ensures short { array_vec_len text.new ≤ array_vec_len text.old + ask_len }
{
    fibs_session::laws::commands_are_short();
    fibs_position::laws::decisions_are_valid();
    append_board(text, &asked.board);
    text.push(b' ');
    append(text, asked.command().as_bytes());
}

/// Appends the answer to a click, after a space.
fn append_answer(text: &mut Portion, answer: Result<(), Refusal>)
    requires { array_vec_len text.old + answer_len ≤ write_len }
    ensures text { text.new.items ≡ text.old.items ++ (32 ∷ answer_text (result_err answer)) }
    ensures short { array_vec_len text.new ≤ array_vec_len text.old + answer_len }
{
    text.push(b' ');
    match answer {
        Ok(()) => append(text, b"ok"),
        Err(why) => append(text, why.name().as_bytes()),
    }
}

/// Appends what was unconfirmed, after a space.
fn append_unconfirmed(text: &mut Portion, unconfirmed: &Option<Outstanding>)
    requires { array_vec_len text.old + ask_len ≤ write_len }
    ensures text { text.new.items ≡ text.old.items ++ unconfirmed_text (option_map ask_of unconfirmed.now) }
    ensures short { array_vec_len text.new ≤ array_vec_len text.old + ask_len }
{
    match unconfirmed {
        None => {}
        Some(asked) => append_ask(text, asked),
    }
}

/// Appends what an entry says, without a line end.
#[tactic(auto, unfolding(crate::specs::LogLines::entry_line))]
fn append_said(text: &mut Portion, entry: &Entry)
    requires { array_vec_len text.old + said_len ≤ write_len }
    ensures text { text.new.items ≡ text.old.items ++ entry_line (entry_of entry.now) }
    ensures short { array_vec_len text.new ≤ array_vec_len text.old + said_len }
{
    match entry {
        Entry::Opened { conn } => append_connection(text, b"opened", *conn),
        Entry::LoggedIn { conn } => append_connection(text, b"loggedin", *conn),
        Entry::Welcomed { conn } => append_connection(text, b"welcomed", *conn),
        Entry::Informed {
            conn,
            automove,
            greedy,
        } => {
            append_connection(text, b"informed", *conn);
            append_flag(text, *automove);
            append_flag(text, *greedy);
        }
        Entry::Shown { conn, board } => {
            append_connection(text, b"shown", *conn);
            append_board(text, board);
        }
        Entry::Clicked { conn, answer, .. } => {
            append_connection(text, b"clicked", *conn);
            append_answer(text, *answer);
        }
        Entry::Sent {
            conn,
            board,
            decision,
        } => {
            append_connection(text, b"sent", *conn);
            append_ask(
                text,
                &Outstanding {
                    board: *board,
                    decision: *decision,
                },
            );
        }
        Entry::Took {
            conn,
            board,
            decision,
        } => {
            append_connection(text, b"took", *conn);
            append_ask(
                text,
                &Outstanding {
                    board: *board,
                    decision: *decision,
                },
            );
        }
        Entry::Undone {
            conn,
            board,
            decision,
        } => {
            append_connection(text, b"undone", *conn);
            append_ask(
                text,
                &Outstanding {
                    board: *board,
                    decision: *decision,
                },
            );
        }
        Entry::Lost { conn, unconfirmed } => {
            append_connection(text, b"lost", *conn);
            append_unconfirmed(text, unconfirmed);
        }
        Entry::Ordered { conn } => append_connection(text, b"ordered", *conn),
        Entry::Withdrawn { conn } => append_connection(text, b"withdrawn", *conn),
    }
}

/// Appends the line of an entry. It has at most 417 bytes.
pub fn append_entry(text: &mut Portion, entry: &Entry)
    requires { array_vec_len text.old + entry_len ≤ write_len }
    ensures { text.new.items ≡ text.old.items ++ line_bytes (entry_line (entry_of entry.now)) }
{
    append_said(text, entry);
    text.push(b'\n');
}

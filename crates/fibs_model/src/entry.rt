//! What is noted of the world.

ghost use Rattle.std.specs.Prelude.{◌≡◌, ◌++◌, List, true};
ghost use Rattle.fibs_messages.specs.Line.{reading_of};
ghost use Rattle.fibs_messages.specs.Message.{message_of};
ghost use Rattle.fibs_session.specs.History.Hearing.{heard, heard_message};
ghost use Rattle.fibs_session.specs.History.Log as L;

use fibs_fields::boards::Board;
use fibs_messages::{Message, Reading};
use fibs_position::{Decision, is_good};
use fibs_session::{Outstanding, Refusal};

/// What is noted as it happens. `conn` is the connection's number, from 1.
#[derive(Clone, Copy, Debug, PartialEq, Eq)]
pub enum Entry {
    /// The client opened a connection.
    Opened {
        /// Its number.
        conn: usize,
    },
    /// The server served the connection's login.
    LoggedIn {
        /// Its number.
        conn: usize,
    },
    /// The client read a message 1.
    Welcomed {
        /// The connection.
        conn: usize,
    },
    /// The client read a message 2.
    Informed {
        /// The connection.
        conn: usize,
        /// The server moves by itself if there is one move only.
        automove: bool,
        /// The server bears off by itself.
        greedy: bool,
    },
    /// The client read a good board.
    Shown {
        /// The connection.
        conn: usize,
        /// The board.
        board: Board,
    },
    /// The user clicked.
    Clicked {
        /// The open connection, 0 if none is.
        conn: usize,
        /// What the user decided.
        decision: Decision,
        /// Whether the client sent it, or why not.
        answer: Result<(), Refusal>,
    },
    /// The client sent what the click before it decided, or the roll of a standing order on the board shown before it.
    Sent {
        /// The connection.
        conn: usize,
        /// The board shown last.
        board: Board,
        /// What was decided on it.
        decision: Decision,
    },
    /// The server carried a decision out.
    Took {
        /// The connection.
        conn: usize,
        /// The server's board before it.
        board: Board,
        /// What was decided.
        decision: Decision,
    },
    /// The server served a decision that changed nothing.
    Undone {
        /// The connection.
        conn: usize,
        /// The server's board.
        board: Board,
        /// What was decided.
        decision: Decision,
    },
    /// The connection ended.
    Lost {
        /// Its number.
        conn: usize,
        /// The decision that waited on it, with the board on which it was made.
        unconfirmed: Option<Outstanding>,
    },
    /// The user gave a standing order to roll.
    Ordered {
        /// The connection.
        conn: usize,
    },
    /// The user withdrew it.
    Withdrawn {
        /// The connection.
        conn: usize,
    },
}

impl Entry {
    ghost use Rattle.fibs_model.specs.EntryOf.{entries_of, roll_entries};

    /// The entry of a message that the client heard.
    fn of_message(conn: usize, message: &Message<'_>) -> Option<Entry>
        ensures { (before : List L.Entry) →
            entries_of result ≡ (heard_message conn before (message_of message.now)).entries }
    {
        match message {
            Message::Welcome { .. } => Some(Entry::Welcomed { conn }),
            Message::OwnInfo(info) => Some(Entry::Informed {
                conn,
                automove: info.automove,
                greedy: info.greedy,
            }),
            _ => None,
        }
    }

    /// The entry of a line that the client heard. Whatever was noted before it, only this is noted of it, and
    /// after it, if a standing order rolls at it, the roll (`of_roll`).
    pub fn of_reading(conn: usize, reading: &Reading<'_>) -> Option<Entry>
        ensures { (before : List L.Entry) → (heard conn before (reading_of reading.now)).entries
            ≡ entries_of result ++ roll_entries conn (reading_of reading.now)
            (heard conn before (reading_of reading.now)).rolled }
    {
        match reading {
            Reading::Numbered(message) => Entry::of_message(conn, message),
            Reading::Board(board) => {
                if is_good(board) {
                    Some(Entry::Shown {
                        conn,
                        board: *board,
                    })
                } else {
                    None
                }
            }
            Reading::Text(_) | Reading::Malformed { .. } => None,
        }
    }

    /// The entry of the roll that a standing order sent at a line: on the line's board.
    pub fn of_roll(conn: usize, reading: &Reading<'_>) -> Option<Entry>
        ensures { entries_of result ≡ roll_entries conn (reading_of reading.now) true }
    {
        match reading {
            Reading::Board(board) => Some(Entry::Sent {
                conn,
                board: *board,
                decision: Decision::Roll,
            }),
            Reading::Numbered(_) | Reading::Text(_) | Reading::Malformed { .. } => None,
        }
    }
}

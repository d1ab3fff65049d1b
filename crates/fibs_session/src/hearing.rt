//! What a line says, by the session's fields.

ghost use Rattle.std.specs.Prelude.{◌≡◌, true, false, None, Some, map, option_map, if◌then◌else◌};
ghost use Rattle.fibs_lines.specs.Lines.{value_of};
ghost use Rattle.fibs_messages.specs.Message.{message_of};
ghost use Rattle.fibs_messages.specs.Line.{reading_of};
ghost use Rattle.fibs_fields.specs.StoredBoard.{fields_of};
ghost use Rattle.fibs_position.specs.DecisionValue.{roll};
ghost use Rattle.fibs_position.specs.DirectionOf.{direction_of};
ghost use Rattle.fibs_position.specs.GoodBoard.{good};
ghost use Rattle.fibs_commands.specs.Commands.{command_of};
ghost use Rattle.fibs_messages.specs.declared.message.Message.TheVariants.{OwnInfo as TheOwnInfo};
ghost use Rattle.fibs_session.specs.Calls.FieldSteps.{message_fields, board_fields, with_shown, differs_from, settled, line_fields, unheard, with_roll};
ghost use Rattle.fibs_session.specs.Calls.SessionValue.{SessionValue};
ghost use Rattle.fibs_session.specs.History.Hearing.{initial_commands, line_reading};
ghost use Rattle.fibs_commands.specs.TextOf.{text_of};

use crate::session::{ServerFlags, Session};
use crate::taken::Outstanding;
use arrayvec::ArrayVec;
use fibs_commands::{
    AnswerText, autoboard_text, board_text, moreboards_text, roll_text, style_text,
};
use fibs_fields::boards::Board;
use fibs_lines::Line;
use fibs_messages::{Message, OwnInfo, Reading, is_board_line, message_number};
use fibs_position::{Decision, GameBoard};

/// What a session says to a line: the commands that are to be sent, the decision that is confirmed, and whether the
/// standing order has rolled.
#[derive(Drop)]
pub(crate) struct Reply {
    pub(crate) send: ArrayVec<AnswerText, 3>,
    pub(crate) confirmed: Option<Outstanding>,
    pub(crate) rolled: bool,
}

impl Reply {
    /// Commands alone.
    fn of(send: ArrayVec<AnswerText, 3>) -> Reply
        ensures send { result.send ≡ send }
        ensures confirmed { result.confirmed ≡ None }
        ensures rolled { result.rolled ≡ false }
    {
        Reply {
            send,
            confirmed: None,
            rolled: false,
        }
    }
}

/// Whether a line says nothing to a session: one that was cut, and each message but message 1 and message 2. Its fields
/// are not read.
#[inline(always)]
pub(crate) fn is_unheard(line: &Line<'_>) -> bool
    ensures says { result ≡ true → (v : SessionValue) → line_fields v (line_reading (value_of line.now)) ≡ unheard v }
    ensures whole { result ≡ false → line.now.cut ≡ false }
{
    if line.cut {
        return true;
    }
    // A board line is the longest, and there is no number to look for.
    if is_board_line(line.bytes) {
        return false;
    }
    match message_number(line.bytes) {
        Some(number) => number > 2,
        None => false,
    }
}

/// The commands that answer the first message 2.
fn first_commands(info: &OwnInfo<'_>) -> ArrayVec<AnswerText, 3>
    ensures { map text_of result.items ≡ initial_commands (message_of (TheOwnInfo info.now)) }
{
    let mut send = ArrayVec::new();
    if !info.autoboard {
        send.push(autoboard_text());
    }
    if !info.moreboards {
        send.push(moreboards_text());
    }
    send.push(board_text());
    send
}

impl Session {
    ghost use Rattle.fibs_session.specs.Calls.SessionOf.{session_of, ask_of, texts_of};

    /// Has a board in place of the one shown before, and says whether the two differ. None if it has no position.
    #[inline(always)]
    fn show(&mut self, board: &Board) -> Option<bool>
        ensures fields { session_of self.new ≡ with_shown (session_of self.old) (fields_of board.now) }
        ensures differs { result ≡ if good (fields_of board.now)
            then Some (differs_from (session_of self.old).shown (fields_of board.now)) else None }
    {
        match &mut self.shown {
            Some(shown) => shown.follow(board),
            None => {
                let Ok(first) = GameBoard::of(board) else {
                    return None;
                };
                self.shown = Some(first);
                Some(false)
            }
        }
    }

    /// A board is shown: if it differs from the one before, a decision that waits is confirmed.
    fn settle(&mut self, differs: bool) -> Option<Outstanding>
        ensures fields { session_of self.new ≡ settled (session_of self.old) differs }
        ensures result { option_map ask_of result ≡ if differs then (session_of self.old).waiting else None }
    {
        if !differs {
            return None;
        }
        let confirmed = self.waiting;
        self.waiting = None;
        confirmed
    }

    /// A message was heard.
    fn note_message(&mut self, message: &Message<'_>) -> ArrayVec<AnswerText, 3>
        ensures fields { session_of self.new ≡ (message_fields (session_of self.old) (message_of message.now)).session }
        ensures send { texts_of result.items ≡ (message_fields (session_of self.old) (message_of message.now)).send }
    {
        let mut send = ArrayVec::new();
        match message {
            Message::Welcome { .. } => {
                if !self.welcomed {
                    send.push(style_text());
                }
                self.welcomed = true;
            }
            Message::OwnInfo(info) => {
                if self.flags.is_none() {
                    send = first_commands(info);
                }
                self.flags = Some(ServerFlags {
                    automove: info.automove,
                    greedy: info.greedy,
                });
            }
            _ => {}
        }
        send
    }

    /// The standing order rolls on the board that is shown: `roll` waits.
    fn roll_on(&mut self, board: &Board) -> AnswerText
        ensures fields { session_of self.new ≡ with_roll (session_of self.old) (fields_of board.now) true }
        ensures text { text_of result ≡ command_of (direction_of (fields_of board.now)) roll }
    {
        self.waiting = Some(Outstanding {
            board: *board,
            decision: Decision::Roll,
        });
        roll_text()
    }

    /// A board was heard. If it has a position it is shown and confirms, and only then is the standing order asked: a
    /// decision that it confirms no longer waits.
    #[inline(always)]
    fn note_board(&mut self, board: &Board) -> Reply
        ensures fields { session_of self.new ≡ (board_fields (session_of self.old) (fields_of board.now)).session }
        ensures send { texts_of result.send.items ≡ (board_fields (session_of self.old) (fields_of board.now)).send }
        ensures confirmed { option_map ask_of result.confirmed
            ≡ (board_fields (session_of self.old) (fields_of board.now)).confirmed }
        ensures rolled { result.rolled ≡ (board_fields (session_of self.old) (fields_of board.now)).rolled }
    {
        let Some(differs) = self.show(board) else {
            return Reply::of(ArrayVec::new());
        };
        let confirmed = self.settle(differs);
        let rolled = self.is_due_now();
        let mut send = ArrayVec::new();
        if rolled {
            send.push(self.roll_on(board));
        }
        Reply {
            send,
            confirmed,
            rolled,
        }
    }

    /// What a reading says. Offline it says nothing.
    #[inline(always)]
    pub(crate) fn note_line(&mut self, reading: &Reading<'_>) -> Reply
        ensures fields { session_of self.new ≡ (line_fields (session_of self.old) (reading_of reading.now)).session }
        ensures send { texts_of result.send.items
            ≡ (line_fields (session_of self.old) (reading_of reading.now)).send }
        ensures confirmed { option_map ask_of result.confirmed ≡
            (line_fields (session_of self.old) (reading_of reading.now)).confirmed }
        ensures rolled { result.rolled ≡ (line_fields (session_of self.old) (reading_of reading.now)).rolled }
    {
        if !self.online {
            return Reply::of(ArrayVec::new());
        }
        match reading {
            Reading::Numbered(message) => Reply::of(self.note_message(message)),
            Reading::Board(board) => self.note_board(board),
            Reading::Text(_) | Reading::Malformed { .. } => Reply::of(ArrayVec::new()),
        }
    }
}

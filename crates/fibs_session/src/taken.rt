//! What a session answers.

ghost use Rattle.std.specs.Prelude.{◌≡◌};
ghost use Rattle.fibs_commands.specs.TextOf.{text_of};

use arrayvec::ArrayVec;
use fibs_commands::{AnswerText, CommandText, decision_text};
use fibs_fields::boards::Board;
use fibs_lines::Line;
use fibs_messages::Reading;
use fibs_position::{Decision, Direction};

/// A decision that was sent, and the board on which it was made.
#[derive(Clone, Copy, Debug, PartialEq, Eq)]
pub struct Outstanding {
    /// The board that was shown.
    pub board: Board,
    /// What was decided on it.
    pub decision: Decision,
}

impl Outstanding {
    ghost use Rattle.fibs_session.specs.Calls.SessionOf.{ask_of};
    ghost use Rattle.fibs_session.specs.History.Asked.{asked_text};

    /// The command of the decision, in the numbers of its board.
    pub fn command(&self) -> CommandText
        ensures { text_of result ≡ asked_text (ask_of self.now) }
    {
        decision_text(&self.decision, Direction::of(&self.board))
    }
}

/// The answer to a line.
#[derive(Drop)]
pub struct Taken<'a> {
    /// The line itself.
    pub line: Line<'a>,
    /// What it is. A line that was cut is a text.
    pub reading: Reading<'a>,
    /// The commands that are to be sent, each followed by CR LF.
    pub send: ArrayVec<AnswerText, 3>,
    /// The decision that waited, if the line is a board that confirms it.
    pub confirmed: Option<Outstanding>,
    /// Whether the line is a board at which the standing order was due: `send` is then its `roll`, which waits.
    pub rolled: bool,
}

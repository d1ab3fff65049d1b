//! What a client has heard, without the line itself.

ghost use Rattle.std.specs.Prelude.{◌≡◌, [], None, false, option_map};
ghost use Rattle.fibs_lines.specs.Lines.{value_of};
ghost use Rattle.fibs_session.specs.History.Hearing.{line_reading};
ghost use Rattle.fibs_session.specs.Calls.Doing.{SessionHears};
ghost use Rattle.fibs_session.specs.declared.client.owned_reading.OwnedReading.TheVariants.{Numbered};

use super::owned_reading::OwnedReading;
use crate::hearing::{Reply, is_unheard};
use crate::session::Session;
use crate::taken::Outstanding;
use arrayvec::ArrayVec;
use fibs_commands::AnswerText;
use fibs_lines::Line;
use fibs_messages::read;
use fibs_position::laws;

/// The answer to a line, without the line.
#[derive(Drop)]
pub(crate) struct Answer {
    pub(super) reading: OwnedReading,
    pub(super) send: ArrayVec<AnswerText, 3>,
    pub(super) confirmed: Option<Outstanding>,
    pub(super) rolled: bool,
}

impl Answer {
    ghost use Rattle.fibs_session.specs.Calls.ClientOf.{lent_reading};
    ghost use Rattle.fibs_session.specs.Calls.SessionOf.{session_of, ask_of, texts_of};

    /// What a session answers to a line.
    #[inline(always)]
    pub(super) fn of(session: &mut Session, line: &Line<'_>) -> Answer
        ensures hears { SessionHears (session_of session.old) (session_of session.new) (value_of line.now)
            (texts_of result.send.items) (option_map ask_of result.confirmed) result.rolled }
        ensures reading { lent_reading result.reading (value_of line.now) ≡ line_reading (value_of line.now) }
    {
        laws::same_game_is_a_likeness();
        if is_unheard(line) {
            return Answer::nothing();
        }
        // A reading that comes by one way alone is nowhere copied.
        let reading = read(line.bytes);
        let Reply {
            send,
            confirmed,
            rolled,
        } = session.note_line(&reading);
        let reading = OwnedReading::of(&reading);
        Answer {
            reading,
            send,
            confirmed,
            rolled,
        }
    }

    /// The answer to a line that is answered by nothing. The line is read when it is lent.
    pub(super) fn nothing() -> Answer
        ensures reading { result.reading ≡ Numbered }
        ensures send { result.send.items ≡ [] }
        ensures confirmed { result.confirmed ≡ None }
        ensures rolled { result.rolled ≡ false }
    {
        Answer {
            reading: OwnedReading::Numbered,
            send: ArrayVec::new(),
            confirmed: None,
            rolled: false,
        }
    }
}

/// What `Client::read` has heard. It borrows nothing; `Client::got` lends the line to it.
#[derive(Drop)]
pub struct HeardLine {
    /// How many bytes of the piece were read: those up to and with a line end, or all.
    pub used: usize,
    pub(super) answer: Option<Answer>,
}

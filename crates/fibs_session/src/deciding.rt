//! What the user says, by the session's fields.

ghost use Rattle.std.specs.Prelude.{◌≡◌, IfOk, IsErr, Some, true};
ghost use Rattle.std.specs.Result.{result_err};
ghost use Rattle.fibs_fields.specs.StoredBoard.{fields_of};
ghost use Rattle.fibs_position.specs.DecisionValue.{decision_of};
ghost use Rattle.fibs_session.specs.Calls.FieldSteps.{answer_of, decide_fields, decide_send, may_send_of, plain_refusal_of, plain_fields, plain_send, with_plain};
ghost use Rattle.fibs_session.specs.History.Allows.{refusal_of};
ghost use Rattle.fibs_session.specs.History.Machine.{flag_is_on};
ghost use Rattle.fibs_commands.specs.PlainOf.{plain_value};

use crate::histories::{PlainRefusal, Refusal};
use crate::session::Session;
use crate::taken::Outstanding;
use fibs_commands::{CommandText, Plain, plain_text};
use fibs_fields::boards::Board;
use fibs_position::{Decision, Disallowed};

/// The refusal of a decision that the board does not allow.
fn refusal_of(why: Disallowed) -> Refusal
    ensures { result ≡ refusal_of why }
{
    match why {
        Disallowed::NotYours => Refusal::NotYours,
        Disallowed::WrongKind => Refusal::WrongKind,
        Disallowed::IllegalPlay => Refusal::IllegalPlay,
    }
}

impl Session {
    ghost use Rattle.fibs_session.specs.Calls.SessionOf.{session_of, handed, refusal_in};

    /// The board on which a decision is made, or why it is refused: the first of the reasons, in the order below.
    pub(crate) fn board_for(&self, decision: &Decision) -> Result<&Board, Refusal>
        ensures refusal { result_err result ≡ answer_of (session_of self.now) (decision_of decision.now) }
        ensures board { IfOk result (λ board. (session_of self.now).shown ≡ Some (fields_of board.now)) }
    {
        if !self.online {
            return Err(Refusal::Offline);
        }
        if !self.welcomed {
            return Err(Refusal::NotReady);
        }
        let Some(flags) = self.flags else {
            return Err(Refusal::NotReady);
        };
        if flags.automove || flags.greedy {
            return Err(Refusal::ServerPlays);
        }
        let Some(shown) = &self.shown else {
            return Err(Refusal::NoBoard);
        };
        if self.waiting.is_some() {
            return Err(Refusal::Waiting);
        }
        match shown.position().allows(decision) {
            Ok(()) => Ok(shown.board()),
            Err(why) => Err(refusal_of(why)),
        }
    }

    /// The user decides.
    pub(crate) fn note_decision(&mut self, decision: &Decision) -> Result<CommandText, Refusal>
        ensures fields { session_of self.new ≡ decide_fields (session_of self.old) (decision_of decision.now) }
        ensures handed { handed result ≡ decide_send (session_of self.old) (decision_of decision.now) }
        ensures refusal { refusal_in result ≡ answer_of (session_of self.old) (decision_of decision.now) }
        ensures kept { IsErr result → session_of self.new ≡ session_of self.old }
    {
        let asked = Outstanding {
            board: *self.board_for(decision)?,
            decision: *decision,
        };
        self.waiting = Some(asked);
        Ok(asked.command())
    }

    /// The server moves by itself.
    fn is_automove_on(&self) -> bool
        ensures { result ≡ flag_is_on (λ f. f.automove) (session_of self.now).flags }
    {
        let Some(flags) = self.flags else {
            return false;
        };
        flags.automove
    }

    /// The server bears off by itself.
    fn is_greedy_on(&self) -> bool
        ensures { result ≡ flag_is_on (λ f. f.greedy) (session_of self.now).flags }
    {
        let Some(flags) = self.flags else {
            return false;
        };
        flags.greedy
    }

    /// Whether what a command turns off is on, and the command was not sent.
    fn may_send(&self, plain: &Plain<'_>) -> bool
        ensures { result ≡ may_send_of (session_of self.now) (plain_value plain.now) }
    {
        match plain {
            Plain::AutomoveOff => self.is_automove_on() && !self.automove_sent,
            Plain::GreedyOff => self.is_greedy_on() && !self.greedy_sent,
            _ => true,
        }
    }

    /// A plain command is sent.
    fn note_sent(&mut self, plain: &Plain<'_>)
        ensures { session_of self.new ≡ with_plain (session_of self.old) (plain_value plain.now) }
    {
        match plain {
            Plain::AutomoveOff => self.automove_sent = true,
            Plain::GreedyOff => self.greedy_sent = true,
            _ => {}
        }
    }

    /// The text of a plain command, or why it is refused: the first of the reasons, in the order below.
    pub(crate) fn text_for(&self, plain: &Plain<'_>) -> Result<CommandText, PlainRefusal>
        ensures handed { handed result ≡ plain_send (session_of self.now) (plain_value plain.now) }
        ensures refusal { refusal_in result ≡ plain_refusal_of (session_of self.now) (plain_value plain.now) }
    {
        if !self.online {
            return Err(PlainRefusal::Offline);
        }
        if !self.may_send(plain) {
            return Err(PlainRefusal::NotOn);
        }
        let text = plain_text(plain).map_err(PlainRefusal::Fault)?;
        Ok(text)
    }

    /// The user says a plain command.
    pub(crate) fn note_plain(&mut self, plain: &Plain<'_>) -> Result<CommandText, PlainRefusal>
        ensures fields { session_of self.new ≡ plain_fields (session_of self.old) (plain_value plain.now) }
        ensures handed { handed result ≡ plain_send (session_of self.old) (plain_value plain.now) }
        ensures refusal { refusal_in result ≡ plain_refusal_of (session_of self.old) (plain_value plain.now) }
        ensures kept { IsErr result → session_of self.new ≡ session_of self.old }
    {
        let text = self.text_for(plain)?;
        self.note_sent(plain);
        Ok(text)
    }
}

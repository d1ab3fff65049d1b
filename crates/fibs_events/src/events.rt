//! What a client's or a saved session's lines say has happened. Boards decide before texts: a play is one that leads
//! from the board that is known to the next, or that a text names and the rules allow on it.

ghost use Rattle.std.specs.Prelude.{◌≡◌, ℕ, List, IfOk, IfSome, IfNone, OnOk, Some, None, Ok, true, false};
ghost use Rattle.fibs_fields.specs.Board.{BoardFields};
ghost use Rattle.fibs_position.specs.GamePart.{same_game};
ghost use Rattle.fibs_position.specs.GoodBoard.{good};
ghost use Rattle.fibs_fields.specs.declared.fault.Fault.{Fault};
ghost use Rattle.fibs_messages.specs.Line.{board_line, malformed_line, numbered_line, reading_of, text_line};
ghost use Rattle.fibs_messages.specs.Message.{MessageValue};
ghost use Rattle.fibs_rules.specs.PlayValue.{hops_of};
ghost use Rattle.fibs_events.specs.Ends.{DoubledFrom, MatchWon, TakenFrom, WonFrom};
ghost use Rattle.fibs_events.specs.Happenings.{NonePlayed, nothing};
ghost use Rattle.fibs_events.specs.Said.{IsSaid};
ghost use Rattle.fibs_events.specs.Known.{IsGoingOn, IsHeard, IsRollHeard, doubler_of, known_of, opponent_of};
ghost use Rattle.fibs_events.specs.Listed.{IsMessageHeard};
ghost use Rattle.fibs_events.specs.Remembered.{IsRemembered, says_nothing};

use crate::happened::Happened;
use crate::memory::Events;
use fibs_messages::Reading;
use std::alloc::{AllocError, Global};

impl Events {
    /// What a line says, by its reading.
    ///
    /// Errors: if memory runs out; then the line is not taken note of.
    pub fn hear<'a>(
        &mut self,
        alloc: Global,
        reading: &Reading<'a>,
    ) -> Result<Happened<'a>, AllocError>
        ensures played { IfOk result (λ happened. IfSome happened.played (λ turned.
            IsHeard (known_of self.old) (reading_of reading.now) turned.who (hops_of turned.play))) }
        ensures rolled { IfOk result (λ happened. IfSome happened.rolled (λ rolled.
            IsRollHeard (reading_of reading.now) rolled)) }
        ensures doubled { (b : BoardFields) → (reading_of reading.now ≡ board_line b) → IfOk result (λ happened.
            IfSome happened.doubled (λ who. DoubledFrom (known_of self.old) b who)) }
        ensures accepted { (b : BoardFields) → (reading_of reading.now ≡ board_line b) → IfOk result (λ happened.
            IfSome happened.accepted (λ who. TakenFrom (doubler_of self.old) (known_of self.old) b who)) }
        ensures won { (b : BoardFields) → (reading_of reading.now ≡ board_line b) → IfOk result (λ happened.
            IfSome happened.won (λ won. WonFrom (known_of self.old) b won)) }
        ensures won_match { (b : BoardFields) → (reading_of reading.now ≡ board_line b) → IfOk result (λ happened.
            IfSome happened.won_match (λ won. MatchWon b won)) }
        ensures says { IfOk result (λ happened. IfSome happened.said (λ event. IsSaid (reading_of reading.now) event)) }
        ensures said { (b : BoardFields) → (reading_of reading.now ≡ board_line b) →
            IfOk result (λ happened. happened.said ≡ None) }
        ensures repeated { (before b : BoardFields) → known_of self.old ≡ Some before
            → (reading_of reading.now ≡ board_line b) → same_game before b ≡ true → result ≡ Ok nothing }
        ensures others { (b : BoardFields) → (reading_of reading.now ≡ board_line b) → good b ≡ false →
            (self.new ≡ self.old) × (result ≡ Ok nothing) }
        ensures known { (b : BoardFields) → (reading_of reading.now ≡ board_line b) → good b ≡ true →
            OnOk result (known_of self.new ≡ Some b) }
        ensures unplayed { (before b : BoardFields) → (reading_of reading.now ≡ board_line b)
            → IsGoingOn self.old before b →
            IfOk result (λ happened. IfNone happened.played (NonePlayed before b)) }
        ensures opponent { (b : BoardFields) → (reading_of reading.now ≡ board_line b) → good b ≡ true →
            OnOk result (opponent_of self.new ≡ b.opponent) }
        ensures messages { (m : MessageValue) → (reading_of reading.now ≡ numbered_line m) →
            IfOk result (λ happened. IsMessageHeard m self.old self.new happened) }
        ensures texts { (text : List ℕ) → (reading_of reading.now ≡ text_line text) →
            IfOk result (λ happened. IsRemembered self.old self.new happened) }
        ensures quiet { (text : List ℕ) → (reading_of reading.now ≡ text_line text)
            → says_nothing self.old text ≡ true → (self.new ≡ self.old) × (result ≡ Ok nothing) }
        ensures malformed { (n k : ℕ) (fault : Fault) → (reading_of reading.now ≡ malformed_line n k fault) →
            (self.new ≡ self.old) × (result ≡ Ok nothing) }
    {
        match reading {
            Reading::Board(board) => self.hear_board(alloc, board),
            Reading::Text(text) => Ok(self.hear_text(text)),
            Reading::Numbered(message) => Ok(Happened::of_said(self.hear_message(message))),
            Reading::Malformed { .. } => Ok(Happened::nothing()),
        }
    }
}

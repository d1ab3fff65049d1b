//! Lines and session together: a client, from bytes to bytes.

ghost use Rattle.std.specs.Borrow.{sem};
ghost use Rattle.std.specs.Io.BufRead.{Rests};
ghost use Rattle.std.specs.Option.{option_copied};
ghost use Rattle.std.specs.Result.{result_err};
ghost use Rattle.std.specs.Prelude.{◌≡◌, IsErr, ◌<◌, ◌≤◌, Option, [], length, take, option_map};
ghost use Rattle.fibs_lines.specs.Lines.{kept_limit, rest_of};
ghost use Rattle.fibs_fields.specs.StoredBoard.{fields_of};
ghost use Rattle.fibs_position.specs.DecisionValue.{decision_of};
ghost use Rattle.fibs_position.specs.DirectionOf.{direction_of};
ghost use Rattle.fibs_position.specs.GameOf.{game_of};
ghost use Rattle.fibs_session.specs.Calls.Doing.{Does};
ghost use Rattle.fibs_session.specs.Calls.Standing.{StandsAfter};
ghost use Rattle.fibs_session.specs.History.Machine.{Talk, start, Open, Lose, Piece, Click, PlainInput, open_refusal, unconfirmed_now, answer_now, plain_refusal, shown_now, Order, Withdraw, order_refusal, withdraw_refusal, ordered_now};
ghost use Rattle.fibs_commands.specs.LoginOf.{login_of};
ghost use Rattle.fibs_commands.specs.PlainOf.{plain_value};

mod asking;
mod got;
mod heard_line;
mod input;
pub mod laws;
mod owned_reading;
mod run;

use crate::histories::{PlainRefusal, Refusal};
use crate::session::Session;
use crate::taken::{Outstanding, Taken};
use fibs_commands::{CommandText, Login, Plain};
use fibs_fields::boards::Board;
use fibs_lines::Lines;
use fibs_position::{Decision, Direction, GameBoard};
pub use got::Got;
use heard_line::Answer;
pub use heard_line::HeardLine;
pub use input::Input;
pub use run::run_client;
use std::marker::Model;

/// A client of the server: it is given the bytes that come, in any pieces, and hands out the commands that are to be
/// sent.
///
/// It opens and loses connections with `open` and `lose`; `feed` takes what the server sends, `decide`, `plain`,
/// `order_roll` and `withdraw_roll` what the user says. Its answers are a function only of what has happened. No call
/// takes memory.
///
/// The answer of `feed` borrows the client, and after that the proof of a caller learns nothing of the client. A caller
/// with a contract calls the two halves of `feed`, `read` and then `got`.
#[derive(Drop)]
pub struct Client {
    lines: Lines,
    session: Session,
}

impl Model for Client {
    ghost use Rattle.fibs_session.specs.Calls.SessionOf.{session_of};
    ghost use Rattle.fibs_session.specs.Calls.Standing.{ClientValue};

    ghost Value = { ClientValue };

    ghost view = { λ c. record { lines = c.lines; session = session_of c.session } };
}

impl Client {
    ghost use Rattle.fibs_session.specs.Calls.ClientOf.{commands_in};
    ghost use Rattle.fibs_session.specs.Calls.Feeding.{ReadsPiece, Keeps, Shows, FeedAnswers, commands_of};
    ghost use Rattle.fibs_session.specs.Calls.SessionOf.{TakenValue, ask_of, taken_of, handed, refusal_in};
    ghost use Rattle.fibs_session.specs.contracts.client.Client.{the_row};

    /// A client that never had a connection.
    #[tactic(auto, using(crate::proofs::Calls::ClientLaws::both_at))]
    pub fn new(login: Login) -> Client
        ensures { StandsAfter result (start (login_of login)) }
    {
        Client {
            lines: Lines::new(),
            session: Session::new(login),
        }
    }

    /// Opens a connection, and hands out the login command. Bytes of an earlier connection are forgotten. `AlreadyOpen`
    /// if one is open.
    pub fn open(&mut self) -> Result<CommandText, Refusal>
        ensures does { Does self.old self.new Open (handed result) }
        ensures refusal { (t : Talk) → StandsAfter self.old t → refusal_in result ≡ open_refusal t }
        ensures kept { IsErr result → self.new ≡ self.old }
    {
        match self.session.open() {
            Err(why) => Err(why),
            Ok(command) => {
                self.lines.reset();
                Ok(command)
            }
        }
    }

    /// The connection is lost: nothing of it is kept. Gives the decision that waited, with the board on which it was
    /// made. None if none waited, or if no connection was open.
    pub fn lose(&mut self) -> Option<Outstanding>
        ensures does { Does self.old self.new Lose [] }
        ensures unconfirmed { (t : Talk) → StandsAfter self.old t → option_map ask_of result ≡ unconfirmed_now t }
    {
        self.session.lose()
    }

    /// Decides on the board shown, and hands out the command. The decision then waits. Refused as by `Session::decide`.
    pub fn decide(&mut self, decision: &Decision) -> Result<CommandText, Refusal>
        ensures does { Does self.old self.new (Click (decision_of decision.now)) (handed result) }
        ensures refusal { (t : Talk) → StandsAfter self.old t →
            refusal_in result ≡ answer_now t (decision_of decision.now) }
        ensures kept { IsErr result → self.new ≡ self.old }
    {
        self.session.decide(decision)
    }

    /// Hands out a command that decides nothing in the game. Refused as by `Session::plain`.
    pub fn plain(&mut self, plain: &Plain<'_>) -> Result<CommandText, PlainRefusal>
        ensures does { Does self.old self.new (PlainInput (plain_value plain.now)) (handed result) }
        ensures refusal { (t : Talk) → StandsAfter self.old t →
            refusal_in result ≡ plain_refusal t (plain_value plain.now) }
        ensures kept { IsErr result → self.new ≡ self.old }
    {
        self.session.plain(plain)
    }

    /// Gives a standing order to roll, which is in force until it is withdrawn or the connection ends. It hands out
    /// nothing itself: `feed` then hands out `roll` at each board at which it is due. `Session::order_roll` says when
    /// it is due, and when it is refused.
    pub fn order_roll(&mut self) -> Result<(), Refusal>
        ensures does { Does self.old self.new Order [] }
        ensures refusal { (t : Talk) → StandsAfter self.old t → result_err result ≡ order_refusal t.log }
        ensures kept { IsErr result → self.new ≡ self.old }
    {
        self.session.order_roll()
    }

    /// Withdraws the standing order to roll. A `roll` that it sent goes on waiting. Refused as by
    /// `Session::withdraw_roll`.
    pub fn withdraw_roll(&mut self) -> Result<(), Refusal>
        ensures does { Does self.old self.new Withdraw [] }
        ensures refusal { (t : Talk) → StandsAfter self.old t → result_err result ≡ withdraw_refusal t.log }
        ensures kept { IsErr result → self.new ≡ self.old }
    {
        self.session.withdraw_roll()
    }

    /// Whether a standing order to roll is in force on the open connection.
    pub fn ordered(&self) -> bool
        ensures { (t : Talk) → StandsAfter self.now t → result ≡ ordered_now t }
    {
        self.session.ordered()
    }

    /// The board that was shown last on this connection.
    pub fn shown(&self) -> Option<&Board>
        ensures { (t : Talk) → StandsAfter self.now t → option_map fields_of (option_copied result) ≡ shown_now t }
    {
        self.session.shown()
    }

    /// The same board, with its position.
    pub fn game(&self) -> Option<&GameBoard>
        ensures { (t : Talk) → StandsAfter self.now t → option_map game_of (option_copied result) ≡ shown_now t }
    {
        self.session.game()
    }

    /// Which way the player of the board that is shown goes by the numbers of the places; None if no board is shown.
    pub fn direction(&self) -> Option<Direction>
        ensures { (t : Talk) → StandsAfter self.now t → result ≡ option_map direction_of (shown_now t) }
    {
        match self.game() {
            None => None,
            Some(game) => Some(game.direction()),
        }
    }

    /// The decision that waits, with the board on which it was made.
    pub fn waiting(&self) -> Option<&Outstanding>
        ensures { (t : Talk) → StandsAfter self.now t → option_map ask_of (option_copied result) ≡ unconfirmed_now t }
    {
        self.session.waiting()
    }

    /// The bytes of the line that has not ended: what follows the last line end of the connection, without telnet
    /// commands and up to 16,384 bytes. It has a prompt of the server, since no line end follows that.
    pub fn unfinished(&self) -> &[u8]
        ensures { (t : Talk) → StandsAfter self.now t → result.now ≡ take kept_limit (rest_of t.stream) }
    {
        self.lines.unfinished()
    }

    /// Reads `piece` up to and with the next line end, and hears the line, by lines and session.
    #[inline(always)]
    fn take_piece(&mut self, piece: &[u8]) -> HeardLine
        ensures in_range { result.used ≤ length piece.now }
        ensures progress { 0 < length piece.now → 0 < result.used }
        ensures reads { ReadsPiece self.old self.new piece.now result }
    {
        if !self.session.online {
            return HeardLine {
                used: piece.len(),
                answer: None,
            };
        }
        let used = self.lines.feed(piece).used;
        match self.lines.line() {
            None => HeardLine { used, answer: None },
            Some(line) => HeardLine {
                used,
                answer: Some(Answer::of(&mut self.session, &line)),
            },
        }
    }

    /// The first half of `feed`: reads `piece` up to and with the next line end, and hears the line that ends there.
    /// `got` lends it.
    #[inline(always)]
    pub fn read(&mut self, piece: &[u8]) -> HeardLine
        ensures in_range { result.used ≤ length piece.now }
        ensures progress { 0 < length piece.now → 0 < result.used }
        ensures does { Does self.old self.new (Piece (take result.used piece.now)) (commands_in result) }
        ensures keeps { Keeps self.new result }
        // what `got` then shows is what `feed` answers
        ensures answers { (taken : Option TakenValue) → Shows self.new result taken →
            FeedAnswers self.old piece.now result.used taken }
        ensures hands { (taken : Option TakenValue) → Shows self.new result taken →
            Does self.old self.new (Piece (take result.used piece.now)) (commands_of taken) }
    {
        self.take_piece(piece)
    }

    /// The second half of `feed`: what `read` has heard, with its line. To be called before anything else is done with
    /// the client.
    #[tactic(auto, unfolding(crate::specs::Calls::Feeding::Keeps, crate::specs::Calls::Feeding::Shows))]
    #[inline(always)]
    pub fn got(&self, heard: HeardLine) -> Got<'_>
        ensures used { result.used ≡ heard.used }
        ensures shows { Keeps self.now heard → Shows self.now heard (option_map taken_of result.taken) }
    {
        let HeardLine { used, answer } = heard;
        match answer {
            None => Got { used, taken: None },
            Some(
                Answer {
                    reading,
                    send,
                    confirmed,
                    rolled,
                },
            ) => match self.lines.line() {
                None => Got { used, taken: None },
                Some(line) => Got {
                    used,
                    taken: Some(Taken {
                        line,
                        reading: reading.with_line(&line),
                        send,
                        confirmed,
                        rolled,
                    }),
                },
            },
        }
    }

    /// Reads `piece` up to and with the next line end, and lends the line that ends there, with the answer to it.
    /// Without a line end it reads all of it, and lends none. Call it again with what is left of the piece, until
    /// nothing is. Offline all bytes are dropped.
    #[inline(always)]
    pub fn feed(&mut self, piece: &[u8]) -> Got<'_>
        ensures in_range { result.used ≤ length piece.now }
        ensures progress { 0 < length piece.now → 0 < result.used }
        ensures answers { FeedAnswers self.old piece.now result.used (option_map taken_of result.taken) }
        ensures* does { sem 𝓛 (Rests the_row self.entry (λ new.
            Does self.old new (Piece (take result.used piece.now)) (commands_of (option_map taken_of result.taken)))) }
    {
        let heard = self.take_piece(piece);
        self.got(heard)
    }
}

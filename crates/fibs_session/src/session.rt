//! What a client has heard on a connection, and the decision that it waits for.

ghost use Rattle.std.specs.Option.{option_copied};
ghost use Rattle.std.specs.Result.{result_err};
ghost use Rattle.std.specs.Prelude.{◌≡◌, IsErr, None, [], false, option_map};
ghost use Rattle.fibs_lines.specs.Lines.{value_of};
ghost use Rattle.fibs_messages.specs.Line.{reading_of};
ghost use Rattle.fibs_fields.specs.StoredBoard.{fields_of};
ghost use Rattle.fibs_position.specs.DecisionValue.{decision_of};
ghost use Rattle.fibs_position.specs.GameOf.{game_of};
ghost use Rattle.fibs_session.specs.Calls.Doing.{SessionDoes, SessionHears};
ghost use Rattle.fibs_session.specs.Calls.Standing.{SessionStandsAfter};
ghost use Rattle.fibs_session.specs.History.Hearing.{line_reading};
ghost use Rattle.fibs_session.specs.History.Machine.{Talk, start, Open, Lose, Click, PlainInput, open_refusal, unconfirmed_now, answer_now, plain_refusal, shown_now, Order, Withdraw, order_refusal, withdraw_refusal, ordered_now};
ghost use Rattle.fibs_commands.specs.LoginOf.{login_of};
ghost use Rattle.fibs_commands.specs.PlainOf.{plain_value};

use crate::hearing::Reply;
use crate::histories::{PlainRefusal, Refusal, read_line};
use crate::taken::{Outstanding, Taken};
use fibs_commands::{CommandText, Login, Plain};
use fibs_fields::boards::Board;
use fibs_lines::Line;
use fibs_position::{Decision, GameBoard, laws};

/// What the server does by itself, as a message 2 says.
#[derive(Clone, Copy)]
pub(crate) struct ServerFlags {
    pub(crate) automove: bool,
    pub(crate) greedy: bool,
}

/// A session with the server: one connection after another, each from `open` to `lose`.
///
/// It is given the lines that come (`line`), the user's decisions (`decide`) and his other commands (`plain`), and
/// hands out the commands that are to be sent. A decision waits until a board comes whose game part differs. A standing
/// order (`order_roll`) rolls for the user if he may not double. It keeps nothing of an earlier connection. No call
/// takes memory. It can't be copied: of two copies each would decide by itself, and a decision would go out twice.
#[derive(Drop)]
pub struct Session {
    pub(crate) login: Login,
    pub(crate) online: bool,
    /// A message 1 came on this connection.
    pub(crate) welcomed: bool,
    /// Of the latest message 2 of this connection.
    pub(crate) flags: Option<ServerFlags>,
    pub(crate) automove_sent: bool,
    pub(crate) greedy_sent: bool,
    pub(crate) shown: Option<GameBoard>,
    pub(crate) waiting: Option<Outstanding>,
    /// A standing order to roll is in force.
    pub(crate) ordered: bool,
}

impl Session {
    ghost use Rattle.fibs_session.specs.Calls.SessionOf.{session_of, ask_of, texts_of, handed, refusal_in};

    /// A session that never had a connection.
    #[tactic(auto, using(crate::proofs::Calls::SessionLaws::start_law))]
    pub fn new(login: Login) -> Session
        ensures { SessionStandsAfter (session_of result) (start (login_of login)) }
    {
        Session::fresh(login, false)
    }

    /// Opens a connection, and hands out the login command. `AlreadyOpen` if one is open.
    pub fn open(&mut self) -> Result<CommandText, Refusal>
        ensures does { SessionDoes (session_of self.old) (session_of self.new) Open (handed result) }
        ensures refusal { (t : Talk) → SessionStandsAfter (session_of self.old) t → refusal_in result ≡ open_refusal t }
        ensures kept { IsErr result → session_of self.new ≡ session_of self.old }
    {
        self.begin_connection()
    }

    /// The connection is lost: nothing of it is kept. Gives the decision that waited, with the board on which it was
    /// made. None if none waited, or if no connection was open.
    pub fn lose(&mut self) -> Option<Outstanding>
        ensures does { SessionDoes (session_of self.old) (session_of self.new) Lose [] }
        ensures unconfirmed { (t : Talk) → SessionStandsAfter (session_of self.old) t →
            option_map ask_of result ≡ unconfirmed_now t }
    {
        self.end_connection()
    }

    /// Takes a line of the server, without its line end. Offline it changes nothing, and nothing is to be sent.
    ///
    /// The first message 1 of a connection is answered by `set boardstyle 3`; the first message 2 by `toggle autoboard`
    /// and `toggle moreboards`, each if that setting is 0, and then by `board`. A board that has a position is shown
    /// from now on; if its game part differs from that of the board shown before, a decision that waits is
    /// confirmed. If a standing order is then due, it is answered by `roll`, which waits (`rolled`).
    #[inline(always)]
    pub fn line<'a>(&mut self, line: &Line<'a>) -> Taken<'a>
        ensures line { value_of result.line ≡ value_of line.now }
        ensures reading { reading_of result.reading ≡ line_reading (value_of line.now) }
        ensures hears { SessionHears (session_of self.old) (session_of self.new) (value_of line.now)
            (texts_of result.send.items) (option_map ask_of result.confirmed) result.rolled }
    {
        laws::same_game_is_a_likeness();
        let reading = read_line(line);
        let reply = self.note_line(&reading);
        let Reply {
            send,
            confirmed,
            rolled,
        } = reply;
        Taken {
            line: *line,
            reading,
            send,
            confirmed,
            rolled,
        }
    }

    /// Decides on the board shown, and hands out the command. The decision then waits.
    ///
    /// The first refusal of: `Offline`; `NotReady`, if message 1 or message 2 is still to come on this connection;
    /// `ServerPlays`, if automove or greedy is 1 in the latest message 2; `NoBoard`; `Waiting`; and what the board's
    /// position does not allow: `NotYours`, `WrongKind`, `IllegalPlay`. After a refusal the session is as before.
    pub fn decide(&mut self, decision: &Decision) -> Result<CommandText, Refusal>
        ensures does { SessionDoes (session_of self.old) (session_of self.new) (Click (decision_of decision.now))
            (handed result) }
        ensures refusal { (t : Talk) → SessionStandsAfter (session_of self.old) t →
            refusal_in result ≡ answer_now t (decision_of decision.now) }
        ensures kept { IsErr result → session_of self.new ≡ session_of self.old }
    {
        self.note_decision(decision)
    }

    /// Hands out a command that decides nothing in the game.
    ///
    /// The first refusal of: `Offline`; `NotOn`, if `AutomoveOff` or `GreedyOff` would turn off what is 0 in the
    /// latest message 2 of this connection, or was sent on it before; the command's fault. After a refusal the session
    /// is as before.
    pub fn plain(&mut self, plain: &Plain<'_>) -> Result<CommandText, PlainRefusal>
        ensures does { SessionDoes (session_of self.old) (session_of self.new) (PlainInput (plain_value plain.now))
            (handed result) }
        ensures refusal { (t : Talk) → SessionStandsAfter (session_of self.old) t →
            refusal_in result ≡ plain_refusal t (plain_value plain.now) }
        ensures kept { IsErr result → session_of self.new ≡ session_of self.old }
    {
        self.note_plain(plain)
    }

    /// Gives a standing order to roll, which is in force until it is withdrawn or the connection ends.
    ///
    /// It is due at a board that comes while it is in force, if field 39 says that the player may not double, the phase
    /// is `RollOrDouble`, and `decide` would take `Roll`: then `line` hands out `roll`, which waits. So it rolls at
    /// most once until a board comes whose game part differs. The order itself hands out nothing, also if such a
    /// board is shown. `Offline`; `AlreadyOrdered` if one is in force. After a refusal the session is as before.
    pub fn order_roll(&mut self) -> Result<(), Refusal>
        ensures does { SessionDoes (session_of self.old) (session_of self.new) Order [] }
        ensures refusal { (t : Talk) → SessionStandsAfter (session_of self.old) t →
            result_err result ≡ order_refusal t.log }
        ensures kept { IsErr result → session_of self.new ≡ session_of self.old }
    {
        self.note_order()
    }

    /// Withdraws the standing order to roll. A `roll` that it sent goes on waiting. `Offline`; `NotOrdered` if none
    /// is in force. After a refusal the session is as before.
    pub fn withdraw_roll(&mut self) -> Result<(), Refusal>
        ensures does { SessionDoes (session_of self.old) (session_of self.new) Withdraw [] }
        ensures refusal { (t : Talk) → SessionStandsAfter (session_of self.old) t →
            result_err result ≡ withdraw_refusal t.log }
        ensures kept { IsErr result → session_of self.new ≡ session_of self.old }
    {
        self.note_withdrawal()
    }

    /// Whether a standing order to roll is in force on the open connection.
    #[tactic(auto, using(crate::proofs::Calls::SessionLaws::ordered_is))]
    pub fn ordered(&self) -> bool
        ensures { (t : Talk) → SessionStandsAfter (session_of self.now) t → result ≡ ordered_now t }
    {
        self.ordered
    }

    /// The board that was shown last on this connection.
    pub fn shown(&self) -> Option<&Board>
        ensures { (t : Talk) → SessionStandsAfter (session_of self.now) t →
            option_map fields_of (option_copied result) ≡ shown_now t }
    {
        match &self.shown {
            None => None,
            Some(shown) => Some(shown.board()),
        }
    }

    /// The same board, with its position.
    #[tactic(auto, using(crate::proofs::Calls::SessionLaws::shown_law))]
    pub fn game(&self) -> Option<&GameBoard>
        ensures { (t : Talk) → SessionStandsAfter (session_of self.now) t →
            option_map game_of (option_copied result) ≡ shown_now t }
    {
        self.shown.as_ref()
    }

    /// The decision that waits, with the board on which it was made.
    #[tactic(auto, using(crate::proofs::Calls::SessionLaws::waiting_law))]
    pub fn waiting(&self) -> Option<&Outstanding>
        ensures { (t : Talk) → SessionStandsAfter (session_of self.now) t →
            option_map ask_of (option_copied result) ≡ unconfirmed_now t }
    {
        self.waiting.as_ref()
    }
}

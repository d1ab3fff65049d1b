//! The model server.

ghost use Rattle.std.specs.Prelude.{◌≡◌, ◌↔◌, ◌≤◌, true, Some, IsOk, IfOk, OnOk, OnErr, slice_index};
ghost use Rattle.std.specs.Result.{result_err};
ghost use Rattle.fibs_fields.specs.Board.{BoardFields};
ghost use Rattle.fibs_fields.specs.StoredBoard.{fields_of};
ghost use Rattle.fibs_position.specs.DecisionValue.{decision_of};
ghost use Rattle.fibs_position.specs.DirectionOf.{direction_of};
ghost use Rattle.fibs_position.specs.First.{IsFirst};
ghost use Rattle.fibs_position.specs.GoodBoard.{IsGood, HasFault, faults, good};
ghost use Rattle.fibs_position.specs.GameOf.{game_of};
ghost use Rattle.fibs_model.specs.Server.{answered, obeyed, own_refusal, user_decides};

use crate::entry::Entry;
use crate::machine::WorldRefusal;
use fibs_fields::boards::Board;
use fibs_position::{Decision, Direction, GameBoard, Phase, PositionFault, effect};
use fibs_session::read_command;
use std::marker::Model;

/// The server's answer to a line.
#[derive(Clone, Copy, Debug, PartialEq, Eq)]
pub enum Served {
    /// The line is of a connection older than the one logged in, or a later line of one that isn't logged in.
    Stale,
    /// The line was a login.
    LoggedIn,
    /// The decision was carried out, and the board changed.
    Took(Decision),
    /// The decision changes nothing.
    Undone(Decision),
    /// The line is no decision.
    Answered,
}

impl Served {
    ghost use Rattle.fibs_model.specs.EntryOf.{entries_of};
    ghost use Rattle.fibs_model.specs.ServerOf.{is_answered, served_entries, served_of};

    /// The server answers the line by its board.
    pub fn is_answered(self) -> bool
        ensures { (after : BoardFields) → result ≡ is_answered (served_of self after) }
    {
        match self {
            Served::Stale | Served::LoggedIn => false,
            Served::Took(_) | Served::Undone(_) | Served::Answered => true,
        }
    }

    /// The entry of the line, which came on a connection, with the server's board before it.
    pub fn entry(self, conn: usize, board: Board) -> Option<Entry>
        ensures { (after : BoardFields) →
            entries_of result ≡ served_entries conn (fields_of board) (served_of self after) }
    {
        match self {
            Served::Stale | Served::Answered => None,
            Served::LoggedIn => Some(Entry::LoggedIn { conn }),
            Served::Took(decision) => Some(Entry::Took {
                conn,
                board,
                decision,
            }),
            Served::Undone(decision) => Some(Entry::Undone {
                conn,
                board,
                decision,
            }),
        }
    }
}

/// A model of the server: a board of the user's game, and the number of the connection that is logged in.
///
/// Connections are numbered from 1. The first line of a connection is its login; from then on nothing of an older
/// connection is served. Every later line that is a decision in the numbers of the board is carried out if `effect`
/// carries it out. The world, and not the server, sends on the connections.
#[derive(Drop)]
pub struct Server {
    game: GameBoard,
    logged_in: usize,
}

impl Model for Server {
    ghost use Rattle.fibs_position.specs.GameOf.{game_of};
    ghost use Rattle.fibs_model.specs.Server.{ServerValue};

    ghost Value = { ServerValue };

    ghost view = { λ s. record { board = game_of s.game; logged_in = s.logged_in } };
}

impl Server {
    ghost use Rattle.fibs_model.specs.ServerOf.{served_of, after_line, taken_line};

    /// A server with a good board, and no connection logged in. Any other board is refused, with the first of its
    /// faults.
    pub fn new(board: Board) -> Result<Server, PositionFault>
        ensures good { IsOk result ↔ IsGood (fields_of board) }
        ensures fault { (f : PositionFault) →
            (result_err result ≡ Some f) ↔ IsFirst (HasFault (fields_of board)) faults f }
        ensures begins { IfOk result (λ server. (server.board ≡ fields_of board) × (server.logged_in ≡ 0)) }
    {
        match GameBoard::of(&board) {
            Err(fault) => Err(fault),
            Ok(game) => Ok(Server { game, logged_in: 0 }),
        }
    }

    /// The board.
    pub fn board(&self) -> &Board
        ensures value { fields_of result.now ≡ self.now.board }
        ensures good { good (fields_of result.now) ≡ true }
    {
        self.game.board()
    }

    /// The number of the connection that is logged in; 0 at first.
    pub fn logged_in(&self) -> usize
        ensures { result ≡ self.now.logged_in }
    {
        self.logged_in
    }

    /// The direction of the board.
    fn direction(&self) -> Direction
        ensures { result ≡ direction_of self.now.board }
    {
        self.game.direction()
    }

    /// The user decides on the board.
    fn user_decides(&self) -> bool
        ensures { result ≡ user_decides self.now.board }
    {
        matches!(
            self.game.phase(),
            Phase::AnswerDouble | Phase::RollOrDouble | Phase::Move
        )
    }

    /// Carries a decision out, if it can be.
    fn obey(&mut self, decision: Decision, dice: [u8; 2]) -> Served
        ensures answer { served_of result self.new.board ≡
            obeyed self.old.board (slice_index dice 0) (slice_index dice 1) (Some (decision_of decision)) }
        ensures after { self.new ≡ after_line self.old self.old.logged_in
            (obeyed self.old.board (slice_index dice 0) (slice_index dice 1) (Some (decision_of decision))) }
    {
        fibs_position::laws::effect_is_good();
        match effect(self.game.board(), &decision, dice) {
            None => Served::Undone(decision),
            Some(board) => {
                self.game = GameBoard::of(&board).unwrap();
                Served::Took(decision)
            }
        }
    }

    /// Takes a line of a connection, without its line end: the connection's first, which is its login, or a later one.
    /// `dice` are those of a roll.
    ///
    /// `Stale` for a line of a connection below the one logged in, and for a later line of one that isn't logged in;
    /// otherwise a first line makes its connection the one logged in, and a later one is `Took` if it is a decision
    /// in the numbers of the board that `effect` carries out, `Undone` if it is another decision, and else
    /// `Answered`.
    pub fn serve(&mut self, conn: usize, first: bool, text: &[u8], dice: [u8; 2]) -> Served
        requires { 1 ≤ conn }
        ensures answer { served_of result self.new.board ≡
            answered self.old (taken_line conn first text.now dice) }
        ensures after { self.new ≡ after_line self.old conn
            (answered self.old (taken_line conn first text.now dice)) }
    {
        if first {
            if conn < self.logged_in {
                return Served::Stale;
            }
            self.logged_in = conn;
            return Served::LoggedIn;
        }
        if conn != self.logged_in {
            return Served::Stale;
        }
        match read_command(text, self.direction()) {
            None => Served::Answered,
            Some(decision) => self.obey(decision, dice),
        }
    }

    /// A board which the server's may become, or why it may not.
    fn own_game(&self, board: &Board) -> Result<GameBoard, WorldRefusal>
        ensures refusal { result_err result ≡ own_refusal self.now.board (fields_of board.now) }
        ensures game { IfOk result (λ game. game_of game ≡ fields_of board.now) }
    {
        match GameBoard::of(board) {
            Err(_) => Err(WorldRefusal::BadBoard),
            Ok(game) => {
                if self.user_decides() {
                    return Err(WorldRefusal::UserDecides);
                }
                Ok(game)
            }
        }
    }

    /// The board becomes another one, by what the server does itself.
    ///
    /// `BadBoard` if the board is not good; then `UserDecides` if the server's board is one on which the user
    /// decides: nothing but a decision changes it.
    pub fn own(&mut self, board: &Board) -> Result<(), WorldRefusal>
        ensures refusal { result_err result ≡ own_refusal self.old.board (fields_of board.now) }
        ensures ok { OnOk result (self.new ≡ record { board = fields_of board.now; logged_in = self.old.logged_in }) }
        ensures err { OnErr result (self.new ≡ self.old) }
    {
        match self.own_game(board) {
            Err(why) => Err(why),
            Ok(game) => {
                self.game = game;
                Ok(())
            }
        }
    }
}

/// Why the server's board may not become this one by `own`.
pub fn own_refusal(server: &Server, board: &Board) -> Option<WorldRefusal>
    ensures { result ≡ own_refusal server.now.board (fields_of board.now) }
{
    server.own_game(board).err()
}

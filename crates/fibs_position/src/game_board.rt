//! A board of a game in which the user plays, with its position.

ghost use Rattle.std.specs.Prelude.{◌≡◌, ◌↔◌, IsOk, is_ok, IfOk, Err, true, not, None, Some, if◌then◌else◌};
ghost use Rattle.fibs_fields.specs.StoredBoard.{fields_of};
ghost use Rattle.fibs_position.specs.DirectionOf.{direction_of};
ghost use Rattle.fibs_position.specs.First.{IsFirst};
ghost use Rattle.fibs_position.specs.GamePart.{same_game};
ghost use Rattle.fibs_position.specs.GoodBoard.{IsGood, HasFault, faults, good};
ghost use Rattle.fibs_position.specs.Phases.{phase_of, IsPhase};
ghost use Rattle.fibs_position.specs.PositionValue.{position_of, position_value};

use crate::direction::Direction;
use crate::game_part::differs;
use crate::phase::Phase;
use crate::position::Position;
use crate::position_fault::PositionFault;
use fibs_fields::boards::Board;

/// A board of a game in which the user plays. Its position is made once, with it.
#[derive(Clone, Copy, Debug)]
pub struct GameBoard {
    board: Board,
    position: Position,
    pub ghost is_good: { good (fields_of board) ≡ true },
    pub ghost is_its_position: { position_value position ≡ position_of (fields_of board) },
}

impl GameBoard {
    ghost use Rattle.fibs_position.specs.GameOf.{game_of};

    /// A board with its position, or why it has none.
    pub fn of(board: &Board) -> Result<GameBoard, PositionFault>
        ensures good { IsOk result ↔ IsGood (fields_of board.now) }
        ensures test { is_ok result ≡ good (fields_of board.now) }
        ensures board { IfOk result (λ game. game_of game ≡ fields_of board.now) }
        ensures fault { (f : PositionFault) → (result ≡ Err f) ↔ IsFirst (HasFault (fields_of board.now)) faults f }
    {
        match Position::of(board) {
            Err(fault) => Err(fault),
            Ok(position) => Ok(GameBoard {
                board: *board,
                position,
            }),
        }
    }

    /// Has the next board in place of this one, and says whether the two differ. None if that has no position: then it
    /// stays as it was.
    #[inline(always)]
    pub fn follow(&mut self, next: &Board) -> Option<bool>
        ensures board { game_of self.new ≡ if good (fields_of next.now) then fields_of next.now else game_of self.old }
        ensures differs { result ≡ if good (fields_of next.now)
            then Some (not (same_game (game_of self.old) (fields_of next.now))) else None }
    {
        let Ok(position) = Position::of(next) else {
            return None;
        };
        let differs = differs(&self.board, next);
        self.board = *next;
        self.position = position;
        Some(differs)
    }

    /// The board.
    pub fn board(&self) -> &Board
        ensures value { fields_of result.now ≡ game_of self.now }
        ensures good { good (fields_of result.now) ≡ true }
    {
        &self.board
    }

    /// The board's position.
    pub fn position(&self) -> &Position
        ensures { position_value result.now ≡ position_of (game_of self.now) }
    {
        &self.position
    }

    /// The phase of the game.
    pub fn phase(&self) -> Phase
        ensures value { result ≡ phase_of (game_of self.now) }
        ensures first { IsPhase (game_of self.now) result }
    {
        self.position.phase()
    }

    /// Which way the player's checkers go by the numbers of the board line.
    pub fn direction(&self) -> Direction
        ensures { result ≡ direction_of (game_of self.now) }
    {
        self.position.direction()
    }
}

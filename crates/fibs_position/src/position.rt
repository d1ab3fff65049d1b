//! Positions: boards seen from their players' side.
#![tactic(auto, unfolding(crate::specs::PositionValue::position_value))]

ghost use Rattle.std.specs.Prelude.{◌≡◌, ◌≤◌, ◌↔◌, ◌&&◌, ◌∷◌, [], IsOk, is_ok, IfOk, IsTrue, Err, codes, map, sum, slice_index};
ghost use Rattle.std.specs.Result.{result_err};
ghost use Rattle.fibs_fields.specs.StoredBoard.{fields_of};
ghost use Rattle.fibs_position.specs.OwnView.{own_view, own_placed, other_placed};
ghost use Rattle.fibs_position.specs.GoodBoard.{IsGood};
ghost use Rattle.fibs_position.specs.declared.position_fault.PositionFault.TheVariants.{TooManyOwn, TooManyOther};

use crate::cube::MOST_DOUBLED;
use crate::decision::Decision;
use crate::direction::Direction;
use crate::disallowed::Disallowed;
use crate::own_view::{arranged, first_die, other_placed, own_placed, second_die};
use crate::phase::Phase;
use crate::position_fault::PositionFault;
use fibs_fields::boards::Board;
use fibs_fields::boards::fields::{COLOUR, CUBE, MAY_DOUBLE, TURN, WAS_DOUBLED};
use fibs_fields::boards::laws::is_board_is_exact;
use fibs_rules::{Arrangement, Play, Turn};
use std::alloc::{AllocError, Global};

/// What the rules read of a board of a game in which the user plays, seen from the user's side.
#[derive(Clone, Copy, Debug)]
pub struct Position {
    /// The checkers of both sides, and the player's dice.
    standing: Turn,
    /// Which way the player's checkers go by the numbers of the board line.
    direction: Direction,
    /// Whose turn it is: 1 for O, -1 for X, 0 if the game is over.
    turn: i32,
    /// The player's colour: 1 for O, -1 for X.
    colour: i32,
    /// 1 if the opponent has just doubled.
    was_doubled: i32,
    /// What the doubling cube shows.
    cube: i32,
    /// Not 0 if the player may double.
    may_double: i32,
    ghost own: { sum standing.checkers.own ≡ 15 },
    ghost other: { sum standing.checkers.other ≡ 15 },
    ghost first: { standing.first ≤ 6 },
    ghost second: { standing.second ≤ 6 },
}

/// The user plays in the board's game.
pub(crate) fn is_you(board: &Board) -> bool
    ensures { IsTrue result ↔ ((fields_of board.now).player ≡ codes "You") }
{
    board.player().bytes() == b"You".as_slice()
}

impl Position {
    ghost use Rattle.fibs_position.specs.GoodBoard.{HasFault, faults, good};
    ghost use Rattle.fibs_position.specs.First.{IsFirst};
    ghost use Rattle.fibs_rules.specs.Runs.{IsMost, can_move};
    ghost use Rattle.fibs_rules.specs.LegalPlays.{LegalPlay};
    ghost use Rattle.fibs_rules.specs.PlayValue.{hops_of};
    ghost use Rattle.fibs_position.specs.PlaysOf.{PlaysIn};
    ghost use Rattle.fibs_position.specs.DecisionValue.{decision_of};
    ghost use Rattle.fibs_position.specs.Allowed.{is_for, cube_allows, is_legal, refusal_of, MayDecide, IsRefused};
    ghost use Rattle.fibs_position.specs.Phases.{InPhase, phase_in};
    ghost use Rattle.fibs_position.specs.PositionValue.{position_of, position_value};

    /// The position of a board, or why it has none.
    pub fn of(board: &Board) -> Result<Position, PositionFault>
        ensures good { IsOk result ↔ IsGood (fields_of board.now) }
        ensures test { is_ok result ≡ good (fields_of board.now) }
        ensures same { IfOk result (λ p. position_value p ≡ position_of (fields_of board.now)) }
        ensures fault { (f : PositionFault) → (result ≡ Err f) ↔ IsFirst (HasFault (fields_of board.now)) faults f }
    {
        is_board_is_exact();
        if !is_you(board) {
            return Err(PositionFault::NotYou);
        }
        Position::seen(board)
    }

    /// The position of a board, whoever its player is, or which side has too many checkers.
    #[tactic(auto, unfolding(crate::specs::OwnView::own_view))]
    pub(crate) fn seen(board: &Board) -> Result<Position, PositionFault>
        ensures few { let b = fields_of board.now in IsOk result ↔ (own_placed b ≤ 15) × (other_placed b ≤ 15) }
        ensures same { IfOk result (λ p. position_value p ≡ position_of (fields_of board.now)) }
        ensures fault { (f : PositionFault) → (result ≡ Err f)
            ↔ IsFirst (HasFault (fields_of board.now)) (TooManyOwn ∷ TooManyOther ∷ []) f }
    {
        let own = own_placed(board);
        if own.total > 15 {
            return Err(PositionFault::TooManyOwn);
        }
        let other = other_placed(board);
        if other.total > 15 {
            return Err(PositionFault::TooManyOther);
        }
        Ok(Position::with_checkers(board, arranged(&own, &other)))
    }

    /// The position of a board with these checkers.
    fn with_checkers(board: &Board, arrangement: Arrangement) -> Self
        requires view { arrangement ≡ own_view (fields_of board.now) }
        requires own { sum arrangement.own ≡ 15 }
        requires other { sum arrangement.other ≡ 15 }
        ensures { position_value result ≡ position_of (fields_of board.now) }
    {
        Position {
            standing: Turn::new(arrangement, first_die(board), second_die(board)),
            direction: Direction::of(board),
            turn: board.field(TURN),
            colour: board.field(COLOUR),
            was_doubled: board.field(WAS_DOUBLED),
            cube: board.field(CUBE),
            may_double: board.field(MAY_DOUBLE),
        }
    }

    /// The player's checkers on a place, counted so that he goes down: 1 to 24, or 25 for his bar, or 0 for those borne
    /// off.
    pub fn own(&self, place: u8) -> u8
        requires { place ≤ 25 }
        ensures value { result ≡ slice_index (position_value self.now).standing.checkers.own place }
        ensures few { result ≤ 15 }
    {
        self.standing.arrangement().own(place)
    }

    /// The opponent's checkers on a place 1 to 24 of the player's numbering.
    pub fn other(&self, place: u8) -> u8
        requires low { 1 ≤ place }
        requires high { place ≤ 24 }
        ensures value { result ≡ slice_index (position_value self.now).standing.checkers.other place }
        ensures few { result ≤ 15 }
    {
        self.standing.arrangement().other(place)
    }

    /// The opponent's checkers on the bar.
    pub fn other_bar(&self) -> u8
        ensures value { result ≡ slice_index (position_value self.now).standing.checkers.other 0 }
        ensures few { result ≤ 15 }
    {
        self.standing.arrangement().other(0)
    }

    /// The opponent's checkers that are borne off.
    pub fn other_off(&self) -> u8
        ensures value { result ≡ slice_index (position_value self.now).standing.checkers.other 25 }
        ensures few { result ≤ 15 }
    {
        self.standing.arrangement().other(25)
    }

    /// Which way the player's checkers go by the numbers of the board line.
    pub fn direction(&self) -> Direction
        ensures { let p = position_value self.now in result ≡ p.direction }
    {
        self.direction
    }

    /// Some die that is shown can be played.
    fn can_move(&self) -> bool
        ensures { result ≡ can_move (position_value self.now).standing }
    {
        self.standing.can_move()
    }

    /// The first line of the table of phases that fits.
    fn phase_by_table(&self) -> Phase
        ensures { result ≡ phase_in (position_value self.now) }
    {
        if self.turn == 0 {
            return Phase::Over;
        }
        if self.was_doubled == 1 {
            return Phase::AnswerDouble;
        }
        if self.turn != self.colour {
            return Phase::OpponentActs;
        }
        if self.standing.no_dice() {
            return Phase::RollOrDouble;
        }
        if self.can_move() {
            return Phase::Move;
        }
        Phase::Passing
    }

    /// The phase of the game: the first line of this table that fits.
    ///
    /// | Phase | Condition | The player decides |
    /// |---|---|---|
    /// | `Over` | nobody has the turn | no |
    /// | `AnswerDouble` | the opponent has just doubled | yes |
    /// | `OpponentActs` | the turn is not the player's | no |
    /// | `RollOrDouble` | the player's dice are not shown | yes |
    /// | `Move` | a die shown can be played | yes |
    /// | `Passing` | otherwise | no |
    pub fn phase(&self) -> Phase
        ensures value { result ≡ phase_in (position_value self.now) }
        ensures first { InPhase (position_value self.now) result }
    {
        self.phase_by_table()
    }

    /// The most dice that a run of steps can play: 0 to 4.
    pub fn most_dice(&self) -> u8
        ensures { IsMost (position_value self.now).standing result }
    {
        self.standing.most_dice()
    }

    /// The play is legal: a run of steps by the dice held than which no run is longer, and by the larger die if only
    /// one of two different dice can be played, and the larger can. The empty play is legal if nothing can be
    /// played.
    pub fn is_legal(&self, play: &Play) -> bool
        ensures { IsTrue result ↔ LegalPlay (position_value self.now).standing (hops_of play.now) }
    {
        self.standing.is_legal(play)
    }

    /// In the phase `Move`, for each arrangement of checkers that some legal play reaches, the greatest such play
    /// (steps compared by source, then by target), the greatest first. In every other phase none.
    pub fn plays(&self, alloc: Global) -> Result<Vec<Play>, AllocError>
        ensures { IfOk result (λ plays. PlaysIn (position_value self.now) (map hops_of plays.items)) }
    {
        match self.phase() {
            Phase::Move => self.standing.plays(alloc),
            _ => Ok(Vec::new(alloc)),
        }
    }

    /// The cube allows the decision: a double is offered only if the player may, and neither offered nor accepted
    /// if the cube shows more than 524,288.
    fn cube_allows(&self, decision: &Decision) -> bool
        ensures { result ≡ cube_allows (position_value self.now) (decision_of decision.now) }
    {
        match decision {
            Decision::Double => self.may_double != 0 && self.cube <= MOST_DOUBLED,
            Decision::Accept => self.cube <= MOST_DOUBLED,
            Decision::Roll | Decision::Reject | Decision::Move(_) | Decision::Resign(_) => true,
        }
    }

    /// The decision is of one of the phase's kinds, and the cube allows it.
    fn is_right_kind(&self, phase: Phase, decision: &Decision) -> bool
        ensures { let d = decision_of decision.now in
            result ≡ (is_for d phase && cube_allows (position_value self.now) d) }
    {
        decision.is_for(phase) && self.cube_allows(decision)
    }

    /// The decision is no move, or a legal one.
    fn is_legal_move(&self, decision: &Decision) -> bool
        ensures { result ≡ is_legal (position_value self.now) (decision_of decision.now) }
    {
        match decision {
            Decision::Move(play) => self.is_legal(play),
            Decision::Roll
            | Decision::Double
            | Decision::Accept
            | Decision::Reject
            | Decision::Resign(_) => true,
        }
    }

    /// The first reason against a decision.
    fn refusal(&self, decision: &Decision) -> Option<Disallowed>
        ensures { result ≡ refusal_of (position_value self.now) (decision_of decision.now) }
    {
        let phase = self.phase();
        if !phase.is_deciding() {
            return Some(Disallowed::NotYours);
        }
        if !self.is_right_kind(phase, decision) {
            return Some(Disallowed::WrongKind);
        }
        if !self.is_legal_move(decision) {
            return Some(Disallowed::IllegalPlay);
        }
        None
    }

    /// Whether the player may decide so, or the first reason why not.
    pub fn allows(&self, decision: &Decision) -> Result<(), Disallowed>
        ensures value { result_err result ≡ refusal_of (position_value self.now) (decision_of decision.now) }
        ensures allowed { IsOk result ↔ MayDecide (position_value self.now) (decision_of decision.now) }
        ensures refused { (why : Disallowed) → (result ≡ Err why)
            ↔ IsRefused (position_value self.now) (decision_of decision.now) why }
    {
        match self.refusal(decision) {
            None => Ok(()),
            Some(why) => Err(why),
        }
    }
}

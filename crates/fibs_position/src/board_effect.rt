//! The board after the server carries a decision out.

ghost use Rattle.std.specs.Prelude.{◌≡◌, ◌↔◌, ◌≤◌, ◌≤ℤ◌, ◌&&◌, not, ℕ, List, pos, negsuc, true, IsTrue, Some, option_map, slice_index, ◌==◌, if◌then◌else◌, neg_ℤ};
ghost use Rattle.fibs_fields.specs.Board.{BoardFields, can_have, field_of};
ghost use Rattle.fibs_fields.specs.StoredBoard.{fields_of};
ghost use Rattle.fibs_position.specs.BoardEffect.{set_field, set_fields, rolled, turn_given, accepted, rejected, value_of, placed, after_move, Effect, is_die, are_thrown, has_turn, is_doubled, carried, effect_of};
ghost use Rattle.fibs_position.specs.DecisionValue.{roll, double, accept, reject, move, resign, decision_of};
ghost use Rattle.fibs_rules.specs.PlayValue.{hops_of};
ghost use Rattle.fibs_position.specs.OwnView.{colour, no_dice, own_placed, other_placed};
ghost use Rattle.fibs_position.specs.declared.stake.Stake.{Stake};

use crate::cube::MOST_DOUBLED;
use crate::decision::Decision;
use crate::good_board::is_good;
use crate::own_view::{arrangement_of, colour, no_dice, place_field};
use fibs_fields::boards::Board;
use fibs_fields::boards::fields::{
    COLOUR, CUBE, FIRST_DIE, MAY_DOUBLE, OTHER_FIRST_DIE, OTHER_MAY_DOUBLE, OTHER_SECOND_DIE,
    OWN_OFF, SECOND_DIE, TURN, WAS_DOUBLED,
};
use fibs_fields::boards::laws::{fields_have_their_ranges, is_board_is_exact};
use fibs_rules::{Arrangement, Play};

/// The board with a number of a field changed that it may have.
fn set(board: Board, field: usize, value: i32) -> Board
    requires { can_have field value ≡ true }
    ensures { fields_of result ≡ set_field (fields_of board) field value }
{
    board.with(field, value).unwrap()
}

/// The player has the turn, and no double is to be answered.
fn has_turn(board: &Board) -> bool
    ensures { result ≡ has_turn (fields_of board.now) }
{
    board.field(TURN) == board.field(COLOUR) && board.field(WAS_DOUBLED) == 0
}

/// The opponent has just doubled.
fn is_doubled(board: &Board) -> bool
    ensures { result ≡ is_doubled (fields_of board.now) }
{
    board.field(TURN) != 0 && board.field(WAS_DOUBLED) == 1
}

/// The player has the turn, and his dice are not shown.
fn is_before_roll(board: &Board) -> bool
    ensures { result ≡ (has_turn (fields_of board.now) && no_dice (fields_of board.now)) }
{
    has_turn(board) && no_dice(board)
}

/// The player has the turn, and one of his dice is shown at least.
fn is_before_move(board: &Board) -> bool
    ensures { result ≡ (has_turn (fields_of board.now) && not (no_dice (fields_of board.now))) }
{
    has_turn(board) && !no_dice(board)
}

/// It is a number of a die.
pub fn is_die(number: u8) -> bool
    ensures { result ≡ is_die number }
{
    0 < number && number <= 6
}

/// Both dice are dice.
fn are_thrown(dice: [u8; 2]) -> bool
    ensures value { result ≡ are_thrown dice }
    ensures small { IsTrue result → (slice_index dice 0 ≤ 6) × (slice_index dice 1 ≤ 6) }
{
    is_die(dice[0]) && is_die(dice[1])
}

/// The dice of the roll are the player's, and the opponent's are taken away.
fn rolled(board: Board, dice: [u8; 2]) -> Board
    requires first { slice_index dice 0 ≤ 6 }
    requires second { slice_index dice 1 ≤ 6 }
    ensures { fields_of result ≡ rolled (fields_of board) dice }
{
    fields_have_their_ranges();
    let board = set(board, FIRST_DIE, i32::from(dice[0]));
    let board = set(board, SECOND_DIE, i32::from(dice[1]));
    let board = set(board, OTHER_FIRST_DIE, 0);
    set(board, OTHER_SECOND_DIE, 0)
}

/// The turn goes to the opponent, who has to answer.
fn turn_given(board: Board) -> Board
    ensures { fields_of result ≡ turn_given (fields_of board) }
{
    fields_have_their_ranges();
    set(board, TURN, -colour(&board))
}

/// What the cube shows.
fn cube_of(board: &Board) -> i32
    ensures value { result ≡ field_of (fields_of board.now) 38 }
    ensures range { (pos 1 ≤ℤ result) × (result ≤ℤ pos 1048576) }
{
    fields_have_their_ranges();
    board.field(CUBE)
}

/// The cube shows twice as much, the player alone may double next, and the opponent goes on.
fn accepted(board: Board) -> Board
    requires { field_of (fields_of board) 38 ≤ℤ pos 524288 }
    ensures { fields_of result ≡ accepted (fields_of board) }
{
    fields_have_their_ranges();
    let cube = cube_of(&board);
    let turn = -colour(&board);
    let board = set(board, WAS_DOUBLED, 0);
    let board = set(board, CUBE, cube + cube);
    let board = set(board, MAY_DOUBLE, 1);
    let board = set(board, OTHER_MAY_DOUBLE, 0);
    set(board, TURN, turn)
}

/// The game is over.
fn rejected(board: Board) -> Board
    ensures { fields_of result ≡ rejected (fields_of board) }
{
    let board = set(board, WAS_DOUBLED, 0);
    set(board, TURN, 0)
}

/// The value of a place: O's checkers are counted by positive numbers, X's by negative ones.
fn value_of(side: i32, own: u8, other: u8) -> i32
    requires own { own ≤ 15 }
    requires other { other ≤ 15 }
    ensures value { result ≡ value_of side own other }
    ensures low { negsuc 14 ≤ℤ result }
    ensures high { result ≤ℤ pos 15 }
{
    let own = i32::from(own);
    let other = i32::from(other);
    if side == 1 { own - other } else { other - own }
}

/// The board with these checkers on places 1 to 24.
fn placed(board: &Board, reached: &Arrangement) -> Board
    ensures { fields_of result ≡ set_fields (fields_of board.now) (placed (fields_of board.now) reached.now) }
{
    fields_have_their_ranges();
    let side = colour(board);
    let mut after = *board;
    for place in 1..25 {
        let value = value_of(side, reached.own(place), reached.other(place));
        after = set(after, place_field(board, place), value);
    }
    after
}

/// Whose turn it is after a move that leaves so many of the player's checkers off.
fn turn_after(board: &Board, off: u8) -> i32
    ensures value { result ≡ (if off == 15 then pos 0 else neg_ℤ (colour (fields_of board.now))) }
    ensures low { negsuc 0 ≤ℤ result }
    ensures high { result ≤ℤ pos 1 }
{
    if off == 15 { 0 } else { -colour(board) }
}

/// The checkers are so placed, those borne off are counted, and the turn goes to the opponent; with all fifteen off the
/// game is over.
fn after_move(board: &Board, reached: &Arrangement) -> Board
    ensures { fields_of result ≡ after_move (fields_of board.now) reached.now }
{
    fields_have_their_ranges();
    let off = reached.own(0);
    let turn = turn_after(board, off);
    let after = placed(board, reached);
    let after = set(after, OWN_OFF, i32::from(off));
    let after = set(after, FIRST_DIE, 0);
    let after = set(after, SECOND_DIE, 0);
    set(after, TURN, turn)
}

fn roll(board: &Board, dice: [u8; 2]) -> Option<Board>
    ensures { option_map fields_of result ≡ carried (fields_of board.now) roll dice }
{
    if is_before_roll(board) && are_thrown(dice) {
        Some(rolled(*board, dice))
    } else {
        None
    }
}

fn double(board: &Board) -> Option<Board>
    ensures { (dice : List ℕ) → option_map fields_of result ≡ carried (fields_of board.now) double dice }
{
    if is_before_roll(board) {
        Some(turn_given(*board))
    } else {
        None
    }
}

fn accept(board: &Board) -> Option<Board>
    ensures { (dice : List ℕ) → option_map fields_of result ≡ carried (fields_of board.now) accept dice }
{
    if is_doubled(board) && board.field(CUBE) <= MOST_DOUBLED {
        Some(accepted(*board))
    } else {
        None
    }
}

fn reject(board: &Board) -> Option<Board>
    ensures { (dice : List ℕ) → option_map fields_of result ≡ carried (fields_of board.now) reject dice }
{
    if is_doubled(board) {
        Some(rejected(*board))
    } else {
        None
    }
}

fn make_steps(board: &Board, play: &Play) -> Option<Board>
    requires own { own_placed (fields_of board.now) ≤ 15 }
    requires other { other_placed (fields_of board.now) ≤ 15 }
    ensures { (dice : List ℕ)
        → option_map fields_of result ≡ carried (fields_of board.now) (move (hops_of play.now)) dice }
{
    if !is_before_move(board) {
        return None;
    }
    match arrangement_of(board).carried_out(play.steps()) {
        Some(reached) => Some(after_move(board, &reached)),
        None => None,
    }
}

fn resign(board: &Board) -> Option<Board>
    ensures { (stake : Stake) (dice : List ℕ)
        → option_map fields_of result ≡ carried (fields_of board.now) (resign stake) dice }
{
    if has_turn(board) {
        Some(turn_given(*board))
    } else {
        None
    }
}

/// What the table of decisions gives.
fn by_table(board: &Board, decision: &Decision, dice: [u8; 2]) -> Option<Board>
    ensures { option_map fields_of result ≡ effect_of (fields_of board.now) (decision_of decision.now) dice }
{
    if !is_good(board) {
        return None;
    }
    match decision {
        Decision::Roll => roll(board, dice),
        Decision::Double => double(board),
        Decision::Accept => accept(board),
        Decision::Reject => reject(board),
        Decision::Move(play) => make_steps(board, play),
        Decision::Resign(_) => resign(board),
    }
}

/// The board after the server carried a decision out, and None if it doesn't: if the board is not good, or the
/// decision's condition doesn't hold.
///
/// - Roll, if the player has the turn, no double to answer and no dice, and both given dice are 1 to 6: the dice are
///   his, the opponent's are taken away.
/// - Double, if the player has the turn, no double to answer and no dice: the turn goes to the opponent.
/// - Accept, if the game is not over, the opponent has doubled, and the cube is at most 524,288: the cube doubles,
///   the player alone may double next, and the turn goes to the opponent.
/// - Reject, if the game is not over, and the opponent has doubled: the game is over.
/// - Move, if the player has the turn, no double to answer and a die, and at each step in order a checker at its
///   source and no two opponents at its target: the checkers are as moved and hit, those off are counted, the dice
///   are taken away, and the turn goes to the opponent, or the game is over with all fifteen off.
/// - Resign, if the player has the turn and no double to answer: the turn goes to the opponent, whatever the stake.
///
/// Fields that are not named stay. Of a move nothing else is asked: not the dice's lengths, the bar, bearing off, or
/// the fullest use of the dice.
pub fn effect(board: &Board, decision: &Decision, dice: [u8; 2]) -> Option<Board>
    ensures value { option_map fields_of result ≡ effect_of (fields_of board.now) (decision_of decision.now) dice }
    ensures carried { (after : BoardFields) → (option_map fields_of result ≡ Some after)
        ↔ Effect (fields_of board.now) (decision_of decision.now) dice after }
{
    is_board_is_exact();
    by_table(board, decision, dice)
}

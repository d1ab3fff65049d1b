//! A board as its player sees it.

ghost use Rattle.std.specs.Prelude.{◌≡◌, ◌⊎◌, ◌+◌, ◌-◌, ◌≤◌, ◌≤ℤ◌, ◌∷◌, ◌++◌, [], pos, negsuc, sum};
ghost use Rattle.fibs_fields.specs.FieldReading.{natural};
ghost use Rattle.fibs_fields.specs.Board.{field_of};
ghost use Rattle.fibs_fields.specs.StoredBoard.{fields_of};
ghost use Rattle.fibs_position.specs.OwnView.{colour, place_field, stand_on, on_places, own_on_places, other_on_places, own_off, other_off, own_placed, other_placed, own_view, first_die, second_die, no_dice};

use crate::direction::Direction;
use fibs_fields::boards::Board;
use fibs_fields::boards::fields::{COLOUR, FIRST_DIE, FIRST_PLACE, OTHER_OFF, OWN_OFF, SECOND_DIE};
use fibs_fields::boards::laws::fields_have_their_ranges;
use fibs_rules::{Arrangement, total};

/// The player's colour: 1 for O, -1 for X.
pub fn colour(board: &Board) -> i32
    ensures value { result ≡ colour (fields_of board.now) }
    ensures side { (result ≡ negsuc 0) ⊎ (result ≡ pos 1) }
{
    fields_have_their_ranges();
    board.field(COLOUR)
}

/// The field of a place, which the player counts so as to go down.
pub fn place_field(board: &Board, place: u8) -> usize
    requires low { 1 ≤ place }
    requires high { place ≤ 24 }
    ensures value { result ≡ place_field (fields_of board.now) place }
    ensures low { 8 ≤ result }
    ensures high { result ≤ 31 }
{
    FIRST_PLACE + usize::from(Direction::of(board).line_place(place))
}

/// What the line has for a place.
fn value_at(board: &Board, place: u8) -> i32
    requires low { 1 ≤ place }
    requires high { place ≤ 24 }
    ensures value { let b = fields_of board.now in result ≡ field_of b (place_field b place) }
    ensures few { (negsuc 14 ≤ℤ result) × (result ≤ℤ pos 15) }
{
    fields_have_their_ranges();
    board.field(place_field(board, place))
}

/// The checkers of a colour on a place.
fn stand_on(board: &Board, side: i32, place: u8) -> u8
    requires low { 1 ≤ place }
    requires high { place ≤ 24 }
    ensures value { result ≡ stand_on (fields_of board.now) side place }
    ensures few { result ≤ 15 }
{
    let value = value_at(board, place);
    let count = if side == 1 { value } else { -value };
    if count > 0 { count as u8 } else { 0 }
}

/// The checkers of a colour on places 1 to 24.
fn on_places(board: &Board, side: i32) -> [u8; 24]
    ensures { result ≡ on_places (fields_of board.now) side }
{
    let mut counts = [0; 24];
    for i in 0..24 {
        counts[i] = stand_on(board, side, i as u8 + 1);
    }
    counts
}

/// The checkers of a side that are borne off, by the number of their field.
fn borne_off(board: &Board, field: usize) -> u8
    requires low { 46 ≤ field }
    requires high { field ≤ 47 }
    ensures value { result ≡ natural (field_of (fields_of board.now) field) }
    ensures few { result ≤ 15 }
{
    fields_have_their_ranges();
    board.field(field) as u8
}

/// The player's checkers that are borne off.
fn own_off(board: &Board) -> u8
    ensures value { result ≡ own_off (fields_of board.now) }
    ensures few { result ≤ 15 }
{
    borne_off(board, OWN_OFF)
}

/// The opponent's checkers that are borne off.
fn other_off(board: &Board) -> u8
    ensures value { result ≡ other_off (fields_of board.now) }
    ensures few { result ≤ 15 }
{
    borne_off(board, OTHER_OFF)
}

/// The player's first die, 0 for none.
pub fn first_die(board: &Board) -> u8
    ensures value { result ≡ first_die (fields_of board.now) }
    ensures high { result ≤ 6 }
{
    board.die(FIRST_DIE)
}

/// The player's second die, 0 for none.
pub fn second_die(board: &Board) -> u8
    ensures value { result ≡ second_die (fields_of board.now) }
    ensures high { result ≤ 6 }
{
    board.die(SECOND_DIE)
}

/// The player's dice are not shown.
pub fn no_dice(board: &Board) -> bool
    ensures { result ≡ no_dice (fields_of board.now) }
{
    first_die(board) == 0 && second_die(board) == 0
}

/// A side's checkers that are not on the bar: those on places 1 to 24, those off, and how many they all are.
#[derive(Clone, Copy)]
pub struct Placed {
    places: [u8; 24],
    off: u8,
    pub total: u32,
    ghost counted: { total ≡ sum places + off },
}

/// These checkers, counted.
fn counted(places: [u8; 24], off: u8) -> Placed
    ensures places { result.places ≡ places }
    ensures off { result.off ≡ off }
{
    Placed {
        places,
        off,
        total: total(&places) + u32::from(off),
    }
}

/// The player's checkers that are not on the bar.
pub fn own_placed(board: &Board) -> Placed
    ensures places { result.places ≡ own_on_places (fields_of board.now) }
    ensures off { result.off ≡ own_off (fields_of board.now) }
    ensures total { result.total ≡ own_placed (fields_of board.now) }
{
    counted(on_places(board, colour(board)), own_off(board))
}

/// The opponent's checkers that are not on the bar.
pub fn other_placed(board: &Board) -> Placed
    ensures places { result.places ≡ other_on_places (fields_of board.now) }
    ensures off { result.off ≡ other_off (fields_of board.now) }
    ensures total { result.total ≡ other_placed (fields_of board.now) }
{
    counted(on_places(board, -colour(board)), other_off(board))
}

/// The counts of the 24 places between two others.
fn lined_up(low: u8, places: [u8; 24], high: u8) -> [u8; 26]
    ensures { result ≡ low ∷ (places ++ high ∷ []) }
{
    let mut line = [low; 26];
    line[1..25].copy_from_slice(&places);
    line[25] = high;
    line
}

/// The checkers of both sides, fifteen each: those that are not placed are on the bar.
pub fn arranged(own: &Placed, other: &Placed) -> Arrangement
    requires own { own.now.total ≤ 15 }
    requires other { other.now.total ≤ 15 }
    ensures value { result ≡ record {
      own = own.now.off ∷ (own.now.places ++ (15 - own.now.total) ∷ []);
      other = (15 - other.now.total) ∷ (other.now.places ++ other.now.off ∷ []);
    } }
    ensures own { sum result.own ≡ 15 }
    ensures other { sum result.other ≡ 15 }
{
    let own_bar = 15 - own.total as u8;
    let other_bar = 15 - other.total as u8;
    Arrangement::of_counts(
        lined_up(own.off, own.places, own_bar),
        lined_up(other_bar, other.places, other.off),
    )
}

/// The checkers of both sides as the player sees them.
#[tactic(auto, unfolding(crate::specs::OwnView::own_view))]
pub fn arrangement_of(board: &Board) -> Arrangement
    requires own { own_placed (fields_of board.now) ≤ 15 }
    requires other { other_placed (fields_of board.now) ≤ 15 }
    ensures { result ≡ own_view (fields_of board.now) }
{
    arranged(&own_placed(board), &other_placed(board))
}

//! How far checkers have to go until they are off.
ghost use Rattle.std.specs.Prelude.{◌≡◌, ◌≤◌, slice_index};
ghost use Rattle.fibs_position.specs.PositionValue.{position_value};
ghost use Rattle.fibs_picture.specs.Picture.{own_pips, other_pips};

use fibs_position::Position;

/// The opponent's checkers on a place, counted from 0, his bar.
fn other_on(position: &Position, place: u8) -> u8
    requires { place ≤ 24 }
    ensures value { result ≡ slice_index (position_value position.now).standing.checkers.other place }
    ensures few { result ≤ 15 }
{
    if place == 0 {
        position.other_bar()
    } else {
        position.other(place)
    }
}

/// How far the player's checkers have to go.
#[tactic(auto, unfolding(crate::specs::Picture::own_pips))]
pub(crate) fn own_pips(position: &Position) -> u32
    ensures { result ≡ own_pips (position_value position.now).standing.checkers }
{
    let mut pips = 0;
    for place in 0..26 {
        pips += u32::from(place) * u32::from(position.own(place));
    }
    pips
}

/// How far the opponent's checkers have to go.
#[tactic(auto, unfolding(crate::specs::Picture::other_pips))]
pub(crate) fn other_pips(position: &Position) -> u32
    ensures { result ≡ other_pips (position_value position.now).standing.checkers }
{
    let mut pips = 0;
    for place in 0..25 {
        pips += u32::from(25 - place) * u32::from(other_on(position, place));
    }
    pips
}

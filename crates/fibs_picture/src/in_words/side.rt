//! The two sides, and their places, which are counted by the steps from a side's bar: 0 is the bar, and 25 is off.
ghost use Rattle.std.specs.Prelude.{◌≡◌, ◌≤◌, slice_index};
ghost use Rattle.fibs_position.specs.PositionValue.{position_value};
ghost use Rattle.fibs_picture.specs.InWords.Words.{place_of, count_on};

use fibs_position::Position;

/// The steps from a bar to where checkers are off.
pub const OFF: u8 = 25;

/// One of the two sides.
#[derive(Clone, Copy, Debug, PartialEq, Eq)]
pub enum Side {
    /// The player's.
    Own,
    /// The opponent's.
    Other,
}

/// The opponent's checkers on a place as the player counts it: 0 is the opponent's bar, and 25 is off.
fn other_on(position: &Position, place: u8) -> u8
    requires { place ≤ 25 }
    ensures value { result ≡ slice_index (position_value position.now).standing.checkers.other place }
    ensures few { result ≤ 15 }
{
    if place == 0 {
        position.other_bar()
    } else if place == OFF {
        position.other_off()
    } else {
        position.other(place)
    }
}

impl Side {
    /// The place that is so many steps from the side's bar, as the player counts it.
    pub fn place(self, steps: u8) -> u8
        requires { steps ≤ 25 }
        ensures value { result ≡ place_of self steps }
        ensures high { result ≤ 25 }
    {
        match self {
            Side::Own => OFF - steps,
            Side::Other => steps,
        }
    }

    /// How many checkers of the side are so many steps from its bar.
    pub fn count(self, position: &Position, steps: u8) -> u8
        requires { steps ≤ 25 }
        ensures value { result ≡ count_on (position_value position.now).standing.checkers self steps }
        ensures few { result ≤ 15 }
    {
        match self {
            Side::Own => position.own(OFF - steps),
            Side::Other => other_on(position, steps),
        }
    }
}

//! Why a board has no position.

ghost use Rattle.std.specs.Prelude.{◌≡◌, ◌≤◌, Some, length};

use std::error::Error;
use std::fmt;

/// Why a board has no position. Of several the first is named.
#[derive(Clone, Copy, Debug, PartialEq, Eq)]
pub enum PositionFault {
    /// The player (field 2) is not `You`: the board is that of a watched game.
    NotYou,
    /// The player has more than 15 checkers on places 1 to 24 and off.
    TooManyOwn,
    /// The opponent has more than 15 checkers on places 1 to 24 and off.
    TooManyOther,
}

impl PositionFault {
    ghost use Rattle.fibs_position.specs.Names.{position_fault_name, position_fault_number};

    /// The fault's name, which `Display` prints.
    pub fn name(self) -> &'static str
        ensures name { result.now ≡ position_fault_name self }
        ensures short { length result.now ≤ 12 }
    {
        match self {
            PositionFault::NotYou => "NotYou",
            PositionFault::TooManyOwn => "TooManyOwn",
            PositionFault::TooManyOther => "TooManyOther",
        }
    }

    /// The fault's number: 1 `NotYou`, 2 `TooManyOwn`, 3 `TooManyOther`.
    pub fn number(self) -> u8
        ensures { result ≡ position_fault_number self }
    {
        match self {
            PositionFault::NotYou => 1,
            PositionFault::TooManyOwn => 2,
            PositionFault::TooManyOther => 3,
        }
    }
}

impl fmt::Display for PositionFault {
    ghost use Rattle.fibs_position.specs.Names.{position_fault_name};

    ghost output = { λ fault. Some (position_fault_name fault) };

    fn fmt<W: fmt::Write>(&self, f: &mut fmt::Formatter<W>) -> fmt::Result {
        f.pad(self.name())
    }
}

impl Error for PositionFault {}

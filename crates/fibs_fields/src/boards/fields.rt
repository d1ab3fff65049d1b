//! The numbers of the fields of a board line, by name (FIBS board style 3).

/// How many points the match is to: 9999 if it is unlimited.
pub const MATCH_LENGTH: usize = 4;

/// The length of an unlimited match.
pub const UNLIMITED: i32 = 9999;

/// The player's points.
pub const OWN_SCORE: usize = 5;

/// The opponent's points.
pub const OTHER_SCORE: usize = 6;

/// The first of places 0 to 25.
pub const FIRST_PLACE: usize = 7;

/// The last of them.
pub const LAST_PLACE: usize = 32;

/// Whose turn it is: the colour of the one who is on turn, or 0 if the game is over.
pub const TURN: usize = 33;

/// The player's first die, or 0.
pub const FIRST_DIE: usize = 34;

/// The player's second die, or 0.
pub const SECOND_DIE: usize = 35;

/// The opponent's first die, or 0.
pub const OTHER_FIRST_DIE: usize = 36;

/// The opponent's second die, or 0.
pub const OTHER_SECOND_DIE: usize = 37;

/// What the cube shows.
pub const CUBE: usize = 38;

/// 1 if the player may double, else 0.
pub const MAY_DOUBLE: usize = 39;

/// 1 if the opponent may double, else 0.
pub const OTHER_MAY_DOUBLE: usize = 40;

/// The opponent has just doubled.
pub const WAS_DOUBLED: usize = 41;

/// The player's colour: -1 or 1, the sign of his checkers in the places.
pub const COLOUR: usize = 42;

/// Where the player goes: -1 from place 24 to 1, 1 from place 1 to 24.
pub const DIRECTION: usize = 43;

/// How many checkers the player has borne off.
pub const OWN_OFF: usize = 46;

/// How many checkers the opponent has borne off.
pub const OTHER_OFF: usize = 47;

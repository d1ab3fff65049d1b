//! What stands in a column of a place.
ghost use Rattle.std.specs.Prelude.{◌≡◌, ◌<◌};
ghost use Rattle.fibs_picture.specs.Ink.{number, level, stack, byte_of, IsSmall};

use crate::look::Look;

/// What stands in a column of a place.
#[derive(Clone, Copy, Debug, PartialEq, Eq)]
pub enum Ink {
    /// Nothing.
    Blank,
    /// A checker of the player.
    Own,
    /// A checker of the opponent.
    Other,
    /// A digit of the number of checkers.
    Digit(u8),
}

/// How many checkers are drawn of a place: for more there is a number in place of the last.
pub const MOST_SEEN: u8 = 5;

/// A number in two columns of three.
fn number(n: u8, part: u8) -> Ink
    requires { n < 100 }
    ensures value { result ≡ number n part }
    ensures small { IsSmall result }
{
    if part == 1 {
        Ink::Digit(n % 10)
    } else if part == 0 && n >= 10 {
        Ink::Digit(n / 10)
    } else {
        Ink::Blank
    }
}

/// What stands in a column of a place with so many checkers of a side, at a height.
fn level(ink: Ink, n: u8, height: u8, part: u8) -> Ink
    requires few { n < 100 }
    requires checker { IsSmall ink }
    ensures value { result ≡ level ink n height part }
    ensures small { IsSmall result }
{
    if n < height {
        Ink::Blank
    } else if height == MOST_SEEN && n > MOST_SEEN {
        number(n, part)
    } else if part == 1 {
        ink
    } else {
        Ink::Blank
    }
}

/// The same of a place with so many checkers of the player, or so many of the opponent.
pub fn stack(own: u8, other: u8, height: u8, part: u8) -> Ink
    requires own { own < 100 }
    requires other { other < 100 }
    ensures value { result ≡ stack own other height part }
    ensures small { IsSmall result }
{
    if own == 0 {
        level(Ink::Other, other, height, part)
    } else {
        level(Ink::Own, own, height, part)
    }
}

/// The byte that is shown: the floor's where nothing stands.
pub fn byte_of(look: &Look, floor: u8, ink: Ink) -> u8
    requires { IsSmall ink }
    ensures { result ≡ byte_of look.now floor ink }
{
    match ink {
        Ink::Blank => floor,
        Ink::Own => look.own,
        Ink::Other => look.other,
        Ink::Digit(digit) => b'0' + digit,
    }
}

//! How a picture is drawn.
ghost use Rattle.std.specs.Prelude.{◌≡◌};
ghost use Rattle.fibs_picture.specs.Look.{is_letter, are_letters};

use fibs_position::Numbers;

/// How a picture is drawn.
#[derive(Clone, Copy, Debug, PartialEq, Eq)]
pub struct Look {
    /// The letter of the player's checkers.
    pub own: u8,
    /// The letter of the opponent's.
    pub other: u8,
    /// Whose numbers stand at the edges.
    pub numbers: Numbers,
    /// Whether the player's home is above.
    pub is_turned: bool,
    /// Whether what is the player's, and what has come, is marked.
    pub is_marked: bool,
    /// Whether the words may have their long form: if there is room, they have it.
    pub is_long: bool,
    /// How many columns a row may have.
    pub columns: usize,
}

/// A letter of checkers is printed, and no digit.
fn is_letter(byte: u8) -> bool
    ensures { result ≡ is_letter byte }
{
    byte >= 33 && byte <= 126 && (byte < b'0' || b'9' < byte)
}

/// Whether letters of checkers can be told from each other, and from what else stands on a place.
pub fn are_letters(own: u8, other: u8) -> bool
    ensures { result ≡ are_letters own other }
{
    is_letter(own) && is_letter(other) && own != other
}

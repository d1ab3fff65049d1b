//! How a terminal draws a board.
ghost use Rattle.std.specs.Prelude.{◌≡◌};
ghost use Rattle.fibs_terminal.specs.Drawings.{is_plain, letters_of, look_of};

use fibs_picture::{Look, are_letters};
use fibs_wording::environment::Settings;

/// The letters of the player's checkers and of the opponent's, if the user has no others.
const USUAL: [u8; 2] = [b'O', b'X'];

/// A terminal of fewer columns is not wide.
const WIDE: usize = 79;

/// The letters of both sides: the user's own, if they can be told from each other and from digits.
fn letters_of(letters: Option<[u8; 2]>) -> [u8; 2]
    ensures { result ≡ letters_of letters }
{
    match letters {
        None => USUAL,
        Some(letters) => {
            if are_letters(letters[0], letters[1]) {
                letters
            } else {
                USUAL
            }
        }
    }
}

/// Whether the terminal shows nothing in bold, and is wide, and the user has asked for no other letters or side.
pub(crate) fn is_plain(settings: &Settings<'_>) -> bool
    ensures { result ≡ is_plain settings.now }
{
    !settings.words
        && !settings.colour
        && settings.letters.is_none()
        && !settings.is_turned
        && settings.columns >= WIDE
}

/// How the terminal draws.
pub(crate) fn look_of(settings: &Settings<'_>) -> Look
    ensures { result ≡ look_of settings.now }
{
    let letters = letters_of(settings.letters);
    Look {
        own: letters[0],
        other: letters[1],
        numbers: settings.numbers,
        is_turned: settings.is_turned,
        is_marked: settings.colour,
        is_long: is_plain(settings),
        columns: settings.columns,
    }
}

//! A board that the user watches, as the terminal has it: drawn, or told in words.
ghost use Rattle.std.specs.Prelude.{◌≡◌, ◌++◌, OnOk, List, ℕ, None, true, false};
ghost use Rattle.fibs_position.specs.WatchedOf.{watched_of};
ghost use Rattle.fibs_terminal.specs.Drawings.{Draws};
ghost use Rattle.fibs_terminal.specs.WatchedDrawings.{TellsWatched};

use crate::drawing::look::look_of;
use fibs_picture::NO_ARRIVALS;
use fibs_picture::in_words::{Told, append_told};
use fibs_position::WatchedBoard;
use fibs_wording::environment::Settings;
use std::alloc::{AllocError, Global};

/// Appends the picture of a board that the user watches, or the board in words.
///
/// Errors: if memory runs out.
pub fn append_watched(
    alloc: Global,
    watched: &WatchedBoard,
    settings: &Settings<'_>,
    text: &mut Vec<u8>,
) -> Result<(), AllocError>
    ensures drawn { settings.now.words ≡ false → OnOk result ((t : List ℕ)
        × Draws settings.now true false (watched_of watched.now) t × (text.new.items ≡ text.old.items ++ t)) }
    ensures told { settings.now.words ≡ true → OnOk result ((t : List ℕ)
        × TellsWatched settings.now None (watched_of watched.now) t × (text.new.items ≡ text.old.items ++ t)) }
{
    if settings.words {
        let told = Told::Watched(*watched, settings.numbers);
        return append_told(alloc, &None, &told, settings.columns, text);
    }
    let look = look_of(settings);
    fibs_picture::append_watched(alloc, &look, watched, &NO_ARRIVALS, text)
}

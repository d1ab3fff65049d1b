//! The picture of a board of the user's game, as the terminal has it, and what of the opponent's has come.
ghost use Rattle.std.specs.Prelude.{◌≡◌, ◌&&◌, ◌++◌, OnOk, List, None, ℕ, not, true, false};
ghost use Rattle.fibs_position.specs.GameOf.{game_of};
ghost use Rattle.fibs_terminal.specs.Drawings.{Draws, is_plain, TellsBoard};

use crate::drawing::look::{is_plain, look_of};
use fibs_picture::in_words::{Told, append_told};
use fibs_picture::{Arrivals, NO_ARRIVALS, append_game};
use fibs_position::GameBoard;
use fibs_wording::environment::Settings;
use std::alloc::{AllocError, Global};

/// How many checkers move at most in a turn: if more have come it was no move.
const MOST_MOVED: u8 = 4;

/// How many have come to each place since an earlier board, if that was of the same opponent and it was one move.
pub(crate) fn arrivals_since(before: &GameBoard, game: &GameBoard) -> Arrivals {
    if before.board().opponent().bytes() != game.board().opponent().bytes() {
        return NO_ARRIVALS;
    }
    let mut arrivals = NO_ARRIVALS;
    let mut all = 0u8;
    for place in 1..25u8 {
        let there = game.position().other(place);
        let more = there.saturating_sub(before.position().other(place));
        arrivals[usize::from(place)] = more;
        all = all.saturating_add(more);
    }
    if all > MOST_MOVED {
        NO_ARRIVALS
    } else {
        arrivals
    }
}

/// Whether a row says what can be done: if nothing is bold, and no hint says it.
fn is_deed_wanted(settings: &Settings<'_>, is_above: bool) -> bool
    ensures { result ≡ (is_plain settings.now && not is_above) }
{
    is_plain(settings) && !is_above
}

/// Appends the picture of a board, or the board in words.
///
/// Errors: if memory runs out.
pub fn append_picture(
    alloc: Global,
    game: &GameBoard,
    settings: &Settings<'_>,
    text: &mut Vec<u8>,
) -> Result<(), AllocError>
    ensures drawn { settings.now.words ≡ false → OnOk result ((t : List ℕ)
        × Draws settings.now false (is_plain settings.now) (game_of game.now) t
        × (text.new.items ≡ text.old.items ++ t)) }
    ensures told { settings.now.words ≡ true → OnOk result ((t : List ℕ)
        × TellsBoard settings.now None (game_of game.now) t × (text.new.items ≡ text.old.items ++ t)) }
{
    append_marked(alloc, game, &NO_ARRIVALS, settings, false, text)
}

/// The same, with marks on the places to which the opponent has moved. Above a hint the last line is left out, unless
/// it says that the user can't move: the hint says what can be done, also while a decision waits.
pub fn append_marked(
    alloc: Global,
    game: &GameBoard,
    arrivals: &Arrivals,
    settings: &Settings<'_>,
    is_above: bool,
    text: &mut Vec<u8>,
) -> Result<(), AllocError>
    ensures drawn { settings.now.words ≡ false → OnOk result ((t : List ℕ)
        × Draws settings.now false (is_plain settings.now && not is_above) (game_of game.now) t
        × (text.new.items ≡ text.old.items ++ t)) }
    ensures told { settings.now.words ≡ true → OnOk result ((t : List ℕ)
        × TellsBoard settings.now None (game_of game.now) t × (text.new.items ≡ text.old.items ++ t)) }
{
    if settings.words {
        let told = Told::Game(*game, settings.numbers);
        return append_told(alloc, &None, &told, settings.columns, text);
    }
    let look = look_of(settings);
    let is_wanted = is_deed_wanted(settings, is_above);
    append_game(alloc, &look, game, arrivals, is_wanted, text)
}

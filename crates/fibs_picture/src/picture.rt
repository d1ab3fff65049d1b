//! The picture of a board: its rows from above, the words, and what can be done.
ghost use Rattle.std.specs.Prelude.{◌≡◌, ◌≤◌, ◌++◌, OnOk, false, true};
ghost use Rattle.std.specs.List.{flat_map, range_with_len};
ghost use Rattle.fibs_fields.specs.StoredBoard.{fields_of};
ghost use Rattle.fibs_position.specs.GameOf.{game_of};
ghost use Rattle.fibs_position.specs.PositionValue.{position_of, position_value};
ghost use Rattle.fibs_position.specs.WatchedOf.{watched_of};
ghost use Rattle.fibs_picture.specs.Notes.{spaced};
ghost use Rattle.fibs_picture.specs.Whole.{beside, dice_mark, written_row, from_above, drawn_at, note_at, written_at, lower_words, is_passing, deed_row, written_picture};

use crate::below::append_below;
use crate::cell::{Drawn, Half};
use crate::look::Look;
use crate::mark::{Arrivals, Mark};
use crate::notes::{Note, append_note};
use crate::rows::append_board_row;
use crate::strip::is_below;
use crate::words::deed_in;
use fibs_fields::boards::Board;
use fibs_position::{GameBoard, Phase, Position, WatchedBoard};
use std::alloc::{AllocError, Global};

/// On a terminal of fewer columns no row says what can be done, unless the player can't move.
const LEAST_LONG: usize = 79;

/// The row so many from above, by the row of a picture with the player's home below.
fn from_above(turned: bool, i: u8) -> u8
    requires { i ≤ 12 }
    ensures value { result ≡ from_above turned i }
    ensures high { result ≤ 12 }
{
    if turned { 12 - i } else { i }
}

/// What is drawn in a row.
fn drawn_at(row: u8) -> Drawn
    requires { row ≤ 12 }
    ensures { result ≡ drawn_at row }
{
    if row == 0 {
        Drawn::Edge(Half::Upper)
    } else if row < 6 {
        Drawn::Layer(Half::Upper, row)
    } else if row == 6 {
        Drawn::Middle
    } else if row < 12 {
        Drawn::Layer(Half::Lower, 12 - row)
    } else {
        Drawn::Edge(Half::Lower)
    }
}

/// What is told beside it.
fn note_at(row: u8) -> Note
    ensures { result ≡ note_at row }
{
    if row == 0 {
        Note::Name(Half::Upper)
    } else if row == 1 {
        Note::Score(Half::Upper)
    } else if row == 2 {
        Note::Off(Half::Upper)
    } else if row == 3 {
        Note::Pips(Half::Upper)
    } else if row == 4 {
        Note::Dice(Half::Upper)
    } else if row == 5 {
        Note::Length
    } else if row == 6 {
        Note::Cube
    } else if row == 7 {
        Note::Turn
    } else if row == 8 {
        Note::Dice(Half::Lower)
    } else if row == 9 {
        Note::Pips(Half::Lower)
    } else if row == 10 {
        Note::Off(Half::Lower)
    } else if row == 11 {
        Note::Score(Half::Lower)
    } else {
        Note::Name(Half::Lower)
    }
}

/// The mark of the player's dice beside the board.
fn dice_mark(look: &Look) -> Mark
    ensures { result ≡ dice_mark look.now }
{
    if look.is_marked {
        Mark::Own
    } else {
        Mark::Plain
    }
}

/// Appends the words beside a row, if they stand there.
fn append_beside(
    look: &Look,
    is_watched: bool,
    board: &Board,
    position: &Position,
    told: Note,
    text: &mut Vec<u8>,
) -> Result<(), AllocError>
    ensures { OnOk result (text.new.items ≡ text.old.items ++ spaced (beside look.now is_watched
        (fields_of board.now) (position_value position.now) (dice_mark look.now) told)) }
{
    if is_below(look.columns) {
        return Ok(());
    }
    append_note(
        look,
        is_watched,
        board,
        position,
        dice_mark(look),
        told,
        text,
    )
}

/// Appends a row of a board with the words beside it.
#[tactic(auto, unfolding(crate::specs::Whole::written_row))]
fn append_row(
    look: &Look,
    is_watched: bool,
    board: &Board,
    position: &Position,
    arrivals: &Arrivals,
    drawn: Drawn,
    told: Note,
    text: &mut Vec<u8>,
) -> Result<(), AllocError>
    ensures { OnOk result (text.new.items ≡ text.old.items ++ written_row look.now is_watched
        (fields_of board.now) (position_value position.now) arrivals.now (drawn, told)) }
{
    append_board_row(look, position, arrivals, drawn, text)?;
    append_beside(look, is_watched, board, position, told, text)?;
    text.extend_from_slice(b"\n")
}

/// Appends the row so many from above.
#[tactic(auto, unfolding(crate::specs::Whole::written_at))]
fn append_at(
    look: &Look,
    is_watched: bool,
    board: &Board,
    position: &Position,
    arrivals: &Arrivals,
    i: u8,
    text: &mut Vec<u8>,
) -> Result<(), AllocError>
    requires { i ≤ 12 }
    ensures { OnOk result (text.new.items ≡ text.old.items ++ written_at look.now is_watched
        (fields_of board.now) (position_value position.now) arrivals.now i) }
{
    let row = from_above(look.is_turned, i);
    append_row(
        look,
        is_watched,
        board,
        position,
        arrivals,
        drawn_at(row),
        note_at(row),
        text,
    )
}

/// Appends the rows of a board.
fn append_rows(
    look: &Look,
    is_watched: bool,
    board: &Board,
    position: &Position,
    arrivals: &Arrivals,
    text: &mut Vec<u8>,
) -> Result<(), AllocError>
    ensures { OnOk result (text.new.items ≡ text.old.items ++ flat_map (written_at look.now is_watched
        (fields_of board.now) (position_value position.now) arrivals.now) (range_with_len 0 13)) }
{
    for i in 0..13u8 {
        append_at(look, is_watched, board, position, arrivals, i, text)?;
    }
    Ok(())
}

/// Appends the words below a board, if they stand there.
fn append_lower(
    alloc: Global,
    look: &Look,
    is_watched: bool,
    board: &Board,
    position: &Position,
    text: &mut Vec<u8>,
) -> Result<(), AllocError>
    ensures { OnOk result (text.new.items ≡ text.old.items ++ lower_words look.now is_watched
        (fields_of board.now) (position_value position.now)) }
{
    if is_below(look.columns) {
        return append_below(alloc, look, is_watched, board, position, text);
    }
    Ok(())
}

/// Whether the player can't move.
fn is_passing(phase: Phase) -> bool
    ensures { result ≡ is_passing phase }
{
    match phase {
        Phase::Passing => true,
        _ => false,
    }
}

/// Appends the row that says what can be done, if it is there.
#[tactic(auto, unfolding(crate::specs::Whole::deed_row))]
fn append_deed(
    look: &Look,
    is_watched: bool,
    is_wanted: bool,
    position: &Position,
    text: &mut Vec<u8>,
) -> Result<(), AllocError>
    ensures { OnOk result (text.new.items
        ≡ text.old.items ++ deed_row look.now is_watched is_wanted (position_value position.now)) }
{
    let is_shown = (is_wanted && look.columns >= LEAST_LONG) || is_passing(position.phase());
    if is_watched || !is_shown {
        return Ok(());
    }
    text.extend_from_slice(b" ")?;
    text.extend_from_slice(deed_in(position))?;
    text.extend_from_slice(b"\n")
}

/// Appends the picture of a board whose position is this.
#[tactic(auto, unfolding(crate::specs::Whole::written_picture))]
fn append_board(
    alloc: Global,
    look: &Look,
    is_watched: bool,
    is_wanted: bool,
    board: &Board,
    position: &Position,
    arrivals: &Arrivals,
    text: &mut Vec<u8>,
) -> Result<(), AllocError>
    ensures { OnOk result (text.new.items ≡ text.old.items ++ written_picture look.now is_watched is_wanted
        (fields_of board.now) (position_value position.now) arrivals.now) }
{
    append_rows(look, is_watched, board, position, arrivals, text)?;
    append_lower(alloc, look, is_watched, board, position, text)?;
    append_deed(look, is_watched, is_wanted, position, text)
}

/// Appends the picture of a board of the user's game; what can be done below it, if that is wanted and there is room,
/// and in any case that he can't move. What of the opponent's has come to a place is marked.
///
/// Errors: if memory runs out.
pub fn append_game(
    alloc: Global,
    look: &Look,
    game: &GameBoard,
    arrivals: &Arrivals,
    is_wanted: bool,
    text: &mut Vec<u8>,
) -> Result<(), AllocError>
    ensures { let b = game_of game.now in OnOk result (text.new.items
        ≡ text.old.items ++ written_picture look.now false is_wanted b (position_of b) arrivals.now) }
{
    append_board(
        alloc,
        look,
        false,
        is_wanted,
        game.board(),
        game.position(),
        arrivals,
        text,
    )
}

/// Appends the picture of a board that the user watches. What of the other side's has come to a place is marked.
///
/// Errors: if memory runs out.
pub fn append_watched(
    alloc: Global,
    look: &Look,
    watched: &WatchedBoard,
    arrivals: &Arrivals,
    text: &mut Vec<u8>,
) -> Result<(), AllocError>
    ensures { let b = watched_of watched.now in OnOk result (text.new.items
        ≡ text.old.items ++ written_picture look.now true false b (position_of b) arrivals.now) }
{
    append_board(
        alloc,
        look,
        true,
        false,
        watched.board(),
        watched.position(),
        arrivals,
        text,
    )
}

//! The facts of a board below it: in three groups, each in as many rows as it needs.
ghost use Rattle.std.specs.Prelude.{◌≡◌, ◌++◌, OnOk, IfOk, length};
ghost use Rattle.fibs_fields.specs.StoredBoard.{fields_of};
ghost use Rattle.fibs_position.specs.PositionValue.{position_value};
ghost use Rattle.fibs_picture.specs.Below.{is_full, behind, ends_at, told, side_facts, match_facts, half_above, half_below, words_below};

use crate::cell::Half;
use crate::look::Look;
use crate::mark::Mark;
use crate::notes::{Note, append_note};
use fibs_fields::boards::Board;
use fibs_position::Position;
use std::alloc::{AllocError, Global};

/// Whether there is no room behind what ends at a column: for a comma, a space, a fact and one more comma.
fn is_full(columns: usize, column: usize, fact: &[u8]) -> bool
    ensures { result ≡ is_full columns column fact.now }
{
    let left = columns.saturating_sub(column);
    left < 3 || left - 3 < fact.len()
}

/// Appends a fact behind another one that ends at a column, and says where it ends.
fn append_behind(
    columns: usize,
    column: usize,
    fact: &[u8],
    text: &mut Vec<u8>,
) -> Result<usize, AllocError>
    ensures text { OnOk result (text.new.items ≡ text.old.items ++ behind columns column fact.now) }
    ensures column { IfOk result (λ n. n ≡ ends_at columns column fact.now) }
{
    if is_full(columns, column, fact) {
        text.extend_from_slice(b",\n")?;
        text.extend_from_slice(fact)?;
        Ok(fact.len())
    } else {
        text.extend_from_slice(b", ")?;
        text.extend_from_slice(fact)?;
        Ok(column + 2 + fact.len())
    }
}

/// Appends the first fact of a group, and says where it ends.
#[tactic(auto, unfolding(crate::specs::Below::told))]
fn append_first(
    alloc: Global,
    look: &Look,
    is_watched: bool,
    board: &Board,
    position: &Position,
    note: Note,
    text: &mut Vec<u8>,
) -> Result<usize, AllocError>
    ensures text { OnOk result (text.new.items ≡ text.old.items
        ++ told look.now is_watched (fields_of board.now) (position_value position.now) note) }
    ensures column { IfOk result (λ n. n ≡ length
        (told look.now is_watched (fields_of board.now) (position_value position.now) note)) }
{
    let mut fact = Vec::new(alloc);
    append_note(
        look,
        is_watched,
        board,
        position,
        Mark::Plain,
        note,
        &mut fact,
    )?;
    text.extend_from_slice(fact.as_slice())?;
    Ok(fact.len())
}

/// Appends the next one.
#[tactic(auto, unfolding(crate::specs::Below::told))]
fn append_next(
    alloc: Global,
    look: &Look,
    is_watched: bool,
    board: &Board,
    position: &Position,
    note: Note,
    column: usize,
    text: &mut Vec<u8>,
) -> Result<usize, AllocError>
    ensures text { OnOk result (text.new.items ≡ text.old.items ++ behind look.now.columns column
        (told look.now is_watched (fields_of board.now) (position_value position.now) note)) }
    ensures column { IfOk result (λ n. n ≡ ends_at look.now.columns column
        (told look.now is_watched (fields_of board.now) (position_value position.now) note)) }
{
    let mut fact = Vec::new(alloc);
    append_note(
        look,
        is_watched,
        board,
        position,
        Mark::Plain,
        note,
        &mut fact,
    )?;
    append_behind(look.columns, column, fact.as_slice(), text)
}

/// Appends what is told of a side.
fn append_side(
    alloc: Global,
    look: &Look,
    is_watched: bool,
    board: &Board,
    position: &Position,
    half: Half,
    text: &mut Vec<u8>,
) -> Result<(), AllocError>
    ensures { OnOk result (text.new.items ≡ text.old.items
        ++ side_facts look.now is_watched (fields_of board.now) (position_value position.now) half) }
{
    let (b, p) = (board, position);
    let name = append_first(alloc, look, is_watched, b, p, Note::Name(half), text)?;
    let score = append_next(alloc, look, is_watched, b, p, Note::Score(half), name, text)?;
    let off = append_next(alloc, look, is_watched, b, p, Note::Off(half), score, text)?;
    let pips = append_next(alloc, look, is_watched, b, p, Note::Pips(half), off, text)?;
    append_next(alloc, look, is_watched, b, p, Note::Dice(half), pips, text)?;
    text.extend_from_slice(b"\n")
}

/// Appends what is told of the match.
fn append_match(
    alloc: Global,
    look: &Look,
    is_watched: bool,
    board: &Board,
    position: &Position,
    text: &mut Vec<u8>,
) -> Result<(), AllocError>
    ensures { OnOk result (text.new.items ≡ text.old.items
        ++ match_facts look.now is_watched (fields_of board.now) (position_value position.now)) }
{
    let (b, p) = (board, position);
    let length = append_first(alloc, look, is_watched, b, p, Note::Length, text)?;
    let cube = append_next(alloc, look, is_watched, b, p, Note::Cube, length, text)?;
    append_next(alloc, look, is_watched, b, p, Note::Turn, cube, text)?;
    text.extend_from_slice(b"\n")
}

/// Who is above.
fn half_above(is_turned: bool) -> Half
    ensures { result ≡ half_above is_turned }
{
    if is_turned { Half::Lower } else { Half::Upper }
}

/// Who is below.
fn half_below(is_turned: bool) -> Half
    ensures { result ≡ half_below is_turned }
{
    if is_turned { Half::Upper } else { Half::Lower }
}

/// Appends the words of a board that stand below it: of who is above, of the match, of who is below.
#[tactic(auto, unfolding(crate::specs::Below::words_below))]
pub fn append_below(
    alloc: Global,
    look: &Look,
    is_watched: bool,
    board: &Board,
    position: &Position,
    text: &mut Vec<u8>,
) -> Result<(), AllocError>
    ensures { OnOk result (text.new.items ≡ text.old.items
        ++ words_below look.now is_watched (fields_of board.now) (position_value position.now)) }
{
    let (upper, lower) = (half_above(look.is_turned), half_below(look.is_turned));
    append_side(alloc, look, is_watched, board, position, upper, text)?;
    append_match(alloc, look, is_watched, board, position, text)?;
    append_side(alloc, look, is_watched, board, position, lower, text)
}

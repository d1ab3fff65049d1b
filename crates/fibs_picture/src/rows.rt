//! The rows of a board.
ghost use Rattle.std.specs.Prelude.{◌≡◌, ◌++◌, OnOk};
ghost use Rattle.fibs_position.specs.PositionValue.{position_value};
ghost use Rattle.fibs_picture.specs.Cell.{drawn_column, board_row};

use crate::cell::{Drawn, byte_at, mark_at};
use crate::look::Look;
use crate::mark::{Arrivals, append_marked};
use crate::strip::{board_width, is_left_out, strip_at};
use fibs_position::Position;
use std::alloc::AllocError;

/// Appends what is written at a column of a row.
#[tactic(auto, unfolding(crate::specs::Cell::drawn_column))]
fn append_column(
    look: &Look,
    position: &Position,
    arrivals: &Arrivals,
    drawn: Drawn,
    column: u8,
    text: &mut Vec<u8>,
) -> Result<(), AllocError>
    ensures { OnOk result (text.new.items
        ≡ text.old.items ++ drawn_column look.now (position_value position.now) arrivals.now drawn column) }
{
    if is_left_out(look.columns, column) {
        return Ok(());
    }
    let strip = strip_at(column);
    let byte = byte_at(look, position, drawn, strip);
    append_marked(byte, mark_at(look, position, arrivals, drawn, strip), text)
}

/// Appends a row of a board, marked.
///
/// Errors: if memory runs out.
pub fn append_board_row(
    look: &Look,
    position: &Position,
    arrivals: &Arrivals,
    drawn: Drawn,
    text: &mut Vec<u8>,
) -> Result<(), AllocError>
    ensures { OnOk result (text.new.items
        ≡ text.old.items ++ board_row look.now (position_value position.now) arrivals.now drawn) }
{
    for column in 0..board_width(look.columns) {
        append_column(look, position, arrivals, drawn, column, text)?;
    }
    Ok(())
}

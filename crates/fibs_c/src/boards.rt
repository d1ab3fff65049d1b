//! Boards of lines.

ghost use Rattle.std.specs.Prelude.{◌≡◌};
ghost use Rattle.fibs_fields.specs.StoredBoard.{fields_of};
ghost use Rattle.fibs_c.specs.BoardDoor.{IsBoardRead, IsPrintedBoard, IsCrawfordTold, IsOverTold, IsOwnerTold, IsDifferenceTold, ends_match, is_won};

use crate::records::boards::{BoardRecord, put_board};
use crate::records::status::{DONE, field_fault_status};
use crate::records::text::{flag, hand_out};
use fibs_fields::boards::Board;
use fibs_position::{CubeOwner, differs, is_crawford};

/// The fields of a line's board; or why the line says none, and its first wrong field, counted from 1.
#[unsafe(no_mangle)]
pub extern "C" fn fibs_read_board(line: &[u8], board: &mut BoardRecord, field: &mut usize) -> u32
    ensures { IsBoardRead line.now board.old board.new field.new result }
{
    match Board::read(line) {
        Err(wrong) => {
            *field = wrong.field;
            field_fault_status(wrong.fault)
        }
        Ok(found) => {
            put_board(board, &found);
            *field = 0;
            DONE
        }
    }
}

/// The one line that says the board of a line, without a line end: at most 329 bytes.
#[unsafe(no_mangle)]
pub extern "C" fn fibs_print_board(line: &[u8], text: &mut [u8], len: &mut usize) -> u32
    ensures { IsPrintedBoard line.now text.old text.new len.old len.new result }
{
    match Board::read(line) {
        Err(wrong) => field_fault_status(wrong.fault),
        Ok(board) => hand_out(board.print().as_slice(), text, len),
    }
}

/// Whether a game is over by its turn, and with it a match of this length, in which the sides have these points.
fn is_won(turn: i32, length: i32, own: i32, other: i32) -> bool
    ensures { result ≡ is_won turn length own other }
{
    turn == 0 && (length <= 1 || (length <= own || length <= other))
}

/// Whether the game is over, and the match with it.
fn ends_match(board: &Board) -> bool
    ensures { result ≡ ends_match (fields_of board.now) }
{
    is_won(
        board.field(33),
        board.field(4),
        board.field(5),
        board.field(6),
    )
}

/// Whether the board of a line says that the match is over.
#[unsafe(no_mangle)]
pub extern "C" fn fibs_match_over(line: &[u8], over: &mut u8) -> u32
    ensures { IsOverTold line.now over.old over.new result }
{
    match Board::read(line) {
        Err(wrong) => field_fault_status(wrong.fault),
        Ok(board) => {
            *over = flag(ends_match(&board));
            DONE
        }
    }
}

/// Who may double next on the board of a line: 0 nobody, 1 the player, 2 the opponent, 3 both.
#[unsafe(no_mangle)]
pub extern "C" fn fibs_cube_owner(line: &[u8], owner: &mut u8) -> u32
    ensures { IsOwnerTold line.now owner.old owner.new result }
{
    match Board::read(line) {
        Err(wrong) => field_fault_status(wrong.fault),
        Ok(board) => {
            *owner = CubeOwner::of(&board).number();
            DONE
        }
    }
}

/// Whether the board of a line is of a game of the Crawford rule.
#[unsafe(no_mangle)]
pub extern "C" fn fibs_crawford(line: &[u8], crawford: &mut u8) -> u32
    ensures { IsCrawfordTold line.now crawford.old crawford.new result }
{
    match Board::read(line) {
        Err(wrong) => field_fault_status(wrong.fault),
        Ok(board) => {
            *crawford = flag(is_crawford(&board));
            DONE
        }
    }
}

/// Whether the boards of two lines differ in what the game is: so a client hears that a decision was carried out.
#[unsafe(no_mangle)]
pub extern "C" fn fibs_differs(line: &[u8], other: &[u8], differ: &mut u8) -> u32
    ensures { IsDifferenceTold line.now other.now differ.old differ.new result }
{
    match Board::read(line) {
        Err(wrong) => field_fault_status(wrong.fault),
        Ok(board) => match Board::read(other) {
            Err(wrong) => field_fault_status(wrong.fault),
            Ok(second) => {
                *differ = flag(differs(&board, &second));
                DONE
            }
        },
    }
}

//! Boards as C has them.

ghost use Rattle.std.specs.Prelude.{◌≡◌, ◌+◌, ◌<◌, ℕ, pos, true, slice_index_or};
ghost use Rattle.fibs_fields.specs.Board.{field_of};
ghost use Rattle.fibs_fields.specs.StoredBoard.{fields_of};
ghost use Rattle.fibs_fields.specs.Bytes.{name_bytes};
ghost use Rattle.fibs_fields.specs.Name.{is_name};
ghost use Rattle.fibs_c.specs.Records.BoardOf.{IsBoardAs, IsNameAs};

use crate::records::text::put;
use fibs_fields::boards::Board;
use fibs_messages::Name;

/// The 53 fields of a board: two names, and the numbers of fields 4 to 53.
#[repr(C)]
#[derive(Clone, Copy)]
pub struct BoardRecord {
    /// How many bytes the player's name has.
    pub player_len: usize,
    /// How many bytes the opponent's name has.
    pub opponent_len: usize,
    pub player: [u8; 64],
    pub opponent: [u8; 64],
    pub numbers: [i32; 50],
}

/// Writes a name, and says how many bytes it has.
fn put_name(room: &mut [u8; 64], name: &Name<'_>) -> usize
    requires { is_name (name_bytes name.now) ≡ true }
    ensures { IsNameAs result room.old room.new (name_bytes name.now) }
{
    put(room, name.bytes())
}

/// The numbers of fields 4 to 53.
fn numbers_of(board: &Board) -> [i32; 50]
    ensures { (i : ℕ) → i < 50 → slice_index_or result i (pos 0) ≡ field_of (fields_of board.now) (i + 4) }
{
    let mut numbers = [0; 50];
    for i in 0..50 {
        numbers[i] = board.field(i + 4);
    }
    numbers
}

/// Writes the fields of a board.
#[inline(never)]
pub fn put_board(out: &mut BoardRecord, board: &Board)
    ensures { IsBoardAs out.old out.new (fields_of board.now) }
{
    out.player_len = put_name(&mut out.player, &board.player());
    out.opponent_len = put_name(&mut out.opponent, &board.opponent());
    out.numbers = numbers_of(board);
}

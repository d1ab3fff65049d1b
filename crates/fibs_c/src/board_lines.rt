//! The lines of boards that C has as records, and of boards with the sides exchanged.

ghost use Rattle.std.specs.Prelude.{◌≡◌, ◌⊎◌, ◌+◌, ◌<◌, ◌≤◌, ◌++◌, ℕ, pos, negsuc, length, slice_index_or};
ghost use Rattle.fibs_fields.specs.Board.{field_of};
ghost use Rattle.fibs_fields.specs.StoredBoard.{fields_of};
ghost use Rattle.fibs_c.specs.BoardDoor.{IsPrintedBoard};
ghost use Rattle.fibs_c.specs.BoardLineDoor.{IsBoardLine, IsTurned, board_text, numbers_text, other_field, turned_field};

use crate::records::boards::BoardRecord;
use crate::records::status::field_fault_status;
use crate::records::text::hand_out;
use arrayvec::ArrayVec;
use fibs_fields::boards::Board;
use fibs_fields::boards::laws::fields_have_their_ranges;
use fibs_messages::Fault;
use itoa::Buffer;

/// The text of a board: 6 bytes, two names of at most 64 and a colon between them, and fifty numbers of at most 11 with
/// their colons.
type BoardLine = ArrayVec<u8, 735>;

/// Appends bytes for which there is room.
fn append(line: &mut BoardLine, bytes: &[u8])
    requires { length line.old.items + length bytes.now ≤ 735 }
    ensures { line.new.items ≡ line.old.items ++ bytes.now }
{
    let _fits = line.try_extend_from_slice(bytes);
}

/// Appends numbers, each after a colon.
fn append_numbers(line: &mut BoardLine, numbers: &[i32; 50])
    requires { length line.old.items ≤ 135 }
    ensures { line.new.items ≡ line.old.items ++ numbers_text numbers.now }
{
    for number in numbers {
        append(line, b":");
        let mut buffer = Buffer::new();
        append(line, buffer.format(*number).as_bytes());
    }
}

/// The line of two names and numbers.
fn line_of(player: &[u8], opponent: &[u8], numbers: &[i32; 50]) -> BoardLine
    requires player { length player.now ≤ 64 }
    requires opponent { length opponent.now ≤ 64 }
    ensures { result.items ≡ board_text player.now opponent.now numbers.now }
{
    let mut line = BoardLine::new();
    append(&mut line, b"board:");
    append(&mut line, player);
    append(&mut line, b":");
    append(&mut line, opponent);
    append_numbers(&mut line, numbers);
    line
}

/// Prints the board of a line.
fn print_line(line: &[u8], text: &mut [u8], len: &mut usize) -> u32
    ensures { IsPrintedBoard line.now text.old text.new len.old len.new result }
{
    match Board::read(line) {
        Err(wrong) => field_fault_status(wrong.fault),
        Ok(board) => hand_out(board.print().as_slice(), text, len),
    }
}

/// The line of a board that C has: its two names, and the numbers of fields 4 to 53.
#[unsafe(no_mangle)]
pub extern "C" fn fibs_board_line(board: &BoardRecord, text: &mut [u8], len: &mut usize) -> u32
    ensures { IsBoardLine board.now text.old text.new len.old len.new result }
{
    if board.player_len > 64 || board.opponent_len > 64 {
        return field_fault_status(Fault::BadName);
    }
    let player = &board.player[..board.player_len];
    let opponent = &board.opponent[..board.opponent_len];
    let line = line_of(player, opponent, &board.numbers);
    print_line(line.as_slice(), text, len)
}

/// The field of the other side that says what this field says of one side.
fn other_field(n: usize) -> usize
    requires low { 4 ≤ n }
    requires high { n ≤ 53 }
    ensures other { result ≡ other_field n }
    ensures low { 4 ≤ result }
    ensures high { result ≤ 53 }
{
    match n {
        5 => 6,
        6 => 5,
        34 => 36,
        35 => 37,
        36 => 34,
        37 => 35,
        39 => 40,
        40 => 39,
        44 => 45,
        45 => 44,
        46 => 47,
        47 => 46,
        48 => 49,
        49 => 48,
        _ => n,
    }
}

/// The player's colour, or his direction, by the number of the field.
fn side(board: &Board, n: usize) -> i32
    requires low { 42 ≤ n }
    requires high { n ≤ 43 }
    ensures value { result ≡ field_of (fields_of board.now) n }
    ensures range { (result ≡ negsuc 0) ⊎ (result ≡ pos 1) }
{
    fields_have_their_ranges();
    board.field(n)
}

/// The number of a field with the sides exchanged.
fn turned_field(board: &Board, n: usize) -> i32
    requires low { 4 ≤ n }
    requires high { n ≤ 53 }
    ensures { result ≡ turned_field (fields_of board.now) n }
{
    match n {
        41 => 0,
        42 => -side(board, 42),
        43 => -side(board, 43),
        50 => 0,
        51 => 0,
        _ => board.field(other_field(n)),
    }
}

/// The numbers of fields 4 to 53 with the sides exchanged.
fn turned_numbers(board: &Board) -> [i32; 50]
    ensures all { length result ≡ 50 }
    ensures each { (i : ℕ) → i < 50 → slice_index_or result i (pos 0) ≡ turned_field (fields_of board.now) (i + 4) }
{
    let mut numbers = [0; 50];
    for i in 0..50 {
        numbers[i] = turned_field(board, i + 4);
    }
    numbers
}

/// Prints the board of the names of a board and of these numbers.
fn print_with(board: &Board, numbers: &[i32; 50], text: &mut [u8], len: &mut usize) -> u32
    ensures { IsPrintedBoard (board_text (fields_of board.now).player (fields_of board.now).opponent numbers.now)
        text.old text.new len.old len.new result }
{
    let line = line_of(board.player().bytes(), board.opponent().bytes(), numbers);
    print_line(line.as_slice(), text, len)
}

/// The line of the board of a line with the sides exchanged, as if the user were the opponent: its plays are the
/// opponent's.
#[unsafe(no_mangle)]
pub extern "C" fn fibs_turned(line: &[u8], text: &mut [u8], len: &mut usize) -> u32
    ensures { IsTurned line.now text.old text.new len.old len.new result }
{
    match Board::read(line) {
        Err(wrong) => field_fault_status(wrong.fault),
        Ok(board) => {
            let numbers = turned_numbers(&board);
            print_with(&board, &numbers, text, len)
        }
    }
}

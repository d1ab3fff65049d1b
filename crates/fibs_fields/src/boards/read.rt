//! Reads the fields of a board line.

ghost use Rattle.std.specs.Prelude.{◌≡◌, ◌<◌, ◌+◌, ◌++◌, ℕ, drop, replicate, map, IfOk, IfErr, Some};
ghost use Rattle.std.specs.Fmt.{signed_decimal};
ghost use Rattle.fibs_fields.specs.Board.{IsBoard, Fit, field_values, kinds, pieces, texts};
ghost use Rattle.fibs_fields.specs.Spaces.{without_spaces};
ghost use Rattle.fibs_fields.specs.Field.{a_number_of};
ghost use Rattle.fibs_fields.specs.BoardReading.{first_fault, pieces_left, HasRead, NumberRead, names_read};
ghost use Rattle.fibs_fields.specs.Bytes.{name_bytes};
ghost use Rattle.fibs_fields.specs.FieldReading.{left_of};
ghost use Rattle.fibs_fields.specs.StoredBoard.{read_fields};

use crate::boards::board::Board;
use crate::boards::field_ranges::values_of;
use crate::fault::FieldFault;
use crate::name::Name;
use crate::reader::Fields;
use crate::trailing_spaces::without_spaces;

/// Reads the word `board` and the names of the player and of the opponent.
#[inline(always)]
pub fn read_names<'a>(fields: &mut Fields<'a>) -> Result<(Name<'a>, Name<'a>), FieldFault>
    requires { (left_of fields.old).separator ≡ 58 }
    ensures ok { IfOk result (λ names.
        HasRead (pieces_left (left_of fields.old)) (names_read (name_bytes names.0) (name_bytes names.1)) 4
        (map a_number_of field_values) (left_of fields.new)) }
    ensures err { IfErr result (λ e. first_fault 1 kinds (pieces_left (left_of fields.old)) ≡ Some e) }
{
    fields.this_word(b"board", 1)?;
    let player = fields.name(2)?;
    let opponent = fields.name(3)?;
    Ok((player, opponent))
}

/// Reads the number of field `i + 4`.
#[inline(always)]
pub fn read_number(fields: &mut Fields<'_>, i: usize) -> Result<i32, FieldFault>
    requires within { i < 50 }
    requires colon { (left_of fields.old).separator ≡ 58 }
    ensures ok { IfOk result (λ z. NumberRead i z (left_of fields.old) (left_of fields.new)) }
    ensures err { IfErr result (λ e.
        first_fault (i + 4) (map a_number_of (drop i field_values)) (pieces_left (left_of fields.old)) ≡ Some e) }
{
    fields.number_of(values_of(i), i + 4)
}

/// The numbers of fields 4 to 53, which end the line.
fn read_numbers(fields: &mut Fields<'_>) -> Result<[i32; 50], FieldFault>
    requires { (left_of fields.old).separator ≡ 58 }
    ensures ok { IfOk result (λ numbers. pieces_left (left_of fields.old) ≡ map signed_decimal numbers) }
    ensures fit { IfOk result (λ numbers. Fit field_values numbers) }
    ensures err { IfErr result (λ e.
        first_fault 4 (map a_number_of field_values) (pieces_left (left_of fields.old)) ≡ Some e) }
{
    let mut numbers = [0; 50];
    for i in 0..50 {
        numbers[i] = read_number(fields, i)?;
    }
    fields.end(54)?;
    Ok(numbers)
}

/// The board that a line says, or the leftmost wrong field.
pub fn read_board(line: &[u8]) -> Result<Board, FieldFault>
    ensures board { IfOk (read_fields result) IsBoard }
    ensures ok { IfOk (read_fields result) (λ b. pieces (without_spaces line.now) ≡ texts b) }
    ensures spaces { (n : ℕ) × (line.now ≡ without_spaces line.now ++ replicate n 32) }
    ensures err { IfErr (read_fields result) (λ e. first_fault 1 kinds (pieces (without_spaces line.now)) ≡ Some e) }
{
    let mut fields = Fields::new(Some(without_spaces(line)), b':');
    let (player, opponent) = read_names(&mut fields)?;
    let numbers = read_numbers(&mut fields)?;
    Ok(Board::of_parts(player, opponent, numbers))
}

//! Whether a line says a board, found without making one.

ghost use Rattle.std.specs.Prelude.{◌≡◌, ◌∷◌, IfOk, IfErr, None, Ok, Err, map, true};
ghost use Rattle.std.specs.Result.{result_err};
ghost use Rattle.fibs_fields.specs.Board.{BoardFields, BoardText, Wrong, field_values, kinds, pieces, spelling};
ghost use Rattle.fibs_fields.specs.BoardReading.{first_fault, pieces_left};
ghost use Rattle.fibs_show.specs.Checked.{line_checked};
ghost use Rattle.fibs_fields.specs.Field.{a_name, a_number_of};
ghost use Rattle.fibs_fields.specs.FieldReading.{left_of};
ghost use Rattle.fibs_fields.specs.Spaces.{without_spaces};

use crate::copied_lines::quick::numbers_are_right;
use fibs_fields::boards::read::{read_names, read_number};
use fibs_fields::fault::FieldFault;
use fibs_fields::reader::Fields;
use fibs_fields::trailing_spaces::without_spaces;

/// Whether the numbers of fields 4 to 53, which end the line, are right.
fn check_numbers(fields: &mut Fields<'_>) -> Result<(), FieldFault>
    requires { (left_of fields.old).separator ≡ 58 }
    ensures { first_fault 4 (map a_number_of field_values) (pieces_left (left_of fields.old)) ≡ result_err result }
{
    for i in 0..50 {
        read_number(fields, i)?;
    }
    fields.end(54)
}

/// Whether two names and the numbers of fields 4 to 53 are found right, each but the last with a colon after it.
#[inline(always)]
fn are_names_and_numbers(text: &[u8]) -> bool
    ensures { result ≡ true → first_fault 2 (a_name ∷ a_name ∷ map a_number_of field_values) (pieces text.now) ≡ None }
{
    let mut fields = Fields::new(Some(text), b':');
    let Ok(_player) = fields.name(2) else {
        return false;
    };
    let Ok(_opponent) = fields.name(3) else {
        return false;
    };
    numbers_are_right(fields.text())
}

/// Whether the line is found right at once: it begins with `board:`, two names and right numbers follow. If not, a
/// field may be wrong.
#[inline(always)]
fn is_right_at_once(line: &[u8]) -> bool
    ensures { result ≡ true → first_fault 1 kinds (pieces line.now) ≡ None }
{
    match line {
        [b'b', b'o', b'a', b'r', b'd', b':', ..] => are_names_and_numbers(&line[6..]),
        _ => false,
    }
}

/// The line without the spaces at its end, if its fields are those of a board, or the leftmost wrong field.
fn check_fields(line: &[u8]) -> Result<&[u8], FieldFault>
    ensures kept { IfOk (line_checked result) (λ text. text ≡ without_spaces line.now) }
    ensures fault { first_fault 1 kinds (pieces (without_spaces line.now)) ≡ result_err (line_checked result) }
{
    let kept = without_spaces(line);
    if is_right_at_once(kept) {
        return Ok(kept);
    }
    let mut fields = Fields::new(Some(kept), b':');
    read_names(&mut fields)?;
    check_numbers(&mut fields)?;
    Ok(kept)
}

/// The line that is printed for the board that a line says, or the leftmost wrong field, as `Board::read` finds it.
///
/// No board is made, and nothing is printed: a line that says a board is its spelling, but for the spaces at its end.
pub(crate) fn check_board(line: &[u8]) -> Result<&[u8], FieldFault>
    // The text given is what is printed for the board that the line says.
    ensures found { IfOk (line_checked result)
        (λ text. (b : BoardFields) × BoardText b line.now × (text ≡ spelling b)) }
    // It is given for each line that says a board.
    ensures only { (b : BoardFields) → BoardText b line.now → line_checked result ≡ Ok (spelling b) }
    // The fault is that of the first wrong field.
    ensures wrong { IfErr (line_checked result) (λ e. Wrong line.now e.field e.fault) }
    // It is given for each line with a wrong field.
    ensures least { (e : FieldFault) → Wrong line.now e.field e.fault → line_checked result ≡ Err e }
{
    check_fields(line)
}

//! Laws of boards and their lines.

ghost use Rattle.std.specs.Prelude.{◌≡◌, ◌↔◌, ◌⊎◌, ℕ, List, Ok, IsTrue, true};
ghost use Rattle.fibs_fields.specs.Board.{BoardFields, IsBoard, BoardText, Wrong, is_board, spelling};
ghost use Rattle.fibs_fields.specs.FieldRanges.{FieldRanges};
ghost use Rattle.fibs_fields.specs.Spaces.{without_spaces};
ghost use Rattle.fibs_fields.specs.StoredBoard.{fields_of, read_fields};
ghost use Rattle.fibs_fields.specs.declared.boards.board.Board.{Board};

use crate::boards::board::Board;
use crate::fault::{Fault, FieldFault};

/// What is printed is read again as the same board.
pub fn print_reads_back(board: &Board) -> Result<Board, FieldFault>
    ensures { read_fields result ≡ Ok (fields_of board.now) }
{
    Board::read(board.print().as_slice())
}

/// Two boards have the same spelling exactly if they are equal.
#[tactic(auto, using(crate::proofs::BoardLemmas::BoardTexts::spelling_same))]
pub fn spellings_tell_boards()
    ensures { (a b : BoardFields) → IsBoard a → IsBoard b → (spelling a ≡ spelling b) ↔ (a ≡ b) }
{}

/// Two boards are equal exactly if their 53 fields are.
pub fn fields_tell_boards(a: &Board, b: &Board) -> bool
    ensures { IsTrue result ↔ (fields_of a.now ≡ fields_of b.now) }
{
    *a == *b
}

/// Two boards are printed alike exactly if their 53 fields are.
pub fn prints_tell_boards(a: &Board, b: &Board) -> bool
    ensures { IsTrue result ↔ (fields_of a.now ≡ fields_of b.now) }
{
    a.print().as_slice() == b.print().as_slice()
}

/// A line that says a board is that board's spelling, but for the spaces at its end.
#[tactic(auto, using(crate::proofs::BoardLemmas::CheckedLines::spelling_of_line))]
pub fn lines_of_boards_are_their_spellings()
    ensures { (line : List ℕ) → (b : BoardFields) → BoardText b line → without_spaces line ≡ spelling b }
{}

/// Each line says a board or has a first wrong field, never both, and no second one of either.
pub fn each_line_is_one_board_or_wrong()
    ensures either { (line : List ℕ) →
        ((b : BoardFields) × BoardText b line) ⊎ ((k : ℕ) × (f : Fault) × Wrong line k f) }
    ensures not_both { (line : List ℕ) → (b : BoardFields) → (k : ℕ) → (f : Fault) →
        BoardText b line → Wrong line k f → ⊥ }
    ensures one_board { (line : List ℕ) → (a b : BoardFields) → BoardText a line → BoardText b line → a ≡ b }
    ensures one_fault { (line : List ℕ) → (k m : ℕ) → (f g : Fault) →
        Wrong line k f → Wrong line m g → (k ≡ m) × (f ≡ g) }
{}

/// The fields of each board meet the definition of a board.
pub fn boards_are_valid()
    ensures { (board : Board) → IsBoard (fields_of board) }
{}

/// The test of boards is true of boards, and of nothing else.
#[tactic(auto, using(crate::proofs::BoardLemmas::BoardTests::is_board_exact))]
pub fn is_board_is_exact()
    ensures { (b : BoardFields) → (is_board b ≡ true) ↔ IsBoard b }
{}

/// Which numbers each group of fields may have, and that each board keeps to it.
#[tactic(auto, using(crate::proofs::BoardLemmas::FieldRangeLaws::field_ranges))]
pub fn fields_have_their_ranges()
    ensures { FieldRanges }
{}

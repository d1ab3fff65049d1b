//! Whether the game has gone on from one board to another.

ghost use Rattle.std.specs.Prelude.{◌≡◌, ◌≤◌, ◌↔◌, ◌-◌, ◌+◌, IsTrue, not};
ghost use Rattle.fibs_fields.specs.StoredBoard.{fields_of};
ghost use Rattle.fibs_position.specs.GamePart.{Differ, Agree, game_part, same_game};

use fibs_fields::boards::Board;

/// Two boards have the same numbers from a first to a last field.
fn agree(a: &Board, b: &Board, first: usize, last: usize) -> bool
    requires low { 4 ≤ first }
    requires high { last ≤ 53 }
    ensures { IsTrue result ↔ Agree (fields_of a.now) (fields_of b.now) first last }
{
    for n in first..last + 1 {
        if a.field(n) != b.field(n) {
            return false;
        }
    }
    true
}

/// Two boards have the same numbers in each field of the game part.
fn same_numbers(a: &Board, b: &Board) -> bool
    ensures { let x = fields_of a.now in let y = fields_of b.now in
        IsTrue result ↔ (Agree x y 4 6 × Agree x y 8 31 × Agree x y 33 43 × Agree x y 46 47) }
{
    agree(a, b, 4, 6) && agree(a, b, 8, 31) && agree(a, b, 33, 43) && agree(a, b, 46, 47)
}

/// Two boards have one game part.
fn is_same_game(a: &Board, b: &Board) -> bool
    ensures { IsTrue result ↔ (game_part (fields_of a.now) ≡ game_part (fields_of b.now)) }
{
    a.opponent().bytes() == b.opponent().bytes() && same_numbers(a, b)
}

/// Two boards differ in what the game is: the opponent's name (field 3), the match and its scores (4 to 6),
/// places 1 to 24 (8 to 31), turn, dice, cube, who may double, colour and direction (33 to 43), and the checkers
/// borne off (46, 47). The other fields decide nothing.
pub fn differs(a: &Board, b: &Board) -> bool
    ensures differ { IsTrue result ↔ Differ (fields_of a.now) (fields_of b.now) }
    ensures test { result ≡ not (same_game (fields_of a.now) (fields_of b.now)) }
{
    !is_same_game(a, b)
}

//! Which numbers each field of a board may have.

ghost use Rattle.std.specs.Prelude.{◌≡◌, ◌<◌, ◌≤◌, true, slice_get, Some};
ghost use Rattle.fibs_fields.specs.Board.{field_values, can_have};
ghost use Rattle.fibs_fields.specs.DecimalReading.{IsNarrow};

use crate::values::{Values, allows};

const COUNT: Values = Values::Between(0, 9_999);

const SCORE: Values = Values::Between(0, 99_999_999);

const PLACE: Values = Values::Between(-15, 15);

const TURN: Values = Values::Between(-1, 1);

const DIE: Values = Values::Between(0, 6);

const CUBE: Values = Values::Between(1, 1_048_576);

const FLAG: Values = Values::Either(0, 1);

const SIDE: Values = Values::Either(-1, 1);

const EDGE: Values = Values::Either(0, 25);

const CHECKERS: Values = Values::Between(0, 15);

/// The numbers that fields 4 to 53 may have. A static, so that no reading of a field copies it.
static FIELD_VALUES: [Values; 50] = [
    COUNT, // 4: match length
    SCORE, SCORE, // 5, 6: scores
    // 7 to 32: places 0 to 25
    PLACE, PLACE, PLACE, PLACE, PLACE, PLACE, PLACE, PLACE, PLACE, PLACE, PLACE, PLACE, PLACE,
    PLACE, PLACE, PLACE, PLACE, PLACE, PLACE, PLACE, PLACE, PLACE, PLACE, PLACE, PLACE, PLACE,
    TURN, // 33: turn
    DIE, DIE, DIE, DIE, // 34 to 37: dice
    CUBE, // 38: cube
    FLAG, FLAG, // 39, 40: may double
    FLAG, // 41: has just doubled
    SIDE, // 42: colour
    SIDE, // 43: direction
    EDGE, EDGE, // 44, 45: home, bar
    CHECKERS, CHECKERS, // 46, 47: borne off
    CHECKERS, CHECKERS, // 48, 49: on the bar
    CHECKERS, // 50: can move
    COUNT, COUNT, COUNT, // 51, 52, 53: forced move, did Crawford, redoubles
];

/// The numbers that field `index + 4` may have.
pub fn values_of(index: usize) -> Values
    requires { index < 50 }
    ensures value { slice_get field_values index ≡ Some result }
    ensures narrow { IsNarrow result }
{
    FIELD_VALUES[index]
}

/// Whether field `n` is one of fields 4 to 53, and may have the number.
pub fn can_have(n: usize, number: i32) -> bool
    ensures test { result ≡ can_have n number }
    ensures place { result ≡ true → (4 ≤ n) × (n ≤ 53) }
{
    if n < 4 || n > 53 {
        return false;
    }
    allows(values_of(n - 4), i64::from(number))
}

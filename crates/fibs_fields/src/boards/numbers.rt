//! The numbers of a board, kept in few bytes.

ghost use Rattle.std.specs.Prelude.{◌≡◌, ◌<◌, ◌≤◌, take, drop, length, slice_index_or, slice_set, pos, FitsSigned};
ghost use Rattle.std.specs.Int.{w8};
ghost use Rattle.fibs_fields.specs.Board.{Fit, field_values};

/// The numbers of fields 4 to 53. Those of fields 7 to 37 take a byte each.
#[derive(Clone, Copy, Debug, PartialEq, Eq)]
pub struct Numbers {
    /// Fields 4 to 6: the match length and the scores.
    first: [i32; 3],
    /// Fields 7 to 37: the places, the turn and the dice.
    small: [i8; 31],
    /// Fields 38 to 53.
    last: [i32; 16],
    pub ghost long: { (length first ≡ 3) × (length small ≡ 31) },
}

/// The numbers of fields 7 to 37, in a byte each.
fn narrowed(numbers: &[i32; 50]) -> [i8; 31]
    requires { Fit field_values numbers.now }
    ensures { result ≡ take 31 (drop 3 numbers.now) }
{
    let mut small = [0; 31];
    for i in 0..31 {
        small[i] = numbers[i + 3] as i8;
    }
    small
}

impl Numbers {
    ghost use Rattle.fibs_fields.specs.StoredNumbers.{numbers_of};

    /// These numbers.
    pub fn new(numbers: &[i32; 50]) -> Numbers
        requires { Fit field_values numbers.now }
        ensures { numbers_of result ≡ numbers.now }
    {
        let mut first = [0; 3];
        first.copy_from_slice(&numbers[..3]);
        let mut last = [0; 16];
        last.copy_from_slice(&numbers[34..]);
        Numbers {
            first,
            small: narrowed(numbers),
            last,
        }
    }

    /// The number of field `i + 4`.
    #[tactic(auto, unfolding(crate::specs::StoredNumbers::numbers_of))]
    #[inline(always)]
    pub fn get(&self, i: usize) -> i32
        requires { i < 50 }
        ensures { result ≡ slice_index_or (numbers_of self.now) i (pos 0) }
    {
        if i < 3 {
            return self.first[i];
        }
        if i < 34 {
            return i32::from(self.small[i - 3]);
        }
        self.last[i - 34]
    }

    /// Changes the number of field `i + 4`.
    pub fn set(&mut self, i: usize, number: i32)
        requires within { i < 50 }
        requires small { 3 ≤ i → i < 34 → FitsSigned w8 number }
        ensures { numbers_of self.new ≡ slice_set (numbers_of self.old) i number }
    {
        if i < 3 {
            self.first[i] = number;
        } else if i < 34 {
            self.small[i - 3] = number as i8;
        } else {
            self.last[i - 34] = number;
        }
    }
}

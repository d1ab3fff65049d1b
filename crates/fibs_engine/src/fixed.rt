//! Text in a buffer of fixed size, which takes no memory.
ghost use Rattle.std.specs.Prelude.{◌≡◌, ◌≤◌, ◌+◌, ◌++◌};
ghost use Rattle.arrayvec.specs.ArrayVec.{array_vec_len};

use arrayvec::ArrayVec;
use fibs_fields::fixed::append;
use itoa::{Buffer, Integer};

/// Appends a number if there is room for the longest of its type.
pub fn append_number<I: Integer, const N: usize>(text: &mut ArrayVec<u8, N>, number: I)
    requires { array_vec_len text.old + I.MAX_STR_LEN ≤ N }
    ensures text { text.new.items ≡ text.old.items ++ I.text number }
    ensures short { array_vec_len text.new ≤ array_vec_len text.old + I.MAX_STR_LEN }
{
    append(text, Buffer::new().format(number).as_bytes());
}

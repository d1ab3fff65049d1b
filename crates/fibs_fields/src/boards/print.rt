//! The line of a board, written from its end to its start.

ghost use Rattle.std.specs.Prelude.{◌≡◌, ◌≤◌, ◌+◌, ◌∷◌, ◌++◌, decimal, drop, length};
ghost use Rattle.std.specs.Fmt.{signed_decimal};
ghost use Rattle.fibs_fields.specs.Board.{Fit, field_values, spelling};
ghost use Rattle.fibs_fields.specs.Numerals.{after_colons};
ghost use Rattle.fibs_fields.specs.StoredNumbers.{numbers_of};

use crate::boards::numbers::Numbers;
use itoa::write_digits;

/// The most bytes that a board's line takes: `board:`, two names, a colon between them, and 194 bytes of numbers and
/// colons.
pub const LINE_LEN: usize = 329;

/// Writes the digits of the number so that they end before `end`, and gives where they start. Most have one digit.
#[inline(always)]
fn write_magnitude(text: &mut [u8; LINE_LEN], end: usize, magnitude: u32) -> usize
    requires room { length (decimal magnitude) ≤ end }
    requires within { end ≤ 329 }
    ensures start { result + length (decimal magnitude) ≡ end }
    ensures written { drop result text.new ≡ decimal magnitude ++ drop end text.old }
{
    if magnitude > 9 {
        return write_digits(u64::from(magnitude), text, end);
    }
    text[end - 1] = b'0' + magnitude as u8;
    end - 1
}

/// Writes a colon and the number so that they end before `end`, and gives where they start.
///
/// The minus sign is always written: if the number has none, the colon takes its place.
#[inline(always)]
fn write_number(text: &mut [u8; LINE_LEN], end: usize, number: i32) -> usize
    requires room { 1 + length (signed_decimal number) ≤ end }
    requires within { end ≤ 329 }
    ensures start { result + (1 + length (signed_decimal number)) ≡ end }
    ensures written { drop result text.new ≡ 58 ∷ signed_decimal number ++ drop end text.old }
{
    let digits = write_magnitude(text, end, number.unsigned_abs());
    text[digits - 1] = b'-';
    let start = digits - 1 - usize::from(number < 0);
    text[start] = b':';
    start
}

/// Writes the numbers of fields 4 to 53, each after a colon, so that they end the text, and gives where they start.
fn write_numbers(text: &mut [u8; LINE_LEN], numbers: &Numbers) -> usize
    requires { Fit field_values (numbers_of numbers.now) }
    ensures room { 135 ≤ result }
    ensures within { result ≤ 329 }
    ensures written { drop result text.new ≡ after_colons (numbers_of numbers.now) }
{
    let mut start = LINE_LEN;
    let mut left = 50;
    while left > 0 {
        left -= 1;
        start = write_number(text, start, numbers.get(left));
    }
    start
}

/// Writes the bytes so that they end before `end`, and gives where they start.
#[inline(always)]
fn write_before(text: &mut [u8; LINE_LEN], end: usize, bytes: &[u8]) -> usize
    requires room { length bytes.now ≤ end }
    requires within { end ≤ 329 }
    ensures start { result + length bytes.now ≡ end }
    ensures written { drop result text.new ≡ bytes.now ++ drop end text.old }
{
    let start = end - bytes.len();
    text[start..end].copy_from_slice(bytes);
    start
}

/// Writes the line of a board so that it ends the text, and gives where it starts.
pub fn write_board(
    text: &mut [u8; LINE_LEN],
    player: &[u8],
    opponent: &[u8],
    numbers: &Numbers,
) -> usize
    requires player { length player.now ≤ 64 }
    requires opponent { length opponent.now ≤ 64 }
    requires numbers { Fit field_values (numbers_of numbers.now) }
    ensures within { result ≤ 329 }
    ensures written { drop result text.new
        ≡ spelling (record { player = player.now; opponent = opponent.now; numbers = numbers_of numbers.now }) }
{
    let start = write_numbers(text, numbers);
    let start = write_before(text, start, opponent);
    let start = write_before(text, start, b":");
    let start = write_before(text, start, player);
    write_before(text, start, b"board:")
}

//! The number with which a line begins.

ghost use Rattle.std.specs.Prelude.{◌≡◌, [], ◌∷◌, IfSome, slice_index_or};
ghost use Rattle.fibs_fields.specs.Split.{seen, before, after};
ghost use Rattle.fibs_messages.specs.Message.{number_word, IsNumber, drops_spaces, kept};

use fibs_fields::split::split;
use fibs_fields::trailing_spaces::without_spaces;

/// The byte there, or a space if the line is shorter.
fn byte_at(line: &[u8], at: usize) -> u8
    ensures { result ≡ slice_index_or line.now at 32 }
{
    if at < line.len() { line[at] } else { b' ' }
}

/// The number from 1 to 9 that the digit is.
fn one_digit(digit: u8) -> Option<u8>
    ensures value { result ≡ number_word (digit ∷ []) }
    ensures number { IfSome result IsNumber }
{
    if digit >= b'1' && digit <= b'9' {
        Some(digit - b'0')
    } else {
        None
    }
}

/// The number from 10 to 19 that the two digits are.
fn two_digits(ten: u8, digit: u8) -> Option<u8>
    ensures value { result ≡ number_word (ten ∷ digit ∷ []) }
    ensures number { IfSome result IsNumber }
{
    if ten == b'1' && digit >= b'0' && digit <= b'9' {
        Some(10 + (digit - b'0'))
    } else {
        None
    }
}

/// The number from 1 to 19 with which a line begins, if a space or the line's end follows it. No more than three bytes
/// of the line are read.
pub fn number_of(line: &[u8]) -> Option<u8>
    ensures value { result ≡ number_word (before 32 line.now) }
    ensures number { IfSome result IsNumber }
{
    let digit = byte_at(line, 0);
    let second = byte_at(line, 1);
    if second == b' ' {
        return one_digit(digit);
    }
    if byte_at(line, 2) == b' ' {
        return two_digits(digit, second);
    }
    None
}

/// Whether the trailing spaces of a message's line are dropped.
fn drops_spaces(number: u8) -> bool
    ensures { result ≡ drops_spaces number }
{
    number <= 6 || number == 10 || number == 11
}

/// What is kept of the line of a message.
pub fn kept(number: u8, line: &[u8]) -> &[u8]
    ensures { result.now ≡ kept number line.now }
{
    if drops_spaces(number) {
        without_spaces(line)
    } else {
        line
    }
}

/// What follows the number and a space.
pub fn rest_of(number: u8, line: &[u8]) -> Option<&[u8]>
    ensures { seen result ≡ after 32 (kept number line.now) }
{
    split(kept(number, line), b' ').1
}

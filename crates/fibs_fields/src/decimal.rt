//! Numbers, as they are spelled.

ghost use Rattle.std.specs.Prelude.{◌≡◌, ◌↔◌, ◌-◌, ◌≤◌, ◌&&◌, ◌||◌, ℕ, cond, decimal, length, min, nat_le, pos, true, drop, take, [], ◌∷◌, ◌++◌, option_map, Some, None, MatchOption, OnOk, if◌then◌else◌};
ghost use Rattle.std.specs.Char.{is_ascii_digit};
ghost use Rattle.std.specs.List.{list_all, prefix_len};
ghost use Rattle.std.specs.Str.Parse.{digits_value, starts_with_minus};
ghost use Rattle.fibs_fields.specs.Field.{flag_values, number_values};
ghost use Rattle.fibs_fields.specs.FieldReading.{Gives};
ghost use Rattle.fibs_fields.specs.Decimal.{is_positive, is_zero, decimal_up_to, decimal_value, number_if_allowed, numbers_of_32_bits, numbers_of_64_bits, number_in};
ghost use Rattle.fibs_fields.specs.DecimalReading.{IsNarrow, capped, unsigned_value};

use crate::fault::Fault;
use crate::runs::run_of;
use crate::values::{Values, allows};
use itoa::{Buffer, Integer};
use std::alloc::AllocError;

/// Whether each byte is a digit.
fn are_digits(text: &[u8]) -> bool
    ensures { result ≡ list_all is_ascii_digit text.now }
{
    text.iter().all(u8::is_ascii_digit)
}

/// How many digits are at the front of a text.
#[inline(always)]
#[tactic(auto, using(crate::proofs::FieldLemmas::Runs::digits_run))]
pub fn digit_run(text: &[u8]) -> usize
    ensures { result ≡ prefix_len is_ascii_digit text.now }
{
    // No digit is a colon, so nothing is left out.
    run_of(text, b'0', b'9', b':')
}

/// Whether the text is digits that begin with no 0.
fn is_positive(text: &[u8]) -> bool
    ensures { result ≡ is_positive text.now }
{
    !text.is_empty() && text[0] != b'0' && are_digits(text)
}

/// The number that the digits write, unless it takes more than 64 bits.
fn magnitude(digits: &[u8]) -> Option<u64>
    requires { list_all is_ascii_digit digits.now ≡ true }
    ensures { MatchOption result (numbers_of_64_bits ≤ digits_value 10 digits.now)
        (λ n. n ≡ digits_value 10 digits.now) }
{
    let mut value = 0u64;
    for digit in digits {
        let tens = value.checked_mul(10)?;
        value = tens.checked_add(u64::from(*digit - b'0'))?;
    }
    Some(value)
}

/// Whether the text is `0`.
fn is_zero(text: &[u8]) -> bool
    ensures { result ≡ is_zero text.now }
{
    text.len() == 1 && text[0] == b'0'
}

/// Whether the text is a canonical decimal without sign.
fn is_unsigned(text: &[u8]) -> bool
    ensures { result ≡ is_zero text.now || is_positive text.now }
{
    is_zero(text) || is_positive(text)
}

/// Whether the text is a canonical decimal with a sign.
fn is_negative(text: &[u8]) -> bool
    ensures { result ≡ starts_with_minus text.now && is_positive (drop 1 text.now) }
{
    !text.is_empty() && text[0] == b'-' && is_positive(&text[1..])
}

/// The number of a canonical decimal without sign that has 19 digits at most. 64 bits hold each of these.
#[inline(always)]
fn short_unsigned(text: &[u8]) -> Option<u64>
    ensures { result ≡ cond ((is_zero text.now || is_positive text.now) && nat_le (length text.now) 19)
        (Some (digits_value 10 text.now)) None }
{
    if text.is_empty() || text.len() > 19 || (text[0] == b'0' && text.len() > 1) {
        return None;
    }
    let mut value = 0u64;
    for byte in text {
        if !byte.is_ascii_digit() {
            return None;
        }
        value = value * 10 + u64::from(*byte - b'0');
    }
    Some(value)
}

/// The number of a canonical decimal without sign, however long it is.
#[inline(never)]
fn long_unsigned(text: &[u8]) -> Result<u64, Fault>
    ensures { result ≡ unsigned_value text.now }
{
    if is_unsigned(text) {
        magnitude(text).ok_or(Fault::OutOfRange)
    } else {
        Err(Fault::NotANumber)
    }
}

/// The number of a canonical decimal without sign.
#[inline(always)]
pub(crate) fn unsigned_number(text: &[u8]) -> Result<u64, Fault>
    ensures { result ≡ unsigned_value text.now }
{
    match short_unsigned(text) {
        Some(number) => Ok(number),
        None => long_unsigned(text),
    }
}

/// The number of a canonical decimal without sign, which is `0` or digits that begin with no 0, if it is at most
/// `limit`. None for every other text, also for one with a sign, and for a number of any length that is above it.
pub fn read_decimal(text: &[u8], limit: u64) -> Option<u64>
    ensures value { result ≡ decimal_up_to limit text.now }
    ensures exact { (n : ℕ) → (result ≡ Some n) ↔ ((text.now ≡ decimal n) × (n ≤ limit)) }
{
    match unsigned_number(text) {
        Ok(number) if number <= limit => Some(number),
        _ => None,
    }
}

/// The number that the digits write, or the greatest of 32 bits if that is greater.
fn capped(digits: &[u8]) -> u32
    requires { list_all is_ascii_digit digits.now ≡ true }
    ensures { result ≡ min (digits_value 10 digits.now) (numbers_of_32_bits - 1) }
{
    match magnitude(digits) {
        Some(number) if number < u64::from(u32::MAX) => number as u32,
        _ => u32::MAX,
    }
}

/// The number of a canonical decimal of one byte.
#[inline(always)]
fn one_byte(digit: u8) -> Option<i64>
    ensures { result ≡ option_map capped (decimal_value (digit ∷ [])) }
{
    if digit >= b'0' && digit <= b'9' {
        Some(i64::from(digit - b'0'))
    } else {
        None
    }
}

/// The number of a canonical decimal of two bytes.
#[inline(always)]
fn two_bytes(first: u8, last: u8) -> Option<i64>
    ensures { result ≡ option_map capped (decimal_value (first ∷ last ∷ [])) }
{
    if first == b'-' && last >= b'1' && last <= b'9' {
        Some(-i64::from(last - b'0'))
    } else if first >= b'1' && first <= b'9' && last >= b'0' && last <= b'9' {
        Some(i64::from(10 * (first - b'0') + (last - b'0')))
    } else {
        None
    }
}

/// The number of a canonical decimal of any length. A number that is too large for any field is replaced by another
/// one that is too large for any.
#[inline(never)]
fn long_decimal(text: &[u8]) -> Option<i64>
    ensures { result ≡ option_map capped (decimal_value text.now) }
{
    if !text.is_empty() && text[0] == b'-' {
        if is_positive(&text[1..]) {
            return Some(-i64::from(capped(&text[1..])));
        }
        return None;
    }
    if is_unsigned(text) {
        return Some(i64::from(capped(text)));
    }
    None
}

/// The number, if there is one and a field may have it.
#[inline(always)]
fn in_range(values: Values, number: Option<i64>) -> Result<i32, Fault>
    ensures value { result ≡ number_if_allowed values number }
    ensures narrow { IsNarrow values }
{
    match number {
        None => Err(Fault::NotANumber),
        Some(number) => {
            if allows(values, number) {
                Ok(number as i32)
            } else {
                Err(Fault::OutOfRange)
            }
        }
    }
}

/// The number of one digit that a field may have.
#[inline(always)]
pub(crate) fn digit_in(values: Values, digit: u8) -> Result<i32, Fault>
    ensures { result ≡ number_in values (digit ∷ []) }
{
    in_range(values, one_byte(digit))
}

/// The number of a canonical decimal that a field may have.
#[inline(always)]
pub(crate) fn number_in(values: Values, text: &[u8]) -> Result<i32, Fault>
    ensures { result ≡ number_in values text.now }
{
    // Nearly all numbers of a board are one byte or two.
    match text {
        [digit] => digit_in(values, *digit),
        [first, last] => in_range(values, two_bytes(*first, *last)),
        _ => in_range(values, long_decimal(text)),
    }
}

/// The number of a canonical decimal that has 64 bits and no sign.
#[tactic(auto, using(crate::proofs::NumberLemmas::Naturals::negative_refused))]
pub(crate) fn unsigned_in(text: &[u8]) -> Result<u64, Fault>
    ensures { Gives (λ n. pos n) result (number_in number_values text.now) }
{
    match unsigned_number(text) {
        Err(Fault::NotANumber) if is_negative(text) => Err(Fault::OutOfRange),
        result => result,
    }
}

/// Whether a flag is 1.
pub(crate) fn flag_in(text: &[u8]) -> Result<bool, Fault>
    ensures { Gives (λ b. if b then pos 1 else pos 0) result (number_in flag_values text.now) }
{
    let number = number_in(Values::Between(0, 1), text)?;
    Ok(number == 1)
}

/// Appends a number.
pub fn append_number<I: Integer>(number: I, text: &mut Vec<u8>) -> Result<(), AllocError>
    ensures put { OnOk result (text.new.items ≡ text.old.items ++ I.text number) }
    ensures front { take (length text.old.items) text.new.items ≡ text.old.items }
{
    text.extend_from_slice(Buffer::new().format(number).as_bytes())
}

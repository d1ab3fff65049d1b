//! The numbers of a board's line, found right by pairs of bytes: most of them are a digit and a colon.
//!
//! What is found right is right. All else is left to the reading of the fields one by one, which names the fault.
//!
//! Each `pass_..` finds whether its numbers are right from the place `at` on, each with a colon after it, and then
//! moves
//! `at` behind the last colon. If they are not, where `at` is says nothing.

ghost use Rattle.std.specs.Prelude.{◌≡◌, ◌<◌, ◌≤◌, ◌+◌, ◌-◌, ◌*◌, ◌^◌, [], ◌∷◌, ◌++◌, ℕ, true, None, pos, drop, length, map, replicate, slice_index, take};
ghost use Rattle.fibs_fields.specs.Board.{checkers, count, edge, field_values, flag, pieces, place, side};
ghost use Rattle.fibs_fields.specs.BoardReading.{first_fault};
ghost use Rattle.fibs_show.specs.RightNumbers.{AreRight, DigitAt, NoFault, are_right, cube, die, score, turn};
ghost use Rattle.fibs_fields.specs.Decimal.{is_positive};
ghost use Rattle.fibs_fields.specs.Field.{a_number_of};
ghost use Rattle.fibs_fields.specs.declared.values.Values.{Values};
ghost use Rattle.fibs_fields.specs.declared.values.Values.TheVariants.{Between};

use fibs_fields::decimal::digit_run;
use std::simd::prelude::*;

/// Two bytes as a number, the first below the second, by one load.
#[inline(always)]
fn pair(text: &[u8], at: usize) -> u16
    requires { at + 1 < length text.now }
    ensures { result ≡ slice_index text.now at + slice_index text.now (at + 1) * 256 }
{
    let bytes: Simd<u8, 2> = Simd::from_slice(&text[at..]);
    Simd::<u16, 1>::from_le_bytes(bytes).to_array()[0]
}

/// Whether a byte from `least` to `most` is at a place.
#[inline(always)]
fn byte_at(text: &[u8], at: usize, least: u8, most: u8) -> bool
    requires { at + 1 < length text.now }
    ensures low { result ≡ true → least ≤ slice_index text.now at }
    ensures high { result ≡ true → slice_index text.now at ≤ most }
{
    let byte = pair(text, at) % 256;
    byte >= u16::from(least) && byte <= u16::from(most)
}

/// Whether a byte from `least` to `most` is at a place, and a colon after it.
#[inline(always)]
fn digit_at(text: &[u8], at: usize, least: u8, most: u8) -> bool
    requires { at + 1 < length text.now }
    ensures { result ≡ true → DigitAt text.now at least most }
{
    let pair = pair(text, at);
    pair >= 0x3a00 + u16::from(least) && pair <= 0x3a00 + u16::from(most)
}

/// The checkers on a place, from -15 to 15. As many places are left, this one among them, and three bytes for each.
#[inline(always)]
fn pass_place(text: &[u8], at: &mut usize, left: usize) -> bool
    requires some { 0 < left }
    requires room { at.old + 3 * left ≤ length text.now }
    ensures right { result ≡ true → AreRight (place ∷ []) text.now at.old at.new }
    ensures room { at.new + 3 * left ≤ length text.now + 3 }
{
    let start = *at;
    if digit_at(text, start, b'0', b'9') {
        *at += 2;
        return true;
    }
    if byte_at(text, start, b'-', b'-') {
        if digit_at(text, start + 1, b'1', b'9') {
            *at += 3;
            return true;
        }
        if start + 3 * left < text.len()
            && byte_at(text, start + 1, b'1', b'1')
            && digit_at(text, start + 2, b'0', b'5')
        {
            *at += 4;
            return true;
        }
        return false;
    }
    if byte_at(text, start, b'1', b'1') && digit_at(text, start + 1, b'0', b'5') {
        *at += 3;
        return true;
    }
    false
}

/// Fields 7 to 32: places 0 to 25.
#[inline(always)]
fn pass_places(text: &[u8], at: &mut usize) -> bool
    requires { at.old + 78 ≤ length text.now }
    ensures right { result ≡ true → AreRight (replicate 26 place) text.now at.old at.new }
    ensures within { at.new ≤ length text.now }
{
    for i in 0..26 {
        if !pass_place(text, at, 26 - i) {
            return false;
        }
    }
    true
}

/// So many numbers of one digit, from 0 to `most`.
#[inline(always)]
fn pass_digits(text: &[u8], at: &mut usize, count: usize, most: u8) -> bool
    requires { at.old + 2 * count ≤ length text.now }
    ensures right { result ≡ true → (values : Values) → are_right values [] 48 (most + 1 - 48) ≡ true →
        AreRight (replicate count values) text.now at.old at.new }
    ensures short { at.new ≤ at.old + 2 * count }
{
    for _ in 0..count {
        if !digit_at(text, *at, b'0', most) {
            return false;
        }
        *at += 2;
    }
    true
}

/// Some of 15 checkers.
#[inline(always)]
fn pass_checkers(text: &[u8], at: &mut usize) -> bool
    requires { at.old + 3 ≤ length text.now }
    ensures right { result ≡ true → AreRight (checkers ∷ []) text.now at.old at.new }
    ensures short { at.new ≤ at.old + 3 }
{
    if digit_at(text, *at, b'0', b'9') {
        *at += 2;
        return true;
    }
    if byte_at(text, *at, b'1', b'1') && digit_at(text, *at + 1, b'0', b'5') {
        *at += 3;
        return true;
    }
    false
}

/// -1, or a digit from `least` to 1.
#[inline(always)]
fn pass_sign(text: &[u8], at: &mut usize, least: u8) -> bool
    requires { at.old + 3 ≤ length text.now }
    ensures right { result ≡ true → (values : Values) → are_right values [] least (50 - least) ≡ true →
        are_right values (45 ∷ []) 49 1 ≡ true → AreRight (values ∷ []) text.now at.old at.new }
    ensures short { at.new ≤ at.old + 3 }
{
    if digit_at(text, *at, least, b'1') {
        *at += 2;
        return true;
    }
    if byte_at(text, *at, b'-', b'-') && digit_at(text, *at + 1, b'1', b'1') {
        *at += 3;
        return true;
    }
    false
}

/// Home or bar: 0 or 25.
#[inline(always)]
fn pass_edge(text: &[u8], at: &mut usize) -> bool
    requires { at.old + 3 ≤ length text.now }
    ensures right { result ≡ true → AreRight (edge ∷ []) text.now at.old at.new }
    ensures short { at.new ≤ at.old + 3 }
{
    if digit_at(text, *at, b'0', b'0') {
        *at += 2;
        return true;
    }
    if byte_at(text, *at, b'2', b'2') && digit_at(text, *at + 1, b'5', b'5') {
        *at += 3;
        return true;
    }
    false
}

/// How many digits are at a place, if they begin with no 0 and are no more than so many; else 0.
#[inline(never)]
fn long_run(text: &[u8], at: usize, digits: usize) -> usize
    requires { at ≤ length text.now }
    ensures number { 0 < result → is_positive (take result (drop at text.now)) ≡ true }
    ensures short { result ≤ digits }
    ensures within { at + result ≤ length text.now }
{
    let rest = &text[at..];
    let len = digit_run(rest);
    if len == 0 || len > digits || rest[0] == b'0' {
        return 0;
    }
    len
}

/// A number of at most so many digits, which is not below `least`. Most have one digit or two.
#[inline(always)]
fn pass_number(text: &[u8], at: &mut usize, least: u8, digits: usize) -> bool
    requires room { at.old + 3 ≤ length text.now }
    requires least { least ≤ 1 }
    requires digits { 2 ≤ digits }
    ensures right { result ≡ true → (most : ℕ) → 10 ^ digits ≤ most + 1 → most < 2 ^ 31 →
        AreRight (Between (pos least) (pos most) ∷ []) text.now at.old at.new }
    ensures short { at.new ≤ at.old + digits + 1 }
    ensures within { at.new ≤ length text.now }
{
    if digit_at(text, *at, b'0' + least, b'9') {
        *at += 2;
        return true;
    }
    if byte_at(text, *at, b'1', b'9') && digit_at(text, *at + 1, b'0', b'9') {
        *at += 3;
        return true;
    }
    let len = long_run(text, *at, digits);
    let end = *at + len;
    if len == 0 || end >= text.len() || text[end] != b':' {
        return false;
    }
    *at = end + 1;
    true
}

/// Whether there is room from a place on for so many numbers, which have a byte each at least, and colons between them.
#[inline(always)]
fn has_room(text: &[u8], at: usize, numbers: usize) -> bool
    requires at { at ≤ length text.now }
    requires some { 0 < numbers }
    requires few { numbers ≤ 50 }
    ensures { result ≡ true → at + 2 * numbers ≤ length text.now + 1 }
{
    text.len() - at >= 2 * numbers - 1
}

/// Fields 4 to 6: the match length and the scores.
#[inline(always)]
fn pass_scores(text: &[u8], at: &mut usize) -> bool
    requires { at.old + 17 ≤ length text.now }
    ensures right { result ≡ true → AreRight (count ∷ replicate 2 score) text.now at.old at.new }
    ensures within { at.new ≤ length text.now }
{
    if !pass_number(text, at, 0, 4) || !pass_number(text, at, 0, 8) {
        return false;
    }
    pass_number(text, at, 0, 8)
}

/// Fields 33 to 38: the turn, the dice, the cube. A cube of seven digits is not found right, which none has in play.
#[inline(always)]
fn pass_cube(text: &[u8], at: &mut usize) -> bool
    requires { at.old + 14 ≤ length text.now }
    ensures right { result ≡ true →
        AreRight (turn ∷ replicate 4 die ++ cube ∷ []) text.now at.old at.new }
    ensures within { at.new ≤ length text.now }
{
    if !pass_sign(text, at, b'0') || !pass_digits(text, at, 4, b'6') {
        return false;
    }
    pass_number(text, at, 1, 6)
}

/// Fields 39 to 45: the flags, the colour, the direction, home and bar.
#[inline(always)]
fn pass_sides(text: &[u8], at: &mut usize) -> bool
    requires { at.old + 18 ≤ length text.now }
    ensures right { result ≡ true →
        AreRight (replicate 3 flag ++ replicate 2 side ++ replicate 2 edge) text.now at.old at.new }
    ensures short { at.new ≤ at.old + 18 }
{
    if !pass_digits(text, at, 3, b'1')
        || !pass_sign(text, at, b'1')
        || !pass_sign(text, at, b'1')
        || !pass_edge(text, at)
    {
        return false;
    }
    pass_edge(text, at)
}

/// Fields 46 to 50: checkers borne off, on the bar, and that can move.
#[inline(always)]
fn pass_all_checkers(text: &[u8], at: &mut usize) -> bool
    requires { at.old + 15 ≤ length text.now }
    ensures right { result ≡ true → AreRight (replicate 5 checkers) text.now at.old at.new }
    ensures short { at.new ≤ at.old + 15 }
{
    for _ in 0..5usize {
        if !pass_checkers(text, at) {
            return false;
        }
    }
    true
}

/// Whether the text ends in the number of field 53, which begins at a place.
#[inline(always)]
fn is_last(text: &[u8], at: usize) -> bool
    requires { at < length text.now }
    ensures { result ≡ true → NoFault (a_number_of count ∷ []) (pieces (drop at text.now)) }
{
    if at + 1 == text.len() {
        return text[at] >= b'0' && text[at] <= b'9';
    }
    let len = long_run(text, at, 4);
    len > 0 && at + len == text.len()
}

/// Whether the numbers of fields 4 to 53, which are the whole text, are found right. If not, one may be wrong.
///
/// Before each group it looks once whether there is room for all that is left.
#[inline(never)]
pub fn numbers_are_right(text: &[u8]) -> bool
    ensures { result ≡ true → first_fault 4 (map a_number_of field_values) (pieces text.now) ≡ None }
{
    let mut at = 0;
    if !has_room(text, at, 50)
        || !pass_scores(text, &mut at)
        || !has_room(text, at, 47)
        || !pass_places(text, &mut at)
        || !has_room(text, at, 21)
        || !pass_cube(text, &mut at)
        || !has_room(text, at, 15)
        || !pass_sides(text, &mut at)
        || !has_room(text, at, 8)
        || !pass_all_checkers(text, &mut at)
        || !has_room(text, at, 3)
        || !pass_number(text, &mut at, 0, 4)
        || !has_room(text, at, 2)
        || !pass_number(text, &mut at, 0, 4)
        || !has_room(text, at, 1)
    {
        return false;
    }
    is_last(text, at)
}

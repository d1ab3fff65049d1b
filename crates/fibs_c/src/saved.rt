//! A row of the answer to `show saved`.

ghost use Rattle.std.specs.Prelude.{◌≡◌, ◌&&◌};
ghost use Rattle.fibs_fields.specs.Name.{is_name};
ghost use Rattle.fibs_fields.specs.Decimal.{decimal_up_to};
ghost use Rattle.fibs_c.specs.SavedDoor.{IsRowIf, IsSaved, after_spaces, after_star, after_word, bare, first_word, is_blank, length_in, numbers_in};

use crate::records::events::{NameRecord, name_record, no_name};
use bstr::ByteSlice;
use fibs_fields::decimal::read_decimal;
use fibs_fields::split::split;
use fibs_messages::Name;

/// How many points at most a match or a score has that is read.
const MOST_POINTS: u64 = 99_999_999;

/// The length of an unlimited match, as a board has it.
const UNLIMITED: u32 = 9999;

/// A match that the server has saved.
#[repr(C)]
#[derive(Clone, Copy)]
pub struct SavedRecord {
    /// The opponent. If the text is no row, he has no name, and all else is 0.
    pub name: NameRecord,
    /// How many points the match is to; 9999 if it is unlimited.
    pub length: u32,
    /// The points of the user, and of the opponent.
    pub score: [u32; 2],
    /// 1 if the opponent is logged in.
    pub there: u8,
}

/// A text without the spaces in front of it.
fn after_spaces(text: &[u8]) -> &[u8]
    ensures { result.now ≡ after_spaces text.now }
{
    match text.find_not_byteset(b" ") {
        Some(first) => &text[first..],
        None => b"",
    }
}

/// The first word of a text, and what follows it.
fn first_word(text: &[u8]) -> (&[u8], &[u8])
    ensures word { result.0.now ≡ first_word text.now }
    ensures rest { result.1.now ≡ after_word text.now }
{
    let (word, rest) = split(after_spaces(text), b' ');
    match rest {
        None => (word, b""),
        Some(rest) => (word, rest),
    }
}

/// A word without a star in front of it.
fn after_star(word: &[u8]) -> &[u8]
    ensures { result.now ≡ after_star word.now }
{
    if !word.is_empty() && word[0] == b'*' {
        &word[1..]
    } else {
        word
    }
}

/// A number of points.
fn points_in(word: &[u8]) -> Option<u32>
    ensures { result ≡ decimal_up_to 99999999 word.now }
{
    match read_decimal(word, MOST_POINTS) {
        Some(points) => Some(points as u32),
        None => None,
    }
}

/// The length that a word says.
fn length_in(word: &[u8]) -> Option<u32>
    ensures { result ≡ length_in word.now }
{
    if word == b"unlimited".as_slice() {
        Some(UNLIMITED)
    } else {
        points_in(word)
    }
}

/// The numbers that three words are.
fn numbers(length: &[u8], own: &[u8], other: &[u8]) -> Option<(u32, u32, u32)>
    ensures { result ≡ numbers_in length.now own.now other.now }
{
    let length = length_in(length)?;
    let own = points_in(own)?;
    let other = points_in(other)?;
    Some((length, own, other))
}

/// Whether a text has nothing but spaces.
fn is_blank(text: &[u8]) -> bool
    ensures { result ≡ is_blank text.now }
{
    after_spaces(text).is_empty()
}

/// A match by the name's word, if it is one and the rest of the row is right.
fn row(word: &[u8], is_right: bool, numbers: Option<(u32, u32, u32)>) -> SavedRecord
    ensures { IsRowIf result word.now (is_right && is_name (bare word.now)) numbers }
{
    let bare = after_star(after_star(word));
    let mut saved = SavedRecord {
        name: no_name(),
        length: 0,
        score: [0, 0],
        there: 0,
    };
    if !is_right {
        return saved;
    }
    if let Some(name) = Name::new(bare) {
        if let Some((length, own, other)) = numbers {
            saved.name = name_record(&name);
            saved.length = length;
            saved.score = [own, other];
            saved.there = if bare.len() < word.len() { 1 } else { 0 };
        }
    }
    saved
}

/// The match that a row of the answer to `show saved` says; if the text is no such row, all is 0.
#[unsafe(no_mangle)]
pub extern "C" fn fibs_saved_match(text: &[u8], saved: &mut SavedRecord)
    ensures { IsSaved saved.new text.now }
{
    let (name, rest) = first_word(text);
    let (length, rest) = first_word(rest);
    let (own, rest) = first_word(rest);
    let (dash, rest) = first_word(rest);
    let (other, rest) = first_word(rest);
    let is_right = dash == b"-".as_slice() && is_blank(rest);
    *saved = row(name, is_right, numbers(length, own, other));
}

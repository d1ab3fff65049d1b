//! Rows that are no wider than a terminal.
ghost use Rattle.std.specs.Prelude.{◌≡◌, map};
ghost use Rattle.fibs_wording.specs.Broken.{spaced};

use bstr::decode_utf8;
use unicode_width::UnicodeWidthChar;

/// Whether a byte is one of a character of UTF-8 after its first: it takes no column of its own.
fn continues(byte: u8) -> bool {
    byte >= 128 && byte < 192
}

/// How many columns the character takes that begins at a place.
fn columns_at(text: &[u8], place: usize) -> usize {
    if place >= text.len() || text[place] < 128 {
        return 1;
    }
    match decode_utf8(&text[place..]).0 {
        Some(c) => c.width().unwrap_or(1),
        None => 1,
    }
}

/// Puts a line end in place of a space; nothing for any other byte.
fn end_row(text: &mut Vec<u8>, place: usize)
    ensures { map spaced text.new.items ≡ map spaced text.old.items }
{
    if place < text.len() && text[place] == b' ' {
        text[place] = b'\n';
    }
}

/// Makes rows of what a text has from a place on, each no wider than these columns if no word is: some of its spaces
/// become line ends, and nothing else changes.
pub fn break_at_spaces(start: usize, columns: usize, text: &mut Vec<u8>)
    ensures { map spaced text.new.items ≡ map spaced text.old.items }
{
    let mut column = 0usize;
    let mut since_space = 0usize;
    let mut space = text.len();
    for place in start..text.len() {
        let byte = if place < text.len() {
            text[place]
        } else {
            b' '
        };
        if byte == b'\n' {
            column = 0;
            since_space = 0;
            space = text.len();
        } else if !continues(byte) {
            let taken = columns_at(text.as_slice(), place);
            column = column.saturating_add(taken);
            since_space = since_space.saturating_add(taken);
        }
        if byte != b' ' && column > columns && space < text.len() {
            end_row(text, space);
            column = since_space;
            space = text.len();
        }
        if byte == b' ' {
            space = place;
            since_space = 0;
        }
    }
}

/// The first bytes of a text, at most so many, and without a part of a letter at their end.
pub fn front_of(text: &[u8], most: usize) -> &[u8] {
    let mut len = text.len().min(most);
    // a character has at most three bytes after its first
    for _ in 0..3 {
        if len < text.len() && continues(text[len]) {
            len = len.saturating_sub(1);
        }
    }
    &text[..len.min(text.len())]
}

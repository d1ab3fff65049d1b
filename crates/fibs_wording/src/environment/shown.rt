//! Bytes of a server as a terminal shows them: none of them acts on it.
ghost use Rattle.std.specs.Prelude.{◌≡◌, ◌++◌, ◌-◌, OnOk, length, replicate};
ghost use Rattle.fibs_wording.specs.Shown.{AddsShown};

use fibs_fields::hex::hex_escape;
use std::alloc::AllocError;
use unicode_width::UnicodeWidthChar;

/// The blocks of Unicode beyond letters that a terminal shows: the signs of Latin-1, dashes and quotation marks, signs
/// of currencies, arrows and mathematics, symbols, and pictures. Controls, spaces and marks of direction are in none.
const SIGNS: [(char, char); 7] = [
    ('\u{a1}', '\u{ac}'),
    ('\u{ae}', '\u{bf}'),
    ('\u{2010}', '\u{2027}'),
    ('\u{2030}', '\u{205e}'),
    ('\u{20a0}', '\u{20bf}'),
    ('\u{2190}', '\u{2bff}'),
    ('\u{1f300}', '\u{1faff}'),
];

/// Whether it is one of the signs.
fn is_sign(c: char) -> bool {
    SIGNS.iter().any(|(first, last)| *first <= c && c <= *last)
}

/// Whether it is a letter, a digit or a sign beyond ASCII that takes room on the screen.
fn is_letter(c: char) -> bool {
    !c.is_ascii() && (c.is_alphanumeric() || is_sign(c)) && matches!(c.width(), Some(1) | Some(2))
}

/// Whether a byte is printable ASCII.
fn is_plain(byte: u8) -> bool {
    byte >= 32 && byte <= 126
}

/// Appends a byte: itself, if it is printable ASCII, else `\x` and two hexadecimal digits.
fn append_byte(byte: u8, text: &mut Vec<u8>) -> Result<(), AllocError>
    ensures { OnOk result (AddsShown text.old.items text.new.items) }
{
    if is_plain(byte) {
        return text.extend_from_slice(&[byte]);
    }
    text.extend_from_slice(&hex_escape(byte))
}

/// Appends each byte as if it stood alone.
fn append_bytes(bytes: &[u8], text: &mut Vec<u8>) -> Result<(), AllocError>
    ensures { OnOk result (AddsShown text.old.items text.new.items) }
{
    for byte in bytes {
        append_byte(*byte, text)?;
    }
    Ok(())
}

/// Appends a character: a letter as it is, any other by the escapes of these bytes, which it was read from.
fn append_char(c: char, bytes: &[u8], text: &mut Vec<u8>) -> Result<(), AllocError>
    ensures { OnOk result (AddsShown text.old.items text.new.items) }
{
    if !is_letter(c) {
        return append_bytes(bytes, text);
    }
    let mut room = [0; 4];
    text.extend_from_slice(c.encode_utf8(&mut room).as_bytes())
}

/// Appends the characters of a UTF-8 text.
fn append_text(said: &str, text: &mut Vec<u8>) -> Result<(), AllocError>
    ensures { OnOk result (AddsShown text.old.items text.new.items) }
{
    for c in said.chars() {
        let mut room = [0; 4];
        let bytes = c.encode_utf8(&mut room).as_bytes();
        append_char(c, bytes, text)?;
    }
    Ok(())
}

/// Appends bytes of a server: printable ASCII as it is, and letters, if the terminal has them; any other byte as `\x`
/// and two hexadecimal digits. A letter is written in UTF-8; a byte that begins none is one of Latin-1 (ISO 8859-1), as
/// many clients write it.
pub fn append_shown(bytes: &[u8], letters: bool, text: &mut Vec<u8>) -> Result<(), AllocError>
    ensures { OnOk result (AddsShown text.old.items text.new.items) }
{
    if !letters {
        return append_bytes(bytes, text);
    }
    for chunk in bytes.utf8_chunks() {
        append_text(chunk.valid(), text)?;
        for byte in chunk.invalid() {
            append_char(char::from(*byte), &[*byte], text)?;
        }
    }
    Ok(())
}

/// Appends spaces until a text has so many columns since a place. The text is of ASCII there.
pub fn pad_from(start: usize, columns: usize, text: &mut Vec<u8>) -> Result<(), AllocError>
    ensures { OnOk result (text.new.items ≡ text.old.items
        ++ replicate (columns - (length text.old.items - start)) 32) }
{
    let used = text.len().saturating_sub(start);
    for _ in used..columns {
        text.extend_from_slice(b" ")?;
    }
    Ok(())
}

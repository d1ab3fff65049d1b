//! Bytes in JSON strings: printable ASCII as it is, every other byte as the character of its number.
ghost use Rattle.std.specs.Prelude.{◌≡◌, ◌<◌, ◌++◌, OnOk};
ghost use Rattle.fibs_json.specs.Json.{character, digit, in_string, inside, is_escaped, quoted};

use std::alloc::AllocError;

/// Whether a byte does not stand in a string as it is.
pub(crate) fn is_escaped(byte: u8) -> bool
    ensures { result ≡ is_escaped byte }
{
    byte < 32 || 126 < byte || byte == b'"' || byte == b'\\'
}

/// A hexadecimal digit.
fn digit(value: u8) -> u8
    requires { value < 16 }
    ensures { result ≡ digit value }
{
    if value < 10 { 48 + value } else { 87 + value }
}

/// The character of a byte's number: `\u00` and two hexadecimal digits.
fn character(byte: u8) -> [u8; 6]
    ensures { result ≡ character byte }
{
    [b'\\', b'u', b'0', b'0', digit(byte / 16), digit(byte % 16)]
}

/// Appends a byte as it stands in a string.
fn append_byte(byte: u8, text: &mut Vec<u8>) -> Result<(), AllocError>
    ensures { OnOk result (text.new.items ≡ text.old.items ++ in_string byte) }
{
    if is_escaped(byte) {
        text.extend_from_slice(&character(byte))
    } else {
        text.push(byte)?;
        Ok(())
    }
}

/// Appends bytes as they stand in a string.
fn append_inside(bytes: &[u8], text: &mut Vec<u8>) -> Result<(), AllocError>
    ensures { OnOk result (text.new.items ≡ text.old.items ++ inside bytes.now) }
{
    for byte in bytes {
        append_byte(*byte, text)?;
    }
    Ok(())
}

/// Appends bytes as a string.
pub(crate) fn append_quoted(bytes: &[u8], text: &mut Vec<u8>) -> Result<(), AllocError>
    ensures { OnOk result (text.new.items ≡ text.old.items ++ quoted bytes.now) }
{
    text.push(b'"')?;
    append_inside(bytes, text)?;
    text.push(b'"')?;
    Ok(())
}

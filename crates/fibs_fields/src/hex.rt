//! Bytes that are not shown as they are.
ghost use Rattle.std.specs.Prelude.{◌≡◌};
ghost use Rattle.fibs_fields.specs.Hex.{hex_escape};

const HEX_DIGITS: [u8; 16] = *b"0123456789abcdef";

/// The escape of a byte: `\x` and two hexadecimal digits.
pub fn hex_escape(byte: u8) -> [u8; 4]
    ensures { result ≡ hex_escape byte }
{
    let high = HEX_DIGITS[usize::from(byte / 16)];
    let low = HEX_DIGITS[usize::from(byte % 16)];
    [b'\\', b'x', high, low]
}

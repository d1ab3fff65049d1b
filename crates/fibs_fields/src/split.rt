//! A text is split at a byte.

ghost use Rattle.std.specs.Prelude.{◌≡◌, ◌∷◌, [], IfSome, Some};
ghost use Rattle.bstr.specs.Find.{IsFirstByte, is_byte};
ghost use Rattle.fibs_fields.specs.Split.{seen, before, after};

use crate::runs::short_run;
use bstr::ByteSlice;

/// The first byte of a text and what comes after the second, if that is `byte` and the first is not.
#[inline(always)]
pub(crate) fn one_before(text: &[u8], byte: u8) -> Option<(u8, &[u8])>
    ensures before { IfSome result (λ x. before byte text.now ≡ x.0 ∷ []) }
    ensures after { IfSome result (λ x. after byte text.now ≡ Some x.1.now) }
{
    if text.len() > 1 && text[0] != byte && text[1] == byte {
        Some((text[0], &text[2..]))
    } else {
        None
    }
}

/// Where the first `byte` of a text is. Nearly all fields end within 16 bytes.
///
/// It is not inlined, so that the loops over short fields stay small.
#[inline(never)]
fn place_of(text: &[u8], byte: u8) -> Option<usize>
    ensures { IsFirstByte (is_byte byte) text.now result }
{
    if let Some(at) = short_run(text, 0, 255, byte) {
        return Some(at);
    }
    text.find_byte(byte)
}

/// What comes before the first `byte`, and what comes after it, if there is one.
#[inline(always)]
pub fn split(text: &[u8], byte: u8) -> (&[u8], Option<&[u8]>)
    ensures before { result.0.now ≡ before byte text.now }
    ensures after { seen result.1 ≡ after byte text.now }
{
    // Most fields are one byte or two.
    if text.len() > 2 && text[0] != byte {
        if text[1] == byte {
            return (&text[..1], Some(&text[2..]));
        }
        if text[2] == byte {
            return (&text[..2], Some(&text[3..]));
        }
    }
    match place_of(text, byte) {
        Some(at) => (&text[..at], Some(&text[at + 1..])),
        None => (text, None),
    }
}

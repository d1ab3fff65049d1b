//! Bytes that can be printed as they are, searched in windows.

ghost use Rattle.std.specs.Prelude.{◌≡◌, ◌<◌, ◌+◌, not, map, length};
ghost use Rattle.std.specs.Simd.Lanes.{mask_l};
ghost use Rattle.fibs_lines.specs.Literal.{is_literal};
ghost use Rattle.fibs_lines.specs.Progress.{IsLiteralTo};

use std::simd::prelude::*;

/// How many bytes are tested at once.
const WINDOW: usize = 32;

/// Whether a byte is printable ASCII, but no `\`.
fn is_literal(byte: u8) -> bool
    ensures { result ≡ is_literal byte }
{
    32 <= byte && byte <= 126 && byte != b'\\'
}

/// The bytes of a window that are not literal: bit k is set if byte k is one.
#[inline(always)]
fn others(window: u8x32) -> u64
    ensures { result ≡ mask_l (map (λ byte. not (is_literal byte)) window) }
{
    (window.simd_lt(u8x32::splat(32))
        | window.simd_gt(u8x32::splat(126))
        | window.simd_eq(u8x32::splat(b'\\'))).to_bitmask()
}

/// How many bytes of `bytes` come before the first that is not literal; the first `start` are literal.
#[inline(never)]
fn literal_from(bytes: &[u8], start: usize) -> usize
    requires { IsLiteralTo bytes.now start }
    ensures { IsLiteralTo bytes.now result }
{
    for at in start..bytes.len() {
        if !is_literal(bytes[at]) {
            return at;
        }
    }
    bytes.len()
}

/// The same where less than a window follows: the last one, which begins within those before, is tested again.
#[inline(always)]
fn literal_to_end(bytes: &[u8], start: usize) -> usize
    requires literal { IsLiteralTo bytes.now start }
    requires short { length bytes.now < start + WINDOW }
    ensures { IsLiteralTo bytes.now result }
{
    if bytes.len() < WINDOW {
        return literal_from(bytes, start);
    }
    let last = bytes.len() - WINDOW;
    let found = others(u8x32::from_slice(&bytes[last..]));
    if found != 0 {
        return last + found.trailing_zeros() as usize;
    }
    bytes.len()
}

/// How many bytes of `bytes` come before the first that is not literal.
pub(crate) fn literal_len(bytes: &[u8]) -> usize
    ensures { IsLiteralTo bytes.now result }
{
    let mut at = 0;
    while bytes.len() - at >= WINDOW {
        let found = others(u8x32::from_slice(&bytes[at..]));
        if found != 0 {
            return at + found.trailing_zeros() as usize;
        }
        at += WINDOW;
    }
    literal_to_end(bytes, at)
}

//! How many bytes of a class a text begins with, which is seen by comparing 16 bytes at once.

ghost use Rattle.std.specs.Prelude.{◌≡◌, ◌<◌, IfSome, length, map, slice_index};
ghost use Rattle.std.specs.List.{prefix_len};
ghost use Rattle.std.specs.Simd.Lanes.{mask_l};
ghost use Rattle.fibs_fields.specs.Runs.{is_between, is_outside};

use std::simd::prelude::*;

/// How many bytes are compared at once.
const WINDOW: usize = 16;

/// Whether a byte is from `low` to `high`, and not `except`.
fn is_between(byte: u8, low: u8, high: u8, except: u8) -> bool
    ensures { result ≡ is_between low high except byte }
{
    byte >= low && byte <= high && byte != except
}

/// A mask whose bit k is set if byte k of the window is below `low`, above `high`, or `except`.
#[inline(always)]
#[tactic(auto, using(crate::proofs::FieldLemmas::Runs::outside_mask))]
fn outside(window: u8x16, low: u8, high: u8, except: u8) -> u64
    ensures { result ≡ mask_l (map (is_outside low high except) window) }
{
    let below = window.simd_lt(u8x16::splat(low));
    let above = window.simd_gt(u8x16::splat(high));
    let excepted = window.simd_eq(u8x16::splat(except));
    (below | above | excepted).to_bitmask()
}

/// How many bytes at the front of a text are from `low` to `high` and not `except`, if one of the first 16 is not.
#[inline(always)]
pub(crate) fn short_run(text: &[u8], low: u8, high: u8, except: u8) -> Option<usize>
    ensures run { IfSome result (λ len. len ≡ prefix_len (is_between low high except) text.now) }
    ensures ends { IfSome result (λ len. len < length text.now) }
    ensures byte { IfSome result (λ len. slice_index text.now len < 256) }
{
    if text.len() < WINDOW {
        return None;
    }
    let outside = outside(u8x16::from_slice(text), low, high, except);
    if outside == 0 {
        return None;
    }
    Some(outside.trailing_zeros() as usize)
}

/// How many bytes at the front of a text are from `low` to `high` and not `except`.
#[inline(always)]
pub(crate) fn run_of(text: &[u8], low: u8, high: u8, except: u8) -> usize
    ensures { result ≡ prefix_len (is_between low high except) text.now }
{
    if let Some(len) = short_run(text, low, high, except) {
        return len;
    }
    for i in 0..text.len() {
        if !is_between(text[i], low, high, except) {
            return i;
        }
    }
    text.len()
}

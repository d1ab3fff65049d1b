//! Ratings, in hundredths.

ghost use Rattle.std.specs.Prelude.{◌≡◌, ◌+◌, ◌*◌, ◌<◌, ◌++◌, true, false, length, take, MatchOption, OnOk};
ghost use Rattle.std.specs.Char.{is_ascii_digit};
ghost use Rattle.fibs_fields.specs.Split.{seen};
ghost use Rattle.fibs_fields.specs.Rating.{is_fraction, hundredths_of, rating_in, printed_rating};

use crate::decimal::{append_number, unsigned_number};
use crate::fault::Fault;
use crate::split::split;
use std::alloc::AllocError;

/// The greatest rating.
const HIGHEST: u64 = u32::MAX as u64;

fn is_digit(byte: u8) -> bool
    ensures { result ≡ is_ascii_digit byte }
{
    byte.is_ascii_digit()
}

/// The hundredths after a point, or none if there is no point.
fn hundredths(fraction: Option<&[u8]>) -> Option<u64>
    ensures { MatchOption result (is_fraction (seen fraction.entry) ≡ false) (λ n.
        (is_fraction (seen fraction.entry) ≡ true) × (n ≡ hundredths_of (seen fraction.entry)) × (n < 100)) }
{
    match fraction {
        None => Some(0),
        Some([tenths]) if is_digit(*tenths) => Some(10 * u64::from(*tenths - b'0')),
        Some([tenths, last]) if is_digit(*tenths) && is_digit(*last) => {
            Some(10 * u64::from(*tenths - b'0') + u64::from(*last - b'0'))
        }
        _ => None,
    }
}

/// The hundredths that the text says.
pub(crate) fn rating_in(text: &[u8]) -> Result<u32, Fault>
    ensures { result ≡ rating_in text.now }
{
    let (whole, fraction) = split(text, b'.');
    let Some(fraction) = hundredths(fraction) else {
        return Err(Fault::NotANumber);
    };
    let whole = unsigned_number(whole)?;
    if whole <= HIGHEST / 100 && 100 * whole + fraction <= HIGHEST {
        Ok((100 * whole + fraction) as u32)
    } else {
        Err(Fault::OutOfRange)
    }
}

/// Appends the rating, with two digits after its point.
pub fn append_rating(out: &mut Vec<u8>, rating: u32) -> Result<(), AllocError>
    ensures put { OnOk result (out.new.items ≡ out.old.items ++ printed_rating rating) }
    ensures front { take (length out.old.items) out.new.items ≡ out.old.items }
{
    append_number(rating / 100, out)?;
    let tenths = b'0' + (rating % 100 / 10) as u8;
    let hundredths = b'0' + (rating % 10) as u8;
    out.extend_from_slice(&[b'.', tenths, hundredths])
}

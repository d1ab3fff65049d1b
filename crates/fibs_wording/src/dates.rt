//! Dates and times in words.
ghost use Rattle.std.specs.Prelude.{◌≡◌, ◌++◌, None, OnOk};
ghost use Rattle.fibs_wording.specs.Matches.{unknown};

use crate::environment::pieces::append_all;
use crate::environment::{ClockTime, Zone};
use fibs_fields::decimal::append_number;
use std::alloc::AllocError;

/// The names of the months.
const MONTHS: [&[u8]; 12] = [
    b"January",
    b"February",
    b"March",
    b"April",
    b"May",
    b"June",
    b"July",
    b"August",
    b"September",
    b"October",
    b"November",
    b"December",
];

/// Appends a number by two digits or more.
fn append_two(number: u8, text: &mut Vec<u8>) -> Result<(), AllocError> {
    if number < 10 {
        text.extend_from_slice(b"0")?;
    }
    append_number(number, text)
}

/// Appends a date in words: `5 January 2003`.
fn append_day(shown: &ClockTime, text: &mut Vec<u8>) -> Result<(), AllocError> {
    append_number(shown.day, text)?;
    append_all(&[b" ", month_name(shown.month), b" "], text)?;
    append_number(shown.year, text)
}

/// The name of a month.
fn month_name(month: u8) -> &'static [u8] {
    if month >= 1 && month <= 12 {
        MONTHS[month as usize - 1]
    } else {
        b"?"
    }
}

/// Appends the hour and the minute of a time: `14:05`.
pub fn append_time(seconds: u64, zone: &Zone<'_>, text: &mut Vec<u8>) -> Result<(), AllocError> {
    let Some(shown) = ClockTime::at(seconds, zone) else {
        return text.extend_from_slice(b"--:--");
    };
    append_two(shown.hour, text)?;
    text.extend_from_slice(b":")?;
    append_two(shown.minute, text)
}

/// Appends the date and the time in words: `5 January 2003, 14:05`.
pub fn append_date(seconds: u64, zone: &Zone<'_>, text: &mut Vec<u8>) -> Result<(), AllocError> {
    let Some(shown) = ClockTime::at(seconds, zone) else {
        return append_number(seconds, text);
    };
    append_day(&shown, text)?;
    text.extend_from_slice(b", ")?;
    append_time(seconds, zone, text)
}

/// Appends the date and the time by numbers alone, the year first: `2003-01-05 14:05`; `-` if it is not known.
pub fn append_stamp(
    seconds: Option<u64>,
    zone: &Zone<'_>,
    text: &mut Vec<u8>,
) -> Result<(), AllocError>
    ensures { seconds ≡ None → OnOk result (text.new.items ≡ text.old.items ++ unknown) }
{
    let Some(seconds) = seconds else {
        return text.extend_from_slice(b"-");
    };
    let Some(shown) = ClockTime::at(seconds, zone) else {
        return text.extend_from_slice(b"-");
    };
    append_number(shown.year, text)?;
    text.extend_from_slice(b"-")?;
    append_two(shown.month, text)?;
    text.extend_from_slice(b"-")?;
    append_two(shown.day, text)?;
    text.extend_from_slice(b" ")?;
    append_time(seconds, zone, text)
}

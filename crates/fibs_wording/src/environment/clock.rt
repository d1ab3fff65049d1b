//! What a clock and a calendar show.

use crate::environment::zone::Zone;
use jiff::Timestamp;

/// The latest time that is shown, in seconds since 1970: it is in the year 9987.
const LATEST: u64 = 253_000_000_000;

/// A date and a time of day, by the clock of a place.
#[derive(Clone, Copy)]
pub struct ClockTime {
    /// The year, as 2003.
    pub year: u16,
    /// The month, from 1 to 12.
    pub month: u8,
    /// The day of the month, from 1 on.
    pub day: u8,
    /// The hour, from 0 to 23.
    pub hour: u8,
    /// The minute, from 0 to 59.
    pub minute: u8,
}

impl ClockTime {
    /// What the clock of a zone shows at a time, which is in seconds since 1970. None if the time is later than the
    /// calendar goes.
    pub fn at(seconds: u64, zone: &Zone<'_>) -> Option<ClockTime> {
        if seconds > LATEST {
            return None;
        }
        let timestamp = Timestamp::from_second(seconds as i64).ok()?;
        let shown = zone.rules.to_datetime(timestamp);
        Some(ClockTime {
            year: shown.year().unsigned_abs(),
            month: shown.month().unsigned_abs(),
            day: shown.day().unsigned_abs(),
            hour: shown.hour().unsigned_abs(),
            minute: shown.minute().unsigned_abs(),
        })
    }
}

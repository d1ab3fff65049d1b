//! The clock of a place.

use jiff::tz::{SystemTimeZone, TimeZone, TimeZoneDatabase};
use jiff::{Error, Timestamp};
use std::env;
use std::env::VarError;
use std::fs::{File, metadata};
use std::io::{ErrorKind, Read};

/// Where the files of the time zones are, unless `TZDIR` names another place.
const ZONES: &str = "/usr/share/zoneinfo";

/// What stands before the name of a zone in the path of its file.
const IN_PATH: &str = "zoneinfo/";

/// The longest file that is read as a time zone. Those of the Time Zone Database have a few thousand bytes.
const MOST_BYTES: u64 = 1 << 20;

/// What the clock of a place shows: by the time zone that `TZ` names, else by that of the system.
#[derive(Drop)]
pub struct Clocks {
    system: Option<SystemTimeZone>,
    /// The zone that `TZ` names, if it names one.
    names: TimeZoneDatabase,
}

/// How far the clock of a place is ahead of UTC, at each time.
#[derive(Clone, Copy)]
pub struct Zone<'a> {
    pub(crate) rules: TimeZone<'a>,
}

impl<'a> Zone<'a> {
    /// The zone whose clock shows UTC.
    pub fn utc() -> Zone<'a> {
        Zone {
            rules: TimeZone::UTC,
        }
    }
}

/// Whether a name leads out of the place of the files.
fn leads_out(name: &str) -> bool {
    for part in name.split('/') {
        if part == ".." {
            return true;
        }
    }
    false
}

/// The bytes of the file of a zone.
fn zone_bytes(rt: &HostRuntime, name: &str) -> Result<Vec<u8>, Error> {
    let alloc = rt.alloc();
    let mut path = match env::var(rt, "TZDIR") {
        Ok(place) => place,
        Err(VarError::OutOfMemory) => return Err(Error::OutOfMemory),
        Err(_) => String::from_str(alloc, ZONES)?,
    };
    path.push('/')?;
    path.push_str(name)?;
    // a pipe or a device might never end
    if !metadata(rt, path.as_str())?.is_file() {
        return Err(Error::Io(ErrorKind::InvalidInput));
    }
    let mut bytes = Vec::new(alloc);
    let mut file = File::open(rt, path.as_str())?.take(MOST_BYTES);
    file.read_to_end(&mut bytes)?;
    Ok(bytes)
}

/// The name of a zone in what `TZ` says: `Europe/Berlin` of `:Europe/Berlin`, and of a path to its file.
fn zone_name(tz: &str) -> &str {
    let path = tz.strip_prefix(':').unwrap_or(tz);
    match path.rfind(IN_PATH) {
        None => path,
        Some(at) => path.get(at + IN_PATH.len()..).unwrap_or(path),
    }
}

/// Reads the zone of a name, if there is one.
fn insert_named(rt: &HostRuntime, name: &str, names: &mut TimeZoneDatabase) {
    if let Ok(bytes) = zone_bytes(rt, name) {
        // what is no time zone is as one that is not there
        let _is_one = names.insert(name, bytes.as_slice());
    }
}

impl Clocks {
    /// The place of the program. A name of a zone has a file in the place of all zones, and no other.
    pub fn read(rt: &HostRuntime) -> Clocks {
        let mut names = TimeZoneDatabase::new(rt.alloc());
        if let Ok(tz) = env::var(rt, "TZ") {
            let name = zone_name(tz.as_str());
            if leads_out(name) {
                return Clocks {
                    system: None,
                    names,
                };
            }
            insert_named(rt, name, &mut names);
        }
        Clocks {
            system: SystemTimeZone::read(rt).ok(),
            names,
        }
    }

    /// Its time zone; UTC if it is not known.
    pub fn zone(&self) -> Zone<'_> {
        match &self.system {
            None => Zone::utc(),
            Some(system) => match system.time_zone(&self.names) {
                Ok(rules) => Zone { rules },
                Err(_) => Zone::utc(),
            },
        }
    }
}

//! TCP's own time limits: a connection whose other end has gone silently is found to be over.
ghost use Rattle.libc.specs.Net.{SockOption};

use libc::net as c;
use std::os::fd::RawFd;

/// After how many quiet seconds the system probes the other end.
const QUIET_SECONDS: i32 = 60;

/// How many seconds there are between two probes.
const BETWEEN_SECONDS: i32 = 15;

/// After how many probes without an answer the connection is over.
const PROBES: i32 = 4;

/// After how many milliseconds the connection is over if what was sent is not received. While it is sent again and
/// again the other end is not probed, and the system's own limit is a quarter of an hour.
const UNRECEIVED_MILLIS: i32 = 120_000;

/// Sets an option of a socket to a number. If it can't be set it stays as it is.
fn set(fd: RawFd, level: i32, name: i32, number: i32)
    requires { SockOption level name }
{
    let mut value = [0u8; 16];
    value[..4].copy_from_slice(&number.to_ne_bytes());
    let _done = unsafe { c::setsockopt(fd, level, name, &value, 4) };
}

/// Asks for these probes and this limit, so that a connection whose other end is gone is over within two minutes,
/// whether or not something was sent.
pub fn keep_alive(fd: RawFd) {
    set(fd, c::IPPROTO_TCP, c::TCP_KEEPIDLE, QUIET_SECONDS);
    set(fd, c::IPPROTO_TCP, c::TCP_KEEPINTVL, BETWEEN_SECONDS);
    set(fd, c::IPPROTO_TCP, c::TCP_KEEPCNT, PROBES);
    set(fd, c::IPPROTO_TCP, c::TCP_USER_TIMEOUT, UNRECEIVED_MILLIS);
    set(fd, c::SOL_SOCKET, c::SO_KEEPALIVE, 1);
}

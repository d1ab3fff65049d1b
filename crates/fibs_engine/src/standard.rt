//! The three standard streams. A program can be started without some of them, and what it opens next, as a connection,
//! would get the number of one: what is printed would go to the server, and what the server says would be a typed line.

use libc::net::poll;
use libc::types::pollfd;
use std::fs::{File, OpenOptions};
use std::io;
use std::os::fd::{IntoRawFd, RawFd};

/// The device that is always there.
const NOTHING: &str = "/dev/null";

/// What `poll` says of a descriptor that is closed.
const NOT_OPEN: i16 = 0x20;

/// Whether a descriptor is closed.
fn is_closed(fd: RawFd) -> bool {
    let mut asked = [pollfd {
        fd,
        events: 0,
        revents: 0,
    }];
    let _ready = poll(&mut asked, 0);
    let [asked] = asked;
    asked.revents & NOT_OPEN != 0
}

/// Opens the device against the direction of a standard stream.
fn open_against(rt: &HostRuntime, fd: RawFd) -> io::Result<File> {
    if fd == libc::STDIN_FILENO {
        OpenOptions::new().write(true).open(rt, NOTHING)
    } else {
        File::open(rt, NOTHING)
    }
}

/// Takes the number of each standard stream that is closed, so that nothing else gets it: call it before anything is
/// opened. Each call of such a stream fails, as that of a closed one: the standard input can only be written, and the
/// others can only be read.
///
/// Errors: a stream is closed, and its number can't be taken.
pub fn take_closed(rt: &HostRuntime) -> io::Result<()> {
    for fd in [libc::STDIN_FILENO, libc::STDOUT_FILENO, libc::STDERR_FILENO] {
        if is_closed(fd) {
            // it gets the lowest number that is free, and those below are taken
            let _stays_open = open_against(rt, fd)?.into_raw_fd();
        }
    }
    Ok(())
}

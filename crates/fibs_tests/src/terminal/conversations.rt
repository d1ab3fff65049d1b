//! A conversation at a terminal, if memory is refused.

use super::lines::{MOVED, SETTINGS, TO_MOVE, TO_ROLL, WELCOME};
use super::seats::{Cue, narrow_settings, show_on};
use arrayvec::ArrayVec;
use std::process::Abort;

/// A conversation in which each kind of text is made.
static OF_EACH_KIND: [Cue<'static>; 33] = [
    Cue::Fails,
    Cue::Opens,
    Cue::Hears(b"login: "),
    Cue::Rests,
    Cue::Hears(WELCOME),
    Cue::Hears(SETTINGS),
    Cue::Hears(b"5 bob ann - 0 0 1623.45 0 0 1 host - -\r\n"),
    Cue::Hears(b"5 carol - bob 0 1 1701.00 0 0 1 host - -\r\n"),
    Cue::Hears(b"6\r\n"),
    Cue::Types(b"players"),
    Cue::Types(b"gag carol"),
    Cue::Types(b"quiet"),
    Cue::Hears(b"12 bob hi\r\n"),
    Cue::Hears(TO_ROLL),
    Cue::Rests,
    Cue::Types(b"ROLL "),
    Cue::Hears(b"** Not now.\r\n"),
    Cue::Rests,
    Cue::Types(b"send roll"),
    Cue::Hears(b"** You can't roll now.\r\n"),
    Cue::Hears(TO_ROLL),
    Cue::Rests,
    Cue::Types(b"leave"),
    Cue::Hears(b"bob wants to resign.\r\n"),
    Cue::Hears(TO_MOVE),
    Cue::Rests,
    Cue::Types(b"help move"),
    Cue::Types(b"plays"),
    Cue::Types(b"move 23-22"),
    Cue::Types(b"24/16"),
    Cue::Hears(MOVED),
    Cue::Hears(b"12\r\n"),
    Cue::Loses,
];

/// How a conversation of each kind goes with what memory there is: what was shown, and whether it came to its end.
fn tried(rt: &(impl Abort + AllocGlobal)) -> (ArrayVec<u8, 8192>, bool) {
    let mut text = ArrayVec::new();
    let ended = show_on(rt, narrow_settings(), &OF_EACH_KIND, &mut text).is_ok();
    (text, ended)
}

/// Whether what was shown first and what was shown then fit: both came to the end and are the same, or one did, of
/// which the other is the beginning.
fn are_alike(first: &(ArrayVec<u8, 8192>, bool), second: &(ArrayVec<u8, 8192>, bool)) -> bool {
    let (first, ended) = (first.0.as_slice(), first.1);
    let (second, ended_again) = (second.0.as_slice(), second.1);
    match (ended, ended_again) {
        (true, true) => first == second,
        (true, false) => first.starts_with(second),
        (false, true) => second.starts_with(first),
        (false, false) => false,
    }
}

/// If memory is refused the terminal goes no further, and has shown the beginning of what it shows otherwise.
#[test]
fn a_terminal_stops_under_refused_memory(rt: HostRuntime) {
    let first = tried(&rt);
    let second = tried(&rt);
    assert!(rt; are_alike(&first, &second));
}

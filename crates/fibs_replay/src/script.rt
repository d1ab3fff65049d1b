//! The lines of a script, and the first of them that is unreadable.
ghost use Rattle.std.specs.Prelude.{◌≡◌, ◌≤◌, ◌<◌, ◌^◌, length};
ghost use Rattle.fibs_replay.specs.Scripts.{script_lines, ReadsEvents, ReadsScript};

use crate::events::{read_board, read_event};
use bstr::{ByteSlice, Lines};

/// A script that was read.
#[derive(Drop)]
pub enum Script {
    /// Each of its lines is readable.
    Readable(Vec<u8>),
    /// It is not run: the number of its first line that is unreadable, or 0 if it is too long.
    Unreadable(usize),
}

/// The lines of a script, one after another, without their ends.
#[tactic(auto, using(crate::proofs::ScriptLemmas::Lines::lines_are))]
pub fn script_lines(script: &[u8]) -> Lines<'_>
    ensures value { result ≡ script_lines script.now }
    ensures few { length result ≤ length script.now }
{
    script.lines()
}

/// The number of the first line that says no event, of the lines after a first one, which has the number 1.
fn first_no_event(lines: &mut Lines<'_>) -> Option<usize>
    requires { length lines.old < 2 ^ 63 }
    ensures { ReadsEvents result lines.old }
{
    let mut number = 2;
    while let Some(line) = lines.next() {
        if read_event(line).is_none() {
            return Some(number);
        }
        number += 1;
    }
    None
}

/// The number of the first line of a script that is unreadable, counted from 1; None if each is readable. The first
/// line has to be there and to say a board, and each other one an event.
pub(crate) fn first_unreadable(script: &[u8]) -> Option<usize>
    requires { length script.now < 2 ^ 63 }
    ensures { ReadsScript result (script_lines script.now) }
{
    let mut lines = script_lines(script);
    match lines.next() {
        None => Some(1),
        Some(first) => match read_board(first) {
            None => Some(1),
            Some(_) => first_no_event(&mut lines),
        },
    }
}

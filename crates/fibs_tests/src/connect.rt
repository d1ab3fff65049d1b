//! Conversations in memory. If the directory has no memory for a player, they say so, and go on.

use super::outcomes::assert_is;
use fibs_connect::converse_with;
use fibs_connect::watch::Unwatched;
use fibs_engine::dial::Dial;
use fibs_test_tools::outcome::Outcome;
use fibs_test_tools::pipe::{After, Pipe, QUIET};
use fibs_test_tools::text::joined;
use std::alloc::Global;
use std::io::{ErrorKind, Read};
use std::process::Abort;

/// A server in memory: what each connection gives, how many bytes it takes, and how many connections there are.
#[derive(Drop)]
struct Door<'a> {
    input: &'a [u8],
    room: usize,
    connections: u32,
}

impl<'a> Dial for Door<'a> {
    type Stream = Pipe<'a>;

    fn dial(&mut self) -> Result<Pipe<'a>, ErrorKind> {
        if self.connections == 0 {
            return Err(ErrorKind::ConnectionRefused);
        }
        self.connections -= 1;
        Ok(Pipe::new(self.input, 7, QUIET, self.room))
    }
}

/// How a conversation ends in which what is typed is read so often at most, and what is printed on both writers, of
/// which the first takes `room` bytes.
fn conversed<D: Dial>(
    alloc: Global,
    door: &mut D,
    typed: &mut impl Read,
    reads: u32,
    room: usize,
) -> Outcome {
    let mut out = Pipe::new(b"", 1, After::End, room);
    let mut err = Pipe::new(b"", 1, After::End, 1024);
    let watch = &mut Unwatched;
    let ending = converse_with(door, alloc, b"ann", reads, typed, watch, &mut out, &mut err);
    Outcome::new(ending, out.output(), err.output())
}

/// What is printed if a note is refused.
const REFUSED: &[u8] = b"directory 1 Memory\n";

/// What the server sends.
static HEARD: &[&[u8]] = &[
    b"1 ann 1041253132 localhost\r\n",
    b"5 someplayer mgnu_advanced - 0 0 1912.15 827 8 1040515752 192.168.143.5 3DFiBs -\r\n",
    b"5 bob - - 1 0 1500 0 3 1040515752 host - -\r\n",
    b"5 bob someplayer - 1 0 1512.34 5 0 1040515752 host - -\r\n",
];

/// What is printed for each line of it.
const WELCOME: &[u8] = b"message 1 ann 1041253132 localhost\n";

const ONE: &[u8] =
    b"message 5 someplayer mgnu_advanced - 0 0 1912.15 827 8 1040515752 192.168.143.5 3DFiBs -\n";

const TWO: &[u8] = b"message 5 bob - - 1 0 1500 0 3 1040515752 host - -\n";

const AGAIN: &[u8] = b"message 5 bob someplayer - 1 0 1512.34 5 0 1040515752 host - -\n";

/// What is printed for the commands that follow, if both players are known as they were said last, if the second is,
/// and if the second is as it was said first.
const BOTH: &[u8] = b"player someplayer 1912.15\nplayer bob 1512.34\nrefused 3 NotReady\n";

const BOB: &[u8] = b"player bob 1512.34\nrefused 3 NotReady\n";

const OLD: &[u8] = b"player someplayer 1912.15\nplayer bob 1500.00\nrefused 3 NotReady\n";

/// What is printed if no note is refused, and if one of the three is.
static PRINTED: [&[&[u8]]; 4] = [
    &[WELCOME, ONE, TWO, AGAIN, BOTH],
    &[WELCOME, ONE, REFUSED, TWO, AGAIN, BOB],
    &[WELCOME, ONE, TWO, REFUSED, AGAIN, BOTH],
    &[WELCOME, ONE, TWO, AGAIN, REFUSED, OLD],
];

/// Whether the text is one of these, each in parts.
fn is_one_of(text: &[u8], rows: &[&[&[u8]]]) -> bool {
    for parts in rows {
        if joined(parts).as_slice() == text {
            return true;
        }
    }
    false
}

/// Whether a conversation ended well, and one of the texts is printed.
fn is_well(outcome: &Outcome) -> bool {
    let is_ended = outcome.ending == Ok(0) && outcome.err.is_empty();
    is_ended && is_one_of(&outcome.out, &PRINTED)
}

/// How a conversation ends in which the server sends some lines at once, and what is printed on both writers.
fn heard_at_once(alloc: Global, input: &[u8]) -> Outcome {
    let mut door = Door {
        input,
        room: 4096,
        connections: 1,
    };
    let mut typed = Pipe::new(b"secret\n\nplayers\nroll\nquit\n", 7, After::End, 0);
    conversed(alloc, &mut door, &mut typed, 1000, 1024)
}

/// Asserts that the conversation, once more, goes well, and what it prints.
fn assert_heard(rt: &(impl Abort + AllocGlobal), input: &[u8], wanted: &[u8]) {
    let outcome = heard_at_once(rt.alloc(), input);
    assert_is(rt, "once more", 0, &outcome, Ok(0), [wanted, b""]);
}

/// If a note is refused, the conversation says so and goes on: it never ends because memory ran out, and it knows the
/// players that were noted.
#[test]
fn conversations_go_on_under_refused_memory(rt: HostRuntime) {
    let input = joined(HEARD);
    let outcome = heard_at_once(rt.alloc(), &input);
    let is_well = is_well(&outcome);
    assert!(rt; is_well, "it goes on, and says what is refused");
    let wanted = joined(PRINTED[0]);
    if outcome.out.as_slice() != wanted.as_slice() {
        assert_heard(&rt, &input, &wanted);
    }
}

//! Scripts from end to end, if memory is refused: what is printed for them, and how they end.

use crate::boards::{MUST_ROLL, ONE_STEP, ROLLED, STEPPED, TO_MOVE, TO_ROLL};
use fibs_engine::fault::EngineFault;
use fibs_replay::replay;
use fibs_test_tools::outcome::Outcome;
use fibs_test_tools::pipe::{After, Pipe};
use fibs_test_tools::text::joined;
use std::alloc::Global;
use std::process::Abort;

/// Eight events behind the first board: the client logs in, is welcomed and informed, and is shown the board twice.
pub const LOGS_IN: &[u8] = b"
open
serve 1 1 1
text 1 ann 1041253132 localhost
text 2 ann 1 1 0 0 0 0 1 1 10 0 1 0 1 1500.00 0 0 0 0 0 UTC
deliver 10000
serve 1 1 1
serve 1 1 1
deliver 10000
";

/// The same on a second connection.
const LOGS_IN_AGAIN: &[u8] = b"open
serve 2 1 1
text 1 ann 1041253132 localhost
text 2 ann 1 1 0 0 0 0 1 1 10 0 1 0 1 1500.00 0 0 0 0 0 UTC
deliver 10000
serve 2 1 1
serve 2 1 1
deliver 10000
";

/// How a script ends that is read in portions of at most so many bytes, and what is printed.
pub fn replayed(alloc: Global, script: &[u8], most: usize) -> Outcome {
    replayed_into(alloc, script, most, After::End, 4096)
}

/// The same with what follows the script, if so many bytes may be printed.
fn replayed_into(alloc: Global, script: &[u8], most: usize, after: After, room: usize) -> Outcome {
    let mut reader = Pipe::new(script, most, after, 0);
    let mut writer = Pipe::new(b"", 1, After::End, room);
    let ending = replay(alloc, &mut reader, &mut writer);
    Outcome::new(ending, writer.output(), b"")
}

/// Asserts how a script ended, and that this was printed. The name and the number say which case it is.
pub fn assert_is(
    rt: &impl Abort,
    name: &str,
    at: usize,
    outcome: &Outcome,
    ending: Result<u8, EngineFault>,
    printed: &[u8],
) {
    assert!(rt;
        outcome.is(ending, printed, b""),
        "{name}, at {at}: {outcome:?}"
    );
}

/// A second click before the answer comes, and one after it; at the end nothing is left to serve.
pub static SECOND_CLICK: &[&[u8]] = &[
    TO_ROLL,
    LOGS_IN,
    b"click roll\nclick roll\nserve 1 6 2\ndeliver 10000\nclick roll\nserve 1 1 1\n",
];

static SECOND_CLICK_PRINTED: &[&[u8]] = &[
    b"opened 1\nloggedin 1\nwelcomed 1\ninformed 1 0 0\nshown 1 ",
    TO_ROLL,
    b"\nshown 1 ",
    TO_ROLL,
    b"\nclicked 1 ok\nsent 1 ",
    TO_ROLL,
    b" roll\nclicked 1 Waiting\ntook 1 ",
    TO_ROLL,
    b" roll\nshown 1 ",
    TO_MOVE,
    b"\nclicked 1 WrongKind\nrefused 13 5 NothingToServe\n",
];

/// A play that a loss leaves on its way; the next connection is shown what came of it.
pub static LOST_PLAY: &[&[u8]] = &[
    ONE_STEP,
    LOGS_IN,
    b"click move 24-18\nlose 10000\nserve 1 1 1\n",
    LOGS_IN_AGAIN,
    b"click roll\n",
];

static LOST_PLAY_PRINTED: &[&[u8]] = &[
    b"opened 1\nloggedin 1\nwelcomed 1\ninformed 1 0 0\nshown 1 ",
    ONE_STEP,
    b"\nshown 1 ",
    ONE_STEP,
    b"\nclicked 1 ok\nsent 1 ",
    ONE_STEP,
    b" move 24-18\nlost 1 ",
    ONE_STEP,
    b" move 24-18\ntook 1 ",
    ONE_STEP,
    b" move 24-18\nopened 2\nloggedin 2\nwelcomed 2\ninformed 2 0 0\nshown 2 ",
    STEPPED,
    b"\nshown 2 ",
    STEPPED,
    b"\nclicked 2 NotYours\nend 20\n",
];

/// Ten events after the first board: a client that is to roll by itself, which it is told twice, logs in.
const LOGS_IN_ORDERED: &[u8] = b"
open
order roll
order roll
serve 1 1 1
text 1 ann 1041253132 localhost
text 2 ann 1 1 0 0 0 0 1 1 10 0 1 0 1 1500.00 0 0 0 0 0 UTC
deliver 10000
serve 1 1 1
serve 1 1 1
deliver 10000
";

/// The client rolls by itself on the first of two boards that come together; then the order is withdrawn.
pub static STANDING_ORDER: &[&[u8]] = &[
    MUST_ROLL,
    LOGS_IN_ORDERED,
    b"click roll\nserve 1 6 2\nwithdraw roll\ndeliver 10000\n",
];

static STANDING_ORDER_PRINTED: &[&[u8]] = &[
    b"opened 1\nordered 1\nloggedin 1\nwelcomed 1\ninformed 1 0 0\nshown 1 ",
    MUST_ROLL,
    b"\nsent 1 ",
    MUST_ROLL,
    b" roll\nshown 1 ",
    MUST_ROLL,
    b"\nclicked 1 Waiting\ntook 1 ",
    MUST_ROLL,
    b" roll\nwithdrawn 1\nshown 1 ",
    ROLLED,
    b"\nend 14\n",
];

/// The lines of a text but its last.
fn without_last_line(text: &[u8]) -> &[u8] {
    let mut last = 0;
    for at in 0..text.len().saturating_sub(1) {
        if text[at] == b'\n' {
            last = at + 1;
        }
    }
    text.get(..last).unwrap_or(text)
}

/// Whether the text is the log after some of the script's events, the first ones, and nothing else.
fn is_log_so_far(alloc: Global, script: &[u8], text: &[u8]) -> bool {
    for end in 0..script.len() {
        if script[end] == b'\n' {
            let outcome = replayed(alloc, &script[..end], 4096);
            if without_last_line(outcome.out.as_slice()) == text {
                return true;
            }
        }
    }
    false
}

/// Asserts the same.
pub fn assert_so_far(rt: &(impl Abort + AllocGlobal), script: &[u8], text: &[u8]) {
    let is_so_far = is_log_so_far(rt.alloc(), script, text);
    assert!(rt; is_so_far, "{text:?}");
}

/// If memory runs out, the log after the events done so far is printed, and the script can be replayed as before.
fn assert_replayed_again(
    rt: &(impl Abort + AllocGlobal),
    script: &[&[u8]],
    status: u8,
    printed: &[&[u8]],
) {
    let script = joined(script);
    let wanted = joined(printed);
    for most in [64, 4096] {
        assert_cut_again(rt, &script, most, status, &wanted);
    }
}

/// The same if the script is read in portions of at most so many bytes.
fn assert_cut_again(
    rt: &(impl Abort + AllocGlobal),
    script: &[u8],
    most: usize,
    status: u8,
    wanted: &[u8],
) {
    let mut outcome = replayed(rt.alloc(), script, most);
    if outcome.ending == Err(EngineFault::Memory) {
        assert_so_far(rt, script, &outcome.out);
        outcome = replayed(rt.alloc(), script, most);
    }
    assert_is(rt, "once more", most, &outcome, Ok(status), wanted);
}

#[test]
fn a_second_click_is_replayed_under_refused_memory(rt: HostRuntime) {
    assert_replayed_again(&rt, SECOND_CLICK, 3, SECOND_CLICK_PRINTED);
}

#[test]
fn a_standing_order_is_replayed_under_refused_memory(rt: HostRuntime) {
    assert_replayed_again(&rt, STANDING_ORDER, 0, STANDING_ORDER_PRINTED);
}

#[test]
fn a_lost_play_is_replayed_under_refused_memory(rt: HostRuntime) {
    assert_replayed_again(&rt, LOST_PLAY, 0, LOST_PLAY_PRINTED);
}

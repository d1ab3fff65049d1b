//! The engines over streams in memory.
use super::outcomes::assert_is;
use fibs_engine::fault::EngineFault;
use fibs_show::show::show;
use fibs_test_tools::outcome::Outcome;
use fibs_test_tools::pipe::{After, Pipe};
use fibs_test_tools::text::{TEXT_ROOM, Text, joined};
use std::alloc::Global;
use std::process::Abort;

/// A board as the server sends it, up to its fifth field, from there up to its last, and its last.
const FRONT: &[u8] = b"board:You:someplayer:3:0";

static MIDDLE: &[u8] =
    b":1:0:-2:0:0:0:0:5:0:3:0:0:0:-5:5:0:0:0:-3:0:-5:0:0:0:0:2:0:1:6:2:0:0:1:1:1:0:1:-1:0:25:0:0:0:0:2:0:0";

const LAST: &[u8] = b":0";

/// How `show` ends that reads `input` in portions of at most `most` bytes, and what it prints if `room` bytes may be.
fn shown(alloc: Global, input: &[u8], most: usize, after: After, room: usize) -> Outcome {
    let mut reader = Pipe::new(input, most, after, 0);
    let mut writer = Pipe::new(b"", 1, After::End, room);
    let ending = show(alloc, &mut reader, &mut writer);
    Outcome::new(ending, writer.output(), b"")
}

/// The same if it is read in portions of at most so many bytes.
fn assert_cut(rt: &(impl Abort + AllocGlobal), input: &[u8], most: usize, wanted: &[u8]) {
    let outcome = shown(rt.alloc(), input, most, After::End, TEXT_ROOM);
    assert_is(rt, "portions", most, &outcome, Ok(0), [wanted, b""]);
}

/// A board line of these parts, with `end` after it.
fn board_line(front: &[u8], last: &[u8], end: &[u8]) -> Text {
    joined(&[front, MIDDLE, last, end])
}

/// The messages of a session, and what is printed for them.
static MESSAGES: [(&[u8], &[u8]); 9] = [
    (
        b"login: 1 myself 1041253132 192.168.1.308\r\n",
        b"message 1 myself 1041253132 192.168.1.308\n",
    ),
    (
        b"> 2 myself 1 1 0 0 0 0 1 1 2396 0 1 0 1 3457.85 0 0 0 0 0 Australia/Melbourne\r\n",
        b"message 2 myself 1 1 0 0 0 0 1 1 2396 0 1 0 1 3457.85 0 0 0 0 0 Australia/Melbourne\n",
    ),
    (
        b"> > 5 someplayer mgnu_advanced - 0 0 1912.15 827 8 1040515752 192.168.143.5 3DFiBs -\r\n",
        b"message 5 someplayer mgnu_advanced - 0 0 1912.15 827 8 1040515752 192.168.143.5 3DFiBs -\n",
    ),
    (
        b"5 bob - - 1 0 1500 0 3 1040515752 host - -\n",
        b"message 5 bob - - 1 0 1500.00 0 3 1040515752 host - -\n",
    ),
    (b"12 bob\n", b"message 12 bob\n"),
    (b"12 eve hi\r there\n", b"message 12 eve hi\\x0d there\n"),
    (b"3 x\n", b"malformed 3 1 Extra\n"),
    (b"5 bob\n", b"malformed 5 2 Missing\n"),
    (b"20 x\n", b"text 20 x\n"),
];

/// Whether the text is some of these lines, the first ones, and not all.
fn are_first_lines(text: &[u8], lines: &[u8]) -> bool {
    lines.starts_with(text)
        && text.len() < lines.len()
        && (text.is_empty() || text.ends_with(b"\n"))
}

/// If a growth is refused, the first lines were written, and another call writes all.
fn assert_shown_again(rt: &(impl Abort + AllocGlobal), input: &[u8], wanted: &[u8]) {
    for most in [2, 50, 5000] {
        assert_cut_again(rt, input, most, wanted);
    }
}

/// The same if the input is read in portions of at most so many bytes.
fn assert_cut_again(rt: &(impl Abort + AllocGlobal), input: &[u8], most: usize, wanted: &[u8]) {
    let outcome = shown(rt.alloc(), input, most, After::End, TEXT_ROOM);
    if outcome.ending == Err(EngineFault::Memory) {
        let are_first = are_first_lines(&outcome.out, wanted);
        assert!(rt; are_first, "the first lines, at {most}");
        assert_cut(rt, input, most, wanted);
    } else {
        assert_is(rt, "all lines", most, &outcome, Ok(0), [wanted, b""]);
    }
}

#[test]
fn shows_lines_of_each_kind_under_refused_memory(rt: HostRuntime) {
    assert_shown_again(
        &rt,
        b"a\nboard:\nbcdefghijklmnopqrstuvwxyz\\\nd",
        b"text a\nmalformed 0 2 BadName\ntext bcdefghijklmnopqrstuvwxyz\\x5c\nunfinished 1\n",
    );
}

/// Adds these bytes to a text.
fn add(text: &mut Text, bytes: &[u8]) {
    let _fits = text.try_extend_from_slice(bytes);
}

/// The messages of a login, and a board.
#[test]
fn shows_messages_under_refused_memory(rt: HostRuntime) {
    let mut input = Text::new();
    let mut wanted = Text::new();
    for (line, printed) in &MESSAGES[..4] {
        add(&mut input, line);
        add(&mut wanted, printed);
    }
    let board = board_line(FRONT, LAST, b"\n");
    add(&mut input, &board);
    add(&mut wanted, &board);
    assert_shown_again(&rt, &input, &wanted);
}

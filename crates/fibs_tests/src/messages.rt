//! Messages as they are printed, if memory is refused.

ghost use Rattle.std.specs.Prelude.{◌<◌, length};

use fibs_messages::{Reading, print_message, read};
use std::alloc::{AllocError, Global};
use std::process::Abort;

/// The line of a message, and what is printed for it if that is another line.
type Row = (&'static [u8], &'static [u8]);

const WELCOME: Row = (b"1 myself 1041253132 192.168.1.308", b"");

const OWN_INFO: Row = (
    b"2 myself 1 1 0 0 0 0 1 1 2396 0 1 0 1 3457.85 0 0 0 0 0 Australia/Melbourne",
    b"",
);

const WHO_INFO: Row = (
    b"5 someplayer mgnu_advanced - 0 0 1912.15 827 8 1040515752 192.168.143.5 3DFiBs -",
    b"",
);

const WHO_INFO_RESPELLED: Row = (
    b"5 bob - - 1 0 1500 0 3 1040515752 host - -",
    b"5 bob - - 1 0 1500.00 0 3 1040515752 host - -",
);

/// Messages of a login.
static LOGIN: [Row; 4] = [WELCOME, OWN_INFO, WHO_INFO, WHO_INFO_RESPELLED];

static PRINTED: [Row; 30] = [
    // Lines of the CLIP specification, which are printed as they came.
    WELCOME,
    OWN_INFO,
    (b"3", b""),
    (b"4", b""),
    WHO_INFO,
    (b"6", b""),
    (b"7 someplayer someplayer logs in.", b""),
    (b"8 someplayer someplayer drops connection.", b""),
    (
        b"9 someplayer 1041253132 I'll log in at 10pm if you want to finish that game.",
        b"",
    ),
    (b"10 someplayer", b""),
    (b"11 someplayer", b""),
    (b"12 someplayer Do you want to play a game?", b""),
    (b"13 someplayer Anybody for a 5 point match?", b""),
    (b"14 someplayer I think he is using loaded dice  :-)", b""),
    (
        b"15 someplayer G'Day and good luck from Hobart, Australia.",
        b"",
    ),
    (
        b"16 someplayer What's this \"G'Day\" stuff you hick?  :-)",
        b"",
    ),
    (b"17 Watch out for someplayer.  He's a Tasmanian.", b""),
    (b"18 Hello and hope you enjoy watching this game.", b""),
    (b"19 Are you sure those dice aren't loaded?", b""),
    // Other spellings.
    WHO_INFO_RESPELLED,
    (
        b"5 bob - - 1 0 0.5 0 3 1040515752 host -  a b  ",
        b"5 bob - - 1 0 0.50 0 3 1040515752 host -  a b",
    ),
    (
        b"5 bob - - 1 0 42949672.95 18446744073709551615 3 0 host - -",
        b"",
    ),
    (b"1 bob 5 host  ", b"1 bob 5 host"),
    (b"3   ", b"3"),
    (b"12 bob", b""),
    (b"12 bob ", b"12 bob"),
    (b"12 bob  x ", b""),
    (b"9 bob 0", b""),
    (b"17", b""),
    (b"17 ", b"17"),
];

/// All of these lines.
fn printed() -> &'static [Row; 30] {
    &PRINTED
}

/// What is printed for the line of a row.
fn printed_of(row: &Row) -> &'static [u8] {
    if row.1.is_empty() { row.0 } else { row.1 }
}

/// Appends what is printed for the line of a message.
fn append_printed(alloc: Global, line: &[u8], out: &mut Vec<u8>) -> Result<(), AllocError> {
    match read(line) {
        Reading::Numbered(message) => print_message(alloc, &message, out),
        _ => Ok(()),
    }
}

/// Appends what is printed for each of these lines.
fn append_all(alloc: Global, lines: &[Row], out: &mut Vec<u8>) -> Result<(), AllocError> {
    for (line, _) in lines {
        append_printed(alloc, line, out)?;
    }
    Ok(())
}

/// Whether the text is as one that was given some lines, and again after later lines were appended to both.
fn is_as_given(
    alloc: Global,
    text: &mut Vec<u8>,
    given: &[Row],
    later: &[Row],
) -> Result<bool, AllocError> {
    let mut twin = Vec::new(alloc);
    append_all(alloc, given, &mut twin)?;
    let is_same = *text == twin;
    append_all(alloc, later, text)?;
    append_all(alloc, later, &mut twin)?;
    Ok(is_same && *text == twin)
}

/// Appends what is printed for the line of a row. Says whether it is what is wanted.
fn is_appended(alloc: Global, row: &Row, out: &mut Vec<u8>) -> Result<bool, AllocError> {
    let before = out.len();
    append_printed(alloc, row.0, out)?;
    Ok(out.get(before..) == Some(printed_of(row)))
}

/// Appends what is printed for the line at a place. Says whether all is right, and whether a growth was refused: then
/// the text is as one that was given the lines before it, and what is appended later is appended to both.
fn append_at(
    alloc: Global,
    lines: &[Row],
    at: usize,
    out: &mut Vec<u8>,
) -> Result<(bool, bool), AllocError>
    requires { at < length lines.now }
{
    match is_appended(alloc, &lines[at], out) {
        Ok(is_right) => Ok((is_right, false)),
        Err(_refused) => {
            let is_kept = is_as_given(alloc, out, &lines[..at], &lines[at + 1..])?;
            Ok((is_kept, true))
        }
    }
}

/// Appends what is printed for these lines, up to one for which a growth is refused. Says which of them is not right,
/// if one is not.
fn append_up_to_refusal(
    alloc: Global,
    lines: &[Row],
    out: &mut Vec<u8>,
) -> Result<Option<usize>, AllocError> {
    for at in 0..lines.len() {
        let (is_right, is_refused) = append_at(alloc, lines, at, out)?;
        if !is_right {
            return Ok(Some(at));
        }
        if is_refused {
            return Ok(None);
        }
    }
    Ok(None)
}

/// The lines of messages as they are printed in a row, up to one for which a growth is refused.
fn assert_appended(rt: &impl Abort, alloc: Global, lines: &[Row]) {
    let mut out = Vec::new(alloc);
    let wrong = append_up_to_refusal(alloc, lines, &mut out);
    assert!(rt; matches!(wrong, Ok(None)), "{wrong:?}");
}

/// Messages of a login, one after another.
#[test]
fn lines_of_a_login_are_appended_under_refused_memory(rt: HostRuntime) {
    assert_appended(&rt, rt.alloc(), &LOGIN);
}

/// Each message twice, so that each of its fields meets a text that is full, and then a whole one.
#[test]
fn each_message_is_appended_under_refused_memory(rt: HostRuntime) {
    for row in printed() {
        assert_appended(&rt, rt.alloc(), &[*row, *row]);
    }
}

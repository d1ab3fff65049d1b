//! Turns in which the directory has no memory for a player: they say so, and go on.
ghost use Rattle.std.specs.Prelude.{true};
ghost use Rattle.fibs_connect.specs.Turns.Turn.{FitsStream};

use super::connected::{TalkCue, TestSeat, is_made_of};
use fibs_session::Directory;
use fibs_test_tools::pipe::QUIET;
use fibs_test_tools::text::Text;
use std::alloc::{AllocError, Global};
use std::process::Abort;
use std::test::Fail;

/// What is printed if a note is refused.
const REFUSED: &[u8] = b"directory 1 Memory\n";

/// A step, and what is printed in it.
type Row = (TalkCue<'static>, &'static [u8]);

/// What the server sends, and a decision that is typed then.
static TAKEN: [Row; 9] = [
    (
        TalkCue::Hears(&[b"1 ann 1041253132 localhost\r\n"]),
        b"message 1 ann 1041253132 localhost\n",
    ),
    (
        TalkCue::Hears(&[
            b"5 someplayer mgnu_advanced - 0 0 1912.15 827 8 1040515752 192.168.143.5 3DFiBs -\r\n",
        ]),
        b"message 5 someplayer mgnu_advanced - 0 0 1912.15 827 8 1040515752 192.168.143.5 3DFiBs -\n",
    ),
    (
        TalkCue::Hears(&[b"5 bob - - 1 0 1500 0 3 1040515752 host - -\r\n"]),
        b"message 5 bob - - 1 0 1500 0 3 1040515752 host - -\n",
    ),
    (
        TalkCue::Hears(&[b"5 bob someplayer - 1 0 1512.34 5 0 1040515752 host - -\r\n"]),
        b"message 5 bob someplayer - 1 0 1512.34 5 0 1040515752 host - -\n",
    ),
    (
        TalkCue::Hears(&[b"8 someplayer someplayer logs out.\r\n"]),
        b"message 8 someplayer someplayer logs out.\n",
    ),
    (
        TalkCue::Hears(&[b"5 someplayer - - 1 0 1912.15 827 8 1040515752 host - -\r\n"]),
        b"message 5 someplayer - - 1 0 1912.15 827 8 1040515752 host - -\n",
    ),
    (
        TalkCue::Hears(&[b"2 ann 1 1 0 0 0 0 1 1 10 0 1 0 1 1500.00 0 0 0 0 0 UTC\r\n"]),
        b"message 2 ann 1 1 0 0 0 0 1 1 10 0 1 0 1 1500.00 0 0 0 0 0 UTC\n",
    ),
    (
        TalkCue::Hears(&[
            b"board:You:bob:3:0:1:0:-2:0:0:0:0:5:0:3:0:0:0:-5:5:0:0:0:-3:0:-5:0:0:0:0:2:0:\
        1:0:0:0:0:1:1:1:0:1:-1:0:25:0:0:0:0:0:0:0:0\r\n",
        ]),
        b"board:You:bob:3:0:1:0:-2:0:0:0:0:5:0:3:0:0:0:-5:5:0:0:0:-3:0:-5:0:0:0:0:2:0:\
        1:0:0:0:0:1:1:1:0:1:-1:0:25:0:0:0:0:0:0:0:0\nphase RollOrDouble\n",
    ),
    (TalkCue::Types(b"roll", &[]), b"sent roll\n"),
];

/// What is known of each player.
fn players_of(alloc: Global, directory: &Directory) -> Result<Text, AllocError> {
    let mut text = Text::new();
    for place in 0..directory.len() {
        let player = format!(in alloc; "{:?}", directory.at(place))?;
        let _fits = text.try_extend_from_slice(player.as_bytes());
    }
    Ok(text)
}

/// A seat that has taken these steps.
fn seat_after(rt: &(impl Abort + AllocGlobal), rows: &[Row]) -> TestSeat
    ensures { FitsStream result.client true }
{
    let mut seat = TestSeat::open(rt, 7);
    for row in rows {
        seat.take(rt, row.0, QUIET);
    }
    seat
}

/// Both seats take a step. Whether they print what they should, and have sent the same and know the same players then.
fn are_alike(
    rt: &(impl Abort + AllocGlobal),
    seat: &mut TestSeat,
    twin: &mut TestSeat,
    row: &Row,
) -> Result<bool, AllocError>
    requires seat { FitsStream seat.old.client true }
    requires twin { FitsStream twin.old.client true }
    ensures seat { FitsStream seat.new.client true }
    ensures twin { FitsStream twin.new.client true }
{
    let is_printed = prints(rt, seat, row);
    let is_printed_too = prints(rt, twin, row);
    let known = players_of(rt.alloc(), &seat.directory)?;
    let is_known = known == players_of(rt.alloc(), &twin.directory)?;
    Ok(is_printed && is_printed_too && is_known && seat.sent == twin.sent)
}

/// A seat takes a step. Whether it prints what it should.
fn prints(rt: &impl Abort, seat: &mut TestSeat, row: &Row) -> bool
    requires { FitsStream seat.old.client true }
    ensures { FitsStream seat.new.client true }
{
    seat.printed.clear();
    seat.take(rt, row.0, QUIET);
    is_made_of(&seat.printed, &[row.1])
}

/// Both seats take these steps: they print and send the same, and know the same players after each.
fn assert_alike(
    rt: &(impl Abort + AllocGlobal),
    seat: &mut TestSeat,
    twin: &mut TestSeat,
    rows: &[Row],
) -> Result<(), AllocError>
    requires seat { FitsStream seat.old.client true }
    requires twin { FitsStream twin.old.client true }
{
    for row in rows {
        let are_alike = are_alike(rt, seat, twin, row)?;
        assert_in(rt, are_alike, row);
    }
    Ok(())
}

/// A seat takes steps up to one in which a note is refused. The turn says so after the line.
fn refused_at(rt: &impl Abort, seat: &mut TestSeat, rows: &[Row]) -> Option<usize>
    requires { FitsStream seat.old.client true }
    ensures { FitsStream seat.new.client true }
{
    for (at, row) in rows.iter().enumerate() {
        if !prints(rt, seat, row) {
            let is_refused = is_made_of(&seat.printed, &[row.1, REFUSED]);
            assert_in(rt, is_refused, row);
            return Some(at);
        }
    }
    None
}

/// Asserts what is right in a step.
fn assert_in(rt: &impl Abort, is_right: bool, row: &Row) {
    assert!(rt; is_right, "{:?}", row.1);
}

/// After a note that is refused, a turn goes on as that of a client to which the line was not sent.
fn assert_goes_on(
    rt: &(impl Abort + AllocGlobal),
    seat: &mut TestSeat,
    rows: &[Row],
) -> Result<(), AllocError>
    requires { FitsStream seat.old.client true }
{
    match refused_at(rt, seat, rows) {
        Some(at) => assert_skips(rt, seat, rows, at),
        None => {
            assert!(rt; seat.directory.len() == 2);
            Ok(())
        }
    }
}

/// A seat to which a step's note was refused takes the rest as one that has not taken the step.
fn assert_skips(
    rt: &(impl Abort + AllocGlobal),
    seat: &mut TestSeat,
    rows: &[Row],
    at: usize,
) -> Result<(), AllocError>
    requires { FitsStream seat.old.client true }
{
    let mut twin = seat_after(rt, rows.get(..at).unwrap_or(rows));
    let rest = rows.get(at.saturating_add(1)..).unwrap_or(&[]);
    assert_alike(rt, seat, &mut twin, rest)
}

#[test]
fn turns_go_on_under_refused_memory(rt: HostRuntime) -> Result<(), Fail> {
    let mut seat = TestSeat::open(&rt, 7);
    assert_goes_on(&rt, &mut seat, &TAKEN)?;
    assert!(rt; seat.sent.ends_with(b"\r\nroll\r\n"));
    Ok(())
}

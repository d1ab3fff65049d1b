//! Scripts that are played over real sockets, if memory is refused.

use crate::boards::TO_ROLL;
use crate::replay::{LOGS_IN, LOST_PLAY, SECOND_CLICK, STANDING_ORDER, assert_so_far};
use fibs_engine::fault::EngineFault;
use fibs_replay::play_loop::play_loop;
use fibs_test_tools::outcome::Outcome;
use fibs_test_tools::pipe::{After, Pipe};
use fibs_test_tools::text::joined;
use std::net::{Net, TcpListener, TcpStream};
use std::process::Abort;

/// A listener on this machine.
fn listen<N: Net<Listener = TcpListener, Stream = TcpStream> + Abort>(rt: &N) -> TcpListener {
    TcpListener::bind(rt, "127.0.0.1:0").expect(rt, "a port is free")
}

/// How a script ends that is played over sockets to the listener, and what is printed.
fn played<N: Net<Stream = TcpStream> + AllocGlobal>(
    rt: &N,
    listener: &TcpListener,
    script: &[u8],
) -> Outcome {
    let mut reader = Pipe::new(script, 100, After::End, 0);
    let mut writer = Pipe::new(b"", 1, After::End, 4096);
    let ending = play_loop(rt, rt.alloc(), listener, &mut reader, &mut writer);
    Outcome::new(ending, writer.output(), b"")
}

/// Asserts that a script ended with this status, and this end of what is printed.
fn assert_ends(rt: &impl Abort, name: &str, outcome: &Outcome, status: u8, end: &[u8]) {
    assert!(rt;
        outcome.ending == Ok(status) && outcome.out.ends_with(end),
        "{name}: {outcome:?}"
    );
}

/// If memory runs out, the log after the events done so far is printed, and the script can be played as before, with
/// this status and this end of what is printed.
fn assert_played_again<N: Net<Listener = TcpListener, Stream = TcpStream> + AllocGlobal + Abort>(
    rt: &N,
    script: &[&[u8]],
    status: u8,
    end: &[u8],
) {
    let listener = listen(rt);
    let script = joined(script);
    let outcome = played(rt, &listener, &script);
    if outcome.ending != Err(EngineFault::Memory) {
        assert_ends(rt, "once", &outcome, status, end);
        return;
    }
    assert_so_far(rt, &script, &outcome.out);
    let again = played(rt, &listener, &script);
    assert_ends(rt, "once more", &again, status, end);
}

#[test]
fn a_second_click_is_played_under_refused_memory(rt: HostRuntime) {
    let end = b"clicked 1 WrongKind\nrefused 13 5 NothingToServe\n";
    assert_played_again(&rt, SECOND_CLICK, 3, end);
}

#[test]
fn a_lost_play_is_played_under_refused_memory(rt: HostRuntime) {
    assert_played_again(&rt, LOST_PLAY, 0, b"clicked 2 NotYours\nend 20\n");
}

#[test]
fn a_standing_order_is_played_under_refused_memory(rt: HostRuntime) {
    assert_played_again(&rt, STANDING_ORDER, 0, b"0:0:0:0:0:0:0:0\nend 14\n");
}

/// The log grows between the two entries of one event: then neither is printed.
#[test]
fn a_click_before_the_connection_is_played_under_refused_memory(rt: HostRuntime) {
    assert_played_again(&rt, &[TO_ROLL, b"\nclick roll", LOGS_IN], 0, b"end 9\n");
}

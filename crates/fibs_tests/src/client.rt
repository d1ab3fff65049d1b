//! A run of a client, if memory is refused.

use crate::boards::{MUST_ROLL, TO_ROLL};
use crate::lines::{INFO, INFO_NO_AUTOBOARD, WELCOME};
use fibs_position::Decision;
use fibs_session::{Input, Login, run_client};
use std::alloc::Global;
use std::process::Abort;

/// The login of the tests.
fn login(rt: &impl Abort) -> Login {
    Login::new(b"ann", b"secret").expect(rt, "it is a login")
}

/// The inputs of a run.
fn inputs_of_a_run() -> [Input<'static>; 25] {
    [
        Input::Open,
        Input::Piece(b"1 ann 1041253132 loc"),
        Input::Piece(b"alhost\r\n> "),
        Input::Click(Decision::Roll),
        Input::Piece(INFO_NO_AUTOBOARD),
        Input::Piece(b"\r\n"),
        Input::Piece(TO_ROLL),
        Input::Piece(b"\r\n"),
        Input::Click(Decision::Roll),
        Input::Click(Decision::Roll),
        Input::Lose,
        Input::Click(Decision::Roll),
        Input::Withdraw,
        Input::Open,
        Input::Order,
        Input::Order,
        Input::Piece(WELCOME),
        Input::Piece(b"\r\n"),
        Input::Piece(INFO),
        Input::Piece(b"\r\n"),
        Input::Piece(MUST_ROLL),
        Input::Piece(b"\r\n"),
        Input::Piece(MUST_ROLL),
        Input::Withdraw,
        Input::Piece(b"\r\n"),
    ]
}

/// Whether this run hands out its commands, if no growth is refused.
fn hands_out(alloc: Global, login: Login) -> Option<bool> {
    let bytes = run_client(alloc, login, &inputs_of_a_run()).ok()?;
    Some(bytes.as_slice() == COMMANDS_OF_A_RUN)
}

/// If a growth is refused, the run says so, and the next one is whole.
#[test]
fn runs_hand_out_their_commands_under_refused_memory(rt: HostRuntime) {
    let mut is_whole = hands_out(rt.alloc(), login(&rt));
    if is_whole.is_none() {
        is_whole = hands_out(rt.alloc(), login(&rt));
    }
    assert!(rt; is_whole == Some(true), "the commands of a run");
}

/// What that run hands out.
static COMMANDS_OF_A_RUN: &[u8] =
    b"login fibs_client 1008 ann secret\r\nset boardstyle 3\r\ntoggle autoboard\r\nboard\r\nroll\r\n\
    login fibs_client 1008 ann secret\r\nset boardstyle 3\r\nboard\r\nroll\r\n";

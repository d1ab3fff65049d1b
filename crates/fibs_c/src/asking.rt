//! What a client says of its connection.

ghost use Rattle.std.specs.Prelude.{◌≡◌, take};
ghost use Rattle.fibs_lines.specs.Lines.{kept_limit, rest_of};
ghost use Rattle.fibs_position.specs.DecisionValue.{roll};
ghost use Rattle.fibs_session.specs.Calls.Standing.{StandsAfter};
ghost use Rattle.fibs_session.specs.History.Machine.{Talk, answer_now, shown_now};
ghost use Rattle.fibs_c.specs.ClientDoor.{IsClientUnfinished, IsReady, IsShownLine, IsShownPrinted, ready_status};
ghost use Rattle.fibs_c.specs.Records.Statuses.{refusal_status};
ghost use Rattle.fibs_c.specs.Records.Texts.{HandsOut};

use crate::records::ClientHandle;
use crate::records::status::{DONE, NO_BOARD, NO_HANDLE, refusal_status};
use crate::records::text::hand_out;
use fibs_position::Decision;
use fibs_session::{Client, Refusal};
use std::alloc::Global;

/// Hands out the bytes that follow the last line end.
fn hand_out_unfinished(client: &Client, text: &mut [u8], len: &mut usize) -> u32
    ensures { (t : Talk) → StandsAfter client.now t →
        HandsOut (take kept_limit (rest_of t.stream)) text.old text.new len.new result }
{
    hand_out(client.unfinished(), text, len)
}

/// The bytes that follow the last line end of the connection, without telnet commands, and at most as many as are kept
/// of a line. They have a prompt of the server, since no line end follows that.
#[unsafe(no_mangle)]
pub extern "C" fn fibs_client_unfinished(
    alloc: Global,
    client: &mut ClientHandle,
    text: &mut [u8],
    len: &mut usize,
) -> u32
    ensures { IsClientUnfinished client.old.value client.new.value text.old text.new len.old len.new result }
{
    with!(ClientHandle, client, alloc, |held| {
        hand_out_unfinished(&held, text, len)
    })
}

/// 0, or why a decision is refused.
fn status_of(refusal: Option<Refusal>) -> u32
    ensures { result ≡ refusal_status refusal }
{
    match refusal {
        None => DONE,
        Some(why) => refusal_status(why),
    }
}

/// 0, or why no decision can be made whatever board is shown.
fn ready_status(client: &Client) -> u32
    ensures { (t : Talk) → StandsAfter client.now t → result ≡ ready_status (refusal_status (answer_now t roll)) }
{
    let status = status_of(client.refusal(&Decision::Roll));
    if status <= 3 { status } else { DONE }
}

/// Whether the server has sent messages 1 and 2 on an open connection: before, it may take a command for a name.
#[unsafe(no_mangle)]
pub extern "C" fn fibs_client_ready(alloc: Global, client: &mut ClientHandle) -> u32
    ensures { IsReady client.old.value client.new.value result }
{
    with!(ClientHandle, client, alloc, |held| { ready_status(&held) })
}

/// Hands out the line of the board that is shown, if one is.
fn hand_out_shown(client: &Client, text: &mut [u8], len: &mut usize) -> u32
    ensures { (t : Talk) → StandsAfter client.now t →
        IsShownPrinted (shown_now t) text.old text.new len.old len.new result }
{
    match client.shown() {
        None => NO_BOARD,
        Some(board) => hand_out(board.print().as_slice(), text, len),
    }
}

/// The line of the board that was shown last on this connection.
#[unsafe(no_mangle)]
pub extern "C" fn fibs_client_shown_line(
    alloc: Global,
    client: &mut ClientHandle,
    text: &mut [u8],
    len: &mut usize,
) -> u32
    ensures { IsShownLine client.old.value client.new.value text.old text.new len.old len.new result }
{
    with!(ClientHandle, client, alloc, |held| {
        hand_out_shown(&held, text, len)
    })
}

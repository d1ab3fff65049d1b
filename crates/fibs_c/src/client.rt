//! The client.

ghost use Rattle.std.specs.Prelude.{◌≡◌, ◌≢◌, None};
ghost use Rattle.fibs_commands.specs.PlainReading.{read_plain};
ghost use Rattle.fibs_session.specs.Calls.SessionOf.{handed, refusal_in};
ghost use Rattle.fibs_session.specs.History.Machine.{wire_of};
ghost use Rattle.fibs_c.specs.ClientDoor.{IsNewClient, IsOpened, IsDecided, IsPlainSent, IsLost, IsShown, IsWaiting};
ghost use Rattle.fibs_c.specs.Records.Decisions.{decision_in};
ghost use Rattle.fibs_c.specs.Records.Statuses.{refusal_status, plain_status};
ghost use Rattle.fibs_c.specs.Records.Wires.{Holds, IsEmptied};

use crate::records::ClientHandle;
use crate::records::boards::{BoardRecord, put_board};
use crate::records::decisions::{DecisionRecord, decision_of};
use crate::records::outstanding::{OutstandingRecord, put_maybe, put_outstanding};
use crate::records::status::{
    DONE, HELD, MEMORY, NO_BOARD, NO_COMMAND, NO_DECISION, NO_HANDLE, NOTHING_WAITS,
    plain_fault_status, plain_refusal_status, refusal_status,
};
use crate::records::wire::{WireRecord, clear, put_command};
use fibs_commands::read_plain;
use fibs_session::{Client, CommandText, Login, PlainRefusal, Refusal};
use std::alloc::Global;

/// Makes a client that never had a connection, for a user's name and password. A handle that holds one stays as it is.
#[unsafe(no_mangle)]
pub extern "C" fn fibs_client_new(
    alloc: Global,
    client: &mut ClientHandle,
    name: &[u8],
    password: &[u8],
) -> u32
    ensures { IsNewClient client.old.value client.new.value name.now password.now result }
{
    if let Some(held) = client.take(alloc) {
        *client = ClientHandle::of(held);
        return HELD;
    }
    match Login::new(name, password) {
        Err(fault) => plain_fault_status(fault),
        Ok(login) => match Box::new(alloc, Client::new(login)) {
            Ok(made) => {
                *client = ClientHandle::of(made);
                DONE
            }
            Err(_) => MEMORY,
        },
    }
}

/// Gives the client's memory back. The handle then holds nothing; a handle that held nothing stays as it is.
#[unsafe(no_mangle)]
pub extern "C" fn fibs_client_free(alloc: Global, client: &mut ClientHandle)
    ensures { client.new.value ≡ None }
{
    drop(client.take(alloc));
}

/// Hands out a command, or says why it does not.
fn hand_out_command(wire: &mut WireRecord, answer: &Result<CommandText, Refusal>) -> u32
    ensures wire { Holds wire.old wire.new (wire_of (handed answer.now)) }
    ensures refused { result ≢ 0 → IsEmptied wire.old wire.new }
    ensures status { result ≡ refusal_status (refusal_in answer.now) }
{
    match answer {
        Ok(command) => {
            put_command(wire, command);
            DONE
        }
        Err(why) => {
            clear(wire);
            refusal_status(*why)
        }
    }
}

/// The same for a plain command.
fn hand_out_plain(wire: &mut WireRecord, answer: &Result<CommandText, PlainRefusal>) -> u32
    ensures wire { Holds wire.old wire.new (wire_of (handed answer.now)) }
    ensures refused { result ≢ 0 → IsEmptied wire.old wire.new }
    ensures status { result ≡ plain_status (refusal_in answer.now) }
{
    match answer {
        Ok(command) => {
            put_command(wire, command);
            DONE
        }
        Err(why) => {
            clear(wire);
            plain_refusal_status(*why)
        }
    }
}

/// Opens a connection, and hands out the login command.
#[unsafe(no_mangle)]
pub extern "C" fn fibs_client_open(
    alloc: Global,
    client: &mut ClientHandle,
    wire: &mut WireRecord,
) -> u32
    ensures { IsOpened client.old.value client.new.value wire.old wire.new result }
{
    clear(wire);
    with!(ClientHandle, client, alloc, |held| {
        hand_out_command(wire, &held.open())
    })
}

/// The user decides; hands out the command.
#[unsafe(no_mangle)]
pub extern "C" fn fibs_client_decide(
    alloc: Global,
    client: &mut ClientHandle,
    decision: &DecisionRecord,
    wire: &mut WireRecord,
) -> u32
    ensures { IsDecided (decision_in decision.now) client.old.value client.new.value wire.old wire.new result }
{
    clear(wire);
    let Some(decision) = decision_of(decision) else {
        return NO_DECISION;
    };
    with!(ClientHandle, client, alloc, |held| {
        hand_out_command(wire, &held.decide(&decision))
    })
}

/// Hands out a command that decides nothing in the game, by its text.
#[unsafe(no_mangle)]
pub extern "C" fn fibs_client_plain(
    alloc: Global,
    client: &mut ClientHandle,
    text: &[u8],
    wire: &mut WireRecord,
) -> u32
    ensures { IsPlainSent (read_plain text.now) client.old.value client.new.value wire.old wire.new result }
{
    clear(wire);
    let Some(plain) = read_plain(text) else {
        return NO_COMMAND;
    };
    with!(ClientHandle, client, alloc, |held| {
        hand_out_plain(wire, &held.plain(&plain))
    })
}

/// The connection is lost: nothing of it is kept. Gives the decision that waited, with its board, or one of kind 0 if
/// none waited. The client never sends it again by itself.
#[unsafe(no_mangle)]
pub extern "C" fn fibs_client_lose(
    alloc: Global,
    client: &mut ClientHandle,
    waited: &mut OutstandingRecord,
) -> u32
    ensures { IsLost client.old.value client.new.value waited.old waited.new result }
{
    with!(ClientHandle, client, alloc, |held| {
        put_maybe(waited, &held.lose());
        DONE
    })
}

/// The board that was shown last on this connection.
#[unsafe(no_mangle)]
pub extern "C" fn fibs_client_shown(
    alloc: Global,
    client: &mut ClientHandle,
    board: &mut BoardRecord,
) -> u32
    ensures { IsShown client.old.value client.new.value board.old board.new result }
{
    with!(ClientHandle, client, alloc, |held| {
        match held.shown() {
            None => NO_BOARD,
            Some(shown) => {
                put_board(board, shown);
                DONE
            }
        }
    })
}

/// The decision that waits, with the board on which it was made.
#[unsafe(no_mangle)]
pub extern "C" fn fibs_client_waiting(
    alloc: Global,
    client: &mut ClientHandle,
    waiting: &mut OutstandingRecord,
) -> u32
    ensures { IsWaiting client.old.value client.new.value waiting.old waiting.new result }
{
    with!(ClientHandle, client, alloc, |held| {
        match held.waiting() {
            None => NOTHING_WAITS,
            Some(waits) => {
                put_outstanding(waiting, waits);
                DONE
            }
        }
    })
}

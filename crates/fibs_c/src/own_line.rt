//! A line that the user sends himself.

ghost use Rattle.std.specs.Prelude.{◌≡◌, ◌≢◌, ◌≤◌, length, not};
ghost use Rattle.std.specs.Result.{result_err};
ghost use Rattle.fibs_commands.specs.PlainCommands.{text_fault};
ghost use Rattle.fibs_session.specs.Calls.Standing.{StandsAfter};
ghost use Rattle.fibs_session.specs.History.Machine.{Talk, is_online, on_wire};
ghost use Rattle.fibs_c.specs.OwnLineDoor.{IsOwnSent, own_refusal, unguarded_refusal};
ghost use Rattle.fibs_c.specs.Records.Wires.{Holds, IsEmptied};

use crate::records::ClientHandle;
use crate::records::status::{DONE, NO_HANDLE, TAKEN, plain_fault_status, refusal_status};
use crate::records::wire::{WireRecord, clear, put_line};
use fibs_commands::{PlainFault, plain_text};
use fibs_session::typed::deciding::decides;
use fibs_session::typed::taking::would_take;
use fibs_session::{Client, Plain, Refusal};
use std::alloc::Global;

/// What is wrong with the text of a line.
#[tactic(auto, unfolding(fibs_commands::specs::PlainCommands::plain_fault_of))]
fn checked(line: &[u8]) -> Result<(), PlainFault>
    ensures { result_err result ≡ text_fault line.now }
{
    match plain_text(&Plain::Say(line)) {
        Ok(_) => Ok(()),
        Err(fault) => Err(fault),
    }
}

/// Whether no connection is open.
#[tactic(auto, unfolding(fibs_commands::specs::PlainCommands::plain_fault_of))]
fn is_offline(client: &Client) -> bool
    ensures { (t : Talk) → StandsAfter client.now t → result ≡ not (is_online t) }
{
    client.plain_refusal(&Plain::Board).is_some()
}

/// Why the client does not let a line go as it is, or 0.
fn own_refusal(client: &Client, line: &[u8]) -> u32
    ensures { (t : Talk) → StandsAfter client.now t → result ≡ own_refusal t line.now }
{
    if is_offline(client) {
        refusal_status(Refusal::Offline)
    } else if would_take(client, line) || decides(client, line) {
        TAKEN
    } else {
        DONE
    }
}

/// Why the client does not let a line go of which its promise says nothing, or 0.
fn unguarded_refusal(client: &Client) -> u32
    ensures { (t : Talk) → StandsAfter client.now t → result ≡ unguarded_refusal t }
{
    if is_offline(client) {
        refusal_status(Refusal::Offline)
    } else {
        DONE
    }
}

/// Hands out a line if there is no status against it.
fn hand_out_line(wire: &mut WireRecord, line: &[u8], status: u32)
    requires { length line.now ≤ 400 }
    ensures sent { status ≡ 0 → Holds wire.old wire.new (on_wire line.now) }
    ensures kept { status ≢ 0 → IsEmptied wire.old wire.new }
{
    clear(wire);
    if status == DONE {
        put_line(wire, line);
    }
}

/// Hands out a line as it is, for what the client has no command for. The client does not know of it, and refuses the
/// line if it would take it itself, or if it decides in the game.
#[unsafe(no_mangle)]
pub extern "C" fn fibs_client_own_line(
    alloc: Global,
    client: &mut ClientHandle,
    line: &[u8],
    wire: &mut WireRecord,
) -> u32
    ensures { IsOwnSent (text_fault line.now) (λ t. own_refusal t line.now) line.now
        client.old.value client.new.value wire.old wire.new result }
{
    clear(wire);
    if let Err(fault) = checked(line) {
        return plain_fault_status(fault);
    }
    with!(ClientHandle, client, alloc, |held| {
        let status = own_refusal(&held, line);
        hand_out_line(wire, line, status);
        status
    })
}

/// Hands out a line as it is, whatever it is: also a decision, which the client then does not know of. What the client
/// promises of decisions does not hold of it.
#[unsafe(no_mangle)]
pub extern "C" fn fibs_client_unguarded_line(
    alloc: Global,
    client: &mut ClientHandle,
    line: &[u8],
    wire: &mut WireRecord,
) -> u32
    ensures { IsOwnSent (text_fault line.now) unguarded_refusal line.now
        client.old.value client.new.value wire.old wire.new result }
{
    clear(wire);
    if let Err(fault) = checked(line) {
        return plain_fault_status(fault);
    }
    with!(ClientHandle, client, alloc, |held| {
        let status = unguarded_refusal(&held);
        hand_out_line(wire, line, status);
        status
    })
}

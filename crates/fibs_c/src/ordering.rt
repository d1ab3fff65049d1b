//! The standing order to roll.

ghost use Rattle.std.specs.Prelude.{◌≡◌};
ghost use Rattle.std.specs.Result.{result_err};
ghost use Rattle.fibs_session.specs.History.Machine.{Order, Withdraw};
ghost use Rattle.fibs_c.specs.OrderDoor.{IsDone, IsOrderTold, order_refusal_now, withdraw_refusal_now};
ghost use Rattle.fibs_c.specs.Records.Statuses.{refusal_status};

use crate::records::ClientHandle;
use crate::records::status::{DONE, NO_HANDLE, refusal_status};
use crate::records::text::flag;
use fibs_session::Refusal;
use std::alloc::Global;

/// 0, or why the client refuses.
fn status_of(answer: Result<(), Refusal>) -> u32
    ensures { result ≡ refusal_status (result_err answer) }
{
    match answer {
        Ok(()) => DONE,
        Err(why) => refusal_status(why),
    }
}

/// Gives a standing order to roll: the client rolls by itself when it is due.
#[unsafe(no_mangle)]
pub extern "C" fn fibs_client_order_roll(alloc: Global, client: &mut ClientHandle) -> u32
    ensures { IsDone Order order_refusal_now client.old.value client.new.value result }
{
    with!(ClientHandle, client, alloc, |held| {
        status_of(held.order_roll())
    })
}

/// Withdraws the standing order to roll. A roll that it sent goes on waiting.
#[unsafe(no_mangle)]
pub extern "C" fn fibs_client_withdraw_roll(alloc: Global, client: &mut ClientHandle) -> u32
    ensures { IsDone Withdraw withdraw_refusal_now client.old.value client.new.value result }
{
    with!(ClientHandle, client, alloc, |held| {
        status_of(held.withdraw_roll())
    })
}

/// Whether a standing order to roll is in force on the open connection.
#[unsafe(no_mangle)]
pub extern "C" fn fibs_client_ordered(
    alloc: Global,
    client: &mut ClientHandle,
    ordered: &mut u8,
) -> u32
    ensures { IsOrderTold client.old.value client.new.value ordered.old ordered.new result }
{
    with!(ClientHandle, client, alloc, |held| {
        *ordered = flag(held.ordered());
        DONE
    })
}

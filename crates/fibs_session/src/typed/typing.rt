//! What a line that the user types is.
ghost use Rattle.std.specs.Prelude.{◌≡◌};
ghost use Rattle.fibs_session.specs.History.Machine.{Talk, shown_now};
ghost use Rattle.fibs_session.specs.Calls.Standing.{StandsAfter};
ghost use Rattle.fibs_session.specs.Typing.{shown_direction, typed_in, typed_now, order_in, is_command};
ghost use Rattle.fibs_session.specs.TypedOf.{typed_value};

use crate::{Client, Plain, read_command, read_plain};
use fibs_position::{Decision, Direction};

/// What was typed.
#[derive(Clone, Copy)]
pub enum Typed<'a> {
    /// A decision.
    Decision(Decision),
    /// A plain command.
    Plain(Plain<'a>),
    /// A standing order to roll.
    Order,
    /// The withdrawal of a standing order to roll.
    Withdrawal,
    /// None of these.
    Unknown,
}

/// The direction of the board that is shown. Without a board it is that of a player who goes down.
pub(crate) fn shown_direction(client: &Client) -> Direction
    ensures { (t : Talk) → StandsAfter client.now t → result ≡ shown_direction (shown_now t) }
{
    client.direction().unwrap_or(Direction::Down)
}

/// Reads a line that is no command: a standing order to roll, or its withdrawal.
fn read_order(text: &[u8]) -> Typed<'_>
    ensures { typed_value result ≡ order_in text.now }
{
    if text == b"order roll".as_slice() {
        Typed::Order
    } else if text == b"withdraw roll".as_slice() {
        Typed::Withdrawal
    } else {
        Typed::Unknown
    }
}

/// Reads a line: a decision in the numbers of a board of this direction, or else a plain command, or else a standing
/// order.
pub(crate) fn read_in(text: &[u8], direction: Direction) -> Typed<'_>
    ensures { typed_value result ≡ typed_in direction text.now }
{
    if let Some(decision) = read_command(text, direction) {
        return Typed::Decision(decision);
    }
    match read_plain(text) {
        Some(plain) => Typed::Plain(plain),
        None => read_order(text),
    }
}

/// Reads a typed line, at the board that the client shows.
pub fn read_typed<'a>(client: &Client, text: &'a [u8]) -> Typed<'a>
    ensures { (t : Talk) → StandsAfter client.now t → typed_value result ≡ typed_now t text.now }
{
    read_in(text, shown_direction(client))
}

/// Whether this is a command, or an order.
pub(crate) fn is_known(typed: &Typed<'_>) -> bool
    ensures { result ≡ is_command (typed_value typed.now) }
{
    match typed {
        Typed::Decision(_) | Typed::Plain(_) | Typed::Order | Typed::Withdrawal => true,
        Typed::Unknown => false,
    }
}

/// Whether a typed line is a decision at the board shown, a plain command, or a standing order or its withdrawal. Any
/// other line is reported as unknown.
pub fn is_command(client: &Client, text: &[u8]) -> bool
    ensures { (t : Talk) → StandsAfter client.now t → result ≡ is_command (typed_now t text.now) }
{
    let typed = read_typed(client, text);
    is_known(&typed)
}

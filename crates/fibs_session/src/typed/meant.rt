//! What a typed line is by the numbers that the user reads, and the line by which the client is asked for that.
ghost use Rattle.std.specs.Prelude.{◌≡◌, unwrap_or, option_map};
ghost use Rattle.fibs_position.specs.DecisionValue.{decision_of};
ghost use Rattle.fibs_commands.specs.TextOf.{text_of};
ghost use Rattle.fibs_session.specs.History.Machine.{Talk};
ghost use Rattle.fibs_session.specs.Calls.Standing.{StandsAfter};
ghost use Rattle.fibs_session.specs.Typing.{IsMeant, decided, is_command, typed_by};
ghost use Rattle.fibs_session.specs.TypedOf.{typed_value};

use crate::laws::read_command_is_exact;
use crate::typed::typing::{Typed, is_known, read_in, shown_direction};
use crate::{Client, CommandText, decision_text};
use fibs_position::{Decision, Numbers};

/// Reads a typed line by these numbers, at the board that the client shows.
pub fn read_typed_by<'a>(client: &Client, numbers: Numbers, text: &'a [u8]) -> Typed<'a>
    ensures { (t : Talk) → StandsAfter client.now t → typed_value result ≡ typed_by numbers t text.now }
{
    read_in(text, numbers.way(shown_direction(client)))
}

/// Whether a typed line is a command by these numbers, or an order.
pub fn is_command_by(client: &Client, numbers: Numbers, text: &[u8]) -> bool
    ensures { (t : Talk) → StandsAfter client.now t → result ≡ is_command (typed_by numbers t text.now) }
{
    let typed = read_typed_by(client, numbers, text);
    is_known(&typed)
}

/// The decision that was typed, if it is one.
fn decision_in(typed: &Typed<'_>) -> Option<Decision>
    ensures { option_map decision_of result ≡ decided (typed_value typed.now) }
{
    match typed {
        Typed::Decision(decision) => Some(*decision),
        Typed::Plain(_) | Typed::Order | Typed::Withdrawal | Typed::Unknown => None,
    }
}

/// The command of the decision that a typed line is by these numbers, in those of the server: the client reads that
/// decision in it. None for any other line, which the client reads as it is.
pub fn meant_command(client: &Client, numbers: Numbers, text: &[u8]) -> Option<CommandText>
    ensures { (t : Talk) → StandsAfter client.now t
        → IsMeant numbers t text.now (unwrap_or (option_map text_of result) text.now) }
{
    // A law, which costs nothing when it runs.
    read_command_is_exact();
    let typed = read_typed_by(client, numbers, text);
    match decision_in(&typed) {
        None => None,
        Some(decision) => Some(decision_text(&decision, shown_direction(client))),
    }
}

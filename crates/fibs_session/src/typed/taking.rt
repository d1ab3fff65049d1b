//! What the client would take.
ghost use Rattle.std.specs.Prelude.{◌≡◌};
ghost use Rattle.fibs_session.specs.History.Machine.{Talk};
ghost use Rattle.fibs_session.specs.Calls.Standing.{StandsAfter};
ghost use Rattle.fibs_session.specs.Typing.{typed_now, would_take};
ghost use Rattle.fibs_session.specs.TypedOf.{typed_value};

use crate::Client;
use crate::typed::typing::{Typed, read_typed};

/// Whether the client would take this now.
fn takes(client: &Client, typed: &Typed<'_>) -> bool
    ensures { (t : Talk) → StandsAfter client.now t → result ≡ would_take t (typed_value typed.now) }
{
    match typed {
        Typed::Decision(decision) => client.refusal(decision).is_none(),
        Typed::Plain(plain) => client.plain_refusal(plain).is_none(),
        Typed::Order | Typed::Withdrawal => true,
        Typed::Unknown => false,
    }
}

/// Whether the client would take a typed line now: a decision or a plain command that it does not refuse, or a standing
/// order or its withdrawal. Such a line need not be sent as it is.
pub fn would_take(client: &Client, text: &[u8]) -> bool
    ensures { (t : Talk) → StandsAfter client.now t → result ≡ would_take t (typed_now t text.now) }
{
    let typed = read_typed(client, text);
    takes(client, &typed)
}

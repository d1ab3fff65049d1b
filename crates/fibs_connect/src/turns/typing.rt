//! A typed line.
ghost use Rattle.std.specs.Prelude.{◌≡◌, ◌∷◌, [], ℕ, List, Option, OnOk, false};
ghost use Rattle.std.specs.Io.KnownBytes.{Keeps};
ghost use Rattle.fibs_session.specs.History.Machine.{Talk};
ghost use Rattle.fibs_session.specs.Calls.Standing.{StandsAfter};
ghost use Rattle.fibs_messages.specs.Message.{MessageValue};
ghost use Rattle.fibs_session.specs.Typing.{typed_now};
ghost use Rattle.fibs_connect.specs.Turns.Answering.{answered_act, Goes};
ghost use Rattle.fibs_connect.specs.Turns.Script.{Did, outside};
ghost use Rattle.fibs_connect.specs.Turns.Turn.{FitsStream};
ghost use Rattle.fibs_connect.specs.Turns.Typing.{typed_step, typed_act};
ghost use Rattle.fibs_engine.specs.Writing.{Whole};

use crate::front::Front;
use crate::said::Said;
use crate::turns::ExchangeFault;
use crate::turns::sending::send_command;
use crate::turns::turn_fault::TurnFault;
use fibs_engine::link::Link;
use fibs_session::typed::typing::{Typed, read_typed};
use fibs_session::{Client, CommandText};

/// What the client answers to a typed line.
#[derive(Clone, Copy)]
enum Answer {
    /// The command is to be sent.
    Sent(CommandText),
    /// Nothing is sent, and this is reported.
    Told(Said<'static>),
}

/// What the client answers to a line that was typed.
fn answer_text(client: &mut Client, text: &[u8]) -> Answer
    ensures stands { (t : Talk) → StandsAfter client.old t →
        StandsAfter client.new (typed_step t (typed_now t text.now)).talk }
    ensures act { (t : Talk) → StandsAfter client.old t → answered_act result ≡ typed_act t (typed_now t text.now) }
{
    match read_typed(client, text) {
        Typed::Decision(decision) => match client.decide(&decision) {
            Ok(command) => Answer::Sent(command),
            Err(why) => Answer::Told(Said::Refused(why)),
        },
        Typed::Plain(plain) => match client.plain(&plain) {
            Ok(command) => Answer::Sent(command),
            Err(why) => Answer::Told(Said::NotSent(why)),
        },
        Typed::Order => match client.order_roll() {
            Ok(()) => Answer::Told(Said::Ordered),
            Err(why) => Answer::Told(Said::Refused(why)),
        },
        Typed::Withdrawal => match client.withdraw_roll() {
            Ok(()) => Answer::Told(Said::Withdrawn),
            Err(why) => Answer::Told(Said::Refused(why)),
        },
        Typed::Unknown => Answer::Told(Said::Unknown),
    }
}

/// Does what a typed line asks for: its command is written, and then reported as sent.
pub(crate) fn type_line<S: Link, F: Front>(
    client: &mut Client,
    text: &[u8],
    stream: &mut S,
    front: &mut F,
) -> Result<(), TurnFault>
    ensures stands { (t : Talk) → StandsAfter client.old t →
        StandsAfter client.new (typed_step t (typed_now t text.now)).talk }
    ensures did { (players : List MessageValue) → Goes F.tells result
        (outside (S.contents stream.old) front.old players) (outside (S.contents stream.new) front.new players)
        (λ Does far. (t : Talk) → StandsAfter client.old t → Does (typed_act t (typed_now t text.now) ∷ [])) }
    ensures apart { Keeps (S.remaining stream.old) (S.remaining stream.new) }
{
    match answer_text(client, text) {
        Answer::Told(said) => {
            front.tell(&said)?;
            Ok(())
        }
        Answer::Sent(command) => {
            send_command(&command, stream)?;
            front.tell(&Said::Sent(&command))?;
            Ok(())
        }
    }
}

/// The same offline: the client sends nothing.
pub(crate) fn type_offline<F: Front>(
    client: &mut Client,
    text: &[u8],
    front: &mut F,
) -> Result<(), ExchangeFault>
    requires { FitsStream client.old false }
    ensures stands { (t : Talk) → StandsAfter client.old t →
        StandsAfter client.new (typed_step t (typed_now t text.now)).talk }
    ensures did { OnOk result ((t : Talk) → StandsAfter client.old t →
        (wrote : Option (List ℕ)) → (players : List MessageValue) →
        Did F.tells (outside wrote front.old players) (outside wrote front.new players)
        (typed_act t (typed_now t text.now) ∷ []) Whole) }
{
    match answer_text(client, text) {
        Answer::Told(said) => front.tell(&said),
        Answer::Sent(_) => unreachable!(),
    }
}

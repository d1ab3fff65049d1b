//! Talk whose letters are not all of ASCII: it goes to the server as it was typed.
ghost use Rattle.std.specs.Prelude.{◌≡◌, None, false, IsTrue};
ghost use Rattle.std.specs.Char.{is_control};
ghost use Rattle.std.specs.List.{list_all, list_any};
ghost use Rattle.std.specs.Str.{chars};
ghost use Rattle.fibs_commands.specs.PlainOf.{plain_value};
ghost use Rattle.fibs_session.specs.Calls.Standing.{StandsAfter};
ghost use Rattle.fibs_session.specs.History.Machine.{Talk};
ghost use Rattle.fibs_session.specs.Typing.{decided, typed_now, would_take};
ghost use Rattle.fibs_terminal.specs.Talking.{GoesAsTyped, IsRefusedTalk, has_control, is_said_byte, is_talk, is_upper_control, refuses_letters};

use fibs_commands::{Plain, PlainFault};
use fibs_session::typed::typing::{Typed, read_typed};
use fibs_session::{Client, PlainRefusal};

/// Whether a byte may be one of talk: none that controls a terminal, or begins a command of telnet.
fn is_said_byte(byte: &u8) -> bool
    ensures { result ≡ is_said_byte byte.now }
{
    *byte >= 32 && *byte != 127 && *byte != 255
}

/// Whether all bytes of a line may be in talk.
fn are_said_bytes(line: &[u8]) -> bool
    ensures { result ≡ list_all is_said_byte line.now }
{
    line.iter().all(is_said_byte)
}

/// Whether a byte is a control beyond ASCII, where a byte is a character.
fn is_upper_control(byte: &u8) -> bool
    ensures { result ≡ is_upper_control byte.now }
{
    *byte >= 128 && *byte < 160
}

/// Whether a line of such bytes has one.
fn has_upper_control(line: &[u8]) -> bool
    ensures { result ≡ list_any is_upper_control line.now }
{
    line.iter().any(is_upper_control)
}

/// Whether a text has a control character.
fn has_control_char(text: &str) -> bool
    ensures { result ≡ list_any is_control (chars text.now) }
{
    text.chars().any(|c| c.is_control())
}

/// Whether a line has a control character beyond ASCII, as UTF-8 or as Latin-1.
#[tactic(auto, using(crate::proofs::TalkingLemmas::text_controls, crate::proofs::TalkingLemmas::byte_controls))]
fn has_control(line: &[u8]) -> bool
    ensures { result ≡ has_control line.now }
{
    match str::from_utf8(line) {
        Ok(text) => has_control_char(text),
        Err(_) => has_upper_control(line),
    }
}

/// Whether a plain command is talk, and says something.
fn is_talk(plain: &Plain<'_>) -> bool
    ensures { result ≡ is_talk (plain_value plain.now) }
{
    match plain {
        Plain::Say(text) | Plain::Shout(text) | Plain::Whisper(text) | Plain::Kibitz(text) => {
            text.len() > 0
        }
        Plain::Tell(_, text) | Plain::Message(_, text) => text.len() > 0,
        _ => false,
    }
}

/// Whether the client refuses a plain command for the letters of its text, and for nothing else.
fn refuses_letters(client: &Client, plain: &Plain<'_>) -> bool
    ensures { IsTrue result → (t : Talk) → StandsAfter client.now t → refuses_letters t (plain_value plain.now) }
{
    matches!(
        client.plain_refusal(plain),
        Some(PlainRefusal::Fault(PlainFault::BadText))
    )
}

/// Whether a line is talk that the client refuses for its letters.
fn is_refused_talk(client: &Client, line: &[u8]) -> bool
    ensures refused { IsTrue result → (t : Talk) → StandsAfter client.now t → IsRefusedTalk t line.now }
    ensures undecided { IsTrue result → (t : Talk) → StandsAfter client.now t → decided (typed_now t line.now) ≡ None }
    ensures untaken { IsTrue result → (t : Talk) → StandsAfter client.now t →
        would_take t (typed_now t line.now) ≡ false }
{
    match read_typed(client, line) {
        Typed::Plain(plain) => is_talk(&plain) && refuses_letters(client, &plain),
        _ => false,
    }
}

/// Whether a line is talk that goes to the server as it was typed: the client refuses it for its letters alone, and no
/// byte of it controls a terminal.
pub(crate) fn goes_as_typed(client: &Client, line: &[u8]) -> bool
    ensures goes { IsTrue result → (t : Talk) → StandsAfter client.now t → GoesAsTyped t line.now }
    ensures undecided { IsTrue result → (t : Talk) → StandsAfter client.now t → decided (typed_now t line.now) ≡ None }
    ensures untaken { IsTrue result → (t : Talk) → StandsAfter client.now t →
        would_take t (typed_now t line.now) ≡ false }
{
    is_refused_talk(client, line) && are_said_bytes(line) && !has_control(line)
}

//! Whether a line decides in the game.
ghost use Rattle.std.specs.Prelude.{◌≡◌};
ghost use Rattle.fibs_session.specs.Calls.Standing.{StandsAfter};
ghost use Rattle.fibs_session.specs.History.Machine.{Talk, shown_now};
ghost use Rattle.fibs_session.specs.OwnLines.{asks, decides, is_answer, is_doubled, is_short_for, is_turn};

use crate::Client;
use fibs_fields::split::split;
use fibs_position::Phase;

/// Whether a word is this one of the server's, or its beginning.
fn is_short_for(word: &[u8], whole: &[u8]) -> bool
    ensures { result ≡ is_short_for word.now whole.now }
{
    word.len() <= whole.len() && word.eq_ignore_ascii_case(&whole[..word.len()])
}

/// Whether the word rolls, moves, doubles or resigns.
#[tactic(auto, unfolding(crate::specs::OwnLines::is_turn))]
fn is_turn(word: &[u8]) -> bool
    ensures { result ≡ is_turn word.now }
{
    is_short_for(word, b"roll".as_slice())
        || is_short_for(word, b"move".as_slice())
        || is_short_for(word, b"double".as_slice())
        || is_short_for(word, b"redouble".as_slice())
        || is_short_for(word, b"resign".as_slice())
}

/// Whether the word answers a double, or an offer to resign.
#[tactic(auto, unfolding(crate::specs::OwnLines::is_answer))]
fn is_answer(word: &[u8]) -> bool
    ensures { result ≡ is_answer word.now }
{
    is_short_for(word, b"accept".as_slice()) || is_short_for(word, b"reject".as_slice())
}

/// Whether a double is to be answered in this phase.
fn is_doubled(phase: Phase) -> bool
    ensures { result ≡ is_doubled phase }
{
    match phase {
        Phase::AnswerDouble => true,
        Phase::Over | Phase::OpponentActs | Phase::RollOrDouble | Phase::Move | Phase::Passing =>
            false,
    }
}

/// Whether the board that is shown has a double to be answered.
fn asks(client: &Client) -> bool
    ensures { (t : Talk) → StandsAfter client.now t → result ≡ asks (shown_now t) }
{
    match client.game() {
        None => false,
        Some(game) => is_doubled(game.phase()),
    }
}

/// Whether a line decides in the game, as a server may read it: it rolls, moves, doubles or resigns, also if its word
/// is shortened, in capital letters, or behind a space; or it answers the double of the board that is shown. If no
/// double is to be answered `accept` and `reject` answer an offer to resign, of which the client does not know.
pub fn decides(client: &Client, line: &[u8]) -> bool
    ensures { (t : Talk) → StandsAfter client.now t → result ≡ decides (shown_now t) line.now }
{
    if line.is_empty() {
        return false;
    }
    let (word, _) = split(line, b' ');
    is_turn(word) || asks(client) && is_answer(word)
}

//! What a text of the server says of a game that the user watches.
ghost use Rattle.std.specs.Prelude.{◌≡◌, ◌↔◌, Some, true};
ghost use Rattle.fibs_advice.specs.Seen.{begins_watching, ends_watching};

use fibs_events::told::{Told, read_told};
use fibs_fields::trailing_spaces::without_spaces;

/// How the server begins to say that a player is watched.
const WATCHES: &[u8] = b"You're now watching ";

/// How it begins to say that nobody is watched any more, and that nobody was.
const STOPS: &[u8] = b"You stop watching ";

const WATCHES_NOBODY: &[u8] = b"** You're not watching";

/// What a text says of a game that the user watches.
#[derive(Clone, Copy)]
pub enum Seen<'a> {
    /// A player is watched now.
    Begins,
    /// Nobody is watched.
    Ends,
    /// The match of this player is over, or was left.
    Over(&'a [u8]),
}

/// What a text of the server says of a game that the user watches, if it says anything of one.
pub fn read_seen(text: &[u8]) -> Option<Seen<'_>>
    ensures begins { (result ≡ Some Seen.Begins) ↔ (begins_watching text.now ≡ true) }
    ensures ends { (result ≡ Some Seen.Ends) ↔ (ends_watching text.now ≡ true) }
{
    let text = without_spaces(text);
    if text.starts_with(WATCHES) {
        return Some(Seen::Begins);
    }
    if text.starts_with(STOPS) || text.starts_with(WATCHES_NOBODY) {
        return Some(Seen::Ends);
    }
    let report = read_told(text)?;
    match report.told {
        Told::MatchOver | Told::Saved if !report.name.is_empty() => Some(Seen::Over(report.name)),
        _ => None,
    }
}

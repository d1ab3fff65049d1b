//! Which lines decide.
ghost use Rattle.std.specs.Prelude.{◌≡◌};
ghost use Rattle.fibs_advice.specs.Situations.{is_answer_line, waiting_after};

use crate::situation::Waiting;
use fibs_fields::split::split;

/// The first words of the commands of decisions: those that are offers, which change no board, and the others.
const OFFERS: [&[u8]; 2] = [b"double", b"resign"];

const OTHER_DECISIONS: [&[u8]; 4] = [b"roll", b"move", b"accept", b"reject"];

/// What waits after a command: None if it is no decision.
pub(super) fn decision_in(line: &[u8]) -> Option<Waiting>
    ensures { result ≡ waiting_after line.now }
{
    let word = split(line, b' ').0;
    if OFFERS.contains(&word) {
        Some(Waiting::Offer)
    } else if OTHER_DECISIONS.contains(&word) {
        Some(Waiting::Other)
    } else {
        None
    }
}

/// Whether a line is an answer to an offer.
pub(super) fn is_answer(line: &[u8]) -> bool
    ensures { result ≡ is_answer_line line.now }
{
    line == b"accept".as_slice() || line == b"reject".as_slice()
}

//! What to type after a match, in words.
ghost use Rattle.std.specs.Prelude.{◌≡◌, ◌++◌, OnOk};
ghost use Rattle.fibs_wording.specs.Rematch.{invitation_words, rematch_words};

use fibs_fields::decimal::append_number;
use std::alloc::AllocError;

/// What is said if it is not known how long the match was.
const OTHERS: &[u8] = b"Another match: players ready lists those who can be invited.";

/// What follows the invitation to another match.
const PLAYS_ANOTHER: &[u8] = b" plays another match; players ready lists others.";

/// Appends the line that invites a player to a match of so many points.
#[tactic(auto, unfolding(crate::specs::Rematch::invitation_words))]
fn append_invitation(name: &[u8], points: u16, text: &mut Vec<u8>) -> Result<(), AllocError>
    ensures { OnOk result (text.new.items ≡ text.old.items ++ invitation_words name.now points) }
{
    text.extend_from_slice(b"invite ")?;
    text.extend_from_slice(name)?;
    text.extend_from_slice(b" ")?;
    append_number(points, text)
}

/// Appends what to type after a match with an opponent: the invitation to another one of as many points, if it is known
/// how many those were.
///
/// Errors: if memory runs out.
pub fn append_rematch(
    opponent: &[u8],
    points: Option<u16>,
    text: &mut Vec<u8>,
) -> Result<(), AllocError>
    ensures { OnOk result (text.new.items ≡ text.old.items ++ rematch_words opponent.now points) }
{
    match points {
        None => text.extend_from_slice(OTHERS),
        Some(points) => {
            append_invitation(opponent, points, text)?;
            text.extend_from_slice(PLAYS_ANOTHER)
        }
    }
}

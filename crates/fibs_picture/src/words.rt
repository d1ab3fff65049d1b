//! Words that pictures and told boards share, and what can be done.
ghost use Rattle.std.specs.Prelude.{◌≡◌, take};
ghost use Rattle.fibs_position.specs.DecisionValue.{decision_of};
ghost use Rattle.fibs_position.specs.PositionValue.{position_value};
ghost use Rattle.fibs_picture.specs.Picture.{doublers, deed, deed_in, may};

use fibs_position::{Decision, Phase, Position};

/// How many bytes of a name are shown.
const NAME_ROOM: usize = 30;

/// So many bytes of a name at most.
pub fn first_of(name: &[u8], room: usize) -> &[u8]
    ensures { result.now ≡ take room name.now }
{
    if name.len() < room {
        name
    } else {
        &name[..room]
    }
}

/// What is shown of a name: 30 bytes of it at most.
pub(crate) fn shown_name(name: &[u8]) -> &[u8]
    ensures { result.now ≡ take 30 name.now }
{
    first_of(name, NAME_ROOM)
}

/// Who may double next.
pub(crate) fn doublers(own: bool, other: bool) -> &'static [u8]
    ensures { result.now ≡ doublers own other }
{
    match (own, other) {
        (true, true) => b", in the middle",
        (true, false) => b", yours",
        (false, true) => b", the opponent's",
        (false, false) => b", no doubling",
    }
}

/// What can be done in a phase, by whether a double may be accepted, and offered.
fn deed(phase: Phase, accepts: bool, doubles: bool) -> &'static [u8]
    ensures { result.now ≡ deed phase accepts doubles }
{
    match (phase, accepts, doubles) {
        (Phase::Over, _, _) => b"The game is over.",
        (Phase::AnswerDouble, true, _) => b"You are offered a double: accept, or reject.",
        (Phase::AnswerDouble, false, _) => b"You are offered a double: reject.",
        (Phase::OpponentActs, _, _) => b"The opponent plays.",
        (Phase::RollOrDouble, _, true) => b"You roll, or double, or resign.",
        (Phase::RollOrDouble, _, false) => b"You roll, or resign.",
        (Phase::Move, _, _) => b"You move, or resign.",
        (Phase::Passing, _, _) => b"You can't move.",
    }
}

/// There is no reason against a decision of the player.
fn may(position: &Position, decision: &Decision) -> bool
    ensures { result ≡ may (position_value position.now) (decision_of decision.now) }
{
    match position.allows(decision) {
        Ok(()) => true,
        Err(_) => false,
    }
}

/// What can be done in a position.
#[tactic(auto, unfolding(crate::specs::Picture::deed_in))]
pub fn deed_in(position: &Position) -> &'static [u8]
    ensures { result.now ≡ deed_in (position_value position.now) }
{
    let accepts = may(position, &Decision::Accept);
    let doubles = may(position, &Decision::Double);
    deed(position.phase(), accepts, doubles)
}

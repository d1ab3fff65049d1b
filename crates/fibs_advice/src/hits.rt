//! Which checkers a play hits, and the row that tells it.
ghost use Rattle.std.specs.Prelude.{◌≡◌, ◌≤◌, ◌++◌, OnOk, IfOk, map, take};
ghost use Rattle.fibs_position.specs.PositionValue.{position_value};
ghost use Rattle.fibs_rules.specs.Hop.{hop_of};
ghost use Rattle.fibs_rules.specs.PlayValue.{hops_of};
ghost use Rattle.fibs_advice.specs.Hits.{comes_to, hit_on, hit_row, hits_at, hits_whom, is_hit, joint, kept_if, listed, place_from};

use fibs_fields::decimal::append_number;
use fibs_position::{Direction, Play, Position, Step};
use std::alloc::{AllocError, Global};

/// The places on which checkers can be hit.
const PLACES: u8 = 24;

/// The number of the bar, from which places are counted down.
const BAR: u8 = 25;

/// How many bytes of the opponent's name are told.
const MOST_NAMED: usize = 24;

/// Who has rolled, and plays.
#[derive(Clone, Copy, Debug, PartialEq, Eq)]
pub enum Roller {
    /// The user.
    Own,
    /// His opponent.
    Other,
}

impl Roller {
    /// The place that is so far from the user's bar, as he counts it who plays.
    fn place_from(self, far: u8) -> u8
        requires { far ≤ 25 }
        ensures { result ≡ place_from self far }
    {
        match self {
            Roller::Own => BAR - far,
            Roller::Other => far,
        }
    }
}

/// Whether one of some steps comes to a place.
fn comes_to(place: u8, steps: &[Step]) -> bool
    ensures { result ≡ comes_to place (map hop_of steps.now) }
{
    if steps.is_empty() {
        return false;
    }
    steps[0].target() == place || comes_to(place, &steps[1..])
}

/// Whether a play hits a checker on the place that is so far from the user's bar. The position is that before the play,
/// as he sees it who plays.
fn is_hit(roller: Roller, before: &Position, play: &Play, far: u8) -> bool
    requires low { 1 ≤ far }
    requires high { far ≤ 24 }
    ensures { result ≡ is_hit roller (position_value before.now).standing.checkers (hops_of play.now) far }
{
    let place = roller.place_from(far);
    before.other(place) == 1 && comes_to(place, play.steps())
}

/// Whether a step of a play hits: the opponent has a single checker where it comes to, and no step before it comes
/// there. The position is that before the play, as he sees it who plays.
pub(crate) fn is_hit_by(before: &Position, steps: &[Step], place: usize) -> bool
    ensures { result ≡ hits_at (position_value before.now).standing.checkers steps.now place }
{
    if place >= steps.len() {
        return false;
    }
    let target = steps[place].target();
    if target == 0 || before.other(target) != 1 {
        return false;
    }
    !comes_to(target, &steps[..place])
}

/// Pushes a place, if a play hits a checker there.
fn push_hit(
    roller: Roller,
    before: &Position,
    play: &Play,
    far: u8,
    places: &mut Vec<u8>,
) -> Result<(), AllocError>
    requires low { 1 ≤ far }
    requires high { far ≤ 24 }
    ensures { OnOk result (places.new.items ≡ places.old.items
        ++ kept_if (is_hit roller (position_value before.now).standing.checkers (hops_of play.now) far) far) }
{
    if is_hit(roller, before, play, far) {
        places.push(far)?;
    }
    Ok(())
}

/// The places on which a play hits checkers, by how far they are from the user's bar.
pub(crate) fn hit_places(
    alloc: Global,
    roller: Roller,
    before: &Position,
    play: &Play,
) -> Result<Vec<u8>, AllocError>
    ensures { IfOk result (λ places. places.items
        ≡ hit_on roller (position_value before.now).standing.checkers (hops_of play.now) 24) }
{
    let mut places = Vec::new(alloc);
    for nearer in 0..PLACES {
        push_hit(roller, before, play, nearer + 1, &mut places)?;
    }
    Ok(places)
}

/// What stands between a number and so many that follow it.
fn joint(more: usize) -> &'static [u8]
    ensures { result.now ≡ joint more }
{
    if more == 0 {
        b""
    } else if more == 1 {
        b" and "
    } else {
        b", "
    }
}

/// Appends the numbers of places by which the user goes this way.
#[tactic(auto, unfolding(crate::specs::Hits::listed))]
pub(crate) fn append_listed(
    way: Direction,
    places: &[u8],
    text: &mut Vec<u8>,
) -> Result<(), AllocError>
    ensures { OnOk result (text.new.items ≡ text.old.items ++ listed way places.now) }
{
    if places.is_empty() {
        return Ok(());
    }
    append_number(way.line_place(BAR.saturating_sub(places[0])), text)?;
    text.extend_from_slice(joint(places.len() - 1))?;
    append_listed(way, &places[1..], text)
}

/// What is told of a name.
fn short_name(name: &[u8]) -> &[u8]
    ensures { result.now ≡ take 24 name.now }
{
    &name[..name.len().min(MOST_NAMED)]
}

/// Appends whom a play hits.
fn append_whom(roller: Roller, name: &[u8], text: &mut Vec<u8>) -> Result<(), AllocError>
    ensures { OnOk result (text.new.items ≡ text.old.items ++ hits_whom roller name.now) }
{
    match roller {
        Roller::Own => {
            text.extend_from_slice(b"You hit ")?;
            text.extend_from_slice(short_name(name))
        }
        Roller::Other => {
            text.extend_from_slice(short_name(name))?;
            text.extend_from_slice(b" hits you")
        }
    }
}

/// Appends a row that says whom a play hits, and on which places.
#[tactic(auto, unfolding(crate::specs::Hits::hit_row))]
fn append_row(
    roller: Roller,
    name: &[u8],
    way: Direction,
    places: &[u8],
    text: &mut Vec<u8>,
) -> Result<(), AllocError>
    ensures { OnOk result (text.new.items ≡ text.old.items ++ hit_row roller name.now way places.now) }
{
    if places.is_empty() {
        return Ok(());
    }
    append_whom(roller, name, text)?;
    text.extend_from_slice(b" on ")?;
    append_listed(way, places, text)?;
    text.extend_from_slice(b".\n")
}

/// Appends a row that says which checkers a play hits, if it hits any: the opponent has this name, and the user goes
/// this way by the numbers of places. The position is that before the play, as he sees it who plays.
///
/// Errors: if memory runs out.
pub fn append_hits(
    alloc: Global,
    roller: Roller,
    before: &Position,
    play: &Play,
    name: &[u8],
    way: Direction,
    text: &mut Vec<u8>,
) -> Result<(), AllocError>
    ensures { OnOk result (text.new.items ≡ text.old.items ++ hit_row roller name.now way
        (hit_on roller (position_value before.now).standing.checkers (hops_of play.now) 24)) }
{
    let places = hit_places(alloc, roller, before, play)?;
    append_row(roller, name, way, places.as_slice(), text)
}

//! What a move changes, in words.
ghost use Rattle.std.specs.Prelude.{◌≡◌, ◌≤◌, ◌++◌, OnOk, IfOk};
ghost use Rattle.fibs_position.specs.PositionValue.{position_value};
ghost use Rattle.fibs_rules.specs.PlayValue.{hops_of};
ghost use Rattle.fibs_advice.specs.Changes.{after_row, blots, blots_listed, blots_row, changed, changes_text, is_blot, is_changed, own_at, pips, pips_row, stack_said, stacks_said, where_said};
ghost use Rattle.fibs_advice.specs.Hits.{kept_if};

use crate::hits::{Roller, append_hits, append_listed};
use crate::moved::append_steps;
use fibs_fields::decimal::append_number;
use fibs_position::{Direction, Play, Position};
use std::alloc::{AllocError, Global};

/// How far those places are from the user's bar that are off.
const OFF: u8 = 25;

/// How many of the user's checkers are so far from his bar.
fn own_at(position: &Position, far: u8) -> u8
    requires { far ≤ 25 }
    ensures { result ≡ own_at (position_value position.now).standing.checkers far }
{
    position.own(OFF - far)
}

/// Pushes a place, if there are more of the user's checkers on it, or fewer.
fn push_changed(
    before: &Position,
    after: &Position,
    far: u8,
    places: &mut Vec<u8>,
) -> Result<(), AllocError>
    requires { far ≤ 25 }
    ensures { OnOk result (places.new.items ≡ places.old.items ++ kept_if (is_changed
        (position_value before.now).standing.checkers (position_value after.now).standing.checkers far) far) }
{
    if own_at(before, far) != own_at(after, far) {
        places.push(far)?;
    }
    Ok(())
}

/// The places on which there are more of the user's checkers, or fewer, by how far they are from his bar.
fn changed_places(alloc: Global, before: &Position, after: &Position) -> Result<Vec<u8>, AllocError>
    ensures { IfOk result (λ places. places.items ≡ changed
        (position_value before.now).standing.checkers (position_value after.now).standing.checkers 26) }
{
    let mut places = Vec::new(alloc);
    for far in 0..OFF + 1 {
        push_changed(before, after, far, &mut places)?;
    }
    Ok(places)
}

/// Appends a place, by the numbers by which the user goes this way.
fn append_where(way: Direction, far: u8, text: &mut Vec<u8>) -> Result<(), AllocError>
    ensures { OnOk result (text.new.items ≡ text.old.items ++ where_said way far) }
{
    if far == 0 {
        return text.extend_from_slice(b" on the bar");
    }
    if far == OFF {
        return text.extend_from_slice(b" off");
    }
    text.extend_from_slice(b" on ")?;
    append_number(way.line_place(OFF.saturating_sub(far)), text)
}

/// Appends how many of the user's checkers are on a place.
fn append_stack(
    way: Direction,
    position: &Position,
    far: u8,
    text: &mut Vec<u8>,
) -> Result<(), AllocError>
    ensures { OnOk result (text.new.items ≡ text.old.items
        ++ stack_said way (position_value position.now).standing.checkers far) }
{
    let count = position.own(OFF.saturating_sub(far));
    if count == 0 {
        text.extend_from_slice(b"none")?;
    } else {
        append_number(count, text)?;
    }
    append_where(way, far, text)
}

/// Appends how many of the user's checkers are on places.
#[tactic(auto, unfolding(crate::specs::Changes::stacks_said))]
fn append_stacks(
    way: Direction,
    position: &Position,
    places: &[u8],
    text: &mut Vec<u8>,
) -> Result<(), AllocError>
    ensures { OnOk result (text.new.items ≡ text.old.items
        ++ stacks_said way (position_value position.now).standing.checkers places.now) }
{
    if places.is_empty() {
        return Ok(());
    }
    append_stack(way, position, places[0], text)?;
    if places.len() > 1 {
        text.extend_from_slice(b", ")?;
    }
    append_stacks(way, position, &places[1..], text)
}

/// Appends the move, and what it changes of the places.
#[tactic(auto, unfolding(crate::specs::Changes::after_row))]
fn append_after(
    way: Direction,
    play: &Play,
    position: &Position,
    places: &[u8],
    text: &mut Vec<u8>,
) -> Result<(), AllocError>
    ensures { OnOk result (text.new.items ≡ text.old.items ++ after_row way (hops_of play.now)
        (position_value position.now).standing.checkers places.now) }
{
    text.extend_from_slice(b"After")?;
    append_steps(play, way, text)?;
    text.extend_from_slice(b": ")?;
    append_stacks(way, position, places, text)?;
    text.extend_from_slice(b".\n")
}

/// How far the user's checkers have to go.
#[tactic(auto, unfolding(crate::specs::Changes::pips))]
fn pips(position: &Position) -> u32
    ensures { result ≡ pips (position_value position.now).standing.checkers }
{
    let mut pips = 0;
    for place in 0..26 {
        pips += u32::from(place) * u32::from(position.own(place));
    }
    pips
}

/// Appends how far the user's checkers have to go.
#[tactic(auto, unfolding(crate::specs::Changes::pips_row))]
fn append_pips(position: &Position, text: &mut Vec<u8>) -> Result<(), AllocError>
    ensures { OnOk result (text.new.items ≡ text.old.items
        ++ pips_row (position_value position.now).standing.checkers) }
{
    text.extend_from_slice(b"Your pips: ")?;
    append_number(pips(position), text)?;
    text.extend_from_slice(b".\n")
}

/// Pushes a place, if a checker of the user's stands alone there.
fn push_blot(position: &Position, far: u8, places: &mut Vec<u8>) -> Result<(), AllocError>
    requires { far ≤ 25 }
    ensures { OnOk result (places.new.items ≡ places.old.items
        ++ kept_if (is_blot (position_value position.now).standing.checkers far) far) }
{
    if own_at(position, far) == 1 {
        places.push(far)?;
    }
    Ok(())
}

/// The places on which a checker of the user's stands alone, by how far they are from his bar.
fn blots(alloc: Global, position: &Position) -> Result<Vec<u8>, AllocError>
    ensures { IfOk result (λ places. places.items ≡ blots (position_value position.now).standing.checkers 24) }
{
    let mut places = Vec::new(alloc);
    for nearer in 0..OFF - 1 {
        push_blot(position, nearer + 1, &mut places)?;
    }
    Ok(places)
}

/// Appends the numbers of places on which a checker of the user's stands alone.
fn append_some_blots(way: Direction, places: &[u8], text: &mut Vec<u8>) -> Result<(), AllocError>
    ensures { OnOk result (text.new.items ≡ text.old.items ++ blots_listed way places.now) }
{
    text.extend_from_slice(b"Your blots: ")?;
    append_listed(way, places, text)?;
    text.extend_from_slice(b".\n")
}

/// Appends the places on which a checker of the user's stands alone.
#[tactic(auto, unfolding(crate::specs::Changes::blots_row))]
fn append_blots(way: Direction, places: &[u8], text: &mut Vec<u8>) -> Result<(), AllocError>
    ensures { OnOk result (text.new.items ≡ text.old.items ++ blots_row way places.now) }
{
    if places.is_empty() {
        return text.extend_from_slice(b"Your blots: none.\n");
    }
    append_some_blots(way, places, text)
}

/// Appends how far the user's checkers have to go, and which of them stand alone.
fn append_state(
    way: Direction,
    position: &Position,
    places: &[u8],
    text: &mut Vec<u8>,
) -> Result<(), AllocError>
    ensures { OnOk result (text.new.items ≡ text.old.items
        ++ (pips_row (position_value position.now).standing.checkers ++ blots_row way places.now)) }
{
    append_pips(position, text)?;
    append_blots(way, places, text)
}

/// Appends what a move changes from a position to another, by the numbers by which the user goes this way. The opponent
/// has this name.
#[tactic(auto, unfolding(crate::specs::Changes::changes_text))]
pub(crate) fn append_changes(
    alloc: Global,
    way: Direction,
    name: &[u8],
    before: &Position,
    play: &Play,
    after: &Position,
    text: &mut Vec<u8>,
) -> Result<(), AllocError>
    ensures { OnOk result (text.new.items ≡ text.old.items ++ changes_text way name.now
        (position_value before.now).standing.checkers (hops_of play.now)
        (position_value after.now).standing.checkers) }
{
    let changed = changed_places(alloc, before, after)?;
    let blots = blots(alloc, after)?;
    append_after(way, play, after, changed.as_slice(), text)?;
    append_hits(alloc, Roller::Own, before, play, name, way, text)?;
    append_state(way, after, blots.as_slice(), text)
}

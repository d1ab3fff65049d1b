//! Which rule a move breaks.
ghost use Rattle.std.specs.Prelude.{◌≡◌, ◌≤◌, ◌↔◌, ◌++◌, length, map, IsTrue, List, OnOk};
ghost use Rattle.fibs_position.specs.GameOf.{game_of};
ghost use Rattle.fibs_position.specs.PositionValue.{position_value};
ghost use Rattle.fibs_rules.specs.Hop.{hop_of};
ghost use Rattle.fibs_rules.specs.PlayValue.{hops_of};
ghost use Rattle.fibs_rules.specs.declared.step.Step.{Step as TheStep};
ghost use Rattle.fibs_advice.specs.BrokenRules.{BreaksIt, IsBehind, IsFirstIfAny, IsNamed, IsNamedOf, SaysBroken, distance, is_held, is_played_by, more_dice_said, of_number, of_place, of_way, own_after, place_said, rule_said, rules_off};

use fibs_commands::BAR;
use fibs_fields::boards::fields::{FIRST_DIE, SECOND_DIE};
use fibs_fields::decimal::append_number;
use fibs_position::{Direction, GameBoard, Numbers, Play, Position, Step};
use std::alloc::AllocError;

/// The place of the home that is farthest from off.
const LAST_OF_HOME: u8 = 6;

/// A rule that a move breaks.
#[derive(Clone, Copy)]
enum BrokenRule {
    /// A checker on the bar enters first.
    Bar,
    /// No checker is there.
    Empty(u8),
    /// The opponent holds the place.
    Held(u8),
    /// Checkers are outside of the home.
    Outside,
    /// A checker is farther back than one that goes off by a larger die.
    Behind,
    /// No die plays the step.
    Distance(Step),
    /// More dice can be played.
    MoreDice(u8),
    /// The larger die can be played.
    Larger,
}

/// How many of the player's checkers are on a place after the first steps of a move.
fn checkers_on(position: &Position, steps: &[Step], place: u8) -> usize
    requires place { place ≤ 25 }
    requires few { length steps.now ≤ 4 }
    ensures { result ≡ own_after (position_value position.now).standing.checkers steps.now place }
{
    let came = steps.iter().filter(|step| step.target() == place).count();
    let left = steps.iter().filter(|step| step.source() == place).count();
    (usize::from(position.own(place)) + came).saturating_sub(left)
}

/// Whether a checker of the player is farther back than a place.
fn is_behind(position: &Position, steps: &[Step], place: u8) -> bool
    requires { length steps.now ≤ 4 }
    ensures { IsTrue result ↔ IsBehind (position_value position.now).standing.checkers steps.now place }
{
    for behind in 1..26 {
        if behind > place && checkers_on(position, steps, behind) > 0 {
            return true;
        }
    }
    false
}

/// Whether the opponent holds a place.
fn is_held(position: &Position, place: u8) -> bool
    ensures { result ≡ is_held (position_value position.now).standing.checkers place }
{
    place >= 1 && place <= 24 && position.other(place) >= 2
}

/// How many places a step takes.
fn distance_of(step: &Step) -> u8
    ensures { result ≡ distance (hop_of step.now) }
{
    step.source().saturating_sub(step.target())
}

/// Whether a die may play a step: the distance is that of a die, or a checker goes off by a larger one.
fn is_played_by(die: u8, step: &Step) -> bool
    ensures { result ≡ is_played_by die (hop_of step.now) }
{
    let distance = distance_of(step);
    distance == die || (step.target() == 0 && distance < die)
}

/// The rule that a step breaks after others, if it breaks one by itself.
fn broken_by(
    position: &Position,
    dice: (u8, u8),
    before: &[Step],
    step: &Step,
) -> Option<BrokenRule>
    requires { length before.now ≤ 4 }
    ensures { IsNamedOf (position_value position.now).standing.checkers dice.0 dice.1 before.now step.now result }
{
    let source = step.source();
    if source != BAR && checkers_on(position, before, BAR) > 0 {
        return Some(BrokenRule::Bar);
    }
    if checkers_on(position, before, source) == 0 {
        return Some(BrokenRule::Empty(source));
    }
    if !is_played_by(dice.0, step) && !is_played_by(dice.1, step) {
        return Some(BrokenRule::Distance(*step));
    }
    if is_held(position, step.target()) {
        return Some(BrokenRule::Held(step.target()));
    }
    if step.target() == 0 {
        return broken_by_bearing_off(position, dice, before, step);
    }
    None
}

/// The rule that a step off breaks after others: it goes off from the home alone, and by a larger die if no checker is
/// farther back.
fn broken_by_bearing_off(
    position: &Position,
    dice: (u8, u8),
    before: &[Step],
    step: &Step,
) -> Option<BrokenRule>
    requires off { (hop_of step.now).target ≡ 0 }
    requires few { length before.now ≤ 4 }
    ensures { IsFirstIfAny (BreaksIt (position_value position.now).standing.checkers dice.0 dice.1 before.now step.now)
        rules_off result }
{
    let distance = distance_of(step);
    if is_behind(position, before, LAST_OF_HOME) {
        Some(BrokenRule::Outside)
    } else if distance != dice.0
        && distance != dice.1
        && is_behind(position, before, step.source())
    {
        Some(BrokenRule::Behind)
    } else {
        None
    }
}

/// The rule that a move breaks, if one can be named.
fn broken_rule(position: &Position, dice: (u8, u8), play: &Play) -> Option<BrokenRule>
    ensures { (steps : List TheStep) × (map hop_of steps ≡ hops_of play.now)
        × IsNamed (position_value position.now).standing dice.0 dice.1 steps result }
{
    let steps = play.steps();
    for place in 0..steps.len() {
        let found = broken_by(position, dice, &steps[..place], &steps[place]);
        if found.is_some() {
            return found;
        }
    }
    let most = position.most_dice();
    if steps.len() < usize::from(most) {
        Some(BrokenRule::MoreDice(most))
    } else if steps.len() == 1 {
        Some(BrokenRule::Larger)
    } else {
        None
    }
}

/// Appends a place by the numbers by which the player goes this way.
fn append_place(place: u8, way: Direction, text: &mut Vec<u8>) -> Result<(), AllocError>
    ensures { OnOk result (text.new.items ≡ text.old.items ++ place_said way place) }
{
    if place == 0 {
        text.extend_from_slice(b"off")
    } else if place >= BAR {
        text.extend_from_slice(b"the bar")
    } else {
        append_number(way.line_place(place), text)
    }
}

/// Appends words, a place and a full stop.
fn append_of_place(
    words: &[u8],
    place: u8,
    way: Direction,
    text: &mut Vec<u8>,
) -> Result<(), AllocError>
    ensures { OnOk result (text.new.items ≡ text.old.items ++ of_place words.now way place) }
{
    text.extend_from_slice(words)?;
    append_place(place, way, text)?;
    text.extend_from_slice(b".")
}

/// Appends that more dice must be played.
fn append_more_dice(most: u8, text: &mut Vec<u8>) -> Result<(), AllocError>
    ensures { OnOk result (text.new.items ≡ text.old.items ++ more_dice_said most) }
{
    match most {
        2 => text.extend_from_slice(b"Both dice must be played."),
        1 => text.extend_from_slice(b"A die must be played."),
        _ => append_of_number(b"As many dice as can be must be played: ", most, text),
    }
}

/// Appends words, a number and a full stop.
fn append_of_number(words: &[u8], number: u8, text: &mut Vec<u8>) -> Result<(), AllocError>
    ensures { OnOk result (text.new.items ≡ text.old.items ++ of_number words.now number) }
{
    text.extend_from_slice(words)?;
    append_number(number, text)?;
    text.extend_from_slice(b".")
}

/// Appends words, and from where to where a step goes.
fn append_way(
    words: &[u8],
    step: &Step,
    way: Direction,
    text: &mut Vec<u8>,
) -> Result<(), AllocError>
    ensures { OnOk result (text.new.items
        ≡ text.old.items ++ of_way words.now way (hop_of step.now).source (hop_of step.now).target) }
{
    text.extend_from_slice(words)?;
    append_place(step.source(), way, text)?;
    append_of_place(b" to ", step.target(), way, text)
}

/// Appends a rule that is broken.
fn append_broken(broken: &BrokenRule, way: Direction, text: &mut Vec<u8>) -> Result<(), AllocError>
    ensures { OnOk result (text.new.items ≡ text.old.items ++ rule_said way broken.now) }
{
    match broken {
        BrokenRule::Bar => text.extend_from_slice(b"A checker on the bar enters first."),
        BrokenRule::Empty(place) => {
            append_of_place(b"You have no checker on ", *place, way, text)
        }
        BrokenRule::Held(place) => append_of_place(b"Your opponent holds ", *place, way, text),
        BrokenRule::Outside => {
            text.extend_from_slice(b"No checker goes off before all are home.")
        }
        BrokenRule::Behind => text.extend_from_slice(b"A checker farther back goes first."),
        BrokenRule::Distance(step) => append_way(b"No die plays from ", step, way, text),
        BrokenRule::MoreDice(most) => append_more_dice(*most, text),
        BrokenRule::Larger => text.extend_from_slice(b"The larger die must be played."),
    }
}

/// Appends the rule that a move breaks on a board, in these numbers; nothing if none can be named.
///
/// Errors: if memory runs out.
pub fn append_rule(
    game: &GameBoard,
    numbers: Numbers,
    play: &Play,
    text: &mut Vec<u8>,
) -> Result<(), AllocError>
    ensures { OnOk result (SaysBroken numbers (game_of game.now) (hops_of play.now) text.old.items text.new.items) }
{
    let board = game.board();
    let dice = (board.die(FIRST_DIE), board.die(SECOND_DIE));
    match broken_rule(game.position(), dice, play) {
        Some(broken) => append_broken(&broken, numbers.way(game.direction()), text),
        None => Ok(()),
    }
}

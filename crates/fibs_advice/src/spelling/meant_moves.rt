//! Which move is meant by what was typed: just its steps; or, if the rules forbid these, the only legal move after
//! which the checkers stand the same.
ghost use Rattle.std.specs.Prelude.{◌≡◌, true, IfOk, IfSome, option_map};
ghost use Rattle.fibs_commands.specs.TextOf.{text_of};
ghost use Rattle.fibs_position.specs.DecisionValue.{move};
ghost use Rattle.fibs_rules.specs.PlayValue.{hops_of};
ghost use Rattle.fibs_session.specs.Calls.Standing.{StandsAfter};
ghost use Rattle.fibs_session.specs.History.Machine.{Talk, shown_now};
ghost use Rattle.fibs_session.specs.Typing.{way_now};
ghost use Rattle.fibs_advice.specs.Sending.{rules_allow};
ghost use Rattle.fibs_advice.specs.Spelled.{IsMove};
ghost use Rattle.fibs_advice.specs.Spelling.{IsMeantBy, IsReadAs, LeadsSame, steps_shown};

use crate::advised::is_allowed;
use crate::spelling::moves::{only_meaning, typed_move};
use fibs_commands::{CommandText, decision_text};
use fibs_position::{Decision, Direction, Numbers, Play};
use fibs_session::Client;
use std::alloc::{AllocError, Global};

/// Which way the user goes by these numbers, on the board that is shown.
pub fn way_now(client: &Client, numbers: Numbers) -> Direction
    ensures { (t : Talk) → StandsAfter client.now t → result ≡ way_now numbers t }
{
    numbers.way(client.direction().unwrap_or(Direction::Down))
}

/// The only legal move to the same places as one that was typed, if there is just one.
fn only_legal_move(alloc: Global, client: &Client, typed: &Play) -> Result<Option<Play>, AllocError>
    ensures { IfOk result (λ found. IfSome found (λ play. LeadsSame (hops_of typed.now) (hops_of play)
        × ((t : Talk) → StandsAfter client.now t →
        rules_allow (shown_now t) (move (hops_of play)) ≡ true))) }
{
    let Some(game) = client.game() else {
        return Ok(None);
    };
    let plays = game.position().plays(alloc)?;
    match only_meaning(typed, plays.as_slice()) {
        Some(play) if is_allowed(client, &Decision::Move(play)) => Ok(Some(play)),
        _ => Ok(None),
    }
}

/// The move that was meant by one that was typed: that one, if the rules allow it, or if no other can be meant.
fn meant(alloc: Global, client: &Client, typed: &Play) -> Result<Play, AllocError>
    ensures { IfOk result (λ play. (t : Talk) → StandsAfter client.now t
        → IsMeantBy t (hops_of typed.now) (hops_of play)) }
{
    if is_allowed(client, &Decision::Move(*typed)) {
        return Ok(*typed);
    }
    match only_legal_move(alloc, client, typed)? {
        Some(play) => Ok(play),
        None => Ok(*typed),
    }
}

/// The move that a line shows, by the numbers that the user reads: just its steps, or, if the rules forbid these,
/// the only legal move after which the checkers stand the same.
///
/// Errors: if memory runs out.
pub fn shown_move(
    alloc: Global,
    client: &Client,
    numbers: Numbers,
    line: &[u8],
) -> Result<Option<Play>, AllocError>
    ensures { IfOk result (λ read. (t : Talk) → StandsAfter client.now t
        → IsReadAs t (steps_shown (way_now numbers t) line.now) (option_map hops_of read)) }
{
    match typed_move(line, way_now(client, numbers)) {
        None => Ok(None),
        Some(typed) => Ok(Some(meant(alloc, client, &typed)?)),
    }
}

/// The command of the move that a line shows, if it shows one, in the numbers in which it does.
pub(crate) fn move_command(
    alloc: Global,
    client: &Client,
    numbers: Numbers,
    line: &[u8],
) -> Result<Option<CommandText>, AllocError>
    ensures { IfOk result (λ found. IfSome found (λ command. (t : Talk) → StandsAfter client.now t →
        IsMove t (way_now numbers t) line.now (text_of command))) }
{
    match shown_move(alloc, client, numbers, line)? {
        None => Ok(None),
        Some(play) => {
            let way = way_now(client, numbers);
            Ok(Some(decision_text(&Decision::Move(play), way)))
        }
    }
}

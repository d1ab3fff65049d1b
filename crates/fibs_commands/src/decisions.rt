//! Decisions as commands.

ghost use Rattle.std.specs.Prelude.{◌≡◌, ◌≤◌, ◌+◌, ◌++◌, length, codes};
ghost use Rattle.fibs_position.specs.DecisionValue.{decision_of};
ghost use Rattle.fibs_rules.specs.PlayValue.{hops_of};
ghost use Rattle.fibs_commands.specs.Commands.{place_text, steps_text, stake_text, command_of};
ghost use Rattle.fibs_commands.specs.TextOf.{text_of};

use super::text::{CommandText, command};
use fibs_position::{Decision, Direction, Play, Stake};
use itoa::Buffer;

/// The bar, in the player's own numbering.
pub const BAR: u8 = 25;

/// The checkers borne off, in the player's own numbering.
pub const OFF: u8 = 0;

/// Appends a place.
fn push_place(text: &mut CommandText, place: u8, direction: Direction)
    requires place { place ≤ 25 }
    requires room { length (text_of text.old) ≤ 509 }
    ensures appended { text_of text.new ≡ text_of text.old ++ place_text direction place }
    ensures short { length (text_of text.new) ≤ length (text_of text.old) + 3 }
{
    match place {
        BAR => text.push_str("bar"),
        OFF => text.push_str("off"),
        _ => {
            let mut buffer = Buffer::new();
            text.push_str(buffer.format(direction.line_place(place)));
        }
    }
}

/// `move`, and the steps of the play.
fn move_text(play: &Play, direction: Direction) -> CommandText
    ensures { text_of result ≡ codes "move" ++ steps_text direction (hops_of play.now) }
{
    let steps = play.steps();
    let mut text = command("move");
    for step in steps {
        text.push_str(" ");
        push_place(&mut text, step.source(), direction);
        text.push_str("-");
        push_place(&mut text, step.target(), direction);
    }
    text
}

/// `resign` and the letter of the stake.
fn resignation_text(stake: Stake) -> CommandText
    ensures { text_of result ≡ codes "resign " ++ stake_text stake }
{
    match stake {
        Stake::Normal => command("resign n"),
        Stake::Gammon => command("resign g"),
        Stake::Backgammon => command("resign b"),
    }
}

/// The command of a decision: `roll`, `double`, `accept`, `reject`, `resign n`, `resign g`, `resign b`, or `move` and
/// for each step a space and `SOURCE-TARGET` in the server's place numbers, with `bar` and `off`. A play without a step
/// is `move`.
///
/// `direction` is that of the board on which the player decides.
#[tactic(auto, unfolding(crate::specs::Commands::command_of))]
pub fn decision_text(decision: &Decision, direction: Direction) -> CommandText
    ensures { text_of result ≡ command_of direction (decision_of decision.now) }
{
    match decision {
        Decision::Roll => command("roll"),
        Decision::Double => command("double"),
        Decision::Accept => command("accept"),
        Decision::Reject => command("reject"),
        Decision::Move(play) => move_text(play, direction),
        Decision::Resign(stake) => resignation_text(*stake),
    }
}

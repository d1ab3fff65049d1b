//! Moves that the server tells, and a move that was sent, in the numbers that the user reads.
ghost use Rattle.std.specs.Prelude.{◌≡◌, ◌++◌, IfOk, IfSome, OnOk, option_map};
ghost use Rattle.fibs_position.specs.DecisionValue.{decision_of};
ghost use Rattle.fibs_commands.specs.Commands.{steps_text};
ghost use Rattle.fibs_rules.specs.PlayValue.{hops_of};
ghost use Rattle.fibs_advice.specs.Moved.{beside_in, beside_text, has_move, has_step, moved_text, names_place, names_step, names_steps, says_move, sent_text, sent_told};

use crate::spelling::moves::typed_move;
use fibs_commands::{decision_text, read_command};
use fibs_fields::decimal::read_decimal;
use fibs_fields::split::split;
use fibs_position::{Decision, Direction, Numbers, Play};
use std::alloc::{AllocError, Global};

/// A move that the server tells.
#[derive(Clone, Copy)]
pub struct Moved<'a> {
    /// Who moves.
    pub name: &'a [u8],
    /// The steps, as if the user made them: he counts the places so that he goes down.
    pub play: Play,
}

/// The move that a text may tell, if the user goes this way by its numbers.
fn guess(text: &[u8], direction: Direction) -> Option<Moved<'_>> {
    let (name, said) = split(text, b' ');
    let steps = said?.strip_prefix(b"moves ")?.strip_suffix(b" .")?;
    Some(Moved {
        name,
        play: typed_move(steps, direction)?,
    })
}

/// The bytes of a command of a move before its steps: `move`.
const WORD: usize = 4;

/// Appends the steps of a play as its command has them, each after a space.
#[tactic(auto, unfolding(fibs_commands::specs::Commands::command_of))]
pub(crate) fn append_steps(
    play: &Play,
    way: Direction,
    text: &mut Vec<u8>,
) -> Result<(), AllocError>
    ensures { OnOk result (text.new.items ≡ text.old.items ++ steps_text way (hops_of play.now)) }
{
    let command = decision_text(&Decision::Move(*play), way);
    text.extend_from_slice(&command.as_bytes()[WORD..])
}

/// Appends who moves, and how, by numbers by which the user goes this way.
///
/// Errors: if memory runs out.
pub fn append_moved(
    name: &[u8],
    play: &Play,
    way: Direction,
    text: &mut Vec<u8>,
) -> Result<(), AllocError>
    ensures { OnOk result (text.new.items ≡ text.old.items ++ moved_text way name.now (hops_of play.now)) }
{
    text.extend_from_slice(name)?;
    text.extend_from_slice(b" moves")?;
    append_steps(play, way, text)?;
    text.extend_from_slice(b" .")
}

/// The move that a text of the server tells, if the whole text is one, and the user goes this way by its numbers. It is
/// told again, and compared.
///
/// Errors: if memory runs out.
pub fn read_moved<'a>(
    alloc: Global,
    text: &'a [u8],
    direction: Direction,
) -> Result<Option<Moved<'a>>, AllocError>
    ensures { IfOk result (λ read. IfSome read (λ m. text.now ≡ moved_text direction m.name.now (hops_of m.play))) }
{
    let Some(moved) = guess(text, direction) else {
        return Ok(None);
    };
    let mut told = Vec::new(alloc);
    append_moved(moved.name, &moved.play, direction, &mut told)?;
    if told.as_slice() == text {
        Ok(Some(moved))
    } else {
        Ok(None)
    }
}

/// Whether a word names a place.
fn is_place(name: &[u8]) -> bool
    ensures { result ≡ names_place name.now }
{
    if name == b"bar".as_slice() || name == b"off".as_slice() {
        return true;
    }
    match read_decimal(name, 24) {
        Some(number) => number > 0,
        None => false,
    }
}

/// Whether a word names two places, as a step does.
fn is_step(word: &[u8]) -> bool
    ensures { result ≡ names_step word.now }
{
    match split(word, b'-') {
        (source, Some(target)) => is_place(source) && is_place(target),
        (_, None) => false,
    }
}

/// Whether a text names the places of a step.
pub fn has_step(text: &[u8]) -> bool
    ensures { result ≡ has_step text.now }
{
    text.split(|byte| *byte == b' ').any(is_step)
}

/// Whether a word speaks of moving.
fn says_move(word: &[u8]) -> bool
    ensures { result ≡ says_move word.now }
{
    word.starts_with(b"move")
}

/// Whether a text speaks of moving.
fn has_move(text: &[u8]) -> bool
    ensures { result ≡ has_move text.now }
{
    text.split(|byte| *byte == b' ').any(says_move)
}

/// Whether a text speaks of moving, and names the places of a step.
pub fn names_steps(text: &[u8]) -> bool
    ensures { result ≡ names_steps text.now }
{
    has_move(text) && has_step(text)
}

/// Appends the steps of a play in the user's own numbers, behind what was sent.
#[tactic(auto, unfolding(crate::specs::Moved::beside_text))]
fn append_beside(play: &Play, text: &mut Vec<u8>) -> Result<(), AllocError>
    ensures { OnOk result (text.new.items ≡ text.old.items ++ beside_text (hops_of play.now)) }
{
    text.extend_from_slice(b" (in your numbers")?;
    append_steps(play, Direction::Down, text)?;
    text.extend_from_slice(b")")
}

/// Appends the steps of a decision in the numbers by which the user goes this way, if they differ from the server's.
fn append_own(
    direction: Direction,
    way: Direction,
    decision: Option<Decision>,
    text: &mut Vec<u8>,
) -> Result<(), AllocError>
    ensures { OnOk result (text.new.items
        ≡ text.old.items ++ beside_in direction way (option_map decision_of decision)) }
{
    match (direction, way, decision) {
        (Direction::Up, Direction::Down, Some(Decision::Move(play))) => {
            if play.steps().is_empty() {
                Ok(())
            } else {
                append_beside(&play, text)
            }
        }
        _ => Ok(()),
    }
}

/// Appends a command that was sent from a board on which the user goes this way: of a move also its steps in the
/// numbers that he reads, if those are others.
///
/// Errors: if memory runs out.
pub fn append_sent(
    command: &[u8],
    direction: Direction,
    numbers: Numbers,
    text: &mut Vec<u8>,
) -> Result<(), AllocError>
    ensures { OnOk result (text.new.items ≡ text.old.items ++ sent_text numbers direction command.now) }
{
    text.extend_from_slice(command)?;
    let decision = read_command(command, direction);
    append_own(direction, numbers.way(direction), decision, text)
}

/// Appends a command that was sent from a board on which the user goes this way, in the numbers that he reads alone: a
/// decision as he may type it, any other line as it was sent.
///
/// Errors: if memory runs out.
pub fn append_sent_told(
    command: &[u8],
    direction: Direction,
    numbers: Numbers,
    text: &mut Vec<u8>,
) -> Result<(), AllocError>
    ensures { OnOk result (text.new.items ≡ text.old.items ++ sent_told numbers direction command.now) }
{
    match read_command(command, direction) {
        None => text.extend_from_slice(command),
        Some(decision) => {
            let spelled = decision_text(&decision, numbers.way(direction));
            text.extend_from_slice(spelled.as_bytes())
        }
    }
}

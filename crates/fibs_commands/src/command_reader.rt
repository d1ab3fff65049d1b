//! Decisions, read from their commands.

ghost use Rattle.std.specs.Prelude.{◌≡◌, ◌≤◌, ◌↔◌, [], IfSome, option_map, Some};
ghost use Rattle.fibs_fields.specs.Decimal.{decimal_up_to};
ghost use Rattle.fibs_fields.specs.Split.{seen};
ghost use Rattle.fibs_position.specs.DecisionValue.{decision_of, DecisionValue};
ghost use Rattle.fibs_rules.specs.PlayValue.{hops_of};
ghost use Rattle.fibs_rules.specs.Hop.{hop_of};
ghost use Rattle.fibs_commands.specs.CommandReading.{ReadCommand, numbered_place, place_in, step_in, play_from, words_after, stake_in, turn_in, read_command};

use super::decisions::{BAR, OFF};
use crate::laws::read_command_is_exact;
use fibs_fields::decimal::read_decimal;
use fibs_fields::split::split;
use fibs_position::{Decision, Direction, Play, Stake, Step};

/// The place with one of the server's numbers, in the player's own numbering.
fn numbered_place(name: &[u8], direction: Direction) -> Option<u8>
    ensures value { result ≡ numbered_place direction (decimal_up_to 24 name.now) }
    ensures place { IfSome result (λ place. place ≤ 25) }
{
    let number = read_decimal(name, 24)?;
    if number == 0 {
        return None;
    }
    Some(direction.line_place(number as u8))
}

/// The place of this name, in the player's own numbering.
#[tactic(auto, unfolding(crate::specs::CommandReading::place_in))]
fn read_place(name: &[u8], direction: Direction) -> Option<u8>
    ensures value { result ≡ place_in direction name.now }
    ensures place { IfSome result (λ place. place ≤ 25) }
{
    if name == b"bar".as_slice() {
        Some(BAR)
    } else if name == b"off".as_slice() {
        Some(OFF)
    } else {
        numbered_place(name, direction)
    }
}

/// The step of a word.
#[tactic(auto, unfolding(crate::specs::CommandReading::step_in))]
fn read_step(word: &[u8], direction: Direction) -> Option<Step>
    ensures { option_map hop_of result ≡ step_in direction word.now }
{
    let (source, target) = split(word, b'-');
    let source = read_place(source, direction)?;
    let target = read_place(target?, direction)?;
    Step::new(source, target)
}

/// The play of the words in what follows the word `move` and a space, if there is something.
fn read_play(words: Option<&[u8]>, direction: Direction) -> Option<Play>
    ensures { option_map hops_of result ≡ play_from direction [] (words_after (seen words.entry)) }
{
    let mut play = Play::new();
    let mut rest = words;
    while let Some(text) = rest {
        let (word, after) = split(text, b' ');
        let step = read_step(word, direction)?;
        if !play.push(step) {
            return None;
        }
        rest = after;
    }
    Some(play)
}

/// The stake that a letter says.
#[tactic(auto, unfolding(crate::specs::CommandReading::stake_in))]
fn read_stake(letter: &[u8]) -> Option<Stake>
    ensures { result ≡ stake_in letter.now }
{
    if letter == b"n".as_slice() {
        Some(Stake::Normal)
    } else if letter == b"g".as_slice() {
        Some(Stake::Gammon)
    } else if letter == b"b".as_slice() {
        Some(Stake::Backgammon)
    } else {
        None
    }
}

/// The decision of one word.
#[tactic(auto, unfolding(crate::specs::CommandReading::turn_in))]
fn read_turn(word: &[u8]) -> Option<Decision>
    ensures { option_map decision_of result ≡ turn_in word.now }
{
    if word == b"roll".as_slice() {
        Some(Decision::Roll)
    } else if word == b"double".as_slice() {
        Some(Decision::Double)
    } else if word == b"accept".as_slice() {
        Some(Decision::Accept)
    } else if word == b"reject".as_slice() {
        Some(Decision::Reject)
    } else {
        None
    }
}

/// The decision whose command the text is.
#[tactic(auto, unfolding(crate::specs::CommandReading::read_command, crate::specs::CommandReading::decision_in))]
fn read_words(text: &[u8], direction: Direction) -> Option<Decision>
    ensures { option_map decision_of result ≡ read_command direction text.now }
{
    let (word, rest) = split(text, b' ');
    if word == b"move".as_slice() {
        return read_play(rest, direction).map(Decision::Move);
    }
    if word == b"resign".as_slice() {
        return read_stake(rest?).map(Decision::Resign);
    }
    match rest {
        Some(_) => None,
        None => read_turn(word),
    }
}

/// The decision whose command the text is, without its line end, if it is one. The places are in the server's
/// numbers, for a player who goes in this direction.
pub fn read_command(text: &[u8], direction: Direction) -> Option<Decision>
    ensures exact { (d : DecisionValue) → (option_map decision_of result ≡ Some d) ↔ ReadCommand text.now direction d }
    ensures value { option_map decision_of result ≡ read_command direction text.now }
{
    // A law, which costs nothing when it runs.
    read_command_is_exact();
    read_words(text, direction)
}

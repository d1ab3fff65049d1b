//! What texts say of what has happened: dice, steps, points, lengths and scores.

ghost use Rattle.std.specs.Prelude.{◌≡◌, ◌≢◌, ℕ, List, MatchOption};
ghost use Rattle.fibs_position.specs.BoardEffect.{IsDie};
ghost use Rattle.fibs_rules.specs.Hop.{Hop};
ghost use Rattle.fibs_rules.specs.PlayValue.{hops_of};
ghost use Rattle.fibs_events.specs.Texts.{SaysDice, SaysOpening, SaysPlay, digit_of, length_in, length_said, number_in, points_in, points_said, score_in, score_said};

use crate::event::Length;
use arrayvec::ArrayVec;
use fibs_commands::read_command;
use fibs_fields::decimal::read_decimal;
use fibs_fields::split::split;
use fibs_position::{Decision, Direction, Play, is_die};

/// The most points that are read.
const MOST_POINTS: u64 = 99_999_999;

/// How many bytes a command of a move may have.
const COMMAND_ROOM: usize = 64;

/// The number of a digit that is a die.
fn die(digit: u8) -> Option<u8>
    ensures { MatchOption result ((n : ℕ) → IsDie n → digit ≢ digit_of n) (λ n. IsDie n × (digit ≡ digit_of n)) }
{
    let number = digit.wrapping_sub(b'0');
    if is_die(number) { Some(number) } else { None }
}

/// The dice of `6 and 3.`.
pub(crate) fn dice_in(text: &[u8]) -> Option<[u8; 2]>
    ensures { MatchOption result ((dice : List ℕ) → ¬ SaysDice text.now dice) (λ dice. SaysDice text.now dice) }
{
    match text {
        [first, b' ', b'a', b'n', b'd', b' ', second, b'.'] => Some([die(*first)?, die(*second)?]),
        _ => None,
    }
}

/// The own die and that of the opponent in `5, eve rolled 3`, and his name.
pub(crate) fn opening_in(text: &[u8]) -> Option<([u8; 2], &[u8])>
    ensures { MatchOption result ((dice name : List ℕ) → ¬ SaysOpening text.now dice name)
        (λ told. SaysOpening text.now told.0 told.1.now) }
{
    let [own, b',', b' ', rest @ ..] = text else {
        return None;
    };
    let (name, rolled) = split(rest, b' ');
    let [other] = rolled?.strip_prefix(b"rolled ")? else {
        return None;
    };
    Some(([die(*own)?, die(*other)?], name))
}

/// The play of `24-18 18-13 .`, for a player who goes this way by its numbers.
pub(crate) fn play_in(text: &[u8], direction: Direction) -> Option<Play>
    ensures { MatchOption result ((steps : List Hop) → ¬ SaysPlay direction text.now steps)
        (λ play. SaysPlay direction text.now (hops_of play)) }
{
    let steps = text.strip_suffix(b" .")?;
    let mut command: ArrayVec<u8, COMMAND_ROOM> = ArrayVec::new();
    command.try_extend_from_slice(b"move ").ok()?;
    command.try_extend_from_slice(steps).ok()?;
    match read_command(command.as_slice(), direction)? {
        Decision::Move(play) => Some(play),
        _ => None,
    }
}

/// The number of a word.
fn number(word: &[u8]) -> Option<u32>
    ensures { result ≡ points_said word.now }
{
    let number = read_decimal(word, MOST_POINTS)?;
    u32::try_from(number).ok()
}

/// The first number among the words of a text.
pub(crate) fn first_number(text: &[u8]) -> Option<u32>
    ensures { result ≡ number_in text.now }
{
    for word in text.split(|byte| *byte == b' ') {
        if let Some(number) = number(word) {
            return Some(number);
        }
    }
    None
}

/// How many points a game is given up for: the text begins with them, or has them after the word `win`, and the name
/// before that may be a number.
pub(crate) fn points_in(text: &[u8]) -> Option<u32>
    ensures { result ≡ points_in text.now }
{
    let mut is_next = true;
    for word in text.split(|byte| *byte == b' ') {
        if is_next {
            if let Some(points) = number(word) {
                return Some(points);
            }
        }
        is_next = word == b"win".as_slice();
    }
    None
}

/// To how many points a match is, by the word after `a` or `an`.
fn length(word: &[u8]) -> Option<Length>
    ensures { result ≡ length_said word.now }
{
    if word == b"unlimited".as_slice() {
        return Some(Length::Unlimited);
    }
    Some(Length::Points(number(word)?))
}

/// To how many points a match is, in `a 3 point match` or `an unlimited match`.
pub(crate) fn length_in(text: &[u8]) -> Option<Length>
    ensures { result ≡ length_in text.now }
{
    let mut is_next = false;
    for word in text.split(|byte| *byte == b' ') {
        if is_next {
            if let Some(length) = length(word) {
                return Some(length);
            }
        }
        is_next = word == b"a".as_slice() || word == b"an".as_slice();
    }
    None
}

/// The points of a word like `3-1`.
fn score(word: &[u8]) -> Option<[u32; 2]>
    ensures { result ≡ score_said word.now }
{
    let (first, second) = split(word, b'-');
    Some([number(first)?, number(second?)?])
}

/// The points of the winner and of the other in `3 point match 3-1 .`.
pub(crate) fn score_in(text: &[u8]) -> Option<[u32; 2]>
    ensures { result ≡ score_in text.now }
{
    for word in text.split(|byte| *byte == b' ') {
        if let Some(score) = score(word) {
            return Some(score);
        }
    }
    None
}

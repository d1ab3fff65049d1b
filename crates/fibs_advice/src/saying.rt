//! How what is advised is said.
ghost use Rattle.std.specs.Prelude.{◌≡◌, ◌++◌, OnOk, length, nat_lt, take};
ghost use Rattle.fibs_commands.specs.Commands.{command_of};
ghost use Rattle.fibs_position.specs.DecisionValue.{decision_of};
ghost use Rattle.fibs_advice.specs.Rows.{words_before, words_after};
ghost use Rattle.fibs_advice.specs.Advised.{advice_text, beginning, gap, goes_on_text, named_in, ways_text, decision_word, invited_text, opponent_text, saved_text};

use crate::advised::Advice;
use crate::offers::{append_offers, first_way};
use crate::row::Row;
use fibs_commands::decision_text;
use fibs_position::{Decision, Direction, Numbers};
use std::alloc::AllocError;

/// Appends the command of a decision, by numbers by which the user goes this way.
fn append_command(way: Direction, decision: Decision, text: &mut Vec<u8>) -> Result<(), AllocError>
    ensures { OnOk result (text.new.items ≡ text.old.items ++ command_of way (decision_of decision)) }
{
    let command = decision_text(&decision, way);
    text.extend_from_slice(command.as_bytes())
}

/// Appends what is made in place of a decision that waits: one decision, or two.
fn append_ways(
    way: Direction,
    send: Option<Decision>,
    other: Option<Decision>,
    text: &mut Vec<u8>,
) -> Result<(), AllocError>
    ensures { OnOk result (text.new.items ≡ text.old.items ++ ways_text way send other) }
{
    match (send, other) {
        (None, None) => Ok(()),
        (Some(one), None) | (None, Some(one)) => append_command(way, one, text),
        (Some(one), Some(two)) => {
            append_command(way, one, text)?;
            text.extend_from_slice(b", or ")?;
            append_command(way, two, text)
        }
    }
}

/// Appends the command of a decision in a row of its own, if there is one, and how it goes.
fn append_goes_on(
    how: &[u8],
    way: Direction,
    decision: Option<Decision>,
    text: &mut Vec<u8>,
) -> Result<(), AllocError>
    ensures { OnOk result (text.new.items ≡ text.old.items ++ goes_on_text how.now way decision) }
{
    match decision {
        None => Ok(()),
        Some(decision) => {
            let command = decision_text(&decision, way);
            text.extend_from_slice(b"If the game goes on: ")?;
            text.extend_from_slice(how)?;
            text.extend_from_slice(command.as_bytes())?;
            text.extend_from_slice(b"\n")
        }
    }
}

/// Who plays against the user.
fn opponent_text(opponent: &[u8]) -> &[u8]
    ensures { result.now ≡ opponent_text opponent.now }
{
    if opponent.is_empty() {
        b"your opponent"
    } else {
        opponent
    }
}

/// The first word of a decision that was sent.
fn decision_word(asked: Option<Decision>) -> &'static [u8]
    ensures { result.now ≡ decision_word asked }
{
    match asked {
        None => b"It",
        Some(Decision::Roll) => b"roll",
        Some(Decision::Double) => b"double",
        Some(Decision::Accept) => b"accept",
        Some(Decision::Reject) => b"reject",
        Some(Decision::Move(_)) => b"move",
        Some(Decision::Resign(_)) => b"resign",
    }
}

/// How much of a name is said that is not to be typed. A longer one takes a row of its own if it is.
const MOST_NAMED: usize = 24;

/// What is said of a name that is not to be typed.
fn named(name: &[u8]) -> &[u8]
    ensures { result.now ≡ take 24 name.now }
{
    &name[..name.len().min(MOST_NAMED)]
}

/// Whether a line with a name has a row of its own.
fn is_long(name: &[u8]) -> bool
    ensures { result ≡ nat_lt 24 (length name.now) }
{
    name.len() > MOST_NAMED
}

/// What comes before a line with a name, which is to be typed as it stands.
pub fn gap(name: &[u8]) -> &'static [u8]
    ensures { result.now ≡ gap name.now }
{
    if is_long(name) { b"\n" } else { b" " }
}

/// How a row begins.
fn beginning<'a>(row: Row, opponent: &'a [u8], asked: Option<Decision>) -> &'a [u8]
    ensures { result.now ≡ beginning row (opponent_text opponent.now) (decision_word asked) }
{
    match row {
        Row::Resigns
        | Row::Concedes
        | Row::Owes
        | Row::Unsettled
        | Row::Unanswered
        | Row::Doubles
        | Row::Declined
        | Row::Thinks
        | Row::Joined
        | Row::Absent => opponent_text(opponent),
        Row::Refused | Row::Waits => decision_word(asked),
        _ => b"",
    }
}

/// Appends an opponent with whom a match is resumed: whom one invites, or who invites.
fn append_opponent(opponent: &[u8], text: &mut Vec<u8>) -> Result<(), AllocError>
    ensures { OnOk result (text.new.items ≡ text.old.items ++ saved_text opponent.now) }
{
    text.extend_from_slice(gap(opponent))?;
    text.extend_from_slice(b"invite ")?;
    text.extend_from_slice(opponent)?;
    text.extend_from_slice(b",\nor join ")?;
    text.extend_from_slice(opponent)?;
    text.extend_from_slice(b",")?;
    text.extend_from_slice(gap(opponent))
}

/// Appends how an invitation is accepted.
pub fn append_join(inviter: &[u8], text: &mut Vec<u8>) -> Result<(), AllocError>
    ensures { OnOk result (text.new.items ≡ text.old.items ++ invited_text inviter.now) }
{
    text.extend_from_slice(gap(inviter))?;
    text.extend_from_slice(b"join ")?;
    text.extend_from_slice(inviter)
}

/// Appends what a row names: in these numbers, but in the server's if it goes as it is, by `send`.
fn append_named(
    advice: &Advice,
    numbers: Numbers,
    opponent: &[u8],
    inviter: &[u8],
    text: &mut Vec<u8>,
) -> Result<(), AllocError>
    ensures { OnOk result (text.new.items
        ≡ text.old.items ++ named_in numbers advice.now.row opponent.now inviter.now advice.now) }
{
    let direction = advice.offers.direction;
    match advice.row {
        Row::Offers | Row::Resigns | Row::Owes => append_offers(&advice.offers, numbers, text),
        Row::Declined | Row::Same | Row::Back => append_ways(
            numbers.way(direction),
            advice.send,
            advice.other,
            text,
        ),
        Row::Unsettled | Row::Unanswered => {
            let first = first_way(advice.offers.roll, advice.offers.example);
            append_goes_on(b"", numbers.way(direction), first, text)
        }
        Row::Thinks => append_goes_on(b"send ", direction, advice.send, text),
        Row::Saved => append_opponent(opponent, text),
        Row::Invited => append_join(inviter, text),
        _ => Ok(()),
    }
}

/// Appends what is advised to a user who reads these numbers, and plays against this opponent, or whom this player
/// invites. A line that is to be typed has the whole name.
pub fn append_advice(
    advice: &Advice,
    numbers: Numbers,
    opponent: &[u8],
    inviter: &[u8],
    text: &mut Vec<u8>,
) -> Result<(), AllocError>
    ensures { OnOk result (text.new.items ≡ text.old.items ++ advice_text numbers opponent.now inviter.now advice.now) }
{
    text.extend_from_slice(beginning(advice.row, named(opponent), advice.asked))?;
    text.extend_from_slice(advice.row.words_before())?;
    append_named(advice, numbers, opponent, inviter, text)?;
    text.extend_from_slice(advice.row.words_after())
}

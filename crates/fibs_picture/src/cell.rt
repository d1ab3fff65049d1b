//! The cells of a board, by row and column.
ghost use Rattle.std.specs.Prelude.{◌≡◌, ◌<◌, ◌≤◌};
ghost use Rattle.fibs_position.specs.PositionValue.{position_value};
ghost use Rattle.fibs_picture.specs.Cell.{place_of, label, place_ink, bar_letter, floor, ink_at, byte_at, place_mark, bar_mark, mark_at};
ghost use Rattle.fibs_picture.specs.Ink.{IsSmall};
ghost use Rattle.fibs_picture.specs.Strip.{IsWithin};

use crate::ink::{Ink, byte_of, stack};
use crate::look::Look;
use crate::mark::{Arrivals, Mark, is_arrived};
use crate::strip::Strip;
use fibs_position::{Direction, Position};

/// One of the two halves of a picture.
#[derive(Clone, Copy, Debug, PartialEq, Eq)]
pub enum Half {
    /// Its places count up from the left, from 13.
    Upper,
    /// Its places count down from the left, from 12.
    Lower,
}

/// A row of a board.
#[derive(Clone, Copy, Debug, PartialEq, Eq)]
pub enum Drawn {
    /// The edge of a half.
    Edge(Half),
    /// What is at a height in a half.
    Layer(Half, u8),
    /// What is between the halves.
    Middle,
}

/// The place so many from the left.
fn place_of(half: Half, index: u8) -> u8
    requires { index < 12 }
    ensures value { result ≡ place_of half index }
    ensures low { 1 ≤ result }
    ensures high { result ≤ 24 }
{
    match half {
        Half::Upper => 13 + index,
        Half::Lower => 12 - index,
    }
}

/// What stands in a column of a place at a height.
fn place_ink(position: &Position, place: u8, height: u8, part: u8) -> Ink
    requires low { 1 ≤ place }
    requires high { place ≤ 24 }
    ensures value { result ≡ place_ink (position_value position.now).standing.checkers place height part }
    ensures small { IsSmall result }
{
    stack(position.own(place), position.other(place), height, part)
}

/// A letter of the bar.
fn bar_letter(part: u8) -> u8
    ensures { result ≡ bar_letter part }
{
    if part == 0 {
        b'B'
    } else if part == 1 {
        b'A'
    } else {
        b'R'
    }
}

/// A byte of the number of a place.
fn label(direction: Direction, place: u8, part: u8) -> u8
    requires { place ≤ 25 }
    ensures { result ≡ label direction place part }
{
    let number = direction.line_place(place);
    if part == 1 {
        b'0' + number % 10
    } else if part == 0 && number >= 10 {
        b'0' + number / 10
    } else {
        b'-'
    }
}

/// The byte of a row where nothing stands.
fn floor(look: &Look, direction: Direction, drawn: Drawn, strip: Strip) -> u8
    requires { IsWithin strip }
    ensures { result ≡ floor look.now direction drawn strip }
{
    match (drawn, strip) {
        (Drawn::Edge(_), Strip::Wall) => b'+',
        (Drawn::Edge(_), Strip::Bar(_)) => b'-',
        (Drawn::Edge(half), Strip::Place(index, part)) => label(
            look.numbers.way(direction),
            place_of(half, index),
            part,
        ),
        (Drawn::Layer(_, _) | Drawn::Middle, Strip::Wall) => b'|',
        (Drawn::Middle, Strip::Bar(part)) => bar_letter(part),
        _ => b' ',
    }
}

/// What stands in a column of a row.
fn ink_at(position: &Position, drawn: Drawn, strip: Strip) -> Ink
    requires { IsWithin strip }
    ensures value { result ≡ ink_at (position_value position.now) drawn strip }
    ensures small { IsSmall result }
{
    match (drawn, strip) {
        (Drawn::Layer(half, height), Strip::Place(index, part)) => {
            place_ink(position, place_of(half, index), height, part)
        }
        (Drawn::Layer(Half::Upper, height), Strip::Bar(part)) => {
            stack(position.own(25), 0, height, part)
        }
        (Drawn::Layer(Half::Lower, height), Strip::Bar(part)) => {
            stack(0, position.other_bar(), height, part)
        }
        _ => Ink::Blank,
    }
}

/// The byte in a column of a row.
pub fn byte_at(look: &Look, position: &Position, drawn: Drawn, strip: Strip) -> u8
    requires { IsWithin strip }
    ensures { result ≡ byte_at look.now (position_value position.now) drawn strip }
{
    byte_of(
        look,
        floor(look, position.direction(), drawn, strip),
        ink_at(position, drawn, strip),
    )
}

/// The mark of what stands on a place: a checker of the player's, or one that has come.
fn place_mark(ink: Ink, come: u8, there: u8, height: u8) -> Mark
    ensures { result ≡ place_mark ink come there height }
{
    match ink {
        Ink::Blank => Mark::Plain,
        Ink::Own => Mark::Own,
        Ink::Other | Ink::Digit(_) => {
            if is_arrived(come, there, height) {
                Mark::Arrived
            } else {
                Mark::Plain
            }
        }
    }
}

/// The mark of what stands on the bar.
fn bar_mark(ink: Ink) -> Mark
    ensures { result ≡ bar_mark ink }
{
    match ink {
        Ink::Own => Mark::Own,
        _ => Mark::Plain,
    }
}

/// The mark of a column of a row.
pub fn mark_at(
    look: &Look,
    position: &Position,
    arrivals: &Arrivals,
    drawn: Drawn,
    strip: Strip,
) -> Mark
    requires { IsWithin strip }
    ensures { result ≡ mark_at look.now (position_value position.now) arrivals.now drawn strip }
{
    if !look.is_marked {
        return Mark::Plain;
    }
    let ink = ink_at(position, drawn, strip);
    match (drawn, strip) {
        (Drawn::Layer(half, height), Strip::Place(index, _)) => {
            let place = place_of(half, index);
            let come = arrivals[usize::from(place)];
            place_mark(ink, come, position.other(place), height)
        }
        (Drawn::Layer(_, _), Strip::Bar(_)) => bar_mark(ink),
        _ => Mark::Plain,
    }
}

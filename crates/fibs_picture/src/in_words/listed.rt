//! Places that are listed by their numbers: those on which the player can't come, and the blots of a side.
ghost use Rattle.std.specs.Prelude.{◌≡◌, ◌≤◌, OnOk, IfOk, length};
ghost use Rattle.std.specs.Io.KnownBytes.{Appends};
ghost use Rattle.fibs_position.specs.PositionValue.{position_value};
ghost use Rattle.fibs_picture.specs.InWords.Words.{listed, is_listed, counted_by, joined, next_name, numbers_of, held_row};

use crate::in_words::place::write_place;
use crate::in_words::side::{OFF, Side};
use crate::writing::write_text;
use fibs_position::{Direction, Position};
use std::io;
use std::io::Write;

/// The places on which checkers come to be.
const PLACES: u8 = 24;

/// Which places are listed.
#[derive(Clone, Copy, Debug, PartialEq, Eq)]
pub enum Listed {
    /// Those on which the opponent has two checkers or more.
    Held,
    /// Those on which the player has one.
    OwnBlots,
    /// Those on which the opponent has one.
    OtherBlots,
}

impl Listed {
    /// The side from whose bar the steps to the places are counted.
    fn side(self) -> Side
        ensures { result ≡ counted_by self }
    {
        match self {
            Listed::Held | Listed::OwnBlots => Side::Own,
            Listed::OtherBlots => Side::Other,
        }
    }

    /// Whether the place so many steps from the side's bar is one of them.
    fn has(self, position: &Position, steps: u8) -> bool
        requires low { 1 ≤ steps }
        requires high { steps ≤ 24 }
        ensures { result ≡ is_listed (position_value position.now).standing.checkers self steps }
    {
        match self {
            Listed::Held => position.other(OFF - steps) > 1,
            Listed::OwnBlots => Side::Own.count(position, steps) == 1,
            Listed::OtherBlots => Side::Other.count(position, steps) == 1,
        }
    }
}

/// Writes the number of a place after the numbers of so many others.
fn write_next<W: Write>(
    direction: Direction,
    which: Listed,
    steps: u8,
    count: u8,
    out: &mut W,
) -> io::Result<()>
    requires { steps ≤ 25 }
    ensures { OnOk result (Appends (W.contents out.old) (W.contents out.new)
        (next_name direction (counted_by which) count steps)) }
{
    if count == 0 {
        return write_place(direction, which.side(), steps, out);
    }
    write_text(b", ", out)?;
    write_place(direction, which.side(), steps, out)
}

/// Writes the numbers of places, and answers how many those are.
fn write_places<W: Write>(
    direction: Direction,
    position: &Position,
    which: Listed,
    out: &mut W,
) -> io::Result<u8>
    ensures text { let c = (position_value position.now).standing.checkers in OnOk result
        (Appends (W.contents out.old) (W.contents out.new) (joined direction (counted_by which) (listed c which 24))) }
    ensures count { let c = (position_value position.now).standing.checkers in
        IfOk result (λ n. n ≡ length (listed c which 24)) }
{
    let mut count = 0;
    for before in 0..PLACES {
        if which.has(position, before + 1) {
            write_next(direction, which, before + 1, count, out)?;
            count += 1;
        }
    }
    Ok(count)
}

/// Writes the numbers of places, or that there are none.
pub(crate) fn write_numbers<W: Write>(
    direction: Direction,
    position: &Position,
    which: Listed,
    out: &mut W,
) -> io::Result<()>
    ensures { OnOk result (Appends (W.contents out.old) (W.contents out.new)
        (numbers_of direction (position_value position.now).standing.checkers which)) }
{
    if write_places(direction, position, which, out)? == 0 {
        write_text(b"none", out)
    } else {
        Ok(())
    }
}

/// Writes on which places the player can't come.
#[tactic(auto, unfolding(crate::specs::InWords::Words::held_row))]
pub(crate) fn write_held_row<W: Write>(
    direction: Direction,
    position: &Position,
    out: &mut W,
) -> io::Result<()>
    ensures { OnOk result (Appends (W.contents out.old) (W.contents out.new)
        (held_row direction (position_value position.now).standing.checkers)) }
{
    write_text(b"Held against you: ", out)?;
    write_numbers(direction, position, Listed::Held, out)?;
    write_text(b".", out)
}

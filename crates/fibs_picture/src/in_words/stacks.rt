//! Where the checkers of a side are.
ghost use Rattle.std.specs.Prelude.{◌≤◌, ◌++◌, OnOk};
ghost use Rattle.std.specs.Io.KnownBytes.{Appends};
ghost use Rattle.fibs_position.specs.PositionValue.{position_value};
ghost use Rattle.fibs_picture.specs.InWords.Words.{count_on, stack, stacks, off_said, side_row};

use crate::in_words::place::write_place;
use crate::in_words::side::{OFF, Side};
use crate::writing::{write_digits, write_text};
use fibs_position::{Direction, Position};
use std::io;
use std::io::Write;

/// Writes that so many checkers are on a place of a side; nothing if there are none.
#[tactic(auto, unfolding(crate::specs::InWords::Words::stack))]
fn write_stack<W: Write>(
    direction: Direction,
    position: &Position,
    side: Side,
    steps: u8,
    out: &mut W,
) -> io::Result<()>
    requires { steps ≤ 25 }
    ensures { OnOk result (Appends (W.contents out.old) (W.contents out.new)
        (stack direction side (count_on (position_value position.now).standing.checkers side) steps)) }
{
    let count = side.count(position, steps);
    if count == 0 {
        return Ok(());
    }
    write_digits(count, out)?;
    write_text(b" on ", out)?;
    write_place(direction, side, steps, out)?;
    write_text(b", ", out)
}

/// Writes where the checkers of a side are, from its bar on.
fn write_stacks<W: Write>(
    direction: Direction,
    position: &Position,
    side: Side,
    out: &mut W,
) -> io::Result<()>
    ensures { OnOk result (Appends (W.contents out.old) (W.contents out.new)
        (stacks direction side (count_on (position_value position.now).standing.checkers side) 25)) }
{
    for steps in 0..OFF {
        write_stack(direction, position, side, steps, out)?;
    }
    Ok(())
}

/// Writes how many checkers are off.
fn write_off<W: Write>(count: u8, out: &mut W) -> io::Result<()>
    ensures { OnOk result (Appends (W.contents out.old) (W.contents out.new) (off_said count)) }
{
    if count == 0 {
        return write_text(b"none off.", out);
    }
    write_digits(count, out)?;
    write_text(b" off.", out)
}

/// Writes where the checkers of a side are, and how many are off.
fn write_checkers<W: Write>(
    direction: Direction,
    position: &Position,
    side: Side,
    out: &mut W,
) -> io::Result<()>
    ensures { let count = count_on (position_value position.now).standing.checkers side in
        OnOk result (Appends (W.contents out.old) (W.contents out.new)
        (stacks direction side count 25 ++ off_said (count 25))) }
{
    write_stacks(direction, position, side, out)?;
    write_off(side.count(position, OFF), out)
}

/// Writes a side by its name, how far its checkers have to go, and where they are.
#[tactic(auto, unfolding(crate::specs::InWords::Words::side_row))]
pub fn write_side<W: Write>(
    name: &[u8],
    pips: u32,
    direction: Direction,
    position: &Position,
    side: Side,
    out: &mut W,
) -> io::Result<()>
    ensures { OnOk result (Appends (W.contents out.old) (W.contents out.new)
        (side_row name.now pips direction side (count_on (position_value position.now).standing.checkers side))) }
{
    write_text(name, out)?;
    write_text(b", ", out)?;
    write_digits(pips, out)?;
    write_text(b" pips: ", out)?;
    write_checkers(direction, position, side, out)
}

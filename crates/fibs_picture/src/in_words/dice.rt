//! The dice.
ghost use Rattle.std.specs.Prelude.{◌≡◌, ◌≤◌, ◌==◌, ◌&&◌, OnOk};
ghost use Rattle.std.specs.Io.KnownBytes.{Appends};
ghost use Rattle.fibs_fields.specs.Board.{field_of};
ghost use Rattle.fibs_fields.specs.StoredBoard.{fields_of};
ghost use Rattle.fibs_fields.specs.FieldReading.{natural};
ghost use Rattle.fibs_picture.specs.InWords.Words.{pair, lone_dice, other_dice, dice_row};

use crate::writing::write_text;
use fibs_fields::boards::Board;
use fibs_fields::boards::fields::{FIRST_DIE, OTHER_FIRST_DIE, OTHER_SECOND_DIE, SECOND_DIE};
use std::io;
use std::io::Write;

/// Whether no dice are shown.
pub(crate) fn is_none(first: u8, second: u8) -> bool
    ensures { result ≡ ((first == 0) && (second == 0)) }
{
    first == 0 && second == 0
}

/// Writes two dice.
#[tactic(auto, unfolding(crate::specs::InWords::Words::pair))]
pub(crate) fn write_pair<W: Write>(first: u8, second: u8, out: &mut W) -> io::Result<()>
    requires first { first ≤ 6 }
    requires second { second ≤ 6 }
    ensures { OnOk result (Appends (W.contents out.old) (W.contents out.new) (pair first second)) }
{
    write_text(&[b'0' + first], out)?;
    write_text(b" and ", out)?;
    write_text(&[b'0' + second], out)
}

/// Writes the opponent's dice, if the player's are not shown.
fn write_lone_dice<W: Write>(first: u8, second: u8, out: &mut W) -> io::Result<()>
    requires first { first ≤ 6 }
    requires second { second ≤ 6 }
    ensures { OnOk result (Appends (W.contents out.old) (W.contents out.new) (lone_dice first second)) }
{
    if is_none(first, second) {
        return write_text(b"No dice.", out);
    }
    write_text(b"The opponent's dice ", out)?;
    write_pair(first, second, out)?;
    write_text(b".", out)
}

/// Writes the opponent's dice, after the player's.
fn write_other_dice<W: Write>(first: u8, second: u8, out: &mut W) -> io::Result<()>
    requires first { first ≤ 6 }
    requires second { second ≤ 6 }
    ensures { OnOk result (Appends (W.contents out.old) (W.contents out.new) (other_dice first second)) }
{
    if is_none(first, second) {
        return write_text(b".", out);
    }
    write_text(b", the opponent's ", out)?;
    write_pair(first, second, out)?;
    write_text(b".", out)
}

/// Writes four dice: the player's, and the opponent's.
#[tactic(auto, unfolding(crate::specs::InWords::Words::dice_row))]
fn write_dice<W: Write>(own: (u8, u8), other: (u8, u8), out: &mut W) -> io::Result<()>
    requires own_first { own.0 ≤ 6 }
    requires own_second { own.1 ≤ 6 }
    requires other_first { other.0 ≤ 6 }
    requires other_second { other.1 ≤ 6 }
    ensures { OnOk result (Appends (W.contents out.old) (W.contents out.new)
        (dice_row own.0 own.1 other.0 other.1)) }
{
    if is_none(own.0, own.1) {
        return write_lone_dice(other.0, other.1, out);
    }
    write_text(b"Your dice ", out)?;
    write_pair(own.0, own.1, out)?;
    write_other_dice(other.0, other.1, out)
}

/// Writes the dice of a board.
pub fn write_dice_row<W: Write>(board: &Board, out: &mut W) -> io::Result<()>
    ensures { let b = fields_of board.now in OnOk result (Appends (W.contents out.old) (W.contents out.new)
        (dice_row (natural (field_of b 34)) (natural (field_of b 35)) (natural (field_of b 36))
        (natural (field_of b 37)))) }
{
    write_dice(
        (board.die(FIRST_DIE), board.die(SECOND_DIE)),
        (board.die(OTHER_FIRST_DIE), board.die(OTHER_SECOND_DIE)),
        out,
    )
}

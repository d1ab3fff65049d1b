//! A place by its name.
ghost use Rattle.std.specs.Prelude.{◌≤◌, OnOk};
ghost use Rattle.std.specs.Io.KnownBytes.{Appends};
ghost use Rattle.fibs_picture.specs.InWords.Words.{place_name};

use crate::in_words::side::Side;
use crate::writing::{write_digits, write_text};
use fibs_position::Direction;
use std::io;
use std::io::Write;

/// Writes the name of a place: its number as the player types it, or that it is the bar.
pub fn write_place<W: Write>(
    direction: Direction,
    side: Side,
    steps: u8,
    out: &mut W,
) -> io::Result<()>
    requires { steps ≤ 25 }
    ensures { OnOk result (Appends (W.contents out.old) (W.contents out.new) (place_name direction side steps)) }
{
    if steps == 0 {
        write_text(b"the bar", out)
    } else {
        write_digits(direction.line_place(side.place(steps)), out)
    }
}

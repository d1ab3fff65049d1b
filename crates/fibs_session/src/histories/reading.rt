//! What a line says to a client.

ghost use Rattle.std.specs.Prelude.{◌≡◌};
ghost use Rattle.fibs_lines.specs.Lines.{value_of};
ghost use Rattle.fibs_messages.specs.Line.{reading_of};
ghost use Rattle.fibs_session.specs.History.Hearing.{line_reading};

use fibs_lines::Line;
use fibs_messages::{Reading, read};

/// The reading of a line. A line that was cut is a text.
pub fn read_line<'a>(line: &Line<'a>) -> Reading<'a>
    ensures { reading_of result ≡ line_reading (value_of line.now) }
{
    if line.cut {
        return Reading::Text(line.bytes);
    }
    read(line.bytes)
}

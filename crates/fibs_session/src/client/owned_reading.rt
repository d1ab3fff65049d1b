//! A reading while its line is not lent.

ghost use Rattle.std.specs.Prelude.{◌≡◌};
ghost use Rattle.fibs_lines.specs.Lines.{value_of, ReadLine};
ghost use Rattle.fibs_messages.specs.Line.{reading_of};
ghost use Rattle.fibs_session.specs.History.Hearing.{line_reading};

use crate::histories::read_line;
use fibs_fields::boards::Board;
use fibs_lines::Line;
use fibs_messages::{Fault, Reading, laws};

/// A reading that borrows nothing. A message borrows from its line: it is read when the line is lent, most messages
/// only there, and so is a line that was cut.
#[derive(Clone, Copy)]
pub(crate) enum OwnedReading {
    Numbered,
    Board(Board),
    Text,
    Malformed {
        number: u8,
        field: usize,
        fault: Fault,
    },
}

impl OwnedReading {
    ghost use Rattle.fibs_session.specs.Calls.ClientOf.{lent_reading};

    /// A reading without what it borrows.
    #[inline(always)]
    pub(super) fn of(reading: &Reading<'_>) -> OwnedReading
        ensures { (l : ReadLine) → line_reading l ≡ reading_of reading.now → lent_reading result l ≡ line_reading l }
    {
        laws::reading_is_exact();
        match reading {
            Reading::Numbered(_) => OwnedReading::Numbered,
            Reading::Board(board) => OwnedReading::Board(*board),
            Reading::Text(_) => OwnedReading::Text,
            Reading::Malformed {
                number,
                field,
                fault,
            } => OwnedReading::Malformed {
                number: *number,
                field: *field,
                fault: *fault,
            },
        }
    }

    /// The reading again, with its line.
    #[inline(always)]
    pub(super) fn with_line<'a>(&self, line: &Line<'a>) -> Reading<'a>
        ensures { reading_of result ≡ lent_reading self.now (value_of line.now) }
    {
        match self {
            OwnedReading::Numbered => read_line(line),
            OwnedReading::Board(board) => Reading::Board(*board),
            OwnedReading::Text => Reading::Text(line.bytes),
            OwnedReading::Malformed {
                number,
                field,
                fault,
            } => Reading::Malformed {
                number: *number,
                field: *field,
                fault: *fault,
            },
        }
    }
}

//! What a line is, as C has it.

ghost use Rattle.std.specs.Prelude.{◌≡◌};
ghost use Rattle.fibs_messages.specs.Line.{reading_of};
ghost use Rattle.fibs_c.specs.Records.Kinds.{told_kind};

use fibs_messages::Reading;

/// What a line is.
#[repr(C)]
#[derive(Clone, Copy)]
pub struct LineKind {
    /// The first wrong field; 0 if none is.
    pub field: usize,
    /// 0 a text, 1 a message, 2 a board, 3 a message or a board with a wrong field.
    pub kind: u8,
    /// The number of a message, also of a malformed one; else 0.
    pub number: u8,
    /// What is wrong with the first wrong field; 0 if nothing is.
    pub fault: u8,
}

impl LineKind {
    /// A text, and what is given if there is no line.
    #[inline(always)]
    pub fn text() -> LineKind
        ensures { result ≡ record { field = 0; kind = 0; number = 0; fault = 0 } }
    {
        LineKind {
            field: 0,
            kind: 0,
            number: 0,
            fault: 0,
        }
    }

    /// What the reading says.
    #[inline(always)]
    pub fn of(reading: &Reading<'_>) -> LineKind
        ensures { result ≡ told_kind (reading_of reading.now) }
    {
        match reading {
            Reading::Text(_) => LineKind::text(),
            Reading::Numbered(message) => LineKind {
                field: 0,
                kind: 1,
                number: message.number(),
                fault: 0,
            },
            Reading::Board(_) => LineKind {
                field: 0,
                kind: 2,
                number: 0,
                fault: 0,
            },
            Reading::Malformed {
                number,
                field,
                fault,
            } => LineKind {
                field: *field,
                kind: 3,
                number: *number,
                fault: fault.number(),
            },
        }
    }
}

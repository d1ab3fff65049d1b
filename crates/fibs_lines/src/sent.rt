//! Texts as they are sent, each with its line end.

ghost use Rattle.std.specs.Prelude.{◌≡◌, ◌↔◌, ◌∷◌, [], IfSome, IsSome};
ghost use Rattle.fibs_lines.specs.Lines.{lines_of, value_of};
ghost use Rattle.fibs_lines.specs.StreamLaws.{IsUnbroken, with_line_end};

use crate::line::Line;
use crate::unfinished::run_len;

/// The line that a text is when it is sent with CR LF, if no line ends and no telnet command begins in it: what
/// `Lines::feed` then lends, but without a buffer. None if there is LF or the byte 255 in the text.
pub fn sent_line(text: &[u8]) -> Option<Line<'_>>
    ensures line { IfSome result (λ line. lines_of (with_line_end text.now) ≡ value_of line ∷ []) }
    ensures where_unbroken { IsSome result ↔ IsUnbroken text.now }
{
    if run_len(text) < text.len() {
        return None;
    }
    Some(Line::limited(text, false))
}

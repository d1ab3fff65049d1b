//! A line that was read, as it is lent.

ghost use Rattle.std.specs.Prelude.{◌≡◌, ◌≤◌, length, IfSome};
ghost use Rattle.std.specs.Str.Lines.{strip_carriage_return};
ghost use Rattle.fibs_lines.specs.Progress.{IsEndAfter};

use crate::LIMIT;
use crate::prompts::prompts_len;

/// A line without its end, and without the prompts at its start.
#[derive(Clone, Copy, Debug, PartialEq, Eq)]
pub struct Line<'a> {
    /// What is kept of it: at most `LIMIT` bytes, with the prompts that were removed.
    pub bytes: &'a [u8],
    /// Whether it had more than `LIMIT` bytes, its prompts counted and its CR not.
    pub cut: bool,
}

/// The bytes without one CR at the end.
pub fn without_return(bytes: &[u8]) -> &[u8]
    ensures { result.now ≡ strip_carriage_return bytes.now }
{
    let len = bytes.len();
    if len > 0 && bytes[len - 1] == b'\r' {
        return &bytes[..len - 1];
    }
    bytes
}

/// The place at which a line ends whose text is the first `len` bytes of `piece`, if LF or CR LF comes after them.
pub(crate) fn end_after(piece: &[u8], len: usize) -> Option<usize>
    requires { len ≤ length piece.now }
    ensures { IfSome result (λ at. IsEndAfter piece.now len at) }
{
    if len < piece.len() && piece[len] == b'\n' {
        return Some(len);
    }
    if len + 1 < piece.len() && piece[len] == b'\r' && piece[len + 1] == b'\n' {
        return Some(len + 1);
    }
    None
}

impl<'a> Line<'a> {
    ghost use Rattle.fibs_lines.specs.Lines.{value_of};
    ghost use Rattle.fibs_lines.specs.LinesValue.{kept_line, limited};

    /// The line of these bytes, which goes on after them if it is `over`.
    pub(crate) fn limited(line: &'a [u8], over: bool) -> Line<'a>
        ensures { value_of result ≡ limited line.now over }
    {
        let kept = &line[..line.len().min(LIMIT)];
        Line {
            bytes: &kept[prompts_len(kept)..],
            cut: over || line.len() > LIMIT,
        }
    }

    /// The line that begins with `head`, and goes on after it if it is `over`.
    pub(crate) fn from_head(head: &'a [u8], over: bool) -> Line<'a>
        ensures { value_of result ≡ kept_line head.now over }
    {
        Line::limited(without_return(head), over)
    }
}

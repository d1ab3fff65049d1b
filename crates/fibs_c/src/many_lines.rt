//! Many lines of a stream in one call.

ghost use Rattle.std.specs.Prelude.{◌≡◌, ◌<◌, ◌≤◌, ℕ, List, true, false, length};
ghost use Rattle.fibs_lines.specs.Lines.{kept_limit};
ghost use Rattle.fibs_lines.specs.LinesValue.{LinesValue};
ghost use Rattle.fibs_session.specs.History.Hearing.{line_reading};
ghost use Rattle.fibs_c.specs.ManyLines.{AreLinesRead, ReadsLines};
ghost use Rattle.fibs_c.specs.ReadingOn.{HasMore, HasEnded, ReadSoFar};
ghost use Rattle.fibs_c.specs.Records.Texts.{is_set};
ghost use Rattle.fibs_c.specs.Records.Kinds.{told_kind};

use crate::lines::{FedLine, feed};
use crate::records::LinesHandle;
use crate::records::kinds::LineKind;
use crate::records::status::{DONE, NO_HANDLE, SHORT};
use fibs_lines::{LIMIT, Line, Lines};
use fibs_session::histories::read_line;
use std::alloc::Global;

/// A line among many.
#[repr(C)]
#[derive(Clone, Copy)]
pub struct ToldLine {
    /// Where its bytes begin in the text.
    pub start: usize,
    /// How many they are.
    pub len: usize,
    /// What the line is. A line that was cut is a text.
    pub kind: LineKind,
    /// Whether it had more bytes than are kept.
    pub cut: u8,
}

/// What was read of a piece in one call.
#[repr(C)]
#[derive(Clone, Copy)]
pub struct Told {
    /// How many bytes of the piece were read.
    pub used: usize,
    /// How many lines ended.
    pub lines: usize,
    /// How many bytes these have.
    pub bytes: usize,
}

/// What a line is.
fn kind_of(bytes: &[u8], cut: bool) -> LineKind
    ensures { result ≡ told_kind (line_reading (record { bytes = bytes.now; cut = cut })) }
{
    LineKind::of(&read_line(&Line { bytes, cut }))
}

/// The line that was read, whose bytes begin there in the text.
fn told_line(fed: &FedLine, start: usize, bytes: &[u8]) -> ToldLine
    ensures place { (result.start ≡ start) × (result.len ≡ fed.now.len) × (result.cut ≡ fed.now.cut) }
    ensures kind { result.kind ≡ told_kind (line_reading (record { bytes = bytes.now; cut = is_set fed.now.cut })) }
{
    ToldLine {
        start,
        len: fed.len,
        kind: kind_of(bytes, fed.cut != 0),
        cut: fed.cut,
    }
}

/// Whether there is more to read, a row for it, and room for a line.
fn goes_on(piece: &[u8], text: &[u8], rows: &[ToldLine], told: &Told) -> bool
    requires { told.now.bytes ≤ length text.now }
    ensures more { result ≡ true → HasMore piece.now rows.now text.now told.now }
    ensures ends { result ≡ false → HasEnded piece.now rows.now text.now told.now }
{
    if told.used >= piece.len() {
        return false;
    }
    if told.lines >= rows.len() {
        return false;
    }
    text.len() - told.bytes >= LIMIT
}

/// Reads on, up to and with the next line end, and gives the line that ends there, if one does.
fn read_next(
    lines: &mut Lines,
    piece: &[u8],
    text: &mut [u8],
    rows: &mut [ToldLine],
    told: Told,
) -> Told
    requires { HasMore piece.now rows.old text.old told }
    ensures progress { told.used < result.used }
    ensures reads { (old : LinesValue) (rows₀ : List ToldLine) (text₀ : List ℕ)
        → ReadSoFar old lines.old piece.now told.used told.lines told.bytes rows₀ rows.old text₀ text.old
        → ReadSoFar old lines.new piece.now result.used result.lines result.bytes rows₀ rows.new text₀ text.new }
{
    let fed = feed(lines, &piece[told.used..], &mut text[told.bytes..]);
    let used = told.used + fed.used;
    if fed.ended == 0 {
        return Told {
            used,
            lines: told.lines,
            bytes: told.bytes,
        };
    }
    let end = told.bytes + fed.len;
    rows[told.lines] = told_line(&fed, told.bytes, &text[told.bytes..end]);
    Told {
        used,
        lines: told.lines + 1,
        bytes: end,
    }
}

/// Reads lines until the piece ends, the rows are full, or the room is too short for another one.
#[tactic(auto, using(crate::proofs::ManyLinesLemmas::none_read))]
fn read_all(lines: &mut Lines, piece: &[u8], text: &mut [u8], rows: &mut [ToldLine]) -> Told
    requires room { kept_limit ≤ length text.old }
    requires rows { 0 < length rows.old }
    ensures { ReadsLines lines.old lines.new piece.now result rows.old rows.new text.old text.new }
{
    let mut told = Told {
        used: 0,
        lines: 0,
        bytes: 0,
    };
    while goes_on(piece, text, rows, &told) {
        told = read_next(lines, piece, text, rows, told);
    }
    told
}

/// Reads the lines of a piece: the text of each follows that of the one before, and what each is in `rows`. It
/// stops at the end of the piece, when `rows` are full, or when less than `fibs_max_line()` bytes of `text` are left.
/// To be called again with what is left of the piece, until nothing is. If there is no room for one line, the room that
/// is wanted is given.
#[unsafe(no_mangle)]
pub extern "C" fn fibs_read_lines(
    alloc: Global,
    lines: &mut LinesHandle,
    piece: &[u8],
    text: &mut [u8],
    rows: &mut [ToldLine],
    told: &mut Told,
) -> u32
    ensures { AreLinesRead lines.old.value lines.new.value piece.now told.old told.new rows.old rows.new text.old
        text.new result }
{
    if text.len() < LIMIT || rows.is_empty() {
        *told = Told {
            used: 0,
            lines: 1,
            bytes: LIMIT,
        };
        return SHORT;
    }
    with!(LinesHandle, lines, alloc, |held| {
        *told = read_all(&mut held, piece, text, rows);
        DONE
    })
}

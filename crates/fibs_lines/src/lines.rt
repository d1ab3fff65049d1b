//! The lines of a byte stream that comes in pieces.

ghost use Rattle.std.specs.Prelude.{◌≡◌, ◌+◌, ◌<◌, ◌≤◌, ℕ, true, false, List, [], ◌++◌, length, take, min, IfSome};
ghost use Rattle.std.specs.Bool.{OnTrue};
ghost use Rattle.std.specs.List.{list_all};
ghost use Rattle.std.specs.Borrow.{sem};
ghost use Rattle.std.specs.Io.BufRead.{Rests};
ghost use Rattle.fibs_lines.specs.Lines.{kept_limit, rest_of};
ghost use Rattle.fibs_lines.specs.LinesValue.{StandsAfter};

use crate::LIMIT;
use crate::line::{Line, end_after};
use crate::literal::literal_len;
use crate::telnet::Telnet;
use crate::unfinished::Unfinished;
use std::marker::Model;

/// The reader of one stream: it takes its bytes in any pieces, and lends each line out of its own buffer.
///
/// It takes no memory but its own, and refuses nothing. Its buffer has one byte more than `LIMIT`, since the byte after
/// `LIMIT` others may be the CR before a line end, which is no byte of the line.
#[derive(Drop)]
pub struct Lines {
    unfinished: Unfinished,
    /// Whether `unfinished` is the line that was lent last.
    lent: bool,
}

/// What `Lines::feed` has read.
#[derive(Clone, Copy, Debug, PartialEq, Eq)]
pub struct Fed<'a> {
    /// How many bytes of the piece were read: those up to and with a line end, or all.
    pub used: usize,
    /// The line that ends with them, if one does.
    pub line: Option<Line<'a>>,
}

/// A line that is whole in a piece, lent from there.
#[derive(Clone, Copy, Debug, PartialEq, Eq)]
pub struct WholeLine<'a> {
    /// How many bytes of the piece it has, with its line end.
    pub used: usize,
    /// The line.
    pub line: Line<'a>,
}

impl Model for Lines {
    ghost use Rattle.fibs_lines.specs.LinesValue.{LinesValue};

    ghost Value = { LinesValue };

    ghost use Rattle.fibs_lines.specs.LinesValue.{lines_value};

    ghost view = { λ l. lines_value l.unfinished l.lent };
}

impl Default for Lines {
    /// The same as `Lines::new`.
    fn default() -> Lines
        ensures stands { StandsAfter result [] }
        ensures no_line { result.line ≡ None }
    {
        Lines::new()
    }
}

impl Lines {
    ghost use Rattle.fibs_lines.specs.contracts.lines.Lines.{the_row};
    ghost use Rattle.fibs_lines.specs.Feeding.{Feeds, fed_of};
    ghost use Rattle.fibs_lines.specs.Lines.{line_value};
    ghost use Rattle.fibs_lines.specs.Literal.{is_literal};

    /// The reader of a stream that begins.
    pub fn new() -> Lines
        ensures stands { StandsAfter result [] }
        ensures no_line { result.line ≡ None }
    {
        Lines {
            unfinished: Unfinished::new(),
            lent: false,
        }
    }

    /// Reads `piece` up to and with the next line end, and lends the line that ends there. Without a line end it reads
    /// all of it, and lends none.
    ///
    /// Call it again with what is left of the piece, until nothing is.
    #[inline(always)]
    pub fn feed(&mut self, piece: &[u8]) -> Fed<'_>
        ensures in_range { result.used ≤ length piece.now }
        ensures progress { 0 < length piece.now → 0 < result.used }
        ensures feeds { (s : List ℕ) → StandsAfter self.old s → Feeds s piece.now result }
        ensures* stands { sem 𝓛 (Rests the_row self.entry (λ new.
            ((s : List ℕ) → StandsAfter self.old s → StandsAfter new (s ++ take result.used piece.now))
            × (new.line ≡ line_value result.line))) }
    {
        if self.lent {
            self.unfinished.clear();
            self.lent = false;
        }
        match self.unfinished.take_up_to_end(piece) {
            None => Fed {
                used: piece.len(),
                line: None,
            },
            Some(at) => {
                self.lent = true;
                Fed {
                    used: at + 1,
                    line: Some(self.unfinished.line()),
                }
            }
        }
    }

    /// True if nothing is kept of an unfinished line or command.
    fn keeps_nothing(&self) -> bool
        ensures { OnTrue result ((self.now.telnet ≡ Telnet.Data) × (self.now.head ≡ []) × (self.now.over ≡ false)) }
    {
        if self.unfinished.telnet != Telnet::Data {
            return false;
        }
        self.lent || (self.unfinished.head.is_empty() && !self.unfinished.over)
    }

    /// The line that `piece` begins with, lent from the piece, if it ends in the piece too, its bytes are from 32 to
    /// 126 and no `\`, and nothing unfinished comes before it. It is what `feed` would lend, and the reader stays as
    /// it is: go on after its `used` bytes.
    ///
    /// None promises nothing: call `feed`.
    pub fn whole_line<'a>(&self, piece: &'a [u8]) -> Option<WholeLine<'a>>
        ensures in_range { IfSome result (λ whole. whole.used ≤ length piece.now) }
        ensures progress { IfSome result (λ whole. 0 < whole.used) }
        ensures feeds { IfSome result (λ whole. (s : List ℕ) → StandsAfter self.now s
            → Feeds s piece.now (fed_of whole)) }
        ensures stands { IfSome result (λ whole. (s : List ℕ) → StandsAfter self.now s
            → StandsAfter self.now (s ++ take whole.used piece.now)) }
        ensures literal { IfSome result (λ whole. list_all is_literal whole.line.bytes.now ≡ true) }
    {
        if !self.keeps_nothing() {
            return None;
        }
        let len = literal_len(piece);
        match end_after(piece, len) {
            None => None,
            Some(at) => Some(WholeLine {
                used: at + 1,
                line: Line::limited(&piece[..len], false),
            }),
        }
    }

    /// The line that the last call of `feed` lent, if it lent one: none after `new` and `reset`.
    ///
    /// A caller that changes something of its own at a line, and lends the line on, takes `used` from `feed` and the
    /// line from here.
    pub fn line(&self) -> Option<Line<'_>>
        ensures { line_value result ≡ self.now.line }
    {
        if self.lent {
            Some(self.unfinished.line())
        } else {
            None
        }
    }

    /// Forgets the unfinished line, the unfinished telnet command and the line that was lent: the next byte is the
    /// first of a new stream.
    pub fn reset(&mut self)
        ensures stands { StandsAfter self.new [] }
        ensures no_line { self.new.line ≡ None }
    {
        self.unfinished.reset();
        self.lent = false;
    }

    /// How many bytes follow the last line end, without telnet commands and up to `LIMIT`. It is 0 after a line
    /// was lent.
    ///
    /// It counts prompts and a CR at the end, since they are bytes of the line until it ends.
    pub fn held(&self) -> usize
        ensures bound { result ≤ kept_limit }
        ensures value { (s : List ℕ) → StandsAfter self.now s → result ≡ min kept_limit (length (rest_of s)) }
    {
        if self.lent {
            return 0;
        }
        self.unfinished.head.len().min(LIMIT)
    }

    /// The bytes that follow the last line end, without telnet commands and up to `LIMIT`: those that `held` counts.
    /// None after a line was lent.
    ///
    /// It has a prompt that the server writes without a line end.
    pub fn unfinished(&self) -> &[u8]
        ensures { (s : List ℕ) → StandsAfter self.now s → result.now ≡ take kept_limit (rest_of s) }
    {
        if self.lent {
            return b"";
        }
        let head = self.unfinished.head.as_slice();
        &head[..head.len().min(LIMIT)]
    }
}

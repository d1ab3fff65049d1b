//! `fibs show`: prints what each line of a stream says.
ghost use Rattle.std.specs.Prelude.{◌≡◌, ◌≤◌, ◌<◌, ◌*◌, ◌⊎◌, ◌++◌, ℕ, List, length, take, IfOk, OnOk, IsErrOf};
ghost use Rattle.std.specs.Io.KnownBytes.{IsAtEnd};
ghost use Rattle.fibs_engine.specs.Reads.{LostAtLeast, LostAtMost};
ghost use Rattle.fibs_engine.specs.Streams.{EachLine, Gains, LeftOver, TextGains};
ghost use Rattle.fibs_show.specs.Show.{ShownLine, unfinished_text, WroteAll, WroteRead, WroteLines, WroteLinesOf, WroteFront};

use crate::line::{append_line, put_line};
use crate::page::Page;
use fibs_engine::fault::EngineFault;
use fibs_engine::limits::{MOST_INPUT_READS, READ_PORTION};
use fibs_engine::line_printer::{LinePrinter, print_stream};
use fibs_engine::status::Status;
use fibs_engine::stream_fault::StreamFault;
use fibs_fields::decimal::append_number;
use fibs_lines::{Fed, Lines};
use std::alloc::{AllocError, Global};
use std::io::{Read, Write};

/// Prints what each line that is read says, to the reader's end. It reads at most 1,000,000,000 times, and at most 1024
/// bytes at once.
///
/// After a device's fault the writer has either all that is printed for the lines that were read, if the reader
/// failed or did not end; or a front of what is printed for what was read, if the writer failed, and then nothing
/// after it.
pub fn show<R: Read, W: Write>(
    alloc: Global,
    reader: &mut R,
    writer: &mut W,
) -> Result<u8, EngineFault>
    ensures status { IfOk result (λ status. status ≡ 0) }
    ensures whole { OnOk result (WroteAll (R.remaining reader.old) (R.remaining reader.new)
        (W.contents writer.old) (W.contents writer.new)) }
    ensures end { OnOk result (IsAtEnd (R.remaining reader.new)) }
    ensures device { IsErrOf result EngineFault.Device →
        WroteRead (R.remaining reader.old) (R.remaining reader.new) (W.contents writer.old) (W.contents writer.new)
        ⊎ WroteFront (R.remaining reader.old) (R.remaining reader.new) (W.contents writer.old) (W.contents writer.new) }
    ensures memory { IsErrOf result EngineFault.Memory →
        WroteLines (R.remaining reader.old) (R.remaining reader.new) (W.contents writer.old) (W.contents writer.new) }
    ensures few { LostAtMost (MOST_INPUT_READS * READ_PORTION) (R.remaining reader.old) (R.remaining reader.new) }
{
    let mut portion = [0; READ_PORTION];
    match show_portions(alloc, MOST_INPUT_READS, &mut portion, reader, writer) {
        Ok(()) => Ok(Status::Done.code()),
        Err(fault) => Err(fault.engine_fault()),
    }
}

/// The same with at most so many reads, each of at most as many bytes as `portion` has room for. It says what failed.
///
/// It says `Endless` only if each of so many reads gave a byte.
pub fn show_portions<R: Read, W: Write>(
    alloc: Global,
    reads: u32,
    portion: &mut [u8],
    reader: &mut R,
    writer: &mut W,
) -> Result<(), StreamFault>
    requires { 0 < length portion.old }
    ensures whole { OnOk result (WroteAll (R.remaining reader.old) (R.remaining reader.new)
        (W.contents writer.old) (W.contents writer.new)) }
    ensures end { OnOk result (IsAtEnd (R.remaining reader.new)) }
    ensures reader { IsErrOf result StreamFault.Reader →
        WroteRead (R.remaining reader.old) (R.remaining reader.new) (W.contents writer.old) (W.contents writer.new) }
    ensures endless { IsErrOf result StreamFault.Endless →
        WroteRead (R.remaining reader.old) (R.remaining reader.new) (W.contents writer.old) (W.contents writer.new) }
    ensures writer { IsErrOf result StreamFault.Writer →
        WroteFront (R.remaining reader.old) (R.remaining reader.new) (W.contents writer.old) (W.contents writer.new) }
    ensures memory { IsErrOf result StreamFault.Memory → (s more : List ℕ) × (length more ≤ length portion.old)
        × WroteLinesOf s more (R.remaining reader.old) (R.remaining reader.new)
        (W.contents writer.old) (W.contents writer.new) }
    ensures enough { IsErrOf result StreamFault.Endless
        → LostAtLeast reads (R.remaining reader.old) (R.remaining reader.new) }
    ensures few { LostAtMost (reads * length portion.old) (R.remaining reader.old) (R.remaining reader.new) }
{
    let mut texts = Texts {
        alloc,
        page: Page::new(),
    };
    print_stream(alloc, reads, portion, &mut texts, reader, writer)
}

/// What is printed for the lines of a stream: a text for each. What is on the page before and after says nothing.
#[derive(Drop)]
struct Texts {
    alloc: Global,
    page: Page,
}

impl LinePrinter for Texts {
    ghost reads = { λ _ _. Unit {0} };

    ghost prints = { EachLine ShownLine };

    ghost ends = { LeftOver unfinished_text };

    fn begin(&mut self) {}

    fn append_whole_lines(
        &mut self,
        lines: &Lines,
        piece: &[u8],
        text: &mut Vec<u8>,
    ) -> Result<usize, AllocError> {
        let put = put_lines(lines, piece, &mut self.page);
        text.extend_from_slice(self.page.as_slice())?;
        Ok(put)
    }

    fn append_piece(
        &mut self,
        _piece: &[u8],
        fed: &Fed<'_>,
        text: &mut Vec<u8>,
    ) -> Result<(), AllocError> {
        match &fed.line {
            Some(line) => append_line(self.alloc, line, text),
            None => Ok(()),
        }
    }

    fn append_end(&mut self, lines: &Lines, text: &mut Vec<u8>) -> Result<(), AllocError> {
        append_unfinished(lines.held(), text)
    }
}

/// Appends how many bytes follow the last line end, if some do.
fn append_unfinished(held: usize, text: &mut Vec<u8>) -> Result<(), AllocError>
    ensures { OnOk result (text.new.items ≡ text.old.items ++ unfinished_text held) }
{
    if held == 0 {
        return Ok(());
    }
    text.extend_from_slice(b"unfinished ")?;
    append_number(held, text)?;
    text.push(b'\n')?;
    Ok(())
}

/// Puts what is printed for the line that the piece begins with on a page, if the line is whole in the piece and
/// spelled as it is printed, which nearly all lines of a server are. It answers how many bytes were read, 0 if nothing
/// was put.
#[inline(always)]
fn put_next(lines: &Lines, piece: &[u8], page: &mut Page) -> usize
    ensures range { result ≤ length piece.now }
    ensures gains { TextGains ShownLine lines.now lines.now (take result piece.now) page.old page.new }
{
    match lines.whole_line(piece) {
        Some(whole) => {
            if put_line(&whole.line, page) {
                whole.used
            } else {
                0
            }
        }
        None => 0,
    }
}

/// Puts what is printed for the lines that the piece begins with on a page, up to one for which nothing is put, and
/// nothing else. It answers how many bytes were read.
#[inline(never)]
fn put_lines(lines: &Lines, piece: &[u8], page: &mut Page) -> usize
    ensures range { result ≤ length piece.now }
    ensures gains { Gains ShownLine lines.now lines.now (take result piece.now) page.new }
{
    page.clear();
    let mut at = 0;
    loop {
        let used = put_next(lines, &piece[at..], page);
        if used == 0 {
            return at;
        }
        at += used;
    }
}

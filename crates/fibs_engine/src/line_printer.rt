//! What is printed for a stream: a text for each of its lines, one portion after the other.
ghost use Rattle.std.specs.Prelude.{◌≡◌, ◌≤◌, ◌<◌, ◌*◌, ◌⊎◌, ◌++◌, ℕ, List, [], length, take, IfOk, OnOk, IfErr, IsErrOf};
ghost use Rattle.std.specs.Io.KnownBytes.{Appends, IsAtEnd};
ghost use Rattle.fibs_engine.specs.Reads.{LostAtLeast, LostAtMost};
ghost use Rattle.fibs_engine.specs.Streams.{TextGoesOn, Hears, EndText, MayEnd, WroteAll, WroteRead, WroteLinesOf, WroteFront};
ghost use Rattle.fibs_engine.specs.Writing.{GainedFront};

use crate::stream_fault::StreamFault;
use crate::writing::write_bytes;
use fibs_lines::{Fed, Lines};
use std::alloc::{AllocError, Global};
use std::io::{Read, Write};

/// What is printed for the lines of a stream, and at its end.
pub trait LinePrinter {
    // The printer has read these bytes of a stream.
    ghost reads: { Self → List ℕ → Type 0 };

    // What is printed for the lines of a stream, each with its line end.
    ghost prints: { List ℕ → List ℕ → Type 0 };

    // What is printed at the end of a stream.
    ghost ends: { List ℕ → List ℕ → Type 0 };

    /// Begins a stream, of which nothing is read yet. Whatever is read then, something may be printed at its end.
    fn begin(&mut self)
        ensures reads { reads self.new [] }
        ensures prints { prints [] [] }
        ensures may_end { MayEnd Self reads ends };

    /// Appends what is printed for the lines that are whole in the piece, from its front, up to one for which it takes
    /// `append_piece`, and answers how many bytes they have. A printer that has no shorter way for such lines takes
    /// `append_piece` for all.
    fn append_whole_lines(
        &mut self,
        _lines: &Lines,
        _piece: &[u8],
        _text: &mut Vec<u8>,
    ) -> Result<usize, AllocError>
        ensures range { IfOk result (λ used. used ≤ length _piece.now) }
        ensures goes_on { IfOk result (λ used. TextGoesOn reads prints _lines.now _lines.now self.old self.new
            (take used _piece.now) _text.old.items _text.new.items) }
    {
        Ok(0)
    }

    /// Appends what is printed for the line, with its line end, that was lent for the piece, if one was. It is told of
    /// every byte of the stream: by a call here, or as one of the whole lines.
    fn append_piece(
        &mut self,
        piece: &[u8],
        fed: &Fed<'_>,
        text: &mut Vec<u8>,
    ) -> Result<(), AllocError>
        requires { fed.now.used ≤ length piece.now }
        ensures { OnOk result ((added : List ℕ) × (text.new.items ≡ text.old.items ++ added)
            × Hears reads prints self.old self.new piece.now fed.now added) };

    /// Appends what is printed at the end of a stream, of which this is the reader of lines.
    fn append_end(&mut self, lines: &Lines, text: &mut Vec<u8>) -> Result<(), AllocError>
        ensures { OnOk result ((ending : List ℕ) × (text.new.items ≡ text.old.items ++ ending)
            × EndText reads ends lines.now self.old ending) };
}

/// Prints a text for each line that is read, to the reader's end, with at most so many reads, each of at most as many
/// bytes as `portion` has room for. Each portion makes one write. It says what failed.
///
/// It says `Endless` only if each of so many reads gave a byte.
pub fn print_stream<P: LinePrinter, R: Read, W: Write>(
    alloc: Global,
    reads: u32,
    portion: &mut [u8],
    printer: &mut P,
    reader: &mut R,
    writer: &mut W,
) -> Result<(), StreamFault>
    requires { 0 < length portion.old }
    ensures whole { OnOk result (WroteAll P.prints P.ends (R.remaining reader.old) (R.remaining reader.new)
        (W.contents writer.old) (W.contents writer.new)) }
    ensures end { OnOk result (IsAtEnd (R.remaining reader.new)) }
    ensures reader { IsErrOf result StreamFault.Reader →
        WroteRead P.prints (R.remaining reader.old) (R.remaining reader.new)
        (W.contents writer.old) (W.contents writer.new) }
    ensures endless { IsErrOf result StreamFault.Endless →
        WroteRead P.prints (R.remaining reader.old) (R.remaining reader.new)
        (W.contents writer.old) (W.contents writer.new) }
    ensures writer { IsErrOf result StreamFault.Writer →
        WroteFront P.prints P.ends (R.remaining reader.old) (R.remaining reader.new)
        (W.contents writer.old) (W.contents writer.new) }
    ensures memory { IsErrOf result StreamFault.Memory → (s more : List ℕ) × (length more ≤ length portion.old)
        × WroteLinesOf P.prints s more (R.remaining reader.old) (R.remaining reader.new)
        (W.contents writer.old) (W.contents writer.new) }
    ensures enough { IsErrOf result StreamFault.Endless
        → LostAtLeast reads (R.remaining reader.old) (R.remaining reader.new) }
    ensures few { LostAtMost (reads * length portion.old) (R.remaining reader.old) (R.remaining reader.new) }
{
    let mut lines = Lines::new();
    let mut text = Vec::new(alloc);
    printer.begin();
    for made in 0..reads {
        let count = match reader.read(portion) {
            Ok(0) => return finish(printer, &lines, &mut text, writer),
            Ok(count) => count,
            Err(_) => return Err(StreamFault::Reader),
        };
        append_portion(printer, &mut lines, &portion[..count], &mut text)?;
        write_bytes(text.as_slice(), writer)?;
        text.clear();
    }
    Err(StreamFault::Endless)
}

/// Writes what is printed for the bytes after the last line end.
fn finish<P: LinePrinter, W: Write>(
    printer: &mut P,
    lines: &Lines,
    text: &mut Vec<u8>,
    writer: &mut W,
) -> Result<(), StreamFault>
    requires { text.old.items ≡ [] }
    ensures ok { OnOk result ((ending : List ℕ) × EndText P.reads P.ends lines.now printer.old ending
        × Appends (W.contents writer.old) (W.contents writer.new) ending) }
    ensures writer { IsErrOf result StreamFault.Writer →
        (ending : List ℕ) × EndText P.reads P.ends lines.now printer.old ending
        × GainedFront (W.contents writer.old) (W.contents writer.new) ending }
    ensures memory { IsErrOf result StreamFault.Memory → W.contents writer.new ≡ W.contents writer.old }
    ensures others { IfErr result (λ fault. (fault ≡ StreamFault.Writer) ⊎ (fault ≡ StreamFault.Memory)) }
{
    printer.append_end(lines, text)?;
    write_bytes(text.as_slice(), writer)?;
    Ok(())
}

/// Appends what is printed for the next line of a piece, if the piece ends it, and answers how many bytes were read.
/// It goes through the reader's own buffer.
fn append_fed<P: LinePrinter>(
    printer: &mut P,
    lines: &mut Lines,
    piece: &[u8],
    text: &mut Vec<u8>,
) -> Result<usize, AllocError>
    requires { 0 < length piece.now }
    ensures range { IfOk result (λ used. (0 < used) × (used ≤ length piece.now)) }
    ensures goes_on { IfOk result (λ used. TextGoesOn P.reads P.prints lines.old lines.new printer.old printer.new
        (take used piece.now) text.old.items text.new.items) }
{
    let fed = lines.feed(piece);
    let used = fed.used;
    printer.append_piece(piece, &fed, text)?;
    Ok(used)
}

/// Appends what is printed for the lines that are whole in the piece, from its front, and for the next line, if the
/// piece ends it. It answers how many bytes were read.
fn append_next<P: LinePrinter>(
    printer: &mut P,
    lines: &mut Lines,
    piece: &[u8],
    text: &mut Vec<u8>,
) -> Result<usize, AllocError>
    requires { 0 < length piece.now }
    ensures range { IfOk result (λ used. (0 < used) × (used ≤ length piece.now)) }
    ensures goes_on { IfOk result (λ used. TextGoesOn P.reads P.prints lines.old lines.new printer.old printer.new
        (take used piece.now) text.old.items text.new.items) }
{
    let whole = printer.append_whole_lines(lines, piece, text)?;
    if whole == piece.len() {
        return Ok(whole);
    }
    let used = append_fed(printer, lines, &piece[whole..], text)?;
    Ok(whole + used)
}

/// Appends what is printed for each line that the portion ends.
fn append_portion<P: LinePrinter>(
    printer: &mut P,
    lines: &mut Lines,
    portion: &[u8],
    text: &mut Vec<u8>,
) -> Result<(), AllocError>
    ensures { OnOk result (TextGoesOn P.reads P.prints lines.old lines.new printer.old printer.new portion.now
        text.old.items text.new.items) }
{
    let mut rest = portion;
    while !rest.is_empty() {
        let used = append_next(printer, lines, rest, text)?;
        rest = &rest[used..];
    }
    Ok(())
}

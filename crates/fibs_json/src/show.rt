//! `fibs show --json`: prints an object for each line of a stream.
ghost use Rattle.std.specs.Prelude.{◌≡◌, ◌*◌, ◌⊎◌, IfOk, OnOk, IsErrOf};
ghost use Rattle.std.specs.Io.KnownBytes.{IsAtEnd};
ghost use Rattle.fibs_engine.specs.Reads.{LostAtMost};
ghost use Rattle.fibs_json.specs.Passing.{IsPlaceIn};
ghost use Rattle.fibs_json.specs.Places.{EachPlaced, Ending, PlacedObject};
ghost use Rattle.fibs_json.specs.Streams.{WroteAll, WroteRead, WroteLines, WroteFront};

use crate::place::Place;
use fibs_engine::fault::EngineFault;
use fibs_engine::limits::{MOST_INPUT_READS, READ_PORTION};
use fibs_engine::line_printer::{LinePrinter, print_stream};
use fibs_engine::status::Status;
use fibs_lines::{Fed, Lines};
use std::alloc::{AllocError, Global};
use std::io::{Read, Write};

/// Prints an object for each line that is read, to the reader's end. It reads at most 1,000,000,000 times, and at most
/// 1024 bytes at once.
///
/// After a device's fault the writer has either all that is printed for the lines that were read, if the reader
/// failed or did not end; or a front of what is printed for what was read, if the writer failed, and then nothing
/// after it.
pub fn show_json<R: Read, W: Write>(
    alloc: Global,
    reader: &mut R,
    writer: &mut W,
) -> Result<u8, EngineFault>
    ensures status { IfOk result (λ status. status ≡ 0) }
    ensures whole { OnOk result (WroteAll (R.remaining reader.old) (R.remaining reader.new)
        (W.contents writer.old) (W.contents writer.new)) }
    ensures end { OnOk result (IsAtEnd (R.remaining reader.new)) }
    ensures device { IsErrOf result EngineFault.Device →
        WroteRead (R.remaining reader.old) (R.remaining reader.new) (W.contents writer.old) (W.contents writer.new)
        ⊎ WroteFront (R.remaining reader.old) (R.remaining reader.new) (W.contents writer.old) (W.contents writer.new) }
    ensures memory { IsErrOf result EngineFault.Memory →
        WroteLines (R.remaining reader.old) (R.remaining reader.new) (W.contents writer.old) (W.contents writer.new) }
    ensures few { LostAtMost (MOST_INPUT_READS * READ_PORTION) (R.remaining reader.old) (R.remaining reader.new) }
{
    let mut portion = [0; READ_PORTION];
    let mut objects = Objects {
        place: Place::new(),
    };
    match print_stream(
        alloc,
        MOST_INPUT_READS,
        &mut portion,
        &mut objects,
        reader,
        writer,
    ) {
        Ok(()) => Ok(Status::Done.code()),
        Err(fault) => Err(fault.engine_fault()),
    }
}

/// What is printed for the lines of a stream: an object for each.
#[derive(Drop)]
struct Objects {
    place: Place,
}

impl LinePrinter for Objects {
    ghost reads = { λ objects s. IsPlaceIn objects.place s };

    ghost prints = { EachPlaced PlacedObject };

    ghost ends = { Ending };

    fn begin(&mut self) {
        self.place = Place::new();
    }

    fn append_piece(
        &mut self,
        _piece: &[u8],
        fed: &Fed<'_>,
        text: &mut Vec<u8>,
    ) -> Result<(), AllocError> {
        self.place.append_any(&fed.line, text)?;
        self.place.pass(fed);
        Ok(())
    }

    fn append_end(&mut self, lines: &Lines, text: &mut Vec<u8>) -> Result<(), AllocError> {
        self.place.append_unfinished(lines.unfinished(), text)
    }
}

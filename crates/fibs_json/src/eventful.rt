//! `fibs show --events`: prints an object for each line of a stream, after it one for each event of the line,
//! and at the end a summary.
ghost use Rattle.std.specs.Prelude.{◌≡◌, ◌*◌, ◌⊎◌, ◌++◌, ◌∷◌, [], ℕ, List, Option, length, IfOk, OnOk, IsErrOf};
ghost use Rattle.std.specs.Io.KnownBytes.{IsAtEnd};
ghost use Rattle.fibs_engine.specs.Reads.{LostAtMost};
ghost use Rattle.fibs_events.specs.Asking.{HearsMore};
ghost use Rattle.fibs_events.specs.InOrder.{events_of};
ghost use Rattle.fibs_events.specs.Known.{known_of};
ghost use Rattle.fibs_events.specs.declared.happened.Happened.{Happened};
ghost use Rattle.fibs_messages.specs.Line.{reading_of};
ghost use Rattle.fibs_lines.specs.Lines.{lines_of, value_of};
ghost use Rattle.fibs_json.specs.Counting.{event_members, line_members, nothing_counted, one_more, other_members, summary_object, with_any, with_event, with_events, with_line, with_text};
ghost use Rattle.fibs_json.specs.Json.{more_members};
ghost use Rattle.fibs_json.specs.Eventful.{EventfulEnd, EventfulText, HappenedAs, WroteAll, WroteFront, WroteLines, WroteRead, event_line, event_lines};
ghost use Rattle.fibs_json.specs.Events.{event_object};
ghost use Rattle.fibs_json.specs.Passing.{AnyAt, EventfulAt, IsAsked, IsPlaceIn, Refused, lines_after, told_text};
ghost use Rattle.fibs_json.specs.Places.{in_64_bits};

use crate::happened::append_event;
use crate::members::append_whole;
use crate::place::Place;
use fibs_engine::fault::EngineFault;
use fibs_engine::limits::{MOST_INPUT_READS, READ_PORTION};
use fibs_engine::line_printer::{LinePrinter, print_stream};
use fibs_engine::status::Status;
use fibs_events::Events;
use fibs_events::asking::Asking;
use fibs_events::event::Event;
use fibs_events::happened::Happened;
use fibs_lines::{Fed, Line, Lines};
use fibs_messages::{Reading, read};
use std::alloc::{AllocError, Global};
use std::io::{Read, Write};

/// How a log marks a line that was sent.
const SENT: &[u8] = b">> ";

/// How many lines there were of each kind, and how many games and matches were over.
#[derive(Clone, Copy)]
struct Counts {
    lines: u64,
    boards: u64,
    messages: u64,
    texts: u64,
    sent: u64,
    cut: u64,
    malformed: u64,
    events: u64,
    games: u64,
    matches: u64,
}

/// What is printed for the lines of a stream: an object for each line, and one for each event.
#[derive(Drop)]
struct EventObjects {
    alloc: Global,
    place: Place,
    asking: Asking,
    events: Events,
    counts: Counts,
}

impl Counts {
    /// Nothing was read.
    fn new() -> Counts
        ensures { result ≡ nothing_counted }
    {
        Counts {
            lines: 0,
            boards: 0,
            messages: 0,
            texts: 0,
            sent: 0,
            cut: 0,
            malformed: 0,
            events: 0,
            games: 0,
            matches: 0,
        }
    }

    /// A line was read.
    fn count_line(&mut self, line: &Line<'_>, reading: &Reading<'_>)
        ensures { self.new ≡ with_line self.old line.now.cut (reading_of reading.now) }
    {
        self.lines = self.lines.saturating_add(1);
        if line.cut {
            self.cut = self.cut.saturating_add(1);
            return;
        }
        match reading {
            Reading::Board(_) => self.boards = self.boards.saturating_add(1),
            Reading::Numbered(_) => self.messages = self.messages.saturating_add(1),
            Reading::Malformed { .. } => self.malformed = self.malformed.saturating_add(1),
            Reading::Text(text) => self.count_text(text),
        }
    }

    /// A text was read.
    fn count_text(&mut self, text: &[u8])
        ensures { self.new ≡ with_text self.old text.now }
    {
        if text.starts_with(SENT) {
            self.sent = self.sent.saturating_add(1);
        } else {
            self.texts = self.texts.saturating_add(1);
        }
    }

    /// Something has happened.
    fn count_event(&mut self, event: &Event<'_>)
        ensures { self.new ≡ with_event self.old event.now }
    {
        self.events = self.events.saturating_add(1);
        match event {
            Event::GameOver { .. } => self.games = self.games.saturating_add(1),
            Event::MatchOver { .. } => self.matches = self.matches.saturating_add(1),
            _ => {}
        }
    }

    /// Something may have happened.
    fn count_any(&mut self, event: &Option<Event<'_>>)
        ensures { self.new ≡ with_any self.old event.now }
    {
        match event {
            None => {}
            Some(event) => self.count_event(event),
        }
    }

    /// This has happened by a line.
    fn count_events(&mut self, events: &[Option<Event<'_>>])
        ensures { self.new ≡ with_events self.old events.now }
    {
        for event in events {
            self.count_any(event);
        }
    }
}

/// Appends the object of an event, if there is one, on a line of its own.
fn append_any(number: u64, event: &Option<Event<'_>>, text: &mut Vec<u8>) -> Result<(), AllocError>
    ensures { OnOk result (text.new.items ≡ text.old.items ++ event_line number event.now) }
{
    match event {
        None => Ok(()),
        Some(event) => {
            text.push(b'\n')?;
            append_event(number, event, text)
        }
    }
}

/// Appends the object of an event, if there is one, and a line end.
fn append_told(number: u64, event: &Option<Event<'_>>, text: &mut Vec<u8>) -> Result<(), AllocError>
    ensures { OnOk result (text.new.items ≡ text.old.items ++ told_text (event_object number) event.now) }
{
    let Some(event) = event else {
        return Ok(());
    };
    append_event(number, event, text)?;
    text.push(b'\n')?;
    Ok(())
}

/// Appends the objects of events, each on a line of its own.
fn append_events(
    number: u64,
    events: &[Option<Event<'_>>],
    text: &mut Vec<u8>,
) -> Result<(), AllocError>
    ensures { OnOk result (text.new.items ≡ text.old.items ++ event_lines number events.now) }
{
    for event in events {
        append_any(number, event, text)?;
    }
    Ok(())
}

impl EventObjects {
    /// Nothing was read.
    fn new(alloc: Global) -> EventObjects
        ensures place { IsPlaceIn result.place [] }
        ensures asking { IsAsked result.asking [] }
        ensures lines { result.counts.lines ≡ in_64_bits (length (lines_of [])) }
    {
        EventObjects {
            alloc,
            place: Place::new(),
            asking: Asking::new(),
            events: Events::new(),
            counts: Counts::new(),
        }
    }

    /// What has happened by a line. One that was cut says nothing.
    fn hear<'a>(
        &mut self,
        line: &Line<'_>,
        reading: &Reading<'a>,
    ) -> Result<Happened<'a>, AllocError>
        ensures place { self.new.place ≡ self.old.place }
        ensures asking { self.new.asking ≡ self.old.asking }
        ensures heard { IfOk result (λ happened.
            HappenedAs line.now.cut (known_of self.old.events) (reading_of reading.now) happened) }
        ensures counts { self.new.counts ≡ with_line self.old.counts line.now.cut (reading_of reading.now) }
    {
        self.counts.count_line(line, reading);
        if line.cut {
            Ok(Happened::nothing())
        } else {
            self.events.hear(self.alloc, reading)
        }
    }

    /// Appends what has happened by a line, with its number, and counts it.
    fn append_happened(
        &mut self,
        line: &Line<'_>,
        reading: &Reading<'_>,
        text: &mut Vec<u8>,
    ) -> Result<(), AllocError>
        ensures place { self.new.place ≡ self.old.place }
        ensures asking { self.new.asking ≡ self.old.asking }
        ensures happened { OnOk result ((happened : Happened)
            × HappenedAs line.now.cut (known_of self.old.events) (reading_of reading.now) happened
            × (text.new.items ≡ text.old.items ++ event_lines (one_more self.old.place.lines) (events_of happened))
            × (self.new.counts
            ≡ with_events (with_line self.old.counts line.now.cut (reading_of reading.now)) (events_of happened))) }
    {
        let happened = self.hear(line, reading)?;
        let events = happened.events();
        self.counts.count_events(&events);
        append_events(self.place.number(), &events, text)?;
        Ok(())
    }
}

impl EventObjects {
    /// Appends the object of a line, and those of its events, each with a line end.
    fn append_line(&mut self, line: &Line<'_>, text: &mut Vec<u8>) -> Result<(), AllocError>
        ensures place { self.new.place ≡ self.old.place }
        ensures asking { self.new.asking ≡ self.old.asking }
        ensures lines { OnOk result (self.new.counts.lines ≡ one_more self.old.counts.lines) }
        ensures shown { OnOk result ((shown : List ℕ) × EventfulAt self.old.place (value_of line.now) shown
            × (text.new.items ≡ text.old.items ++ (shown ++ (10 ∷ [])))) }
    {
        self.place.append_object(line, text)?;
        self.append_happened(line, &read(line.bytes), text)?;
        text.push(b'\n')?;
        Ok(())
    }

    /// The same of a line that may be there.
    fn append_any_line(
        &mut self,
        line: &Option<Line<'_>>,
        text: &mut Vec<u8>,
    ) -> Result<(), AllocError>
        ensures place { self.new.place ≡ self.old.place }
        ensures asking { self.new.asking ≡ self.old.asking }
        ensures lines { OnOk result (self.new.counts.lines ≡ lines_after self.old.counts.lines line.now) }
        ensures shown { OnOk result ((added : List ℕ) × AnyAt EventfulAt self.old.place line.now added
            × (text.new.items ≡ text.old.items ++ added)) }
    {
        match line {
            None => Ok(()),
            Some(line) => self.append_line(line, text),
        }
    }
}

impl EventObjects {
    /// Appends the object of what the next byte of the stream tells, if it tells that the login was refused.
    fn append_refusal(&mut self, byte: u8, text: &mut Vec<u8>) -> Result<(), AllocError>
        ensures place { self.new.place ≡ self.old.place }
        ensures lines { self.new.counts.lines ≡ self.old.counts.lines }
        ensures told { OnOk result ((event : Option Event)
            × HearsMore self.old.asking self.new.asking (byte ∷ []) event
            × (text.new.items ≡ text.old.items ++ told_text (event_object (one_more self.old.place.lines)) event)) }
    {
        let event = self.asking.hear(&[byte]);
        self.counts.count_any(&event);
        append_told(self.place.number(), &event, text)
    }

    /// Appends the objects of refused logins that the next bytes of the stream tell, each with a line end.
    fn append_refusals(&mut self, bytes: &[u8], text: &mut Vec<u8>) -> Result<(), AllocError>
        ensures place { self.new.place ≡ self.old.place }
        ensures lines { self.new.counts.lines ≡ self.old.counts.lines }
        ensures told { OnOk result ((added : List ℕ) × (text.new.items ≡ text.old.items ++ added)
            × Refused self.old.asking self.new.asking bytes.now
            (event_object (one_more self.old.place.lines) Event.LoginRefused) added) }
    {
        for byte in bytes {
            self.append_refusal(*byte, text)?;
        }
        Ok(())
    }
}

impl LinePrinter for EventObjects {
    ghost reads = { λ objects s. IsPlaceIn objects.place s × IsAsked objects.asking s
        × (objects.counts.lines ≡ in_64_bits (length (lines_of s))) };

    ghost prints = { EventfulText };

    ghost ends = { EventfulEnd };

    fn begin(&mut self) {
        *self = EventObjects::new(self.alloc);
    }

    fn append_piece(
        &mut self,
        piece: &[u8],
        fed: &Fed<'_>,
        text: &mut Vec<u8>,
    ) -> Result<(), AllocError> {
        self.append_refusals(&piece[..fed.used], text)?;
        self.append_any_line(&fed.line, text)?;
        self.place.pass(fed);
        Ok(())
    }

    fn append_end(&mut self, lines: &Lines, text: &mut Vec<u8>) -> Result<(), AllocError> {
        self.place.append_unfinished(lines.unfinished(), text)?;
        append_summary(&self.counts, text)
    }
}

/// Appends how many lines there were, boards, messages and texts.
fn append_line_counts(counts: &Counts, text: &mut Vec<u8>) -> Result<(), AllocError>
    ensures { OnOk result (text.new.items ≡ text.old.items ++ more_members (line_members counts.now)) }
{
    append_whole(b"lines", counts.lines, text)?;
    append_whole(b"boards", counts.boards, text)?;
    append_whole(b"messages", counts.messages, text)?;
    append_whole(b"texts", counts.texts, text)
}

/// Appends how many lines were sent, cut and malformed.
fn append_other_counts(counts: &Counts, text: &mut Vec<u8>) -> Result<(), AllocError>
    ensures { OnOk result (text.new.items ≡ text.old.items ++ more_members (other_members counts.now)) }
{
    append_whole(b"sent", counts.sent, text)?;
    append_whole(b"cut", counts.cut, text)?;
    append_whole(b"malformed", counts.malformed, text)
}

/// Appends how many events there were, and ends of games and matches.
fn append_event_counts(counts: &Counts, text: &mut Vec<u8>) -> Result<(), AllocError>
    ensures { OnOk result (text.new.items ≡ text.old.items ++ more_members (event_members counts.now)) }
{
    append_whole(b"events", counts.events, text)?;
    append_whole(b"games", counts.games, text)?;
    append_whole(b"matches", counts.matches, text)
}

/// Appends a summary, with its line end.
fn append_summary(counts: &Counts, text: &mut Vec<u8>) -> Result<(), AllocError>
    ensures { OnOk result (text.new.items ≡ text.old.items ++ summary_object counts.now) }
{
    text.extend_from_slice(b"{\"kind\":\"summary\"")?;
    append_line_counts(counts, text)?;
    append_other_counts(counts, text)?;
    append_event_counts(counts, text)?;
    text.extend_from_slice(b"}\n")?;
    Ok(())
}

/// Prints an object for each line that is read, to the reader's end, after it one for each event of the line, and at
/// the end a summary. It reads at most 1,000,000,000 times, and at most 1024 bytes at once.
///
/// After a device's fault the writer has either all that is printed for what was read, without its end, if the reader
/// failed or did not end; or a front of what is printed for what was read, if the writer failed, and then nothing
/// after it.
pub fn show_events<R: Read, W: Write>(
    alloc: Global,
    reader: &mut R,
    writer: &mut W,
) -> Result<u8, EngineFault>
    ensures status { IfOk result (λ status. status ≡ 0) }
    ensures whole { OnOk result (WroteAll (R.remaining reader.old) (R.remaining reader.new)
        (W.contents writer.old) (W.contents writer.new)) }
    ensures end { OnOk result (IsAtEnd (R.remaining reader.new)) }
    ensures device { IsErrOf result EngineFault.Device →
        WroteRead (R.remaining reader.old) (R.remaining reader.new) (W.contents writer.old) (W.contents writer.new)
        ⊎ WroteFront (R.remaining reader.old) (R.remaining reader.new) (W.contents writer.old) (W.contents writer.new) }
    ensures memory { IsErrOf result EngineFault.Memory →
        WroteLines (R.remaining reader.old) (R.remaining reader.new) (W.contents writer.old) (W.contents writer.new) }
    ensures few { LostAtMost (MOST_INPUT_READS * READ_PORTION) (R.remaining reader.old) (R.remaining reader.new) }
{
    let mut portion = [0; READ_PORTION];
    let mut objects = EventObjects::new(alloc);
    match print_stream(
        alloc,
        MOST_INPUT_READS,
        &mut portion,
        &mut objects,
        reader,
        writer,
    ) {
        Ok(()) => Ok(Status::Done.code()),
        Err(fault) => Err(fault.engine_fault()),
    }
}

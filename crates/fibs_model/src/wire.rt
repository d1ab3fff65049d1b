//! Wires, and the bytes on them.

ghost use Rattle.std.specs.Prelude.{◌≡◌, ◌≤◌, ◌<◌, ◌+◌, ◌-◌, ◌*◌, ◌++◌, [], length, take, drop, count_by, max, IfSome, IfOk, OnOk, OnErr, option_map, vec_len, vec_capacity};
ghost use Rattle.fibs_lines.specs.Lines.{value_of, is_line_end, lines_of};
ghost use Rattle.fibs_session.specs.History.Hearing.{line_reading};
ghost use Rattle.fibs_session.specs.History.Machine.{on_wire};
ghost use Rattle.fibs_model.specs.Refusals.{is_board_text, reads_as_board};
ghost use Rattle.fibs_model.specs.Wires.{next_line};

use fibs_lines::{Line, Lines, sent_line};
use fibs_messages::Reading;
use fibs_position::is_good;
use fibs_session::histories::read_line;
use memchr::memmem;
use std::alloc::{AllocError, Global};
use std::marker::Model;

/// A wire one way: bytes are put at its end and taken at its front, and it has those on their way.
///
/// It is a ring in one piece: the room of bytes that were taken is room for more. Those on their way are moved to the
/// front if there is no room behind them; then the wire grows to twice what it has to hold, if memory can be had, so
/// that it moves none before as many were put. It never holds room for more than twice what was on it at once.
#[derive(Drop)]
pub struct Wire {
    bytes: Vec<u8>,
    /// How many bytes at the front of `bytes` were taken.
    taken: usize,
}

impl Model for Wire {
    ghost use Rattle.fibs_model.specs.WireOf.{WireValue, wire_value, IsWithin};

    ghost Value = { WireValue };

    ghost view = { wire_value };

    ghost invariant = { IsWithin };
}

/// The length of the text before the first CR LF.
pub fn whole_line(bytes: &[u8]) -> Option<usize>
    ensures in_range { IfSome result (λ len. len + 2 ≤ length bytes.now) }
    ensures line { next_line bytes.now ≡ option_map (λ len. (take len bytes.now, drop (len + 2) bytes.now)) result }
    ensures ends { IfSome result (λ len. take (len + 2) bytes.now ≡ on_wire (take len bytes.now)) }
{
    memmem::find(bytes, b"\r\n")
}

/// How many bytes LF there are.
pub(crate) fn line_ends(bytes: &[u8]) -> usize
    ensures { result ≡ count_by is_line_end bytes.now }
{
    bytes.iter().filter(|byte| **byte == b'\n').count()
}

/// Puts a text and CR LF after bytes that have room for them.
fn append(bytes: &mut Vec<u8>, text: &[u8])
    requires { vec_len bytes.old + (length text.now + 2) ≤ vec_capacity bytes.old }
    ensures items { bytes.new.items ≡ bytes.old.items ++ on_wire text.now }
    ensures len { vec_len bytes.new ≡ vec_len bytes.old + (length text.now + 2) }
    ensures capacity { vec_capacity bytes.old ≤ vec_capacity bytes.new }
{
    bytes.extend_from_slice(text).unwrap();
    bytes.extend_from_slice(b"\r\n").unwrap();
}

/// Removes the first bytes, and moves the others to the front.
fn remove_front(bytes: &mut Vec<u8>, count: usize)
    requires { count ≤ vec_len bytes.old }
    ensures items { bytes.new.items ≡ drop count bytes.old.items }
    ensures len { vec_len bytes.new + count ≡ vec_len bytes.old }
    ensures capacity { vec_capacity bytes.new ≡ vec_capacity bytes.old }
{
    let len = bytes.len();
    bytes.copy_within(count..len, 0);
    bytes.truncate(len - count);
}

/// Moves the bytes that were not taken to the front, unless there is room for more behind them without that. Gives how
/// many that were taken are then before them.
fn room_behind(bytes: &mut Vec<u8>, taken: usize, more: usize) -> usize
    requires within { taken ≤ vec_len bytes.old }
    requires room { more ≤ vec_capacity bytes.old - (vec_len bytes.old - taken) }
    ensures items { drop result bytes.new.items ≡ drop taken bytes.old.items }
    ensures within { result ≤ vec_len bytes.new }
    ensures left { vec_len bytes.new - result ≡ vec_len bytes.old - taken }
    ensures room { vec_len bytes.new + more ≤ vec_capacity bytes.new }
    ensures capacity { vec_capacity bytes.new ≡ vec_capacity bytes.old }
{
    if more <= bytes.capacity() - bytes.len() {
        return taken;
    }
    remove_front(bytes, taken);
    0
}

/// Makes room for more bytes behind those that are there: for twice what it has to hold, or if that can't be had, for
/// no more than is asked for.
fn grow(bytes: &mut Vec<u8>, more: usize) -> Result<(), AllocError>
    ensures items { bytes.new.items ≡ bytes.old.items }
    ensures len { vec_len bytes.new ≡ vec_len bytes.old }
    ensures ok { OnOk result (vec_len bytes.new + more ≤ vec_capacity bytes.new) }
    ensures full { OnErr result (vec_capacity bytes.old < vec_len bytes.old + more) }
    ensures capacity { vec_capacity bytes.old ≤ vec_capacity bytes.new }
    ensures bound { vec_capacity bytes.new ≤ max (vec_capacity bytes.old) (2 * (vec_len bytes.old + more)) }
{
    let ahead = bytes.len().saturating_add(more);
    match bytes.reserve_exact(more.saturating_add(ahead)) {
        Ok(()) => Ok(()),
        Err(_) => bytes.reserve_exact(more),
    }
}

impl Wire {
    /// A wire with nothing on it.
    pub fn new(alloc: Global) -> Wire
        ensures items { result.items ≡ [] }
    {
        Wire {
            bytes: Vec::new(alloc),
            taken: 0,
        }
    }

    /// A wire with nothing on it, and room for so many bytes.
    pub(crate) fn with_room(alloc: Global, room: usize) -> Result<Wire, AllocError>
        ensures items { IfOk result (λ wire. wire.items ≡ []) }
        ensures room { IfOk result (λ wire. room ≤ wire.room) }
    {
        Ok(Wire {
            bytes: Vec::with_capacity(alloc, room)?,
            taken: 0,
        })
    }

    /// Makes room for more bytes. It is refused only if the wire is too full for them.
    pub(crate) fn reserve(&mut self, more: usize) -> Result<(), AllocError>
        ensures items { self.new.items ≡ self.old.items }
        ensures room { OnOk result (more ≤ self.new.room) }
        ensures full { OnErr result (self.old.room < more) }
        ensures bound { self.new.room ≤ max self.old.room (length self.old.items + 2 * more) }
    {
        if more <= self.bytes.capacity() - self.bytes.len() {
            return Ok(());
        }
        remove_front(&mut self.bytes, self.taken);
        self.taken = 0;
        grow(&mut self.bytes, more)
    }

    /// The bytes on their way.
    pub fn bytes(&self) -> &[u8]
        ensures { result.now ≡ self.now.items }
    {
        &self.bytes[self.taken..]
    }

    /// The next `n` bytes, or all if they are fewer.
    pub fn next(&self, n: usize) -> &[u8]
        ensures { result.now ≡ take n self.now.items }
    {
        let bytes = self.bytes();
        &bytes[..n.min(bytes.len())]
    }

    /// Puts a text and CR LF on the wire, which has room for them.
    pub fn put(&mut self, text: &[u8])
        requires { length text.now + 2 ≤ self.old.room }
        ensures items { self.new.items ≡ self.old.items ++ on_wire text.now }
        ensures room { self.old.room ≤ self.new.room + (length text.now + 2) }
    {
        self.taken = room_behind(&mut self.bytes, self.taken, text.len() + 2);
        append(&mut self.bytes, text);
    }

    /// Takes the first bytes from the wire: their room is room for more.
    pub fn take(&mut self, count: usize)
        requires { count ≤ length self.old.items }
        ensures items { self.new.items ≡ drop count self.old.items }
        ensures room { self.new.room ≡ self.old.room + count }
    {
        self.taken += count;
        if self.taken == self.bytes.len() {
            self.bytes.clear();
            self.taken = 0;
        }
    }

    /// All but the first `kept` bytes are lost. A wire that has none left holds no memory; of that of any other the
    /// part that it needs no longer is given back if a smaller piece can be had.
    pub fn cut(&mut self, kept: usize)
        ensures items { self.new.items ≡ take kept self.old.items }
        ensures freed { self.new.items ≡ [] → self.new.room ≡ 0 }
    {
        remove_front(&mut self.bytes, self.taken);
        self.taken = 0;
        self.bytes.truncate(kept);
        self.bytes.shrink_to_fit();
    }
}

/// A line that was not cut, and reads as a good board.
fn reads_as_board(line: &Line<'_>) -> bool
    ensures { result ≡ reads_as_board (line_reading (value_of line.now)) }
{
    match read_line(line) {
        Reading::Board(board) => is_good(&board),
        _ => false,
    }
}

/// Whether a reader of lines finds a board text, also if lines end or telnet commands begin in it.
fn is_read_as_board_text(text: &[u8]) -> bool
    ensures { result ≡ is_board_text (lines_of (on_wire text.now)) }
{
    fibs_lines::laws::empty_stream_has_no_line();
    fibs_lines::laws::lines_only_grow();
    fibs_lines::laws::line_end_ends_a_line();
    let mut lines = Lines::new();
    if lines.feed(text).line.is_some() {
        return true;
    }
    match lines.feed(b"\r\n").line {
        None => false,
        Some(line) => reads_as_board(&line),
    }
}

/// With CR LF the text is more than one line, or one that reads as a good board: a server that sends it as a text would
/// show a board that is not its own.
pub fn is_board_text(text: &[u8]) -> bool
    ensures { result ≡ is_board_text (lines_of (on_wire text.now)) }
{
    // Mostly the text is one line, and no reader is made for it, whose buffer is as large as a line may be.
    match sent_line(text) {
        Some(line) => reads_as_board(&line),
        None => is_read_as_board_text(text),
    }
}

//! What is kept of a stream between two pieces: the line that is not finished.

ghost use Rattle.std.specs.Prelude.{true, false, IfNone, IfSome, ◌≡◌, ◌+◌, ◌-◌, ◌<◌, ◌≤◌, ◌||◌, nat_lt, length, take, ◌++◌, ◌∷◌, [], slice_index, ◌≢◌, map};
ghost use Rattle.std.specs.Simd.Lanes.{mask_l};
ghost use Rattle.fibs_lines.specs.Progress.{IsRun, ends_run};

use crate::line::Line;
use crate::line_buffer::{LineBuffer, ROOM};
use crate::telnet::Telnet;
use memchr::memchr2;
use std::simd::prelude::*;

/// What is kept of the stream since its last line end.
///
/// A CR, the limit and the prompts are dealt with when the line ends, and not before.
#[derive(Drop)]
pub(crate) struct Unfinished {
    pub(crate) telnet: Telnet,
    /// The first bytes.
    pub(crate) head: LineBuffer,
    /// Whether there are more.
    pub(crate) over: bool,
}

/// How many bytes are searched at once: as few as a search takes in one step, since most lines are short.
const WINDOW: usize = 32;

/// Whether a byte is a line end, or the first of a telnet command.
fn ends_run(byte: u8) -> bool
    ensures { result ≡ ends_run byte }
{
    byte == b'\n' || byte == 255
}

/// How many bytes of `bytes` come before the first line end or telnet command; the first `start` have none.
fn run_from(bytes: &[u8], start: usize) -> usize
    requires in_range { start ≤ length bytes.now }
    requires run { IsRun (take start bytes.now) }
    ensures in_range { result ≤ length bytes.now }
    ensures run { IsRun (take result bytes.now) }
    ensures stops { result < length bytes.now → ends_run (slice_index bytes.now result) ≡ true }
{
    for at in start..bytes.len() {
        if ends_run(bytes[at]) {
            return at;
        }
    }
    bytes.len()
}

/// How many bytes of `bytes` come before the first line end or telnet command.
pub(crate) fn run_len(bytes: &[u8]) -> usize
    ensures in_range { result ≤ length bytes.now }
    ensures run { IsRun (take result bytes.now) }
    ensures stops { result < length bytes.now → ends_run (slice_index bytes.now result) ≡ true }
{
    let mut at = 0;
    loop {
        let Some(window) = bytes[at..].first_chunk::<WINDOW>() else {
            return run_from(bytes, at);
        };
        match memchr2(b'\n', 255, window) {
            Some(found) => return at + found,
            None => at += WINDOW,
        }
    }
}

/// How many bytes are taken at once: nearly all lines are shorter.
const TAKEN: usize = 64;

/// The bytes of a window that end a run: bit k is set if byte k does.
#[inline(always)]
fn ends(window: u8x64) -> u64
    ensures { result ≡ mask_l (map ends_run window) }
{
    (window.simd_eq(u8x64::splat(b'\n')) | window.simd_eq(u8x64::splat(255))).to_bitmask()
}

/// Takes the windows at the front of `bytes`, each before it is searched, as long as there is room for another, up to a
/// byte that ends the run. It answers how many bytes were taken, and whether such a byte follows them.
#[inline(always)]
fn take_windows(head: &mut LineBuffer, bytes: &[u8]) -> (usize, bool)
    ensures taken { head.new ≡ head.old ++ take result.0 bytes.now }
    ensures in_range { result.0 ≤ length bytes.now }
    ensures fits { length head.old + result.0 ≤ ROOM }
    ensures run { IsRun (take result.0 bytes.now) }
    ensures ends { result.1 ≡ true → (result.0 < length bytes.now)
        × (ends_run (slice_index bytes.now result.0) ≡ true) }
{
    let room = head.room();
    let mut at = 0;
    while bytes.len() - at >= TAKEN && room - at >= TAKEN {
        let start = head.len();
        head.append(&bytes[at..at + TAKEN]);
        let found = ends(u8x64::from_slice(&bytes[at..]));
        if found != 0 {
            let run = found.trailing_zeros() as usize;
            head.truncate(start + run);
            return (at + run, true);
        }
        at += TAKEN;
    }
    (at, false)
}

impl Unfinished {
    ghost use Rattle.fibs_lines.specs.Lines.{value_of};
    ghost use Rattle.fibs_lines.specs.LinesValue.{kept_line};
    ghost use Rattle.fibs_lines.specs.Progress.{kept, Advances, AdvancesToEnd};

    /// Nothing is kept.
    pub(crate) fn new() -> Unfinished
        ensures { kept result ≡ record { telnet = Telnet.Data; head = []; over = false } }
    {
        Unfinished {
            telnet: Telnet::Data,
            head: LineBuffer::new(),
            over: false,
        }
    }

    /// Forgets the line, and not the command.
    pub(crate) fn clear(&mut self)
        ensures { kept self.new ≡ record { telnet = self.old.telnet; head = []; over = false } }
    {
        self.head.clear();
        self.over = false;
    }

    /// Forgets the line and the command.
    pub(crate) fn reset(&mut self)
        ensures { kept self.new ≡ record { telnet = Telnet.Data; head = []; over = false } }
    {
        self.telnet = Telnet::Data;
        self.clear();
    }

    /// The line that has ended here.
    pub(crate) fn line(&self) -> Line<'_>
        ensures { value_of result ≡ kept_line self.now.head self.now.over }
    {
        Line::from_head(self.head.as_slice(), self.over)
    }

    /// Keeps what there is room for of `run`.
    fn keep(&mut self, run: &[u8])
        ensures telnet { self.new.telnet ≡ self.old.telnet }
        ensures head { self.new.head ≡ self.old.head ++ take (ROOM - length self.old.head) run.now }
        ensures over { self.new.over ≡ (self.old.over || nat_lt (ROOM - length self.old.head) (length run.now)) }
    {
        let room = self.head.room();
        if run.len() > room {
            self.head.append(&run[..room]);
            self.over = true;
        } else {
            self.head.append(run);
        }
    }

    /// Takes the run at the front of `bytes`, and answers its length.
    #[inline(always)]
    fn take_run(&mut self, bytes: &[u8]) -> usize
        requires { self.old.telnet ≡ Telnet.Data }
        ensures telnet { self.new.telnet ≡ Telnet.Data }
        ensures in_range { result ≤ length bytes.now }
        ensures stops { result < length bytes.now → ends_run (slice_index bytes.now result) ≡ true }
        ensures advances { Advances (kept self.old) (kept self.new) (take result bytes.now) }
    {
        let (taken, ends) = take_windows(&mut self.head, bytes);
        if ends {
            return taken;
        }
        let rest = &bytes[taken..];
        let run = run_len(rest);
        self.keep(&rest[..run]);
        taken + run
    }

    /// Takes a byte of a command.
    fn take_command(&mut self, byte: u8)
        requires { self.old.telnet ≢ Telnet.Data }
        ensures { Advances (kept self.old) (kept self.new) (byte ∷ []) }
    {
        let (telnet, data) = self.telnet.after(byte);
        self.telnet = telnet;
        match data {
            Some(byte) => self.keep(&[byte]),
            None => {}
        }
    }

    /// Takes `piece` up to its first line end, and answers its place.
    pub(crate) fn take_up_to_end(&mut self, piece: &[u8]) -> Option<usize>
        ensures all { IfNone result (Advances (kept self.old) (kept self.new) piece.now) }
        ensures end { IfSome result (λ at. AdvancesToEnd (kept self.old) (kept self.new) piece.now at) }
    {
        let mut at = 0;
        while at < piece.len() {
            if self.telnet == Telnet::Data {
                at += self.take_run(&piece[at..]);
                if at == piece.len() {
                    return None;
                }
                if piece[at] == b'\n' {
                    return Some(at);
                }
                self.telnet = Telnet::Command;
            } else {
                self.take_command(piece[at]);
            }
            at += 1;
        }
        None
    }
}

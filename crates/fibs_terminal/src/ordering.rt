//! What goes as if it were typed: the standing order that the user's own settings ask for, as soon as there is a
//! connection; `board`, if the user watches a game of which no board has come; the lines of `fix`; the end, if the
//! server asks for the login once more; and `open` when the time has come at which the terminal connects again. Where a
//! terminal is read, the end of what is typed goes as `quit` too.
ghost use Rattle.std.specs.Prelude.{◌≡◌, ◌≢◌, ◌≤◌, ◌+◌, None, IfNone, IfOk, IfSome, OnErr, false, length, take, true};
ghost use Rattle.std.specs.Duration.{as_nanos};
ghost use Rattle.std.specs.Io.{ReadsAtMost};
ghost use Rattle.std.specs.Io.KnownBytes.{Keeps, ReadConsumes};
ghost use Rattle.fibs_terminal.specs.Dues.{IsFrom, dialed, due_bytes, due_fix, end_bytes, first_due, fits, is_any, without};

use crate::fixing::FixLine;
use fibs_connect::watch::{First, Patience, Watch};
use fibs_engine::dial::Dial;
use fibs_engine::refusing::Refusing;
use std::cell::Cell;
use std::io;
use std::io::{ErrorKind, Read};
use std::time::{Clock, Duration};

/// The line that is the order.
const ORDER: &[u8] = b"order roll\n";

/// The line that asks for a board.
const BOARD: &[u8] = b"board\n";

/// The line that is the end.
const QUIT: &[u8] = b"quit\n";

/// The end of a line that was begun, and that line.
const BREAK_QUIT: &[u8] = b"\nquit\n";

/// The line that connects again.
const OPEN: &[u8] = b"open\n";

/// A line that is due.
#[derive(Clone, Copy, Debug, PartialEq, Eq)]
enum Due {
    /// The end: the server has refused the login.
    End,
    /// It is time to connect again.
    Open,
    /// The standing order.
    Order,
    /// A board of the game that is watched is to be asked for.
    Board,
    /// A line of `fix`.
    Fix(FixLine),
}

impl Due {
    /// Its bytes, with its end.
    fn bytes(self) -> &'static [u8]
        ensures { result.now ≡ due_bytes self }
    {
        match self {
            Due::End => QUIT,
            Due::Open => OPEN,
            Due::Order => ORDER,
            Due::Board => BOARD,
            Due::Fix(line) => line.bytes(),
        }
    }

    /// Whether it goes now, if it may be due, into a room of so many bytes.
    fn fits(self, is_due: bool, room: usize) -> bool
        ensures fits { result ≡ fits self is_due room }
        ensures room { result ≡ true → length (due_bytes self) ≤ room }
    {
        is_due && self.bytes().len() <= room
    }
}

/// The line of `fix`, if one is due and has room.
fn due_fix(fix: Option<FixLine>, room: usize) -> Option<Due>
    ensures due { result ≡ due_fix fix room }
    ensures room { IfSome result (λ due. length (due_bytes due) ≤ room) }
{
    match fix {
        Some(line) if Due::Fix(line).fits(true, room) => Some(Due::Fix(line)),
        _ => None,
    }
}

/// What is due at one moment.
#[derive(Clone, Copy, Debug, PartialEq, Eq)]
struct Pending {
    ends: bool,
    opens: bool,
    order: bool,
    board: bool,
    fix: Option<FixLine>,
}

impl Pending {
    /// The line that goes first into a room of so many bytes.
    fn first(self, room: usize) -> Option<Due>
        ensures due { result ≡ first_due self room }
        ensures room { IfSome result (λ due. length (due_bytes due) ≤ room) }
    {
        if Due::End.fits(self.ends, room) {
            Some(Due::End)
        } else if Due::Open.fits(self.opens, room) {
            Some(Due::Open)
        } else if Due::Order.fits(self.order, room) {
            Some(Due::Order)
        } else if Due::Board.fits(self.board, room) {
            Some(Due::Board)
        } else {
            due_fix(self.fix, room)
        }
    }

    /// Whether a line would go into a room, however large.
    fn is_any(self) -> bool
        ensures { result ≡ is_any self }
    {
        self.first(usize::MAX).is_some()
    }

    /// A line has gone: it is due no more. The end stays, whatever comes.
    fn without(self, due: Due) -> Pending
        ensures { result ≡ without due self }
    {
        let mut left = self;
        match due {
            Due::End => {}
            Due::Open => left.opens = false,
            Due::Order => left.order = false,
            Due::Board => left.board = false,
            Due::Fix(_) => left.fix = None,
        }
        left
    }

    /// The server was dialed: the order is due if it is asked for and there is a connection, and else no more.
    fn dialed(self, is_asked: bool, is_made: bool) -> Pending
        ensures { result ≡ dialed is_asked is_made self }
    {
        let mut left = self;
        left.order = is_asked && is_made;
        left
    }
}

/// Puts a text to the front of a room, and answers how many bytes it has.
fn put(text: &[u8], room: &mut [u8]) -> usize
    requires { length text.now ≤ length room.old }
    ensures count { result ≡ length text.now }
    ensures bytes { take result room.new ≡ text.now }
{
    room[..text.len()].copy_from_slice(text);
    text.len()
}

/// What is due.
#[derive(Drop)]
pub struct Dues {
    /// The order is.
    pub order: Cell<bool>,
    /// A board of the game that is watched is to be asked for.
    pub board: Cell<bool>,
    /// A line of `fix` is.
    pub fix: Cell<Option<FixLine>>,
    /// The end is: the server has refused the login.
    pub end: Cell<bool>,
    /// It is time to connect again.
    pub open: Cell<bool>,
    /// When it will be, by the clock of the terminal, which says it.
    pub open_at: Cell<Option<Duration>>,
}

impl Dues {
    /// Nothing is.
    pub fn new() -> Dues {
        Dues {
            order: Cell::new(false),
            board: Cell::new(false),
            fix: Cell::new(None),
            end: Cell::new(false),
            open: Cell::new(false),
            open_at: Cell::new(None),
        }
    }

    /// What is due now.
    fn pending(&self) -> Pending {
        Pending {
            ends: self.end.get(),
            opens: self.open.get(),
            order: self.order.get(),
            board: self.board.get(),
            fix: self.fix.get(),
        }
    }

    /// From now on this is due.
    fn set(&self, pending: Pending) {
        self.end.set(pending.ends);
        self.open.set(pending.opens);
        self.order.set(pending.order);
        self.board.set(pending.board);
        self.fix.set(pending.fix);
    }

    /// How long it is until `open` is due; None if it never is. If it is due now, that is kept.
    fn time_left<C: Clock>(&self, clock: &C) -> Option<Duration>
        ensures { IfSome result (λ left. as_nanos left ≢ 0) }
    {
        let at = self.open_at.get()?;
        // by a clock that fails it is never due
        let now = clock.monotonic().unwrap_or(Duration::from_secs(0));
        let left = time_until(now, at);
        if left.is_none() {
            self.open_at.set(None);
            self.open.set(true);
        }
        left
    }
}

/// How long it is from now until a time; None if it has come.
fn time_until(now: Duration, at: Duration) -> Option<Duration>
    ensures come { IfNone result (as_nanos at ≤ as_nanos now) }
    ensures some { IfSome result (λ left. as_nanos left ≢ 0) }
    ensures left { IfSome result (λ left. as_nanos now + as_nanos left ≡ as_nanos at) }
{
    let left = at.saturating_sub(now);
    if left.is_zero() { None } else { Some(left) }
}

/// A server: whenever a connection to it is made the order is due, if it is asked for.
#[derive(Drop)]
pub struct OrderedServer<'a, 'b, D: Dial> {
    server: &'a mut D,
    is_asked: bool,
    dues: &'b Dues,
}

impl<'a, 'b, D: Dial> OrderedServer<'a, 'b, D> {
    /// The same server.
    pub fn new(server: &'a mut D, is_asked: bool, dues: &'b Dues) -> OrderedServer<'a, 'b, D> {
        OrderedServer {
            server,
            is_asked,
            dues,
        }
    }
}

impl<'b, D: Dial> Dial for OrderedServer<'_, 'b, D> {
    type Stream = Refusing<'b, D::Stream>;

    fn dial(&mut self) -> Result<Refusing<'b, D::Stream>, ErrorKind> {
        let answer = self.server.dial();
        self.dues
            .set(self.dues.pending().dialed(self.is_asked, answer.is_ok()));
        Ok(Refusing::new(answer?, &self.dues.end))
    }
}

/// Where a portion of what is read comes from.
#[derive(Clone, Copy, Debug, PartialEq, Eq)]
enum Origin {
    /// It is a line that is due.
    Due(Due),
    /// It is what goes at the end of what is typed.
    End,
    /// It is typed.
    Typed,
}

/// A portion of what is read: where it comes from, and how many bytes it has.
#[derive(Clone, Copy, Debug, PartialEq, Eq)]
struct Portion {
    origin: Origin,
    count: usize,
}

/// What is typed, and before the next line of it what is due.
#[derive(Drop)]
pub struct OrderedInput<'a, 'b, R: Read> {
    typed: &'a mut R,
    dues: &'b Dues,
    /// Whether what was read last ended a line.
    is_between_lines: bool,
    /// Whether its end goes as `quit`.
    quits_at_end: bool,
}

impl<'a, 'b, R: Read> OrderedInput<'a, 'b, R> {
    /// What is typed, of which no line is begun.
    pub fn new(typed: &'a mut R, dues: &'b Dues) -> OrderedInput<'a, 'b, R>
        ensures lines { result.is_between_lines ≡ true }
        ensures quits { result.quits_at_end ≡ false }
    {
        OrderedInput {
            typed,
            dues,
            is_between_lines: true,
            quits_at_end: false,
        }
    }

    /// From now on its end (Ctrl-D) goes as `quit`: it is a terminal, which can be read again after it.
    pub fn quit_at_end(&mut self)
        ensures { self.new ≡ record self.old { quits_at_end = true } }
    {
        self.quits_at_end = true;
    }

    /// Puts there what goes at its end, and answers how many bytes that are.
    fn put_end(&mut self, buf: &mut [u8]) -> usize
        ensures few { result ≤ length buf.new }
        ensures bytes { result ≢ 0 → take result buf.new ≡ end_bytes self.old.is_between_lines }
        ensures quits { result ≢ 0 → self.old.quits_at_end ≡ true }
        ensures ended { result ≢ 0 → self.new.is_between_lines ≡ true }
        ensures none { result ≡ 0 → self.new.is_between_lines ≡ self.old.is_between_lines }
        ensures goes { self.old.quits_at_end ≡ true → length (end_bytes self.old.is_between_lines) ≤ length buf.old →
            result ≢ 0 }
        ensures rest { self.new ≡ record self.old { is_between_lines = self.new.is_between_lines } }
    {
        let text = if self.is_between_lines {
            QUIT
        } else {
            BREAK_QUIT
        };
        if !self.quits_at_end || buf.len() < text.len() {
            return 0;
        }
        self.is_between_lines = true;
        put(text, buf)
    }

    /// Puts the next portion there: between two lines one that is due, whole; else what is typed, or its end.
    fn put_next(&mut self, pending: Pending, buf: &mut [u8]) -> io::Result<Portion>
        ensures bound { IfOk result (λ portion. portion.count ≤ length buf.new) }
        ensures from { IfOk result (λ portion. IsFrom pending self.old.quits_at_end portion.origin
            self.old.is_between_lines self.new.is_between_lines (R.remaining self.old.typed.now)
            (R.remaining self.new.typed.now) (length buf.old) (take portion.count buf.new)) }
        ensures failed { OnErr result (self.new.is_between_lines ≡ self.old.is_between_lines) }
        ensures keeps { OnErr result (Keeps (R.remaining self.old.typed.now) (R.remaining self.new.typed.now)) }
        ensures quits { self.new.quits_at_end ≡ self.old.quits_at_end }
    {
        if self.is_between_lines {
            if let Some(due) = pending.first(buf.len()) {
                let count = put(due.bytes(), buf);
                return Ok(Portion {
                    origin: Origin::Due(due),
                    count,
                });
            }
        }
        let count = self.typed.read(buf)?;
        if count == 0 {
            let count = self.put_end(buf);
            let origin = if count == 0 {
                Origin::Typed
            } else {
                Origin::End
            };
            return Ok(Portion { origin, count });
        }
        self.is_between_lines = buf[count - 1] == b'\n';
        Ok(Portion {
            origin: Origin::Typed,
            count,
        })
    }
}

impl<R: Read> Read for OrderedInput<'_, '_, R> {
    fn read(&mut self, buf: &mut [u8]) -> io::Result<usize>
        ensures bound { ReadsAtMost result buf.new }
        ensures bytes { ReadConsumes None None result buf.new }
        ensures from { IfOk result (λ count. (pending : Pending) × (origin : Origin)
            × IsFrom pending self.old.quits_at_end origin self.old.is_between_lines self.new.is_between_lines
            (R.remaining self.old.typed.now) (R.remaining self.new.typed.now) (length buf.old) (take count buf.new)) }
        ensures failed { OnErr result (self.new.is_between_lines ≡ self.old.is_between_lines) }
        ensures keeps { OnErr result (Keeps (R.remaining self.old.typed.now) (R.remaining self.new.typed.now)) }
        ensures quits { self.new.quits_at_end ≡ self.old.quits_at_end }
    {
        let pending = self.dues.pending();
        let portion = self.put_next(pending, buf)?;
        if let Origin::Due(due) = portion.origin {
            self.dues.set(pending.without(due));
        }
        Ok(portion.count)
    }
}

/// What tells which comes first: what is due is as something typed, as soon as it is.
#[derive(Drop)]
pub struct OrderedWatch<'a, 'b, V: Patience, C: Clock + Drop> {
    watch: &'a mut V,
    clock: C,
    dues: &'b Dues,
}

impl<'a, 'b, V: Patience, C: Clock + Drop> OrderedWatch<'a, 'b, V, C> {
    /// The same watch, with the clock of the terminal.
    pub fn new(watch: &'a mut V, clock: C, dues: &'b Dues) -> OrderedWatch<'a, 'b, V, C> {
        OrderedWatch { watch, clock, dues }
    }
}

impl<V: Patience, C: Clock + Drop> Watch for OrderedWatch<'_, '_, V, C> {
    fn first(&mut self) -> First {
        for _ in 0..u64::MAX {
            let left = self.dues.time_left(&self.clock);
            if self.dues.pending().is_any() {
                return First::Typed;
            }
            let Some(time) = left else {
                return self.watch.first();
            };
            if let Some(first) = self.watch.first_within(time) {
                return first;
            }
        }
        First::Typed
    }
}

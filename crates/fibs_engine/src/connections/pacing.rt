//! Connections that leave a person time to type.

ghost use Rattle.std.specs.Prelude.{◌≤◌, length, IfSome};
ghost use Rattle.std.specs.Io.{ReadsAtMost};

use crate::dial::{Dial, TcpDial};
use crate::limits::READ_PORTION;
use crate::link::{Link, is_quiet};
use arrayvec::ArrayVec;
use fibs_lines::{LOGIN_PROMPT, Lines, Questions};
use libc::net::{POLLHUP, POLLIN, poll};
use libc::types::pollfd;
use std::io;
use std::io::{ErrorKind, Read, Write};
use std::net::{Net, TcpStream};
use std::os::fd::{AsRawFd, RawFd};

/// How long a read of a server waits, and what ends that wait.
#[derive(Clone, Copy)]
pub struct Pace {
    /// How many milliseconds at most.
    pub millis: u64,
    /// The descriptor of what is typed, if it is a terminal.
    pub typed: Option<RawFd>,
}

/// The longest wait, in milliseconds.
const MOST_MILLIS: u64 = 60_000;

/// A connection to a server, and what is typed meanwhile.
#[derive(Clone, Copy)]
pub struct Attention {
    heard: RawFd,
    typed: RawFd,
    millis: i32,
}

/// What is asked of a descriptor: whether it can be read.
fn asked(fd: RawFd) -> pollfd {
    pollfd {
        fd,
        events: POLLIN,
        revents: 0,
    }
}

impl Attention {
    /// Both, if what is typed can be waited for.
    pub fn new(heard: RawFd, pace: Pace) -> Option<Attention> {
        Some(Attention {
            heard,
            typed: pace.typed?,
            millis: pace.millis.min(MOST_MILLIS) as i32,
        })
    }

    /// Waits for the server, as long as its pace says, and no longer than until something is typed. Whether it may be
    /// read: it has spoken, and if it was heard just before, nothing is typed. If the system can't wait for both, a
    /// read waits by itself.
    pub fn may_read(&self, was_heard: bool) -> bool {
        let mut both = [asked(self.heard), asked(self.typed)];
        let count = poll(&mut both, self.millis);
        let [heard, typed] = both;
        let is_typed = typed.revents & (POLLIN | POLLHUP) != 0;
        if heard.revents != 0 {
            !(was_heard && is_typed)
        } else {
            count != 0 && !is_typed
        }
    }
}

/// How often a server is read before the program looks at what was typed meanwhile.
const READS_AT_ONCE: u32 = 64;

/// How many milliseconds to wait for a server that asks for the login: it was sent, and the answer is on its way.
const LOGIN_MILLIS: u64 = 2000;

/// The part of it for which a server is heard that asks once more, and so may have refused the login: one in so many.
const ASKED_AGAIN: u64 = 4;

/// With what the line begins in which a server greets the user.
const GREETING: &[u8] = b"1 ";

/// A stream that is quiet after so many reads, though more may have come. So a turn ends in time, whatever is sent. If
/// something is typed it is quiet at once, but for one read of what has come, and unless something was sent meanwhile:
/// then the answer is waited for.
///
/// Once it is not quiet for a while: if the last that came is the question for the login, and the user was not greeted
/// on this connection. Whatever comes meanwhile is kept, up to the greeting, so that a turn that ends then was not
/// answered, and the question is what was heard last. What was kept is read after that; but if it ends in the question
/// itself, as if the server refuses the login, it is read before the turn ends. If the server asks once more it is not
/// waited for so long.
#[derive(Drop)]
pub struct Paced<S: Link + Drop> {
    stream: S,
    /// What is typed while the server is heard, if it is waited for.
    attention: Option<Attention>,
    /// How often it was read since it was quiet.
    reads: u32,
    /// Something was sent since it was quiet.
    has_sent: bool,
    /// How often a quiet stream is read again if the server asks for the login.
    patience: u64,
    /// What has come, as lines, up to the greeting.
    lines: Lines,
    /// The user was greeted.
    greeted: bool,
    /// The server has asked for the login, which was not waited for.
    asked: bool,
    /// Whether it asks once more.
    questions: Questions,
    /// What came after the question, and is not yet read.
    kept: ArrayVec<u8, READ_PORTION>,
}

impl<S: Link + Drop> Paced<S> {
    /// The same stream, from which nothing was read in this turn.
    pub fn new(stream: S, attention: Option<Attention>, patience: u64) -> Paced<S> {
        Paced {
            stream,
            attention,
            reads: 0,
            has_sent: false,
            patience,
            lines: Lines::new(),
            greeted: false,
            asked: false,
            questions: Questions::new(),
            kept: ArrayVec::new(),
        }
    }

    /// Hears what has come before the greeting: whether the user is greeted, and whether the server asks for the login.
    fn hear(&mut self, bytes: &[u8]) {
        self.questions.hear(bytes);
        let mut rest = bytes;
        while !rest.is_empty() {
            let fed = self.lines.feed(rest);
            let used = fed.used;
            match &fed.line {
                Some(line) if line.bytes.starts_with(GREETING) => self.greeted = true,
                _ => {}
            }
            rest = &rest[used..];
        }
        self.asked = !self.greeted && self.lines.unfinished().ends_with(LOGIN_PROMPT);
    }

    /// Gives what was kept, or as much of it as there is room for.
    fn give_kept(&mut self, buf: &mut [u8]) -> usize
        ensures room { result ≤ length buf.new }
    {
        let count = buf.len().min(self.kept.len());
        buf[..count].copy_from_slice(&self.kept.as_slice()[..count]);
        let _given = self.kept.drain(..count);
        count
    }

    /// Reads once, and keeps what has come. The answer, if there is nothing more to wait for: the user is greeted, the
    /// connection is over, or there is no room for more.
    fn keep_more(&mut self, buf: &mut [u8]) -> Option<io::Result<usize>>
        ensures { IfSome result (λ answer. ReadsAtMost answer buf.new) }
    {
        let room = buf.len().min(self.kept.remaining_capacity());
        if room == 0 {
            return Some(Ok(self.give_kept(buf)));
        }
        match self.stream.receive(&mut buf[..room]) {
            Err(error) if is_quiet(&error) => None,
            Ok(count) if count > 0 => {
                self.hear(&buf[..count]);
                let _fits = self.kept.try_extend_from_slice(&buf[..count]);
                if self.greeted {
                    return Some(Ok(self.give_kept(buf)));
                }
                None
            }
            over => {
                if self.kept.is_empty() {
                    return Some(over);
                }
                Some(Ok(self.give_kept(buf)))
            }
        }
    }

    /// It is quiet: what comes next begins anew.
    fn pause(&mut self) {
        self.reads = 0;
        self.has_sent = false;
    }

    /// Reads what has come, or what comes before the server is quiet; not if something is typed, unless something was
    /// sent.
    fn receive_soon(&mut self, buf: &mut [u8]) -> io::Result<usize>
        ensures { ReadsAtMost result buf.new }
    {
        match &self.attention {
            Some(attention) if !self.has_sent && !attention.may_read(self.reads > 1) => {
                Err(io::Error::from(ErrorKind::WouldBlock))
            }
            _ => self.stream.receive(buf),
        }
    }

    /// Waits for the answer to a login. If the server asks once more instead, what it said before is the answer.
    fn receive_answer(&mut self, buf: &mut [u8]) -> io::Result<usize>
        ensures { ReadsAtMost result buf.new }
    {
        let mut left = self.patience / ASKED_AGAIN;
        for _ in 0..self.patience {
            match self.keep_more(buf) {
                Some(answer) => return answer,
                None => {}
            }
            if self.questions.is_again() {
                if left == 0 {
                    break;
                }
                left -= 1;
            }
        }
        let asks_again = self.asked && !self.kept.is_empty();
        self.asked = false;
        if !asks_again {
            return Err(io::Error::from(ErrorKind::WouldBlock));
        }
        Ok(self.give_kept(buf))
    }
}

impl<S: Link + Drop> Read for Paced<S> {
    fn read(&mut self, buf: &mut [u8]) -> io::Result<usize> {
        self.receive(buf)
    }
}

impl<S: Link + Drop> Write for Paced<S> {
    fn write(&mut self, buf: &[u8]) -> io::Result<usize> {
        self.transmit(buf)
    }

    fn flush(&mut self) -> io::Result<()> {
        self.stream.flush()
    }
}

impl<S: Link + Drop> Link for Paced<S> {
    fn receive(&mut self, buf: &mut [u8]) -> io::Result<usize> {
        if self.reads >= READS_AT_ONCE {
            self.pause();
            return Err(io::Error::from(ErrorKind::WouldBlock));
        }
        self.reads += 1;
        if !self.kept.is_empty() {
            return Ok(self.give_kept(buf));
        }
        let was_asked = self.asked;
        let answer = if was_asked {
            self.receive_answer(buf)
        } else {
            self.receive_soon(buf)
        };
        match &answer {
            Ok(count) if !was_asked && !self.greeted => self.hear(&buf[..*count]),
            Ok(_) => {}
            Err(_) => self.pause(),
        }
        answer
    }

    fn transmit(&mut self, buf: &[u8]) -> io::Result<usize> {
        self.has_sent = true;
        self.stream.transmit(buf)
    }
}

/// A server whose connections are paced.
#[derive(Drop)]
pub struct PacedServer<'a, N: Net<Stream = TcpStream>> {
    server: TcpDial<'a, N>,
    pace: Pace,
}

impl<'a, N: Net<Stream = TcpStream>> PacedServer<'a, N> {
    /// The same server, which is read at this pace.
    pub fn new(server: TcpDial<'a, N>, pace: Pace) -> PacedServer<'a, N> {
        PacedServer { server, pace }
    }
}

impl<N: Net<Stream = TcpStream>> Dial for PacedServer<'_, N> {
    type Stream = Paced<TcpStream>;

    fn dial(&mut self) -> Result<Paced<TcpStream>, ErrorKind> {
        match self.server.dial() {
            Ok(stream) => {
                let attention = Attention::new(stream.as_raw_fd(), self.pace);
                let patience = LOGIN_MILLIS / self.pace.millis.max(1);
                Ok(Paced::new(stream, attention, patience))
            }
            Err(why) => Err(why),
        }
    }
}

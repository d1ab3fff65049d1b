//! The questions of a server for the login. It refuses a login by its question, once more and without a line end, so
//! that no line tells it.

ghost use Rattle.std.specs.Prelude.{◌≡◌, []};
ghost use Rattle.fibs_lines.specs.Questions.{HasCome, IsAskedAgain, MoreComes, greets, is_question, nothing_came};
ghost use Rattle.fibs_lines.specs.QuestionsSteps.{after_byte, after_bytes, after_line, asks_now};

use crate::prompts::LOGIN_PROMPT;
use arrayvec::ArrayVec;

/// How many bytes of a line say whether it asks for the login or greets the user.
const LINE_ROOM: usize = 9;

/// How a server asks for the login on a connection. It hears all the bytes that come, in whatever pieces.
#[derive(Drop)]
pub struct Questions {
    /// The first bytes of the line that has not ended.
    line: ArrayVec<u8, LINE_ROOM>,
    /// Whether a line was the question.
    has_asked: bool,
    /// Whether a line has greeted the user.
    is_greeted: bool,
}

/// Whether a line is the question and nothing else.
fn is_question(line: &[u8]) -> bool
    ensures { result ≡ is_question line.now }
{
    line == LOGIN_PROMPT
}

/// Whether a line greets the user.
fn greets(line: &[u8]) -> bool
    ensures { result ≡ greets line.now }
{
    line.starts_with(b"1 ") || line.starts_with(b"login: 1 ")
}

impl Questions {
    /// A connection on which nothing was sent.
    pub fn new() -> Questions
        ensures value { result ≡ nothing_came }
        ensures come { HasCome result [] }
    {
        Questions {
            line: ArrayVec::new(),
            has_asked: false,
            is_greeted: false,
        }
    }

    /// A line has ended.
    fn end_line(&mut self)
        ensures { self.new ≡ after_line self.old }
    {
        self.has_asked = self.has_asked || is_question(self.line.as_slice());
        self.is_greeted = self.is_greeted || greets(self.line.as_slice());
        self.line.clear();
    }

    /// A byte of a line.
    fn hear_byte(&mut self, byte: u8)
        ensures { self.new ≡ after_byte self.old byte }
    {
        if byte == b'\n' {
            self.end_line();
        } else if byte != b'\r' && self.line.len() < LINE_ROOM {
            self.line.push(byte);
        }
    }

    /// The next bytes come, one after the other.
    fn hear_each(&mut self, bytes: &[u8])
        ensures { self.new ≡ after_bytes self.old bytes.now }
    {
        for byte in bytes {
            self.hear_byte(*byte);
        }
    }

    /// The next bytes come.
    pub fn hear(&mut self, bytes: &[u8])
        ensures { MoreComes self.old self.new bytes.now }
    {
        self.hear_each(bytes);
    }

    /// Whether it asks once more, by what is kept.
    fn asks_now(&self) -> bool
        ensures { result ≡ asks_now self.now }
    {
        self.has_asked && !self.is_greeted && is_question(self.line.as_slice())
    }

    /// Whether the server asks once more: the line that has not ended is the question, one before was it too, and none
    /// has greeted the user.
    pub fn is_again(&self) -> bool
        ensures { IsAskedAgain self.now result }
    {
        self.asks_now()
    }
}

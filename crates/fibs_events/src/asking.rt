//! A login that is refused, as an event. The server says so by its question for the login, once more and without a line
//! end, so that no line tells it.

ghost use Rattle.std.specs.Prelude.{◌≡◌, []};
ghost use Rattle.fibs_events.specs.Asking.{HasHeard, HearsMore, not_asked, refused_if, was_told};

use crate::event::Event;
use fibs_lines::Questions;

/// How a server asks for the login on a connection. It hears all the bytes that come, in whatever pieces.
#[derive(Drop)]
pub struct Asking {
    /// What the server has asked.
    questions: Questions,
    /// Whether it was told that the line which has not ended asks once more.
    is_told: bool,
}

/// The event that the server asks once more, if it was not told yet.
fn refusal<'a>(is_again: bool, was_told: bool) -> Option<Event<'a>>
    ensures { result ≡ refused_if is_again was_told }
{
    if is_again && !was_told {
        Some(Event::LoginRefused)
    } else {
        None
    }
}

impl Asking {
    /// A connection on which nothing was sent.
    pub fn new() -> Asking
        ensures value { result ≡ not_asked }
        ensures heard { HasHeard result [] }
    {
        Asking {
            questions: Questions::new(),
            is_told: false,
        }
    }

    /// Whether the line that has not ended was told of before, and these bytes end no line.
    fn was_told(&self, bytes: &[u8]) -> bool
        ensures { result ≡ was_told self.now bytes.now }
    {
        self.is_told && !bytes.contains(&b'\n')
    }

    /// What the next bytes say: that the login was refused, if they end in the question for it, a line before was that
    /// question too, and no line has greeted the user. It is told once of each question.
    pub fn hear<'a>(&mut self, bytes: &[u8]) -> Option<Event<'a>>
        ensures { HearsMore self.old self.new bytes.now result }
    {
        let was_told = self.was_told(bytes);
        self.questions.hear(bytes);
        let is_again = self.questions.is_again();
        self.is_told = was_told | is_again;
        refusal(is_again, was_told)
    }
}

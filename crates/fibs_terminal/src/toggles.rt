//! What the server plays for the user by itself, as it is now: the server has said it, and the user may have changed it
//! since by whatever word. The client knows only what the server has sent at the login.
ghost use Rattle.std.specs.Prelude.{◌≡◌, ◌||◌};
ghost use Rattle.fibs_terminal.specs.Toggles.{after_line, after_said, after_sent, after_settings, after_text, after_told, any_on, automove_in, greedy_in, is_on, new_toggle, new_toggles, one_fewer};

use fibs_messages::OwnInfo;
use fibs_messages::laws::flags_are_the_fields;

/// How many lines that the server has not answered are counted.
const MOST_COUNTED: u8 = 255;

/// A setting of the server.
#[derive(Clone, Copy, Debug, PartialEq, Eq)]
pub struct Toggle {
    /// Whether it was on when the server said so last.
    told: bool,
    /// How many lines that change it were sent, and are not answered.
    unanswered: u8,
}

impl Toggle {
    /// The server has said nothing.
    fn new() -> Toggle
        ensures { result ≡ new_toggle }
    {
        Toggle {
            told: false,
            unanswered: 0,
        }
    }

    /// Whether it is on after all that was sent.
    pub fn is_on(self) -> bool
        ensures { result ≡ is_on self }
    {
        if self.unanswered % 2 == 0 {
            self.told
        } else {
            !self.told
        }
    }

    /// A line that changes it was sent.
    fn after_sent(self) -> Toggle
        ensures { result ≡ after_sent self }
    {
        if self.unanswered < MOST_COUNTED {
            Toggle {
                told: self.told,
                unanswered: self.unanswered + 1,
            }
        } else {
            self
        }
    }

    /// The server says whether it is on.
    fn after_told(self, on: bool) -> Toggle
        ensures { result ≡ after_told on self }
    {
        Toggle {
            told: on,
            unanswered: one_fewer(self.unanswered),
        }
    }

    /// The server says whether it is on, or says something else.
    fn after_said(self, on: Option<bool>) -> Toggle
        ensures { result ≡ after_said on self }
    {
        match on {
            None => self,
            Some(on) => self.after_told(on),
        }
    }
}

/// One fewer, if there is one.
fn one_fewer(count: u8) -> u8
    ensures { result ≡ one_fewer count }
{
    if count == 0 { 0 } else { count - 1 }
}

/// What a text says of automove, if it does.
fn automove_in(said: &[u8]) -> Option<bool>
    ensures { result ≡ automove_in said.now }
{
    if said == b"** Forced moves will be done automatically.".as_slice() {
        Some(true)
    } else if said == b"** Forced moves won't be done automatically.".as_slice() {
        Some(false)
    } else {
        None
    }
}

/// What a text says of greedy, if it does.
fn greedy_in(said: &[u8]) -> Option<bool>
    ensures { result ≡ greedy_in said.now }
{
    if said == b"** Will use automatic greedy bearoffs.".as_slice() {
        Some(true)
    } else if said == b"** Won't use automatic greedy bearoffs.".as_slice() {
        Some(false)
    } else {
        None
    }
}

/// Automove and greedy.
#[derive(Clone, Copy, Debug, PartialEq, Eq)]
pub struct Toggles {
    /// Whether forced moves are made.
    pub automove: Toggle,
    /// Whether checkers are borne off.
    pub greedy: Toggle,
}

impl Toggles {
    /// The server has said nothing.
    pub fn new() -> Toggles
        ensures { result ≡ new_toggles }
    {
        Toggles {
            automove: Toggle::new(),
            greedy: Toggle::new(),
        }
    }

    /// The settings have come.
    pub fn hear_own_info(&mut self, info: &OwnInfo<'_>)
        ensures { self.new ≡ after_settings info.now.automove info.now.greedy self.old }
    {
        flags_are_the_fields();
        self.automove.told = info.automove;
        self.greedy.told = info.greedy;
    }

    /// A line was sent.
    pub fn hear_sent(&mut self, line: &[u8])
        ensures { self.new ≡ after_line line.now self.old }
    {
        if line == b"toggle automove".as_slice() {
            self.automove = self.automove.after_sent();
        }
        if line == b"toggle greedy".as_slice() {
            self.greedy = self.greedy.after_sent();
        }
    }

    /// A text has come, which has no spaces at its end.
    pub fn hear_text(&mut self, said: &[u8])
        ensures { self.new ≡ after_text said.now self.old }
    {
        self.automove = self.automove.after_said(automove_in(said));
        self.greedy = self.greedy.after_said(greedy_in(said));
    }

    /// Whether the server plays by one of them.
    pub fn any_on(&self) -> bool
        ensures { result ≡ any_on self.now }
    {
        self.automove.is_on() || self.greedy.is_on()
    }
}

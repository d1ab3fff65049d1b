//! A connection that has ended is opened again, if the user asks for it: when the next try comes. The program then
//! types `open` for him, and nothing else.
ghost use Rattle.std.specs.Prelude.{◌≡◌, ◌++◌, ◌||◌, ◌-◌, None, OnOk, Some, cond, false, true};
ghost use Rattle.std.specs.Duration.{as_nanos};
ghost use Rattle.fibs_position.specs.DecisionValue.{roll};
ghost use Rattle.fibs_session.specs.Calls.Standing.{StandsAfter};
ghost use Rattle.fibs_session.specs.History.Machine.{Talk, answer_now};
ghost use Rattle.fibs_terminal.specs.Again.{IsDue, SaysEnd, after_asked, after_failed, after_lost, after_opened, after_stay, end_words, goes_on, lacks_connection, next_wait, reconnect_words, stay_words, takes_leave, try_words};
ghost use Rattle.fibs_terminal.specs.Noted.{Reconnects};

use crate::screen::{Moment, Screen};
use crate::terminal::Terminal;
use fibs_fields::decimal::append_number;
use fibs_fields::split::split;
use fibs_position::Decision;
use fibs_session::{Client, Refusal};
use fibs_wording::environment::Page;
use fibs_wording::server_words::is_leaving_word;
use std::alloc::AllocError;
use std::cell::Cell;
use std::io::Write;
use std::time::{Clock, Duration};

/// A connection that lasted so many seconds was a good one: after it the waits begin anew.
const LASTED: u64 = 60;

/// What is said of the two words.
const ASKED: &[u8] = b"reconnect: a lost connection is opened again by itself; stay ends that.\n";

const ENDED: &[u8] = b"stay: a connection that is lost stays closed until you type open.\n";

/// Whether a connection that has ended is opened again, and when.
#[derive(Clone, Copy, Debug, PartialEq, Eq)]
pub struct Reconnecting {
    /// The user has asked for it.
    is_on: bool,
    /// A connection has ended, and is to be opened again.
    tries: bool,
    /// How many seconds pass before the next try, or passed before the last one; 0 if there was none.
    wait: u64,
    /// When the next try comes, once the terminal has let the user type.
    due: Option<Duration>,
    /// The server has greeted the user on this connection.
    is_greeted: bool,
    /// It had not on the connection before.
    has_failed: bool,
    /// The user takes leave of the server himself.
    leaves: bool,
}

/// How many seconds pass before the next try, after so many before the last one.
fn next_wait(seconds: u64) -> u64
    ensures { result ≡ next_wait seconds }
{
    if seconds < 30 {
        (2 * seconds).max(1)
    } else {
        60
    }
}

impl Reconnecting {
    /// It was not asked for.
    pub fn new() -> Reconnecting
        ensures off { result.is_on ≡ false }
        ensures tries { result.tries ≡ false }
        ensures due { result.due ≡ None }
    {
        Reconnecting {
            is_on: false,
            tries: false,
            wait: 0,
            due: None,
            is_greeted: false,
            has_failed: false,
            leaves: false,
        }
    }

    /// Whether a connection that ends now is opened again.
    fn goes_on(&self) -> bool
        ensures { result ≡ goes_on self.now }
    {
        self.is_on && !self.leaves && (self.is_greeted || !self.has_failed)
    }

    /// After how many seconds a connection is opened again; None if it is not.
    fn seconds(&self) -> Option<u64>
        ensures { result ≡ cond self.now.tries (Some self.now.wait) None }
    {
        if self.tries { Some(self.wait) } else { None }
    }

    /// The user asks for it, who may have no connection.
    pub fn ask(&mut self, is_offline: bool)
        ensures { self.new ≡ after_asked is_offline self.old }
    {
        self.is_on = true;
        self.tries = is_offline;
        self.wait = if is_offline { next_wait(0) } else { 0 };
        self.due = None;
        self.has_failed = false;
        self.leaves = self.leaves && !is_offline;
    }

    /// The user asks for it no longer.
    pub fn stay(&mut self)
        ensures { self.new ≡ after_stay self.old }
    {
        self.is_on = false;
        self.tries = false;
        self.wait = 0;
        self.due = None;
    }

    /// The server has greeted the user.
    pub fn hear_greeting(&mut self)
        ensures { self.new ≡ record self.old { is_greeted = true } }
    {
        self.is_greeted = true;
    }

    /// The user takes leave of the server by a line that was sent.
    pub fn hear_sent(&mut self, line: &[u8])
        ensures { self.new ≡ record self.old { leaves = self.old.leaves || takes_leave line.now } }
    {
        let word = split(line, b' ').0;
        if word == b"bye".as_slice() || word == b"quit".as_slice() || is_leaving_word(word) {
            self.leaves = true;
        }
    }

    /// Whether he has on this connection.
    pub fn has_left(&self) -> bool
        ensures { result ≡ self.now.leaves }
    {
        self.leaves
    }

    /// A connection was made.
    pub fn hear_opened(&mut self)
        ensures { self.new ≡ after_opened self.old }
    {
        self.tries = false;
        self.due = None;
        self.is_greeted = false;
        self.leaves = false;
    }

    /// A connection has ended, which may have lasted long.
    pub fn hear_lost(&mut self, lasted: bool)
        ensures { self.new ≡ after_lost lasted self.old }
    {
        let goes_on = self.goes_on();
        let before = if lasted { 0 } else { self.wait };
        self.tries = goes_on;
        self.wait = if goes_on { next_wait(before) } else { 0 };
        self.due = None;
        self.has_failed = goes_on && !self.is_greeted;
        self.is_greeted = false;
    }

    /// No connection could be made.
    pub fn hear_failed(&mut self)
        ensures { self.new ≡ after_failed self.old }
    {
        self.wait = if self.tries { next_wait(self.wait) } else { 0 };
        self.due = None;
    }

    /// A connection is opened now, as the user asks or since it is due.
    pub fn begin(&mut self)
        ensures { self.new ≡ record self.old { due = None } }
    {
        self.due = None;
    }

    /// The user may type now: from here on the wait is measured. When it ends is said there, if it is asked for.
    pub fn rest(&mut self, now: Duration, said: Option<&Cell<Option<Duration>>>)
        ensures { IsDue self.old now self.new }
    {
        if self.tries && self.due.is_none() {
            self.due = Some(now.saturating_add(Duration::from_secs(self.wait)));
        }
        if let Some(said) = said {
            said.set(self.due);
        }
    }
}

/// Says when a connection is opened again, between these words.
fn say_seconds(seconds: u64, before: &[u8], page: &mut Page<'_>) -> Result<(), AllocError>
    ensures { OnOk result (page.new.text.items ≡ page.old.text.items ++ try_words before.now seconds) }
{
    page.say(before)?;
    append_number(seconds, &mut page.text)?;
    page.say(b" s; stay leaves it closed, quit ends\n")
}

/// What is said at the end of a connection for whose opening nobody waits: whether the user has taken leave of the
/// server himself, and whether `fix` opens it again.
fn end_words(has_left: bool, fixes: bool) -> &'static [u8]
    ensures { result.now ≡ end_words has_left fixes }
{
    match (has_left, fixes) {
        (false, false) => b"lost: open connects again, quit ends\n",
        (false, true) => b"lost: connecting again\n",
        (true, false) => b"closed, as you asked: open connects again, quit ends\n",
        (true, true) => b"closed, as you asked: connecting again\n",
    }
}

/// Whether there is no connection.
pub(crate) fn is_offline(client: &Client) -> bool
    ensures { (t : Talk) → StandsAfter client.now t → result ≡ lacks_connection (answer_now t roll) }
{
    client.refusal(&Decision::Roll) == Some(Refusal::Offline)
}

impl<'a> Screen<'a> {
    /// Takes note that the connection has ended, and says what follows.
    pub(crate) fn say_lost(&mut self, moment: Moment) -> Result<(), AllocError>
        ensures says { OnOk result (SaysEnd self.old.memory.program.reconnecting self.old.page.text.items
            self.new.page.text.items) }
        ensures noted { Reconnects self.old.memory (as_nanos moment.passed - as_nanos self.old.memory.here.opened)
            self.new.memory }
    {
        let lasted = moment.passed.saturating_sub(self.memory.here.opened);
        let reconnecting = &mut self.memory.program.reconnecting;
        reconnecting.hear_lost(lasted.as_secs() >= LASTED);
        let seconds = reconnecting.seconds();
        let has_left = reconnecting.has_left();
        let fixes = self.memory.program.fixing.hear_lost(seconds.is_some());
        match seconds {
            None => self.page.say(end_words(has_left, fixes)),
            Some(seconds) => say_seconds(seconds, b"lost: connecting again in ", &mut self.page),
        }
    }

    /// Takes note that no connection could be made, and says what follows.
    pub(crate) fn say_next_try(&mut self) -> Result<(), AllocError>
        ensures { self.new.memory ≡ record self.old.memory {
          program = record self.old.memory.program {
            reconnecting = after_failed self.old.memory.program.reconnecting;
          };
        } }
    {
        let reconnecting = &mut self.memory.program.reconnecting;
        reconnecting.hear_failed();
        match reconnecting.seconds() {
            None => self.page.say(b"; open tries again\n"),
            Some(seconds) => {
                self.page.say(b"; again in ")?;
                append_number(seconds, &mut self.page.text)?;
                self.page.say(b" s, or stay\n")
            }
        }
    }

    /// From now on a connection that has ended is opened again.
    pub(crate) fn ask_reconnect(&mut self, client: &Client) -> Result<(), AllocError>
        ensures here { self.new.memory.here ≡ self.old.memory.here }
        ensures asks { (t : Talk) → StandsAfter client.now t → self.new.memory.program.reconnecting ≡
            after_asked (lacks_connection (answer_now t roll)) self.old.memory.program.reconnecting }
        ensures says { OnOk result ((t : Talk) → StandsAfter client.now t → self.new.page.text.items ≡
            self.old.page.text.items ++ reconnect_words (lacks_connection (answer_now t roll))) }
    {
        let reconnecting = &mut self.memory.program.reconnecting;
        reconnecting.ask(is_offline(client));
        match reconnecting.seconds() {
            None => self.page.say(ASKED),
            Some(seconds) => say_seconds(seconds, b"connecting in ", &mut self.page),
        }
    }

    /// It is not opened again any more.
    pub(crate) fn stay(&mut self) -> Result<(), AllocError>
        ensures here { self.new.memory.here ≡ self.old.memory.here }
        ensures stays { self.new.memory.program.reconnecting ≡ after_stay self.old.memory.program.reconnecting }
        ensures says { OnOk result (self.new.page.text.items ≡ self.old.page.text.items ++ stay_words) }
    {
        self.memory.program.reconnecting.stay();
        self.page.say(ENDED)
    }
}

impl<'a, W: Write + Drop, C: Clock + Drop> Terminal<'a, W, C> {
    /// Says there from now on, by the clock of the terminal, when `open` is to be typed for the user.
    pub fn reconnect_by(&mut self, due: &'a Cell<Option<Duration>>) {
        self.due = Some(due);
    }
}

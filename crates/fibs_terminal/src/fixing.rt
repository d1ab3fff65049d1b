//! `fix`: what the server plays by itself is turned off, and the user logs in again if the client takes no decision
//! before that. Lines are typed for him, one after another; no decision is among them.
ghost use Rattle.std.specs.Prelude.{◌≡◌, ◌++◌, ◌||◌, None, OnOk, false, true};
ghost use Rattle.fibs_position.specs.DecisionValue.{roll};
ghost use Rattle.fibs_session.specs.Calls.Standing.{StandsAfter};
ghost use Rattle.fibs_session.specs.History.Machine.{Talk, answer_now};
ghost use Rattle.fibs_advice.specs.Passing.{is_greeted};
ghost use Rattle.fibs_terminal.specs.Fixing.{after_asked, after_end, after_line, after_toggles, after_typed, first_off, fix_words, is_asked, line_bytes, next_line, plays_itself, toggles_line, turn_of};
ghost use Rattle.fibs_terminal.specs.Toggles.{any_on};
ghost use Rattle.fibs_terminal.specs.declared.fixing.FixStep.TheVariants as S;

use crate::screen::Screen;
use crate::terminal::Terminal;
use fibs_position::Decision;
use fibs_session::{Client, Refusal};
use fibs_wording::reasons::refusal_words;
use std::alloc::AllocError;
use std::cell::Cell;
use std::io::Write;
use std::time::Clock;

/// What is said of the word, if the server plays and the user has to log in again, if he has to do that alone, if he
/// has not to, and if there is nothing to do.
const FIXES: &[u8] = b"fix: turns it off, leaves and logs in again.\n";

const LOGS_IN: &[u8] = b"fix: leaves and logs in again.\n";

const TURNS_OFF: &[u8] = b"fix: turns it off.\n";

const NOTHING: &[u8] = b"fix: the server plays nothing for you.\n";

/// A line that is typed for the user.
#[derive(Clone, Copy, Debug, PartialEq, Eq)]
pub enum FixLine {
    /// `toggle automove`
    Automove,
    /// `toggle greedy`
    Greedy,
    /// `send toggle automove`
    SendAutomove,
    /// `send toggle greedy`
    SendGreedy,
    /// `bye`
    Bye,
    /// `open`
    Open,
}

impl FixLine {
    /// Its bytes, with its end.
    pub fn bytes(self) -> &'static [u8]
        ensures { result.now ≡ line_bytes self }
    {
        match self {
            FixLine::Automove => b"toggle automove\n",
            FixLine::Greedy => b"toggle greedy\n",
            FixLine::SendAutomove => b"send toggle automove\n",
            FixLine::SendGreedy => b"send toggle greedy\n",
            FixLine::Bye => b"bye\n",
            FixLine::Open => b"open\n",
        }
    }
}

/// How far it is.
#[derive(Clone, Copy, Debug, PartialEq, Eq)]
pub enum FixStep {
    /// It was not asked for, or is done.
    Nothing,
    /// What the server plays is turned off.
    Toggles,
    /// `bye` is typed: the connection is to end.
    Leaves,
    /// It was only answered: the user was asked whether he leaves his match.
    Asked,
    /// It has ended: it is to be opened again.
    Opens,
}

/// How a setting is turned off.
#[derive(Clone, Copy, Debug, PartialEq, Eq)]
pub enum TurnOff {
    /// It is off.
    IsOff,
    /// By `toggle`, which the client takes.
    Typed,
    /// By `send toggle`: the client takes it for off.
    AsItIs,
}

impl TurnOff {
    /// Of a setting that may be on, and whose `toggle` the client takes or not.
    pub fn of(is_on: bool, is_taken: bool) -> TurnOff
        ensures { result ≡ turn_of is_on is_taken }
    {
        match (is_on, is_taken) {
            (false, _) => TurnOff::IsOff,
            (true, true) => TurnOff::Typed,
            (true, false) => TurnOff::AsItIs,
        }
    }
}

/// What is turned off first, if anything is on.
fn first_off(automove: TurnOff, greedy: TurnOff) -> Option<FixLine>
    ensures { result ≡ first_off automove greedy }
{
    match (automove, greedy) {
        (TurnOff::Typed, _) => Some(FixLine::Automove),
        (TurnOff::AsItIs, _) => Some(FixLine::SendAutomove),
        (TurnOff::IsOff, TurnOff::Typed) => Some(FixLine::Greedy),
        (TurnOff::IsOff, TurnOff::AsItIs) => Some(FixLine::SendGreedy),
        (TurnOff::IsOff, TurnOff::IsOff) => None,
    }
}

/// The line that is typed as long as something may be on.
fn toggles_line(first: Option<FixLine>, plays: bool) -> Option<FixLine>
    ensures { result ≡ toggles_line first plays }
{
    match first {
        Some(line) => Some(line),
        None => { if plays { Some(FixLine::Bye) } else { None } }
    }
}

/// Where it is after that line.
fn after_toggles(first: Option<FixLine>, plays: bool) -> FixStep
    ensures { result ≡ after_toggles first plays }
{
    match first {
        Some(_) => FixStep::Toggles,
        None => {
            if plays {
                FixStep::Leaves
            } else {
                FixStep::Nothing
            }
        }
    }
}

impl FixStep {
    /// The line that is typed now, by how both settings are turned off, and whether the client takes no decision before
    /// the next login.
    fn next_line(self, automove: TurnOff, greedy: TurnOff, plays: bool) -> Option<FixLine>
        ensures { result ≡ next_line self automove greedy plays }
    {
        match self {
            FixStep::Toggles => toggles_line(first_off(automove, greedy), plays),
            FixStep::Opens => Some(FixLine::Open),
            FixStep::Nothing | FixStep::Leaves | FixStep::Asked => None,
        }
    }

    /// Where it is after that line.
    fn after_line(self, automove: TurnOff, greedy: TurnOff, plays: bool) -> FixStep
        ensures { result ≡ after_line self automove greedy plays }
    {
        match self {
            FixStep::Toggles => after_toggles(first_off(automove, greedy), plays),
            FixStep::Opens => FixStep::Nothing,
            FixStep::Nothing | FixStep::Leaves | FixStep::Asked => self,
        }
    }

    /// Where it is after the end of a connection, which may be opened again otherwise.
    fn after_end(self, otherwise: bool) -> FixStep
        ensures { result ≡ after_end self otherwise }
    {
        match (self, otherwise) {
            (FixStep::Leaves | FixStep::Asked, false) => FixStep::Opens,
            _ => FixStep::Nothing,
        }
    }

    /// Where it is after a line of the user, by whether that asks for `bye`, and whether he was only asked about it.
    fn after_typed(self, is_bye: bool, asks: bool) -> FixStep
        ensures { result ≡ after_typed self is_bye asks }
    {
        match (self, is_bye, asks) {
            (FixStep::Leaves, true, true) => FixStep::Asked,
            (FixStep::Asked, true, false) => FixStep::Leaves,
            (FixStep::Asked, false, _) => FixStep::Nothing,
            _ => self,
        }
    }
}

/// What `fix` does.
#[derive(Clone, Copy, Debug, PartialEq, Eq)]
pub struct Fixing {
    /// How far it is.
    step: FixStep,
    /// The line that is to be typed.
    line: Option<FixLine>,
}

impl Fixing {
    /// It was not asked for.
    pub fn new() -> Fixing
        ensures step { result.step ≡ S.Nothing }
        ensures line { result.line ≡ None }
    {
        Fixing {
            step: FixStep::Nothing,
            line: None,
        }
    }

    /// The user asks for it.
    pub fn begin(&mut self)
        ensures { self.new ≡ record self.old { step = S.Toggles } }
    {
        self.step = FixStep::Toggles;
    }

    /// The connection has ended, and may be opened again otherwise. Whether this opens it again.
    pub fn hear_lost(&mut self, otherwise: bool) -> bool
        ensures step { self.new.step ≡ after_end self.old.step otherwise }
        ensures line { self.new.line ≡ None }
    {
        self.step = self.step.after_end(otherwise);
        self.line = None;
        self.step == FixStep::Opens
    }

    /// The user has typed a line; whether it asks for `bye`, and whether he was only asked if he leaves his match.
    #[tactic(auto, using(crate::proofs::FixingLemmas::asked_by_bye, crate::proofs::FixingLemmas::asked_if_asked))]
    pub fn hear_line(&mut self, is_bye: bool, asks: bool)
        ensures step { self.new ≡ record self.old { step = after_typed self.old.step is_bye asks } }
        ensures over { is_bye ≡ false → is_asked self.new.step ≡ false }
        ensures goes { asks ≡ false → is_asked self.new.step ≡ false }
    {
        self.step = self.step.after_typed(is_bye, asks);
    }

    /// The user may type: which line is typed for him.
    pub fn rest(&mut self, automove: TurnOff, greedy: TurnOff, plays: bool)
        ensures line { self.new.line ≡ next_line self.old.step automove greedy plays }
        ensures step { self.new.step ≡ after_line self.old.step automove greedy plays }
    {
        self.line = self.step.next_line(automove, greedy, plays);
        self.step = self.step.after_line(automove, greedy, plays);
    }

    /// Says here which line is to be typed, if one is.
    pub fn type_by(&self, typed: Option<&Cell<Option<FixLine>>>) {
        if let (Some(typed), Some(line)) = (typed, self.line) {
            typed.set(Some(line));
        }
    }
}

/// Whether the client would take no decision before the next login, since at this one the server played for the user:
/// why it would refuse to roll says so.
pub(crate) fn plays_itself(why: Option<Refusal>) -> bool
    ensures { result ≡ plays_itself why }
{
    why == Some(Refusal::ServerPlays)
}

impl<'a> Screen<'a> {
    /// Answers `fix`: lines are typed for the user, if the server plays for him, by whichever word he has had it do so,
    /// or did at the login; else what is advised follows.
    pub(crate) fn fix(&mut self, client: &Client) -> Result<(), AllocError>
        ensures looking { self.new.memory.here.looking ≡ self.old.memory.here.looking }
        ensures begins { any_on self.old.memory.here.toggles ≡ true → self.new.memory.program.fixing.step ≡ S.Toggles }
        ensures fixing { (t : Talk) → StandsAfter client.now t → self.new.memory.program.fixing ≡
            after_asked (answer_now t roll) self.old.memory.here.toggles self.old.memory.program.fixing }
        ensures says { OnOk result ((t : Talk) → StandsAfter client.now t →
            is_greeted (answer_now t roll) || any_on self.old.memory.here.toggles ≡ true →
            self.new.page.text.items ≡ self.old.page.text.items ++
            fix_words (plays_itself (answer_now t roll)) (any_on self.old.memory.here.toggles)) }
    {
        let why = client.refusal(&Decision::Roll);
        let is_on = self.memory.here.toggles.any_on();
        if plays_itself(why) {
            self.memory.program.fixing.begin();
            return self.page.say(if is_on { FIXES } else { LOGS_IN });
        }
        if is_on {
            self.memory.program.fixing.begin();
            return self.page.say(TURNS_OFF);
        }
        match why {
            Some(why) if why == Refusal::Offline || why == Refusal::NotReady => {
                self.page.say_all(&[refusal_words(why), b"\n"])
            }
            _ => {
                self.memory.here.advising.inquired = true;
                self.page.say(NOTHING)
            }
        }
    }
}

impl<'a, W: Write + Drop, C: Clock + Drop> Terminal<'a, W, C> {
    /// Says there from now on which line is to be typed for the user, who has typed `fix`.
    pub fn fix_by(&mut self, typed: &'a Cell<Option<FixLine>>) {
        self.fixes = Some(typed);
    }
}

//! Who begins a match in which the server would play for him, or the client take no decision since it did at the login,
//! is asked first: the first line that does on a connection is only answered, any other one goes on.
ghost use Rattle.std.specs.Prelude.{◌≡◌, ◌||◌, IfOk, OnOk};
ghost use Rattle.fibs_commands.specs.PlainOf.{plain_value};
ghost use Rattle.fibs_connect.specs.Wishes.{wish_value};
ghost use Rattle.fibs_session.specs.Calls.Standing.{StandsAfter};
ghost use Rattle.fibs_session.specs.History.Machine.{Talk};
ghost use Rattle.fibs_session.specs.TypedOf.{typed_value};
ghost use Rattle.fibs_session.specs.Typing.{typed_now};
ghost use Rattle.fibs_terminal.specs.Asking.{AsksInBounds, SendsUntaken, ShownGoesOn};
ghost use Rattle.fibs_terminal.specs.Beginning.{AsksFirst, KnownGoesOnOrWarns, begins_in, is_asked_now, is_beginning, plays_for};
ghost use Rattle.fibs_terminal.specs.Leaving.{QuitsOrAsks, TakesLeave, is_match_on};
ghost use Rattle.fibs_terminal.specs.Sending.{SendsOnWord};
ghost use Rattle.fibs_terminal.specs.Toggles.{any_on};
ghost use Rattle.fibs_terminal.specs.Trying.{GoesOn, ShowsTry, TriesOrKeeps};
ghost use Rattle.fibs_terminal.specs.TypedMoves.{KeepsTyped};

use crate::memory::Connection;
use crate::own_rows::say_rows;
use crate::screen::Screen;
use fibs_connect::typed_line::TypedLine;
use fibs_connect::wish::Wish;
use fibs_session::typed::typing::{Typed, read_typed};
use fibs_session::{Client, Directory, Plain};
use std::alloc::AllocError;

/// What is asked, if the server plays now, and if it did at the login alone.
const ASKED: &[u8] = b"The server plays for you: fix turns it off; the same line again goes out.\n";

const ASKED_OFF: &[u8] = b"You logged in with automove or greedy on: fix logs in again.\n\
The same line again goes out.\n";

/// Whether a command begins a match.
fn is_beginning(plain: &Plain<'_>) -> bool
    ensures { result ≡ is_beginning (plain_value plain.now) }
{
    match plain {
        Plain::Invite(_, None) | Plain::Invite(_, Some(_)) => true,
        Plain::Join(None) | Plain::Join(Some(_)) => true,
        Plain::Board | Plain::Who | Plain::ToggleReady | Plain::Bye => false,
        Plain::AutomoveOff | Plain::GreedyOff => false,
        Plain::Say(_) | Plain::Tell(_, _) | Plain::Shout(_) | Plain::Whisper(_) => false,
        Plain::Kibitz(_) | Plain::Message(_, _) => false,
    }
}

/// Whether what was typed does.
fn begins_in(typed: &Typed<'_>) -> bool
    ensures { result ≡ begins_in (typed_value typed.now) }
{
    match typed {
        Typed::Plain(plain) => is_beginning(plain),
        Typed::Decision(_) | Typed::Order | Typed::Withdrawal | Typed::Unknown => false,
    }
}

/// Whether a line does, as the client reads it.
fn begins(client: &Client, line: &[u8]) -> bool
    ensures { (t : Talk) → StandsAfter client.now t → result ≡ begins_in (typed_now t line.now) }
{
    let typed = read_typed(client, line);
    begins_in(&typed)
}

/// Whether the user is asked now.
fn is_asked_now(plays: bool, before: bool, wish: Wish, begins: bool) -> bool
    ensures { result ≡ is_asked_now plays before wish begins }
{
    match wish {
        Wish::Say => plays && !before && begins,
        _ => false,
    }
}

impl Connection {
    /// Whether the server plays for the user, or did at the login.
    fn plays_for(&self) -> bool
        ensures { result ≡ plays_for self.now }
    {
        self.greeting.plays_itself() || self.toggles.any_on()
    }
}

impl<'a> Screen<'a> {
    /// What a line asks for. The first one on a connection that begins a match is only answered, if the server plays
    /// for the user.
    pub(crate) fn wish(
        &mut self,
        client: &Client,
        directory: &Directory,
        line: &mut TypedLine,
    ) -> Result<Wish, AllocError>
        ensures asks { IfOk result (λ wish. AsksInBounds line.old.items (wish_value wish line.new.items)) }
        ensures warned { IfOk result (λ wish. AsksFirst client.now (plays_for self.old.memory.here)
            self.old.memory.here.is_warned self.new.memory.here.is_warned line.new.items wish) }
        ensures leave { IfOk result (λ wish. TakesLeave (is_match_on self.old.memory) self.old.memory.here.table.leave
            self.new.memory.here.table.leave line.new.items wish) }
        ensures quit { QuitsOrAsks client.now self.new.memory.here.table.leave line.old.items result }
        ensures known { KnownGoesOnOrWarns client.now self.old.page.settings.numbers
            self.old.memory.here.situation.standing self.new.memory.here.table.leave
            self.old.memory.here.is_warned self.new.memory.here.is_warned line.old.items line.new.items result }
        ensures shows { ShownGoesOn client.now self.old.page.settings.numbers self.old.memory.here.situation.standing
            line.old.items line.new.items result }
        ensures word { SendsOnWord client.now self.old.memory.here.situation.standing line.old.items line.new.items
            result }
        ensures sent { SendsUntaken client.now line.new.items result }
        ensures tried { OnOk result (TriesOrKeeps client.now self.old.page.settings self.old.memory.here.looking.trial
            self.new.memory.here.looking.trial self.old.page.text.items self.new.page.text.items) }
        ensures went { GoesOn client.now self.old.memory.here.looking.trial line.old.items line.new.items result }
        ensures shown { ShowsTry client.now self.old.page.settings line.old.items self.new.memory.here.looking.trial
            self.old.page.text.items self.new.page.text.items result }
        ensures typed { KeepsTyped client.now self.old.page.settings.numbers line.old.items
            self.new.memory.here.looking.trial result }
    {
        let plays = self.memory.here.plays_for();
        let before = self.memory.here.is_warned;
        let wish = self.wish_leaving(client, directory, line)?;
        let begins = begins(client, line.as_slice());
        if is_asked_now(plays, before, wish, begins) {
            self.memory.here.is_warned = true;
            let asked = if self.memory.here.toggles.any_on() {
                ASKED
            } else {
                ASKED_OFF
            };
            say_rows(asked, &mut self.page)?;
            return Ok(Wish::Answered);
        }
        self.memory.here.is_warned = before;
        Ok(wish)
    }
}

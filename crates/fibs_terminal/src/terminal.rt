//! A terminal: what happens is reported to it, and a player types at it.

ghost use Rattle.std.specs.Prelude.{◌≡◌, ◌++◌, OnOk, IfOk, List, ℕ};
ghost use Rattle.std.specs.Io.KnownBytes.{Appends};
ghost use Rattle.fibs_connect.specs.Wishes.{wish_value};
ghost use Rattle.fibs_session.specs.Calls.Standing.{StandsAfter};
ghost use Rattle.fibs_session.specs.History.Machine.{Talk};
ghost use Rattle.fibs_terminal.specs.Above.{given_back};
ghost use Rattle.fibs_terminal.specs.Asking.{AsksInBounds, SendsUntaken, ShownGoesOn};
ghost use Rattle.fibs_terminal.specs.Beginning.{AsksFirst, KnownGoesOnOrWarns, plays_for};
ghost use Rattle.fibs_terminal.specs.Fixing.{before_typing};
ghost use Rattle.fibs_terminal.specs.Grown.{Grown};
ghost use Rattle.fibs_terminal.specs.Leaving.{QuitsOrAsks, TakesLeave, is_match_on};
ghost use Rattle.fibs_terminal.specs.Resting.{ShowsAdvice};
ghost use Rattle.fibs_terminal.specs.Sending.{SendsOnWord};
ghost use Rattle.fibs_terminal.specs.Trying.{GoesOn, ShowsTried, WritesTry};
ghost use Rattle.fibs_terminal.specs.TypedMoves.{KeepsTyped};

use crate::fixing::FixLine;
use crate::screen::{Moment, Screen};
use fibs_connect::fault::FrontFault;
use fibs_connect::front::Front;
use fibs_connect::said::Said;
use fibs_connect::typed_line::TypedLine;
use fibs_connect::wish::Wish;
use fibs_connect::words::Words;
use fibs_engine::writing::write_bytes;
use fibs_session::{Client, Directory};
use fibs_wording::environment::Settings;
use std::alloc::Global;
use std::cell::Cell;
use std::io::Write;
use std::time::{Clock, Duration};

/// A front end for a person: it draws boards, shows the rest in words, and says once what may be typed.
#[derive(Drop)]
pub struct Terminal<'a, W: Write + Drop, C: Clock + Drop> {
    pub(crate) screen: Screen<'a>,
    pub(crate) clock: C,
    pub(crate) out: W,
    /// Where it is said when a connection is opened again.
    pub(crate) due: Option<&'a Cell<Option<Duration>>>,
    /// Where it says that `board` is to be sent for the user.
    asks_board: Option<&'a Cell<bool>>,
    /// Where it says which line of `fix` is to be typed for him.
    pub(crate) fixes: Option<&'a Cell<Option<FixLine>>>,
}

impl<'a, W: Write + Drop, C: Clock + Drop> Terminal<'a, W, C> {
    /// A terminal on which nothing was shown. It takes memory for each text, and asks the clock for the time of talk.
    pub fn new(alloc: Global, out: W, clock: C, settings: Settings<'a>) -> Terminal<'a, W, C>
        ensures { W.contents result.out ≡ W.contents out }
    {
        Terminal {
            screen: Screen::new(alloc, settings),
            clock,
            out,
            due: None,
            asks_board: None,
            fixes: None,
        }
    }

    /// From now on it says here, before the user types, that `board` is to be sent: once, if the user has asked to
    /// watch a game, and the server has said that he does, and no board has come.
    pub fn ask_for_boards(&mut self, asks_board: &'a Cell<bool>) {
        self.asks_board = Some(asks_board);
    }

    /// Has all rows of the terminal scroll again, and puts back the title that the window had before.
    ///
    /// Errors: `Output` if a write fails.
    pub fn leave(&mut self) -> Result<(), FrontFault>
        ensures back { OnOk result ((title : List ℕ) × Appends (W.contents self.old.out) (W.contents self.new.out)
            (given_back self.old.screen.memory.program.above ++ title)) }
        ensures held { OnOk result (self.new.screen.memory.program.above.held ≡ 0) }
    {
        write_text(self.screen.memory.program.above.give_back(), &mut self.out)?;
        write_text(self.screen.memory.program.title.put_back(), &mut self.out)?;
        self.out.flush().map_err(|_| FrontFault::Output)
    }

    /// Whether it stopped since memory ran out. Its fault alone does not say so.
    pub fn is_out_of_memory(&self) -> bool {
        self.screen.ran_out
    }
}

/// What a clock says now.
fn moment_of<C: Clock>(clock: &C) -> Moment {
    Moment {
        time: clock.since_1970().ok().map(|time| time.as_secs()),
        passed: clock.monotonic().unwrap_or(Duration::from_secs(0)),
    }
}

/// Writes a text.
fn write_text<W: Write>(text: &[u8], out: &mut W) -> Result<(), FrontFault>
    ensures bytes { OnOk result (Appends (W.contents out.old) (W.contents out.new) text.now) }
    ensures grown { OnOk result (Grown (W.contents out.old) (W.contents out.new)) }
{
    write_bytes(text, out)?;
    Ok(())
}

impl<W: Write + Drop, C: Clock + Drop> Front for Terminal<'_, W, C> {
    ghost use Rattle.fibs_terminal.specs.Grown.{Grown, grown_nothing, grown_joined};

    ghost tells = { λ a told b. Grown (W.contents a.out) (W.contents b.out) };

    fn tell(&mut self, said: &Said<'_>) -> Result<(), FrontFault> {
        self.screen.page.text.clear();
        let moment = moment_of(&self.clock);
        if self.screen.hear(said, moment).is_err() {
            self.screen.ran_out = true;
            return Err(FrontFault::Output);
        }
        write_text(self.screen.page.text.as_slice(), &mut self.out)
    }

    fn flush(&mut self) -> Result<(), FrontFault> {
        self.out.flush().map_err(|_| FrontFault::Output)
    }

    ghost joins = { record {
      nothing = λ a. grown_nothing (W.contents a.out);
      joined = λ a b c xs ys p q. grown_joined (W.contents a.out) (W.contents b.out) (W.contents c.out) p q;
    } };
}

impl<W: Write + Drop, C: Clock + Drop> Words for Terminal<'_, W, C> {
    ghost asks = { λ _ line wish. AsksInBounds line wish };

    fn rest(&mut self, client: &Client, directory: &Directory) -> Result<(), FrontFault>
        ensures told { OnOk result (Grown (W.contents self.old.out) (W.contents self.new.out)) }
        // It shows the board after the move that was sent, if none has confirmed it, and names only what may be advised
        // in the state of the conversation, by the history.
        ensures advice { OnOk result (ShowsAdvice client.now self.old.screen.page.settings
            self.old.screen.memory (W.contents self.old.out) (W.contents self.new.out)) }
        // The line of `fix` that is typed next turns off what is on, whoever has turned it on.
        ensures fixes { OnOk result ((t : Talk) → StandsAfter client.now t → self.new.screen.memory.program.fixing ≡
            before_typing t self.old.screen.memory.here.toggles self.old.screen.memory.program.fixing) }
    {
        self.screen.page.text.clear();
        let moment = moment_of(&self.clock);
        match self.screen.rest(client, directory, moment) {
            Ok(()) => {
                let reconnecting = &mut self.screen.memory.program.reconnecting;
                reconnecting.rest(moment.passed, self.due);
                self.screen.memory.here.watching.ask_by(self.asks_board);
                self.screen.memory.program.fixing.type_by(self.fixes);
                write_text(self.screen.page.text.as_slice(), &mut self.out)?;
                self.out.flush().map_err(|_| FrontFault::Output)
            }
            Err(_) => {
                self.screen.ran_out = true;
                Err(FrontFault::Output)
            }
        }
    }

    fn wish(
        &mut self,
        client: &Client,
        directory: &Directory,
        line: &mut TypedLine,
    ) -> Result<Wish, FrontFault>
        ensures told { OnOk result (Grown (W.contents self.old.out) (W.contents self.new.out)) }
        ensures asks { IfOk result (λ wish. AsksInBounds line.old.items (wish_value wish line.new.items)) }
        // A command is taken as it is meant by the numbers that the user reads, and never respelled if it is read so: a
        // decision, an order, a line to people. The client answers it, unless the server has asked for that decision.
        // A `bye` in a match is answered by the terminal, if the line before was another one; so is the first line that
        // begins a match, if the server plays for the user.
        ensures known { KnownGoesOnOrWarns client.now self.old.screen.page.settings.numbers
            self.old.screen.memory.here.situation.standing self.new.screen.memory.here.table.leave
            self.old.screen.memory.here.is_warned self.new.screen.memory.here.is_warned
            line.old.items line.new.items result }
        // If the server plays for the user, he begins no match unless he was asked on this connection: once.
        ensures warned { IfOk result (λ wish. AsksFirst client.now (plays_for self.old.screen.memory.here)
            self.old.screen.memory.here.is_warned self.new.screen.memory.here.is_warned line.new.items wish) }
        // A line that shows a move in any other spelling is taken as the play that is meant by the steps which it shows
        // by the numbers that the user reads: what goes on is a line in which the client reads that play by the
        // server's direction.
        ensures shows { ShownGoesOn client.now self.old.screen.page.settings.numbers
            self.old.screen.memory.here.situation.standing line.old.items line.new.items result }
        // In a match neither the program ends nor `bye` goes out, unless the line before was the same word and has
        // asked about it. Any other line forgets what was asked, and the second one in a row is not asked about again.
        ensures leave { IfOk result (λ wish. TakesLeave (is_match_on self.old.screen.memory)
            self.old.screen.memory.here.table.leave self.new.screen.memory.here.table.leave line.new.items wish) }
        // The line `quit` ends the program, or has asked.
        ensures quit { QuitsOrAsks client.now self.new.screen.memory.here.table.leave line.old.items result }
        // Without the word `send` a decision goes past the client only if a text or a board of the server asks for it,
        // and the rules allow it.
        ensures word { SendsOnWord client.now self.old.screen.memory.here.situation.standing
            line.old.items line.new.items result }
        // What goes to the server as it is, the client would not take.
        ensures sent { SendsUntaken client.now line.new.items result }
        // A move that is tried from now on is one that the client would take, and its board is shown.
        ensures tried { OnOk result (ShowsTried client.now self.old.screen.page.settings
            self.old.screen.memory.here.looking.trial self.new.screen.memory.here.looking.trial
            (W.contents self.old.out) (W.contents self.new.out)) }
        // What is kept after `try` is the move that was typed, read by the numbers that the user reads.
        ensures typed { KeepsTyped client.now self.old.screen.page.settings.numbers line.old.items
            self.new.screen.memory.here.looking.trial result }
        // After `go` the client answers the command of the move that was tried, if that was on the board that is shown.
        ensures went { GoesOn client.now self.old.screen.memory.here.looking.trial line.old.items line.new.items
            result }
        // After `try` no move is kept but the one that was shown, and nothing is sent.
        ensures shown { WritesTry client.now self.old.screen.page.settings line.old.items
            self.new.screen.memory.here.looking.trial (W.contents self.old.out) (W.contents self.new.out) result }
    {
        self.screen.page.text.clear();
        match self.screen.wish(client, directory, line) {
            Ok(wish) => {
                write_text(self.screen.page.text.as_slice(), &mut self.out)?;
                Ok(wish)
            }
            Err(_) => {
                self.screen.ran_out = true;
                Err(FrontFault::Output)
            }
        }
    }
}

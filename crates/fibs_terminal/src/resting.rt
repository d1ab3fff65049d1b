//! What a terminal says before it lets the user type.
ghost use Rattle.std.specs.Prelude.{◌≡◌, ◌≢◌, ◌/◌, IsSome, nat_le, true, false, OnOk, length};
ghost use Rattle.std.specs.Duration.{as_nanos};
ghost use Rattle.fibs_messages.specs.Directory.{entry_of};
ghost use Rattle.fibs_advice.specs.Rows.{is_asked_for};
ghost use Rattle.fibs_session.specs.Calls.Standing.{StandsAfter};
ghost use Rattle.fibs_session.specs.History.Machine.{Talk};
ghost use Rattle.fibs_terminal.specs.Boxes.{IsQuiet};
ghost use Rattle.fibs_terminal.specs.Fixing.{before_typing};
ghost use Rattle.fibs_terminal.specs.Resting.{IsAbsent, IsJoinRow, IsSettled, Rests, SaysRow, has_told};

use crate::fixing::{TurnOff, plays_itself};
use crate::own_rows::say_rows;
use crate::rematch::{note_said, say_rematch};
use crate::screen::{Moment, Screen};
use fibs_advice::advised::{Advice, Aside, advised};
use fibs_advice::row::Row;
use fibs_advice::saying::{append_advice, append_join};
use fibs_advice::situation::Situation;
use fibs_position::Decision;
use fibs_session::{Client, Directory};
use fibs_wording::environment::Page;
use std::alloc::{AllocError, Global};
use std::time::Duration;

/// How many seconds the answer to a login may take.
const LOGIN_SECONDS: u64 = 2;

/// What was advised, and whether it is said again.
#[derive(Drop)]
pub struct Advising {
    /// Whether to say what is advised even if it is what was said last: a board has come, or a decision or a line as it
    /// is was sent.
    pub says_again: bool,
    /// Whether the user has asked what is advised: by `help`, by a word that was refused, or by `board`, which has
    /// come.
    pub inquired: bool,
    /// Whether words have told since then what the board asks of the user, who wants to hear nothing twice.
    pub is_told: bool,
    /// What was advised last.
    said_last: Vec<u8>,
}

impl Advising {
    /// Nothing was advised.
    pub fn new(alloc: Global) -> Advising
        ensures { IsQuiet result }
    {
        Advising {
            says_again: false,
            inquired: false,
            is_told: false,
            said_last: Vec::new(alloc),
        }
    }

    /// How an invitation is accepted was said in other words: it is not said again.
    pub fn settle_invited(&mut self, inviter: &[u8]) -> Result<(), AllocError>
        ensures said { OnOk result (IsJoinRow inviter.now self.new.said_last.items) }
        ensures kept { self.new ≡ record self.old { said_last = self.new.said_last } }
    {
        self.said_last.clear();
        self.said_last
            .extend_from_slice(Row::Invited.words_before())?;
        append_join(inviter, &mut self.said_last)?;
        self.said_last.extend_from_slice(b"\n")
    }

    /// Says what is advised, unless it was said last and is not owed, or words have just told the same; what is said
    /// only if the user asks, only then.
    fn say(
        &mut self,
        advice: &Advice,
        situation: &Situation,
        page: &mut Page<'_>,
    ) -> Result<(), AllocError>
        ensures row { OnOk result (SaysRow page.old.settings situation.now self.old advice.now
            page.old.text.items page.new.text.items) }
        ensures settled { OnOk result (IsSettled page.old.settings situation.now advice.now self.new) }
    {
        let alloc = page.alloc;
        let mut row = Vec::new(alloc);
        let opponent = situation.opponent.name.as_slice();
        let inviter = situation.inviter.name.as_slice();
        append_advice(advice, page.settings.numbers, opponent, inviter, &mut row)?;
        if self.says(advice, row.as_slice()) {
            say_rows(row.as_slice(), page)?;
        }
        self.says_again = false;
        self.inquired = false;
        self.is_told = false;
        self.said_last = row;
        Ok(())
    }

    /// Whether words have just told what a row says: what the board asks of the user.
    fn has_told(&self, row: Row) -> bool
        ensures { result ≡ has_told self.now row }
    {
        self.is_told && row == Row::Offers
    }

    /// Whether this row of an advice is said now.
    fn says(&self, advice: &Advice, row: &[u8]) -> bool
        ensures asked { self.now.inquired ≡ true → result ≡ true }
        ensures unasked { self.now.inquired ≡ false → is_asked_for advice.now.row ≡ true → result ≡ false }
        ensures told { self.now.inquired ≡ false → has_told self.now advice.now.row ≡ true → result ≡ false }
        ensures owed { self.now.says_again ≡ true → is_asked_for advice.now.row ≡ false →
            has_told self.now advice.now.row ≡ false → result ≡ true }
        ensures another { is_asked_for advice.now.row ≡ false → has_told self.now advice.now.row ≡ false →
            self.now.said_last.items ≢ row.now → result ≡ true }
        ensures once { self.now.inquired ≡ false → self.now.says_again ≡ false →
            self.now.said_last.items ≡ row.now → result ≡ false }
    {
        self.inquired
            || (!advice.row.is_asked_for()
                && (!self.has_told(advice.row)
                    && (self.says_again || self.said_last.as_slice() != row)))
    }
}

/// What is known beside the conversation, so long after the connection was made: whether the opponent is here, of which
/// nothing is known if no player is listed, and whether the server had time to answer the login.
fn aside_of(situation: &Situation, directory: &Directory, passed: Duration) -> Aside
    ensures here { situation.now.opponent.is_here ≡ true → result.is_listed ≡ true }
    ensures nobody { length directory.now ≡ 0 → result.is_listed ≡ true }
    ensures listed { IsSome (entry_of situation.now.opponent.name.items directory.now) → result.is_listed ≡ true }
    ensures absent { result.is_listed ≡ false → IsAbsent situation.now directory.now }
    ensures time { result.had_time ≡ nat_le 2 (as_nanos passed / 1_000_000_000) }
{
    Aside {
        is_listed: situation.opponent.is_here
            || directory.is_empty()
            || directory.get(situation.opponent.name.as_slice()).is_some(),
        had_time: passed.as_secs() >= LOGIN_SECONDS,
    }
}

impl<'a> Screen<'a> {
    /// Shows the board after a move that was sent, if no board has confirmed it and none stands above; says how another
    /// match is played after one that has ended, and what is advised.
    pub(crate) fn rest(
        &mut self,
        client: &Client,
        directory: &Directory,
        moment: Moment,
    ) -> Result<(), AllocError>
        ensures rests { OnOk result (Rests client.now self.old.page.settings self.old.memory
            self.old.page.text.items self.new.page.text.items) }
        ensures fixes { OnOk result ((t : Talk) → StandsAfter client.now t → self.new.memory.program.fixing ≡
            before_typing t self.old.memory.here.toggles self.old.memory.program.fixing) }
    {
        let alloc = self.page.alloc;
        let is_held = self.memory.program.above.is_held();
        let here = &mut self.memory.here;
        let page = &mut self.page;
        here.table
            .boards
            .show_sent_below(alloc, client, is_held, &page.settings, &mut page.text)?;
        let columns = page.columns();
        let standing = here.situation.standing;
        let inquired = here.advising.inquired;
        say_rematch(
            alloc,
            &here.rematch,
            inquired,
            standing,
            columns,
            &mut page.text,
        )?;
        note_said(&mut here.rematch);
        let passed = moment.passed.saturating_sub(here.opened);
        let aside = aside_of(&here.situation, directory, passed);
        let advice = advised(alloc, client, &here.situation, aside)?;
        here.advising.say(&advice, &here.situation, page)?;
        let automove = TurnOff::of(here.toggles.automove.is_on(), advice.automove);
        let greedy = TurnOff::of(here.toggles.greedy.is_on(), advice.greedy);
        let plays = plays_itself(client.refusal(&Decision::Roll));
        self.memory.program.fixing.rest(automove, greedy, plays);
        Ok(())
    }
}

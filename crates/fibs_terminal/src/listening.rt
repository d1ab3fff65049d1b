//! What a terminal shows of what the server sends.

ghost use Rattle.std.specs.Prelude.{◌≡◌, ◌↔◌, ◌⊎◌, IfOk, IsTrue, OnOk, Some, false, is_some, take, true};
ghost use Rattle.fibs_position.specs.declared.phase.Phase.TheVariants.{Passing};
ghost use Rattle.fibs_events.specs.declared.told.Told.TheVariants as T;
ghost use Rattle.fibs_advice.specs.declared.situation.BoardAsked.TheVariants as B;
ghost use Rattle.fibs_advice.specs.declared.standing.Standing.TheVariants as S;
ghost use Rattle.fibs_terminal.specs.Greetings.{IsHeard, is_due};
ghost use Rattle.fibs_terminal.specs.HeardMessages.{IsSeen, NotesComing, NotesLogin, NotesRated, NotesSpeaker, NotesUser, SpeakerAfter, greeted_by, greeting_listed, is_talk, list_ended, list_heard, tells_rating, toggles_heard, with_message, with_seen};
ghost use Rattle.fibs_terminal.specs.HeardTexts.{AfterText, HearsNoBoard, IsKnown, NotesMatch, settled, with_here, with_match, with_shown, with_told};
ghost use Rattle.fibs_terminal.specs.LeftOut.{message_left_out, player_of, text_left_out};
ghost use Rattle.fibs_terminal.specs.Reported.{NotesLine};
ghost use Rattle.fibs_terminal.specs.declared.listening.greeting.Greeting.{Greeting};
ghost use Rattle.fibs_terminal.specs.declared.listening.left_out.Known.{Known};
ghost use Rattle.fibs_terminal.specs.declared.listening.left_out.Seen.{Seen};

mod greeting;
mod left_out;

use crate::account::is_free;
use crate::company::is_told;
use crate::listening::left_out::{
    Known, LeftOut, Seen, change_left_out, message_left_out, player_of, text_left_out,
};
use crate::own_rows::fit_from;
use crate::people::{ListAsked, say_players};
use crate::results::Rated;
use crate::screen::{Moment, Screen};
use crate::talk::Talk;
use fibs_advice::situation::{Inviter, is_same};
use fibs_advice::standing::Standing;
use fibs_events::told::Told;
use fibs_fields::trailing_spaces::without_spaces;
use fibs_lines::Line;
use fibs_messages::{Fault, Message, Reading};
use fibs_position::Phase;
use fibs_wording::environment::Page;
use fibs_wording::environment::broken::break_at_spaces;
use fibs_wording::lists::append_greeting;
use fibs_wording::messages::append_message;
use fibs_wording::players::count_players;
use fibs_wording::reasons::append_malformed;
pub use greeting::Greeting;
use std::alloc::AllocError;

/// What is kept of a text, to know a row that would say the same: no row of a board is longer.
fn kept_of(said: &[u8]) -> &[u8]
    ensures { result.now ≡ take 80 said.now }
{
    &said[..said.len().min(80)]
}

/// Whether the board that came last shows that the user can't move.
fn is_passing(phase: Option<Phase>) -> bool
    ensures { IsTrue result ↔ (phase ≡ Some Passing) }
{
    phase == Some(Phase::Passing)
}

/// Whether a text says how the next game begins, and that waits for the user.
fn is_next(told: Option<Told>, standing: Standing) -> bool
    ensures { IsTrue result ↔ ((told ≡ Some T.NextGame) × (standing ≡ S.Next)) }
{
    told == Some(Told::NextGame) && standing == Standing::Next
}

/// Whether a text says no more of an invitation than the row that has told it.
fn is_invited(said: &[u8], told: Option<Told>, inviter: &Inviter) -> bool
    ensures { IsTrue result → (told ≡ Some T.Invited) × (inviter.now.is_told ≡ true) }
{
    told == Some(Told::Invited) && is_told(said, inviter)
}

/// Shows a line that can't be read, and why.
fn say_malformed(
    bytes: &[u8],
    number: u8,
    field: usize,
    fault: Fault,
    page: &mut Page<'_>,
) -> Result<(), AllocError> {
    let start = page.text.len();
    append_malformed(number, field, fault, &mut page.text)?;
    fit_from(start, page)?;
    page.show_row(bytes)
}

/// Whether a message is what people say.
fn is_talk(message: &Message<'_>) -> bool
    ensures { result ≡ is_talk message.now }
{
    matches!(
        message,
        Message::MessageReceived { .. }
            | Message::Says { .. }
            | Message::Shouts { .. }
            | Message::Whispers { .. }
            | Message::Kibitzes { .. }
            | Message::YouSay { .. }
            | Message::YouShout { .. }
            | Message::YouWhisper { .. }
            | Message::YouKibitz { .. }
    )
}

/// Says a message in words, and keeps what people say.
fn say_message(
    message: &Message<'_>,
    moment: Moment,
    talk: &mut Talk,
    page: &mut Page<'_>,
) -> Result<(), AllocError>
    ensures other { is_talk message.now ≡ false → talk.new ≡ talk.old }
    ensures speaker { OnOk result (SpeakerAfter message.now talk.old talk.new) }
{
    match message {
        Message::Says { name, .. } => {
            page.ring()?;
            talk.hear_speaker(name.bytes())?;
        }
        Message::MessageReceived { .. } => page.ring()?,
        _ => {}
    }
    let alloc = page.alloc;
    let mut row = Vec::new(alloc);
    append_message(message, moment.time, &page.settings, &mut row)?;
    break_at_spaces(0, page.columns(), &mut row);
    if is_talk(message) {
        talk.keep(alloc, row.as_slice())?;
    }
    page.say_all(&[row.as_slice(), b"\n"])
}

impl<'a> Screen<'a> {
    /// Hears a line of the server, but for a board of the user's game.
    pub(crate) fn hear_line(
        &mut self,
        line: &Line<'_>,
        reading: &Reading<'_>,
        moment: Moment,
    ) -> Result<(), AllocError>
        ensures { OnOk result (NotesLine reading.now self.old.memory self.new.memory) }
    {
        match reading {
            Reading::Board(board) => self.hear_watched(line.bytes, board),
            Reading::Numbered(message) => self.hear_message(message, moment),
            Reading::Text(_) => self.hear_text(line.bytes, moment),
            Reading::Malformed {
                number,
                field,
                fault,
            } => say_malformed(line.bytes, *number, *field, *fault, &mut self.page),
        }
    }

    /// Hears a line without a number. What it says of the match counts even if it is not shown.
    fn hear_text(&mut self, said: &[u8], moment: Moment) -> Result<(), AllocError>
        ensures greeting { OnOk result ((heard : Greeting) × IsHeard self.old.memory.here.greeting heard
            × (self.new.memory.here.greeting ≡ settled heard)) }
        ensures program { self.new.memory.program ≡ (with_told self.old.memory self.new.memory).program }
    {
        let told = self.note_told(said, moment)?;
        let left_out = self.text_left_out(without_spaces(said), told)?;
        self.memory.here.greeting.hear_text(without_spaces(said));
        if left_out.is_none() {
            self.show_unknown(said, told)?;
        }
        self.say_greeting()
    }

    /// Why a text is not shown; None if it is.
    fn text_left_out(&self, said: &[u8], told: Option<Told>) -> Result<Option<LeftOut>, AllocError>
        ensures { IfOk result (λ left_out. (known : Known) × IsKnown self.now.memory.here said.now told known
            × (left_out ≡ text_left_out said.now known)) }
    {
        let known = self.known(said, told)?;
        Ok(text_left_out(said, &known))
    }

    /// What is known when a text comes that has told this.
    fn known(&self, said: &[u8], told: Option<Told>) -> Result<Known, AllocError>
        ensures { IfOk result (λ known. IsKnown self.now.memory.here said.now told known) }
    {
        let here = &self.memory.here;
        let alloc = self.page.alloc;
        Ok(Known {
            passes: is_passing(here.table.boards.phase()),
            is_ended: here.table.boards.has_told(alloc, said)?,
            is_next: is_next(told, here.situation.standing),
            is_invited: is_invited(said, told, &here.situation.inviter),
            is_answer: here.greeting.is_answered(said),
        })
    }

    /// Shows a text that is not left out: an invitation in other words.
    fn show_unknown(&mut self, said: &[u8], told: Option<Told>) -> Result<(), AllocError>
        ensures said { OnOk result ((told ≡ Some T.Invited) ⊎ (self.new.memory.here.said.items ≡ take 80 said.now)) }
        ensures kept { self.new.memory ≡ with_shown self.old.memory self.new.memory }
    {
        if told == Some(Told::Invited) && self.memory.program.converses && self.say_invited(said)? {
            return Ok(());
        }
        let alloc = self.page.alloc;
        self.memory.here.said = Vec::from_slice(alloc, kept_of(said))?;
        self.show_text(said)?;
        self.note_watching(said)
    }

    /// Ends the login by a row, if it is due: who is there, and what to type next if the user is in no match.
    pub(crate) fn say_greeting(&mut self) -> Result<(), AllocError>
        ensures early { is_due self.old.memory.here.greeting ≡ false → self.new ≡ self.old }
        ensures memory { self.new.memory ≡ with_here self.old.memory
            (record self.old.memory.here { greeting = settled self.old.memory.here.greeting }) }
    {
        let here = &mut self.memory.here;
        if !here.greeting.is_due() {
            return Ok(());
        }
        here.greeting.settle();
        let account = &self.memory.program.account;
        let listed = here.company.listed();
        let others = count_players(listed, b"", account.name());
        let ready = count_players(listed, b"ready", account.name());
        let is_free = here.situation.standing == Standing::Free && !here.greeting.plays_itself();
        let start = self.page.text.len();
        append_greeting(
            account.rating(),
            others,
            ready,
            is_free,
            &mut self.page.text,
        )?;
        fit_from(start, &mut self.page)
    }

    /// Takes note of what a text says of the match, and rings the bell if the opponent offers to resign.
    fn note_told(&mut self, said: &[u8], moment: Moment) -> Result<Option<Told>, AllocError>
        ensures told { IfOk result (λ told. AfterText told self.old.memory.here self.new.memory.here) }
        ensures kept { self.new.memory ≡ with_told self.old.memory self.new.memory }
    {
        let before = self.memory.here.situation.standing;
        self.memory.here.situation.hear_turn(without_spaces(said));
        let told = self.memory.here.situation.hear_text(said);
        self.note_result(said, told, before, moment)?;
        self.note_match(said, told)?;
        match told {
            Some(Told::Begins | Told::Resumes) => {
                let alloc = self.page.alloc;
                self.memory
                    .here
                    .begin_game(alloc, told == Some(Told::Resumes));
            }
            Some(Told::NotPlaying) => self.hear_no_board(false),
            Some(Told::NextGame) => self.hear_no_board(true),
            Some(Told::NotInvited) => self.memory.here.advising.says_again = true,
            Some(Told::Resigns) => self.page.ring()?,
            _ => {}
        }
        Ok(told)
    }

    /// Takes note of what a text says of saved matches, and of a game that begins or is no longer on the table.
    fn note_match(&mut self, said: &[u8], told: Option<Told>) -> Result<(), AllocError>
        ensures motd { self.old.memory.here.situation.is_motd ≡ true → self.new ≡ self.old }
        ensures noted { OnOk result (self.old.memory.here.situation.is_motd ≡ false →
            NotesMatch self.old.memory said.now told self.new.memory) }
        ensures kept { self.new ≡ record self.old { memory = with_match self.old.memory self.new.memory } }
    {
        let alloc = self.page.alloc;
        let memory = &mut self.memory;
        if memory.here.situation.is_motd {
            return Ok(());
        }
        memory.here.toggles.hear_text(without_spaces(said));
        let opponent = memory.here.situation.opponent.name.as_slice();
        let board = memory.here.table.boards.last_with(opponent);
        let account = &mut memory.program.account;
        account.note_text(alloc, said, told, opponent, board)?;
        account.hear_list(alloc, said, &mut memory.here.company.lists)?;
        if let Some(Told::Saved | Told::MatchOver | Told::NotPlaying) = told {
            memory.here.table.clear(alloc);
        }
        Ok(())
    }

    /// Says who invites the user. False if the text says something else.
    fn say_invited(&mut self, said: &[u8]) -> Result<bool, AllocError>
        ensures told { IfOk result (λ is_said. IsTrue self.new.memory.here.situation.inviter.is_told
            ↔ (IsTrue is_said × (self.old.memory.here.situation.standing ≡ S.Invited))) }
        ensures other { IfOk result (λ is_said. is_said ≡ false →
            self.new.memory.here.advising ≡ self.old.memory.here.advising) }
        ensures kept { self.new.memory ≡ with_here self.old.memory (record self.old.memory.here {
          situation = record self.old.memory.here.situation {
            inviter = record self.old.memory.here.situation.inviter {
              is_told = self.new.memory.here.situation.inviter.is_told;
            };
          };
          advising = self.new.memory.here.advising;
        }) }
    {
        let here = &mut self.memory.here;
        let standing = here.situation.standing;
        let is_said = here.company.say_invitation(said, standing, &mut self.page)?;
        here.situation.inviter.is_told = is_said.is_some() && standing == Standing::Invited;
        if is_said == Some(true) {
            here.advising
                .settle_invited(here.situation.inviter.name.as_slice())?;
        }
        Ok(is_said.is_some())
    }

    /// The server shows no board of the user's game: if he has asked for it, that is the answer; it may follow all the
    /// same.
    pub(crate) fn hear_no_board(&mut self, may_follow: bool)
        ensures here { HearsNoBoard self.old.memory.here self.new.memory.here }
        ensures ends { may_follow ≡ false → self.new.memory.here.situation.asked ≡ B.Nothing }
        ensures kept { self.new ≡ record self.old { memory = with_here self.old.memory self.new.memory.here } }
    {
        if self.memory.here.situation.hear_no_board(may_follow) {
            self.memory.here.advising.inquired = true;
        }
    }

    /// Takes note of a message: the user was greeted or is rated, the message of the day begins or ends, or a player
    /// comes or goes.
    fn note_message(&mut self, message: &Message<'_>) -> Result<(), AllocError>
        ensures user { OnOk result (NotesUser message.now
            self.old.memory.program.account self.new.memory.program.account) }
        ensures rated { OnOk result (NotesRated message.now self.old.memory.program.account
            self.old.memory.program.results self.new.memory.program.results) }
        ensures login { OnOk result (NotesLogin message.now
            self.old.memory.here.greeting self.new.memory.here.greeting) }
        ensures toggles { OnOk result (self.new.memory.here.toggles
            ≡ toggles_heard message.now self.old.memory.here.toggles) }
        ensures list { OnOk result (self.new.memory.here.list ≡ list_heard message.now self.old.memory.here.list) }
        ensures greeted { OnOk result (self.new.memory.program.reconnecting
            ≡ greeted_by message.now self.old.memory.program.reconnecting) }
        ensures speaker { OnOk result (NotesSpeaker message.now
            self.old.memory.here.company self.new.memory.here.company) }
        ensures coming { OnOk result (NotesComing message.now
            self.old.memory.here.situation self.new.memory.here.situation) }
        ensures kept { self.new.memory ≡ with_message self.old.memory self.new.memory }
        ensures silent { tells_rating message.now ≡ false → self.new.page ≡ self.old.page }
    {
        let alloc = self.page.alloc;
        let here = &mut self.memory.here;
        here.company.note_message(message)?;
        match message {
            Message::OwnInfo(info) => {
                here.greeting.hear_own_info(info);
                here.toggles.hear_own_info(info);
                self.memory.program.account.note_own_info(info)?;
                self.hear_rated(Rated::of(info.rating, info.experience))?;
            }
            Message::WhoInfo(info) if self.memory.program.account.is_of(info.name.bytes()) => {
                self.memory.program.account.note_rating(info.rating);
                self.hear_rated(Rated::of(info.rating, info.experience))?;
            }
            Message::Welcome { name, .. } => {
                here.situation.hear_welcome();
                here.greeting.hear_welcome();
                here.list.asked = ListAsked::Login;
                self.memory.program.reconnecting.hear_greeting();
                self.memory.program.account.note_name(name.bytes())?;
            }
            Message::Says { name, .. } => here.company.note_speaker(alloc, name.bytes())?,
            Message::YouSay { name, .. } => here.company.note_speaker(alloc, name.bytes())?,
            Message::Login { name, .. } => here.situation.hear_login(name.bytes()),
            Message::MotdBegin => here.situation.hear_motd(true),
            Message::MotdEnd => here.situation.hear_motd(false),
            Message::Logout { name, .. } => here.situation.hear_logout(name.bytes()),
            _ => {}
        }
        Ok(())
    }

    /// How a player stands to the user, and what the user wants to see.
    fn seen(&self, name: &[u8]) -> Seen
        ensures { IsSeen self.now.memory name.now result }
    {
        let people = &self.memory.program.people;
        let account = &self.memory.program.account;
        let here = &self.memory.here;
        Seen {
            is_gagged: people.is_gagged(name),
            is_own: account.name() == name,
            is_known: is_same(here.situation.opponent.name.as_slice(), name)
                || is_same(here.situation.inviter.name.as_slice(), name)
                || here.company.has_spoken(name)
                || account.has_saved(name),
            is_quiet: people.is_quiet(),
            arrivals: people.arrivals,
            is_in_match: !is_free(here.situation.standing),
            logs_in: !here.greeting.is_informed(),
        }
    }

    /// Takes note of a message, and says it in words, if its player stands so to the user that it is shown.
    fn say_seen(
        &mut self,
        message: &Message<'_>,
        moment: Moment,
        seen: &Seen,
    ) -> Result<(), AllocError>
        ensures user { OnOk result (NotesUser message.now
            self.old.memory.program.account self.new.memory.program.account) }
        ensures rated { OnOk result (NotesRated message.now self.old.memory.program.account
            self.old.memory.program.results self.new.memory.program.results) }
        ensures talk { is_talk message.now ≡ false → self.new.memory.program.talk ≡ self.old.memory.program.talk }
        ensures hidden { is_some (message_left_out message.now seen.now) ≡ true →
            self.new.memory.program.talk ≡ self.old.memory.program.talk }
        ensures silent { is_some (message_left_out message.now seen.now) ≡ true → tells_rating message.now ≡ false →
            self.new.page ≡ self.old.page }
        ensures kept { self.new.memory ≡ with_seen self.old.memory self.new.memory }
    {
        let left_out = message_left_out(message, seen);
        self.note_message(message)?;
        if left_out.is_none() {
            let talk = &mut self.memory.program.talk;
            say_message(message, moment, talk, &mut self.page)?;
        }
        Ok(())
    }

    /// Hears a message.
    fn hear_message(&mut self, message: &Message<'_>, moment: Moment) -> Result<(), AllocError>
        ensures user { OnOk result (NotesUser message.now
            self.old.memory.program.account self.new.memory.program.account) }
        ensures rated { OnOk result (NotesRated message.now self.old.memory.program.account
            self.old.memory.program.results self.new.memory.program.results) }
        ensures talk { is_talk message.now ≡ false → self.new.memory.program.talk ≡ self.old.memory.program.talk }
        ensures hidden { OnOk result ((seen : Seen) × IsSeen self.old.memory (player_of message.now) seen
            × (is_some (message_left_out message.now seen) ≡ true →
            self.new.memory.program.talk ≡ self.old.memory.program.talk)) }
        ensures kept { self.new.memory ≡ with_seen self.old.memory self.new.memory }
    {
        let seen = self.seen(player_of(message));
        self.say_seen(message, moment, &seen)?;
        match message {
            Message::WhoInfo(info) => self.memory.here.list.hear_player(info),
            Message::WhoInfoEnd => self.hear_list_end(),
            Message::Login { name, .. } => {
                let standing = self.memory.here.situation.standing;
                let account = &self.memory.program.account;
                account.say_here(name.bytes(), standing, &mut self.page)
            }
            _ => Ok(()),
        }
    }

    /// A list of players has ended: its row, that of the player who has changed, or that which ends the login.
    fn hear_list_end(&mut self) -> Result<(), AllocError>
        ensures greeting { OnOk result (self.new.memory.here.greeting
            ≡ greeting_listed self.old.memory.here self.old.memory.program.account.name.items) }
        ensures list { OnOk result (self.new.memory.here.list
            ≡ list_ended self.old.memory.here self.old.memory.program.account.name.items) }
        ensures kept { self.new.memory ≡ with_here self.old.memory (record self.old.memory.here {
          list = self.new.memory.here.list;
          greeting = self.new.memory.here.greeting;
        }) }
    {
        let left_out = change_left_out(&self.seen(self.memory.here.list.last_name()));
        let here = &mut self.memory.here;
        let own = self.memory.program.account.name();
        if here.greeting.awaits_list() && here.list.is_of_login(own) {
            here.greeting.hear_listed();
            here.list.forget();
            self.say_greeting()?;
            return self.say_wanted();
        }
        if here.list.is_of_everybody() {
            here.list.forget();
            let _shown_now = here.list.take_wanted();
            return say_players(
                here.company.listed(),
                b"",
                &self.memory.program.account,
                &mut self.page,
            );
        }
        here.list.hear_end(left_out.is_none(), &mut self.page)
    }
}

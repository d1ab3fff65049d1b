//! How the user takes leave of a match: the first line that does is only answered, the second one in a row does it.
ghost use Rattle.std.specs.Prelude.{◌≡◌, ◌++◌, IfOk, OnOk, Some, true};
ghost use Rattle.fibs_picture.specs.InWords.Rows.{Says};
ghost use Rattle.fibs_connect.specs.Wishes.{wish_value};
ghost use Rattle.fibs_terminal.specs.Asking.{AsksInBounds, SendsUntaken, ShownGoesOn};
ghost use Rattle.fibs_terminal.specs.Fixing.{is_asked};
ghost use Rattle.fibs_terminal.specs.OwnRows.{own_columns};
ghost use Rattle.fibs_terminal.specs.Leaving.{KnownGoesOnOrAsks, QuitsOrAsks, TakesLeave, asked_first, is_again, is_match_on, leave_of, leave_word, leave_words, again_words, invite_words, is_bye, resumed_words, saved_words, with_words};
ghost use Rattle.fibs_terminal.specs.Sending.{SendsOnWord};
ghost use Rattle.fibs_terminal.specs.Trying.{GoesOn, KeepsUnanswered, ShowsTry, TriesOrKeeps};
ghost use Rattle.fibs_terminal.specs.TypedMoves.{KeepsTyped};
ghost use Rattle.fibs_terminal.specs.declared.leaving.Leave.TheVariants as L;

use crate::account::is_free;
use crate::memory::Memory;
use crate::own_rows::say_rows;
use crate::screen::Screen;
use fibs_connect::typed_line::TypedLine;
use fibs_connect::wish::Wish;
use fibs_session::{Client, Directory};
use fibs_wording::environment::Page;
use fibs_wording::environment::pieces::short_name;
use std::alloc::AllocError;

/// A word by which the user takes leave.
#[derive(Clone, Copy, Debug, PartialEq, Eq)]
pub enum Leave {
    /// The program ends.
    Quit,
    /// The server ends the connection.
    Bye,
}

impl Leave {
    /// The word.
    fn word(self) -> &'static [u8]
        ensures { result.now ≡ leave_word self }
    {
        match self {
            Leave::Quit => b"quit",
            Leave::Bye => b"bye",
        }
    }
}

/// By which word a line takes leave that asks for this, if it does.
fn leave_of(wish: Wish, line: &[u8]) -> Option<Leave>
    ensures { result ≡ leave_of wish line.now }
{
    match wish {
        Wish::Quit => Some(Leave::Quit),
        Wish::Say => {
            if line == b"bye".as_slice() {
                Some(Leave::Bye)
            } else {
                None
            }
        }
        _ => None,
    }
}

/// Whether the user was asked by the last line about the word by which he takes leave now.
fn is_again(before: Option<Leave>, now: Option<Leave>) -> bool
    ensures { result ≡ is_again before now }
{
    match (before, now) {
        (Some(Leave::Quit), Some(Leave::Quit)) | (Some(Leave::Bye), Some(Leave::Bye)) => true,
        _ => false,
    }
}

/// Whether a line takes leave by `bye`.
fn is_bye(leave: Option<Leave>) -> bool
    ensures { result ≡ is_bye leave }
{
    match leave {
        Some(Leave::Bye) => true,
        Some(Leave::Quit) | None => false,
    }
}

/// About which word the user is asked now: the one by which he takes leave, if a match is on and he was not.
fn asked_first(is_on: bool, before: Option<Leave>, now: Option<Leave>) -> Option<Leave>
    ensures { result ≡ asked_first is_on before now }
{
    if is_on && !is_again(before, now) {
        now
    } else {
        None
    }
}

/// Appends with whom a match is, if his name is known.
fn append_with(opponent: &[u8], row: &mut Vec<u8>) -> Result<(), AllocError>
    ensures { OnOk result (row.new.items ≡ row.old.items ++ with_words opponent.now) }
{
    if opponent.is_empty() {
        return Ok(());
    }
    row.extend_from_slice(b" with ")?;
    row.extend_from_slice(short_name(opponent))
}

/// Appends how it is resumed with him.
fn append_invite(opponent: &[u8], row: &mut Vec<u8>) -> Result<(), AllocError>
    ensures { OnOk result (row.new.items ≡ row.old.items ++ invite_words opponent.now) }
{
    row.extend_from_slice(b": invite ")?;
    row.extend_from_slice(opponent)?;
    row.extend_from_slice(b" then resumes it")
}

/// Appends how it is resumed, if his name is known.
fn append_resumed(opponent: &[u8], row: &mut Vec<u8>) -> Result<(), AllocError>
    ensures { OnOk result (row.new.items ≡ row.old.items ++ resumed_words opponent.now) }
{
    if opponent.is_empty() {
        return Ok(());
    }
    append_invite(opponent, row)
}

/// Appends by which word the user leaves.
fn append_again(leave: Leave, row: &mut Vec<u8>) -> Result<(), AllocError>
    ensures { OnOk result (row.new.items ≡ row.old.items ++ again_words leave) }
{
    row.extend_from_slice(b": ")?;
    row.extend_from_slice(leave.word())?;
    row.extend_from_slice(b" again leaves.\n")
}

/// Appends that most servers save the match, and how it is resumed.
fn append_saved(opponent: &[u8], row: &mut Vec<u8>) -> Result<(), AllocError>
    ensures { OnOk result (row.new.items ≡ row.old.items ++ saved_words opponent.now) }
{
    row.extend_from_slice(b"Most servers save it")?;
    append_resumed(opponent, row)?;
    row.extend_from_slice(b".\n")
}

/// Appends what the user is asked.
fn append_leave(leave: Leave, opponent: &[u8], row: &mut Vec<u8>) -> Result<(), AllocError>
    ensures { OnOk result (row.new.items ≡ row.old.items ++ leave_words leave opponent.now) }
{
    row.extend_from_slice(b"You are in a match")?;
    append_with(opponent, row)?;
    append_again(leave, row)?;
    append_saved(opponent, row)
}

/// Asks whether the user leaves his match with an opponent, whose name may not be known, and says how it is resumed:
/// no server is bound to save it.
fn say_leave(leave: Leave, opponent: &[u8], page: &mut Page<'_>) -> Result<(), AllocError>
    ensures { OnOk result (Says (own_columns page.old.settings) (leave_words leave opponent.now)
        page.old.text.items page.new.text.items) }
{
    let alloc = page.alloc;
    let mut row = Vec::new(alloc);
    append_leave(leave, opponent, &mut row)?;
    say_rows(row.as_slice(), page)
}

impl Memory {
    /// Whether the user is in a match, of which he has not taken leave.
    pub fn is_match_on(&self) -> bool
        ensures { result ≡ is_match_on self.now }
    {
        !is_free(self.here.situation.standing)
            && !self.here.table.boards.show_end()
            && !self.program.reconnecting.has_left()
    }
}

impl<'a> Screen<'a> {
    /// What a line asks for. The first one that takes leave of a match is only answered.
    pub(crate) fn wish_leaving(
        &mut self,
        client: &Client,
        directory: &Directory,
        line: &mut TypedLine,
    ) -> Result<Wish, AllocError>
        ensures asks { IfOk result (λ wish. AsksInBounds line.old.items (wish_value wish line.new.items)) }
        ensures leave { IfOk result (λ wish. TakesLeave (is_match_on self.old.memory) self.old.memory.here.table.leave
            self.new.memory.here.table.leave line.new.items wish) }
        ensures fix { OnOk result (is_asked self.new.memory.program.fixing.step ≡ true →
            self.new.memory.here.table.leave ≡ Some L.Bye) }
        ensures quit { QuitsOrAsks client.now self.new.memory.here.table.leave line.old.items result }
        ensures known { KnownGoesOnOrAsks client.now self.old.page.settings.numbers
            self.old.memory.here.situation.standing self.new.memory.here.table.leave line.old.items line.new.items
            result }
        ensures shows { ShownGoesOn client.now self.old.page.settings.numbers self.old.memory.here.situation.standing
            line.old.items line.new.items result }
        ensures word { SendsOnWord client.now self.old.memory.here.situation.standing line.old.items line.new.items
            result }
        ensures sent { SendsUntaken client.now line.new.items result }
        ensures tried { OnOk result (TriesOrKeeps client.now self.old.page.settings self.old.memory.here.looking.trial
            self.new.memory.here.looking.trial self.old.page.text.items self.new.page.text.items) }
        ensures went { GoesOn client.now self.old.memory.here.looking.trial line.old.items line.new.items result }
        ensures shown { ShowsTry client.now self.old.page.settings line.old.items self.new.memory.here.looking.trial
            self.old.page.text.items self.new.page.text.items result }
        ensures still { KeepsUnanswered self.old.memory.here.looking.trial self.new.memory.here.looking.trial result }
        ensures typed { KeepsTyped client.now self.old.page.settings.numbers line.old.items
            self.new.memory.here.looking.trial result }
    {
        let is_on = self.memory.is_match_on();
        let before = self.memory.here.table.leave;
        let wish = self.wish_line(client, directory, line)?;
        let leave = leave_of(wish, line.as_slice());
        let asked = asked_first(is_on, before, leave);
        self.memory
            .program
            .fixing
            .hear_line(is_bye(leave), asked.is_some());
        match asked {
            None => {
                self.memory.here.table.leave = None;
                Ok(wish)
            }
            Some(leave) => {
                self.memory.here.table.leave = Some(leave);
                let opponent = self.memory.here.situation.opponent.name.as_slice();
                say_leave(leave, opponent, &mut self.page)?;
                Ok(Wish::Answered)
            }
        }
    }
}

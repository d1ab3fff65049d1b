//! The talk of people that a terminal remembers.
ghost use Rattle.std.specs.Prelude.{◌≡◌, [], IfOk, OnErr, OnOk};
ghost use Rattle.fibs_terminal.specs.Asking.{SendsUntaken, tell_line};
ghost use Rattle.fibs_terminal.specs.KeptLists.{KeepsBytes};
ghost use Rattle.fibs_terminal.specs.Leaving.{NeverQuits};
ghost use Rattle.fibs_terminal.specs.Sending.{SendsNoDecision};

mod as_typed;

use crate::commands::set_line;
pub(crate) use as_typed::goes_as_typed;
use fibs_connect::typed_line::{TYPED_LIMIT, TypedLine};
use fibs_connect::wish::Wish;
use fibs_session::Client;
use fibs_wording::environment::Page;
use std::alloc::{AllocError, Global};

/// How many rows are kept.
const MOST_ROWS: usize = 20;

/// The last rows of talk, and who spoke to the user last.
#[derive(Drop)]
pub struct Talk {
    /// The rows as they were shown, the oldest first.
    rows: Vec<Vec<u8>>,
    /// The name of who spoke to the user last; empty if nobody has.
    speaker: Vec<u8>,
}

impl Talk {
    /// Nobody has spoken.
    pub fn new(alloc: Global) -> Talk
        ensures rows { result.rows.items ≡ [] }
        ensures speaker { result.speaker.items ≡ [] }
    {
        Talk {
            rows: Vec::new(alloc),
            speaker: Vec::new(alloc),
        }
    }

    /// Shows the rows once more, the oldest first.
    pub fn say_rows(&self, page: &mut Page<'_>) -> Result<(), AllocError> {
        if self.rows.is_empty() {
            return page.say(b"Nobody has talked yet.\n");
        }
        for row in &self.rows {
            page.say_all(&[row.as_slice(), b"\n"])?;
        }
        Ok(())
    }

    /// Asks to tell a text to who spoke to the user last.
    pub fn answer(
        &self,
        client: &Client,
        text: &[u8],
        line: &mut TypedLine,
        page: &mut Page<'_>,
    ) -> Result<Wish, AllocError>
        ensures sent { SendsUntaken client.now line.new.items result }
        ensures decides { SendsNoDecision client.now line.new.items result }
        ensures told { IfOk result (λ wish. wish ≡ Wish.Say
            → line.new.items ≡ tell_line self.now.speaker.items text.now) }
        ensures as_typed { IfOk result (λ wish. wish ≡ Wish.Send
            → line.new.items ≡ tell_line self.now.speaker.items text.now) }
        ensures quits { NeverQuits result }
    {
        if self.speaker.is_empty() || text.is_empty() {
            page.say(b"re TEXT: answers the player who spoke to you last, if one has.\n")?;
            return Ok(Wish::Answered);
        }
        let alloc = page.alloc;
        let mut told = Vec::new(alloc);
        told.extend_from_slice(b"tell ")?;
        told.extend_from_slice(self.speaker.as_slice())?;
        told.extend_from_slice(b" ")?;
        told.extend_from_slice(text)?;
        if told.len() > TYPED_LIMIT {
            return Ok(Wish::TooLong);
        }
        set_line(line, told.as_slice());
        if goes_as_typed(client, line.as_slice()) {
            return Ok(Wish::Send);
        }
        Ok(Wish::Say)
    }

    /// Keeps a row of talk; the oldest goes if there are many.
    ///
    /// Errors: if memory runs out.
    pub fn keep(&mut self, alloc: Global, row: &[u8]) -> Result<(), AllocError>
        ensures rows { OnOk result (KeepsBytes 20 self.old.rows.items row.now self.new.rows.items) }
        ensures speaker { self.new.speaker ≡ self.old.speaker }
    {
        let row = Vec::from_slice(alloc, row)?;
        if self.rows.len() >= MOST_ROWS {
            self.rows.remove(0);
        }
        self.rows.push(row)?;
        Ok(())
    }

    /// A player has spoken to the user.
    ///
    /// Errors: if memory runs out; then nobody has.
    pub fn hear_speaker(&mut self, name: &[u8]) -> Result<(), AllocError>
        ensures speaker { OnOk result (self.new.speaker.items ≡ name.now) }
        ensures nobody { OnErr result (self.new.speaker.items ≡ []) }
        ensures rows { self.new.rows ≡ self.old.rows }
    {
        self.speaker.clear();
        self.speaker.extend_from_slice(name)
    }
}

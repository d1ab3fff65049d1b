//! What the server says and hears in its numbers, as the user reads it in his.

ghost use Rattle.std.specs.Prelude.{◌≡◌, ◌++◌, IfOk, IfSome, None, OnOk, option_map};
ghost use Rattle.fibs_fields.specs.Split.{before, seen};
ghost use Rattle.fibs_position.specs.declared.numbers.Numbers.TheVariants.{TheServers};
ghost use Rattle.fibs_terminal.specs.Retold.{IsOfOthers, IsRetold, mover, noted, sent_row, sent_said, watched_direction};

use crate::screen::Screen;
use fibs_advice::moved::{
    append_moved, append_sent, append_sent_told, has_step, names_steps, read_moved,
};
use fibs_advice::situation::is_same;
use fibs_fields::split::split;
use fibs_fields::trailing_spaces::without_spaces;
use fibs_position::{Direction, Numbers};
use std::alloc::{AllocError, Global};

/// What is said behind places whose numbers may not be those that the user reads.
const THE_SERVERS: &[u8] = b" (the server's numbers)";

/// Who moves, if a text of the server begins as one that tells a move.
fn mover_of(said: &[u8]) -> Option<&[u8]>
    ensures name { IfSome result (λ name. name.now ≡ before 32 said.now) }
    ensures mover { seen result ≡ mover said.now }
{
    match split(said, b' ') {
        (name, Some(rest)) if rest.starts_with(b"moves ") => Some(name),
        _ => None,
    }
}

/// A text of the server, and that the places which it names have the server's numbers.
fn noted(alloc: Global, said: &[u8]) -> Result<Vec<u8>, AllocError>
    ensures { IfOk result (λ text. text.items ≡ noted said.now) }
{
    let mut row = Vec::new(alloc);
    row.extend_from_slice(without_spaces(said))?;
    row.extend_from_slice(THE_SERVERS)?;
    Ok(row)
}

/// The same, if it speaks of moving and names places.
fn noted_if_steps(alloc: Global, said: &[u8]) -> Result<Option<Vec<u8>>, AllocError>
    ensures { IfOk result (λ row. IfSome row (λ text. text.items ≡ noted said.now)) }
{
    if !names_steps(said) {
        return Ok(None);
    }
    Ok(Some(noted(alloc, said)?))
}

impl<'a> Screen<'a> {
    /// Which way the user goes by the server's numbers, or the player whom he watches, if a board shows it of the game
    /// of which a text speaks.
    fn shown_direction(&self, said: &[u8]) -> Option<Direction>
        ensures watched { IfSome self.now.memory.here.watching.heard (λ watched.
            result ≡ watched_direction (mover said.now) watched) }
        ensures others { IsOfOthers self.now.memory.here.watching.heard
            self.now.memory.here.situation.opponent.name.items said.now → result ≡ None }
    {
        let here = &self.memory.here;
        let mover = mover_of(said);
        if let Some(watched) = here.watching.board() {
            return match mover {
                Some(name) if !here.watching.is_of(name) => None,
                _ => Some(Direction::of(watched.board())),
            };
        }
        let opponent = here.situation.opponent.name.as_slice();
        match mover {
            Some(name) if !is_same(name, opponent) => None,
            _ => Some(Direction::of(here.table.boards.last_with(opponent)?)),
        }
    }

    /// A command that was sent, as the user reads it: of a move also its steps in the numbers that he reads, if those
    /// are others, or, if the least is told in words, in those alone.
    fn sent_said(&self, command: &[u8]) -> Result<Vec<u8>, AllocError>
        ensures { IfOk result (λ said. said.items ≡
            sent_said self.now.page.settings self.now.memory.here.direction command.now) }
    {
        let direction = self.memory.here.direction.unwrap_or(Direction::Down);
        let numbers = self.page.settings.numbers;
        let alloc = self.page.alloc;
        let mut sent = Vec::new(alloc);
        if self.page.settings.words && self.page.settings.is_short {
            append_sent_told(command, direction, numbers, &mut sent)?;
            return Ok(sent);
        }
        append_sent(command, direction, numbers, &mut sent)?;
        Ok(sent)
    }

    /// Says it between these words.
    pub(crate) fn say_sent(
        &mut self,
        before: &[u8],
        command: &[u8],
        after: &[u8],
    ) -> Result<(), AllocError>
        ensures memory { self.new.memory ≡ self.old.memory }
        ensures says { OnOk result (self.new.page.text.items ≡ self.old.page.text.items ++
            sent_row self.old.page.settings self.old.memory.here.direction before.now command.now after.now) }
    {
        let sent = self.sent_said(command)?;
        self.page.say(before)?;
        self.page.say(sent.as_slice())?;
        self.page.say(after)?;
        self.page.say(b"\n")
    }

    /// What is shown in place of a text of the server; None if that is shown as it came. Of a move the places have the
    /// numbers that the user reads; of other texts that name places it says whose numbers they have, if those may be
    /// others: also of each row of the moves of a game that the user has asked for, since it does not say which way he
    /// went in that.
    fn retold(&self, said: &[u8], shown: Option<Direction>) -> Result<Option<Vec<u8>>, AllocError>
        ensures { IfOk result (λ row. IsRetold self.now.page.settings.numbers shown said.now
            (option_map (λ text. text.items) row)) }
    {
        let numbers = self.page.settings.numbers;
        if numbers == Numbers::TheServers {
            return Ok(None);
        }
        let alloc = self.page.alloc;
        if self.memory.here.lists_moves && has_step(said) {
            return Ok(Some(noted(alloc, said)?));
        }
        let Some(direction) = shown else {
            return noted_if_steps(alloc, said);
        };
        if direction == Direction::Down {
            return Ok(None);
        }
        if let Some(moved) = read_moved(alloc, without_spaces(said), direction)? {
            let mut row = Vec::new(alloc);
            append_moved(moved.name, &moved.play, numbers.way(direction), &mut row)?;
            return Ok(Some(row));
        }
        noted_if_steps(alloc, said)
    }

    /// Shows a text of the server, or what is shown in its place.
    pub(crate) fn show_text(&mut self, said: &[u8]) -> Result<(), AllocError>
        ensures { self.new.memory ≡ self.old.memory }
    {
        let shown = self.shown_direction(said);
        match self.retold(said, shown)? {
            None => self.page.show_row(said),
            Some(row) => self.page.show_row(row.as_slice()),
        }
    }
}

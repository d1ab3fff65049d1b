//! Where the newest board stands: above what is said, or in its midst, as `board above`, `rows` and `columns` say.
ghost use Rattle.std.specs.Prelude.{◌≡◌, IfOk, IfSome, None, OnOk, codes};
ghost use Rattle.fibs_picture.specs.InWords.Rows.{Says};
ghost use Rattle.fibs_wording.specs.SettingWords.{place_in};
ghost use Rattle.fibs_terminal.specs.Above.{StandsAgain};
ghost use Rattle.fibs_terminal.specs.OwnRows.{SaysPlace, own_columns, said_above, why_below};

use crate::drawing::{end_text, is_wanted};
use crate::own_rows::say_rows;
use crate::screen::Screen;
use fibs_fields::decimal::read_decimal;
use fibs_wording::environment::{Settings, read_place};
use std::alloc::AllocError;

/// The widths and heights that a terminal may have.
const LEAST_COLUMNS: u64 = 20;

const LEAST_ROWS: u64 = 1;

const MOST: u64 = 999;

/// What is said if a word is not followed by what it takes.
const WHICH_COLUMNS: &[u8] = b"columns 60: how wide the terminal is, from 20 to 999.\n";

const WHICH_ROWS: &[u8] = b"rows 40: how high the terminal is, from 1 to 999.\n";

const WHICH_PLACE: &[u8] = b"board, board above, or board below.\n";

// What is said of where the newest board stands.

const ABOVE: &[u8] = b"The newest board stands above now: board below lets it scroll.\n";

const NEXT: &[u8] = b"Boards stand above from now on, if they have room: board below ends that.\n";

const BELOW: &[u8] = b"Boards scroll now: board above has the newest one stand above.\n";

/// Why it can't stand above.
fn why_below(settings: &Settings<'_>) -> &'static [u8]
    ensures { result.now ≡ why_below settings.now }
{
    if settings.words {
        b"Boards are told in words here: none stands above.\n"
    } else if !settings.scrolls_below {
        b"This terminal can't keep a board above.\n"
    } else if settings.rows == 0 {
        b"How high is this terminal? rows 40 says it.\n"
    } else {
        b"This terminal is too low for a board above: it scrolls.\n"
    }
}

/// What is said once the user has asked for the newest board to stand above: whether it does, or, if none has come, is
/// to.
fn said_above(is_held: bool, stands: bool, settings: &Settings<'_>) -> &'static [u8]
    ensures { result.now ≡ said_above is_held stands settings.now }
{
    if is_held {
        ABOVE
    } else if stands && settings.rows != 0 {
        NEXT
    } else {
        why_below(settings)
    }
}

/// The number that a word says, if it is from the least one to 999.
fn number_in(word: &[u8], least: u64) -> Option<usize> {
    let number = read_decimal(word, MOST)?;
    if number < least {
        return None;
    }
    Some(number as usize)
}

impl<'a> Screen<'a> {
    /// Has the newest board stand above, if it is to and can; else all rows scroll. Whether it stands there or, if none
    /// is known, the next one is to.
    fn stand_again(&mut self) -> Result<bool, AllocError>
        ensures stands { IfOk result (StandsAgain self.old.page.settings self.old.memory.here.watching.heard
            self.old.memory.here.table.boards.heard self.old.memory.program.above self.new.memory.program.above
            self.old.page.text.items self.new.page.text.items) }
        ensures settings { self.new.page.settings ≡ self.old.page.settings }
        ensures here { self.new.memory.here ≡ self.old.memory.here }
    {
        let here = &self.memory.here;
        let above = &mut self.memory.program.above;
        let page = &mut self.page;
        if here.watching.board().is_some() {
            return here.watching.stand(above, page);
        }
        if here.table.boards.phase().is_some() {
            return here.table.boards.stand(above, page);
        }
        let stands = is_wanted(&page.settings) && above.leaves_room(&page.settings);
        if !stands {
            page.say(above.give_back())?;
        }
        Ok(stands)
    }

    /// The same after the size of the terminal has changed, if a board stood above or is to: then nothing is said.
    fn stand_after_change(&mut self) -> Result<(), AllocError>
        ensures { self.new.memory.here ≡ self.old.memory.here }
    {
        let stood = self.memory.program.above.is_held();
        if stood || is_wanted(&self.page.settings) {
            let start = self.page.text.len();
            let _stands = self.stand_again()?;
            if self.page.text.len() != start {
                let end = self.page.text.len();
                return end_text(end, &mut self.page);
            }
        }
        Ok(())
    }

    /// The terminal has so many columns now.
    pub(crate) fn set_columns(&mut self, rest: &[u8]) -> Result<(), AllocError>
        ensures { self.new.memory.here ≡ self.old.memory.here }
    {
        match number_in(rest, LEAST_COLUMNS) {
            None => say_rows(WHICH_COLUMNS, &mut self.page),
            Some(columns) => {
                self.page.settings.columns = columns;
                self.stand_after_change()
            }
        }
    }

    /// The terminal has so many rows now.
    pub(crate) fn set_rows(&mut self, rest: &[u8]) -> Result<(), AllocError>
        ensures { self.new.memory.here ≡ self.old.memory.here }
    {
        match number_in(rest, LEAST_ROWS) {
            None => say_rows(WHICH_ROWS, &mut self.page),
            Some(rows) => {
                self.page.settings.rows = rows;
                self.stand_after_change()
            }
        }
    }

    /// The newest board stands above from now on, or scrolls.
    pub(crate) fn place_board(&mut self, rest: &[u8]) -> Result<(), AllocError>
        ensures which { place_in rest.now ≡ None → OnOk result (Says (own_columns self.old.page.settings)
            (codes "board, board above, or board below.\n") self.old.page.text.items self.new.page.text.items) }
        ensures kept { place_in rest.now ≡ None → self.new.page.settings ≡ self.old.page.settings }
        ensures placed { IfSome (place_in rest.now) (λ above. OnOk result (SaysPlace above self.old.page.settings
            self.new.page.settings self.old.memory.here.watching.heard self.old.memory.here.table.boards.heard
            self.old.memory.program.above self.new.memory.program.above self.old.page.text.items
            self.new.page.text.items)) }
        ensures here { self.new.memory.here ≡ self.old.memory.here }
    {
        let Some(is_above) = read_place(rest) else {
            return say_rows(WHICH_PLACE, &mut self.page);
        };
        self.page.settings.above = Some(is_above);
        let stands = self.stand_again()?;
        let is_held = self.memory.program.above.is_held();
        let said = if is_above {
            said_above(is_held, stands, &self.page.settings)
        } else {
            BELOW
        };
        say_rows(said, &mut self.page)
    }
}

//! The upper rows of a terminal, in which the newest board stands, while what is said scrolls below.
//!
//! What is sent for it begins with `ESC 7`, which keeps the cursor where it is. `ESC [ N r` makes the rows from N on
//! the only ones that scroll, in case the terminal has forgotten it, as at a change of its size; the rows above are
//! wiped (`ESC [ 1 J`), and the very same picture is written there that would scroll. `ESC 8` puts the cursor back, and
//! `ESC [ 999 B` takes it to the last row if it was somewhere above, as after a Ctrl-L. Before the first board as many
//! rows are made free as it takes, so that nothing is lost that was said: line ends make them free below, `ESC [ N L`
//! moves all rows down by them. A row that is said follows, else `ESC [ A` and a line end: rlwrap takes what comes
//! after the last line end for a prompt. `ESC [ r` makes all rows scroll again.
ghost use Rattle.std.specs.Prelude.{◌≡◌, ◌≢◌, ◌≤◌, ◌↔◌, ◌++◌, ◌+◌, ◌&&◌, count_by, max, OnOk, IfNone, IfOk, IfSome, IsTrue, true, false};
ghost use Rattle.fibs_lines.specs.Lines.{is_line_end};
ghost use Rattle.fibs_position.specs.GameOf.{game_of};
ghost use Rattle.fibs_position.specs.WatchedOf.{watched_of};
ghost use Rattle.fibs_terminal.specs.Above.{StandsNot, StandsOrNot, control, frees_below, frees_upper, given_back, has_no_room, leaves_room, moves_down, placed, wants_above};
ghost use Rattle.fibs_terminal.specs.Drawings.{is_plain};

use crate::drawing::picture::append_marked;
use crate::drawing::watched::append_watched;
use fibs_fields::decimal::append_number;
use fibs_picture::Arrivals;
use fibs_position::{GameBoard, WatchedBoard};
use fibs_wording::environment::{Page, Settings};
use std::alloc::AllocError;

/// How many rows there are below at least, with a free one that parts them from the board.
const LEAST_BELOW: usize = 9;

/// How many rows a terminal has at least on which the newest board stands above if the user has not said so.
const HIGH: usize = 30;

/// The most rows that are kept above.
const MOST_ABOVE: usize = 99;

/// The most rows that are made free for the first board.
const MOST_FREED: usize = 24;

const LINE_ENDS: &[u8] = b"\n\n\n\n\n\n\n\n\n\n\n\n\n\n\n\n\n\n\n\n\n\n\n\n";

const KEEPS_CURSOR: &[u8] = b"\x1b7";

const PUTS_CURSOR: &[u8] = b"\x1b8\x1b[999B";

const GOES_HOME: &[u8] = b"\x1b[H";

const WIPES: &[u8] = b"\x1b[1J\x1b[2K\x1b[H";

const ALL_SCROLL: &[u8] = b"\x1b7\x1b[r\x1b8";

/// What ends a text in which nothing is said.
const NOTHING_SAID: &[u8] = b"\x1b[A\n";

/// The upper rows.
#[derive(Clone, Copy)]
pub struct Above {
    /// How many rows are kept for the board; 0 if all rows scroll.
    held: usize,
}

/// Whether the newest board is to stand above, if there is room: if the user has said so, else if the terminal is high.
pub(crate) fn is_wanted(settings: &Settings<'_>) -> bool
    ensures wanted { result ≡ wants_above settings.now }
    ensures words { result ≡ true → settings.now.words ≡ false }
{
    settings.scrolls_below && !settings.words && settings.above.unwrap_or(settings.rows >= HIGH)
}

/// How many rows a picture has.
fn rows_of(picture: &[u8]) -> usize
    ensures { result ≡ count_by is_line_end picture.now }
{
    picture.iter().filter(|byte| **byte == b'\n').count()
}

/// Appends a control sequence of one number.
#[tactic(auto, unfolding(crate::specs::Above::control))]
fn append_control(number: usize, last: u8, text: &mut Vec<u8>) -> Result<(), AllocError>
    ensures { OnOk result (text.new.items ≡ text.old.items ++ control number last) }
{
    text.extend_from_slice(b"\x1b[")?;
    append_number(number, text)?;
    text.extend_from_slice(&[last])
}

/// Appends what makes so many rows free below the cursor.
#[tactic(auto, unfolding(crate::specs::Above::frees_below))]
fn free_below(rows: usize, text: &mut Vec<u8>) -> Result<(), AllocError>
    ensures { OnOk result (text.new.items ≡ text.old.items ++ frees_below rows) }
{
    let freed = rows.min(MOST_FREED);
    text.extend_from_slice(&LINE_ENDS[..freed])?;
    append_control(freed, b'A', text)
}

/// Appends what moves all rows down.
#[tactic(auto, unfolding(crate::specs::Above::moves_down))]
fn move_down(rows: usize, text: &mut Vec<u8>) -> Result<(), AllocError>
    ensures { OnOk result (text.new.items ≡ text.old.items ++ moves_down rows) }
{
    text.extend_from_slice(GOES_HOME)?;
    append_control(rows, b'L', text)
}

/// Appends what makes the rows up to this one free, while those below scroll.
#[tactic(auto, unfolding(crate::specs::Above::frees_upper))]
fn free_upper(rows: usize, text: &mut Vec<u8>) -> Result<(), AllocError>
    requires { rows ≤ 100 }
    ensures { OnOk result (text.new.items ≡ text.old.items ++ frees_upper rows) }
{
    append_control(rows + 1, b'r', text)?;
    append_control(rows, b'H', text)?;
    text.extend_from_slice(WIPES)
}

/// Appends a picture that stands above, with a free row below so many.
#[tactic(auto, unfolding(crate::specs::Above::placed))]
fn append_placed(
    is_first: bool,
    rows: usize,
    picture: &[u8],
    text: &mut Vec<u8>,
) -> Result<(), AllocError>
    requires { rows ≤ 99 }
    ensures { OnOk result (text.new.items ≡ text.old.items ++ placed is_first rows picture.now) }
{
    if is_first {
        free_below(rows + 1, text)?;
    }
    text.extend_from_slice(KEEPS_CURSOR)?;
    if is_first {
        move_down(rows + 1, text)?;
    }
    free_upper(rows + 1, text)?;
    text.extend_from_slice(picture)?;
    text.extend_from_slice(PUTS_CURSOR)
}

impl Above {
    /// All rows scroll.
    pub fn new() -> Above
        ensures { result.held ≡ 0 }
    {
        Above { held: 0 }
    }

    /// Whether a board that comes may stand there, or one stands there.
    pub fn may_change(&self, settings: &Settings<'_>) -> bool {
        self.is_held() || is_wanted(settings)
    }

    /// Whether rows are kept there.
    pub fn is_held(&self) -> bool
        ensures { IsTrue result ↔ (self.now.held ≢ 0) }
    {
        self.held != 0
    }

    /// Whether the rows that are kept there leave room below.
    pub(crate) fn leaves_room(&self, settings: &Settings<'_>) -> bool
        ensures { result ≡ leaves_room self.now settings.now }
    {
        self.held <= settings.rows.saturating_sub(LEAST_BELOW)
    }

    /// What makes all rows scroll again; nothing if they do.
    #[tactic(auto, unfolding(crate::specs::Above::all_scroll))]
    pub fn give_back(&mut self) -> &'static [u8]
        ensures text { result.now ≡ given_back self.old }
        ensures held { self.new.held ≡ 0 }
    {
        if self.held == 0 {
            return b"";
        }
        self.held = 0;
        ALL_SCROLL
    }

    /// Appends what makes all rows scroll again.
    fn append_back(&mut self, text: &mut Vec<u8>) -> Result<(), AllocError>
        ensures { OnOk result (StandsNot self.old self.new text.old.items text.new.items) }
    {
        text.extend_from_slice(self.give_back())
    }

    /// How many rows are to be kept for a picture. None if the terminal has no room for them.
    fn rows_for(&self, picture: &[u8], settings: &Settings<'_>) -> Option<usize>
        ensures some { IfSome result (λ rows. (count_by is_line_end picture.now ≤ rows) × (rows ≤ 99)
            × (rows + 9 ≤ settings.now.rows) × (rows ≡ max (count_by is_line_end picture.now) self.now.held)) }
        ensures none { IfNone result (has_no_room (count_by is_line_end picture.now) self.now settings.now ≡ true) }
    {
        let rows = rows_of(picture).max(self.held);
        if rows > MOST_ABOVE || rows + LEAST_BELOW > settings.rows {
            return None;
        }
        Some(rows)
    }

    /// Has the picture of a board of the user's game stand above. False if it can't, or is not to.
    pub(crate) fn stand_game(
        &mut self,
        game: &GameBoard,
        arrivals: &Arrivals,
        page: &mut Page<'_>,
    ) -> Result<bool, AllocError>
        ensures stands { IfOk result (StandsOrNot page.old.settings false (is_plain page.old.settings && false)
            (game_of game.now) self.old self.new page.old.text.items page.new.text.items) }
        ensures settings { page.new.settings ≡ page.old.settings }
    {
        let alloc = page.alloc;
        if is_wanted(&page.settings) {
            let mut picture = Vec::new(alloc);
            append_marked(alloc, game, arrivals, &page.settings, true, &mut picture)?;
            if let Some(rows) = self.rows_for(picture.as_slice(), &page.settings) {
                append_placed(self.held == 0, rows, picture.as_slice(), &mut page.text)?;
                self.held = rows;
                return Ok(true);
            }
        }
        self.append_back(&mut page.text)?;
        Ok(false)
    }

    /// The same of a board that the user watches.
    pub(crate) fn stand_watched(
        &mut self,
        watched: &WatchedBoard,
        page: &mut Page<'_>,
    ) -> Result<bool, AllocError>
        ensures stands { IfOk result (StandsOrNot page.old.settings true false (watched_of watched.now)
            self.old self.new page.old.text.items page.new.text.items) }
        ensures settings { page.new.settings ≡ page.old.settings }
    {
        let alloc = page.alloc;
        if is_wanted(&page.settings) {
            let mut picture = Vec::new(alloc);
            append_watched(alloc, watched, &page.settings, &mut picture)?;
            if let Some(rows) = self.rows_for(picture.as_slice(), &page.settings) {
                append_placed(self.held == 0, rows, picture.as_slice(), &mut page.text)?;
                self.held = rows;
                return Ok(true);
            }
        }
        self.append_back(&mut page.text)?;
        Ok(false)
    }
}

/// Ends the text of a board that stands above, if nothing was said since this place.
pub(crate) fn end_text(start: usize, page: &mut Page<'_>) -> Result<(), AllocError> {
    if page.text.len() == start {
        page.say(NOTHING_SAID)
    } else {
        Ok(())
    }
}

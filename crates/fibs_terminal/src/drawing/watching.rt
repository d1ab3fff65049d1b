//! What a terminal shows of a game that the user watches.
ghost use Rattle.std.specs.Prelude.{◌≡◌, ◌⊎◌, ◌↔◌, ◌++◌, IfOk, IfSome, IsTrue, List, ℕ, None, OnOk, Some, false, take, true};
ghost use Rattle.std.specs.Option.{option_copied};
ghost use Rattle.fibs_fields.specs.StoredBoard.{fields_of};
ghost use Rattle.fibs_position.specs.WatchedOf.{watched_of};
ghost use Rattle.fibs_picture.specs.InWords.Rows.{Says};
ghost use Rattle.fibs_picture.specs.declared.in_words.told.Told.TheVariants as T;
ghost use Rattle.fibs_terminal.specs.Above.{StandsOrNot};
ghost use Rattle.fibs_terminal.specs.Boxes.{begun_watching, nothing_watched};
ghost use Rattle.fibs_terminal.specs.Drawings.{Draws, told_before};
ghost use Rattle.fibs_terminal.specs.OwnRows.{own_columns};
ghost use Rattle.fibs_terminal.specs.WatchedDrawings.{TellsWatched};
ghost use Rattle.fibs_terminal.specs.WatchedKept.{IsDrawnWatched, IsSamePair, SaysWatched, StaysDrawn, after_asking, drawn_watching, is_wanted, is_watched, pair_words, passed_watching, watch_words};

use crate::drawing::above::{Above, end_text};
use crate::drawing::boards::{append_dice, is_moved};
use crate::drawing::telling::told_before;
use crate::drawing::watched::append_watched;
use crate::own_rows::say_rows;
use fibs_fields::boards::Board;
use fibs_fields::boards::fields::{
    COLOUR, FIRST_DIE, OTHER_FIRST_DIE, OTHER_SECOND_DIE, SECOND_DIE, TURN, WAS_DOUBLED,
};
use fibs_picture::in_words::{Told, append_told};
use fibs_position::WatchedBoard;
use fibs_wording::environment::Page;
use std::alloc::AllocError;
use std::cell::Cell;

/// How many bytes of a name are said: with two names a row fits 79 columns.
const NAME_ROOM: usize = 22;

/// How the line begins by which the user asks to watch a game.
const WATCH: &[u8] = b"watch ";

/// A game that the user watches.
#[derive(Drop)]
pub struct Watching {
    /// The board that came last.
    heard: Option<WatchedBoard>,
    /// The board that was drawn last.
    drawn: Option<WatchedBoard>,
    /// The last one, if it was told in words, and in whose numbers.
    told: Option<Told>,
    /// Whether the user has sent `unwatch`, and the server has not answered.
    is_ending: bool,
    /// What is to be asked for.
    wanted: Wanted,
}

/// Whether a board of a game is to be asked for: once, after the user has asked to watch it.
#[derive(Clone, Copy, PartialEq, Eq)]
enum Wanted {
    /// None is.
    Nothing,
    /// One will be, if the server says that the user watches.
    IfWatched,
    /// One is.
    Board,
}

/// What is said of a name beside another one.
fn narrow_name(name: &[u8]) -> &[u8]
    ensures { result.now ≡ take 22 name.now }
{
    &name[..name.len().min(NAME_ROOM)]
}

/// Whether two boards are of the same players, seen from the same side.
fn is_same_pair(a: &Board, b: &Board) -> bool
    ensures { IsTrue result ↔ IsSamePair (fields_of a.now) (fields_of b.now) }
{
    a.player().bytes() == b.player().bytes() && a.opponent().bytes() == b.opponent().bytes()
}

impl Watching {
    /// Nothing is watched.
    pub fn new() -> Watching
        ensures { result ≡ nothing_watched }
    {
        Watching {
            heard: None,
            drawn: None,
            told: None,
            is_ending: false,
            wanted: Wanted::Nothing,
        }
    }

    /// The server says that the user watches a game: nothing of it was shown. A board of it is to be asked for, if the
    /// user has asked to watch since a board came.
    pub fn begun(&self) -> Watching
        ensures { result ≡ begun_watching self.now }
    {
        let mut begun = Watching::new();
        if self.wanted != Wanted::Nothing {
            begun.wanted = Wanted::Board;
        }
        begun
    }

    /// Whether a board is to be asked for.
    pub fn wants_board(&self) -> bool
        ensures { result ≡ is_wanted self.now.wanted }
    {
        self.wanted == Wanted::Board
    }

    /// Says here that a board is to be asked for, once, if one is.
    pub fn ask_by(&mut self, asks_board: Option<&Cell<bool>>)
        ensures { self.new ≡ record self.old { wanted = after_asking self.old.wanted } }
    {
        if self.wants_board() {
            self.wanted = Wanted::Nothing;
            if let Some(asks_board) = asks_board {
                asks_board.set(true);
            }
        }
    }

    /// The board that came last.
    pub fn board(&self) -> Option<&WatchedBoard>
        ensures { option_copied result ≡ self.now.heard }
    {
        self.heard.as_ref()
    }

    /// The user has sent a line as it is.
    pub fn hear_passed(&mut self, line: &[u8])
        ensures { self.new ≡ passed_watching line.now self.old }
    {
        if line == b"unwatch".as_slice() {
            self.is_ending = true;
        }
        if line.starts_with(WATCH) {
            self.wanted = Wanted::IfWatched;
        }
    }

    /// Whether a player is one of those who are watched.
    pub fn is_of(&self, name: &[u8]) -> bool
        ensures { result ≡ is_watched name.now self.now.heard }
    {
        match &self.heard {
            None => false,
            Some(heard) => {
                let board = heard.board();
                board.player().bytes() == name || board.opponent().bytes() == name
            }
        }
    }

    /// Shows a board: above, in a conversation, if it is to stand there. A text of the server that says the same is not
    /// said again.
    pub fn show(
        &mut self,
        watched: &WatchedBoard,
        asked: bool,
        converses: bool,
        said: &[u8],
        above: &mut Above,
        page: &mut Page<'_>,
    ) -> Result<(), AllocError>
        ensures heard { OnOk result (self.new.heard ≡ Some watched.now) }
        ensures wanted { OnOk result (self.new.wanted ≡ Wanted.Nothing) }
        ensures ending { self.new.is_ending ≡ self.old.is_ending }
        ensures asked { asked ≡ true → OnOk result (self.new.drawn ≡ Some watched.now) }
        ensures whole { IsDrawnWatched self.old.drawn (watched_of watched.now) →
            OnOk result (self.new.drawn ≡ Some watched.now) }
        // Any other one is drawn only if it stands above.
        ensures drawn { OnOk result (StaysDrawn self.old self.new ⊎ (self.new.drawn ≡ Some watched.now)) }
        ensures stays { asked ≡ false → converses ≡ false →
            (IsDrawnWatched self.old.drawn (watched_of watched.now) → ⊥) →
            OnOk result (StaysDrawn self.old self.new) }
    {
        let board = watched.board();
        let (again, is_new) = match &self.heard {
            None => (false, true),
            Some(heard) => (heard.board() == board, !is_same_pair(heard.board(), board)),
        };
        let stands = converses && above.stand_watched(watched, page)?;
        let start = page.text.len();
        if stands {
            self.note_drawn(watched);
        }
        if !stands && (asked || self.is_drawn_whole(board)) {
            self.draw(watched, asked || is_new, page)?;
        } else if !again {
            say_board(board, said, page)?;
        }
        self.heard = Some(*watched);
        self.wanted = Wanted::Nothing;
        if asked || is_new {
            self.say_hint(page)?;
        }
        if stands {
            return end_text(start, page);
        }
        Ok(())
    }

    /// Has the board that came last stand above, if it is to and can. False if none has come.
    pub fn stand(&self, above: &mut Above, page: &mut Page<'_>) -> Result<bool, AllocError>
        ensures stands { IfSome self.now.heard (λ heard. IfOk result (StandsOrNot page.old.settings true false
            (watched_of heard) above.old above.new page.old.text.items page.new.text.items)) }
        ensures settings { page.new.settings ≡ page.old.settings }
    {
        match &self.heard {
            None => Ok(false),
            Some(heard) => above.stand_watched(heard, page),
        }
    }

    /// A board was drawn.
    fn note_drawn(&mut self, watched: &WatchedBoard)
        ensures { self.new ≡ record self.old { drawn = Some watched.now; told = None } }
    {
        self.drawn = Some(*watched);
        self.told = None;
    }

    /// Tells a board in words: whole if the user has asked for it or it is of other players, else as he has it told.
    /// The next one follows it.
    pub(crate) fn tell(
        &mut self,
        watched: &WatchedBoard,
        whole: bool,
        page: &mut Page<'_>,
    ) -> Result<(), AllocError>
        ensures told { OnOk result ((t : List ℕ) × TellsWatched page.old.settings
            (told_before page.old.settings whole self.old.told) (watched_of watched.now) t
            × (page.new.text.items ≡ page.old.text.items ++ t)) }
        ensures kept { OnOk result (self.new.told ≡ Some (T.Watched watched.now page.old.settings.numbers)) }
        ensures rest { self.new ≡ record self.old { told = self.new.told } }
    {
        let told = Told::Watched(*watched, page.settings.numbers);
        let before = told_before(&page.settings, whole, self.told);
        let alloc = page.alloc;
        append_told(alloc, &before, &told, page.settings.columns, &mut page.text)?;
        self.told = Some(told);
        Ok(())
    }

    /// Draws a board, or tells it.
    fn draw(
        &mut self,
        watched: &WatchedBoard,
        whole: bool,
        page: &mut Page<'_>,
    ) -> Result<(), AllocError>
        ensures drawn { page.old.settings.words ≡ false → OnOk result ((t : List ℕ)
            × Draws page.old.settings true false (watched_of watched.now) t
            × (page.new.text.items ≡ page.old.text.items ++ t)) }
        ensures told { page.old.settings.words ≡ true → OnOk result ((t : List ℕ) × TellsWatched page.old.settings
            (told_before page.old.settings whole self.old.told) (watched_of watched.now) t
            × (page.new.text.items ≡ page.old.text.items ++ t)) }
        ensures noted { OnOk result (self.new ≡ drawn_watching page.old.settings watched.now self.old) }
        ensures rest { self.new ≡ record self.old { drawn = Some watched.now; told = self.new.told } }
    {
        if page.settings.words {
            self.drawn = Some(*watched);
            return self.tell(watched, whole, page);
        }
        self.note_drawn(watched);
        let alloc = page.alloc;
        append_watched(alloc, watched, &page.settings, &mut page.text)
    }

    /// Whether a board is drawn whole: a checker has moved, or the players are others.
    fn is_drawn_whole(&self, board: &Board) -> bool
        ensures { IsTrue result ↔ IsDrawnWatched self.now.drawn (fields_of board.now) }
    {
        match &self.drawn {
            None => true,
            Some(drawn) => is_moved(drawn.board(), board) || !is_same_pair(drawn.board(), board),
        }
    }

    /// Says whom the user watches, and what ends it; nothing if he watches nobody, or has ended it.
    pub fn say_hint(&self, page: &mut Page<'_>) -> Result<(), AllocError>
        ensures { OnOk result (SaysWatched page.old.settings self.now.heard self.now.is_ending
            page.old.text.items page.new.text.items) }
    {
        match &self.heard {
            Some(heard) if !self.is_ending => say_watched(heard.board(), page),
            _ => Ok(()),
        }
    }
}

/// Appends the players of a board.
fn append_pair(board: &Board, row: &mut Vec<u8>) -> Result<(), AllocError>
    ensures { OnOk result (row.new.items ≡ row.old.items ++ pair_words (fields_of board.now)) }
{
    row.extend_from_slice(narrow_name(board.player().bytes()))?;
    row.extend_from_slice(b" and ")?;
    row.extend_from_slice(narrow_name(board.opponent().bytes()))
}

/// Appends whom the user watches by a board, and what ends it.
fn append_watch(board: &Board, row: &mut Vec<u8>) -> Result<(), AllocError>
    ensures { OnOk result (row.new.items ≡ row.old.items ++ watch_words (fields_of board.now)) }
{
    row.extend_from_slice(b"You watch ")?;
    append_pair(board, row)?;
    row.extend_from_slice(b": unwatch ends it.\n")
}

/// Says it.
fn say_watched(board: &Board, page: &mut Page<'_>) -> Result<(), AllocError>
    ensures { OnOk result (Says (own_columns page.old.settings) (watch_words (fields_of board.now))
        page.old.text.items page.new.text.items) }
{
    let alloc = page.alloc;
    let mut row = Vec::new(alloc);
    append_watch(board, &mut row)?;
    say_rows(row.as_slice(), page)
}

/// Says in a row what a board is that is not drawn, if the server's last text does not say it.
fn say_board(board: &Board, said: &[u8], page: &mut Page<'_>) -> Result<(), AllocError> {
    let alloc = page.alloc;
    let mut row = Vec::new(alloc);
    append_state(board, &mut row)?;
    if row.as_slice() == said {
        return Ok(());
    }
    say_rows(row.as_slice(), page)
}

/// Appends in a row what a board is: the dice that are shown, else who is to act.
fn append_state(board: &Board, row: &mut Vec<u8>) -> Result<(), AllocError> {
    let player = narrow_name(board.player().bytes());
    let opponent = narrow_name(board.opponent().bytes());
    if board.field(TURN) == 0 {
        return row.extend_from_slice(b"The game is over.");
    }
    if board.field(WAS_DOUBLED) == 1 {
        row.extend_from_slice(opponent)?;
        return row.extend_from_slice(b" doubles.");
    }
    if board.die(FIRST_DIE) != 0 {
        return append_roll(player, board.die(FIRST_DIE), board.die(SECOND_DIE), row);
    }
    if board.die(OTHER_FIRST_DIE) != 0 {
        let second = board.die(OTHER_SECOND_DIE);
        return append_roll(opponent, board.die(OTHER_FIRST_DIE), second, row);
    }
    let is_players = board.field(TURN) == board.field(COLOUR);
    row.extend_from_slice(if is_players { player } else { opponent })?;
    row.extend_from_slice(b"'s turn.")
}

/// Appends what a player rolls.
fn append_roll(name: &[u8], first: u8, second: u8, row: &mut Vec<u8>) -> Result<(), AllocError> {
    row.extend_from_slice(name)?;
    row.extend_from_slice(b" rolls ")?;
    append_dice(first, second, row)
}

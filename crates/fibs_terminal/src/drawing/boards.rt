//! The boards of a terminal, and what it shows of one that comes.
ghost use Rattle.std.specs.Prelude.{◌≡◌, ◌&&◌, ◌⊎◌, ◌↔◌, ◌++◌, false, not, true, IfOk, IfSome, IsTrue, List, ℕ, None, OnOk, Option, Some};
ghost use Rattle.fibs_terminal.specs.Tellings.{has_told};
ghost use Rattle.fibs_fields.specs.StoredBoard.{fields_of};
ghost use Rattle.fibs_position.specs.GameOf.{game_of};
ghost use Rattle.fibs_position.specs.Phases.{phase_of};
ghost use Rattle.fibs_picture.specs.declared.in_words.told.Told.TheVariants as T;
ghost use Rattle.fibs_terminal.specs.Above.{StandsOrNot};
ghost use Rattle.fibs_terminal.specs.BoardsKept.{DrawnOrNot, IsBefore, IsDrawn, IsDrawnWhole, SameCheckers, has_moved, is_deciding, is_over, phase_heard, told_of};
ghost use Rattle.fibs_terminal.specs.Drawings.{Draws, is_plain, TellsBoard, told_before};
ghost use Rattle.fibs_terminal.specs.Leaving.{shows_end};
ghost use Rattle.fibs_terminal.specs.Tables.{no_boards, none_drawn};
ghost use Rattle.fibs_terminal.specs.WatchedKept.{SamePlaces};

use crate::drawing::above::{Above, end_text};
use crate::drawing::ending::Ending;
use crate::drawing::outcomes::{append_outcome, ending_of};
use crate::drawing::picture::{append_marked, arrivals_since};
use crate::drawing::telling::told_before;
use crate::own_rows::say_rows;
use fibs_advice::match_state::is_match_over;
use fibs_advice::situation::is_same;
use fibs_fields::boards::Board;
use fibs_fields::boards::fields::{
    FIRST_DIE, FIRST_PLACE, LAST_PLACE, OTHER_FIRST_DIE, OTHER_OFF, OTHER_SECOND_DIE, OWN_OFF,
    SECOND_DIE,
};
use fibs_picture::in_words::{Told, append_told};
use fibs_picture::{Arrivals, NO_ARRIVALS};
use fibs_position::{GameBoard, Phase};
use fibs_wording::environment::Page;
use fibs_wording::environment::pieces::{append_all, short_name};
use itoa::Buffer;
use std::alloc::{AllocError, Global};

/// The boards of a game that were drawn.
#[derive(Clone, Copy)]
struct Drawn {
    /// The last of them.
    last: Option<GameBoard>,
    /// The one before it, or before that one if no checker has moved.
    before: Option<GameBoard>,
    /// The last one, if it was told in words, and in whose numbers.
    told: Option<Told>,
}

impl Drawn {
    /// None was drawn.
    fn new() -> Drawn
        ensures { result ≡ none_drawn }
    {
        Drawn {
            last: None,
            before: None,
            told: None,
        }
    }

    /// The board that was drawn before this one, or before that one if no checker has moved.
    fn before(&self, game: &GameBoard) -> Option<GameBoard>
        ensures same { IfSome self.now.last (λ last. SameCheckers (game_of last) (game_of game.now) →
            result ≡ self.now.before) }
        ensures first { self.now.last ≡ None → result ≡ self.now.before }
        ensures before { IsBefore self.now (game_of game.now) result }
    {
        match &self.last {
            Some(last) if is_played(last, game) => Some(*last),
            _ => self.before,
        }
    }

    /// The same, and this one was drawn.
    fn with(&self, game: &GameBoard) -> Drawn
        ensures last { result.last ≡ Some game.now }
        ensures told { result.told ≡ None }
        ensures drawn { IsDrawn self.now result game.now None }
    {
        Drawn {
            last: Some(*game),
            before: self.before(game),
            told: None,
        }
    }
}

/// The boards that have come.
#[derive(Drop)]
pub struct Boards {
    /// The boards of this game that were drawn.
    drawn: Drawn,
    /// The board that came last.
    heard: Option<GameBoard>,
    /// How the game has ended, if a row has told it, and no board has come since.
    ending: Option<Ending>,
    /// The board after the move that was sent last, if it was shown before the server has shown one.
    ahead: Option<GameBoard>,
}

/// Whether a checker is elsewhere on another board, or the other board is of another opponent.
pub(crate) fn is_moved(a: &Board, b: &Board) -> bool
    ensures moved { IsTrue result → SamePlaces (fields_of a.now) (fields_of b.now) → ⊥ }
    ensures same { result ≡ false → SamePlaces (fields_of a.now) (fields_of b.now) }
{
    for number in FIRST_PLACE..LAST_PLACE + 1 {
        if a.field(number) != b.field(number) {
            return true;
        }
    }
    if a.field(OWN_OFF) != b.field(OWN_OFF) {
        return true;
    }
    if a.field(OTHER_OFF) != b.field(OTHER_OFF) {
        return true;
    }
    !is_same(a.opponent().bytes(), b.opponent().bytes())
}

/// The same of boards of the user's game. Servers may have a bar beside the places or not: it follows from the others.
fn is_played(a: &GameBoard, b: &GameBoard) -> bool
    ensures moved { IsTrue result → SameCheckers (game_of a.now) (game_of b.now) → ⊥ }
    ensures same { result ≡ false → SameCheckers (game_of a.now) (game_of b.now) }
{
    let (one, other) = (a.position(), b.position());
    for place in 1..25u8 {
        if one.own(place) != other.own(place) || one.other(place) != other.other(place) {
            return true;
        }
    }
    if a.board().field(OWN_OFF) != b.board().field(OWN_OFF) {
        return true;
    }
    if a.board().field(OTHER_OFF) != b.board().field(OTHER_OFF) {
        return true;
    }
    !is_same(a.board().opponent().bytes(), b.board().opponent().bytes())
}

/// Whether the player decides in a phase.
fn is_deciding(phase: Phase) -> bool
    ensures { result ≡ is_deciding phase }
{
    matches!(
        phase,
        Phase::AnswerDouble | Phase::RollOrDouble | Phase::Move
    )
}

impl Boards {
    /// None has come.
    pub fn new() -> Boards
        ensures { result ≡ no_boards }
    {
        Boards {
            drawn: Drawn::new(),
            heard: None,
            ending: None,
            ahead: None,
        }
    }

    /// A game begins, or is resumed: its first board is drawn.
    pub fn begin_game(&mut self)
        ensures { self.new ≡ record self.old { drawn = none_drawn; ending = None } }
    {
        self.drawn = Drawn::new();
        self.ending = None;
    }

    /// Whether a text of the server says no more than the row did that has told how the game has ended.
    ///
    /// Errors: if memory runs out.
    pub fn has_told(&self, alloc: Global, said: &[u8]) -> Result<bool, AllocError>
        ensures { IfOk result (λ told. IsTrue told → has_told self.now said.now) }
    {
        match (&self.ending, &self.heard) {
            (Some(ending), Some(heard)) => {
                ending.tells(alloc, heard.board().opponent().bytes(), said)
            }
            _ => Ok(false),
        }
    }

    /// The board that came last, if it is of a match with this opponent.
    pub fn last_with(&self, opponent: &[u8]) -> Option<&Board>
        ensures { IfSome result (λ board. (fields_of board.now).opponent ≡ opponent.now) }
    {
        let board = self.heard.as_ref()?.board();
        if is_same(board.opponent().bytes(), opponent) {
            Some(board)
        } else {
            None
        }
    }

    /// Whether the match is over by the board that came last.
    pub fn show_end(&self) -> bool
        ensures { result ≡ shows_end self.now.heard }
    {
        match &self.heard {
            None => false,
            Some(heard) => is_match_over(heard.board()),
        }
    }

    /// The phase of the board that came last.
    pub fn phase(&self) -> Option<Phase>
        ensures { result ≡ phase_heard self.now.heard }
    {
        match &self.heard {
            None => None,
            Some(heard) => Some(heard.phase()),
        }
    }

    /// Shows a board of the user's game, for which he may have asked. A text of the server that says the same is not
    /// said again. True if words have told by it what is to be done, to a user who wants to hear nothing twice: the
    /// board was told, or his roll was.
    pub fn show(
        &mut self,
        game: &GameBoard,
        asked: bool,
        is_above: bool,
        said: &[u8],
        above: &mut Above,
        page: &mut Page<'_>,
    ) -> Result<bool, AllocError>
        ensures hears_once { IfOk result (λ told. IsTrue told →
            (page.old.settings.words && page.old.settings.is_short) ≡ true) }
        ensures heard { IfOk result (λ told. self.new.heard ≡ Some game.now) }
        // A board that was asked for is drawn, above or below.
        ensures asked { asked ≡ true → IfOk result (λ told. self.new.drawn.last ≡ Some game.now) }
    {
        let hears_once = page.settings.words && page.settings.is_short;
        let phase = game.phase();
        let (again, was_his) = match &self.heard {
            None => (false, false),
            Some(heard) => (
                heard.board() == game.board(),
                heard.phase() == Phase::OpponentActs,
            ),
        };
        if was_his && is_deciding(phase) {
            page.ring()?;
        }
        if !again {
            self.ahead = None;
        }
        let stands = is_above
            && above.may_change(&page.settings)
            && above.stand_game(game, &self.arrivals_at(game), page)?;
        if !stands {
            let is_whole = self.show_below(game, asked, is_above, again, said, page)?;
            self.keep(game, again, page)?;
            return Ok(hears_once && (is_whole || (phase == Phase::Move && !again)));
        }
        let start = page.text.len();
        if !again {
            say_board(game.board(), phase, said, page)?;
        }
        self.drawn = self.drawn.with(game);
        self.keep(game, again, page)?;
        end_text(start, page)?;
        Ok(false)
    }

    /// Draws a board if it is to be drawn, and says in a row what it is if that is not seen at once. True if it is
    /// drawn.
    fn show_below(
        &mut self,
        game: &GameBoard,
        asked: bool,
        is_above: bool,
        again: bool,
        said: &[u8],
        page: &mut Page<'_>,
    ) -> Result<bool, AllocError>
        ensures whole { IfOk result (λ whole. IsTrue whole ↔ ((asked ≡ true)
            ⊎ IsDrawnWhole self.old.drawn.last (game_of game.now) (is_above && (not page.old.settings.words
            && has_moved self.old.heard (phase_of (game_of game.now)))))) }
        ensures drawn { IfOk result (λ whole. DrawnOrNot whole self.old.drawn self.new.drawn game.now
            (told_of page.old.settings game.now)) }
        ensures rest { self.new ≡ record self.old { drawn = self.new.drawn } }
        ensures quiet { again ≡ true → IfOk result (λ whole. whole ≡ false →
            page.new.text.items ≡ page.old.text.items) }
    {
        let phase = game.phase();
        let has_moved = is_above && !page.settings.words && self.has_moved(phase);
        let is_whole = asked || self.is_drawn_whole(game, has_moved);
        if is_whole {
            self.draw(game, asked, is_above, page)?;
        }
        if !again && (!is_whole || has_moved) {
            say_board(game.board(), phase, said, page)?;
        }
        Ok(is_whole)
    }

    /// Keeps the board that has come last. If it is the first that shows the end of the game, the outcome is said.
    fn keep(&mut self, game: &GameBoard, again: bool, page: &mut Page<'_>) -> Result<(), AllocError>
        ensures heard { OnOk result (self.new.heard ≡ Some game.now) }
        ensures rest { self.new ≡ record self.old { heard = self.new.heard; ending = self.new.ending } }
        ensures again { again ≡ true → (self.new.ending ≡ self.old.ending)
            × (page.new.text.items ≡ page.old.text.items) }
        ensures goes_on { again ≡ false → is_over (phase_of (game_of game.now)) ≡ false →
            (self.new.ending ≡ None) × (page.new.text.items ≡ page.old.text.items) }
    {
        if !again {
            self.ending = None;
            if game.phase() == Phase::Over {
                self.say_outcome(game.board(), page)?;
            }
        }
        self.heard = Some(*game);
        Ok(())
    }

    /// Has the board that came last stand above, if it is to and can. False if none has come.
    pub(crate) fn stand(&self, above: &mut Above, page: &mut Page<'_>) -> Result<bool, AllocError>
        ensures stands { IfSome self.now.heard (λ heard. IfOk result (StandsOrNot page.old.settings false
            (is_plain page.old.settings && false) (game_of heard) above.old above.new
            page.old.text.items page.new.text.items)) }
        ensures settings { page.new.settings ≡ page.old.settings }
    {
        match &self.heard {
            None => Ok(false),
            Some(heard) => above.stand_game(heard, &self.arrivals_at(heard), page),
        }
    }

    /// Whether a board of this phase shows the user's own move.
    fn has_moved(&self, phase: Phase) -> bool
        ensures { result ≡ has_moved self.now.heard phase }
    {
        phase == Phase::OpponentActs && self.phase() == Some(Phase::Move)
    }

    /// Whether a board is drawn whole though the user has not asked for it: a checker has moved, and there is something
    /// to decide, or the user has moved it, or the game is over.
    fn is_drawn_whole(&self, game: &GameBoard, has_moved: bool) -> bool
        ensures first { self.now.drawn.last ≡ None → result ≡ true }
        ensures same { IfSome self.now.drawn.last (λ last. SameCheckers (game_of last) (game_of game.now) →
            result ≡ false) }
        ensures whole { IsTrue result ↔ IsDrawnWhole self.now.drawn.last (game_of game.now) has_moved }
    {
        let Some(drawn) = &self.drawn.last else {
            return true;
        };
        let phase = game.phase();
        let calls = is_deciding(phase) || has_moved || phase == Phase::Over;
        calls && is_played(drawn, game)
    }

    /// Where the opponent has moved to on a board, since the board that was drawn before it.
    fn arrivals_at(&self, game: &GameBoard) -> Arrivals {
        match &self.drawn.before(game) {
            Some(before) => arrivals_since(before, game),
            None => NO_ARRIVALS,
        }
    }

    /// Whether the board after the move that was sent was shown before, and no other one has come.
    pub(crate) fn is_shown_ahead(&self, after: &GameBoard) -> bool {
        match &self.ahead {
            None => false,
            Some(ahead) => ahead.board() == after.board(),
        }
    }

    /// Takes note that this board was shown before the server has shown it: drawn, if boards are not told in words.
    pub(crate) fn note_ahead(&mut self, after: &GameBoard, words: bool)
        ensures ahead { self.new.ahead ≡ Some after.now }
        ensures told { words ≡ true → self.new.drawn ≡ self.old.drawn }
        ensures drawn { words ≡ false → self.new.drawn.last ≡ Some after.now }
        ensures heard { self.new.heard ≡ self.old.heard }
        ensures ending { self.new.ending ≡ self.old.ending }
    {
        self.ahead = Some(*after);
        if !words {
            self.drawn = self.drawn.with(after);
        }
    }

    /// Tells a board in words: whole if the user has asked for it, else as he has it told. The next one follows it.
    pub(crate) fn tell(
        &mut self,
        game: &GameBoard,
        asked: bool,
        page: &mut Page<'_>,
    ) -> Result<(), AllocError>
        ensures told { OnOk result ((t : List ℕ) × TellsBoard page.old.settings
            (told_before page.old.settings asked self.old.drawn.told) (game_of game.now) t
            × (page.new.text.items ≡ page.old.text.items ++ t)) }
        ensures kept { OnOk result
            (self.new.drawn.told ≡ Some (T.Game game.now page.old.settings.numbers)) }
        ensures rest { self.new ≡ record self.old { drawn = record self.old.drawn { told = self.new.drawn.told } } }
    {
        let told = Told::Game(*game, page.settings.numbers);
        let before = told_before(&page.settings, asked, self.drawn.told);
        let alloc = page.alloc;
        append_told(alloc, &before, &told, page.settings.columns, &mut page.text)?;
        self.drawn.told = Some(told);
        Ok(())
    }

    /// Draws a board, and where the opponent has moved to since the board that was drawn before it, or tells it.
    fn draw(
        &mut self,
        game: &GameBoard,
        asked: bool,
        is_above: bool,
        page: &mut Page<'_>,
    ) -> Result<(), AllocError>
        ensures drawn { page.old.settings.words ≡ false → OnOk result ((t : List ℕ)
            × Draws page.old.settings false (is_plain page.old.settings && not is_above) (game_of game.now) t
            × (page.new.text.items ≡ page.old.text.items ++ t)) }
        ensures told { page.old.settings.words ≡ true → OnOk result ((t : List ℕ) × TellsBoard page.old.settings
            (told_before page.old.settings asked self.old.drawn.told) (game_of game.now) t
            × (page.new.text.items ≡ page.old.text.items ++ t)) }
        ensures noted { OnOk result (IsDrawn self.old.drawn self.new.drawn game.now
            (told_of page.old.settings game.now)) }
        ensures rest { self.new ≡ record self.old { drawn = self.new.drawn } }
    {
        if let Some(drawn) = &self.drawn.last {
            if is_played(drawn, game) {
                self.drawn.before = Some(*drawn);
            }
        }
        self.drawn.last = Some(*game);
        if page.settings.words {
            return self.tell(game, asked, page);
        }
        self.drawn.told = None;
        let arrivals = match &self.drawn.before {
            Some(before) => arrivals_since(before, game),
            None => NO_ARRIVALS,
        };
        let alloc = page.alloc;
        append_marked(
            alloc,
            game,
            &arrivals,
            &page.settings,
            is_above,
            &mut page.text,
        )
    }

    /// Says how a game ended, by the board of its end.
    fn say_outcome(&mut self, board: &Board, page: &mut Page<'_>) -> Result<(), AllocError>
        ensures { self.new ≡ record self.old { ending = self.new.ending } }
    {
        let before = match &self.heard {
            None => None,
            Some(before) => Some(before.board()),
        };
        let alloc = page.alloc;
        let mut row = Vec::new(alloc);
        append_outcome(before, board, &mut row)?;
        self.ending = ending_of(before, board);
        say_rows(row.as_slice(), page)
    }
}

/// Says in a row what a board is that is not drawn, if the server's last text does not say it.
fn say_board(
    board: &Board,
    phase: Phase,
    said: &[u8],
    page: &mut Page<'_>,
) -> Result<(), AllocError> {
    let alloc = page.alloc;
    let mut row = Vec::new(alloc);
    append_board(board, phase, &mut row)?;
    if row.is_empty() || row.as_slice() == said {
        return Ok(());
    }
    say_rows(row.as_slice(), page)
}

/// Appends in a row what a board is that is not drawn.
fn append_board(board: &Board, phase: Phase, row: &mut Vec<u8>) -> Result<(), AllocError> {
    match phase {
        Phase::Move => {
            row.extend_from_slice(b"You roll ")?;
            append_dice(board.die(FIRST_DIE), board.die(SECOND_DIE), row)
        }
        Phase::Passing => row.extend_from_slice(b"You can't move: the server passes for you."),
        Phase::OpponentActs => append_opponents_turn(board, row),
        Phase::RollOrDouble | Phase::AnswerDouble | Phase::Over => Ok(()),
    }
}

/// Appends that the opponent has the turn, and his dice, if they are shown.
fn append_opponents_turn(board: &Board, row: &mut Vec<u8>) -> Result<(), AllocError> {
    row.extend_from_slice(short_name(board.opponent().bytes()))?;
    if board.die(OTHER_FIRST_DIE) == 0 {
        return row.extend_from_slice(b"'s turn.");
    }
    row.extend_from_slice(b" rolls ")?;
    append_dice(board.die(OTHER_FIRST_DIE), board.die(OTHER_SECOND_DIE), row)
}

/// Appends two dice.
pub(crate) fn append_dice(first: u8, second: u8, row: &mut Vec<u8>) -> Result<(), AllocError> {
    let mut one = Buffer::new();
    let mut other = Buffer::new();
    append_all(
        &[
            one.format(first).as_bytes(),
            b" and ",
            other.format(second).as_bytes(),
            b".",
        ],
        row,
    )
}

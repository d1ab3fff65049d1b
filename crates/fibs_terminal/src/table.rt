//! The match that is on the table, as its boards show it: which were drawn, the game so far, the title that tells it.
ghost use Rattle.std.specs.Prelude.{◌≡◌, ◌≢◌, OnOk, [], None, false};
ghost use Rattle.fibs_position.specs.GameOf.{game_of};
ghost use Rattle.fibs_picture.specs.InWords.Titles.{title};
ghost use Rattle.fibs_terminal.specs.Tables.{IsAnotherTable, IsNewStory, IsNewTable, kept_table, none_drawn};

use crate::drawing::Boards;
use crate::leaving::Leave;
use crate::story::Story;
use fibs_advice::situation::{KeptName, is_same, kept_name, nobody};
use fibs_picture::in_words::write_title;
use fibs_position::GameBoard;
use std::alloc::{AllocError, Global};
use std::mem;

/// A match with an opponent.
#[derive(Drop)]
pub struct Table {
    /// With whom; empty if that is not known.
    pub(crate) opponent: KeptName,
    /// Its boards.
    pub boards: Boards,
    /// The game so far.
    pub story: Story,
    /// What the window's title tells of the game; empty if none is on the table.
    pub title: Vec<u8>,
    /// By which word the user would leave it, if he was asked by the last line whether he does.
    pub leave: Option<Leave>,
}

/// What outlives a connection: the game so far is of a match that may be resumed.
#[derive(Drop)]
pub struct KeptTable {
    pub(crate) opponent: KeptName,
    pub(crate) story: Story,
}

impl Table {
    /// No match was on it.
    pub fn new(alloc: Global) -> Table
        ensures { IsAnotherTable result }
    {
        Table::of(alloc, nobody(), Story::new(alloc))
    }

    /// One of whose match this is known, and no board has come.
    fn of(alloc: Global, opponent: KeptName, story: Story) -> Table
        ensures opponent { result.opponent ≡ opponent }
        ensures story { result.story ≡ story }
        ensures fresh { IsNewTable (kept_table result) result }
    {
        Table {
            opponent,
            boards: Boards::new(),
            story,
            title: Vec::new(alloc),
            leave: None,
        }
    }

    /// On a connection after another one, of which this is kept.
    pub fn after(alloc: Global, kept: KeptTable) -> Table
        ensures { IsNewTable kept result }
    {
        Table::of(alloc, kept.opponent, kept.story)
    }

    /// What outlives the connection.
    pub fn close(&mut self, alloc: Global) -> KeptTable
        ensures { result ≡ kept_table self.old }
    {
        KeptTable {
            opponent: mem::replace(&mut self.opponent, nobody()),
            story: mem::replace(&mut self.story, Story::new(alloc)),
        }
    }

    /// The opponent is known by his name. With another one it is another match: nothing is left of the one before.
    pub fn meet(&mut self, alloc: Global, name: &[u8])
        ensures same { self.old.opponent.items ≡ name.now → self.new ≡ self.old }
        ensures another { self.old.opponent.items ≢ name.now → IsAnotherTable self.new }
    {
        if !is_same(self.opponent.as_slice(), name) {
            *self = Table::of(alloc, kept_name(name), Story::new(alloc));
        }
    }

    /// Takes note of what the title tells of a board.
    pub fn hear_title(&mut self, game: &GameBoard) -> Result<(), AllocError>
        ensures { OnOk result (self.new.title.items ≡ title (game_of game.now)) }
    {
        self.title.clear();
        write_title(game, &mut self.title).map_err(|_| AllocError)
    }

    /// A game begins, or is resumed: none of its boards was drawn. One that is resumed goes on with what is known of
    /// it.
    pub fn begin_game(&mut self, alloc: Global, is_resumed: bool)
        ensures opponent { self.new.opponent ≡ self.old.opponent }
        ensures boards { self.new.boards ≡ record self.old.boards { drawn = none_drawn; ending = None } }
        ensures next { is_resumed ≡ false → IsNewStory self.new.story }
        ensures none { IsNewStory self.old.story → IsNewStory self.new.story }
        ensures leave { self.new.leave ≡ None }
    {
        self.leave = None;
        self.boards.begin_game();
        if !is_resumed {
            self.story = Story::new(alloc);
        }
    }

    /// The match is no longer on the table. The board that came last still tells how its game ended.
    pub fn clear(&mut self, alloc: Global)
        ensures title { self.new.title.items ≡ [] }
        ensures leave { self.new.leave ≡ None }
        ensures kept { self.new ≡ record self.old { title = self.new.title; leave = None } }
    {
        self.leave = None;
        self.title = Vec::new(alloc);
    }
}

//! What a terminal remembers: only what the client does not know. Each part is in the box of what it is of; when that
//! ends its box is replaced by a new one, and what outlives it is moved out by name.
ghost use Rattle.std.specs.Prelude.{◌≡◌, ◌≢◌, false};
ghost use Rattle.fibs_terminal.specs.Boxes.{IsFresh, IsNewConnection, kept_of, nothing_watched};
ghost use Rattle.fibs_terminal.specs.Tables.{IsNewStory, no_boards, none_drawn};

use crate::account::Account;
use crate::company::Company;
use crate::drawing::{Above, Watching};
use crate::fixing::Fixing;
use crate::listening::Greeting;
use crate::looking::Looking;
use crate::people::{List, People};
use crate::reconnecting::Reconnecting;
use crate::rematch::Rematch;
use crate::resting::Advising;
use crate::results::Results;
use crate::table::{KeptTable, Table};
use crate::talk::Talk;
use crate::title::Title;
use crate::toggles::Toggles;
use fibs_advice::passing::Passing;
use fibs_advice::situation::{Kept as KeptSituation, Situation};
use fibs_position::Direction;
use std::alloc::Global;
use std::mem;
use std::time::Duration;

/// What is remembered.
#[derive(Drop)]
pub struct Memory {
    /// As long as the program runs.
    pub program: Program,
    /// As long as a connection lasts.
    pub here: Connection,
}

/// What is remembered as long as the program runs.
#[derive(Drop)]
pub struct Program {
    /// Whose words are hidden.
    pub people: People,
    /// What people said.
    pub talk: Talk,
    /// Who the user is, and which of his matches are saved.
    pub account: Account,
    /// What his matches have changed.
    pub results: Results,
    /// Whether a connection that has ended is opened again.
    pub reconnecting: Reconnecting,
    /// How what the server plays by itself is turned off.
    pub fixing: Fixing,
    /// The title of the window.
    pub title: Title,
    /// The upper rows, in which the newest board stands.
    pub above: Above,
    /// Whether a connection was made: then what can be done is said below each board.
    pub converses: bool,
}

/// What is remembered as long as a connection lasts.
#[derive(Drop)]
pub struct Connection {
    /// What the user waits for: with it the opponent, the game and the turn.
    pub situation: Situation,
    /// What was advised, and whether it is said again.
    pub advising: Advising,
    /// The match, as its boards show it.
    pub table: Table,
    /// The game that the user watches.
    pub watching: Watching,
    /// What the user looks at before he decides.
    pub looking: Looking,
    /// Who is listed.
    pub company: Company,
    /// The list of players that is coming.
    pub list: List,
    /// What of the login has not come.
    pub greeting: Greeting,
    /// What the server plays for the user by itself.
    pub toggles: Toggles,
    /// Whether the user was asked on it if he begins a match in which the server plays for him.
    pub is_warned: bool,
    /// When the connection was made.
    pub opened: Duration,
    /// The text of the server that was shown last, until a board comes.
    pub said: Vec<u8>,
    /// Which rule the move breaks that was typed last, until the next line is typed.
    pub rule: Vec<u8>,
    /// How the decision goes to the server that was typed last, until the next line is typed.
    pub passing: Passing,
    /// Which way the user goes by the server's numbers on the board of his own game that came last: the client reads
    /// what he types on that board, also if a match with somebody else has begun since.
    pub direction: Option<Direction>,
    /// Whether the last line that was sent asks for the moves of a game.
    pub lists_moves: bool,
    /// The match that has ended, of which is said how another one is played.
    pub rematch: Option<Rematch>,
}

/// What outlives a connection: of the match that may have been saved, and of the game in it.
#[derive(Drop)]
pub struct Kept {
    /// The opponent, and the offer that was open.
    situation: KeptSituation,
    /// The game so far.
    table: KeptTable,
    /// The move that was tried: it is sent only on the board on which that was done.
    looking: Looking,
}

impl Memory {
    /// Nothing was shown.
    pub fn new(alloc: Global) -> Memory {
        Memory {
            program: Program::new(alloc),
            here: Connection::of(
                alloc,
                Situation::new(),
                Table::new(alloc),
                Looking::new(),
                Duration::from_secs(0),
            ),
        }
    }

    /// A connection begins, or has ended, at a time: of the one before only this is kept.
    pub fn change_connection(&mut self, alloc: Global, at: Duration)
        ensures here { IsNewConnection (kept_of self.old.here) at self.new.here }
        ensures program { self.new.program ≡ self.old.program }
    {
        let kept = self.here.close(alloc);
        self.here = Connection::after(alloc, kept, at);
    }
}

impl Program {
    /// Nothing was shown.
    fn new(alloc: Global) -> Program {
        Program {
            people: People::new(alloc),
            talk: Talk::new(alloc),
            account: Account::new(alloc),
            results: Results::new(),
            reconnecting: Reconnecting::new(),
            fixing: Fixing::new(),
            title: Title::new(alloc),
            above: Above::new(),
            converses: false,
        }
    }
}

impl Connection {
    /// One that was made at a time, after another one of which this is kept.
    fn after(alloc: Global, kept: Kept, at: Duration) -> Connection
        ensures { IsNewConnection kept at result }
    {
        Connection::of(
            alloc,
            Situation::opened(kept.situation),
            Table::after(alloc, kept.table),
            kept.looking,
            at,
        )
    }

    /// One on which nothing was shown.
    fn of(
        alloc: Global,
        situation: Situation,
        table: Table,
        looking: Looking,
        opened: Duration,
    ) -> Connection
        ensures situation { result.situation ≡ situation }
        ensures table { result.table ≡ table }
        ensures looking { result.looking ≡ looking }
        ensures opened { result.opened ≡ opened }
        ensures fresh { IsFresh result }
    {
        Connection {
            situation,
            advising: Advising::new(alloc),
            table,
            watching: Watching::new(),
            looking,
            company: Company::new(alloc),
            list: List::new(alloc),
            greeting: Greeting::new(),
            toggles: Toggles::new(),
            is_warned: false,
            opened,
            said: Vec::new(alloc),
            rule: Vec::new(alloc),
            passing: Passing::Asks,
            direction: None,
            lists_moves: false,
            rematch: None,
        }
    }

    /// A game begins, or is resumed: no other one is watched.
    pub fn begin_game(&mut self, alloc: Global, is_resumed: bool)
        ensures watching { self.new.watching ≡ nothing_watched }
        ensures drawn { self.new.table.boards.drawn ≡ none_drawn }
        ensures story { is_resumed ≡ false → IsNewStory self.new.table.story }
        ensures another { self.old.table.opponent.items ≢ self.old.situation.opponent.name.items →
            self.new.table.boards ≡ no_boards × IsNewStory self.new.table.story }
        ensures leave { self.new.table.leave ≡ None }
        ensures kept { self.new ≡ record self.old { table = self.new.table; watching = nothing_watched } }
    {
        self.table
            .meet(alloc, self.situation.opponent.name.as_slice());
        self.table.begin_game(alloc, is_resumed);
        self.watching = Watching::new();
    }

    /// What outlives it.
    fn close(&mut self, alloc: Global) -> Kept
        ensures { result ≡ kept_of self.old }
    {
        Kept {
            situation: self.situation.close(),
            table: self.table.close(alloc),
            looking: mem::replace(&mut self.looking, Looking::new()).kept(),
        }
    }
}

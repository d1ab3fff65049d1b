//! The turns of a game, as far as boards show them.
ghost use Rattle.std.specs.Prelude.{◌≡◌, [], IfNone, IfOk, IfSome, OnOk, Some, false, true, option_map};
ghost use Rattle.fibs_position.specs.DirectionOf.{direction_of};
ghost use Rattle.fibs_position.specs.GameOf.{game_of};
ghost use Rattle.fibs_terminal.specs.HitsTold.{TellsHits, has_told, tells_hits};
ghost use Rattle.fibs_terminal.specs.StoryKept.{KeepsTurn, way_of};
ghost use Rattle.fibs_terminal.specs.Tables.{IsNewStory};
ghost use Rattle.fibs_terminal.specs.Turns.{begins_anew};

mod hits;
mod turn;

pub use crate::story::hits::ToldHits;
use crate::story::hits::append_hits_since;
use crate::story::turn::{PlayedTurn, begins_anew, turn_of};
use fibs_advice::hits::Roller;
use fibs_commands::decision_text;
use fibs_events::finding::played;
use fibs_fields::boards::fields::{FIRST_DIE, SECOND_DIE};
use fibs_fields::decimal::append_number;
use fibs_position::{Decision, Direction, GameBoard, Numbers, Play, differs};
use itoa::Buffer;
use std::alloc::{AllocError, Global};

/// How many turns are kept: no game of people is longer.
const MOST_KEPT: usize = 500;

/// How many turns are listed, unless all are asked for.
const MOST_LISTED: usize = 20;

/// The columns of a number.
const NUMBER_COLUMNS: usize = 3;

/// How many bytes of the opponent's name are told.
const MOST_NAMED: usize = 24;

/// How many bytes of a move's command come before its steps: `move`.
const MOVE_WORD: usize = 4;

/// The turns of a game that boards have shown, the oldest first.
#[derive(Drop)]
pub struct Story {
    turns: Vec<PlayedTurn>,
    /// How many turns were forgotten, since there were too many.
    forgotten: usize,
    /// The board that came last.
    last: Option<GameBoard>,
}

impl Story {
    /// No board has come.
    pub fn new(alloc: Global) -> Story
        ensures { IsNewStory result }
    {
        Story {
            turns: Vec::new(alloc),
            forgotten: 0,
            last: None,
        }
    }

    /// A board of the user's game has come.
    ///
    /// Errors: if memory runs out; then the turn before it is not kept.
    pub fn hear_board(&mut self, alloc: Global, game: &GameBoard) -> Result<(), AllocError>
        ensures last { option_map game_of self.new.last ≡ Some (game_of game.now) }
        // Of another game nothing is kept, nor of a first board.
        ensures anew { IfSome self.old.last (λ before. begins_anew (game_of before) (game_of game.now) ≡ true →
            (self.new.turns.items ≡ []) × (self.new.forgotten ≡ 0)) }
        ensures first { IfNone self.old.last (self.new.turns ≡ self.old.turns) }
    {
        let last = self.last;
        self.last = Some(*game);
        let Some(last) = last else {
            return Ok(());
        };
        if begins_anew(&last, game) {
            *self = Story::new(alloc);
            self.last = Some(*game);
            return Ok(());
        }
        if !differs(last.board(), game.board()) {
            return Ok(());
        }
        match turn_of(&last, game) {
            None => Ok(()),
            Some(turn) => self.keep(turn),
        }
    }

    /// Appends which checkers were hit since the board that came last, if one came and the next is of the same game: on
    /// which places, in the numbers that the user reads, if a play leads from the one to the other; else who was hit.
    /// Gives what it has told.
    ///
    /// Errors: if memory runs out.
    pub fn append_hits(
        &self,
        alloc: Global,
        game: &GameBoard,
        numbers: Numbers,
        text: &mut Vec<u8>,
    ) -> Result<ToldHits, AllocError>
        ensures first { IfNone self.now.last (OnOk result (text.new.items ≡ text.old.items)) }
        ensures told { IfSome self.now.last (λ before. IfOk result (λ hits. TellsHits hits numbers
            (game_of before) (game_of game.now) text.old.items text.new.items)) }
        ensures silent { IfSome self.now.last (λ before. tells_hits (game_of before) (game_of game.now) ≡ false
            → OnOk result (text.new.items ≡ text.old.items)) }
        ensures some { IfSome self.now.last (λ before. IfOk result (λ hits.
            has_told hits ≡ tells_hits (game_of before) (game_of game.now))) }
    {
        append_hits_since(alloc, &self.last, game, numbers, text)
    }

    /// Keeps a turn; the oldest goes if there are many.
    fn keep(&mut self, turn: PlayedTurn) -> Result<(), AllocError>
        ensures last { self.new.last ≡ self.old.last }
        ensures kept { OnOk result (KeepsTurn self.old turn self.new) }
    {
        if self.turns.len() >= MOST_KEPT {
            self.turns.remove(0);
            self.forgotten = self.forgotten.saturating_add(1);
        }
        self.turns.push(turn)?;
        Ok(())
    }

    /// Appends a row for each turn, numbered: who rolled what, and the play, in the numbers that the user reads; `?` if
    /// the boards do not show which. They are the last 20, unless all are asked for.
    ///
    /// Errors: if memory runs out.
    pub fn append_turns(
        &self,
        alloc: Global,
        numbers: Numbers,
        is_all: bool,
        text: &mut Vec<u8>,
    ) -> Result<(), AllocError> {
        if self.turns.is_empty() {
            return text.extend_from_slice(
                b"No board of this game has shown a roll and its play yet.\n",
            );
        }
        let count = self.turns.len();
        let first = if is_all {
            0
        } else {
            count.saturating_sub(MOST_LISTED)
        };
        if first > 0 {
            append_before(first, text)?;
        }
        for place in first..count {
            let number = place.saturating_add(self.forgotten).saturating_add(1);
            append_turn(alloc, numbers, &self.turns[place], number, text)?;
        }
        Ok(())
    }
}

/// Appends how many turns come before those that are listed, and what to type for them.
fn append_before(count: usize, text: &mut Vec<u8>) -> Result<(), AllocError> {
    text.extend_from_slice(b".. ")?;
    append_number(count, text)?;
    text.extend_from_slice(b" before: moves all\n")
}

/// Appends a number at the right of its columns, and a full stop.
fn append_row_number(number: usize, text: &mut Vec<u8>) -> Result<(), AllocError> {
    let mut buffer = Buffer::new();
    let digits = buffer.format(number).as_bytes();
    for _ in digits.len()..NUMBER_COLUMNS {
        text.extend_from_slice(b" ")?;
    }
    text.extend_from_slice(digits)?;
    text.extend_from_slice(b". ")
}

/// Appends who has rolled.
fn append_roller(turn: &PlayedTurn, text: &mut Vec<u8>) -> Result<(), AllocError> {
    match turn.roller {
        Roller::Own => text.extend_from_slice(b"You roll "),
        Roller::Other => {
            let name = turn.after.opponent().bytes();
            text.extend_from_slice(&name[..name.len().min(MOST_NAMED)])?;
            text.extend_from_slice(b" rolls ")
        }
    }
}

/// Appends what was rolled.
fn append_dice(turn: &PlayedTurn, text: &mut Vec<u8>) -> Result<(), AllocError> {
    let board = turn.before.board();
    append_number(board.die(FIRST_DIE), text)?;
    text.extend_from_slice(b" and ")?;
    append_number(board.die(SECOND_DIE), text)?;
    text.extend_from_slice(b":")
}

/// Which way he who has rolled goes by the numbers that the user reads: by the user's own his opponent goes up.
fn way_of(turn: &PlayedTurn, numbers: Numbers) -> Direction
    ensures { result ≡ way_of turn.now.roller numbers (direction_of (game_of turn.now.before)) }
{
    match (turn.roller, numbers) {
        (Roller::Other, Numbers::TheOwn) => Direction::Up,
        _ => numbers.way(turn.before.direction()),
    }
}

/// Appends a play: its steps as they are typed, by numbers by which he who plays goes this way.
fn append_play(play: Option<Play>, way: Direction, text: &mut Vec<u8>) -> Result<(), AllocError> {
    let Some(play) = play else {
        return text.extend_from_slice(b" ?");
    };
    if play.steps().is_empty() {
        return text.extend_from_slice(b" no move");
    }
    let command = decision_text(&Decision::Move(play), way);
    let bytes = command.as_bytes();
    text.extend_from_slice(&bytes[MOVE_WORD.min(bytes.len())..])
}

/// Appends the row of a turn.
fn append_turn(
    alloc: Global,
    numbers: Numbers,
    turn: &PlayedTurn,
    number: usize,
    text: &mut Vec<u8>,
) -> Result<(), AllocError> {
    append_row_number(number, text)?;
    append_roller(turn, text)?;
    append_dice(turn, text)?;
    append_play(
        played(alloc, &turn.before, &turn.after)?,
        way_of(turn, numbers),
        text,
    )?;
    text.extend_from_slice(b"\n")
}

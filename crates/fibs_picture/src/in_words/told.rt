//! A board in words.
ghost use Rattle.std.specs.Prelude.{◌≡◌, ◌++◌, List, [], ℕ, OnOk, IfOk, take, true, false, if◌then◌else◌};
ghost use Rattle.std.specs.Io.KnownBytes.{Appends};
ghost use Rattle.fibs_position.specs.GameOf.{game_of};
ghost use Rattle.fibs_position.specs.WatchedOf.{watched_of};
ghost use Rattle.fibs_picture.specs.Fits.{ended};
ghost use Rattle.fibs_picture.specs.InWords.Breaking.{AddsRows};
ghost use Rattle.fibs_picture.specs.InWords.Watched.{against_row};
ghost use Rattle.fibs_picture.specs.InWords.Rows.{IsBroken, row_of, is_left_out, told_row, told_rows, fact_at};
ghost use Rattle.fibs_picture.specs.InWords.Tellings.{row_in, rows_before, words_after, names_in, players_in};

use crate::in_words::broken::append_broken;
use crate::in_words::fact::{FACTS, Fact, fact_at};
use crate::in_words::named::write_players;
use crate::in_words::watched::write_named_row;
use crate::in_words::words::write_row;
use crate::shown_name;
use fibs_position::{GameBoard, Numbers, WatchedBoard};
use std::alloc::{AllocError, Global};
use std::io;
use std::io::Write;

/// A board that is told, and whose numbers its places have.
#[derive(Clone, Copy)]
pub enum Told {
    /// Of a game in which the user plays.
    Game(GameBoard, Numbers),
    /// Of one that he watches.
    Watched(WatchedBoard, Numbers),
}

/// Writes the row of a fact of the user's game.
#[tactic(auto, unfolding(crate::specs::InWords::Rows::row_of))]
fn write_own<W: Write>(
    game: &GameBoard,
    numbers: Numbers,
    fact: Fact,
    out: &mut W,
) -> io::Result<()>
    ensures { OnOk result (Appends (W.contents out.old) (W.contents out.new)
        (row_of false numbers (game_of game.now) fact)) }
{
    let direction = numbers.way(game.position().direction());
    write_row(direction, game.board(), game.position(), fact, out)
}

/// Writes the row of a fact of a game that the user watches.
#[tactic(auto, unfolding(crate::specs::InWords::Rows::row_of))]
fn write_watched<W: Write>(
    watched: &WatchedBoard,
    numbers: Numbers,
    fact: Fact,
    out: &mut W,
) -> io::Result<()>
    ensures { OnOk result (Appends (W.contents out.old) (W.contents out.new)
        (row_of true numbers (watched_of watched.now) fact)) }
{
    let board = watched.board();
    let player = shown_name(board.player().bytes());
    let opponent = shown_name(board.opponent().bytes());
    let direction = numbers.way(watched.position().direction());
    write_named_row(
        direction,
        board,
        watched.position(),
        player,
        opponent,
        fact,
        out,
    )
}

/// The row of a fact.
fn row_in(alloc: Global, told: &Told, fact: Fact) -> Result<Vec<u8>, AllocError>
    ensures { IfOk result (λ row. row.items ≡ row_in told.now fact) }
{
    let mut row = Vec::new(alloc);
    let written = match told {
        Told::Game(game, numbers) => write_own(game, *numbers, fact, &mut row),
        Told::Watched(watched, numbers) => write_watched(watched, *numbers, fact, &mut row),
    };
    match written {
        Ok(()) => Ok(row),
        Err(_) => Err(AllocError),
    }
}

/// Whether a row is left out: the same was told of the board before.
fn is_left_out(
    alloc: Global,
    before: &Option<Told>,
    fact: Fact,
    row: &[u8],
) -> Result<bool, AllocError>
    ensures { IfOk result (λ out. out ≡ is_left_out (rows_before before.now) fact row.now) }
{
    match before {
        None => Ok(false),
        Some(before) => {
            let old = row_in(alloc, before, fact)?;
            Ok(fact.is_lasting() && old.as_slice() == row)
        }
    }
}

/// Appends a row, unless it is left out.
#[tactic(auto, using(crate::proofs::WordsLemmas::Breaking::adds_none))]
fn append_unless(
    is_out: bool,
    row: &[u8],
    columns: usize,
    text: &mut Vec<u8>,
) -> Result<(), AllocError>
    ensures { OnOk result (AddsRows columns (if is_out then [] else ended row.now) text.old.items text.new.items) }
{
    if is_out {
        return Ok(());
    }
    append_broken(row, columns, text)
}

/// Appends the row of a fact, if it is told.
fn append_fact(
    alloc: Global,
    before: &Option<Told>,
    told: &Told,
    fact: Fact,
    columns: usize,
    text: &mut Vec<u8>,
) -> Result<(), AllocError>
    ensures { OnOk result (AddsRows columns (told_row (rows_before before.now) (row_in told.now) fact)
        text.old.items text.new.items) }
{
    let row = row_in(alloc, told, fact)?;
    let is_out = is_left_out(alloc, before, fact, row.as_slice())?;
    append_unless(is_out, row.as_slice(), columns, text)
}

/// Appends the rows of all facts.
fn append_facts(
    alloc: Global,
    before: &Option<Told>,
    told: &Told,
    columns: usize,
    text: &mut Vec<u8>,
) -> Result<(), AllocError>
    ensures { OnOk result (AddsRows columns (told_rows (rows_before before.now) (row_in told.now) 9)
        text.old.items text.new.items) }
{
    for i in 0..FACTS {
        append_fact(alloc, before, told, fact_at(i), columns, text)?;
    }
    Ok(())
}

/// Appends the names of the two who are watched.
fn append_names(
    alloc: Global,
    watched: &WatchedBoard,
    columns: usize,
    text: &mut Vec<u8>,
) -> Result<(), AllocError>
    ensures { let b = watched_of watched.now in OnOk result (AddsRows columns
        (ended (against_row (take 30 b.player) (take 30 b.opponent))) text.old.items text.new.items) }
{
    let board = watched.board();
    let player = shown_name(board.player().bytes());
    let opponent = shown_name(board.opponent().bytes());
    let mut row = Vec::new(alloc);
    write_players(player, opponent, &mut row).map_err(|_| AllocError)?;
    append_broken(row.as_slice(), columns, text)
}

/// Appends who plays, if the board is watched and that is not left out.
#[tactic(auto, using(crate::proofs::WordsLemmas::Breaking::adds_none))]
fn append_first(
    alloc: Global,
    is_out: bool,
    told: &Told,
    columns: usize,
    text: &mut Vec<u8>,
) -> Result<(), AllocError>
    ensures { OnOk result (AddsRows columns (if is_out then [] else names_in told.now)
        text.old.items text.new.items) }
{
    if is_out {
        return Ok(());
    }
    match told {
        Told::Game(_, _) => Ok(()),
        Told::Watched(watched, _) => append_names(alloc, watched, columns, text),
    }
}

/// Appends who plays, if that is told.
fn append_players(
    alloc: Global,
    before: &Option<Told>,
    told: &Told,
    columns: usize,
    text: &mut Vec<u8>,
) -> Result<(), AllocError>
    ensures { OnOk result (AddsRows columns (players_in before.now told.now) text.old.items text.new.items) }
{
    append_first(alloc, before.is_some(), told, columns, text)
}

/// Appends a board in words: nine rows of plain ASCII, and before them who plays if the board is watched. A row that
/// is wider than the columns is broken at spaces, and what goes on begins with a space. What was told of the board
/// before, if that is given, is left out.
///
/// Errors: if memory runs out.
pub fn append_told(
    alloc: Global,
    before: &Option<Told>,
    told: &Told,
    columns: usize,
    text: &mut Vec<u8>,
) -> Result<(), AllocError>
    ensures { OnOk result ((t : List ℕ) × IsBroken columns (words_after before.now told.now) t
        × (text.new.items ≡ text.old.items ++ t)) }
{
    append_players(alloc, before, told, columns, text)?;
    append_facts(alloc, before, told, columns, text)
}

/// Appends the row of a fact, whatever was told before.
fn append_one(
    alloc: Global,
    told: &Told,
    fact: Fact,
    columns: usize,
    text: &mut Vec<u8>,
) -> Result<(), AllocError>
    ensures { OnOk result (AddsRows columns (ended (row_in told.now fact)) text.old.items text.new.items) }
{
    let row = row_in(alloc, told, fact)?;
    append_broken(row.as_slice(), columns, text)
}

/// Appends the row of one fact.
///
/// Errors: if memory runs out.
pub fn append_row(
    alloc: Global,
    told: &Told,
    fact: Fact,
    columns: usize,
    text: &mut Vec<u8>,
) -> Result<(), AllocError>
    ensures { OnOk result ((t : List ℕ) × IsBroken columns (ended (row_in told.now fact)) t
        × (text.new.items ≡ text.old.items ++ t)) }
{
    append_one(alloc, told, fact, columns, text)
}

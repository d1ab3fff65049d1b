//! The legal moves of a board.
ghost use Rattle.std.specs.Prelude.{◌≡◌, ◌≤◌, ◌<◌, ◌+◌, ◌++◌, IfOk, List, OnOk, length, map, vec_len};
ghost use Rattle.fibs_position.specs.DirectionOf.{direction_of};
ghost use Rattle.fibs_position.specs.GameOf.{game_of};
ghost use Rattle.fibs_position.specs.NumbersOf.{counted};
ghost use Rattle.fibs_position.specs.PlaysOf.{ArePlays};
ghost use Rattle.fibs_position.specs.PositionValue.{position_of};
ghost use Rattle.fibs_rules.specs.Hop.{hop_of};
ghost use Rattle.fibs_rules.specs.PlayValue.{hops_of};
ghost use Rattle.fibs_rules.specs.declared.play.Play.{Play as ThePlay};
ghost use Rattle.fibs_advice.specs.Listings.{IsNext, all_plays, chosen, hits_said, is_listed, leaves, listing_from, told_row};
ghost use Rattle.fibs_advice.specs.Spelling.{place_named};

use crate::hits::{Roller, append_listed, hit_places, is_hit_by};
use crate::spelling::moves::place_of;
use fibs_commands::decision_text;
use fibs_fields::decimal::append_number;
use fibs_position::{Decision, Direction, GameBoard, Numbers, Play, Position, Step};
use std::alloc::{AllocError, Global};

/// How many bytes of a move's command come before its steps: `move`.
const WORD: usize = 4;

/// How many rows of moves a screen has.
const MOST_ROWS: usize = 20;

/// The columns before each move in a row.
const GAP: &[u8] = b"  ";

/// How moves are listed.
#[derive(Clone, Copy)]
pub struct Sheet {
    /// Whose numbers the places have.
    pub numbers: Numbers,
    /// How many columns a row may have.
    pub columns: usize,
    /// Whether each move has a row of its own, in which words say where it hits.
    pub is_told: bool,
}

/// Appends a step as it is typed, after a space unless it is the first, and `*` behind one that hits.
fn append_step(
    before: &Position,
    steps: &[Step],
    place: usize,
    way: Direction,
    text: &mut Vec<u8>,
) -> Result<(), AllocError> {
    if place >= steps.len() {
        return Ok(());
    }
    let mut play = Play::new();
    if !play.push(steps[place]) {
        return Ok(());
    }
    let command = decision_text(&Decision::Move(play), way);
    let word = if place == 0 { WORD + 1 } else { WORD };
    let bytes = command.as_bytes();
    text.extend_from_slice(&bytes[word.min(bytes.len())..])?;
    if is_hit_by(before, steps, place) {
        text.extend_from_slice(b"*")?;
    }
    Ok(())
}

/// Pushes a move as it is typed, with `*` at each step that hits.
fn push_cell(
    alloc: Global,
    before: &Position,
    play: &Play,
    way: Direction,
    cells: &mut Vec<Vec<u8>>,
) -> Result<(), AllocError>
    ensures { OnOk result (vec_len cells.new ≡ vec_len cells.old + 1) }
{
    let mut cell = Vec::new(alloc);
    let steps = play.steps();
    for place in 0..steps.len() {
        append_step(before, steps, place, way, &mut cell)?;
    }
    cells.push(cell)?;
    Ok(())
}

/// Moves as they are typed, with `*` at each step that hits.
fn cells_of(
    alloc: Global,
    before: &Position,
    plays: &[Play],
    way: Direction,
) -> Result<Vec<Vec<u8>>, AllocError>
    ensures { IfOk result (λ cells. vec_len cells ≡ length plays.now) }
{
    let mut cells = Vec::new(alloc);
    for play in plays {
        push_cell(alloc, before, play, way, &mut cells)?;
    }
    Ok(cells)
}

/// How many bytes the longest cell has.
fn widest(cells: &[Vec<u8>]) -> usize {
    let mut most = 0;
    for cell in cells {
        most = cell.len().max(most);
    }
    most
}

/// How many cells of a width stand side by side in so many columns: one at least.
fn side_by_side(width: usize, columns: usize) -> usize
    ensures { 1 ≤ result }
{
    (columns / width.saturating_add(GAP.len()).max(1)).max(1)
}

/// Appends the cell of a place, and if another one follows in its row, spaces up to the width of a cell.
fn append_cell(
    cells: &[Vec<u8>],
    place: usize,
    follows: bool,
    width: usize,
    text: &mut Vec<u8>,
) -> Result<(), AllocError> {
    if place >= cells.len() {
        return Ok(());
    }
    let cell = cells[place].as_slice();
    text.extend_from_slice(GAP)?;
    text.extend_from_slice(cell)?;
    if follows {
        for _ in cell.len()..width {
            text.extend_from_slice(b" ")?;
        }
    }
    Ok(())
}

/// Appends a row of cells: one of each column. They are ordered down the columns.
fn append_row(
    cells: &[Vec<u8>],
    row: usize,
    rows: usize,
    columns: usize,
    width: usize,
    text: &mut Vec<u8>,
) -> Result<(), AllocError> {
    for column in 0..columns {
        let place = column.saturating_mul(rows).saturating_add(row);
        let follows = place.saturating_add(rows) < cells.len();
        append_cell(cells, place, follows, width, text)?;
    }
    text.extend_from_slice(b"\n")
}

/// Appends cells in so many columns, ordered down the columns.
fn append_columns(
    cells: &[Vec<u8>],
    columns: usize,
    width: usize,
    text: &mut Vec<u8>,
) -> Result<(), AllocError> {
    let rows = cells.len().div_ceil(columns.max(1));
    for row in 0..rows {
        append_row(cells, row, rows, columns, width, text)?;
    }
    Ok(())
}

/// Appends in words where a move hits, if it does.
fn append_hits(way: Direction, places: &[u8], text: &mut Vec<u8>) -> Result<(), AllocError>
    ensures { OnOk result (text.new.items ≡ text.old.items ++ hits_said way places.now) }
{
    if places.is_empty() {
        return Ok(());
    }
    text.extend_from_slice(b", hits on ")?;
    append_listed(way, places, text)
}

/// Appends a move in a row, and in words where it hits.
fn append_told(
    alloc: Global,
    game: &GameBoard,
    play: &Play,
    way: Direction,
    text: &mut Vec<u8>,
) -> Result<(), AllocError>
    ensures { OnOk result (text.new.items ≡ text.old.items
        ++ told_row way (position_of (game_of game.now)).standing.checkers (hops_of play.now)) }
{
    text.extend_from_slice(GAP)?;
    text.extend_from_slice(decision_text(&Decision::Move(*play), way).as_bytes())?;
    let places = hit_places(alloc, Roller::Own, game.position(), play)?;
    append_hits(way, places.as_slice(), text)?;
    text.extend_from_slice(b"\n")
}

/// Appends moves in words, each in a row; at most a screen. Gives how many those are.
fn append_all_told(
    alloc: Global,
    game: &GameBoard,
    plays: &[Play],
    way: Direction,
    text: &mut Vec<u8>,
) -> Result<usize, AllocError>
    ensures some { IfOk result (λ count. 0 < length plays.now → 0 < count) }
    ensures within { IfOk result (λ count. count ≤ length plays.now) }
{
    let count = plays.len().min(MOST_ROWS);
    for play in &plays[..count] {
        append_told(alloc, game, play, way, text)?;
    }
    Ok(count)
}

/// Appends moves in as many columns as have room; at most a screen. Gives how many those are.
fn append_all_drawn(
    alloc: Global,
    game: &GameBoard,
    plays: &[Play],
    way: Direction,
    columns: usize,
    text: &mut Vec<u8>,
) -> Result<usize, AllocError>
    ensures some { IfOk result (λ count. 0 < length plays.now → 0 < count) }
    ensures within { IfOk result (λ count. count ≤ length plays.now) }
{
    let cells = cells_of(alloc, game.position(), plays, way)?;
    let width = widest(cells.as_slice());
    let many = side_by_side(width, columns);
    let count = cells.len().min(many.saturating_mul(MOST_ROWS));
    append_columns(&cells.as_slice()[..count], many, width, text)?;
    Ok(count)
}

/// Whether one of some steps leaves a place.
fn leaves(place: u8, steps: &[Step]) -> bool
    ensures { result ≡ leaves place (map hop_of steps.now) }
{
    if steps.is_empty() {
        return false;
    }
    steps[0].source() == place || leaves(place, &steps[1..])
}

/// Which legal moves of a board are listed.
#[derive(Clone, Copy)]
pub struct Listing {
    /// Those that move a checker from this place, in the player's own numbering; all, if there is none.
    from: Option<u8>,
    /// How many of them were listed before.
    listed: usize,
}

impl Listing {
    /// All, from the first on.
    pub fn of_all() -> Listing
        ensures { result ≡ all_plays }
    {
        Listing {
            from: None,
            listed: 0,
        }
    }

    /// Those that move a checker from a place of a board, in these numbers: `24`, `bar`. None if it is not a place.
    pub fn from_place(name: &[u8], game: &GameBoard, numbers: Numbers) -> Option<Listing>
        ensures { result ≡ listing_from (place_named (counted numbers (direction_of (game_of game.now))) name.now) }
    {
        Some(Listing {
            from: Some(place_of(name, numbers.way(game.direction()))?),
            listed: 0,
        })
    }

    /// Whether a move is one of them.
    fn includes(&self, play: &Play) -> bool
        ensures { result ≡ is_listed self.now.from (hops_of play.now) }
    {
        match self.from {
            None => true,
            Some(from) => leaves(from, play.steps()),
        }
    }

    /// Appends up to which of so many moves was listed, and how many there are.
    fn append_count(
        &self,
        last: usize,
        count: usize,
        text: &mut Vec<u8>,
    ) -> Result<(), AllocError> {
        if last < count {
            append_number(last, text)?;
            text.extend_from_slice(b" of ")?;
        }
        append_number(count, text)?;
        text.extend_from_slice(if count == 1 {
            b" legal move"
        } else {
            b" legal moves"
        })?;
        if self.from.is_some() {
            text.extend_from_slice(b" from there")?;
        }
        text.extend_from_slice(if last < count {
            b": plays more shows others.\n"
        } else {
            b".\n"
        })
    }
}

/// Pushes the moves that are listed.
fn push_listed(plays: &[Play], listing: Listing, found: &mut Vec<Play>) -> Result<(), AllocError>
    ensures { OnOk result (found.new.items ≡ found.old.items ++ chosen listing plays.now) }
{
    for play in plays {
        if listing.includes(play) {
            found.push(*play)?;
        }
    }
    Ok(())
}

/// Appends moves of a board; at most a screen. Gives how many those are.
fn append_screen(
    alloc: Global,
    game: &GameBoard,
    sheet: &Sheet,
    plays: &[Play],
    text: &mut Vec<u8>,
) -> Result<usize, AllocError>
    ensures some { IfOk result (λ count. 0 < length plays.now → 0 < count) }
    ensures within { IfOk result (λ count. count ≤ length plays.now) }
{
    let way = sheet.numbers.way(game.direction());
    if sheet.is_told {
        append_all_told(alloc, game, plays, way, text)
    } else {
        append_all_drawn(alloc, game, plays, way, sheet.columns, text)
    }
}

/// Appends legal moves of a board, at most 20 rows of them, and how many there are. Gives what is listed next.
///
/// Errors: if memory runs out.
pub fn append_plays(
    alloc: Global,
    game: &GameBoard,
    sheet: &Sheet,
    listing: Listing,
    text: &mut Vec<u8>,
) -> Result<Listing, AllocError>
    ensures { IfOk result (λ next. (plays : List ThePlay) × ArePlays (game_of game.now) (map hops_of plays)
        × IsNext listing next plays) }
{
    let plays = game.position().plays(alloc)?;
    if plays.is_empty() {
        text.extend_from_slice(b"There is nothing to move on this board.\n")?;
        return Ok(listing);
    }
    let mut chosen = Vec::new(alloc);
    push_listed(plays.as_slice(), listing, &mut chosen)?;
    let rest = chosen.as_slice().get(listing.listed..).unwrap_or(&[]);
    let count = append_screen(alloc, game, sheet, rest, text)?;
    let last = (chosen.len().saturating_sub(rest.len())).saturating_add(count);
    listing.append_count(last, chosen.len(), text)?;
    Ok(Listing {
        from: listing.from,
        listed: last,
    })
}

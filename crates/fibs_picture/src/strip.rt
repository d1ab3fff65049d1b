//! What the columns of a board are of.
ghost use Rattle.std.specs.Prelude.{◌≡◌, ◌<◌};
ghost use Rattle.fibs_picture.specs.Strip.{strip_at, is_left_out, is_below, board_width, IsWithin};

/// What a column of a board is of.
#[derive(Clone, Copy, Debug, PartialEq, Eq)]
pub enum Strip {
    /// The space before the board, and behind it.
    Margin,
    /// A wall.
    Wall,
    /// A place, counted from the left from 0, and which of its three columns.
    Place(u8, u8),
    /// The bar, and which of its three columns.
    Bar(u8),
}

/// On a terminal of fewer columns the words stand below the board.
const LEAST_BESIDE: usize = 72;

/// On a terminal of so many columns, or fewer, the outer walls are left out.
const MOST_TIGHT: usize = 43;

/// What a column is of.
#[tactic(auto, unfolding(crate::specs::Strip::strip_at))]
pub fn strip_at(column: u8) -> Strip
    ensures value { result ≡ strip_at column }
    ensures within { IsWithin result }
{
    if column == 0 {
        Strip::Margin
    } else if column == 1 {
        Strip::Wall
    } else if column < 20 {
        Strip::Place((column - 2) / 3, (column - 2) % 3)
    } else if column == 20 {
        Strip::Wall
    } else if column < 24 {
        Strip::Bar(column - 21)
    } else if column == 24 {
        Strip::Wall
    } else if column < 43 {
        Strip::Place(6 + (column - 25) / 3, (column - 25) % 3)
    } else if column == 43 {
        Strip::Wall
    } else {
        Strip::Margin
    }
}

/// Whether a column is left out: the outer walls, and one beside the bar, if the whole board is too wide.
pub fn is_left_out(columns: usize, column: u8) -> bool
    ensures { result ≡ is_left_out columns column }
{
    (column == 0 || column == 1 || column == 24 || column == 43) && columns <= MOST_TIGHT
}

/// Whether the words of a board stand below it.
pub fn is_below(columns: usize) -> bool
    ensures { result ≡ is_below columns }
{
    columns < LEAST_BESIDE
}

/// How many columns the board has, those that are left out among them: with words beside it there is room before them.
pub fn board_width(columns: usize) -> u8
    ensures { result ≡ board_width columns }
{
    if is_below(columns) { 44 } else { 47 }
}

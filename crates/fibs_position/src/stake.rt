//! How much a game is given up for.

/// How much a player who resigns offers to lose.
#[derive(Clone, Copy, Debug, PartialEq, Eq)]
pub enum Stake {
    /// A single game: what the cube shows.
    Normal,
    /// A gammon: twice as much.
    Gammon,
    /// A backgammon: three times as much.
    Backgammon,
}

//! The two sides of a board.

/// The side of a board's player, or the other one.
#[derive(Clone, Copy)]
pub(crate) enum Side {
    Player,
    Opponent,
}

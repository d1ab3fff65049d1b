//! Whose numbers places have.

ghost use Rattle.std.specs.Prelude.{◌≡◌};

use crate::direction::Direction;

/// Whose numbers places have, where a person reads and types them.
#[derive(Clone, Copy, Debug, PartialEq, Eq)]
pub enum Numbers {
    /// The server's, as in the board line: a player goes down or up by them.
    TheServers,
    /// The player's own: his checkers go from 24 down to 1, whichever way the server counts.
    TheOwn,
}

impl Numbers {
    ghost use Rattle.fibs_position.specs.NumbersOf.{counted};

    /// Which way a player goes by these numbers, who goes this way by those of the board line.
    pub fn way(self, direction: Direction) -> Direction
        ensures { result ≡ counted self direction }
    {
        match self {
            Numbers::TheServers => direction,
            Numbers::TheOwn => Direction::Down,
        }
    }
}

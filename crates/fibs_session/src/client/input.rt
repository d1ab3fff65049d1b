//! What comes to a client.

use fibs_commands::Plain;
use fibs_position::Decision;

/// What comes to a client.
#[derive(Clone, Copy)]
pub enum Input<'a> {
    /// A connection is opened.
    Open,
    /// The connection is lost.
    Lose,
    /// Bytes of the server.
    Piece(&'a [u8]),
    /// The user decides.
    Click(Decision),
    /// The user says something else.
    Plain(Plain<'a>),
    /// The user gives a standing order to roll.
    Order,
    /// The user withdraws it.
    Withdraw,
}

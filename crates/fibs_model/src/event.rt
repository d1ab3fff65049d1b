//! What may happen in the world.

use fibs_fields::boards::Board;
use fibs_position::Decision;
use fibs_session::Plain;

/// What may happen in the world, with all that is chosen in it. `WorldRefusal` says why an event is refused.
#[derive(Clone, Copy, Debug, PartialEq, Eq)]
pub enum Event<'a> {
    /// The client opens a connection; its login goes on the new connection's wire.
    Open,
    /// The user clicks on a decision; if the client sends it, its command goes on the wire.
    Click(Decision),
    /// The user gives a plain command; if the client sends it, it goes on the wire.
    Plain(Plain<'a>),
    /// The next so many bytes go to the client, or all if they are fewer.
    Deliver(usize),
    /// The open connection ends. Of the bytes on their way to the server the first so many stay, or all if they are
    /// fewer; none on their way to the client.
    Lose(usize),
    /// The server takes the next whole line of a connection.
    Serve {
        /// The connection, from 1.
        conn: usize,
        /// The dice, if the line is a roll.
        dice: [u8; 2],
    },
    /// The server's board becomes this one, and is sent.
    Own(Board),
    /// The server's board is sent again.
    Repeat,
    /// The server sends a line, which is given without its line end.
    Text(&'a [u8]),
    /// The user gives a standing order to roll; it is noted if the client takes it.
    Order,
    /// The user withdraws the standing order; that is noted if the client takes it.
    Withdraw,
}

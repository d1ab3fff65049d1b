//! What happened, as it is reported to a front end.

use fibs_lines::Line;
use fibs_messages::Reading;
use fibs_position::GameBoard;
use fibs_session::{CommandText, DirectoryFault, Outstanding, PlainRefusal, Player, Refusal};
use std::io::ErrorKind;

/// One thing that happened.
#[derive(Clone, Copy)]
pub enum Said<'a> {
    /// A connection was made.
    Opened,
    /// No connection can be made, for this reason.
    NoConnection(ErrorKind),
    /// The server sent a line, and what it is; and if it is a board of the user's game, the board with its position. A
    /// line that was cut is a text.
    Heard(&'a Line<'a>, &'a Reading<'a>, Option<&'a GameBoard>),
    /// The line says this board of a game in which the user plays.
    Game(&'a GameBoard),
    /// The board confirms this decision, which waited for it.
    Confirmed(&'a Outstanding),
    /// A command was sent.
    Sent(&'a CommandText),
    /// A standing order sent its `roll`.
    Rolled,
    /// A line was sent to the server as it is. The client does not know it.
    Passed(&'a [u8]),
    /// A standing order to roll was given.
    Ordered,
    /// The standing order to roll was withdrawn.
    Withdrawn,
    /// The client refuses the decision, the standing order or its withdrawal.
    Refused(Refusal),
    /// The client refuses the plain command.
    NotSent(PlainRefusal),
    /// What was typed is no command.
    Unknown,
    /// The connection is over; and the decision that was not confirmed on it.
    Lost(&'a Option<Outstanding>),
    /// The directory took no note of the message.
    Unnoted(DirectoryFault),
    /// A player that is known.
    Player(&'a Player),
}

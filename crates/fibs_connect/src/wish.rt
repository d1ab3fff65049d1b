//! What a typed line asks for.
ghost use Rattle.std.specs.Prelude.{◌≡◌};
ghost use Rattle.fibs_connect.specs.Wishes.{wish_of, wish_value};

use crate::typed_line::TYPED_LIMIT;

/// What a typed line asks for.
#[derive(Clone, Copy)]
pub enum Wish {
    /// To connect again.
    Open,
    /// To list the players that are known.
    Players,
    /// To end.
    Quit,
    /// Nothing that can be done: the line is too long.
    TooLong,
    /// To hear the server.
    Listen,
    /// That the client answers the line, and then to hear the server.
    Say,
    /// That the line goes to the server as it is, without the client, and then to hear the server.
    Send,
    /// Nothing more: the front end has answered by itself.
    Answered,
}

/// What a line of the plain account asks for.
pub fn wish_of(line: &[u8]) -> Wish
    ensures { wish_value result line.now ≡ wish_of line.now }
{
    if line == b"open".as_slice() {
        Wish::Open
    } else if line == b"players".as_slice() {
        Wish::Players
    } else if line == b"quit".as_slice() {
        Wish::Quit
    } else if line.len() > TYPED_LIMIT {
        Wish::TooLong
    } else if line.is_empty() {
        Wish::Listen
    } else {
        Wish::Say
    }
}

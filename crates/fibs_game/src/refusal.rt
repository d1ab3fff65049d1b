//! Why a client refuses.

ghost use Rattle.std.specs.Prelude.{◌≡◌, Some};
ghost use Rattle.fibs_game.specs.RefusalNames.{refusal_number, refusal_name};

use std::fmt;

/// Why a client refuses to open a connection, to send a decision or a plain command, or to take or end a standing
/// order. Of several reasons the first is named.
#[derive(Clone, Copy, Debug, PartialEq, Eq)]
pub enum Refusal {
    /// A connection is open.
    AlreadyOpen,
    /// No connection is open.
    Offline,
    /// The server has not welcomed the user on this connection (message 1 of FIBS), or has not said what it plays by
    /// itself (message 2).
    NotReady,
    /// The server said last that it plays by itself (moves or bears off, in FIBS).
    ServerPlays,
    /// No board on which the user plays was shown on this connection.
    NoBoard,
    /// A decision was sent, and no board that differs was shown since.
    Waiting,
    /// The player does not decide on the board shown.
    NotYours,
    /// The decision is not one for which the board shown calls (in backgammon, or the cube forbids it).
    WrongKind,
    /// The move is not legal.
    IllegalPlay,
    /// The server does not do by itself what the command turns off, or the command was already sent.
    NotOn,
    /// A standing order to roll is in force on this connection.
    AlreadyOrdered,
    /// No standing order to roll is in force on this connection.
    NotOrdered,
}

impl Refusal {
    /// The refusal's number, 1 to 12.
    pub fn number(self) -> u8
        ensures { result ≡ refusal_number self }
    {
        match self {
            Refusal::AlreadyOpen => 1,
            Refusal::Offline => 2,
            Refusal::NotReady => 3,
            Refusal::ServerPlays => 4,
            Refusal::NoBoard => 5,
            Refusal::Waiting => 6,
            Refusal::NotYours => 7,
            Refusal::WrongKind => 8,
            Refusal::IllegalPlay => 9,
            Refusal::NotOn => 10,
            Refusal::AlreadyOrdered => 11,
            Refusal::NotOrdered => 12,
        }
    }

    /// The refusal's name, which `Display` prints.
    pub fn name(self) -> &'static str
        ensures { result.now ≡ refusal_name self }
    {
        match self {
            Refusal::AlreadyOpen => "AlreadyOpen",
            Refusal::Offline => "Offline",
            Refusal::NotReady => "NotReady",
            Refusal::ServerPlays => "ServerPlays",
            Refusal::NoBoard => "NoBoard",
            Refusal::Waiting => "Waiting",
            Refusal::NotYours => "NotYours",
            Refusal::WrongKind => "WrongKind",
            Refusal::IllegalPlay => "IllegalPlay",
            Refusal::NotOn => "NotOn",
            Refusal::AlreadyOrdered => "AlreadyOrdered",
            Refusal::NotOrdered => "NotOrdered",
        }
    }
}

/// The refusal's name.
impl fmt::Display for Refusal {
    ghost output = { λ why. Some (refusal_name why) };

    fn fmt<W: fmt::Write>(&self, f: &mut fmt::Formatter<W>) -> fmt::Result {
        f.pad(self.name())
    }
}

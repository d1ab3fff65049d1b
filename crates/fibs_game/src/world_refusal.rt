//! Why an event is refused.

ghost use Rattle.std.specs.Prelude.{◌≡◌, Some};
ghost use Rattle.fibs_game.specs.declared.world_refusal.WorldRefusal.TheVariants.{Memory};

use std::alloc::AllocError;
use std::fmt;

/// Why an event is refused. Of several reasons the first of the event's line is named, and `Memory` only if no other
/// holds.
#[derive(Clone, Copy, Debug, PartialEq, Eq)]
pub enum WorldRefusal {
    /// There was no memory for what the event adds.
    Memory,
    /// A connection is open.
    AlreadyOpen,
    /// No connection is open.
    NotOpen,
    /// The connection never was.
    NoSuchConnection,
    /// The connection has no whole line for the server, or is older than the one logged in.
    NothingToServe,
    /// The user decides on the server's board, which nothing else may change then.
    UserDecides,
    /// The text is more than one line, or reads as a good board.
    BoardAsText,
    /// The board is not good.
    BadBoard,
    /// The dice are not both numbers of a die (1 to 6, in backgammon).
    BadDice,
}

impl WorldRefusal {
    ghost use Rattle.fibs_game.specs.WorldRefusalNames.{refusal_name, refusal_number};

    /// The number that the program prints: 1 for `Memory`, and so on in the order above.
    pub fn number(self) -> u8
        ensures { result ≡ refusal_number self }
    {
        match self {
            WorldRefusal::Memory => 1,
            WorldRefusal::AlreadyOpen => 2,
            WorldRefusal::NotOpen => 3,
            WorldRefusal::NoSuchConnection => 4,
            WorldRefusal::NothingToServe => 5,
            WorldRefusal::UserDecides => 6,
            WorldRefusal::BoardAsText => 7,
            WorldRefusal::BadBoard => 8,
            WorldRefusal::BadDice => 9,
        }
    }

    /// The refusal's name, which `Display` prints.
    pub fn name(self) -> &'static str
        ensures { result.now ≡ refusal_name self }
    {
        match self {
            WorldRefusal::Memory => "Memory",
            WorldRefusal::AlreadyOpen => "AlreadyOpen",
            WorldRefusal::NotOpen => "NotOpen",
            WorldRefusal::NoSuchConnection => "NoSuchConnection",
            WorldRefusal::NothingToServe => "NothingToServe",
            WorldRefusal::UserDecides => "UserDecides",
            WorldRefusal::BoardAsText => "BoardAsText",
            WorldRefusal::BadBoard => "BadBoard",
            WorldRefusal::BadDice => "BadDice",
        }
    }
}

impl fmt::Display for WorldRefusal {
    ghost use Rattle.fibs_game.specs.WorldRefusalNames.{refusal_name};

    ghost output = { λ refusal. Some (refusal_name refusal) };

    fn fmt<W: fmt::Write>(&self, f: &mut fmt::Formatter<W>) -> fmt::Result {
        f.pad(self.name())
    }
}

impl From<AllocError> for WorldRefusal {
    ghost from_gives = { λ _ refusal. refusal ≡ Memory };

    fn from(_: AllocError) -> WorldRefusal {
        WorldRefusal::Memory
    }
}

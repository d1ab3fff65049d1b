//! The facts of a board, each of which is told in a row.
ghost use Rattle.std.specs.Prelude.{◌≡◌};
ghost use Rattle.fibs_picture.specs.InWords.Rows.{fact_at, is_lasting};

/// How many facts there are.
pub(crate) const FACTS: u8 = 9;

/// A fact that is told in a row.
#[derive(Clone, Copy, Debug, PartialEq, Eq)]
pub enum Fact {
    /// Whose turn it is, and what the player is to do.
    Turn,
    /// The dice.
    Dice,
    /// The score, and how long the match is.
    Score,
    /// The cube, and who may double.
    Cube,
    /// Which way the player goes.
    Way,
    /// Where the player's checkers are.
    Own,
    /// Where the opponent's are.
    Other,
    /// On which places the player can't come.
    Held,
    /// The blots of both.
    Blots,
}

/// The fact that is told after so many others.
pub(crate) fn fact_at(i: u8) -> Fact
    ensures { result ≡ fact_at i }
{
    if i == 0 {
        Fact::Turn
    } else if i == 1 {
        Fact::Dice
    } else if i == 2 {
        Fact::Score
    } else if i == 3 {
        Fact::Cube
    } else if i == 4 {
        Fact::Way
    } else if i == 5 {
        Fact::Own
    } else if i == 6 {
        Fact::Other
    } else if i == 7 {
        Fact::Held
    } else {
        Fact::Blots
    }
}

impl Fact {
    /// Whether it is told again only if it is another one than before.
    pub(crate) fn is_lasting(self) -> bool
        ensures { result ≡ is_lasting self }
    {
        match self {
            Fact::Score | Fact::Cube | Fact::Way | Fact::Held | Fact::Blots => true,
            Fact::Turn | Fact::Dice | Fact::Own | Fact::Other => false,
        }
    }
}

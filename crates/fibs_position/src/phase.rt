//! Phases of a game.

ghost use Rattle.std.specs.Prelude.{◌≡◌, ◌≤◌, Some, length};

use std::fmt;

/// The phase of a game, for the player of a board.
#[derive(Clone, Copy, Debug, PartialEq, Eq)]
pub enum Phase {
    /// The game is over.
    Over,
    /// The opponent has doubled; the player accepts or rejects.
    AnswerDouble,
    /// It is the opponent's turn.
    OpponentActs,
    /// The player rolls, or doubles.
    RollOrDouble,
    /// The player moves: at least one die can be played.
    Move,
    /// The player has rolled, and no die can be played.
    Passing,
}

impl Phase {
    ghost use Rattle.fibs_position.specs.Phases.{decides};
    ghost use Rattle.fibs_position.specs.Names.{phase_name};

    /// The player decides in this phase.
    pub(crate) fn is_deciding(self) -> bool
        ensures { result ≡ decides self }
    {
        match self {
            Phase::AnswerDouble | Phase::RollOrDouble | Phase::Move => true,
            Phase::Over | Phase::OpponentActs | Phase::Passing => false,
        }
    }

    /// The phase's name, which `Display` prints.
    pub fn name(self) -> &'static str
        ensures name { result.now ≡ phase_name self }
        ensures short { length result.now ≤ 12 }
    {
        match self {
            Phase::Over => "Over",
            Phase::AnswerDouble => "AnswerDouble",
            Phase::OpponentActs => "OpponentActs",
            Phase::RollOrDouble => "RollOrDouble",
            Phase::Move => "Move",
            Phase::Passing => "Passing",
        }
    }
}

impl fmt::Display for Phase {
    ghost use Rattle.fibs_position.specs.Names.{phase_name};

    ghost output = { λ phase. Some (phase_name phase) };

    fn fmt<W: fmt::Write>(&self, f: &mut fmt::Formatter<W>) -> fmt::Result {
        f.pad(self.name())
    }
}

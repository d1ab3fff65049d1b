//! Why a decision is not allowed.

ghost use Rattle.std.specs.Prelude.{◌≡◌, Some};

use std::error::Error;
use std::fmt;

/// Why a decision is not allowed. Of several reasons the first is named.
#[derive(Clone, Copy, Debug, PartialEq, Eq)]
pub enum Disallowed {
    /// The player does not decide in this phase.
    NotYours,
    /// The decision is of another kind than those of the phase, or the cube forbids it.
    WrongKind,
    /// The move is not legal.
    IllegalPlay,
}

impl Disallowed {
    ghost use Rattle.fibs_position.specs.Names.{disallowed_name, disallowed_number};

    /// The refusal's name, which `Display` prints.
    pub fn name(self) -> &'static str
        ensures { result.now ≡ disallowed_name self }
    {
        match self {
            Disallowed::NotYours => "NotYours",
            Disallowed::WrongKind => "WrongKind",
            Disallowed::IllegalPlay => "IllegalPlay",
        }
    }

    /// The refusal's number: 1 `NotYours`, 2 `WrongKind`, 3 `IllegalPlay`.
    pub fn number(self) -> u8
        ensures { result ≡ disallowed_number self }
    {
        match self {
            Disallowed::NotYours => 1,
            Disallowed::WrongKind => 2,
            Disallowed::IllegalPlay => 3,
        }
    }
}

impl fmt::Display for Disallowed {
    ghost use Rattle.fibs_position.specs.Names.{disallowed_name};

    ghost output = { λ why. Some (disallowed_name why) };

    fn fmt<W: fmt::Write>(&self, f: &mut fmt::Formatter<W>) -> fmt::Result {
        f.pad(self.name())
    }
}

impl Error for Disallowed {}

//! Why a client refuses a plain command.

ghost use Rattle.std.specs.Prelude.{◌≡◌, Some};
ghost use Rattle.fibs_session.specs.History.Refusals.{plain_refusal_number, plain_refusal_name};

use fibs_commands::PlainFault;
use fibs_game::Refusal;
use std::fmt;

/// Why a client refuses to send a plain command. Of several reasons the first is named.
#[derive(Clone, Copy, Debug, PartialEq, Eq)]
pub enum PlainRefusal {
    /// No connection is open.
    Offline,
    /// The server does not do by itself what the command turns off, or the command was already sent.
    NotOn,
    /// The command has no text.
    Fault(PlainFault),
}

impl PlainRefusal {
    /// The refusal's number: that of the `Refusal` of its name, or of the fault.
    pub fn number(self) -> u8
        ensures { result ≡ plain_refusal_number self }
    {
        match self {
            PlainRefusal::Offline => Refusal::Offline.number(),
            PlainRefusal::NotOn => Refusal::NotOn.number(),
            PlainRefusal::Fault(fault) => fault.number(),
        }
    }
}

/// The refusal's name, or that of the fault.
impl fmt::Display for PlainRefusal {
    ghost output = { λ why. Some (plain_refusal_name why) };

    fn fmt<W: fmt::Write>(&self, f: &mut fmt::Formatter<W>) -> fmt::Result {
        match self {
            PlainRefusal::Offline => Refusal::Offline.fmt(f),
            PlainRefusal::NotOn => Refusal::NotOn.fmt(f),
            PlainRefusal::Fault(fault) => fault.fmt(f),
        }
    }
}

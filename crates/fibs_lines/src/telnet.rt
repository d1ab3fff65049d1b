//! The telnet commands of a stream (RFC 854), byte by byte.

ghost use Rattle.std.specs.Prelude.{◌≡◌, ◌∷◌, [], IfNone, IfSome};

/// How much of a telnet command has come.
#[derive(Clone, Copy, Debug, PartialEq, Eq)]
pub(crate) enum Telnet {
    /// None: the next byte is one of the text, unless it is 255.
    Data,
    /// A byte 255.
    Command,
    /// A byte 255 and one from 251 to 254, which takes the next byte along.
    Negotiation,
}

impl Telnet {
    ghost use Rattle.fibs_lines.specs.Progress.{data_of, telnet_after};

    /// How much of a command has come after one more byte, and that byte if it is one of the text.
    pub(crate) fn after(self, byte: u8) -> (Telnet, Option<u8>)
        ensures telnet { result.0 ≡ telnet_after self byte }
        ensures data { IfSome result.1 (λ b. data_of self byte ≡ b ∷ []) }
        ensures none { IfNone result.1 (data_of self byte ≡ []) }
    {
        match self {
            Telnet::Data if byte == 255 => (Telnet::Command, None),
            Telnet::Data => (Telnet::Data, Some(byte)),
            Telnet::Command if byte == 255 => (Telnet::Data, Some(byte)),
            Telnet::Command if 251 <= byte && byte <= 254 => (Telnet::Negotiation, None),
            Telnet::Command | Telnet::Negotiation => (Telnet::Data, None),
        }
    }
}

//! The texts that a client sends.

ghost use Rattle.std.specs.Prelude.{◌≡◌, ◌≤◌, length, true};
ghost use Rattle.std.specs.List.{list_all};
ghost use Rattle.fibs_commands.specs.PlainCommands.{is_text_byte};
ghost use Rattle.fibs_commands.specs.TextOf.{text_of};

use arrayvec::ArrayString;
use std::str;

/// A command to the server: a text of at most 512 bytes, without its line end. On the wire it is followed by CR LF.
///
/// Texts are equal if their bytes are.
pub type CommandText = ArrayString<512>;

/// A command by which a client answers a line of the server: a text of at most 24 bytes, without its line end.
pub type AnswerText = ArrayString<24>;

/// The same text as an answer.
pub fn answer(text: &str) -> AnswerText
    requires { length text.now ≤ 24 }
    ensures { text_of result ≡ text.now }
{
    let mut answer = AnswerText::new();
    answer.push_str(text);
    answer
}

/// The same text as a command.
pub fn command(text: &str) -> CommandText
    requires { length text.now ≤ 512 }
    ensures { text_of result ≡ text.now }
{
    let mut command = CommandText::new();
    command.push_str(text);
    command
}

/// True if the byte is printable ASCII, 32 to 126.
fn is_text_byte(byte: &u8) -> bool
    ensures { result ≡ is_text_byte byte.now }
{
    *byte >= 32 && *byte <= 126
}

/// True if every byte of the text is printable ASCII.
pub fn are_text_bytes(bytes: &[u8]) -> bool
    ensures { result ≡ list_all is_text_byte bytes.now }
{
    bytes.iter().all(is_text_byte)
}

/// Bytes of printable ASCII as a text.
pub fn printed(bytes: &[u8]) -> &str
    requires { list_all is_text_byte bytes.now ≡ true }
    ensures { result.now ≡ bytes.now }
{
    str::from_utf8(bytes).unwrap()
}

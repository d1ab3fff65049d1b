//! Words as players type them: with spaces at both ends, in capitals, and a few short ones.
ghost use Rattle.std.specs.Prelude.{◌≡◌, ◌++◌, true, false, OnOk};
ghost use Rattle.fibs_fields.specs.Split.{seen};
ghost use Rattle.fibs_session.specs.Calls.Standing.{StandsAfter};
ghost use Rattle.fibs_session.specs.History.Machine.{Talk};
ghost use Rattle.fibs_session.specs.Typing.{way_now};
ghost use Rattle.fibs_advice.specs.Spelled.{Spells, first_word, from_first, is_talk, joined, long_word, name_spelled, small, small_first, small_line, takes_name, talk_spelled};

use crate::spelling::meant_moves::move_command;
use fibs_fields::split::split;
use fibs_fields::trailing_spaces::without_spaces;
use fibs_position::Numbers;
use fibs_session::Client;
use std::alloc::{AllocError, Global};

/// The words that send the rest of their line to people, or to the server as it is.
const TALK: [&[u8]; 8] = [
    b"say", b"tell", b"shout", b"whisper", b"kibitz", b"message", b"re", b"send",
];

/// The words that names follow.
const NAMING: [&[u8]; 5] = [b"invite", b"join", b"gag", b"ungag", b"matches"];

/// What follows the spaces before the first word.
fn from_first_word(line: &[u8]) -> &[u8]
    ensures { result.now ≡ from_first line.now }
{
    if line.is_empty() || line[0] != b' ' {
        return line;
    }
    from_first_word(&line[1..])
}

/// Whether the word sends the rest of its line to people, or to the server as it is.
fn is_talk(word: &[u8]) -> bool
    ensures { result ≡ is_talk word.now }
{
    TALK.contains(&word)
}

/// Whether names follow the word, whose capitals stay.
fn takes_name(word: &[u8]) -> bool
    ensures { result ≡ takes_name word.now }
{
    NAMING.contains(&word)
}

/// The word for a short one. Of the decisions only `roll` and `move` have short words.
fn long_word(word: &[u8]) -> &[u8]
    ensures { result.now ≡ long_word word.now }
{
    match word {
        b"r" => b"roll",
        b"m" => b"move",
        b"k" => b"kibitz",
        b"t" => b"tell",
        b"?" => b"help",
        _ => word,
    }
}

/// Appends a word, and what follows it after one space.
fn append_word(word: &[u8], rest: Option<&[u8]>, text: &mut Vec<u8>) -> Result<(), AllocError>
    ensures { OnOk result (text.new.items ≡ text.old.items ++ joined word.now (seen rest.entry)) }
{
    text.extend_from_slice(word)?;
    if let Some(rest) = rest {
        text.extend_from_slice(b" ")?;
        text.extend_from_slice(rest)?;
    }
    Ok(())
}

/// Appends a line of small letters, with a long word for a short one, or the move that it says.
fn append_meaning(
    alloc: Global,
    client: &Client,
    numbers: Numbers,
    line: &[u8],
    text: &mut Vec<u8>,
) -> Result<(), AllocError>
    ensures { OnOk result ((t : Talk) → StandsAfter client.now t →
        Spells t (way_now numbers t) line.now text.old.items text.new.items) }
{
    let (word, rest) = split(line, b' ');
    match move_command(alloc, client, numbers, line)? {
        Some(command) => text.extend_from_slice(command.as_bytes()),
        None => append_word(long_word(word), rest, text),
    }
}

/// Appends a line in small letters, with a long word for a short one, or the move that it says.
fn append_plain(
    alloc: Global,
    client: &Client,
    numbers: Numbers,
    line: &[u8],
    text: &mut Vec<u8>,
) -> Result<(), AllocError>
    ensures { OnOk result ((t : Talk) → StandsAfter client.now t →
        Spells t (way_now numbers t) (small line.now) text.old.items text.new.items) }
{
    let small = line.to_ascii_lowercase(alloc)?;
    append_meaning(alloc, client, numbers, small.as_slice(), text)
}

/// Appends a line without the spaces at its ends, and its first word in small letters.
///
/// Errors: if memory runs out.
pub fn append_small_word(alloc: Global, line: &[u8], text: &mut Vec<u8>) -> Result<(), AllocError>
    ensures { OnOk result (text.new.items ≡ text.old.items ++ small_first line.now) }
{
    let (word, rest) = split(without_spaces(from_first_word(line)), b' ');
    let small = word.to_ascii_lowercase(alloc)?;
    append_word(small.as_slice(), rest, text)
}

/// Appends the spelling of a line that the client does not know: a move is read and spelled in these numbers. What is
/// sent to people stays as it is, but for the spaces before it and the case of its first word.
///
/// Errors: if memory runs out.
pub fn append_spelled(
    alloc: Global,
    client: &Client,
    numbers: Numbers,
    line: &[u8],
    text: &mut Vec<u8>,
) -> Result<(), AllocError>
    ensures talk { is_talk (first_word line.now) ≡ true →
        OnOk result (text.new.items ≡ text.old.items ++ talk_spelled line.now) }
    ensures name { is_talk (first_word line.now) ≡ false → takes_name (first_word line.now) ≡ true →
        OnOk result (text.new.items ≡ text.old.items ++ name_spelled line.now) }
    ensures plain { is_talk (first_word line.now) ≡ false → takes_name (first_word line.now) ≡ false →
        OnOk result ((t : Talk) → StandsAfter client.now t →
        Spells t (way_now numbers t) (small_line line.now) text.old.items text.new.items) }
{
    let line = from_first_word(line);
    let (word, rest) = split(line, b' ');
    let small = word.to_ascii_lowercase(alloc)?;
    let word = long_word(small.as_slice());
    if is_talk(word) {
        return append_word(word, rest, text);
    }
    if takes_name(word) {
        return append_word(word, rest.map(without_spaces), text);
    }
    append_plain(alloc, client, numbers, without_spaces(line), text)
}

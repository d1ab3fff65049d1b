//! What is said of a line that is no command: nothing is sent by a guess.
ghost use Rattle.std.specs.Prelude.{◌≡◌, ◌++◌, None, OnOk, true};
ghost use Rattle.fibs_advice.specs.Spelled.{small};
ghost use Rattle.fibs_fields.specs.Split.{before, seen};
ghost use Rattle.fibs_wording.specs.ServerWords.{is_leaving_word};
ghost use Rattle.fibs_terminal.specs.Unknown.{SaysForeign, SaysMeant, ShowsIfAny, ShowsRest, foreign_words, leaving_words};

use crate::telling::UNKNOWN;
use fibs_fields::split::split;
use fibs_wording::environment::Page;
use fibs_wording::environment::shown::append_shown;
use fibs_wording::help;
use fibs_wording::meant::meant_word;
use fibs_wording::server_words::{is_leaving_word, is_server_word};
use std::alloc::AllocError;

/// What is said of a word by which people leave.
const LEAVING: &[u8] = b"quit ends the program, bye leaves the server\n";

/// How many bytes of what follows a word are shown in a row: with the longest word the row fits.
const MOST_SHOWN: usize = 19;

/// Says how a command of the server is sent that the client does not have. If much follows its word, that is left out.
fn say_foreign(word: &[u8], rest: Option<&[u8]>, page: &mut Page<'_>) -> Result<(), AllocError>
    ensures alone { rest.entry ≡ None → OnOk result (page.new.text.items
        ≡ page.old.text.items ++ foreign_words word.now) }
    ensures more { OnOk result (SaysForeign word.now (seen rest.entry) page.old.text.items page.new.text.items) }
{
    page.text
        .extend_from_slice(b"not a word of this client: send ")?;
    page.text.extend_from_slice(word)?;
    append_if_any(rest, page)?;
    page.say(b" sends it as it is\n")
}

/// Says what follows a word, if anything does.
fn append_if_any(rest: Option<&[u8]>, page: &mut Page<'_>) -> Result<(), AllocError>
    ensures { OnOk result (ShowsIfAny (seen rest.entry) page.old.text.items page.new.text.items) }
{
    match rest {
        None => Ok(()),
        Some(rest) => append_rest(rest, page),
    }
}

/// Says what follows a word, after a space. If it is much, it is left out.
fn append_rest(rest: &[u8], page: &mut Page<'_>) -> Result<(), AllocError>
    ensures { OnOk result (ShowsRest rest.now page.old.text.items page.new.text.items) }
{
    page.text.extend_from_slice(b" ")?;
    if rest.len() > MOST_SHOWN {
        return page.text.extend_from_slice(b"..");
    }
    append_shown(rest, page.settings.utf8, &mut page.text)
}

/// Says which word may have been meant, if one is near.
fn say_meant(word: &[u8], page: &mut Page<'_>) -> Result<(), AllocError>
    ensures { OnOk result (SaysMeant word.now page.old.text.items page.new.text.items) }
{
    match meant_word(word) {
        None => page.say(UNKNOWN),
        Some(meant) => {
            append_shown(word, page.settings.utf8, &mut page.text)?;
            page.say(b": ")?;
            page.say(meant)?;
            page.say(b"?\n")
        }
    }
}

/// Says what to type in place of a line that is no command: nothing is sent by a guess.
pub(crate) fn say_unknown(line: &[u8], page: &mut Page<'_>) -> Result<(), AllocError>
    ensures { is_leaving_word (small (before 32 line.now)) ≡ true →
        OnOk result (page.new.text.items ≡ page.old.text.items ++ leaving_words) }
{
    let (word, rest) = split(line, b' ');
    let alloc = page.alloc;
    let small = word.to_ascii_lowercase(alloc)?;
    let word = small.as_slice();
    if is_leaving_word(word) {
        return page.say(LEAVING);
    }
    if is_server_word(word) {
        return say_foreign(word, rest, page);
    }
    match help::word_help(word) {
        Some(words) => page.say(words),
        None => say_meant(word, page),
    }
}

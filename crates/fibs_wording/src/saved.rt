//! The user's matches that the server has saved, as far as it has said so.
ghost use Rattle.std.specs.Prelude.{◌≡◌, ◌++◌, [], IfSome, OnOk, decimal, option_map, true};
ghost use Rattle.fibs_fields.specs.Bytes.{name_bytes};
ghost use Rattle.fibs_wording.specs.SavedMatches.{here_words, length_words, match_words, score_words};
ghost use Rattle.fibs_wording.specs.SavedLists.{HearsList, IsHead, IsRow, IsStarred, Keeps, SaysLength, head_words, in_front, match_of, saved_with, without, words};

use crate::environment::pieces::short_name;
use fibs_fields::boards::fields::UNLIMITED;
use fibs_fields::decimal::{append_number, read_decimal};
use fibs_fields::name::Name;
use fibs_fields::split::split;
use std::alloc::{AllocError, Global};

/// How many are kept: who has more has to ask the server.
const MOST_KEPT: usize = 100;

/// What the server answers if there is none.
const NONE: &[u8] = b"no saved games.";

/// How many points at most a match or a score has that is read.
const MOST_POINTS: u64 = 99_999_999;

/// A match that was saved.
#[derive(Drop)]
pub struct SavedMatch {
    /// The other player.
    pub name: Vec<u8>,
    /// The user's points.
    pub own: u64,
    /// The other player's points.
    pub other: u64,
    /// The length of the match; None if it is unlimited.
    pub length: Option<u64>,
}

/// The matches that the server has saved, as far as it has said so.
#[derive(Drop)]
pub struct SavedMatches {
    matches: Vec<SavedMatch>,
}

/// A row of the answer to `show saved`.
#[derive(Clone, Copy)]
struct Row<'a> {
    name: Name<'a>,
    own: u64,
    other: u64,
    length: Option<u64>,
}

/// A text without the spaces in front of it.
fn after_spaces(text: &[u8]) -> &[u8]
    ensures { words result.now ≡ words text.now }
{
    match text.iter().position(|byte| *byte != b' ') {
        None => b"",
        Some(at) => &text[at..],
    }
}

/// The first word of a text, and what follows it.
fn first_word(text: &[u8]) -> (&[u8], &[u8])
    ensures { words text.now ≡ in_front result.0.now (words result.1.now) }
{
    let (word, rest) = split(after_spaces(text), b' ');
    match rest {
        None => (word, b""),
        Some(rest) => (word, rest),
    }
}

/// What follows the first word of a text, if it is this one.
fn after_word<'a>(text: &'a [u8], word: &[u8]) -> Option<&'a [u8]>
    ensures { IfSome result (λ rest. words text.now ≡ in_front word.now (words rest.now)) }
{
    let (first, rest) = first_word(text);
    if first == word { Some(rest) } else { None }
}

/// What follows the words with which the answer to `show saved` begins, if a text begins with them.
fn after_head(text: &[u8]) -> Option<&[u8]>
    ensures { IfSome result (λ rest. words text.now ≡ head_words ++ words rest.now) }
{
    let rest = after_word(text, b"opponent")?;
    let rest = after_word(rest, b"matchlength")?;
    let rest = after_word(rest, b"score")?;
    let rest = after_word(rest, b"(your")?;
    let rest = after_word(rest, b"points")?;
    let rest = after_word(rest, b"first)")?;
    Some(rest)
}

/// Whether a text has no words.
fn is_blank(text: &[u8]) -> bool
    ensures { result ≡ true → words text.now ≡ [] }
{
    after_spaces(text).is_empty()
}

/// Whether a text is how that answer begins, with any spaces between its words; a row for each match follows. Below
/// other words the numbers of a row may say something else.
fn is_head(text: &[u8]) -> bool
    ensures { result ≡ true → IsHead text.now }
{
    match after_head(text) {
        None => false,
        Some(rest) => is_blank(rest),
    }
}

/// A name without the stars in front of it: they say that its player is logged in, and ready.
fn after_stars(name: &[u8]) -> &[u8]
    ensures { IsStarred name.now result.now }
{
    match name {
        [b'*', b'*', rest @ ..] | [b'*', rest @ ..] => rest,
        _ => name,
    }
}

/// A number of points.
fn points_in(word: &[u8]) -> Option<u64>
    ensures { IfSome result (λ points. word.now ≡ decimal points) }
{
    read_decimal(word, MOST_POINTS)
}

/// The length that a word says: None inside if it is unlimited.
fn length_in(word: &[u8]) -> Option<Option<u64>>
    ensures { IfSome result (λ length. SaysLength word.now length) }
{
    if word == b"unlimited".as_slice() {
        return Some(None);
    }
    match points_in(word) {
        // as a board has it
        Some(points) if points == u64::from(UNLIMITED.unsigned_abs()) => Some(None),
        Some(points) => Some(Some(points)),
        None => None,
    }
}

/// The row that a text is: a name, a length, the user's points, a dash, and the other player's.
fn read_row(text: &[u8]) -> Option<Row<'_>>
    ensures { IfSome result (λ row. IsRow text.now (match_of (name_bytes row.name) row.own row.other row.length)) }
{
    let (name, rest) = first_word(text);
    let (length, rest) = first_word(rest);
    let (own, rest) = first_word(rest);
    let rest = after_word(rest, b"-")?;
    let (other, rest) = first_word(rest);
    if !is_blank(rest) {
        return None;
    }
    let name = Name::new(after_stars(name))?;
    let own = points_in(own)?;
    let other = points_in(other)?;
    let length = length_in(length)?;
    Some(Row {
        name,
        own,
        other,
        length,
    })
}

impl SavedMatches {
    /// The server has said nothing.
    pub fn new(alloc: Global) -> SavedMatches {
        SavedMatches {
            matches: Vec::new(alloc),
        }
    }

    /// The match with a player that was saved, as far as is known.
    pub fn with(&self, name: &[u8]) -> Option<&SavedMatch>
        ensures { option_map (λ saved. saved.now) result ≡ saved_with name.now self.now.matches.items }
    {
        self.matches
            .iter()
            .find(|saved| saved.name.as_slice() == name)
    }

    /// The match with a player goes on, or is over, or there is none.
    pub fn forget(&mut self, name: &[u8])
        ensures { self.new.matches.items ≡ without name.now self.old.matches.items }
    {
        self.matches.retain(|saved| saved.name.as_slice() != name);
    }

    /// A match was saved. If there are many it is not kept.
    ///
    /// Errors: if memory runs out; then it is not kept.
    pub fn keep(
        &mut self,
        alloc: Global,
        name: &[u8],
        own: u64,
        other: u64,
        length: Option<u64>,
    ) -> Result<(), AllocError>
        ensures { OnOk result (Keeps (match_of name.now own other length)
            self.old.matches.items self.new.matches.items) }
    {
        self.forget(name);
        if self.matches.len() >= MOST_KEPT {
            return Ok(());
        }
        let name = Vec::from_slice(alloc, name)?;
        self.matches.push(SavedMatch {
            name,
            own,
            other,
            length,
        })?;
        Ok(())
    }

    /// Hears a text of the server: the answer to `show saved` replaces what was known. Whether its rows are coming is
    /// kept in `lists`.
    ///
    /// Errors: if memory runs out; then its match is not kept.
    #[tactic(auto, using(crate::proofs::SavedLemmas::hears_row))]
    pub fn hear_text(
        &mut self,
        alloc: Global,
        text: &[u8],
        lists: &mut bool,
    ) -> Result<(), AllocError>
        ensures { OnOk result (HearsList text.now lists.old self.old.matches.items lists.new self.new.matches.items) }
    {
        if is_head(text) {
            self.matches.clear();
            *lists = true;
            return Ok(());
        }
        if after_spaces(text) == NONE {
            self.matches.clear();
            *lists = false;
            return Ok(());
        }
        if !*lists {
            return Ok(());
        }
        let Some(row) = read_row(text) else {
            *lists = false;
            return Ok(());
        };
        self.keep(alloc, row.name.bytes(), row.own, row.other, row.length)
    }
}

/// Appends the length of a match, if it has one.
fn append_length(length: Option<u64>, text: &mut Vec<u8>) -> Result<(), AllocError>
    ensures { OnOk result (text.new.items ≡ text.old.items ++ length_words length) }
{
    match length {
        None => text.extend_from_slice(b""),
        Some(length) => {
            text.extend_from_slice(b" of ")?;
            append_number(length, text)
        }
    }
}

/// Appends the score of a match.
#[tactic(auto, unfolding(crate::specs::SavedMatches::score_words))]
fn append_score(
    own: u64,
    other: u64,
    length: Option<u64>,
    text: &mut Vec<u8>,
) -> Result<(), AllocError>
    ensures { OnOk result (text.new.items ≡ text.old.items ++ score_words own other length) }
{
    append_number(own, text)?;
    text.extend_from_slice(b"-")?;
    append_number(other, text)?;
    append_length(length, text)
}

/// Appends what is said of a match.
#[tactic(auto, unfolding(crate::specs::SavedMatches::match_words))]
fn append_match(
    own: u64,
    other: u64,
    length: Option<u64>,
    text: &mut Vec<u8>,
) -> Result<(), AllocError>
    ensures { OnOk result (text.new.items ≡ text.old.items ++ match_words own other length) }
{
    text.extend_from_slice(b" is here: your match (")?;
    append_score(own, other, length, text)?;
    text.extend_from_slice(b") is saved")
}

/// Appends that a player is here with whom a match was saved, and its score.
///
/// Errors: if memory runs out.
pub fn append_here(saved: &SavedMatch, text: &mut Vec<u8>) -> Result<(), AllocError>
    ensures { OnOk result (text.new.items ≡ text.old.items
        ++ here_words saved.now.name.items saved.now.own saved.now.other saved.now.length) }
{
    text.extend_from_slice(short_name(saved.name.as_slice()))?;
    append_match(saved.own, saved.other, saved.length, text)
}

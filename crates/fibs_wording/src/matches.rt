//! Matches that have ended: the score with which one did, a line of a file for each, and how they are listed.
ghost use Rattle.std.specs.Prelude.{◌≡◌, ◌<◌, ◌↔◌, ◌⊎◌, ◌++◌, [], Bool, IfSome, IsTrue, List, MatchOption, OnOk, Some, nat_lt, ℕ};
ghost use Rattle.fibs_fields.specs.Rating.{hundredths_of};
ghost use Rattle.fibs_fields.specs.Split.{after, before};
ghost use Rattle.fibs_wording.specs.Endings.{SaysEnding, SaysScore, SaysWinner};
ghost use Rattle.fibs_wording.specs.MatchRows.{AreSaid, balance_words, file_lines, none_words, won_of};
ghost use Rattle.fibs_wording.specs.Matches.{IsRatingField, SaysPlayed, after_tab, experience_field, final_score, is_won, later, match_line, opponent_in, played_fields, rated_fields, rating_field, score_field};

use crate::environment::shown::pad_from;
use crate::rated::append_change;
use fibs_fields::decimal::{append_number, read_decimal};
use fibs_fields::name::Name;
use fibs_fields::rating::append_rating;
use fibs_fields::split::split;
use std::alloc::{AllocError, Global};

/// How many matches are listed: with what is said of them they fit a screen.
const MOST_LISTED: usize = 16;

/// What stands above the columns.
const COLUMNS: &[u8] = b"ended             opponent              score       rating\n";

/// The columns of a date, of a name and of a score, and how much of a name is shown.
const DATE_COLUMNS: usize = 18;

const NAME_COLUMNS: usize = 22;

const NAME_SHOWN: usize = 20;

const SCORE_COLUMNS: usize = 12;

/// How long a date is at most.
const DATE_LENGTH: usize = 16;

/// How many points at most a match, a score or a player has that is read.
const MOST_POINTS: u64 = 99_999_999_999;

/// The highest rating before its point that is read.
const HIGHEST: u64 = 42_949_671;

/// What stands for what is not known.
const UNKNOWN: &[u8] = b"-";

/// The points of a match.
#[derive(Clone, Copy, Debug, PartialEq, Eq)]
pub struct Score {
    /// The length of the match.
    pub length: u64,
    /// The user's points.
    pub own: u64,
    /// The opponent's points.
    pub other: u64,
}

impl Score {
    /// Whether the match is over: a player has the points of its length.
    pub fn is_won(self) -> bool
        ensures { result ≡ is_won self }
    {
        self.length <= self.own || self.length <= self.other
    }
}

/// The score with which a match has ended: that of the board that came last, if the match is over on it; else that
/// which a text says.
pub fn final_score(board: Option<Score>, text: Option<Score>) -> Option<Score>
    ensures { result ≡ final_score board text }
{
    match board {
        Some(score) if score.is_won() => Some(score),
        _ => text,
    }
}

/// What a text says of the end of a match of the user.
#[derive(Clone, Copy, Debug, PartialEq, Eq)]
pub struct Ending {
    /// The score, if it can be read.
    pub score: Option<Score>,
}

/// Whether the user has won, and what follows that, in a text of the end of a match with this opponent.
fn after_winner<'a>(text: &'a [u8], opponent: &[u8]) -> Option<(bool, &'a [u8])>
    ensures { MatchOption result ((won : Bool) (rest : List ℕ) → ¬ SaysWinner text.now opponent.now won rest)
        (λ told. SaysWinner text.now opponent.now told.0 told.1.now) }
{
    if let Some(rest) = text.strip_prefix(b"You win the ") {
        return Some((true, rest));
    }
    let rest = text.strip_prefix(opponent)?;
    Some((false, rest.strip_prefix(b" wins the ")?))
}

/// The score in what follows the winner: `3 point match 3-1 .`, whose points come first.
fn score_in(won: bool, rest: &[u8]) -> Option<Score>
    ensures { MatchOption result ((s : Score) → ¬ SaysScore won rest.now s) (λ s. SaysScore won rest.now s) }
{
    let (length, rest) = split(rest, b' ');
    let rest = rest?.strip_prefix(b"point match ")?;
    let (winner, loser) = split(split(rest, b' ').0, b'-');
    let winner = read_decimal(winner, MOST_POINTS)?;
    let loser = read_decimal(loser?, MOST_POINTS)?;
    let (own, other) = if won {
        (winner, loser)
    } else {
        (loser, winner)
    };
    let length = read_decimal(length, MOST_POINTS)?;
    let score = Score { length, own, other };
    if score.is_won() && loser < winner {
        Some(score)
    } else {
        None
    }
}

/// What a text says of the end of a match of the user with this opponent: `You win the 3 point match 3-1 .`, or
/// `bob wins the 3 point match 3-1 .`. None if it is of others.
pub fn read_ending(text: &[u8], opponent: &[u8]) -> Option<Ending>
    ensures { MatchOption result ((won : Bool) (rest : List ℕ) → ¬ SaysWinner text.now opponent.now won rest)
        (λ ending. SaysEnding text.now opponent.now ending) }
{
    let (won, rest) = after_winner(text, opponent)?;
    Some(Ending {
        score: score_in(won, rest),
    })
}

/// A match that has ended, as a line of the file has it.
#[derive(Clone, Copy, Debug, PartialEq, Eq)]
pub struct PlayedMatch<'a> {
    /// When it ended, as `2003-01-05 14:05`; `-` if that is not known.
    pub date: &'a [u8],
    /// The name of the opponent.
    pub opponent: &'a [u8],
    /// Its score.
    pub score: Score,
    /// The user's rating before it, in hundredths, if it is known.
    pub before: Option<u32>,
    /// The user's rating after it.
    pub after: Option<u32>,
    /// The user's experience after it.
    pub experience: Option<u64>,
}

/// Appends a rating, if it is known.
fn append_rating_field(rating: Option<u32>, text: &mut Vec<u8>) -> Result<(), AllocError>
    ensures { OnOk result (text.new.items ≡ text.old.items ++ rating_field rating) }
{
    match rating {
        None => text.extend_from_slice(UNKNOWN),
        Some(rating) => append_rating(text, rating),
    }
}

/// Appends the points of the matches that the user has played, if they are known.
fn append_experience_field(experience: Option<u64>, text: &mut Vec<u8>) -> Result<(), AllocError>
    ensures { OnOk result (text.new.items ≡ text.old.items ++ experience_field experience) }
{
    match experience {
        None => text.extend_from_slice(UNKNOWN),
        Some(points) => append_number(points, text),
    }
}

/// Appends the user's points and the opponent's.
#[tactic(auto, unfolding(crate::specs::Matches::score_field))]
fn append_score(own: u64, other: u64, text: &mut Vec<u8>) -> Result<(), AllocError>
    ensures { OnOk result (text.new.items ≡ text.old.items ++ score_field own other) }
{
    append_number(own, text)?;
    text.extend_from_slice(b"-")?;
    append_number(other, text)
}

/// Appends the last three fields of a line, and its end.
#[tactic(auto, unfolding(crate::specs::Matches::rated_fields))]
fn append_rated_fields(
    before: Option<u32>,
    after: Option<u32>,
    experience: Option<u64>,
    text: &mut Vec<u8>,
) -> Result<(), AllocError>
    ensures { OnOk result (text.new.items ≡ text.old.items ++ rated_fields before after experience) }
{
    append_rating_field(before, text)?;
    text.extend_from_slice(b"\t")?;
    append_rating_field(after, text)?;
    text.extend_from_slice(b"\t")?;
    append_experience_field(experience, text)?;
    text.extend_from_slice(b"\n")
}

/// Appends the last five fields of a line.
#[tactic(auto, unfolding(crate::specs::Matches::played_fields))]
fn append_played(
    score: Score,
    before: Option<u32>,
    after: Option<u32>,
    experience: Option<u64>,
    text: &mut Vec<u8>,
) -> Result<(), AllocError>
    ensures { OnOk result (text.new.items ≡ text.old.items
        ++ played_fields score.length score.own score.other before after experience) }
{
    append_number(score.length, text)?;
    text.extend_from_slice(b"\t")?;
    append_score(score.own, score.other, text)?;
    text.extend_from_slice(b"\t")?;
    append_rated_fields(before, after, experience, text)
}

/// Appends the line of a match.
///
/// Errors: if memory runs out.
#[tactic(auto, unfolding(crate::specs::Matches::match_line))]
pub fn append_line(played: &PlayedMatch<'_>, text: &mut Vec<u8>) -> Result<(), AllocError>
    ensures { OnOk result (text.new.items ≡ text.old.items ++ match_line played.now.date.now
        played.now.opponent.now played.now.score.length played.now.score.own played.now.score.other
        played.now.before played.now.after played.now.experience) }
{
    text.extend_from_slice(played.date)?;
    text.extend_from_slice(b"\t")?;
    text.extend_from_slice(played.opponent)?;
    text.extend_from_slice(b"\t")?;
    append_played(
        played.score,
        played.before,
        played.after,
        played.experience,
        text,
    )
}

/// The field at the front of a line, and what follows the tab after it; nothing if there is no tab.
fn next_field(line: &[u8]) -> (&[u8], &[u8])
    ensures field { result.0.now ≡ before 9 line.now }
    ensures rest { result.1.now ≡ after_tab (after 9 line.now) }
{
    let (field, rest) = split(line, b'\t');
    match rest {
        None => (field, b""),
        Some(rest) => (field, rest),
    }
}

/// The second field of a line.
fn opponent_field(line: &[u8]) -> &[u8]
    ensures { result.now ≡ opponent_in line.now }
{
    let (_date, rest) = next_field(line);
    next_field(rest).0
}

/// Whether a field can be a date.
fn is_date(field: &[u8]) -> bool {
    !field.is_empty()
        && field.len() <= DATE_LENGTH
        && field
            .iter()
            .all(|byte| matches!(*byte, b'0'..=b'9' | b'-' | b':' | b' '))
}

/// The rating that a field says; None inside if it is not known.
#[tactic(auto, unfolding(fibs_fields::specs::Decimal::decimal_up_to))]
fn rating_in(field: &[u8]) -> Option<Option<u32>>
    ensures { IfSome result (λ rating. IsRatingField field.now rating) }
{
    if field == UNKNOWN {
        return Some(None);
    }
    let (whole, fraction) = split(field, b'.');
    let hundredths = hundredths_in(fraction?)?;
    let whole = read_decimal(whole, HIGHEST)?;
    let rating = whole.saturating_mul(100).saturating_add(hundredths);
    if rating <= u64::from(u32::MAX) {
        Some(Some(rating as u32))
    } else {
        None
    }
}

/// The hundredths that two digits say.
fn hundredths_in(digits: &[u8]) -> Option<u64>
    ensures value { IfSome result (λ n. n ≡ hundredths_of (Some digits.now)) }
    ensures few { IfSome result (λ n. n < 100) }
{
    match digits {
        [tenths, last] if tenths.is_ascii_digit() && last.is_ascii_digit() => {
            Some(10 * u64::from(*tenths - b'0') + u64::from(*last - b'0'))
        }
        _ => None,
    }
}

/// The experience that a field says; None inside if it is not known.
fn experience_in(field: &[u8]) -> Option<Option<u64>>
    ensures { IfSome result (λ points. field.now ≡ experience_field points) }
{
    if field == UNKNOWN {
        return Some(None);
    }
    Some(Some(read_decimal(field, MOST_POINTS)?))
}

/// What the last five fields of a line say: the score, the ratings before and after the match, and the experience.
type Played = (Score, Option<u32>, Option<u32>, Option<u64>);

/// What the last five fields of a line say.
fn read_played(fields: &[u8]) -> Option<Played>
    ensures { IfSome result (λ played. SaysPlayed fields.now played.0 played.1 played.2 played.3) }
{
    let (length, rest) = next_field(fields);
    let (points, rest) = next_field(rest);
    let (own, other) = split(points, b'-');
    let (before, rest) = next_field(rest);
    let (after, experience) = next_field(rest);
    let score = Score {
        length: read_decimal(length, MOST_POINTS)?,
        own: read_decimal(own, MOST_POINTS)?,
        other: read_decimal(other?, MOST_POINTS)?,
    };
    Some((
        score,
        rating_in(before)?,
        rating_in(after)?,
        experience_in(experience)?,
    ))
}

/// The match that a line says. None if it is not a whole one.
pub fn read_match(line: &[u8]) -> Option<PlayedMatch<'_>>
    ensures date { IfSome result (λ played. played.date.now ≡ before 9 line.now) }
    ensures opponent { IfSome result (λ played. played.opponent.now ≡ opponent_in line.now) }
    ensures played { IfSome result (λ played. SaysPlayed (later (later line.now))
        played.score played.before played.after played.experience) }
{
    let opponent = Name::new(opponent_field(line))?;
    let (date, rest) = next_field(line);
    let (_opponent, fields) = next_field(rest);
    if !is_date(date) {
        return None;
    }
    let (score, before, after, experience) = read_played(fields)?;
    Some(PlayedMatch {
        date,
        opponent: opponent.bytes(),
        score,
        before,
        after,
        experience,
    })
}

impl PlayedMatch<'_> {
    /// Whether it is listed if the matches with a player are asked for; if no name is given, all are.
    fn is_asked_for(&self, name: &[u8]) -> bool
        ensures { IsTrue result ↔ ((name.now ≡ []) ⊎ (self.now.opponent.now ≡ name.now)) }
    {
        name.is_empty() || self.opponent == name
    }

    /// Whether the user has won it.
    fn is_won(&self) -> bool
        ensures { result ≡ nat_lt self.now.score.other self.now.score.own }
    {
        self.score.other < self.score.own
    }

    /// Appends its row: when it ended, with whom, its score and its length, and what has become of the rating.
    fn append_row(&self, text: &mut Vec<u8>) -> Result<(), AllocError> {
        let start = text.len();
        text.extend_from_slice(self.date)?;
        pad_from(start, DATE_COLUMNS, text)?;
        text.extend_from_slice(&self.opponent[..self.opponent.len().min(NAME_SHOWN)])?;
        pad_from(start, DATE_COLUMNS + NAME_COLUMNS, text)?;
        append_score(self.score.own, self.score.other, text)?;
        text.extend_from_slice(b" of ")?;
        append_number(self.score.length, text)?;
        if let Some(after) = self.after {
            text.extend_from_slice(b" ")?;
            pad_from(start, DATE_COLUMNS + NAME_COLUMNS + SCORE_COLUMNS, text)?;
            append_rating(text, after)?;
            if let Some(before) = self.before {
                text.extend_from_slice(b" (")?;
                append_change(before, after, text)?;
                text.extend_from_slice(b")")?;
            }
        }
        text.extend_from_slice(b"\n")
    }
}

/// Pushes each match of a file that is asked for. What is no whole line is left out.
fn push_asked_for<'a>(
    file: &'a [u8],
    name: &[u8],
    found: &mut Vec<PlayedMatch<'a>>,
) -> Result<(), AllocError>
    ensures { OnOk result ((asked : List PlayedMatch) × (found.new.items ≡ found.old.items ++ asked)
        × AreSaid name.now (file_lines file.now) asked) }
{
    for line in file.split(|byte| *byte == b'\n') {
        if let Some(played) = read_match(line) {
            if played.is_asked_for(name) {
                found.push(played)?;
            }
        }
    }
    Ok(())
}

/// How many of these matches the user has won.
fn won(found: &[PlayedMatch<'_>]) -> usize
    ensures { result ≡ won_of found.now }
{
    found.iter().filter(|played| played.is_won()).count()
}

/// Appends how many of these matches with a player, or with all, were won and lost.
fn append_balance(
    name: &[u8],
    found: &[PlayedMatch<'_>],
    text: &mut Vec<u8>,
) -> Result<(), AllocError>
    ensures { OnOk result (text.new.items ≡ text.old.items ++ balance_words name.now found.now) }
{
    if name.is_empty() {
        append_number(found.len(), text)?;
        text.extend_from_slice(if found.len() == 1 {
            b" match"
        } else {
            b" matches"
        })?;
    } else {
        text.extend_from_slice(name)?;
    }
    let won = won(found);
    text.extend_from_slice(b": ")?;
    append_number(won, text)?;
    text.extend_from_slice(b" won, ")?;
    append_number(found.len().saturating_sub(won), text)?;
    text.extend_from_slice(b" lost.\n")
}

/// Appends that there is no match in the file, or none with a player.
fn append_none(name: &[u8], text: &mut Vec<u8>) -> Result<(), AllocError>
    ensures { OnOk result (text.new.items ≡ text.old.items ++ none_words name.now) }
{
    text.extend_from_slice(b"No match")?;
    if Name::new(name).is_some() {
        text.extend_from_slice(b" with ")?;
        text.extend_from_slice(&name[..name.len().min(NAME_SHOWN)])?;
    }
    text.extend_from_slice(b" is recorded.\n")
}

/// Appends a row for each of the last matches of a file, a screen at most: those with a player, if a name is given; and
/// how many of all of them were won and lost.
///
/// Errors: if memory runs out.
pub fn append_matches(
    alloc: Global,
    file: &[u8],
    name: &[u8],
    text: &mut Vec<u8>,
) -> Result<(), AllocError> {
    let mut found = Vec::new(alloc);
    push_asked_for(file, name, &mut found)?;
    if found.is_empty() {
        return append_none(name, text);
    }
    let first = found.len().saturating_sub(MOST_LISTED);
    if first > 0 {
        text.extend_from_slice(b"The last ")?;
        append_number(found.len() - first, text)?;
        text.extend_from_slice(b" of ")?;
        append_number(found.len(), text)?;
        text.extend_from_slice(b":\n")?;
    }
    text.extend_from_slice(COLUMNS)?;
    for played in &found.as_slice()[first..] {
        played.append_row(text)?;
    }
    append_balance(name, found.as_slice(), text)
}

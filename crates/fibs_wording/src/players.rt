//! The players that a terminal lists: those that were asked for, and no more than a screen has room for.

use crate::environment::shown::{append_shown, pad_from};
use crate::lists::append_count;
use crate::messages::append_state;
use crate::saved::SavedMatches;
use fibs_fields::decimal::append_number;
use fibs_fields::rating::append_rating;
use fibs_session::{Directory, Player};
use itoa::Buffer;
use std::alloc::{AllocError, Global};

/// How many players are listed, unless all are asked for.
const MOST_LISTED: usize = 16;

/// What stands above the columns.
const COLUMNS: &[u8] = b"player                  rating  points    idle   does\n";

/// The columns of a name, and how much of it is shown there.
const NAME_COLUMNS: usize = 22;

const NAME_SHOWN: usize = 20;

/// What follows the name of a player with whom a match is saved, and what is said of it below the list.
const STAR: &[u8] = b" *";

const STAR_WORDS: &[u8] = b"* your match with this player is saved: invite NAME resumes it.\n";

/// How much is shown of the name of whom a player plays or watches: with the longest words the row fits.
const OTHER_SHOWN: usize = 16;

/// The columns of a count of points, and of the time since a player typed.
const POINTS_COLUMNS: usize = 8;

const IDLE_COLUMNS: usize = 6;

/// The lowest ratings of four, three and two digits before the point, in hundredths: a lower one is a column to the
/// right.
const LEAST_RATINGS: [u32; 3] = [100_000, 10_000, 1_000];

/// What makes a whole point of a rating, and half of it.
const HUNDRED: u32 = 100;

const HALF: u32 = 50;

/// How many bytes of the words that ask for a list are said again: with the rest the row fits.
const MOST_SAID: usize = 40;

/// A word that says which players are asked for.
#[derive(Clone, Copy)]
enum Choice {
    Ready,
    Playing,
    All,
}

/// The words that say which players are asked for.
const KEYWORDS: [(&[u8], Choice); 3] = [
    (b"ready", Choice::Ready),
    (b"playing", Choice::Playing),
    (b"all", Choice::All),
];

/// The words that say which players are asked for, each with its bytes.
fn keywords() -> &'static [(&'static [u8], Choice)] {
    &KEYWORDS
}

/// What a word says that is one of them, in whatever letters.
fn choice_of(word: &[u8]) -> Option<Choice> {
    for (name, choice) in keywords() {
        if name.eq_ignore_ascii_case(word) {
            return Some(*choice);
        }
    }
    None
}

/// Which players are asked for.
#[derive(Clone, Copy)]
pub struct Wanted<'a> {
    /// The words that ask for them.
    words: &'a [u8],
    /// Only those who are ready, and play with nobody.
    ready: bool,
    /// Only those who play.
    playing: bool,
    /// Only those whose name begins with one of the words.
    named: bool,
    /// All of them, and not only a screen.
    all: bool,
}

impl<'a> Wanted<'a> {
    /// What words ask for: `ready`, `playing`, `all`, or how a name begins, in any order.
    pub fn read(words: &'a [u8]) -> Wanted<'a> {
        let mut wanted = Wanted {
            words,
            ready: false,
            playing: false,
            named: false,
            all: false,
        };
        for word in words.split(|byte| *byte == b' ') {
            match choice_of(word) {
                Some(Choice::Ready) => wanted.ready = true,
                Some(Choice::Playing) => wanted.playing = true,
                Some(Choice::All) => wanted.all = true,
                None => wanted.named |= !word.is_empty(),
            }
        }
        wanted
    }

    /// Whether a player is asked for.
    fn includes(&self, player: &Player) -> bool {
        let plays = player.opponent.as_slice() != b"-".as_slice();
        (!self.ready || player.ready && !plays)
            && (!self.playing || plays)
            && (!self.named || self.names(player.name.as_slice()))
    }

    /// Whether a name begins with one of the words.
    fn names(&self, name: &[u8]) -> bool {
        for word in self.words.split(|byte| *byte == b' ') {
            if !word.is_empty() && choice_of(word).is_none() && begins_with(name, word) {
                return true;
            }
        }
        false
    }
}

/// Whether a name begins with a word, in whatever letters.
fn begins_with(name: &[u8], word: &[u8]) -> bool {
    word.len() <= name.len() && name[..word.len()].eq_ignore_ascii_case(word)
}

/// What is known of the user who asks for a list.
#[derive(Clone, Copy)]
pub struct Asker<'a> {
    /// The name; empty if the server has not said it.
    pub name: &'a [u8],
    /// The rating in hundredths, if the server has said it.
    pub rating: Option<u32>,
    /// The matches that are saved.
    pub saved: &'a SavedMatches,
    /// Whether boards are told in words: then players are, too.
    pub is_told: bool,
}

/// How far a rating is from the user's own; if that is not known, from the best there can be.
fn distance(rating: u32, own: Option<u32>) -> u32 {
    match own {
        Some(own) => rating.abs_diff(own),
        None => u32::MAX - rating,
    }
}

/// How near a player is, and the place in the directory.
type Near = (u32, usize);

/// Pushes each player who is asked for, but not the one who asks.
fn push_wanted(
    directory: &Directory,
    wanted: Wanted<'_>,
    asker: &Asker<'_>,
    found: &mut Vec<Near>,
) -> Result<(), AllocError> {
    for place in 0..directory.len() {
        if let Some(player) = directory.at(place) {
            if wanted.includes(player) && player.name.as_slice() != asker.name {
                found.push((distance(player.rating, asker.rating), place))?;
            }
        }
    }
    Ok(())
}

/// How many players words ask for, without the one of this name.
pub fn count_players(directory: &Directory, words: &[u8], name: &[u8]) -> usize {
    let wanted = Wanted::read(words);
    let mut count = 0usize;
    for place in 0..directory.len() {
        if let Some(player) = directory.at(place) {
            if wanted.includes(player) && player.name.as_slice() != name {
                count = count.saturating_add(1);
            }
        }
    }
    count
}

/// Appends a number at the right of its columns, after a space at least.
fn append_right(number: u64, columns: usize, text: &mut Vec<u8>) -> Result<(), AllocError> {
    let mut room = Buffer::new();
    let digits = room.format(number).as_bytes();
    for _ in digits.len()..columns.max(digits.len() + 1) {
        text.extend_from_slice(b" ")?;
    }
    text.extend_from_slice(digits)
}

/// Appends a rating at the right of its columns, after a space.
fn append_rating_right(rating: u32, text: &mut Vec<u8>) -> Result<(), AllocError> {
    for least in LEAST_RATINGS {
        if rating < least {
            text.extend_from_slice(b" ")?;
        }
    }
    text.extend_from_slice(b" ")?;
    append_rating(text, rating)
}

/// Appends how long ago a player typed: in minutes, hours or days.
fn append_idle(seconds: u64, text: &mut Vec<u8>) -> Result<(), AllocError> {
    let (count, unit): (u64, &[u8]) = if seconds < 3600 {
        (seconds / 60, b" m")
    } else if seconds < 86_400 {
        (seconds / 3600, b" h")
    } else {
        (seconds / 86_400, b" d")
    };
    append_right(count, IDLE_COLUMNS, text)?;
    text.extend_from_slice(unit)
}

/// The first bytes of a name.
fn first(name: &[u8], most: usize) -> &[u8] {
    &name[..name.len().min(most)]
}

/// Appends the row of a player: name, whether a match is saved, rating, points played, how long idle, and what he does.
fn append_row(player: &Player, is_saved: bool, text: &mut Vec<u8>) -> Result<(), AllocError> {
    let start = text.len();
    text.extend_from_slice(first(player.name.as_slice(), NAME_SHOWN))?;
    if is_saved {
        text.extend_from_slice(STAR)?;
    }
    pad_from(start, NAME_COLUMNS, text)?;
    append_rating_right(player.rating, text)?;
    append_right(player.experience, POINTS_COLUMNS, text)?;
    append_idle(player.idle, text)?;
    text.extend_from_slice(b"   ")?;
    append_state(
        first(player.opponent.as_slice(), OTHER_SHOWN),
        first(player.watching.as_slice(), OTHER_SHOWN),
        player.ready,
        player.away,
        text,
    )?;
    text.extend_from_slice(b"\n")
}

/// Appends that a player is rated so, in whole points: the nearest.
fn append_rated(rating: u32, text: &mut Vec<u8>) -> Result<(), AllocError> {
    text.extend_from_slice(b", rated ")?;
    append_number(rating.saturating_add(HALF) / HUNDRED, text)
}

/// Appends how long ago a player typed, in words: nothing if it is less than an hour.
fn append_idle_words(seconds: u64, text: &mut Vec<u8>) -> Result<(), AllocError> {
    let (count, one, more): (u64, &[u8], &[u8]) = if seconds < 3600 {
        return Ok(());
    } else if seconds < 86_400 {
        (seconds / 3600, b" hour", b" hours")
    } else {
        (seconds / 86_400, b" day", b" days")
    };
    text.extend_from_slice(b", idle for ")?;
    append_number(count, text)?;
    text.extend_from_slice(if count == 1 { one } else { more })
}

/// Appends a player in a sentence: name, rating, points played, what he does, how long idle, and whether a match is
/// saved.
fn append_sentence(player: &Player, is_saved: bool, text: &mut Vec<u8>) -> Result<(), AllocError> {
    text.extend_from_slice(first(player.name.as_slice(), NAME_SHOWN))?;
    append_rated(player.rating, text)?;
    text.extend_from_slice(b", experience ")?;
    append_number(player.experience, text)?;
    text.extend_from_slice(b", ")?;
    append_state(
        first(player.opponent.as_slice(), OTHER_SHOWN),
        first(player.watching.as_slice(), OTHER_SHOWN),
        player.ready,
        player.away,
        text,
    )?;
    append_idle_words(player.idle, text)?;
    if is_saved {
        text.extend_from_slice(b", your match is saved")?;
    }
    text.extend_from_slice(b".\n")
}

/// Appends a sentence for each of these players.
fn append_sentences(
    found: &[Near],
    directory: &Directory,
    saved: &SavedMatches,
    text: &mut Vec<u8>,
) -> Result<(), AllocError> {
    for (_, place) in found {
        if let Some(player) = directory.at(*place) {
            let is_saved = saved.with(player.name.as_slice()).is_some();
            append_sentence(player, is_saved, text)?;
        }
    }
    Ok(())
}

/// Appends these players: a table, or if boards are told in words a sentence for each.
fn append_listed(
    found: &[Near],
    directory: &Directory,
    asker: &Asker<'_>,
    text: &mut Vec<u8>,
) -> Result<(), AllocError> {
    if asker.is_told {
        append_sentences(found, directory, asker.saved, text)
    } else {
        append_rows(found, directory, asker.saved, text)
    }
}

/// Appends a row for each of these players, and what a star says, if there is one.
fn append_rows(
    found: &[Near],
    directory: &Directory,
    saved: &SavedMatches,
    text: &mut Vec<u8>,
) -> Result<(), AllocError> {
    text.extend_from_slice(COLUMNS)?;
    let mut has_star = false;
    for (_, place) in found {
        if let Some(player) = directory.at(*place) {
            let is_saved = saved.with(player.name.as_slice()).is_some();
            has_star |= is_saved;
            append_row(player, is_saved, text)?;
        }
    }
    if has_star {
        text.extend_from_slice(STAR_WORDS)?;
    }
    Ok(())
}

/// Appends that nobody is asked for of so many players.
fn append_nobody(count: usize, text: &mut Vec<u8>) -> Result<(), AllocError> {
    if count == 0 {
        return text.extend_from_slice(b"Nobody is listed: who asks for the list.\n");
    }
    text.extend_from_slice(b"Nobody of ")?;
    append_count(count, text)?;
    text.extend_from_slice(b".\n")
}

/// Appends how many more there are, and what to type for them.
fn append_more(more: usize, words: &[u8], text: &mut Vec<u8>) -> Result<(), AllocError> {
    text.extend_from_slice(b".. ")?;
    append_number(more, text)?;
    text.extend_from_slice(b" more: players ")?;
    if words.len() > MOST_SAID {
        return text.extend_from_slice(b".. all\n");
    }
    if !words.is_empty() {
        append_shown(words, false, text)?;
        text.extend_from_slice(b" ")?;
    }
    text.extend_from_slice(b"all\n")
}

/// Appends by what the players are ordered.
fn append_order(own: Option<u32>, text: &mut Vec<u8>) -> Result<(), AllocError> {
    let Some(own) = own else {
        return text.extend_from_slice(b"The best first:\n");
    };
    text.extend_from_slice(b"Nearest to your ")?;
    append_rating(text, own)?;
    text.extend_from_slice(b" first:\n")
}

/// Appends a row for each player who is asked for but the user, at most a screen of them unless all are, and how many
/// there are. Those whose rating is nearest to the user's own come first; if that is not known, the best. A star marks
/// those with whom a match is saved.
///
/// The words are `ready` (and plays with nobody), `playing`, `all`, and how names begin; without a word it is
/// everybody.
///
/// Errors: if memory runs out.
pub fn append_players(
    alloc: Global,
    directory: &Directory,
    words: &[u8],
    asker: &Asker<'_>,
    text: &mut Vec<u8>,
) -> Result<(), AllocError> {
    let wanted = Wanted::read(words);
    let mut found = Vec::new(alloc);
    push_wanted(directory, wanted, asker, &mut found)?;
    if found.is_empty() {
        return append_nobody(directory.len(), text);
    }
    found.sort_by_key(|near| near.0)?;
    if wanted.all || found.len() <= MOST_LISTED {
        append_listed(found.as_slice(), directory, asker, text)?;
        append_count(found.len(), text)?;
        return text.extend_from_slice(b".\n");
    }
    append_order(asker.rating, text)?;
    append_listed(&found.as_slice()[..MOST_LISTED], directory, asker, text)?;
    append_more(found.len() - MOST_LISTED, words, text)
}

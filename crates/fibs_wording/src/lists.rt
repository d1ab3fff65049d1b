//! A player in a row, and how many players there are.
ghost use Rattle.std.specs.Prelude.{◌≡◌, ◌++◌, OnOk};
ghost use Rattle.fibs_wording.specs.Greetings.{greeting_words, next_words, others_words, rated_words, ready_words, some_ready};

use crate::environment::pieces::short_name;
use crate::environment::shown::pad_from;
use crate::messages::append_state;
use fibs_fields::decimal::append_number;
use fibs_fields::rating::append_rating;
use fibs_session::Player;
use std::alloc::AllocError;

/// The columns of a name.
const NAME_COLUMNS: usize = 26;

/// The columns of a name and a rating.
const RATED_COLUMNS: usize = 36;

/// Appends the name and the rating of a player, in their columns.
fn append_rated(player: &Player, text: &mut Vec<u8>) -> Result<(), AllocError> {
    let start = text.len();
    text.extend_from_slice(short_name(player.name.as_slice()))?;
    pad_from(start, NAME_COLUMNS, text)?;
    append_rating(text, player.rating)?;
    pad_from(start, RATED_COLUMNS, text)
}

/// Appends the row of a player: his name, his rating, and what he does.
pub fn append_row(player: &Player, text: &mut Vec<u8>) -> Result<(), AllocError> {
    append_rated(player, text)?;
    append_state(
        short_name(player.opponent.as_slice()),
        short_name(player.watching.as_slice()),
        player.ready,
        player.away,
        text,
    )?;
    text.extend_from_slice(b"\n")
}

/// Appends how many players there are: `26 players`.
pub fn append_count(count: usize, text: &mut Vec<u8>) -> Result<(), AllocError> {
    append_number(count, text)?;
    text.extend_from_slice(if count == 1 { b" player" } else { b" players" })
}

/// What to type after a login: who can be invited, if anybody can; nothing if the user is not free for it.
fn next_words(others: usize, ready: usize, is_free: bool) -> &'static [u8]
    ensures { result.now ≡ next_words others ready is_free }
{
    if !is_free || others == 0 {
        b""
    } else if ready == 0 {
        b" players lists them."
    } else {
        b" Type players ready, then invite NAME 5."
    }
}

/// Appends a number of players who can be invited.
#[tactic(auto, unfolding(crate::specs::Greetings::some_ready))]
fn append_some_ready(ready: usize, text: &mut Vec<u8>) -> Result<(), AllocError>
    ensures { OnOk result (text.new.items ≡ text.old.items ++ some_ready ready) }
{
    text.extend_from_slice(b", ")?;
    append_number(ready, text)?;
    text.extend_from_slice(b" ready.")
}

/// Appends how many of the others can be invited.
fn append_ready(ready: usize, text: &mut Vec<u8>) -> Result<(), AllocError>
    ensures { OnOk result (text.new.items ≡ text.old.items ++ ready_words ready) }
{
    if ready == 0 {
        text.extend_from_slice(b", none ready.")
    } else {
        append_some_ready(ready, text)
    }
}

/// Appends how many others there are, and how many of them can be invited.
fn append_others(others: usize, ready: usize, text: &mut Vec<u8>) -> Result<(), AllocError>
    ensures { OnOk result (text.new.items ≡ text.old.items ++ others_words others ready) }
{
    if others == 0 {
        return text.extend_from_slice(b"Nobody else is here.");
    }
    append_number(others, text)?;
    text.extend_from_slice(if others == 1 { b" player" } else { b" players" })?;
    append_ready(ready, text)
}

/// Appends the user's rating, in hundredths, if it is known.
fn append_own_rating(rating: Option<u32>, text: &mut Vec<u8>) -> Result<(), AllocError>
    ensures { OnOk result (text.new.items ≡ text.old.items ++ rated_words rating) }
{
    match rating {
        None => Ok(()),
        Some(rating) => {
            text.extend_from_slice(b"Rated ")?;
            append_rating(text, rating)?;
            text.extend_from_slice(b". ")
        }
    }
}

/// Appends the row that ends a login: the user's rating, in hundredths, how many others there are, how many of them can
/// be invited, and what to type next, if the user is free to invite one.
///
/// Errors: if memory runs out.
pub fn append_greeting(
    rating: Option<u32>,
    others: usize,
    ready: usize,
    is_free: bool,
    text: &mut Vec<u8>,
) -> Result<(), AllocError>
    ensures { OnOk result (text.new.items ≡ text.old.items ++ greeting_words rating others ready is_free) }
{
    append_own_rating(rating, text)?;
    append_others(others, ready, text)?;
    text.extend_from_slice(next_words(others, ready, is_free))
}

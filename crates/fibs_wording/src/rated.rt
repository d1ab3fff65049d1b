//! The user's own rating, and what a match has changed of it, in words.
ghost use Rattle.std.specs.Prelude.{◌≡◌, ◌++◌, OnOk};
ghost use Rattle.fibs_wording.specs.Rated.{change_words, changed_words, points_words, rated_words};

use fibs_fields::decimal::append_number;
use fibs_fields::rating::append_rating;
use std::alloc::AllocError;

/// Appends by how much a rating has changed, with its sign. Ratings are in hundredths.
#[tactic(auto, unfolding(crate::specs::Rated::change_words))]
pub(crate) fn append_change(before: u32, now: u32, text: &mut Vec<u8>) -> Result<(), AllocError>
    ensures { OnOk result (text.new.items ≡ text.old.items ++ change_words before now) }
{
    if now < before {
        text.extend_from_slice(b"-")?;
        append_rating(text, before - now)
    } else {
        text.extend_from_slice(b"+")?;
        append_rating(text, now - before)
    }
}

/// Appends the experience.
fn append_points(experience: u64, text: &mut Vec<u8>) -> Result<(), AllocError>
    ensures { OnOk result (text.new.items ≡ text.old.items ++ points_words experience) }
{
    text.extend_from_slice(b"), experience ")?;
    append_number(experience, text)?;
    text.extend_from_slice(b".")
}

/// Appends by how much a rating has changed, and the experience.
#[tactic(auto, unfolding(crate::specs::Rated::changed_words))]
fn append_changed(
    before: u32,
    now: u32,
    experience: u64,
    text: &mut Vec<u8>,
) -> Result<(), AllocError>
    ensures { OnOk result (text.new.items ≡ text.old.items ++ changed_words before now experience) }
{
    text.extend_from_slice(b" now (")?;
    append_change(before, now, text)?;
    append_points(experience, text)
}

/// Appends how the user is rated after a match, and by how much it has changed:
/// `You are rated 1509.98 now (+9.98), experience 12.`
///
/// Errors: if memory runs out.
pub fn append_rated(
    before: u32,
    now: u32,
    experience: u64,
    text: &mut Vec<u8>,
) -> Result<(), AllocError>
    ensures { OnOk result (text.new.items ≡ text.old.items ++ rated_words before now experience) }
{
    text.extend_from_slice(b"You are rated ")?;
    append_rating(text, now)?;
    append_changed(before, now, experience, text)
}

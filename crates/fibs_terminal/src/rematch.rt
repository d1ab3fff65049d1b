//! After a match: that it is to be said how another one is played.
ghost use Rattle.std.specs.Prelude.{◌≡◌, ◌≤◌, OnOk, false, length, option_map};
ghost use Rattle.fibs_picture.specs.InWords.Rows.{Says};
ghost use Rattle.fibs_wording.specs.Rematch.{rematch_words};
ghost use Rattle.fibs_terminal.specs.Rematch.{SaysRematch, points_of, said};

use crate::results::Ended;
use fibs_advice::situation::{KeptName, kept_name};
use fibs_advice::standing::Standing;
use fibs_picture::in_words::append_rows_of;
use fibs_wording::matches::Score;
use fibs_wording::rematch::append_rematch;
use std::alloc::{AllocError, Global};

/// A match that has ended on this connection: after it is said how another one is played.
#[derive(Drop)]
pub struct Rematch {
    /// With whom.
    pub opponent: KeptName,
    /// Its points, if they are known and such a match can be asked for.
    pub points: Option<u16>,
    /// Whether it was said: then it is said again if the user asks what is advised.
    pub is_said: bool,
}

/// The points of a match with a score, if they are known and such a match can be asked for.
fn points_of(score: Option<Score>) -> Option<u16>
    ensures { result ≡ points_of score }
{
    match score {
        Some(score) if score.length <= 65535 => Some(score.length as u16),
        _ => None,
    }
}

impl Rematch {
    /// After a match that has ended.
    pub fn after(ended: &Ended) -> Rematch
        ensures opponent { length ended.now.opponent.items ≤ 64 → result.opponent.items ≡ ended.now.opponent.items }
        ensures points { result.points ≡ points_of ended.now.score }
        ensures said { result.is_said ≡ false }
    {
        Rematch {
            opponent: kept_name(ended.opponent.as_slice()),
            points: points_of(ended.score),
            is_said: false,
        }
    }
}

/// Appends how another match is played.
fn append_row(
    alloc: Global,
    rematch: &Rematch,
    columns: usize,
    text: &mut Vec<u8>,
) -> Result<(), AllocError>
    ensures { OnOk result (Says columns (rematch_words rematch.now.opponent.items rematch.now.points)
        text.old.items text.new.items) }
{
    let mut row = Vec::new(alloc);
    append_rematch(rematch.opponent.as_slice(), rematch.points, &mut row)?;
    append_rows_of(row.as_slice(), columns, text)
}

/// Says how another match is played, if one has ended and the user is in none and is not invited: once, and if he asks
/// what is advised.
pub(crate) fn say_rematch(
    alloc: Global,
    rematch: &Option<Rematch>,
    inquired: bool,
    standing: Standing,
    columns: usize,
    text: &mut Vec<u8>,
) -> Result<(), AllocError>
    ensures { OnOk result (SaysRematch columns inquired standing rematch.now text.old.items text.new.items) }
{
    match (standing, rematch) {
        (Standing::Free, Some(rematch)) if inquired || !rematch.is_said => {
            append_row(alloc, rematch, columns, text)
        }
        _ => Ok(()),
    }
}

/// How another match is played was said, if one has ended.
pub(crate) fn note_said(rematch: &mut Option<Rematch>)
    ensures { rematch.new ≡ option_map said rematch.old }
{
    if let Some(rematch) = rematch {
        rematch.is_said = true;
    }
}

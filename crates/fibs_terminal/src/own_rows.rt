//! Rows of the terminal's own words: each has room, and what goes on of one begins with its space.
ghost use Rattle.std.specs.Prelude.{◌≡◌, OnOk, drop, take};
ghost use Rattle.fibs_picture.specs.InWords.Rows.{Says};
ghost use Rattle.fibs_terminal.specs.OwnRows.{own_columns};

use fibs_picture::in_words::append_rows_of;
use fibs_wording::environment::Page;
use std::alloc::AllocError;

/// A table has no room in fewer columns: what it tells is said in sentences.
const TABLE_COLUMNS: usize = 72;

/// Whether the terminal is too narrow for tables.
pub(crate) fn is_narrow(page: &Page<'_>) -> bool {
    page.settings.columns < TABLE_COLUMNS
}

/// Says rows.
pub(crate) fn say_rows(said: &[u8], page: &mut Page<'_>) -> Result<(), AllocError>
    ensures said { OnOk result (Says (own_columns page.old.settings) said.now page.old.text.items page.new.text.items) }
    ensures settings { page.new.settings ≡ page.old.settings }
{
    let columns = page.columns();
    append_rows_of(said, columns, &mut page.text)
}

/// Has what is written from a place on in such rows.
#[tactic(auto, using(crate::proofs::FittingLemmas::fits_none, crate::proofs::FittingLemmas::fits_some))]
pub(crate) fn fit_from(start: usize, page: &mut Page<'_>) -> Result<(), AllocError>
    ensures { OnOk result (Says (own_columns page.old.settings) (drop start page.old.text.items)
        (take start page.old.text.items) page.new.text.items) }
{
    if start >= page.text.len() {
        return Ok(());
    }
    let alloc = page.alloc;
    let said = Vec::from_slice(alloc, &page.text.as_slice()[start..])?;
    page.text.truncate(start);
    say_rows(said.as_slice(), page)
}

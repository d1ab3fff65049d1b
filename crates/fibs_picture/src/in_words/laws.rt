//! Laws of boards in words. Each is a promise; the functions do nothing else.
ghost use Rattle.fibs_picture.specs.InWords.Told.{RowsJoin, WatchedWordsTell, WordsTell};

use fibs_fields::boards::laws::fields_have_their_ranges;

/// Boards of the same words after the same ones before, each with a position, are the same in all that their pictures
/// show (`SameToTheEye`).
pub fn words_tell()
    ensures { WordsTell }
{
    fields_have_their_ranges();
}

/// Watched boards of the same words after the same ones before are the same in all that their pictures show
/// (`SameToTheWatcher`), and in what the player is to do.
pub fn watched_words_tell()
    ensures { WatchedWordsTell }
{
    fields_have_their_ranges();
}

/// The rows of a board in words, broken at any columns and joined again, are its rows.
pub fn rows_join()
    ensures { RowsJoin }
{
    fields_have_their_ranges();
}

//! Laws of what a terminal draws and tells. Each function does nothing: its contract is the law.
ghost use Rattle.fibs_terminal.specs.Drawings.{DrawingsFit, DrawingsTell, TellingsTell};
ghost use Rattle.fibs_terminal.specs.WatchedDrawings.{WatchedTellingsTell};

/// Boards whose drawings the eye sees alike look the same (`SameOnScreen`), on every terminal: boards of the user's
/// games, and boards that he watches.
pub fn drawings_tell()
    ensures { DrawingsTell }
{
    fibs_picture::laws::picture_tells();
    fibs_picture::laws::picture_seen();
}

/// From 40 columns on the eye sees of a drawing rows that fit the terminal.
pub fn drawings_fit()
    ensures { DrawingsFit }
{
    fibs_picture::laws::picture_fits();
    fibs_picture::laws::picture_seen();
}

/// Boards that are told in the same words after the same ones before, each with a position, look the same: at any
/// number of columns, in either numbers.
pub fn tellings_tell()
    ensures { TellingsTell }
{
    fibs_picture::in_words::laws::words_tell();
    fibs_picture::in_words::laws::rows_join();
}

/// Watched boards that are told in the same words after the same ones before look the same (`SameToTheWatcher`).
pub fn watched_tell()
    ensures { WatchedTellingsTell }
{
    fibs_picture::in_words::laws::watched_words_tell();
    fibs_picture::in_words::laws::rows_join();
}

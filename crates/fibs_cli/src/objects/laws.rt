//! Laws of the objects.
ghost use Rattle.fibs_cli.specs.Entries.{EntriesTellLines};
ghost use Rattle.fibs_cli.specs.Said.{SaidTellLines};

use fibs_json::laws::openings_tell;

/// The object of an entry tells the line that `replay` prints for it.
pub fn entries_tell_lines()
    ensures { EntriesTellLines }
{
    openings_tell();
}

/// What is printed of one thing tells its line: that of the server, or of the plain account.
pub fn said_tell_lines()
    ensures { SaidTellLines }
{
    openings_tell();
}

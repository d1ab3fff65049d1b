//! Laws of a terminal. Each function does nothing: its contract is the law.
ghost use Rattle.fibs_terminal.specs.Again.{OpensAgain};
ghost use Rattle.fibs_terminal.specs.Fixing.{FixTurnsOff};

/// A connection that is lost is opened again if the user has asked for it: after 1, 2, 4 .. seconds, and 60 at most;
/// not after `stay`, nor if he has taken leave of the server, nor after two connections in a row on which the server
/// has not greeted him.
pub fn lost_connections_are_opened_again()
    ensures { OpensAgain }
{
    // It speaks of definitions alone, which the methods of `Reconnecting` keep.
}

/// Each line that `fix` types while automove or greedy is on turns off one of them and leaves the other one; so it
/// types none twice, and after two at most neither is on.
pub fn fix_turns_each_off_once()
    ensures { FixTurnsOff }
{
    // It speaks of definitions alone, which the methods of `Fixing` and of `Toggles` keep.
}

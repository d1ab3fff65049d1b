//! Laws of turns. Each function does nothing: its contract is the law.
ghost use Rattle.fibs_connect.specs.Turns.NoteLaw.{TurnsLeaveNoPlayer};
ghost use Rattle.fibs_connect.specs.Turns.PrintLaw.{TurnsPrintTheirActs};

/// A turn prints the lines of its acts, and besides these only lines that begin with `directory `.
#[tactic(auto, using(crate::proofs::TurnLemmas::Printed::turns_print_their_acts))]
pub fn turns_print_their_acts()
    ensures { TurnsPrintTheirActs }
{}

/// What a turn leaves undone at a failed write has no message about players.
pub fn turns_leave_no_player()
    ensures { TurnsLeaveNoPlayer }
{}

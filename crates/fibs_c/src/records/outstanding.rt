//! Decisions with their boards, as C has them.

ghost use Rattle.std.specs.Prelude.{option_map};
ghost use Rattle.fibs_session.specs.Calls.SessionOf.{ask_of};
ghost use Rattle.fibs_c.specs.Records.Asks.{IsAskAs, IsMaybeAsk};

use crate::records::boards::{BoardRecord, put_board};
use crate::records::decisions::{DecisionRecord, decision_record, of_kind};
use fibs_session::Outstanding;

/// A decision, and the board on which it was made.
#[repr(C)]
#[derive(Clone, Copy)]
pub struct OutstandingRecord {
    pub board: BoardRecord,
    /// Its kind is 0 if there is no decision.
    pub decision: DecisionRecord,
}

/// Writes a decision with its board.
pub fn put_outstanding(out: &mut OutstandingRecord, told: &Outstanding)
    ensures { IsAskAs out.old out.new (ask_of told.now) }
{
    put_board(&mut out.board, &told.board);
    out.decision = decision_record(&told.decision);
}

/// Writes a decision with its board, or that there is none.
pub fn put_maybe(out: &mut OutstandingRecord, told: &Option<Outstanding>)
    ensures { IsMaybeAsk out.old out.new (option_map ask_of told.now) }
{
    match told {
        None => out.decision = of_kind(0),
        Some(told) => put_outstanding(out, told),
    }
}

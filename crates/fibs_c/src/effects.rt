//! What a decision does to a board.

ghost use Rattle.std.specs.Prelude.{◌∷◌, [], IfOk, IfErr};
ghost use Rattle.fibs_fields.specs.StoredBoard.{fields_of};
ghost use Rattle.fibs_position.specs.BoardEffect.{effect_of};
ghost use Rattle.fibs_position.specs.DecisionValue.{decision_of as value_of};
ghost use Rattle.fibs_c.specs.Records.Decisions.{decision_in};
ghost use Rattle.fibs_c.specs.EffectDoor.{IsGoodIn, IsAfter, IsEffectTold};
ghost use Rattle.fibs_c.specs.PositionDoor.{IsNoPosition};

use crate::records::decisions::{DecisionRecord, decision_of};
use crate::records::status::{NO_DECISION, NO_EFFECT, field_fault_status, position_fault_status};
use crate::records::text::hand_out;
use fibs_fields::boards::Board;
use fibs_position::{Decision, Position, effect};

/// The board of a line, or why it has no position.
fn good_board_in(line: &[u8]) -> Result<Board, u32>
    ensures board { IfOk result (λ b. IsGoodIn line.now (fields_of b)) }
    ensures fault { IfErr result (λ status. IsNoPosition line.now status) }
{
    match Board::read(line) {
        Err(wrong) => Err(field_fault_status(wrong.fault)),
        Ok(board) => match Position::of(&board) {
            Err(fault) => Err(position_fault_status(fault)),
            Ok(_position) => Ok(board),
        },
    }
}

/// Hands out the line of the board after a decision, if the server carries it out.
fn hand_out_effect(
    before: &Board,
    decision: &Decision,
    dice: [u8; 2],
    text: &mut [u8],
    len: &mut usize,
) -> u32
    ensures { IsAfter (effect_of (fields_of before.now) (value_of decision.now) dice) text.old text.new len.old len.new
        result }
{
    match effect(before, decision, dice) {
        None => NO_EFFECT,
        Some(after) => hand_out(after.print().as_slice(), text, len),
    }
}

/// The line of the board after the server carried out a decision on the board of a line. The dice are those that a roll
/// throws; for every other decision they are ignored.
#[unsafe(no_mangle)]
pub extern "C" fn fibs_effect(
    line: &[u8],
    decision: &DecisionRecord,
    first: u8,
    second: u8,
    text: &mut [u8],
    len: &mut usize,
) -> u32
    ensures { IsEffectTold line.now (decision_in decision.now) (first ∷ second ∷ []) text.old text.new len.old len.new
        result }
{
    let Some(decision) = decision_of(decision) else {
        return NO_DECISION;
    };
    match good_board_in(line) {
        Err(status) => status,
        Ok(before) => hand_out_effect(&before, &decision, [first, second], text, len),
    }
}

//! `fibs plays`: prints the phase of a board and its plays.
ghost use Rattle.std.specs.Prelude.{◌≡◌, ◌≤◌, ◌+◌, ◌++◌, ◌∷◌, [], ℕ, List, length, map, codes, IfOk, IfErr, IsErrOf, OnErr, OnOk, MatchResult};
ghost use Rattle.std.specs.Io.KnownBytes.{Appends, Keeps};
ghost use Rattle.fibs_fields.specs.Board.{BoardFields};
ghost use Rattle.fibs_messages.specs.Line.{ReadingValue, board_line, IsReading};
ghost use Rattle.fibs_position.specs.GoodBoard.{IsGood};
ghost use Rattle.fibs_rules.specs.PlayValue.{hops_of};
ghost use Rattle.fibs_position.specs.PositionValue.{position_of, position_value};
ghost use Rattle.fibs_position.specs.Names.{position_fault_name};
ghost use Rattle.fibs_show.specs.Plays.{listing, PositionText, PlaysText, Refusal};
ghost use Rattle.fibs_engine.specs.Writing.{GainedFront};

use arrayvec::ArrayVec;
use fibs_commands::decision_text;
use fibs_engine::fault::EngineFault;
use fibs_engine::malformed::malformed_text;
use fibs_engine::status::Status;
use fibs_engine::writing::write_bytes;
use fibs_fields::fixed::append;
use fibs_messages::{Reading, read};
use fibs_position::{Decision, Direction, Phase, Play, Position, PositionFault};
use std::alloc::{AllocError, Global};
use std::io::Write;

/// One line, long enough for each refusal.
type RefusalLine = ArrayVec<u8, 64>;

/// Prints what a player can play on the board of `line`, which is not cut whatever its length.
///
/// For the line of a good board `out` is given `phase NAME`, and in the phase Move the command of each play, in the
/// numbers of the board, each on a line of its own; the status is 0. For every other line `out` is given nothing, `err`
/// one line, and the status is 3: `not a board`; `malformed 0 FIELD FAULT` for a board line with a wrong field; or
/// `position NAME` for a board without a position. After a failed write nothing more is written.
pub fn plays<W: Write, E: Write>(
    alloc: Global,
    line: &[u8],
    out: &mut W,
    err: &mut E,
) -> Result<u8, EngineFault>
    ensures good { (b : BoardFields) → IsReading line.now (board_line b) → IsGood b
        → IfOk result (λ status. (status ≡ 0)
        × ((text : List ℕ) × PlaysText b text × Appends (W.contents out.old) (W.contents out.new) text)) }
    ensures good_device { (b : BoardFields) → IsReading line.now (board_line b) → IsGood b
        → IsErrOf result EngineFault.Device
        → (text : List ℕ) × PlaysText b text × GainedFront (W.contents out.old) (W.contents out.new) text }
    ensures good_silent { (b : BoardFields) → IsReading line.now (board_line b) → IsGood b
        → Keeps (E.contents err.old) (E.contents err.new) }
    // Of a refused line no memory is asked.
    ensures refused { (reading : ReadingValue) → (why : List ℕ) → IsReading line.now reading → Refusal reading why
        → MatchResult result
        (λ status. (status ≡ 3) × Appends (E.contents err.old) (E.contents err.new) (why ++ (10 ∷ [])))
        (λ fault. (fault ≡ EngineFault.Device)
        × GainedFront (E.contents err.old) (E.contents err.new) (why ++ (10 ∷ []))) }
    ensures refused_silent { (reading : ReadingValue) → (why : List ℕ) → IsReading line.now reading
        → Refusal reading why
        → Keeps (W.contents out.old) (W.contents out.new) }
    ensures memory { IsErrOf result EngineFault.Memory
        → Keeps (W.contents out.old) (W.contents out.new) × Keeps (E.contents err.old) (E.contents err.new) }
{
    match position_of(line) {
        Ok(position) => print_plays(alloc, &position, out),
        Err(why) => print_refusal(why.as_slice(), err),
    }
}

/// The position of a board line, or the line that says why it has none.
fn position_of(line: &[u8]) -> Result<Position, RefusalLine>
    ensures good { IfOk result (λ position. (b : BoardFields) → IsReading line.now (board_line b)
        → position_value position ≡ position_of b) }
    ensures kept { OnOk result ((reading : ReadingValue) → (why : List ℕ) → IsReading line.now reading
        → Refusal reading why → ⊥) }
    ensures refused { IfErr result (λ text. (reading : ReadingValue) → (why : List ℕ) → IsReading line.now reading
        → Refusal reading why
        → text.items ≡ why ++ (10 ∷ [])) }
    ensures bad { OnErr result ((b : BoardFields) → IsReading line.now (board_line b) → IsGood b → ⊥) }
{
    match read(line) {
        Reading::Board(board) => match Position::of(&board) {
            Ok(position) => Ok(position),
            Err(fault) => Err(no_position(fault)),
        },
        Reading::Malformed {
            number: 0,
            field,
            fault,
        } => Err(one_line(malformed_text(0, field, fault).as_slice(), b"")),
        _ => Err(one_line(b"not a board", b"")),
    }
}

/// A line of these two parts.
fn one_line(front: &[u8], end: &[u8]) -> RefusalLine
    requires { length front.now + length end.now ≤ 63 }
    ensures { result.items ≡ (front.now ++ end.now) ++ (10 ∷ []) }
{
    let mut line = ArrayVec::new();
    append(&mut line, front);
    append(&mut line, end);
    line.push(b'\n');
    line
}

/// The line of a board that has no position.
fn no_position(fault: PositionFault) -> RefusalLine
    ensures { result.items ≡ (codes "position " ++ position_fault_name fault) ++ (10 ∷ []) }
{
    one_line(b"position ", fault.name().as_bytes())
}

/// Prints why a line has no position.
fn print_refusal<E: Write>(line: &[u8], err: &mut E) -> Result<u8, EngineFault>
    ensures { MatchResult result (λ status. (status ≡ 3) × Appends (E.contents err.old) (E.contents err.new) line.now)
        (λ fault. (fault ≡ EngineFault.Device) × GainedFront (E.contents err.old) (E.contents err.new) line.now) }
{
    write_bytes(line, err)?;
    Ok(Status::Refused.code())
}

/// Prints the phase of a position and its plays.
fn print_plays<W: Write>(alloc: Global, position: &Position, out: &mut W) -> Result<u8, EngineFault>
    ensures ok { IfOk result (λ status. (status ≡ 0)
        × ((text : List ℕ) × PositionText (position_value position.now) text
        × Appends (W.contents out.old) (W.contents out.new) text)) }
    ensures device { IsErrOf result EngineFault.Device
        → (text : List ℕ) × PositionText (position_value position.now) text
        × GainedFront (W.contents out.old) (W.contents out.new) text }
    ensures memory { IsErrOf result EngineFault.Memory → Keeps (W.contents out.old) (W.contents out.new) }
{
    let text = listing_of(alloc, position)?;
    write_bytes(text.as_slice(), out)?;
    Ok(Status::Done.code())
}

/// The phase of a position and its plays.
fn listing_of(alloc: Global, position: &Position) -> Result<Vec<u8>, AllocError>
    ensures { IfOk result (λ text. PositionText (position_value position.now) text.items) }
{
    let plays = position.plays(alloc)?;
    listing(
        alloc,
        position.phase(),
        position.direction(),
        plays.as_slice(),
    )
}

/// The phase, and each play's command, each on a line of its own.
fn listing(
    alloc: Global,
    phase: Phase,
    direction: Direction,
    plays: &[Play],
) -> Result<Vec<u8>, AllocError>
    ensures { IfOk result (λ text. text.items ≡ listing phase direction (map hops_of plays.now)) }
{
    let mut text = Vec::from_slice(alloc, b"phase ")?;
    text.extend_from_slice(phase.name().as_bytes())?;
    text.push(b'\n')?;
    for play in plays {
        let command = decision_text(&Decision::Move(*play), direction);
        text.extend_from_slice(command.as_bytes())?;
        text.push(b'\n')?;
    }
    Ok(text)
}

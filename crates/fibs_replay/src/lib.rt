//! Scripts of events, read and run by the model of a server: `fibs replay` runs one, and prints the log of the world;
//! `fibs loop` plays one over the sockets of one machine, and prints the same.
#![tactic(auto)]

ghost use Rattle.std.specs.Prelude.{◌≡◌, ◌≤◌, ◌+◌, ◌∷◌, ◌⊎◌, ℕ, List, true, length, IfOk, IfSome, IfNone, IsErrOf};
ghost use Rattle.fibs_fields.specs.Board.{BoardFields, BoardText};
ghost use Rattle.fibs_fields.specs.StoredBoard.{fields_of};
ghost use Rattle.fibs_model.specs.Events.{Event};
ghost use Rattle.fibs_engine.specs.Printing.{Printed};
ghost use Rattle.fibs_engine.specs.Reads.{LostAtMost};
ghost use Rattle.fibs_replay.specs.Carried.{CarriedFor, Carried};
ghost use Rattle.fibs_replay.specs.Limits.{read_len};
ghost use Rattle.fibs_replay.specs.Output.{LoggedInPart, Replayed, ReplayedInPart, ReplayFailed};
ghost use Rattle.fibs_replay.specs.Running.{PrintedFor};
ghost use Rattle.fibs_replay.specs.Scripts.{SayScript, script_limit, script_lines};

pub mod events;
pub mod input;
pub mod laws;
mod limits;
pub mod log_lines;
pub mod output;
pub mod play_loop;
pub mod run;
pub mod script;

use bstr::Lines;
use events::read_board;
use fibs_engine::fault::EngineFault;
use fibs_engine::status::Status;
use fibs_engine::writing::write_bytes;
use fibs_fields::boards::Board;
use fibs_model::{Carrier, InMemory, World};
use input::read_lines;
use output::{LastLine, refused_line, unread_line};
use run::{print_run, run_lines, script_login};
use script::{Script, script_lines};
use std::alloc::Global;
use std::io::{Read, Write};

/// Reads a script, runs it, and prints the log of the world, and then how it ended: `end DONE` with status 0; or, with
/// status 3, `refused DONE NUMBER NAME` at the first event that is refused, or `script N` of a script that is not run,
/// N being its first line that is unreadable, or 0 if it has more than 1,048,576 bytes.
///
/// Nothing is printed before the script is read whole, so nothing after a failed read. If memory runs out it has
/// printed the log so far. After a failed write it makes no other.
pub fn replay<R: Read, W: Write>(
    alloc: Global,
    reader: &mut R,
    writer: &mut W,
) -> Result<u8, EngineFault>
    ensures done { IfOk result (λ status.
        Replayed status (R.remaining reader.old) (R.remaining reader.new)
        (W.contents writer.old) (W.contents writer.new)) }
    ensures device { IsErrOf result EngineFault.Device →
        ReplayFailed (R.remaining reader.old) (R.remaining reader.new) (W.contents writer.old) (W.contents writer.new) }
    ensures memory { IsErrOf result EngineFault.Memory →
        ReplayedInPart (R.remaining reader.old) (R.remaining reader.new)
        (W.contents writer.old) (W.contents writer.new) }
    ensures few { LostAtMost (script_limit + read_len) (R.remaining reader.old) (R.remaining reader.new) }
{
    replay_over(&mut InMemory, alloc, reader, writer)
}

/// Does what `replay` does, over a carrier, to which no connection was made yet. If that breaks it has printed the
/// log so far, and answers `Device`.
///
/// If it does not answer `Device`, the carrier was given what crosses at the events that were done, and nothing else.
pub fn replay_over<C: Carrier, R: Read, W: Write>(
    carrier: &mut C,
    alloc: Global,
    reader: &mut R,
    writer: &mut W,
) -> Result<u8, EngineFault>
    ensures done { IfOk result (λ status.
        Replayed status (R.remaining reader.old) (R.remaining reader.new)
        (W.contents writer.old) (W.contents writer.new)) }
    ensures device { IsErrOf result EngineFault.Device →
        ReplayFailed (R.remaining reader.old) (R.remaining reader.new) (W.contents writer.old) (W.contents writer.new)
        ⊎ ((C.may_break ≡ true) × LoggedInPart (R.remaining reader.old) (R.remaining reader.new)
        (W.contents writer.old) (W.contents writer.new)) }
    ensures memory { IsErrOf result EngineFault.Memory →
        ReplayedInPart (R.remaining reader.old) (R.remaining reader.new)
        (W.contents writer.old) (W.contents writer.new) }
    ensures carries { ¬ IsErrOf result EngineFault.Device →
        Carried C.carries (R.remaining reader.old) (R.remaining reader.new)
        (W.contents writer.old) (W.contents writer.new) carrier.old carrier.new }
    ensures few { LostAtMost (script_limit + read_len) (R.remaining reader.old) (R.remaining reader.new) }
{
    match read_lines(alloc, reader)? {
        Script::Unreadable(number) => print_unrun(&unread_line(number), writer),
        Script::Readable(script) => replay_readable(carrier, alloc, script.as_slice(), writer),
    }
}

/// Prints the one line of a script that is not run.
pub(crate) fn print_unrun<W: Write>(line: &LastLine, writer: &mut W) -> Result<u8, EngineFault>
    ensures { Printed 3 line.now.items result (W.contents writer.old) (W.contents writer.new) }
{
    write_bytes(line.as_slice(), writer)?;
    Ok(Status::Refused.code())
}

/// The board that the first of the lines says, which is taken from them.
pub fn first_board(lines: &mut Lines<'_>) -> Option<Board>
    ensures some { IfSome result (λ board. (line : List ℕ) × (lines.old ≡ line ∷ lines.new)
        × BoardText (fields_of board) line) }
    ensures none { IfNone result ((b : BoardFields) (events : List Event) → ¬ SayScript lines.old b events) }
{
    read_board(lines.next()?)
}

/// Runs a script whose lines are readable.
fn replay_readable<C: Carrier, W: Write>(
    carrier: &mut C,
    alloc: Global,
    script: &[u8],
    writer: &mut W,
) -> Result<u8, EngineFault>
    requires short { length script.now ≤ script_limit }
    requires readable { (b : BoardFields) × (events : List Event) × SayScript (script_lines script.now) b events }
    ensures printed { PrintedFor C.may_break script.now result (W.contents writer.old) (W.contents writer.new) }
    ensures carries { ¬ IsErrOf result EngineFault.Device →
        CarriedFor C.carries script.now (W.contents writer.old) (W.contents writer.new) carrier.old carrier.new }
{
    fibs_model::laws::crossings_join();
    fibs_position::laws::good_is_exact();
    let mut lines = script_lines(script);
    let board = match first_board(&mut lines) {
        Some(board) => board,
        None => unreachable!(),
    };
    match World::new(alloc, board, script_login()) {
        Err(why) => print_unrun(&refused_line(0, why), writer),
        Ok(mut world) => {
            let end = run_lines(&mut world, carrier, &mut lines);
            print_run(world.log(), end, writer)
        }
    }
}

//! `fibs replay --json`: runs a script, and prints an object for each line of its account.
ghost use Rattle.std.specs.Prelude.{◌≡◌, ◌≢◌, ◌≤◌, ◌+◌, ◌++◌, ℕ, List, Some, IfOk, OnOk, IsErrOf, length, map};
ghost use Rattle.fibs_fields.specs.Board.{BoardFields};
ghost use Rattle.fibs_engine.specs.Reads.{LostAtMost};
ghost use Rattle.fibs_engine.specs.Status.{code_of};
ghost use Rattle.fibs_model.specs.EntryOf.{entry_of};
ghost use Rattle.fibs_model.specs.Events.{Event};
ghost use Rattle.fibs_replay.specs.Limits.{read_len};
ghost use Rattle.fibs_replay.specs.Scripts.{SayScript, script_limit, script_lines};
ghost use Rattle.fibs_cli.specs.Endings.{last_object};
ghost use Rattle.fibs_cli.specs.Entries.{LogObjects};
ghost use Rattle.fibs_cli.specs.Printing.{LogPrinted, ObjectsFor, RunObjects};
ghost use Rattle.fibs_cli.specs.Replayed.{ObjectsFailed, ObjectsInPart, ReplayedObjects};

use crate::objects::endings::{Last, append_last};
use crate::objects::entries::append_log;
use fibs_engine::fault::EngineFault;
use fibs_engine::status::Status;
use fibs_engine::writing::write_bytes;
use fibs_model::{Entry, InMemory, Stop, World, WorldRefusal};
use fibs_replay::first_board;
use fibs_replay::input::read_lines;
use fibs_replay::run::{ScriptEnd, run_lines, script_login};
use fibs_replay::script::{Script, script_lines};
use std::alloc::{AllocError, Global};
use std::io::{Read, Write};

/// Reads a script, runs it, and prints an object for each line that `replay` prints for it. The status is that of
/// `replay`.
///
/// Nothing is printed before the script is run, so nothing after a failed read. If memory runs out it has printed
/// nothing, or the objects of the log so far. After a failed write it makes no other.
pub fn replay_json<R: Read, W: Write>(
    alloc: Global,
    reader: &mut R,
    writer: &mut W,
) -> Result<u8, EngineFault>
    ensures done { IfOk result (λ status.
        ReplayedObjects status (R.remaining reader.old) (R.remaining reader.new)
        (W.contents writer.old) (W.contents writer.new)) }
    ensures device { IsErrOf result EngineFault.Device →
        ObjectsFailed (R.remaining reader.old) (R.remaining reader.new)
        (W.contents writer.old) (W.contents writer.new) }
    ensures memory { IsErrOf result EngineFault.Memory →
        ObjectsInPart (R.remaining reader.old) (R.remaining reader.new)
        (W.contents writer.old) (W.contents writer.new) }
    ensures few { LostAtMost (script_limit + read_len) (R.remaining reader.old) (R.remaining reader.new) }
{
    match read_lines(alloc, reader)? {
        Script::Unreadable(number) => print_log(
            alloc,
            &[],
            Last::Script(number),
            Status::Refused,
            writer,
        ),
        Script::Readable(script) => replay_readable(alloc, script.as_slice(), writer),
    }
}

/// Runs a script whose lines are readable.
fn replay_readable<W: Write>(
    alloc: Global,
    script: &[u8],
    writer: &mut W,
) -> Result<u8, EngineFault>
    requires short { length script.now ≤ script_limit }
    requires readable { (b : BoardFields) × (events : List Event) × SayScript (script_lines script.now) b events }
    ensures { ObjectsFor script.now result (W.contents writer.old) (W.contents writer.new) }
{
    fibs_position::laws::good_is_exact();
    let mut lines = script_lines(script);
    let board = match first_board(&mut lines) {
        Some(board) => board,
        None => unreachable!(),
    };
    match World::new(alloc, board, script_login()) {
        Err(why) => print_log(alloc, &[], Last::Refused(0, why), Status::Refused, writer),
        Ok(mut world) => {
            let end = run_lines(&mut world, &mut InMemory, &mut lines);
            print_run(alloc, world.log(), end, writer)
        }
    }
}

/// Prints the objects of the log of a run, and of its last line. Its carrier was the memory, which does not break.
fn print_run<W: Write>(
    alloc: Global,
    log: &[Entry],
    end: ScriptEnd,
    writer: &mut W,
) -> Result<u8, EngineFault>
    requires { end.stop ≢ Some Stop.Broken }
    ensures { RunObjects end.stop end.done (map entry_of log.now) result
        (W.contents writer.old) (W.contents writer.new) }
{
    match end.stop {
        None => print_log(alloc, log, Last::End(end.done), Status::Done, writer),
        Some(Stop::Refused(why)) => print_stopped(alloc, log, end.done, why, writer),
        Some(Stop::Broken) => unreachable!(),
    }
}

/// Prints the objects of the log of a run that stopped, and why it did. If memory ran out it prints the log alone.
fn print_stopped<W: Write>(
    alloc: Global,
    log: &[Entry],
    done: usize,
    why: WorldRefusal,
    writer: &mut W,
) -> Result<u8, EngineFault>
    ensures { RunObjects (Some (Stop.Refused why)) done (map entry_of log.now) result
        (W.contents writer.old) (W.contents writer.new) }
{
    match why {
        WorldRefusal::Memory => {
            print_log(alloc, log, Last::Nothing, Status::Done, writer)?;
            Err(EngineFault::Memory)
        }
        _ => print_log(
            alloc,
            log,
            Last::Refused(done, why),
            Status::Refused,
            writer,
        ),
    }
}

/// Appends the objects of a log, and of a last line.
fn append_all(log: &[Entry], last: Last, text: &mut Vec<u8>) -> Result<(), AllocError>
    ensures { OnOk result ((objects : List ℕ) × LogObjects (map entry_of log.now) objects
        × (text.new.items ≡ text.old.items ++ (objects ++ last_object last))) }
{
    append_log(log, text)?;
    append_last(last, text)
}

/// Prints the objects of a log and of a last line, and answers the status. If memory runs out nothing is printed.
fn print_log<W: Write>(
    alloc: Global,
    log: &[Entry],
    last: Last,
    status: Status,
    writer: &mut W,
) -> Result<u8, EngineFault>
    ensures { LogPrinted (code_of status) (map entry_of log.now) last result
        (W.contents writer.old) (W.contents writer.new) }
{
    let mut text = Vec::new(alloc);
    append_all(log, last, &mut text)?;
    match write_bytes(text.as_slice(), writer) {
        Ok(()) => Ok(status.code()),
        Err(_) => Err(EngineFault::Device),
    }
}

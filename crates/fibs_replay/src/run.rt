//! The lines of a script are run on a world, and what they led to is printed.
ghost use Rattle.std.specs.Prelude.{◌≡◌, ◌≢◌, ◌<◌, ◌≤◌, ◌^◌, ◌++◌, List, [], Some, true, codes, length, take, map};
ghost use Rattle.fibs_fields.specs.Board.{BoardFields};
ghost use Rattle.fibs_commands.specs.LoginOf.{name_of, password_of};
ghost use Rattle.fibs_model.specs.Crossings.{crossings};
ghost use Rattle.fibs_model.specs.EntryOf.{entry_of};
ghost use Rattle.fibs_model.specs.Events.{Event};
ghost use Rattle.fibs_engine.specs.Printing.{Printed};
ghost use Rattle.fibs_engine.specs.Status.{code_of};
ghost use Rattle.fibs_replay.specs.Limits.{write_len};
ghost use Rattle.fibs_replay.specs.LogLines.{log_text};
ghost use Rattle.fibs_replay.specs.Output.{script_login};
ghost use Rattle.fibs_replay.specs.Running.{Broke, RanTo, RunPrinted, StandsFrom};
ghost use Rattle.fibs_replay.specs.Scripts.{SayEvents};

use crate::events::read_event;
use crate::output::{end_line, print_log, refused_line};
use bstr::Lines;
use fibs_engine::fault::EngineFault;
use fibs_engine::status::Status;
use fibs_model::{Carrier, Entry, Stop, World, WorldRefusal};
use fibs_session::Login;
use std::io::Write;

/// How a run of a script ended.
#[derive(Clone, Copy, Debug, PartialEq, Eq)]
pub struct ScriptEnd {
    /// The events that were done, all of them before the one that was not.
    pub done: usize,
    /// Why the next event was not done; None if all were.
    pub stop: Option<Stop>,
}

/// The user of each script.
pub fn script_login() -> Login
    ensures name { name_of result ≡ codes "ann" }
    ensures password { password_of result ≡ codes "secret" }
{
    match Login::new(b"ann", b"secret") {
        Ok(login) => login,
        Err(_) => unreachable!(),
    }
}

/// Does the events that the lines say, one after another, up to the first that is not done.
///
/// If the carrier does not break, it is given what crosses at the events that are done, and nothing else.
pub fn run_lines<C: Carrier>(world: &mut World, carrier: &mut C, lines: &mut Lines<'_>) -> ScriptEnd
    requires few { length lines.old < 2 ^ 63 }
    requires readable { (events : List Event) × SayEvents lines.old events }
    ensures ran { (first : BoardFields) (events : List Event) →
        StandsFrom world.old first [] → SayEvents lines.old events →
        RanTo first events world.new result.done result.stop }
    ensures carries { (first : BoardFields) (events : List Event) →
        StandsFrom world.old first [] → SayEvents lines.old events → result.stop ≢ Some Stop.Broken →
        C.carries carrier.old (crossings script_login first (take result.done events)) carrier.new }
    ensures unbroken { result.stop ≡ Some Stop.Broken → C.may_break ≡ true }
{
    fibs_model::laws::crossings_join();
    let mut done = 0;
    while let Some(line) = lines.next() {
        let event = match read_event(line) {
            Some(event) => event,
            None => unreachable!(),
        };
        match world.carry_out(carrier, &event) {
            Ok(()) => done += 1,
            Err(stop) => {
                return ScriptEnd {
                    done,
                    stop: Some(stop),
                };
            }
        }
    }
    ScriptEnd { done, stop: None }
}

/// Prints the log and then a last line, and answers the status.
fn print_ending<W: Write>(
    log: &[Entry],
    last: &[u8],
    status: Status,
    writer: &mut W,
) -> Result<u8, EngineFault>
    requires { length last.now ≤ write_len }
    ensures { Printed (code_of status) (log_text (map entry_of log.now) ++ last.now) result
        (W.contents writer.old) (W.contents writer.new) }
{
    print_log(log, last, writer)?;
    Ok(status.code())
}

/// Prints the log of a run that stopped, and why it did. If memory ran out it prints the log alone.
fn print_stopped<W: Write>(
    log: &[Entry],
    done: usize,
    why: WorldRefusal,
    writer: &mut W,
) -> Result<u8, EngineFault>
    ensures { RunPrinted (Some (Stop.Refused why)) done (log_text (map entry_of log.now)) result
        (W.contents writer.old) (W.contents writer.new) }
{
    match why {
        WorldRefusal::Memory => {
            print_ending(log, b"", Status::Done, writer)?;
            Err(EngineFault::Memory)
        }
        _ => print_ending(
            log,
            refused_line(done, why).as_slice(),
            Status::Refused,
            writer,
        ),
    }
}

/// Prints the log of a run whose carrier broke.
fn print_broken<W: Write>(log: &[Entry], writer: &mut W) -> Result<u8, EngineFault>
    ensures { Broke (log_text (map entry_of log.now)) result (W.contents writer.old) (W.contents writer.new) }
{
    print_ending(log, b"", Status::Done, writer)?;
    Err(EngineFault::Device)
}

/// Prints the log of a run, and how it ended.
pub fn print_run<W: Write>(log: &[Entry], end: ScriptEnd, writer: &mut W) -> Result<u8, EngineFault>
    ensures { RunPrinted end.stop end.done (log_text (map entry_of log.now)) result
        (W.contents writer.old) (W.contents writer.new) }
{
    match end.stop {
        None => print_ending(log, end_line(end.done).as_slice(), Status::Done, writer),
        Some(Stop::Refused(why)) => print_stopped(log, end.done, why, writer),
        Some(Stop::Broken) => print_broken(log, writer),
    }
}

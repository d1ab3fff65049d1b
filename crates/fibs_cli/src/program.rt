//! What the program does with a command line: which engine runs on which devices, what is printed, and the exit status.
ghost use Rattle.std.specs.Prelude.{◌≡◌};
ghost use Rattle.fibs_cli.specs.Program.{Answered, PlayedScript, SaysWhy, Served, fault_line, status_of, streams};
ghost use Rattle.fibs_engine.specs.Printing.{Printed};
ghost use Rattle.fibs_engine.specs.Status.{code_of};

use crate::arguments::{Answer, Request};
use crate::objects::replay::replay_json;
use fibs_engine::fault::EngineFault;
use fibs_engine::status::Status;
use fibs_engine::writing::write_bytes;
use fibs_json::eventful::show_events;
use fibs_json::plays::plays_json;
use fibs_json::show::show_json;
use fibs_json::told::told_line;
use fibs_replay::play_loop::play_loop;
use fibs_replay::replay;
use fibs_show::plays::plays;
use fibs_show::show::show;
use std::alloc::Global;
use std::io::{Read, Write};
use std::net::{Net, TcpListener, TcpStream};

/// Answers a command line that needs no server: it runs an engine, prints help on `out`, or says on `err` what is
/// wrong.
pub fn answer<N: Net<Listener = TcpListener, Stream = TcpStream>, R: Read, W: Write, E: Write>(
    rt: &N,
    alloc: Global,
    answer: &Answer<'_>,
    input: &mut R,
    out: &mut W,
    err: &mut E,
) -> Result<u8, EngineFault>
    ensures { Answered answer.now result
        (streams (R.remaining input.old) (W.contents out.old) (E.contents err.old))
        (streams (R.remaining input.new) (W.contents out.new) (E.contents err.new)) }
{
    match answer {
        Answer::Engine(request) => serve(rt, alloc, *request, input, out, err),
        Answer::Help(text) => print_text(text.as_bytes(), Status::Done, out),
        Answer::Refused(text) => print_text(text.as_bytes(), Status::WrongLine, err),
        Answer::Memory => Err(EngineFault::Memory),
    }
}

/// Runs the engine that a request asks for.
fn serve<N: Net<Listener = TcpListener, Stream = TcpStream>, R: Read, W: Write, E: Write>(
    rt: &N,
    alloc: Global,
    request: Request<'_>,
    input: &mut R,
    out: &mut W,
    err: &mut E,
) -> Result<u8, EngineFault>
    ensures { Served request.entry result
        (streams (R.remaining input.old) (W.contents out.old) (E.contents err.old))
        (streams (R.remaining input.new) (W.contents out.new) (E.contents err.new)) }
{
    match request {
        Request::Show => show(alloc, input, out),
        Request::ShowJson => show_json(alloc, input, out),
        Request::ShowEvents => show_events(alloc, input, out),
        Request::Plays(word) => plays(alloc, told_line(word.as_bytes()), out, err),
        Request::PlaysJson(word) => plays_json(alloc, told_line(word.as_bytes()), out),
        Request::Replay => replay(alloc, input, out),
        Request::ReplayJson => replay_json(alloc, input, out),
        Request::Loop => play_here(rt, alloc, input, out),
    }
}

/// Plays a script over sockets to a free port of this machine.
fn play_here<N: Net<Listener = TcpListener, Stream = TcpStream>, R: Read, W: Write>(
    rt: &N,
    alloc: Global,
    input: &mut R,
    out: &mut W,
) -> Result<u8, EngineFault>
    ensures { PlayedScript result (R.remaining input.old) (R.remaining input.new)
        (W.contents out.old) (W.contents out.new) }
{
    match TcpListener::bind(rt, "127.0.0.1:0") {
        Ok(listener) => play_loop(rt, alloc, &listener, input, out),
        Err(_) => Err(EngineFault::Device),
    }
}

/// Prints a text, and answers the status.
fn print_text<W: Write>(text: &[u8], status: Status, device: &mut W) -> Result<u8, EngineFault>
    ensures { Printed (code_of status) text.now result (W.contents device.old) (W.contents device.new) }
{
    write_bytes(text, device)?;
    Ok(status.code())
}

/// The exit status of the program, which says on `err` why an engine stopped before its end.
pub fn status<E: Write>(ending: Result<u8, EngineFault>, err: &mut E) -> u8
    ensures status { result ≡ status_of ending }
    ensures says { SaysWhy ending (E.contents err.old) (E.contents err.new) }
{
    match ending {
        Ok(status) => status,
        Err(fault) => {
            // if it can't be printed, the status alone says it
            let _said = write_bytes(line_of(fault), err);
            fault.status()
        }
    }
}

/// The line that says why the program stopped before its end.
fn line_of(fault: EngineFault) -> &'static [u8]
    ensures { result.now ≡ fault_line fault }
{
    match fault {
        EngineFault::Device => b"fibs: device\n",
        EngineFault::Memory => b"fibs: memory\n",
    }
}

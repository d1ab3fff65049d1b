//! `fibs`: a client for the First Internet Backgammon Server. The command line, the devices and the exit status.
#![tactic(auto)]

pub(crate) mod player;

use fibs_cli::arguments::{Answer, Asked};
use fibs_cli::program;
use fibs_engine::fault::EngineFault;
use fibs_engine::standard::take_closed;
use fibs_engine::streams::Streams;
use std::env;
use std::io::ErrorKind;
use std::process::ExitCode;

/// What is printed if a word of the command line is not text.
const UNREADABLE: &str = "error: an argument is not UTF-8 text\n";

fn main(rt: HostRuntime) -> ExitCode {
    if take_closed(&rt).is_err() {
        return ExitCode::from(program::status(Err(EngineFault::Device), &mut rt.stderr()));
    }
    let mut streams = Streams::new(&rt);
    let ending = run(&rt, &mut streams);
    ExitCode::from(end(&rt, &streams, ending))
}

/// The exit status. If a device failed it says which and why; of a pipe whose reader has gone it says nothing.
fn end(rt: &HostRuntime, streams: &Streams, ending: Result<u8, EngineFault>) -> u8 {
    let mut err = rt.stderr();
    match ending {
        Err(EngineFault::Device) if streams.is_unread() => EngineFault::Device.status(),
        Err(EngineFault::Device) => {
            let status = program::status(ending, &mut err);
            // if it can't be printed, the status alone says it
            let _said = streams.say_trouble(&mut err);
            status
        }
        ending => program::status(ending, &mut err),
    }
}

/// Reads the command line, and does what it calls for on the standard streams.
fn run(rt: &HostRuntime, streams: &mut Streams) -> Result<u8, EngineFault> {
    let alloc = rt.alloc();
    let words = words(rt)?;
    let asked = match &words {
        Some(words) => fibs_cli::arguments::read(alloc, words.as_slice()),
        None => Asked::Answer(Answer::Refused(String::from_str(alloc, UNREADABLE)?)),
    };
    player::run(rt, streams, &asked)
}

/// The words of the command line, if all of them are text.
fn words(rt: &HostRuntime) -> Result<Option<Vec<String>>, EngineFault> {
    match env::args(rt) {
        Ok(words) => Ok(Some(words.collect(rt.alloc())?)),
        Err(error) if error.kind() == ErrorKind::OutOfMemory => Err(EngineFault::Memory),
        Err(_) => Ok(None),
    }
}

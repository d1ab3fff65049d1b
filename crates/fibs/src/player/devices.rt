//! The program on its devices: what a person types and sees. If standard output is a pipe or a file, it gets the plain
//! account.

use crate::player::playing::{play, unless_memory_ran_out};
use arrayvec::ArrayVec;
use fibs_cli::arguments::{Answer, Asked, Call, Request};
use fibs_cli::{program, told_line};
use fibs_connect::showing::show_on;
use fibs_connect::waiting::{PollWatch, WatchedNet, first_line};
use fibs_connect::watch::Unwatched;
use fibs_engine::dial::READ_MILLIS;
use fibs_engine::fault::EngineFault;
use fibs_engine::fixed::append_number;
use fibs_engine::limits::MOST_INPUT_READS;
use fibs_engine::pacing::Pace;
use fibs_engine::status::Status;
use fibs_engine::streams::Streams;
use fibs_engine::writing::write_bytes;
use fibs_fields::boards::Board;
use fibs_fields::fixed::append;
use fibs_position::{GameBoard, Numbers};
use fibs_terminal::Terminal;
use fibs_terminal::drawing::append_picture;
use fibs_wording::environment::{Clocks, Config, Settings, terminal_settings};
use mio::Poll;
use std::fs::File;
use std::io;
use std::io::{BufRead, BufReader, ErrorKind, IsTerminal, Read};
use std::os::fd::AsRawFd;
use std::time::{Clock, Duration};

/// How many milliseconds a server has to be quiet before the next line is read at a terminal. It is short, since the
/// server is also heard while the program waits for that line.
const TERMINAL_MILLIS: u64 = 20;

/// How many bytes of a password's line are read: more than a valid password has.
const MOST_PASSWORD: u64 = 4098;

/// What is printed if the password file can't be read.
const UNREADABLE: &[u8] = b"fibs: the password file can't be read\n";

/// A clock that tells no time: nobody knows when what is shown was said.
#[derive(Clone, Copy)]
struct NoClock;

impl Clock for NoClock {
    fn monotonic(&self) -> io::Result<Duration> {
        Err(io::Error::from(ErrorKind::Unsupported))
    }

    fn since_1970(&self) -> io::Result<Duration> {
        Err(io::Error::from(ErrorKind::Unsupported))
    }
}

/// Does what a command line asks for: as a person is shown it if the standard output is a terminal, else as the engines
/// print it.
///
/// Errors: `Device` if a stream fails, `Memory`.
pub fn run(rt: &HostRuntime, streams: &mut Streams, asked: &Asked<'_>) -> Result<u8, EngineFault> {
    match asked {
        Asked::Connect(call) => connect(rt, streams, *call),
        Asked::Files(request, names) => {
            match streams.read_files(rt, names.as_slice(), &mut rt.stderr()) {
                Ok(()) => run_here(rt, streams, &Answer::Engine(*request)),
                Err(error) if error.kind() == ErrorKind::OutOfMemory => Err(EngineFault::Memory),
                Err(_) => Ok(Status::Device.code()),
            }
        }
        Asked::Answer(answer) => run_here(rt, streams, answer),
    }
}

/// The same of what needs no server.
fn run_here(
    rt: &HostRuntime,
    streams: &mut Streams,
    answer: &Answer<'_>,
) -> Result<u8, EngineFault> {
    if rt.stdout().is_terminal() {
        match answer {
            Answer::Engine(Request::Show) => return show(rt, streams),
            Answer::Engine(Request::Plays(word)) => draw(rt, streams, told_line(word.as_bytes()))?,
            _ => {}
        }
    }
    let Streams { input, out } = streams;
    program::answer(rt, rt.alloc(), answer, input, out, &mut rt.stderr())
}

/// The settings of a terminal without a server.
fn settings_of<'a>(rt: &HostRuntime, clocks: &'a Clocks) -> Settings<'a> {
    terminal_settings(rt, clocks.zone(), "", 0)
}

/// Shows the standard input at a terminal. Talk has no time: it was said at another one.
///
/// Errors: `Device` if a stream fails, `Memory`.
fn show(rt: &HostRuntime, streams: &mut Streams) -> Result<u8, EngineFault> {
    let clocks = Clocks::read(rt);
    let held = show_lines(rt, &clocks, streams)?;
    if held > 0 {
        let mut line = ArrayVec::<u8, 64>::new();
        append(&mut line, b"unfinished ");
        append_number(&mut line, held);
        append(&mut line, b"\n");
        write_bytes(line.as_slice(), &mut streams.out)?;
    }
    Ok(Status::Done.code())
}

/// Shows each line, and answers how many bytes follow the last.
fn show_lines(
    rt: &HostRuntime,
    clocks: &Clocks,
    streams: &mut Streams,
) -> Result<usize, EngineFault> {
    let settings = settings_of(rt, clocks);
    let mut front = Terminal::new(rt.alloc(), &mut streams.out, NoClock, settings);
    let config = Config::read(rt)?;
    let configured = front.configure(&config).map_err(EngineFault::from);
    unless_memory_ran_out(configured, &front)?;
    let shown = show_on(MOST_INPUT_READS, &mut streams.input, &mut front);
    unless_memory_ran_out(shown, &front)
}

/// Draws the board that a line says, if the user plays in its game, in the numbers of the line, as its plays have them;
/// nothing for any other line.
///
/// Errors: `Device` if the standard output fails, `Memory`.
fn draw(rt: &HostRuntime, streams: &mut Streams, line: &[u8]) -> Result<(), EngineFault> {
    let alloc = rt.alloc();
    let clocks = Clocks::read(rt);
    match Board::read(line) {
        Ok(board) => match GameBoard::of(&board) {
            Ok(game) => {
                let mut settings = settings_of(rt, &clocks);
                settings.numbers = Numbers::TheServers;
                let mut text = Vec::new(alloc);
                append_picture(alloc, &game, &settings, &mut text)?;
                write_bytes(text.as_slice(), &mut streams.out)?;
                Ok(())
            }
            Err(_) => Ok(()),
        },
        Err(_) => Ok(()),
    }
}

/// Talks with a server. Answers the exit status.
///
/// Errors: `Device` if a stream fails, `Memory`.
fn connect(rt: &HostRuntime, streams: &mut Streams, call: Call<'_>) -> Result<u8, EngineFault> {
    let first = match first_bytes(rt, call) {
        Ok(first) => first,
        Err(error) if error.kind() == ErrorKind::OutOfMemory => return Err(EngineFault::Memory),
        Err(_) => {
            // if it can't be printed, the status alone says it
            let _said = write_bytes(UNREADABLE, &mut rt.stderr());
            return Ok(Status::Device.code());
        }
    };
    let Streams { input, out } = streams;
    let mut typed = first.as_slice().chain(input);
    if rt.stdin().is_terminal() {
        // if it can't be waited for, the standard input is read as if it were no terminal
        if let Ok(heard) = Poll::new(rt) {
            let typing = rt.stdin().as_raw_fd();
            if let Ok(mut watch) = PollWatch::new(rt, rt.alloc(), typing, &heard) {
                let net = WatchedNet::new(rt, heard.registry());
                let pace = Pace {
                    millis: TERMINAL_MILLIS,
                    typed: Some(typing),
                };
                return play(rt, &net, call, pace, &mut typed, &mut watch, out);
            }
        }
    }
    let pace = Pace {
        millis: READ_MILLIS,
        typed: None,
    };
    play(rt, rt, call, pace, &mut typed, &mut Unwatched, out)
}

/// What is read before what is typed: the password's line, if a file has it. If it is to be typed, it is asked for.
fn first_bytes(rt: &HostRuntime, call: Call<'_>) -> io::Result<Vec<u8>> {
    match call.password_file {
        Some(file) => password_line(rt, file),
        None => {
            if rt.stdin().is_terminal() {
                // if it can't be asked for, it is read all the same
                let _asked = write_bytes(b"password: ", &mut rt.stderr());
            }
            Ok(Vec::new(rt.alloc()))
        }
    }
}

/// The first line of a file, and no byte after it is read: it may be a pipe that others read on.
fn password_line(rt: &HostRuntime, file: &str) -> io::Result<Vec<u8>> {
    let alloc = rt.alloc();
    let file = BufReader::with_capacity(alloc, 1, File::open(rt, file)?)?;
    first_line(alloc, &mut file.take(MOST_PASSWORD))
}

//! Loops to measure, over standard input: how many lines a stream has, how many of them are read, taken by a client or
//! noted by a directory, how many legal plays their boards have, and how many clicks a client refuses; and how many of
//! a million typed texts are commands. Nothing depends on them.
#![tactic(auto)]

ghost use Rattle.std.specs.Prelude.{◌≤◌, ◌<◌, length};

use fibs_lines::{Line, Lines};
use fibs_messages::{Reading, read};
use fibs_position::{Decision, Direction, Play, Position};
use fibs_session::{Client, Directory, Login, Taken, read_command, read_plain};
use std::alloc::{AllocError, Global};
use std::io::Read;
use std::{env, io};

/// How much is read at once.
const PORTION: usize = 65536;

/// How many typed texts are read.
const TEXTS: u32 = 1_000_000;

/// How often a decision is clicked on.
const CLICKS: u32 = 1_000_000;

/// What is counted of the lines of a stream that are read.
#[derive(Clone, Copy)]
enum Count {
    /// Lines that are read, and are a board or a message.
    Readings,
    /// Messages that a directory takes note of.
    Notes,
    /// The legal plays of each board.
    Plays,
}

/// How many legal plays a line has: 0 if it is no board with a position.
fn plays_of(alloc: Global, line: &[u8]) -> Result<usize, AllocError> {
    match read(line) {
        Reading::Board(board) => match Position::of(&board) {
            Ok(position) => Ok(position.plays(alloc)?.len()),
            Err(_) => Ok(0),
        },
        _ => Ok(0),
    }
}

/// Whether a line is a board or a message.
fn is_read(line: &[u8]) -> bool {
    matches!(read(line), Reading::Board(_) | Reading::Numbered(_))
}

/// True if a line is a message that the directory notes.
fn is_noted(directory: &mut Directory, line: &[u8]) -> bool {
    match read(line) {
        Reading::Numbered(message) => directory.note(&message).is_ok(),
        _ => false,
    }
}

/// How many a line counts for.
fn count_line(
    alloc: Global,
    what: Count,
    directory: &mut Directory,
    line: &Line<'_>,
) -> Result<usize, AllocError> {
    match what {
        Count::Readings => Ok(usize::from(is_read(line.bytes))),
        Count::Notes => Ok(usize::from(is_noted(directory, line.bytes))),
        Count::Plays => plays_of(alloc, line.bytes),
    }
}

/// Counts over the lines that end in `piece`.
fn count_piece(
    alloc: Global,
    what: Count,
    lines: &mut Lines,
    directory: &mut Directory,
    piece: &[u8],
) -> Result<u64, AllocError> {
    let mut at = 0;
    let mut count = 0u64;
    while at < piece.len() {
        let fed = lines.feed(&piece[at..]);
        at += fed.used;
        if let Some(line) = fed.line {
            count = count.wrapping_add(count_line(alloc, what, directory, &line)? as u64);
        }
    }
    Ok(count)
}

/// Counts the lines that end in `piece`, and does no more.
fn cut_piece(lines: &mut Lines, piece: &[u8]) -> u64 {
    let mut at = 0;
    let mut count = 0u64;
    while at < piece.len() {
        let fed = lines.feed(&piece[at..]);
        at += fed.used;
        count = count.wrapping_add(u64::from(fed.line.is_some()));
    }
    count
}

/// What a client's answer counts for: one for the line, and one for each thing that there is to say of it.
fn weight_of(taken: &Taken<'_>) -> u64 {
    let said = matches!(taken.reading, Reading::Board(_) | Reading::Numbered(_));
    1 + taken.send.len() as u64
        + u64::from(said)
        + u64::from(taken.line.cut)
        + u64::from(taken.confirmed.is_some())
        + u64::from(taken.rolled)
}

/// How long the front of a piece is that a client reads, and what its answer counts for.
#[inline(always)]
fn take_front(client: &mut Client, piece: &[u8]) -> (usize, u64)
    ensures in_range { result.0 ≤ length piece.now }
    ensures progress { 0 < length piece.now → 0 < result.0 }
{
    let got = client.feed(piece);
    match &got.taken {
        None => (got.used, 0),
        Some(taken) => (got.used, weight_of(taken)),
    }
}

/// The same, by one of three calls.
fn take_by_turn(client: &mut Client, piece: &[u8], turn: u64) -> (usize, u64)
    ensures in_range { result.0 ≤ length piece.now }
    ensures progress { 0 < length piece.now → 0 < result.0 }
{
    match turn % 3 {
        0 => take_front(client, piece),
        1 => take_front(client, piece),
        _ => take_front(client, piece),
    }
}

/// Counts what a client's answers to `piece` count for.
fn take_piece(client: &mut Client, piece: &[u8]) -> u64 {
    let mut at = 0;
    let mut count = 0u64;
    while at < piece.len() {
        let taken = take_front(client, &piece[at..]);
        at += taken.0;
        count = count.wrapping_add(taken.1);
    }
    count
}

/// The same, called from three places in turn.
fn take_by_turns(client: &mut Client, piece: &[u8]) -> u64 {
    let mut at = 0;
    let mut count = 0u64;
    while at < piece.len() {
        let taken = take_by_turn(client, &piece[at..], count);
        at += taken.0;
        count = count.wrapping_add(taken.1);
    }
    count
}

/// Counts over what is read of the lines of the standard input.
fn count_input(
    rt: &HostRuntime,
    what: Count,
    lines: &mut Lines,
    directory: &mut Directory,
) -> io::Result<u64> {
    let alloc = rt.alloc();
    let mut portion = vec![in alloc; 0u8; PORTION]?;
    let mut input = rt.stdin();
    let mut count = 0u64;
    for _ in 0..u64::MAX {
        let used = input.read(&mut portion)?;
        if used == 0 {
            break;
        }
        count = count.wrapping_add(count_piece(alloc, what, lines, directory, &portion[..used])?);
    }
    Ok(count)
}

/// The same, from a stream's first line on.
fn count_lines(rt: &HostRuntime, what: Count) -> io::Result<u64> {
    let mut lines = Lines::new();
    let mut directory = Directory::new(rt.alloc());
    count_input(rt, what, &mut lines, &mut directory)
}

/// Counts the lines of the standard input.
fn cut_lines(rt: &HostRuntime) -> io::Result<u64> {
    let mut portion = vec![in rt.alloc(); 0u8; PORTION]?;
    let mut lines = Lines::new();
    let mut input = rt.stdin();
    let mut count = 0u64;
    for _ in 0..u64::MAX {
        let used = input.read(&mut portion)?;
        if used == 0 {
            break;
        }
        count = count.wrapping_add(cut_piece(&mut lines, &portion[..used]));
    }
    Ok(count)
}

/// Counts what the client's answers to the standard input count for.
fn hear_input(rt: &HostRuntime, client: &mut Client, by_turns: bool) -> io::Result<u64> {
    let mut portion = vec![in rt.alloc(); 0u8; PORTION]?;
    let mut input = rt.stdin();
    let mut count = 0u64;
    for _ in 0..u64::MAX {
        let used = input.read(&mut portion)?;
        if used == 0 {
            break;
        }
        let piece = &portion[..used];
        let taken = if by_turns {
            take_by_turns(client, piece)
        } else {
            take_piece(client, piece)
        };
        count = count.wrapping_add(taken);
    }
    Ok(count)
}

/// Makes a client that has a connection.
fn online() -> Option<Client> {
    let login = Login::new(b"ann", b"secret").ok()?;
    let mut client = Client::new(login);
    let _opened = client.open();
    Some(client)
}

/// The same, of a client that has a connection.
fn take_lines(rt: &HostRuntime, by_turns: bool) -> io::Result<u64> {
    match online() {
        None => Ok(0),
        Some(mut client) => hear_input(rt, &mut client, by_turns),
    }
}

/// Counts the clicks that a client refuses, of many on the empty play, after the lines of the standard input.
fn count_clicks(rt: &HostRuntime) -> io::Result<u64> {
    let mut count = 0u64;
    if let Some(mut client) = online() {
        let _lines = hear_input(rt, &mut client, false)?;
        let decision = Decision::Move(Play::new());
        for _ in 0..CLICKS {
            if client.decide(&decision).is_err() {
                count = count.wrapping_add(1);
            }
        }
    }
    Ok(count)
}

/// Counts the commands among many typed texts.
fn count_commands() -> u64 {
    let texts: [&[u8]; 8] = [
        b"roll",
        b"move 24-18 18-13",
        b"move bar-20",
        b"move 3-off 2-off",
        b"tell bob hi",
        b"invite bob 5",
        b"say good luck",
        b"dance",
    ];
    let mut count = 0u64;
    for i in 0..TEXTS {
        let text = texts[(i % 8) as usize];
        if read_command(text, Direction::Down).is_some() || read_plain(text).is_some() {
            count = count.wrapping_add(1);
        }
    }
    count
}

/// Counts what a word names.
fn count_of(rt: &HostRuntime, word: &str) -> io::Result<u64> {
    match word {
        "readings" => count_lines(rt, Count::Readings),
        "notes" => count_lines(rt, Count::Notes),
        "plays" => count_lines(rt, Count::Plays),
        "client" => take_lines(rt, false),
        "clients" => take_lines(rt, true),
        "clicks" => count_clicks(rt),
        "commands" => Ok(count_commands()),
        _ => cut_lines(rt),
    }
}

/// Counts what the first argument names: `lines`, `readings`, `notes`, `plays`, `client`, `clients` (one that is called
/// from three places), `clicks` or `commands`; without one, lines.
fn main(rt: HostRuntime) -> io::Result<()> {
    let words: Vec<String> = env::args(&rt)?.collect(rt.alloc())?;
    let word = words.get(1).map_or("lines", String::as_str);
    let count = count_of(&rt, word)?;
    println!(rt; "{count}")?;
    Ok(())
}

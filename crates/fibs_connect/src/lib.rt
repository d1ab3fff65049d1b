//! `fibs connect`: a player's conversation with the server. The seat of a player, a turn of the client with its
//! stream, the lines that a user types, and front ends, to which all that happens is reported.
#![tactic(auto)]

ghost use Rattle.std.specs.Prelude.{◌≡◌, ◌*◌, IfOk, IfErr};
ghost use Rattle.std.specs.Io.KnownBytes.{Appends};
ghost use Rattle.fibs_connect.specs.Converse.Ending.{Conversed, ConversedOver, EndsWell, login_fault_line};
ghost use Rattle.fibs_connect.specs.TypedReads.{SpendsReads};
ghost use Rattle.fibs_engine.specs.Printing.{line_bytes};
ghost use Rattle.fibs_engine.specs.Reads.{LostAtMost};

pub mod fault;
pub mod front;
mod heard;
pub mod laws;
pub mod plain;
mod players;
pub mod printing;
pub mod said;
mod seat;
pub mod showing;
pub mod turns;
mod typed;
pub mod waiting;
pub mod wish;
pub mod words;

use crate::typed_line::TypedLine;
use crate::typed_lines::{Next, TypedLines};
use crate::watch::{Unwatched, Watch};
use fibs_engine::dial::{Dial, Endpoint, READ_MILLIS, TcpDial};
use fibs_engine::fault::EngineFault;
use fibs_engine::limits::{MOST_INPUT_READS, READ_PORTION};
use fibs_engine::status::Status;
use fibs_session::{Login, PlainFault};
use plain::Plain;
use printing::print_reason;
use seat::{Going, Seat};
use std::alloc::Global;
use std::io::{Read, Write};
use std::net::{Net, TcpStream};
use std::time::Duration;
pub use typed::{typed_line, typed_lines, watch};
use words::Words;

/// Talks with a server for a player.
///
/// The first line of `typed` is the password. If it or the name has a fault, `err` is given `fault NUMBER NAME`, and
/// the status is 3. Else it connects to the host, a name or an address, logs in, and answers each line that is typed:
/// `open` connects again, `players` lists the players that are known, `quit` ends, and all others are turns of the
/// client (`exchange`); an empty line is a turn without a typed line. If no connection can be made it says so, and
/// goes on. At the end of the lines, and after `quit`, the status is 0. A read of the server waits for half a second.
///
/// It reads at most 1,000,000,000 times, and at most 1024 bytes at once.
///
/// Errors: `Device` if a line can't be read, or what is printed can't be written. Never `Memory`: what the directory
/// refuses is printed.
pub fn converse<N: Net<Stream = TcpStream>, R: Read, W: Write, E: Write>(
    rt: &N,
    alloc: Global,
    host: &str,
    port: u16,
    name: &[u8],
    typed: &mut R,
    out: &mut W,
    err: &mut E,
) -> Result<u8, EngineFault>
    ensures conversed { Conversed name.now result (R.remaining typed.old)
        (W.contents out.old) (W.contents out.new) (E.contents err.old) (E.contents err.new) }
    ensures few { LostAtMost (MOST_INPUT_READS * READ_PORTION) (R.remaining typed.old) (R.remaining typed.new) }
{
    let endpoint = Endpoint {
        host,
        port,
        quiet: Duration::from_millis(READ_MILLIS),
    };
    let mut server = TcpDial::new(rt, endpoint);
    let (reads, watch) = (MOST_INPUT_READS, &mut Unwatched);
    converse_with(&mut server, alloc, name, reads, typed, watch, out, err)
}

/// The same with any maker of connections, and with at most so many reads of what is typed. If the server speaks before
/// a line is begun, as the watch sees it, that is a turn of its own.
pub fn converse_with<D: Dial, R: Read, V: Watch, W: Write, E: Write>(
    server: &mut D,
    alloc: Global,
    name: &[u8],
    reads: u32,
    typed: &mut R,
    watch: &mut V,
    out: &mut W,
    err: &mut E,
) -> Result<u8, EngineFault>
    ensures conversed { Conversed name.now result (R.remaining typed.old)
        (W.contents out.old) (W.contents out.new) (E.contents err.old) (E.contents err.new) }
    ensures few { LostAtMost (reads * READ_PORTION) (R.remaining typed.old) (R.remaining typed.new) }
{
    let mut front = Plain { out };
    converse_on(server, alloc, name, reads, typed, watch, &mut front, err)
}

/// The same over any front end. What is wrong with a name or a password is printed on `err`.
pub fn converse_on<D: Dial, R: Read, V: Watch, F: Words, E: Write>(
    server: &mut D,
    alloc: Global,
    name: &[u8],
    reads: u32,
    typed: &mut R,
    watch: &mut V,
    front: &mut F,
    err: &mut E,
) -> Result<u8, EngineFault>
    ensures ends { EndsWell result }
    ensures conversed { ConversedOver name.now (R.remaining typed.old) result (front.new ≡ front.old)
        (E.contents err.old) (E.contents err.new) }
    ensures few { LostAtMost (reads * READ_PORTION) (R.remaining typed.old) (R.remaining typed.new) }
{
    let mut lines = TypedLines::new(reads);
    let mut line = TypedLine::new();
    lines.read_line(typed, &mut line)?;
    match Login::new(name, line.as_slice()) {
        Err(fault) => print_fault(fault, err),
        Ok(login) => answer_lines(server, alloc, login, &mut lines, typed, watch, front),
    }
}

/// Prints what is wrong with a name or a password.
fn print_fault<E: Write>(fault: PlainFault, err: &mut E) -> Result<u8, EngineFault>
    ensures printed { IfOk result (λ status. (status ≡ 3)
        × Appends (E.contents err.old) (E.contents err.new) (line_bytes (login_fault_line fault))) }
    ensures device { IfErr result (λ why. why ≡ EngineFault.Device) }
{
    print_reason(b"fault ", fault.number(), fault, err)?;
    Ok(Status::Refused.code())
}

/// Connects, does what each line asks for, and hears the server whenever it speaks first, to the end of the lines or
/// until one asks to end.
pub fn answer_lines<D: Dial, R: Read, V: Watch, F: Words>(
    server: &mut D,
    alloc: Global,
    login: Login,
    lines: &mut TypedLines,
    typed: &mut R,
    watch: &mut V,
    front: &mut F,
) -> Result<u8, EngineFault>
    ensures done { IfOk result (λ status. status ≡ 0) }
    ensures device { IfErr result (λ why. why ≡ EngineFault.Device) }
    ensures spends { SpendsReads lines.old lines.new (R.remaining typed.old) (R.remaining typed.new) }
{
    let mut seat = Seat::new(alloc, login);
    seat.open(server, front)?;
    let mut line = TypedLine::new();
    for _ in 0..u64::MAX {
        front.rest(&seat.client, &seat.directory)?;
        let next = lines.next(typed, watch, &mut line)?;
        match next {
            Next::Ended => return Ok(Status::Done.code()),
            Next::Heard => seat.take_turn(None, front)?,
            Next::Typed => {
                let wish = front.wish(&seat.client, &seat.directory, &mut line)?;
                if let Going::Away = seat.answer(wish, line.as_slice(), server, front)? {
                    // a player who leaves sees what he was told
                    front.rest(&seat.client, &seat.directory)?;
                    return Ok(Status::Done.code());
                }
            }
        }
    }
    Err(EngineFault::Device)
}

//! One turn of a client with its stream.

ghost use Rattle.std.specs.Prelude.{◌≡◌, List, None, true, false, IfOk, OnErr};
ghost use Rattle.fibs_session.specs.History.Machine.{Talk, is_online};
ghost use Rattle.fibs_session.specs.Calls.Standing.{StandsAfter};
ghost use Rattle.fibs_messages.specs.Message.{MessageValue};
ghost use Rattle.fibs_connect.specs.Turns.Answering.{Listened};
ghost use Rattle.fibs_connect.specs.Turns.Script.{outside, known_before, known_after};
ghost use Rattle.fibs_connect.specs.Turns.Turn.{Turned, TurnedBy, Stopped, FitsStream, bytes_of, is_there, still_given};
ghost use Rattle.fibs_engine.specs.Reads.{LostAtMost, turn_limit};

mod hearing;
pub mod laws;
pub(crate) mod loss;
pub(crate) mod sending;
mod turn_fault;
mod typing;

pub use crate::fault::FrontFault as ExchangeFault;
use crate::front::Front;
use crate::plain::Plain;
use fibs_engine::limits::READ_PORTION;
use fibs_engine::link::{Link, is_quiet};
use fibs_session::{Client, Directory, Outstanding};
use hearing::hear_portion;
use loss::end_connection;
use std::io::Write;
use turn_fault::TurnFault;
use typing::{type_line, type_offline};

/// The most times that a stream is read in one turn.
const MOST_TURN_READS: u32 = 4096;

/// How a turn ended.
#[derive(Clone, Copy)]
pub enum Ending {
    /// Nothing more has come yet.
    Quiet,
    /// The connection is over; and the decision that was not confirmed on it.
    Lost(Option<Outstanding>),
}

/// Hears what the stream gives, until it is quiet.
fn listen<S: Link, F: Front>(
    client: &mut Client,
    directory: &mut Directory,
    stream: &mut S,
    front: &mut F,
) -> Result<Ending, ExchangeFault>
    ensures turned { (t : Talk) → StandsAfter client.old t → is_online t ≡ true →
        Listened F.tells result t client.new (S.remaining stream.old) (S.remaining stream.new)
        (outside (S.contents stream.old) front.old directory.old)
        (outside (S.contents stream.new) front.new directory.new) }
    ensures few { LostAtMost turn_limit (S.remaining stream.old) (S.remaining stream.new) }
{
    fibs_session::client::laws::pieces_join();
    fibs_session::client::laws::empty_piece_is_nothing();
    fibs_lines::laws::lines_only_grow();
    let mut portion = [0; READ_PORTION];
    for made in 0..MOST_TURN_READS {
        front.flush()?;
        let count = match stream.receive(&mut portion) {
            Ok(0) => return end_connection(client, front),
            Ok(count) => count,
            Err(error) if is_quiet(&error) => return Ok(Ending::Quiet),
            Err(_) => return end_connection(client, front),
        };
        match hear_portion(client, directory, &portion[..count], stream, front) {
            Ok(()) => {}
            Err(TurnFault::Stream) => return end_connection(client, front),
            Err(TurnFault::Output) => return Err(ExchangeFault::Output),
        }
    }
    Ok(Ending::Quiet)
}

/// One turn of a client that is online with its stream: the typed line is answered, and then what the server sends is
/// heard, until a read would wait or timed out (`Quiet`), or the connection is over (`Lost`). It reads at most 4096
/// times, at most 1024 bytes at once.
///
/// A typed line is a decision in the place numbers of the board shown, else a plain command, else a standing order to
/// roll or its withdrawal. For each line the commands that it calls for are written first, the `roll` of a standing
/// order that it makes due among them; then it is reported to the front end, then to the directory. Only the directory
/// takes memory: what it refuses is reported.
///
/// Errors: `Output` if the front end fails. The client is then as after its last finished call:
/// it made the typed call, then it was fed what was read, all of it or up to the end of the line that is not taken, and
/// then it lost its connection, if that is what is not taken. The commands of these calls are written.
pub fn talk<S: Link, F: Front>(
    client: &mut Client,
    directory: &mut Directory,
    stream: &mut S,
    typed: Option<&[u8]>,
    front: &mut F,
) -> Result<Ending, ExchangeFault>
    ensures turned { IfOk result (λ e. (t : Talk) → StandsAfter client.old t → is_online t ≡ true →
        TurnedBy F.tells t client.new (bytes_of typed.entry) (S.remaining stream.old) (S.remaining stream.new)
        (outside (S.contents stream.old) front.old directory.old)
        (outside (S.contents stream.new) front.new directory.new) e) }
    ensures stopped { OnErr result ((t : Talk) → StandsAfter client.old t → is_online t ≡ true →
        Stopped t client.new (bytes_of typed.entry) (S.remaining stream.old) (S.remaining stream.new)
        (S.contents stream.old) (S.contents stream.new)) }
    ensures few { LostAtMost turn_limit (S.remaining stream.old) (S.remaining stream.new) }
{
    fibs_session::client::laws::empty_piece_is_nothing();
    match typed {
        None => listen(client, directory, stream, front),
        Some(text) => match type_line(client, text, stream, front) {
            Ok(()) => listen(client, directory, stream, front),
            Err(TurnFault::Stream) => end_connection(client, front),
            Err(TurnFault::Output) => Err(ExchangeFault::Output),
        },
    }
}

/// A turn of a client that is offline: the typed line is answered, and nothing is read. It ends as `Quiet`.
///
/// Errors: `Output` if the front end fails.
pub(crate) fn talk_offline<F: Front>(
    client: &mut Client,
    typed: Option<&[u8]>,
    front: &mut F,
) -> Result<Ending, ExchangeFault>
    requires { FitsStream client.old false }
    ensures turned { IfOk result (λ e. (t : Talk) → StandsAfter client.old t → is_online t ≡ false →
        (players : List MessageValue) →
        TurnedBy F.tells t client.new (bytes_of typed.entry) None None
        (outside None front.old players) (outside None front.new players) e) }
    ensures stopped { OnErr result ((t : Talk) → StandsAfter client.old t → is_online t ≡ false →
        Stopped t client.new (bytes_of typed.entry) None None None None) }
{
    fibs_session::client::laws::empty_piece_is_nothing();
    match typed {
        None => Ok(Ending::Quiet),
        Some(text) => {
            type_offline(client, text, front)?;
            Ok(Ending::Quiet)
        }
    }
}

/// The same with the plain account, and without a stream if the client is offline: a stream is given exactly if it is
/// online. What is reported to a front end is printed on `out`.
pub fn exchange<S: Link, W: Write>(
    client: &mut Client,
    directory: &mut Directory,
    stream: Option<&mut S>,
    typed: Option<&[u8]>,
    out: &mut W,
) -> Result<Ending, ExchangeFault>
    requires { FitsStream client.old (is_there stream) }
    ensures next { IfOk result (λ e. FitsStream client.new (still_given e (is_there stream.entry))) }
    ensures turned { IfOk result (λ e. (t : Talk) → StandsAfter client.old t → is_online t ≡ is_there stream.entry →
        Turned t client.new (bytes_of typed.entry)
        (known_before S.remaining stream.entry) (known_after S.remaining stream.exit)
        (outside (known_before S.contents stream.entry) (W.contents out.old) directory.old)
        (outside (known_after S.contents stream.exit) (W.contents out.new) directory.new) e) }
    ensures stopped { OnErr result ((t : Talk) → StandsAfter client.old t → is_online t ≡ is_there stream.entry →
        Stopped t client.new (bytes_of typed.entry)
        (known_before S.remaining stream.entry) (known_after S.remaining stream.exit)
        (known_before S.contents stream.entry) (known_after S.contents stream.exit)) }
    ensures few { LostAtMost turn_limit (known_before S.remaining stream.entry) (known_after S.remaining stream.exit) }
{
    let mut plain = Plain { out };
    match stream {
        None => talk_offline(client, typed, &mut plain),
        Some(stream) => talk(client, directory, stream, typed, &mut plain),
    }
}

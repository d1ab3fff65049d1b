//! `fibs loop`: a script of events, played by a client and a model server over the sockets of one machine.

ghost use Rattle.std.specs.Prelude.{◌+◌, ◌⊎◌, IfOk, IsErrOf};
ghost use Rattle.fibs_engine.specs.Reads.{LostAtMost};
ghost use Rattle.fibs_replay.specs.Limits.{read_len};
ghost use Rattle.fibs_replay.specs.Output.{LoggedInPart, Replayed, ReplayedInPart, ReplayFailed};
ghost use Rattle.fibs_replay.specs.Scripts.{script_limit};

use crate::replay_over;
use fibs_engine::fault::EngineFault;
use fibs_model::carriers::{BothEnds, Sockets};
use std::alloc::Global;
use std::io::{Read, Write};
use std::net::{Net, TcpListener, TcpStream};

/// Reads a script and plays it: a client at one end of a connection and a model server at the other, in turn, over a
/// socket to the listener for each connection that is opened. It prints what `replay` prints, and has its status.
///
/// What one end sends waits there until an event takes it; then it crosses the socket in portions of at most 1024
/// bytes, each written and then read, so that no write waits for a reader.
///
/// Errors: `Device` if the script can't be read, what is printed can't be written, or a socket fails; `Memory` if
/// it runs out. After a socket's failure and without memory the log so far is printed.
pub fn play_loop<N: Net<Stream = TcpStream>, R: Read, W: Write>(
    rt: &N,
    alloc: Global,
    listener: &TcpListener,
    reader: &mut R,
    writer: &mut W,
) -> Result<u8, EngineFault>
    ensures done { IfOk result (λ status.
        Replayed status (R.remaining reader.old) (R.remaining reader.new)
        (W.contents writer.old) (W.contents writer.new)) }
    ensures device { IsErrOf result EngineFault.Device →
        ReplayFailed (R.remaining reader.old) (R.remaining reader.new) (W.contents writer.old) (W.contents writer.new)
        ⊎ LoggedInPart (R.remaining reader.old) (R.remaining reader.new)
        (W.contents writer.old) (W.contents writer.new) }
    ensures memory { IsErrOf result EngineFault.Memory →
        ReplayedInPart (R.remaining reader.old) (R.remaining reader.new)
        (W.contents writer.old) (W.contents writer.new) }
    ensures few { LostAtMost (script_limit + read_len) (R.remaining reader.old) (R.remaining reader.new) }
{
    let mut carrier = BothEnds::new(Sockets::new(rt, listener));
    replay_over(&mut carrier, alloc, reader, writer)
}

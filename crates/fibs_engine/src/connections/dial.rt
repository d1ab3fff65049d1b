//! Connections to a server.

ghost use Rattle.std.specs.Prelude.{◌≡◌, ◌≢◌};

use super::alive::keep_alive;
use crate::link::Link;
use std::io;
use std::io::ErrorKind;
use std::net::{Net, SocketAddr, TcpStream, ToSocketAddrs};
use std::os::fd::AsRawFd;
use std::time::Duration;

/// How many seconds each address of a server may take to answer.
const CONNECT_SECONDS: u64 = 10;

/// How many milliseconds a read waits by default: a pipe or a file has no other pace.
pub const READ_MILLIS: u64 = 500;

/// What makes connections to one server.
pub trait Dial {
    /// A connection.
    type Stream: Link + Drop;

    /// A new connection, or why none can be made.
    fn dial(&mut self) -> Result<Self::Stream, ErrorKind>;
}

/// Where a server is, and how long it is listened to.
#[derive(Clone, Copy)]
pub struct Endpoint<'a> {
    /// Its name or address.
    pub host: &'a str,
    /// Its port.
    pub port: u16,
    /// How long a read waits for it.
    pub quiet: Duration,
}

/// What dials a server over TCP.
#[derive(Drop)]
pub struct TcpDial<'a, N: Net<Stream = TcpStream>> {
    net: &'a N,
    endpoint: Endpoint<'a>,
}

impl<'a, N: Net<Stream = TcpStream>> TcpDial<'a, N> {
    /// What dials this server, over a net.
    pub fn new(net: &'a N, endpoint: Endpoint<'a>) -> TcpDial<'a, N> {
        TcpDial { net, endpoint }
    }
}

impl<N: Net<Stream = TcpStream>> Dial for TcpDial<'_, N> {
    type Stream = TcpStream;

    /// A socket to the first of the host's addresses that answers. If none does, why the last does not; `NotFound` if
    /// it has none.
    fn dial(&mut self) -> Result<TcpStream, ErrorKind> {
        let Endpoint { host, port, quiet } = self.endpoint;
        let addresses = match (host, port).to_socket_addrs(self.net) {
            Ok(addresses) => addresses,
            Err(error) => return Err(lookup_failure(error.kind())),
        };
        let mut why = ErrorKind::NotFound;
        for address in addresses {
            match connected(self.net, address, quiet) {
                Ok(stream) => return Ok(stream),
                Err(error) => why = error.kind(),
            }
        }
        Err(why)
    }
}

/// Why the addresses of a name can't be told: there are none, unless memory ran out. What a system says of a name that
/// it does not know has no kind of its own.
fn lookup_failure(kind: ErrorKind) -> ErrorKind
    ensures memory { kind ≡ ErrorKind.OutOfMemory → result ≡ ErrorKind.OutOfMemory }
    ensures none { kind ≢ ErrorKind.OutOfMemory → result ≡ ErrorKind.NotFound }
{
    match kind {
        ErrorKind::OutOfMemory => ErrorKind::OutOfMemory,
        _ => ErrorKind::NotFound,
    }
}

/// A socket of which each read waits this long alone, and each command leaves at once. If its other end is gone
/// without a word, a read says so within two minutes.
fn connected<N: Net<Stream = TcpStream>>(
    net: &N,
    address: SocketAddr,
    quiet: Duration,
) -> io::Result<TcpStream> {
    let wait = Duration::from_secs(CONNECT_SECONDS);
    let stream = TcpStream::connect_timeout(net, &address, wait)?;
    stream.set_read_timeout(Some(quiet))?;
    stream.set_nodelay(true)?;
    keep_alive(stream.as_raw_fd());
    Ok(stream)
}

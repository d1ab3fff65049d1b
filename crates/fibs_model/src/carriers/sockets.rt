//! Both ends of a connection in one process, as a carrier.

ghost use Rattle.std.specs.Prelude.{◌≡◌, [], ◌∷◌, refl, true, length, None, IsErr, OnOk, OnErr};
ghost use Rattle.std.specs.Io.KnownBytes.{Appends, Consumes};
ghost use Rattle.fibs_model.specs.Carrying.{connected, crossed};

use crate::carriers::carrier::{Broken, Carrier, Way};
use std::io;
use std::io::{Read, Write};
use std::net::{Net, TcpListener, TcpStream};
use std::time::Duration;

/// How many bytes are written at one end before they are read at the other: no write of so few waits for a reader.
const CROSSING_LEN: usize = 1024;

/// How many seconds an end waits for bytes that the other has written.
const READ_SECONDS: u64 = 10;

/// Both ends of a connection.
#[derive(Drop)]
pub struct Ends<E> {
    client: E,
    server: E,
}

/// Makes connections, and has both ends of each.
pub trait Connects<E>: Drop {
    /// A new connection.
    fn pair(&self) -> io::Result<Ends<E>>;
}

/// What makes connections, and both ends of the one that is open. A failure closes it.
#[derive(Drop)]
pub struct BothEnds<P, E> {
    connects: P,
    ends: Option<Ends<E>>,
}

/// A listener of this machine, and a net over which to connect to it.
#[derive(Drop)]
pub struct Sockets<'a, N> {
    net: &'a N,
    listener: &'a TcpListener,
}

/// An end on which each portion leaves at once, and no read waits forever.
fn prepare(end: &TcpStream) -> io::Result<()> {
    end.set_nodelay(true)?;
    end.set_read_timeout(Some(Duration::from_secs(READ_SECONDS)))
}

/// A socket that is connected to the listener, and the connection that the listener then accepts.
fn connected<N: Net<Stream = TcpStream>>(
    net: &N,
    listener: &TcpListener,
) -> io::Result<Ends<TcpStream>> {
    let client = TcpStream::connect(net, listener.local_addr()?)?;
    let (server, _peer) = listener.accept()?;
    prepare(&client)?;
    prepare(&server)?;
    Ok(Ends { client, server })
}

/// Moves a portion: it is written at one end, and as many bytes are read at the other. Broken if they are others:
/// then the other end is a stranger's.
fn carry<F: Write, T: Read>(
    bytes: &[u8],
    from: &mut F,
    to: &mut T,
    arrived: &mut [u8],
) -> Result<(), Broken>
    ensures len { length arrived.new ≡ length arrived.old }
    ensures written { OnOk result (Appends (F.contents from.old) (F.contents from.new) bytes.now) }
    ensures read { OnOk result (Consumes (T.remaining to.old) (T.remaining to.new) bytes.now) }
    ensures same { OnOk result (arrived.new ≡ bytes.now) }
{
    from.write_all(bytes).map_err(|_| Broken)?;
    to.read_exact(arrived).map_err(|_| Broken)?;
    if &*arrived == bytes {
        Ok(())
    } else {
        Err(Broken)
    }
}

/// Moves bytes from one end to the other, in portions.
fn carry_all<F: Write, T: Read>(bytes: &[u8], from: &mut F, to: &mut T) -> Result<(), Broken>
    ensures written { OnOk result (Appends (F.contents from.old) (F.contents from.new) bytes.now) }
    ensures read { OnOk result (Consumes (T.remaining to.old) (T.remaining to.new) bytes.now) }
{
    let mut portion = [0; CROSSING_LEN];
    let mut rest = bytes;
    while !rest.is_empty() {
        let count = rest.len().min(CROSSING_LEN);
        carry(&rest[..count], from, to, &mut portion[..count])?;
        rest = &rest[count..];
    }
    Ok(())
}

impl<'a, N> Sockets<'a, N> {
    /// A listener to which nothing is connected.
    pub fn new(net: &'a N, listener: &'a TcpListener) -> Sockets<'a, N> {
        Sockets { net, listener }
    }
}

impl<N: Net<Stream = TcpStream>> Connects<TcpStream> for Sockets<'_, N> {
    fn pair(&self) -> io::Result<Ends<TcpStream>> {
        connected(self.net, self.listener)
    }
}

impl<P, E> BothEnds<P, E> {
    /// Nothing is connected yet.
    pub fn new(connects: P) -> BothEnds<P, E> {
        BothEnds {
            connects,
            ends: None,
        }
    }
}

impl<E: Read + Write + Drop, P: Connects<E>> Carrier for BothEnds<P, E> {
    ghost use Rattle.fibs_model.specs.Ways.{Went, went_joined};

    ghost may_break = { true };

    ghost carries = { λ a crossings b. Went E.contents E.remaining a.ends crossings b.ends };

    ghost joins = { record {
      nothing = λ _. refl;
      joined = λ a b c xs ys p q. went_joined E.contents E.remaining a.ends b.ends c.ends xs ys p q;
    } };

    fn connect(&mut self) -> Result<(), Broken>
        ensures carries { OnOk result (Went E.contents E.remaining self.old.ends (connected ∷ []) self.new.ends) }
        ensures unbroken { IsErr result → true ≡ true }
        ensures dropped { OnErr result (self.new.ends ≡ None) }
    {
        self.ends = None;
        self.ends = Some(self.connects.pair().map_err(|_| Broken)?);
        Ok(())
    }

    fn cross(&mut self, way: Way, bytes: &[u8]) -> Result<(), Broken>
        ensures carries { OnOk result
            (Went E.contents E.remaining self.old.ends (crossed way bytes.now ∷ []) self.new.ends) }
        ensures unbroken { IsErr result → true ≡ true }
        ensures dropped { OnErr result (self.new.ends ≡ None) }
    {
        let crossed = match &mut self.ends {
            None => Err(Broken),
            Some(ends) => match way {
                Way::ToServer => carry_all(bytes, &mut ends.client, &mut ends.server),
                Way::ToClient => carry_all(bytes, &mut ends.server, &mut ends.client),
            },
        };
        if crossed.is_err() {
            self.ends = None;
        }
        crossed
    }

    fn close(&mut self) -> Result<(), Broken> {
        self.ends = None;
        Ok(())
    }
}

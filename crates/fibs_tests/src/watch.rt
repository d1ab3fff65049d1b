//! What is ready first, on real sockets: one of them stands for what is typed.

use fibs_connect::waiting::{PollWatch, WatchedNet};
use fibs_connect::watch::{First, Watch};
use fibs_test_tools::named::Named;
use mio::{Events, Poll};
use std::io;
use std::io::{Read, Write};
use std::net::{IpAddr, Ipv4Addr, Net, SocketAddr, TcpListener, TcpStream};
use std::os::fd::AsRawFd;
use std::process::Abort;
use std::time::Duration;

/// How many seconds a wait takes at most that is to end before.
const PATIENCE: u64 = 10;

/// Both ends of a connection: that which a network made, and that which a listener accepted.
#[derive(Drop)]
struct Ends {
    near: TcpStream,
    far: TcpStream,
}

impl Ends {
    /// The ends of a new connection, which the network makes in at most so long.
    fn new<N: Net<Stream = TcpStream, Listener = TcpListener>>(
        rt: &impl Abort,
        net: &N,
        most: Option<Duration>,
    ) -> Ends {
        let listener = TcpListener::bind(net, "127.0.0.1:0").expect(rt, "it listens");
        let address = listener.local_addr().expect(rt, "it has an address");
        let near = connected(net, address, most).expect(rt, "a connection is made");
        let (far, _peer) = listener.accept().expect(rt, "it is accepted");
        Ends { near, far }
    }

    /// Writes a byte at the far end, and says whether it has come to the near one.
    fn arrive(&mut self) -> bool {
        self.far.write_all(b"x").is_ok() && self.near.peek(&mut [0u8; 1]).is_ok()
    }
}

/// A connection that the network makes to an address, in at most so long.
fn connected<N: Net<Stream = TcpStream>>(
    net: &N,
    address: SocketAddr,
    most: Option<Duration>,
) -> io::Result<TcpStream> {
    match most {
        None => TcpStream::connect(net, address),
        Some(most) => TcpStream::connect_timeout(net, &address, most),
    }
}

/// Whether something has come after a wait of at most so many seconds, if it can be waited.
fn has_come(heard: &mut Poll, events: &mut Events, seconds: u64) -> Option<bool> {
    let waited = heard.poll(events, Some(Duration::from_secs(seconds)));
    waited.is_ok().then_some(!events.is_empty())
}

/// Whether a wait in the set of a network's connections ends by what has come to one of them, and not before.
fn is_watched(heard: &mut Poll, events: &mut Events, ends: &mut Ends) -> bool {
    has_come(heard, events, 0) == Some(false)
        && ends.arrive()
        && has_come(heard, events, PATIENCE) == Some(true)
}

/// Whether a connection that is made, in at most so long, is watched.
fn is_made_and_watched<R: Abort + AllocGlobal + Net<Stream = TcpStream, Listener = TcpListener>>(
    rt: &R,
    most: Option<Duration>,
) -> bool {
    let mut heard = Poll::new(rt).expect(rt, "a set is made");
    let mut events = Events::with_capacity(rt.alloc(), 1).expect(rt, "there is memory");
    let mut ends = Ends::new(rt, &WatchedNet::new(rt, heard.registry()), most);
    is_watched(&mut heard, &mut events, &mut ends)
}

#[test]
fn a_connection_is_watched(rt: HostRuntime) {
    assert!(rt; is_made_and_watched(&rt, None));
    assert!(rt; is_made_and_watched(&rt, Some(Duration::from_secs(PATIENCE))));
}

/// An address of this machine.
fn address_of(port: u16) -> SocketAddr {
    SocketAddr::new(IpAddr::V4(Ipv4Addr::LOCALHOST), port)
}

/// Each address of a name is found.
#[test]
fn a_watched_network_finds_each_address(rt: HostRuntime) {
    let heard = Poll::new(&rt).expect(&rt, "a set is made");
    let named = Named::new(&rt, [address_of(1), address_of(2)]);
    let net = WatchedNet::new(&named, heard.registry());
    let mut found = [address_of(1); 3];
    let count = net.lookup_host("fibs.example", 4321, &mut found);
    assert!(rt; matches!(count, Ok(2)));
    assert!(rt; found[1] == address_of(2));
}

/// Lets a byte come to each of two connections, to the first one before the other if it is so wanted, and says whether
/// both have come.
fn arrive_at_both(first: &mut Ends, second: &mut Ends, in_order: bool) -> bool {
    if in_order {
        return first.arrive() && second.arrive();
    }
    second.arrive() && first.arrive()
}

/// What comes first of what is typed and what the server sends: at three times, and then after what is typed was read.
fn seen_so_far(rt: &impl Abort, watch: &mut PollWatch<'_>, typed: &mut TcpStream) -> [First; 4] {
    // it is so as long as it is not read
    let (first, second, third) = (watch.first(), watch.first(), watch.first());
    let read = typed.read_exact(&mut [0u8; 1]);
    read.expect(rt, "it is read");
    [first, second, third, watch.first()]
}

/// The same on new connections if both are ready, what is heard before what is typed or after it.
fn seen_first<R: Abort + AllocGlobal + Net<Stream = TcpStream, Listener = TcpListener>>(
    rt: &R,
    heard_before: bool,
) -> [First; 4] {
    let heard = Poll::new(rt).expect(rt, "a set is made");
    let mut server = Ends::new(rt, &WatchedNet::new(rt, heard.registry()), None);
    let mut user = Ends::new(rt, rt, None);
    let watched = PollWatch::new(rt, rt.alloc(), user.near.as_raw_fd(), &heard);
    let mut watch = watched.expect(rt, "it is watched");
    let is_ready = arrive_at_both(&mut server, &mut user, heard_before);
    assert!(rt; is_ready);
    seen_so_far(rt, &mut watch, &mut user.near)
}

/// If both are ready, what is typed comes first, whichever of them was ready before the other.
#[test]
fn what_is_typed_comes_before_what_is_heard(rt: HostRuntime) {
    let wanted = [First::Typed, First::Typed, First::Typed, First::Heard];
    assert!(rt; seen_first(&rt, true) == wanted);
    assert!(rt; seen_first(&rt, false) == wanted);
}

/// If what is typed can't be watched any more, the server has not spoken by that: a read says what is wrong.
#[test]
fn a_wait_that_fails_is_no_word_of_the_server(rt: HostRuntime) {
    let heard = Poll::new(&rt).expect(&rt, "a set is made");
    let Ends { near, far: _far } = Ends::new(&rt, &rt, None);
    let typed = near.as_raw_fd();
    let mut watch = PollWatch::new(&rt, rt.alloc(), typed, &heard).expect(&rt, "it is watched");
    drop(near);
    assert!(rt; watch.first() == First::Typed);
}

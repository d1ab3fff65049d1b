//! A network whose connections are watched.

use mio::unix::SourceFd;
use mio::{Interest, Registry, Token};
use std::io;
use std::net::{Net, SocketAddr, TcpListener, TcpStream};
use std::os::fd::AsRawFd;
use std::time::Duration;

/// The token of each connection.
const CONNECTION: Token = Token(0);

/// A network that does what another one does, and enters each connection that it makes in a registry. A connection
/// that is dropped leaves the registry by itself.
#[derive(Drop)]
pub struct WatchedNet<'a, N: Net<Stream = TcpStream, Listener = TcpListener>> {
    net: &'a N,
    registry: &'a Registry,
}

impl<'a, N: Net<Stream = TcpStream, Listener = TcpListener>> WatchedNet<'a, N> {
    /// The same network, whose connections go into this registry.
    pub fn new(net: &'a N, registry: &'a Registry) -> WatchedNet<'a, N> {
        WatchedNet { net, registry }
    }

    /// A connection that can't be entered is not watched.
    fn enter(&self, stream: TcpStream) -> TcpStream {
        let _entered = self.registry.register(
            &mut SourceFd(&stream.as_raw_fd()),
            CONNECTION,
            Interest::READABLE,
        );
        stream
    }
}

impl<N: Net<Stream = TcpStream, Listener = TcpListener>> Net for WatchedNet<'_, N> {
    type Stream = TcpStream;

    type Listener = TcpListener;

    fn bind(&self, addr: SocketAddr) -> io::Result<TcpListener> {
        self.net.bind(addr)
    }

    fn connect(&self, addr: SocketAddr) -> io::Result<TcpStream> {
        Ok(self.enter(self.net.connect(addr)?))
    }

    fn connect_timeout(&self, addr: SocketAddr, timeout: Duration) -> io::Result<TcpStream> {
        Ok(self.enter(self.net.connect_timeout(addr, timeout)?))
    }

    fn lookup_host(&self, host: &str, port: u16, found: &mut [SocketAddr]) -> io::Result<usize> {
        self.net.lookup_host(host, port, found)
    }
}

//! A network in which a name has addresses of the test's own.

use std::io;
use std::net::{Net, SocketAddr, TcpListener, TcpStream};
use std::time::Duration;

/// A network in which each name has these two addresses, in this order.
#[derive(Drop)]
pub struct Named<'a, N: Net<Stream = TcpStream, Listener = TcpListener>> {
    net: &'a N,
    addresses: [SocketAddr; 2],
}

impl<'a, N: Net<Stream = TcpStream, Listener = TcpListener>> Named<'a, N> {
    /// A network that connects as another one does.
    pub fn new(net: &'a N, addresses: [SocketAddr; 2]) -> Named<'a, N> {
        Named { net, addresses }
    }
}

impl<N: Net<Stream = TcpStream, Listener = TcpListener>> Net for Named<'_, N> {
    type Stream = TcpStream;

    type Listener = TcpListener;

    fn bind(&self, addr: SocketAddr) -> io::Result<TcpListener> {
        self.net.bind(addr)
    }

    fn connect(&self, addr: SocketAddr) -> io::Result<TcpStream> {
        self.net.connect(addr)
    }

    fn connect_timeout(&self, addr: SocketAddr, timeout: Duration) -> io::Result<TcpStream> {
        self.net.connect_timeout(addr, timeout)
    }

    fn lookup_host(&self, _host: &str, _port: u16, found: &mut [SocketAddr]) -> io::Result<usize> {
        let count = found.len().min(self.addresses.len());
        found[..count].copy_from_slice(&self.addresses[..count]);
        Ok(count)
    }
}

//! Carriers of bytes between a client and a server: within one memory, or over the sockets of one machine.

mod carrier;
mod sockets;

pub use carrier::{Broken, Carrier, InMemory, Way};
pub use sockets::{BothEnds, Connects, Ends, Sockets};

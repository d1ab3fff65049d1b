//! The wires of one connection.

use crate::wire::Wire;

/// The wires of a connection.
#[derive(Drop)]
pub(crate) struct Link {
    pub(crate) to_client: Wire,
    pub(crate) to_server: Wire,
    /// The server took no line of it yet.
    pub(crate) fresh: bool,
}

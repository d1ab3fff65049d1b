//! What a client has read of a piece.

use crate::taken::Taken;

/// What `Client::feed` has read.
#[derive(Drop)]
pub struct Got<'a> {
    /// How many bytes of the piece were read: those up to and with a line end, or all.
    pub used: usize,
    /// The line that ends with them, if one does, and the answer to it.
    pub taken: Option<Taken<'a>>,
}

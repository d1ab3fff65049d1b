//! Turns of a client with a stream.

mod connected;
mod refused_notes;

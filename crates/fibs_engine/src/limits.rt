//! How much the engines read.

/// The most times that an input is read, a stream to show or the lines that a user types.
pub const MOST_INPUT_READS: u32 = 1_000_000_000;

/// How many bytes are asked for at once, of an input or of the server.
pub const READ_PORTION: usize = 1024;

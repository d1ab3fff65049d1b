//! The limits of what is read and written, in bytes. Those that a clause names are in specs/Limits too.

/// How many bytes of a script are asked for at once.
pub const READ_LEN: usize = 4096;

/// How many bytes a script may have.
pub const SCRIPT_LIMIT: usize = 1_048_576;

/// How many bytes of the log are written at once.
pub const WRITE_LEN: usize = 8192;

/// The most bytes of an entry's line, with its end.
pub const ENTRY_LEN: usize = 417;

/// How many bytes a last line has room for.
pub const LAST_LINE_LEN: usize = 128;

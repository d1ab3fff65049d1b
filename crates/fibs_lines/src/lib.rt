//! Turns a stream of bytes, which comes in any pieces, into lines.
//!
//! The stream is that of a telnet server that sends lines of text. In this order:
//!
//! 1. Telnet commands are removed (RFC 854): the byte 255 and a byte from 251 to 254 with the byte after them, and 255
//!    with any other byte after it; but 255 255 is the byte 255.
//! 2. A line ends at LF. One CR directly before it is dropped; any other CR is a byte of the line.
//! 3. The first `LIMIT` bytes of a line are kept. It is cut if there are more.
//! 4. The prompts `login: ` and `> ` at the start of what is kept are removed, as often as one of them is there.
//!
//! `Lines` is the reader. `laws` states what holds of every stream, for proofs in the crates above. `Questions` tells a
//! login that is refused, which no line does.
#![tactic(auto)]

pub mod laws;
mod line;
mod line_buffer;
mod lines;
mod literal;
mod prompts;
mod questions;
mod sent;
mod telnet;
mod unfinished;

pub use line::{Line, without_return};
pub use lines::{Fed, Lines, WholeLine};
pub use prompts::LOGIN_PROMPT;
pub use questions::Questions;
pub use sent::sent_line;

/// How many bytes of a line are kept. The definitions have the same number, as `kept_limit`.
pub const LIMIT: usize = 16_384;

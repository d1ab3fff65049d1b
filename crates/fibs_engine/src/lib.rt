//! What all engines share.
//!
//! Why one stops and its status, how much it reads, how bytes are written, and how a line is shown that is not plain;
//! what is printed for a stream, line by line; the standard streams, and why one failed; and, in a folder of their own,
//! connections to a server.
#![tactic(auto)]

mod connections;
pub mod escape;
pub mod fault;
pub mod fixed;
mod input;
pub mod limits;
pub mod line_printer;
pub mod malformed;
pub mod noting;
pub mod standard;
pub mod status;
pub mod stream_fault;
pub mod streams;
pub mod writing;

pub use connections::{dial, link, logging, pacing, refusing};

//! Connections to a server: streams of two directions, how they are dialled, and streams in between that pace a turn or
//! keep a log.

mod alive;
pub mod dial;
pub mod link;
pub mod logging;
pub mod pacing;
pub mod refusing;

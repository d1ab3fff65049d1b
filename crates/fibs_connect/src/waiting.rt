//! The server is heard while a person types nothing at a terminal. The first line of a password file.

mod password;
mod watch;
mod watched_net;

pub use password::first_line;
pub use watch::PollWatch;
pub use watched_net::WatchedNet;

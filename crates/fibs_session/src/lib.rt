//! The client of a backgammon server, from bytes to bytes: what it keeps of what the server said, what it answers, and
//! why it refuses a decision; and what a line that a user types is. No call opens a socket.
#![tactic(auto)]

pub mod client;
mod connection;
mod deciding;
mod hearing;
pub mod histories;
pub mod laws;
mod ordering;
mod session;
mod taken;
pub mod typed;

pub use client::{Client, Got, HeardLine, Input, run_client};
pub use fibs_commands::{
    AnswerText, CommandText, Login, Plain, PlainFault, autoboard_text, board_text, decision_text,
    moreboards_text, plain_text, read_command, read_plain, roll_text, style_text,
};
pub use fibs_messages::directory::{Directory, DirectoryFault, Player};
pub use histories::{PlainRefusal, Refusal};
pub use session::Session;
pub use taken::{Outstanding, Taken};

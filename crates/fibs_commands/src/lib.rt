//! The commands that a client sends: their texts, printed and read.
#![tactic(auto)]

mod answers;
mod command_reader;
mod decisions;
pub mod laws;
mod login;
mod plain;
mod plain_reader;
mod text;

pub use answers::{autoboard_text, board_text, moreboards_text, roll_text, style_text};
pub use command_reader::read_command;
pub use decisions::{BAR, decision_text};
pub use login::Login;
pub use plain::{Plain, PlainFault, plain_text};
pub use plain_reader::read_plain;
pub use text::{AnswerText, CommandText};

//! What a person at a terminal reads: messages, reasons, dates and lists in words; and what that terminal is, with
//! the user's own settings.
#![tactic(auto)]

pub mod dates;
pub mod environment;
pub mod help;
pub mod invitations;
pub mod lists;
pub mod matches;
pub mod meant;
pub mod messages;
pub mod players;
pub mod rated;
pub mod reasons;
pub mod rematch;
pub mod saved;
pub mod server_words;

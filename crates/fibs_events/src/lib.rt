//! What the server's lines say has happened: events, of boards and of texts.
#![tactic(auto)]

pub mod asking;
mod boards;
mod details;
pub mod event;
mod events;
pub mod finding;
pub mod happened;
mod memory;
pub mod mirror;
mod sayings;
mod scores;
mod texts;
pub mod told;
mod turning;

pub use memory::Events;

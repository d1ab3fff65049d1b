//! A board as its player sees it: drawn in plain ASCII, and in words for a player who hears it.
#![tactic(auto)]

mod below;
mod cell;
pub mod in_words;
mod ink;
pub mod laws;
mod look;
mod mark;
mod notes;
mod picture;
mod pips;
mod rows;
mod strip;
mod words;
mod writing;

pub use look::{Look, are_letters};
pub use mark::{Arrivals, NO_ARRIVALS};
pub use picture::{append_game, append_watched};
pub(crate) use words::{doublers, shown_name};

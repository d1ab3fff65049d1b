//! The rules of backgammon, over arrangements of the checkers: steps, plays, and the legal plays of a turn.
#![tactic(auto)]

mod arrangement;
pub mod laws;
mod play;
mod plays;
mod reached;
mod search;
mod step;
mod turn;

pub use arrangement::{Arrangement, total};
pub use play::Play;
pub use step::Step;
pub use turn::Turn;

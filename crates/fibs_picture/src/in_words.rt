//! A board in words, for a player who hears it or reads it by touch.

mod blots;
mod broken;
mod dice;
mod fact;
mod game;
pub mod laws;
mod listed;
mod named;
mod place;
mod side;
mod stacks;
mod title;
mod told;
mod watched;
mod words;

pub use broken::append_rows_of;
pub use fact::Fact;
pub use listed::Listed;
pub use side::Side;
pub use title::write_title;
pub use told::{Told, append_row, append_told};
